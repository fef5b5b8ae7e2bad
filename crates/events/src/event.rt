// The events, at widths that can hold what a recorder writes down, and their bounds.
ghost use Rattle.std.specs.Prelude.{◌≡◌};
ghost use Rattle.events.specs.Events.{event_in_bounds, in_bounds, root_only, allowed};

use crate::bounds::{
    ACTIVITIES, CR8_VALUES, REGISTERS, memory_read_in_bounds, memory_write_in_bounds,
    vector_in_bounds,
};
use processor::access::MemoryAccess;
use processor::boundary::Between;
use processor::controls::{Controls, Record};

#[derive(Clone, Copy)]
pub enum Event {
    Entry(Controls),
    Request(u16),
    MemoryRead(MemoryAccess),
    MemoryWrite { access: MemoryAccess, value: u64 },
    ToCr8 { value: u8, register: u8 },
    FromCr8(u8),
    Rdmsr(u32),
    Wrmsr { index: u32, value: u64 },
    Boundary(Between),
}

// Every field of the event is within its bounds.
fn event_in_bounds(event: Event) -> bool
    ensures { result ≡ event_in_bounds event }
{
    match event {
        Event::Entry(controls) => controls.flags_in_bounds(),
        Event::Request(vector) => vector_in_bounds(vector as u32),
        Event::MemoryRead(access) => memory_read_in_bounds(access),
        Event::MemoryWrite { access, value } => memory_write_in_bounds(access, value),
        Event::ToCr8 { value, register } => (value < CR8_VALUES) & (register < REGISTERS),
        Event::FromCr8(register) => register < REGISTERS,
        Event::Rdmsr(_) | Event::Wrmsr { .. } => true,
        Event::Boundary(at) => at.activity < ACTIVITIES,
    }
}

// No field of the record or of the event is outside its bounds: refusal 2 otherwise.
pub fn in_bounds(record: Record, event: Event) -> bool
    ensures { result ≡ in_bounds «record» event }
{
    let controls = record.controls;
    controls.flags_in_bounds() & event_in_bounds(event)
}

// Entry and request belong to root mode, every other event to guest mode.
fn root_only(event: Event) -> bool
    ensures { result ≡ root_only event }
{
    match event {
        Event::Entry(_) | Event::Request(_) => true,
        Event::MemoryRead(_) | Event::MemoryWrite { .. } => false,
        Event::ToCr8 { .. } | Event::FromCr8(_) => false,
        Event::Rdmsr(_) | Event::Wrmsr { .. } => false,
        Event::Boundary(_) => false,
    }
}

// The event is allowed in the record's mode: refusal 3 otherwise.
pub fn is_allowed(record: Record, event: Event) -> bool
    ensures { result ≡ allowed «record» event }
{
    if root_only(event) {
        return !record.guest;
    }
    record.guest
}
