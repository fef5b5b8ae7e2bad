// A function for each kind of event: its refusal, or what carries it out. Each says the two cases itself: a closure for the second would
// have to lend the page on.
ghost use Rattle.events.specs.declared.event.Event.TheVariants.{Entry, Request, MemoryRead, MemoryWrite, ToCr8, FromCr8, Rdmsr, Wrmsr, Boundary};
ghost use Rattle.processor.specs.Access.{between};
ghost use Rattle.meaning.specs.After.{Leaves};
ghost use Rattle.meaning.specs.Input.{given};
ghost use Rattle.meaning.specs.Step.{step as step_of};

use crate::outcome::refused;
use boundaries::{boundary, entry};
use events::answer::Outcome;
use events::bounds::{
    ACTIVITIES, CR8_VALUES, REGISTERS, VECTORS, memory_read_in_bounds, memory_write_in_bounds,
    vector_in_bounds,
};
use handlers::{cr8, memory, msr};
use processor::access::MemoryAccess;
use processor::controls::{Controls, Record};
use refusals::list::{entry_refusal, guest_refusal, root_refusal};

pub fn entry(page: &mut [u8], record: Record, controls: Controls) -> Outcome
    ensures { Leaves (step_of page.old «record» (given (Entry controls))) result page.new }
{
    match entry_refusal(page, record, controls) {
        Ok(()) => entry::entry(page, record, controls),
        Err(refusal) => refused(record, refusal),
    }
}

pub fn request(page: &mut [u8], record: Record, vector: u16) -> Outcome
    ensures { Leaves (step_of page.old «record» (given (Request vector))) result page.new }
{
    let refusal = root_refusal(page, record, vector_in_bounds(vector as u32), None);
    match refusal {
        Ok(()) => entry::request(page, record, (vector % VECTORS) as u8),
        Err(refusal) => refused(record, refusal),
    }
}

pub fn memory_read(page: &[u8], record: Record, access: MemoryAccess) -> Outcome
    ensures { Leaves (step_of page.now «record» (given (MemoryRead access))) result page.now }
{
    let refusal = guest_refusal(page, record, memory_read_in_bounds(access));
    match refusal {
        Ok(()) => memory::memory_read(page, record, access),
        Err(refusal) => refused(record, refusal),
    }
}

pub fn memory_write(page: &mut [u8], record: Record, access: MemoryAccess, value: u64) -> Outcome
    ensures { Leaves (step_of page.old «record» (given (MemoryWrite access value))) result page.new }
{
    let refusal = guest_refusal(page, record, memory_write_in_bounds(access, value));
    match refusal {
        Ok(()) => memory::memory_write(page, record, access, value),
        Err(refusal) => refused(record, refusal),
    }
}

pub fn to_cr8(page: &mut [u8], record: Record, value: u8, register: u8) -> Outcome
    ensures { Leaves (step_of page.old «record» (given (ToCr8 value register))) result page.new }
{
    let refusal = guest_refusal(page, record, (value < CR8_VALUES) & (register < REGISTERS));
    match refusal {
        Ok(()) => cr8::mov_to_cr8(page, record, value, register),
        Err(refusal) => refused(record, refusal),
    }
}

pub fn from_cr8(page: &[u8], record: Record, register: u8) -> Outcome
    ensures { Leaves (step_of page.now «record» (given (FromCr8 register))) result page.now }
{
    let refusal = guest_refusal(page, record, register < REGISTERS);
    match refusal {
        Ok(()) => cr8::mov_from_cr8(page, record, register),
        Err(refusal) => refused(record, refusal),
    }
}

pub fn rdmsr(page: &[u8], record: Record, index: u32) -> Outcome
    ensures { Leaves (step_of page.now «record» (given (Rdmsr index))) result page.now }
{
    let refusal = guest_refusal(page, record, true);
    match refusal {
        Ok(()) => msr::read_msr(page, record, index),
        Err(refusal) => refused(record, refusal),
    }
}

pub fn wrmsr(page: &mut [u8], record: Record, index: u32, value: u64) -> Outcome
    ensures { Leaves (step_of page.old «record» (given (Wrmsr index value))) result page.new }
{
    let refusal = guest_refusal(page, record, true);
    match refusal {
        Ok(()) => msr::write_msr(page, record, index, value),
        Err(refusal) => refused(record, refusal),
    }
}

// The four values go side by side for the instructions that `open_boundary` says.
pub fn boundary(
    page: &mut [u8],
    record: Record,
    interrupts: bool,
    sti: bool,
    mov_ss: bool,
    activity: u8,
) -> Outcome
    ensures { Leaves (step_of page.old «record» (given (Boundary (between interrupts sti mov_ss activity)))) result page.new }
{
    let refusal = guest_refusal(page, record, activity < ACTIVITIES);
    match refusal {
        Ok(()) => boundary::boundary(page, record, interrupts, sti, mov_ss, activity),
        Err(refusal) => refused(record, refusal),
    }
}
