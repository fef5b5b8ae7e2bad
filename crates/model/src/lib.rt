// The model: one input at a time on a lent page. Page and record go side by side through every function: C lends the two apart, the core
// takes the record by value, and a guest that leaves brings no page.
#![tactic(auto, unfolding(events::specs::Events::allowed, events::specs::Events::event_in_bounds, events::specs::Events::root_only, meaning::specs::External::descriptor_by, meaning::specs::Leave::left, meaning::specs::Refusals::refusal_of, meaning::specs::Step::carried_out, meaning::specs::Step::descriptor_after, meaning::specs::Step::event_out, meaning::specs::Step::step, meaning::specs::Step::step_by))]

ghost use Rattle.meaning.specs.After.{Leaves};
ghost use Rattle.meaning.specs.External.{LeavesLent};
ghost use Rattle.meaning.specs.Input.{given, external, leaves};
ghost use Rattle.meaning.specs.Step.{step as step_of, descriptor_after};
ghost use Rattle.std.specs.Prelude.{List, ℕ};

use events::answer::Outcome;
use events::event::Event;
use processor::controls::Record;

pub mod kinds;
mod outcome;

// The record before any event: root mode, all zero.
pub use processor::controls::fresh_record;

// Which refusal an event, an external interrupt, or a guest that leaves, gets.
pub use refusals::list::{external_refusal_of, leave_refusal_of, refusal_of};

// Carries out one event on any page slice and any record, or refuses it by its number.
pub fn step(page: &mut [u8], record: Record, event: Event) -> Outcome
    ensures { Leaves (step_of page.old «record» (given event)) result page.new }
{
    match event {
        Event::Entry(controls) => kinds::entry(page, record, controls),
        Event::Request(vector) => kinds::request(page, record, vector),
        Event::MemoryRead(access) => kinds::memory_read(page, record, access),
        Event::MemoryWrite { access, value } => kinds::memory_write(page, record, access, value),
        Event::ToCr8 { value, register } => kinds::to_cr8(page, record, value, register),
        Event::FromCr8(register) => kinds::from_cr8(page, record, register),
        Event::Rdmsr(index) => kinds::rdmsr(page, record, index),
        Event::Wrmsr { index, value } => kinds::wrmsr(page, record, index, value),
        Event::Boundary(at) => kinds::boundary(
            page,
            record,
            at.interrupts,
            at.sti,
            at.mov_ss,
            at.activity,
        ),
    }
}

// An external interrupt with a vector on any page slice, any record and any descriptor slice, or its refusal.
pub fn external_interrupt(
    page: &mut [u8],
    record: Record,
    descriptor: &mut [u8],
    vector: u32,
) -> Outcome
    ensures { LeavesLent (step_of page.old «record» (external descriptor.old vector)) (descriptor_after page.old «record» descriptor.old vector) result page.new descriptor.new }
{
    let refusal = external_refusal_of(page, record, descriptor, vector);
    match refusal {
        Ok(()) => posting::external_interrupt(page, record, descriptor, vector),
        Err(refusal) => outcome::refused(record, refusal),
    }
}

// The guest leaves for a reason outside the model, on whatever page.
pub fn leave(record: Record) -> Outcome
    ensures { (p : List ℕ) → Leaves (step_of p «record» leaves) result p }
{
    let refusal = leave_refusal_of(record);
    match refusal {
        Ok(()) => outcome::left(record),
        Err(refusal) => outcome::refused(record, refusal),
    }
}
