// What carries an external interrupt out that nothing refuses: passthrough, exit 1, or the posting of a lent descriptor.
#![tactic(auto, unfolding(meaning::specs::External::descriptor_out, meaning::specs::External::external_interrupt, meaning::specs::External::posted_record, meaning::specs::External::posting))]

ghost use Rattle.std.specs.Prelude.{◌≡◌};
ghost use Rattle.descriptor.specs.Descriptor.{cleared};
ghost use Rattle.meaning.specs.External.{notifies as notifies_by, posted_record, posting as posting_of, external_interrupt, descriptor_out, LeavesLent};

use descriptor::posted::{highest_posted, raised_by};
use events::answer::Outcome;
use joining::{clear, join};
use procedures::outcome::{exit, passthrough};
use procedures::virtualization::evaluated_quiet;
use processor::controls::{Control, Controls, Record};

// Posting is on, and this is the notification vector, all 16 bits of it.
fn notifies(c: Controls, vector: u32) -> bool
    ensures { result ≡ notifies_by c vector }
{
    c.has(Control::ProcessPostedInterrupts) & (vector == c.notification as u32)
}

// The record with RVI the larger of itself and the highest posted vector.
fn posted_record(record: Record, descriptor: &[u8]) -> Record
    ensures { result ≡ posted_record «record» descriptor.now }
{
    let mut next = record;
    next.rvi = raised_by(record.rvi, highest_posted(descriptor));
    next
}

// Posted bits join VIRR and are cleared with the outstanding bit; evaluation, quiet.
fn posting(page: &mut [u8], record: Record, descriptor: &mut [u8]) -> Outcome
    ensures { LeavesLent (posting_of page.old «record» descriptor.old) (cleared descriptor.old) result page.new descriptor.new }
{
    let next = posted_record(record, descriptor);
    join(page, descriptor);
    clear(descriptor);
    evaluated_quiet(page, next)
}

pub fn external_interrupt(
    page: &mut [u8],
    record: Record,
    descriptor: &mut [u8],
    vector: u32,
) -> Outcome
    ensures { LeavesLent (external_interrupt page.old «record» descriptor.old vector) (descriptor_out «record» descriptor.old vector) result page.new descriptor.new }
{
    let controls = record.controls;
    if !controls.has(Control::ExternalInterruptExiting) {
        return passthrough(record);
    }
    if !notifies(controls, vector) {
        return exit(record, 1, 0);
    }
    posting(page, record, descriptor)
}
