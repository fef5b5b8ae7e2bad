// Entry and request.
ghost use Rattle.meaning.specs.After.{Leaves};
ghost use Rattle.meaning.specs.Entry.{entered as entered_of, entry as entry_of, request as request_of};

use events::answer::Outcome;
use page::bytes::byte_at;
use procedures::outcome::{exit, quiet};
use procedures::virtualization::{evaluated_quiet, ppr_virtualization, requested};
use processor::controls::{Control, Controls, Record};
use processor::offsets::{VIRR, VTPR};
use rules::entry::exits_at_entry;
use setting::put_vector;

fn entered(page: &mut [u8], record: Record) -> Outcome
    ensures { Leaves (entered_of page.old «record») result page.new }
{
    let controls = record.controls;
    if controls.has(Control::VirtualDelivery) {
        ppr_virtualization(page, record);
        return evaluated_quiet(page, record);
    }
    let mut next = record;
    next.recognised = false;
    quiet(next)
}

pub fn entry(page: &mut [u8], record: Record, controls: Controls) -> Outcome
    ensures { Leaves (entry_of page.old «record» controls) result page.new }
{
    let mut next = record;
    next.controls = controls;
    if exits_at_entry(controls, byte_at(page, VTPR)) {
        return exit(next, 43, 0);
    }
    next.guest = true;
    entered(page, next)
}

pub fn request(page: &mut [u8], record: Record, vector: u8) -> Outcome
    ensures { Leaves (request_of page.old «record» vector) result page.new }
{
    put_vector(page, VIRR, vector, true);
    quiet(requested(record, vector))
}
