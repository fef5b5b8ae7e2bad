// The boundary between two guest instructions.
ghost use Rattle.std.specs.Prelude.{◌≡◌};
ghost use Rattle.meaning.specs.After.{Leaves};
ghost use Rattle.meaning.specs.Boundary.{delivered_page, delivery as delivery_of, boundary_at, boundary as boundary_of};

use events::answer::Outcome;
use priorities::procedures::{low_cleared, open_boundary};
use procedures::delivery::delivered_record;
use procedures::outcome::{delivered, exit, quiet};
use processor::controls::{Control, Record};
use processor::offsets::{VIRR, VISR, VPPR};
use setting::put_vector;
use stores::bytes::set_word;

fn move_to_service(page: &mut [u8], vector: u8)
    ensures { page.new ≡ delivered_page page.old vector }
{
    put_vector(page, VISR, vector, true);
    set_word(page, VPPR, low_cleared(vector) as u32);
    put_vector(page, VIRR, vector, false);
}

fn delivery(page: &mut [u8], record: Record) -> Outcome
    ensures { Leaves (delivery_of page.old «record») result page.new }
{
    let vector = record.rvi;
    move_to_service(page, vector);
    delivered(delivered_record(page, record), vector)
}

fn boundary_at(page: &mut [u8], record: Record, is_open: bool) -> Outcome
    ensures { Leaves (boundary_at is_open page.old «record») result page.new }
{
    let controls = record.controls;
    if is_open & controls.has(Control::InterruptWindowExiting) {
        return exit(record, 7, 0);
    }
    if is_open & record.recognised {
        return delivery(page, record);
    }
    quiet(record)
}

// The four values go side by side for the instructions that `open_boundary` says.
pub fn boundary(
    page: &mut [u8],
    record: Record,
    interrupts: bool,
    sti: bool,
    mov_ss: bool,
    activity: u8,
) -> Outcome
    ensures { Leaves (boundary_of page.old «record» interrupts sti mov_ss activity) result page.new }
{
    boundary_at(
        page,
        record,
        open_boundary(interrupts, sti, mov_ss, activity),
    )
}
