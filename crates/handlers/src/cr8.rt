// CR8 both ways.
ghost use Rattle.meaning.specs.After.{Leaves};
ghost use Rattle.meaning.specs.Cr8Msr.{mov_to_cr8, mov_from_cr8};

use events::answer::Outcome;
use instructions::cr8::{from_cr8, from_cr8_qualification, to_cr8, to_cr8_qualification};
use page::bytes::byte_at;
use priorities::procedures::class_of;
use procedures::outcome::{exit, passthrough, redirected};
use procedures::virtualization::tpr_virtualization;
use processor::access::Access;
use processor::controls::Record;
use processor::offsets::VTPR;
use stores::bytes::set_word;

pub fn mov_to_cr8(page: &mut [u8], record: Record, value: u8, register: u8) -> Outcome
    ensures { Leaves (mov_to_cr8 page.old «record» value register) result page.new }
{
    match to_cr8(record.controls) {
        Access::Passthrough => passthrough(record),
        Access::Exit => exit(record, 28, to_cr8_qualification(register)),
        Access::Redirected => {
            set_word(page, VTPR, 16 * (value as u32));
            tpr_virtualization(page, record)
        }
    }
}

pub fn mov_from_cr8(page: &[u8], record: Record, register: u8) -> Outcome
    ensures { Leaves (mov_from_cr8 page.now «record» register) result page.now }
{
    match from_cr8(record.controls) {
        Access::Passthrough => passthrough(record),
        Access::Exit => exit(record, 28, from_cr8_qualification(register)),
        Access::Redirected => redirected(record, class_of(byte_at(page, VTPR)) as u64),
    }
}
