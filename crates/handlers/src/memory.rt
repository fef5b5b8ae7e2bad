// Memory accesses.
ghost use Rattle.std.specs.Prelude.{◌≡◌, ◌<◌};
ghost use Rattle.meaning.specs.After.{Leaves};
ghost use Rattle.meaning.specs.Memory.{memory_read, clear_three, follow_by, written as written_of, memory_write};

use accesses::memory::{
    Following, memory_access, read_qualification, write_following, write_qualification,
};
use events::answer::Outcome;
use page::bytes::{byte_at, word_at};
use procedures::outcome::{exit, passthrough, quiet, redirected};
use procedures::virtualization::{eoi_end, retired, self_ipi_virtualization, tpr_virtualization};
use processor::access::{Access, MemoryAccess};
use processor::controls::Record;
use processor::offsets::{VEOI, VICR_HI, VICR_LO, VTPR};
use sizes::bytes::{read_at, store_at};
use stores::bytes::{set_byte, set_word};

pub fn memory_read(page: &[u8], record: Record, access: MemoryAccess) -> Outcome
    ensures { Leaves (memory_read page.now «record» access.offset access.size access.fetch access.already) result page.now }
{
    match memory_access(record.controls, false, access) {
        Access::Passthrough => passthrough(record),
        Access::Exit => exit(record, 44, read_qualification(access.offset, access.fetch)),
        Access::Redirected => redirected(record, read_at(page, access.offset, access.size)),
    }
}

fn clear_three(page: &mut [u8], offset: u16)
    requires { offset < 4096 }
    ensures { page.new ≡ clear_three page.old offset }
{
    set_byte(page, offset, 0);
    set_byte(page, offset + 1, 0);
    set_byte(page, offset + 2, 0);
}

fn follow(page: &mut [u8], record: Record, offset: u16, following: Following) -> Outcome
    ensures { Leaves (follow_by following page.old «record» offset) result page.new }
{
    match following {
        Following::Tpr => {
            clear_three(page, VTPR + 1);
            tpr_virtualization(page, record)
        }
        Following::Eoi => {
            set_word(page, VEOI, 0);
            let mut next = record;
            next.svi = retired(page, record.svi);
            eoi_end(page, next, record.svi)
        }
        Following::SelfIpi => {
            let vector = byte_at(page, VICR_LO);
            self_ipi_virtualization(page, record, vector)
        }
        Following::IcrHigh => {
            clear_three(page, VICR_HI);
            quiet(record)
        }
        Following::ApicWrite => exit(record, 56, offset as u64),
    }
}

fn written(page: &mut [u8], record: Record, offset: u16) -> Outcome
    ensures { Leaves (written_of page.old «record» offset) result page.new }
{
    let controls = record.controls;
    let icr = word_at(page, VICR_LO);
    follow(page, record, offset, write_following(controls, offset, icr))
}

pub fn memory_write(page: &mut [u8], record: Record, access: MemoryAccess, value: u64) -> Outcome
    ensures { Leaves (memory_write page.old «record» access.offset access.size access.fetch access.already value) result page.new }
{
    match memory_access(record.controls, true, access) {
        Access::Passthrough => passthrough(record),
        Access::Exit => exit(record, 44, write_qualification(access.offset)),
        Access::Redirected => {
            store_at(page, access.offset, access.size, value);
            written(page, record, access.offset)
        }
    }
}
