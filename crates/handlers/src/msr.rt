// RDMSR and WRMSR. Index and value of a WRMSR are two numbers side by side, as document 01 writes them.
ghost use Rattle.meaning.specs.After.{Leaves};
ghost use Rattle.meaning.specs.Cr8Msr.{read_msr, write_msr_by, write_msr};

use events::answer::Outcome;
use instructions::msr::{MsrWrite, msr_offset, rdmsr_redirected, wrmsr_of};
use page::bytes::long_at;
use procedures::outcome::{exit, fault, passthrough, redirected};
use procedures::virtualization::{eoi_end, retired, self_ipi_virtualization, tpr_virtualization};
use processor::controls::Record;
use stores::bytes::set_long;

pub fn read_msr(page: &[u8], record: Record, index: u32) -> Outcome
    ensures { Leaves (read_msr page.now «record» index) result page.now }
{
    let controls = record.controls;
    if rdmsr_redirected(controls, index) {
        return redirected(record, long_at(page, msr_offset(index)));
    }
    passthrough(record)
}

fn follow_msr(page: &mut [u8], record: Record, index: u32, value: u64, write: MsrWrite) -> Outcome
    ensures { Leaves (write_msr_by write page.old «record» index value) result page.new }
{
    match write {
        MsrWrite::Passthrough => passthrough(record),
        MsrWrite::Fault => fault(record),
        MsrWrite::Tpr => {
            set_long(page, msr_offset(index), value);
            tpr_virtualization(page, record)
        }
        MsrWrite::Eoi => {
            set_long(page, msr_offset(index), value);
            let mut next = record;
            next.svi = retired(page, record.svi);
            eoi_end(page, next, record.svi)
        }
        MsrWrite::SelfIpi => {
            set_long(page, msr_offset(index), value);
            self_ipi_virtualization(page, record, (value % 0x100) as u8)
        }
        MsrWrite::ApicWrite => {
            set_long(page, msr_offset(index), value);
            exit(record, 56, 0x3f0)
        }
    }
}

pub fn write_msr(page: &mut [u8], record: Record, index: u32, value: u64) -> Outcome
    ensures { Leaves (write_msr page.old «record» index value) result page.new }
{
    let controls = record.controls;
    follow_msr(page, record, index, value, wrmsr_of(controls, index, value))
}
