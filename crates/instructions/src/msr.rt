// What RDMSR and WRMSR come to.
ghost use Rattle.std.specs.Prelude.{◌≡◌};
ghost use Rattle.instructions.specs.Instructions.{rdmsr_redirected, msr_offset, wrmsr_handled, wrmsr_faults, wrmsr_following, wrmsr};

use processor::controls::{Control, Controls};

// What follows a WRMSR: nothing is stored in the first two cases.
#[derive(Clone, Copy)]
pub enum MsrWrite {
    Passthrough,
    Fault,
    Tpr,
    Eoi,
    SelfIpi,
    ApicWrite,
}

pub fn rdmsr_redirected(c: Controls, index: u32) -> bool
    ensures { result ≡ rdmsr_redirected c index }
{
    c.has(Control::VirtualizeX2apicMode)
        & (0x800 <= index)
        & (index <= 0x8ff)
        & (c.has(Control::ApicRegisterVirtualization) | (index == 0x808))
}

// The offset on the page that an index stands for.
pub fn msr_offset(index: u32) -> u16
    ensures { result ≡ msr_offset index }
{
    (index % 256 * 16) as u16
}

fn wrmsr_handled(c: Controls, index: u32) -> bool
    ensures { result ≡ wrmsr_handled c index }
{
    c.has(Control::VirtualizeX2apicMode)
        & ((index == 0x808)
            | c.has(Control::VirtualDelivery) & ((index == 0x80b) | (index == 0x83f)))
}

fn wrmsr_faults(index: u32, value: u64) -> bool
    ensures { result ≡ wrmsr_faults index value }
{
    (255 < value) | (index == 0x80b) & !(value == 0)
}

fn wrmsr_following(index: u32, value: u64) -> MsrWrite
    ensures { result ≡ wrmsr_following index value }
{
    if index == 0x808 {
        return MsrWrite::Tpr;
    }
    if index == 0x80b {
        return MsrWrite::Eoi;
    }
    if value % 0x100 < 16 {
        return MsrWrite::ApicWrite;
    }
    MsrWrite::SelfIpi
}

pub fn wrmsr_of(c: Controls, index: u32, value: u64) -> MsrWrite
    ensures { result ≡ wrmsr c index value }
{
    if !wrmsr_handled(c, index) {
        return MsrWrite::Passthrough;
    }
    if wrmsr_faults(index, value) {
        return MsrWrite::Fault;
    }
    wrmsr_following(index, value)
}
