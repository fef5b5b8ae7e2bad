// The table of open offsets, and how it is read.
ghost use Rattle.std.specs.Prelude.{◌≡◌, T};
ghost use Rattle.table.specs.Marks.{marked, carries_rule};
ghost use Rattle.table.specs.Table.{open_offset};

use processor::controls::{Control, Controls};

// A bit for each register from 000 to 3F0, in steps of 10H: bit 0 for 000, bit 63 for 3F0. A run of registers has a bit for each.
const APIC_ID: u64 = 1 << 0x020 / 0x10; // APIC ID

const VERSION: u64 = 1 << 0x030 / 0x10; // version

const TPR: u64 = 1 << 0x080 / 0x10; // task priority

const EOI: u64 = 1 << 0x0b0 / 0x10; // end of interrupt

const LDR: u64 = 1 << 0x0d0 / 0x10; // logical destination

const DFR: u64 = 1 << 0x0e0 / 0x10; // destination format

const SVR: u64 = 1 << 0x0f0 / 0x10; // spurious-interrupt vector

const ISR: u64 = 0xff << 0x100 / 0x10; // in-service, 100 to 170

const TMR: u64 = 0xff << 0x180 / 0x10; // trigger mode, 180 to 1F0

const IRR: u64 = 0xff << 0x200 / 0x10; // interrupt request, 200 to 270

const ESR: u64 = 1 << 0x280 / 0x10; // error status

const ICR_LOW: u64 = 1 << 0x300 / 0x10; // interrupt command, bits 31:0

const ICR_HIGH: u64 = 1 << 0x310 / 0x10; // interrupt command, bits 63:32

const LVT: u64 = 0x3f << 0x320 / 0x10; // local vector table, 320 to 370: timer, thermal, performance, LINT0, LINT1, error

const INITIAL_COUNT: u64 = 1 << 0x380 / 0x10; // initial count

const DIVIDE: u64 = 1 << 0x3e0 / 0x10; // divide configuration

// Read marks alone: the registers that may be read and not written.
const READ_ONLY: u64 = VERSION + ISR + TMR + IRR;

// Read and write marks: the registers that may be read and written.
const READ_WRITE: u64 = APIC_ID
    + TPR
    + EOI
    + LDR
    + DFR
    + SVR
    + ESR
    + ICR_LOW
    + ICR_HIGH
    + LVT
    + INITIAL_COUNT
    + DIVIDE;

// The registers open in each setting.
#[derive(Clone, Copy)]
struct Open {
    // Control 3 off and VID off: a register's first byte alone.
    tpr: u64,
    // Control 3 off and VID on: a register's first byte alone.
    delivery: u64,
    // Control 3 on, a read: any of a register's four bytes.
    read: u64,
    // Control 3 on, a write: any of a register's four bytes.
    write: u64,
}

// The table of open offsets.
const OPEN: Open = Open {
    tpr: TPR,
    delivery: TPR + EOI + ICR_LOW,
    read: READ_ONLY + READ_WRITE,
    write: READ_WRITE,
};

fn open_table() -> Open
    ensures { T (carries_rule result) }
{
    OPEN
}

// The register that an offset lies in has its mark; past the table none has.
fn marked(marks: u64, offset: u16) -> bool
    ensures { result ≡ marked marks offset }
{
    let row = offset / 16;
    if row < 64 {
        return (marks >> row) % 2 == 1;
    }
    false
}

// The offset may be redirected: its register has the setting's mark.
pub fn open_offset(c: Controls, write: bool, offset: u16) -> bool
    ensures { result ≡ open_offset c write offset }
{
    let table = open_table();
    if c.has(Control::ApicRegisterVirtualization) {
        if write {
            return (offset % 16 < 4) & marked(table.write, offset);
        }
        return (offset % 16 < 4) & marked(table.read, offset);
    }
    if c.has(Control::VirtualDelivery) {
        return (offset % 16 == 0) & marked(table.delivery, offset);
    }
    (offset % 16 == 0) & marked(table.tpr, offset)
}
