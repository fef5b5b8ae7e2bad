// What an access to CR8 comes to.
ghost use Rattle.std.specs.Prelude.{◌≡◌, ◌%◌};
ghost use Rattle.processor.specs.Controls.{is_on, control_bit};
ghost use Rattle.instructions.specs.Instructions.{cr8_access, to_cr8, from_cr8, cr8_qualification, to_cr8_qualification, from_cr8_qualification};

use processor::access::Access;
use processor::controls::{Control, Controls};

// The low bits of exit 28's qualification.
const TO_CR8: u8 = 8;

const FROM_CR8: u8 = 24;

// An access to CR8, by its exit control.
fn cr8_access(c: Controls, exiting: Control) -> Access
    ensures { result ≡ cr8_access (is_on c (control_bit exiting)) c }
{
    if c.has(exiting) {
        return Access::Exit;
    }
    if !c.has(Control::UseTprShadow) {
        return Access::Passthrough;
    }
    Access::Redirected
}

// To CR8 and from CR8 are `cr8_access` at one control each, and `cr8_qualification` at one number, by the names of the definitions: a
// parameter in their place would move the two into each caller.
pub fn to_cr8(c: Controls) -> Access
    ensures { result ≡ to_cr8 c }
{
    cr8_access(c, Control::Cr8LoadExiting)
}

pub fn from_cr8(c: Controls) -> Access
    ensures { result ≡ from_cr8 c }
{
    cr8_access(c, Control::Cr8StoreExiting)
}

fn cr8_qualification(low: u8, register: u8) -> u64
    ensures { result ≡ cr8_qualification low register }
{
    low as u64 + 256 * (register as u64)
}

pub fn to_cr8_qualification(register: u8) -> u64
    ensures { result ≡ to_cr8_qualification register }
{
    cr8_qualification(TO_CR8, register)
}

pub fn from_cr8_qualification(register: u8) -> u64
    ensures { result ≡ from_cr8_qualification register }
{
    cr8_qualification(FROM_CR8, register)
}
