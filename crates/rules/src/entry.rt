// The entry checks, and when exit 43 follows an entry at once.
ghost use Rattle.std.specs.Prelude.{◌≡◌};
ghost use Rattle.rules.specs.EntryChecks.{check1, check2, check3, check4, check5, threshold_too_high, check6, failing_check, numbered, exits_at_entry};

use processor::controls::{Control, Controls};

fn check_1(c: Controls) -> bool
    ensures { result ≡ check1 c }
{
    !c.has(Control::UseTprShadow)
        & (c.has(Control::VirtualizeX2apicMode)
            | c.has(Control::ApicRegisterVirtualization)
            | c.has(Control::VirtualDelivery))
}

fn check_2(c: Controls) -> bool
    ensures { result ≡ check2 c }
{
    c.has(Control::VirtualizeApicAccesses) & c.has(Control::VirtualizeX2apicMode)
}

fn check_3(c: Controls) -> bool
    ensures { result ≡ check3 c }
{
    c.has(Control::VirtualDelivery) & !c.has(Control::ExternalInterruptExiting)
}

fn check_4(c: Controls) -> bool
    ensures { result ≡ check4 c }
{
    c.has(Control::UseTprShadow) & !c.has(Control::VirtualDelivery) & (15 < c.threshold)
}

fn check_5(c: Controls) -> bool
    ensures { result ≡ check5 c }
{
    c.has(Control::ProcessPostedInterrupts)
        & (!c.has(Control::VirtualDelivery)
            | !c.has(Control::AcknowledgeOnExit)
            | (255 < c.notification))
}

// Shadow on, VID off, and the threshold above VTPR's class.
fn threshold_too_high(c: Controls, vtpr: u8) -> bool
    ensures { result ≡ threshold_too_high c vtpr }
{
    c.has(Control::UseTprShadow)
        & !c.has(Control::VirtualDelivery)
        & (((vtpr / 16) as u32) < c.threshold)
}

fn check_6(c: Controls, vtpr: u8) -> bool
    ensures { result ≡ check6 c vtpr }
{
    !c.has(Control::VirtualizeApicAccesses) & threshold_too_high(c, vtpr)
}

// The first failing check, or none: by its number, which alone names it in document 01.
pub fn failing_check(c: Controls, vtpr: u8) -> Option<u8>
    ensures { result ≡ numbered (failing_check c vtpr) }
{
    if check_1(c) {
        return Some(1);
    }
    if check_2(c) {
        return Some(2);
    }
    if check_3(c) {
        return Some(3);
    }
    if check_4(c) {
        return Some(4);
    }
    if check_5(c) {
        return Some(5);
    }
    if check_6(c, vtpr) {
        return Some(6);
    }
    None
}

// Exit 43 follows the entry at once.
pub fn exits_at_entry(c: Controls, vtpr: u8) -> bool
    ensures { result ≡ exits_at_entry c vtpr }
{
    c.has(Control::VirtualizeApicAccesses) & threshold_too_high(c, vtpr)
}
