// The ordered list of refusals, of an event, of an external interrupt and of a guest that leaves.
ghost use Rattle.std.specs.Prelude.{◌≡◌, true, not, ◌&&◌, List, ℕ, eqb, length, Ok, Err, None, if◌then◌else◌};
ghost use Rattle.processor.specs.Controls.{flags_in_bounds};
ghost use Rattle.processor.specs.Offsets.{vtpr};
ghost use Rattle.page.specs.Page.{byte_at};
ghost use Rattle.events.specs.declared.event.Event.TheVariants.{Entry};
ghost use Rattle.meaning.specs.Input.{given, external, leaves};
ghost use Rattle.meaning.specs.Refusals.{event_check, check_passed, first_refusal, refusal_of};
ghost use Rattle.rules.specs.EntryChecks.{failing_check, numbered};

use descriptor::posted::descriptor_fits;
use events::answer::Refusal;
use events::bounds::vector_in_bounds;
use events::event::{Event, in_bounds, is_allowed};
use page::bytes::byte_at;
use processor::controls::{Controls, Record};
use processor::offsets::VTPR;
use rules::entry::failing_check;

// A test passes, or is the refusal.
fn test(passes: bool, refusal: Refusal) -> Result<(), Refusal>
    ensures { result ≡ (if passes then Ok tt else Err refusal) }
{
    if passes { Ok(()) } else { Err(refusal) }
}

// The first check of an entry that fails, looked for where it counts: nothing else refuses the entry.
fn entry_check(page: &[u8], passes: bool, controls: Controls) -> Option<u8>
    ensures { result ≡ (if passes then numbered (failing_check controls (byte_at page.now vtpr)) else None) }
{
    if passes {
        failing_check(controls, byte_at(page, VTPR))
    } else {
        None
    }
}

// The first entry check that fails, none where none does or the event is no entry.
fn check_of(page: &[u8], event: Event) -> Option<u8>
    ensures { result ≡ numbered (event_check page.now event) }
{
    let Event::Entry(controls) = event else {
        return None;
    };
    entry_check(page, true, controls)
}

// A check that fails is the refusal by its number.
fn check_passed(check: Option<u8>) -> Result<(), Refusal>
    ensures { result ≡ check_passed check }
{
    match check {
        None => Ok(()),
        Some(check) => Err(Refusal::EntryCheck(check)),
    }
}

// The refusals in their order, by what each test says.
fn first_refusal(
    page: &[u8],
    lent: bool,
    fields: bool,
    mode: bool,
    check: Option<u8>,
) -> Result<(), Refusal>
    ensures { result ≡ first_refusal (eqb (length page.now) 4096) lent fields mode check }
{
    test(page.len() == 4096, Refusal::PageLength)?;
    test(lent, Refusal::DescriptorLength)?;
    test(fields, Refusal::Bounds)?;
    test(mode, Refusal::Mode)?;
    check_passed(check)
}

// Guest and root have a function each: one for both would take the mode that fits, and no check at each of seven calls.
// Which refusal an event of guest mode gets whose own fields fit, or don't.
pub fn guest_refusal(page: &[u8], record: Record, fits: bool) -> Result<(), Refusal>
    ensures { result ≡ first_refusal (eqb (length page.now) 4096) true (flags_in_bounds «record».controls && fits) «record».guest None }
{
    let controls = record.controls;
    let fields = controls.flags_in_bounds() & fits;
    first_refusal(page, true, fields, record.guest, None)
}

// Which refusal an event of root mode gets whose own fields fit, or don't, and of which a check fails, or none.
pub fn root_refusal(
    page: &[u8],
    record: Record,
    fits: bool,
    check: Option<u8>,
) -> Result<(), Refusal>
    ensures { result ≡ first_refusal (eqb (length page.now) 4096) true (flags_in_bounds «record».controls && fits) (not «record».guest) check }
{
    let controls = record.controls;
    first_refusal(
        page,
        true,
        controls.flags_in_bounds() & fits,
        !record.guest,
        check,
    )
}

// Which refusal an entry gets, with its check, or none.
#[tactic(auto, using(crate::proofs::Entry::checked_last), unfolding(events::specs::Events::allowed, events::specs::Events::event_in_bounds, events::specs::Events::in_bounds, events::specs::Events::root_only, meaning::specs::Refusals::refusal_of))]
pub fn entry_refusal(page: &[u8], record: Record, controls: Controls) -> Result<(), Refusal>
    ensures { result ≡ refusal_of page.now «record» (given (Entry controls)) }
{
    let fields = record.controls.flags_in_bounds() & controls.flags_in_bounds();
    let mode = !record.guest;
    let check = entry_check(page, page.len() == 4096 && fields && mode, controls);
    first_refusal(page, true, fields, mode, check)
}

// Which refusal an event gets on a page and a record, with its check, or none.
pub fn refusal_of(page: &[u8], record: Record, event: Event) -> Result<(), Refusal>
    ensures { result ≡ refusal_of page.now «record» (given event) }
{
    first_refusal(
        page,
        true,
        in_bounds(record, event),
        is_allowed(record, event),
        check_of(page, event),
    )
}

// Which refusal an external interrupt gets on a page, a record and a descriptor, or none.
pub fn external_refusal_of(
    page: &[u8],
    record: Record,
    descriptor: &[u8],
    vector: u32,
) -> Result<(), Refusal>
    ensures { result ≡ refusal_of page.now «record» (external descriptor.now vector) }
{
    let controls = record.controls;
    first_refusal(
        page,
        descriptor_fits(descriptor),
        controls.flags_in_bounds() & vector_in_bounds(vector),
        record.guest,
        None,
    )
}

// Which refusal a guest that leaves gets on a record, on whatever page, or none.
pub fn leave_refusal_of(record: Record) -> Result<(), Refusal>
    ensures { (p : List ℕ) → result ≡ refusal_of p «record» leaves }
{
    let controls = record.controls;
    test(controls.flags_in_bounds(), Refusal::Bounds)?;
    test(record.guest, Refusal::Mode)
}
