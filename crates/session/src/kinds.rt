// The event of each kind of record, its fields read from the body, carried out by the model.
ghost use Rattle.std.specs.Prelude.{◌≡◌, false, eqb};
ghost use Rattle.processor.specs.declared.controls.Controls.{Controls};
ghost use Rattle.events.specs.declared.event.Event.TheVariants.{FromCr8, Rdmsr, Request};
ghost use Rattle.meaning.specs.After.{Leaves};
ghost use Rattle.meaning.specs.Input.{given};
ghost use Rattle.meaning.specs.Step.{step as step_of};
ghost use Rattle.page.specs.Page.{byte_at};
ghost use Rattle.trace.specs.Fields.{four_at};
ghost use Rattle.trace.specs.Format.{kind_of};
ghost use Rattle.trace.specs.Records.{access_of, memory_read_of, memory_write_of, to_cr8_of, wrmsr_of, boundary_of, event_of};

use events::answer::Outcome;
use events::kind::{Kind, is_set};
use model::kinds;
use page::bytes::byte_at;
use processor::access::MemoryAccess;
use processor::controls::Record;
use trace::fields::{eight_at, four_at, two_at};
use trace::kinds::{BOUNDARY_FLAGS, KIND, MEMORY_FLAGS};

// The access of a body of kind 2 or 3.
fn access_of(body: &[u8]) -> MemoryAccess
    ensures { result ≡ access_of body.now }
{
    let flags = byte_at(body, MEMORY_FLAGS);
    MemoryAccess {
        offset: two_at(body, 1),
        size: byte_at(body, 3),
        fetch: is_set(flags, 0),
        already: is_set(flags, 1),
    }
}

fn memory_read(page: &[u8], record: Record, body: &[u8]) -> Outcome
    ensures { Leaves (step_of page.now «record» (given (memory_read_of body.now))) result page.now }
{
    kinds::memory_read(page, record, access_of(body))
}

fn memory_write(page: &mut [u8], record: Record, body: &[u8]) -> Outcome
    ensures { Leaves (step_of page.old «record» (given (memory_write_of body.now))) result page.new }
{
    kinds::memory_write(page, record, access_of(body), eight_at(body, 5))
}

fn to_cr8(page: &mut [u8], record: Record, body: &[u8]) -> Outcome
    ensures { Leaves (step_of page.old «record» (given (to_cr8_of body.now))) result page.new }
{
    kinds::to_cr8(page, record, byte_at(body, 1), byte_at(body, 2))
}

fn from_cr8(page: &[u8], record: Record, body: &[u8]) -> Outcome
    ensures { Leaves (step_of page.now «record» (given (FromCr8 (byte_at body.now 1)))) result page.now }
{
    kinds::from_cr8(page, record, byte_at(body, 1))
}

fn rdmsr(page: &[u8], record: Record, body: &[u8]) -> Outcome
    ensures { Leaves (step_of page.now «record» (given (Rdmsr (four_at body.now 1)))) result page.now }
{
    kinds::rdmsr(page, record, four_at(body, 1))
}

fn wrmsr(page: &mut [u8], record: Record, body: &[u8]) -> Outcome
    ensures { Leaves (step_of page.old «record» (given (wrmsr_of body.now))) result page.new }
{
    kinds::wrmsr(page, record, four_at(body, 1), eight_at(body, 5))
}

fn boundary(page: &mut [u8], record: Record, body: &[u8]) -> Outcome
    ensures { Leaves (step_of page.old «record» (given (boundary_of body.now))) result page.new }
{
    let flags = byte_at(body, BOUNDARY_FLAGS);
    kinds::boundary(
        page,
        record,
        is_set(flags, 0),
        is_set(flags, 1),
        is_set(flags, 2),
        byte_at(body, 2),
    )
}

fn request(page: &mut [u8], record: Record, body: &[u8]) -> Outcome
    ensures { Leaves (step_of page.old «record» (given (Request (byte_at body.now 1)))) result page.new }
{
    kinds::request(page, record, byte_at(body, 1) as u16)
}

// The event of a record of any kind but 0 and 1, which `carried_out` keeps apart; what is no kind is taken for a request, as in `event_of`.
pub fn event_outcome(page: &mut [u8], record: Record, body: &[u8]) -> Outcome
    ensures { eqb (kind_of body.now) 1 ≡ false → (c : Controls) → Leaves (step_of page.old «record» (given (event_of c body.now))) result page.new }
{
    match Kind::try_from(byte_at(body, KIND)) {
        Ok(Kind::MemoryRead) => memory_read(page, record, body),
        Ok(Kind::MemoryWrite) => memory_write(page, record, body),
        Ok(Kind::ToCr8) => to_cr8(page, record, body),
        Ok(Kind::FromCr8) => from_cr8(page, record, body),
        Ok(Kind::Rdmsr) => rdmsr(page, record, body),
        Ok(Kind::Wrmsr) => wrmsr(page, record, body),
        Ok(Kind::Boundary) => boundary(page, record, body),
        Ok(Kind::Request | Kind::Entry) | Err(_) => request(page, record, body),
    }
}
