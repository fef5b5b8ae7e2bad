// One event by its kind: refusal 2 of what cannot be read, or the model's function for the kind on the fields that it names.
ghost use Rattle.std.specs.Prelude.{◌≡◌, true, ltb};
ghost use Rattle.events.specs.declared.event.Event.TheVariants.{Entry, FromCr8, Rdmsr};
ghost use Rattle.layout.specs.EventBytes.{flags_of, detail_of, number_of, value_of, memory_readable, access_of, memory_read_of, memory_write_of, to_cr8_of, wrmsr_of, boundary_of, request_of, event_readable, event_of};
ghost use Rattle.layout.specs.RecordBytes.{controls_of, reserved_zero};
ghost use Rattle.replies.specs.Replies.{Replies, kind_reply};

use crate::told::{told, told_status};
use events::answer::{Numbers, Refusal};
use events::kind::{Kind, is_set};
use layout::controls::{controls_of, reserved_zero};
use layout::event_bytes::{DETAIL, FLAGS, KIND, NUMBER, SIZE, VALUE, memory_readable};
use layout::records::record_of;
use model::kinds::{
    boundary, entry, from_cr8, memory_read, memory_write, rdmsr, request, to_cr8, wrmsr,
};
use page::bytes::{byte_at, long_within, word_within};
use processor::access::MemoryAccess;

// An entry.
fn entry_reply(page: &mut [u8], record: &mut [u8; 48], event: &[u8]) -> Numbers
    ensures { Replies (kind_reply (reserved_zero event.now) (Entry (controls_of event.now)) page.old «record».old) result.answer result.first result.second «record».new page.new }
{
    if !reserved_zero(event) {
        return Refusal::Bounds.into();
    }
    let outcome = entry(page, record_of(record), controls_of(event));
    told(record, outcome)
}

// The access of a memory read or write: flags bit 0 is the fetch flag, bit 1 the already-virtualised one.
fn access_of(event: &[u8]) -> MemoryAccess
    ensures { result ≡ access_of event.now }
{
    let flags = byte_at(event, FLAGS);
    MemoryAccess {
        offset: (word_within(event, NUMBER) % 0x1_0000) as u16,
        size: byte_at(event, SIZE),
        fetch: is_set(flags, 0),
        already: is_set(flags, 1),
    }
}

// A memory read.
fn memory_read_reply(page: &mut [u8], record: &mut [u8; 48], event: &[u8]) -> Numbers
    ensures { Replies (kind_reply (memory_readable event.now) (memory_read_of event.now) page.old «record».old) result.answer result.first result.second «record».new page.new }
{
    if !memory_readable(event) {
        return Refusal::Bounds.into();
    }
    let outcome = memory_read(page, record_of(record), access_of(event));
    told_status(record, outcome)
}

// A memory write.
fn memory_write_reply(page: &mut [u8], record: &mut [u8; 48], event: &[u8]) -> Numbers
    ensures { Replies (kind_reply (memory_readable event.now) (memory_write_of event.now) page.old «record».old) result.answer result.first result.second «record».new page.new }
{
    if !memory_readable(event) {
        return Refusal::Bounds.into();
    }
    let outcome = memory_write(
        page,
        record_of(record),
        access_of(event),
        long_within(event, VALUE),
    );
    told_status(record, outcome)
}

// MOV to CR8. The test of the value is the definition's, and what passes it is its low byte.
fn to_cr8_reply(page: &mut [u8], record: &mut [u8; 48], event: &[u8]) -> Numbers
    ensures { Replies (kind_reply (ltb (value_of event.now) 0x100) (to_cr8_of event.now) page.old «record».old) result.answer result.first result.second «record».new page.new }
{
    let value = long_within(event, VALUE);
    if 0x100 <= value {
        return Refusal::Bounds.into();
    }
    let outcome = to_cr8(
        page,
        record_of(record),
        (value % 0x100) as u8,
        byte_at(event, DETAIL),
    );
    told_status(record, outcome)
}

// MOV from CR8.
fn from_cr8_reply(page: &mut [u8], record: &mut [u8; 48], event: &[u8]) -> Numbers
    ensures { Replies (kind_reply true (FromCr8 (detail_of event.now)) page.old «record».old) result.answer result.first result.second «record».new page.new }
{
    let outcome = from_cr8(page, record_of(record), byte_at(event, DETAIL));
    told_status(record, outcome)
}

// RDMSR.
fn rdmsr_reply(page: &mut [u8], record: &mut [u8; 48], event: &[u8]) -> Numbers
    ensures { Replies (kind_reply true (Rdmsr (number_of event.now)) page.old «record».old) result.answer result.first result.second «record».new page.new }
{
    let outcome = rdmsr(page, record_of(record), word_within(event, NUMBER));
    told_status(record, outcome)
}

// WRMSR.
fn wrmsr_reply(page: &mut [u8], record: &mut [u8; 48], event: &[u8]) -> Numbers
    ensures { Replies (kind_reply true (wrmsr_of event.now) page.old «record».old) result.answer result.first result.second «record».new page.new }
{
    let outcome = wrmsr(
        page,
        record_of(record),
        word_within(event, NUMBER),
        long_within(event, VALUE),
    );
    told_status(record, outcome)
}

// A boundary: flags bit 0 is IF, bit 1 blocking by STI, bit 2 by MOV SS.
fn boundary_reply(page: &mut [u8], record: &mut [u8; 48], event: &[u8]) -> Numbers
    ensures { Replies (kind_reply (ltb (flags_of event.now) 8) (boundary_of event.now) page.old «record».old) result.answer result.first result.second «record».new page.new }
{
    let flags = byte_at(event, FLAGS);
    if 8 <= flags {
        return Refusal::Bounds.into();
    }
    let outcome = boundary(
        page,
        record_of(record),
        is_set(flags, 0),
        is_set(flags, 1),
        is_set(flags, 2),
        byte_at(event, DETAIL),
    );
    told_status(record, outcome)
}

// A request. The test of the number is the definition's, and what passes it is its low half.
fn request_reply(page: &mut [u8], record: &mut [u8; 48], event: &[u8]) -> Numbers
    ensures { Replies (kind_reply (ltb (number_of event.now) 0x1_0000) (request_of event.now) page.old «record».old) result.answer result.first result.second «record».new page.new }
{
    let number = word_within(event, NUMBER);
    if 0x1_0000 <= number {
        return Refusal::Bounds.into();
    }
    let outcome = request(page, record_of(record), (number % 0x1_0000) as u16);
    told_status(record, outcome)
}

// The event by its kind.
pub fn kind_reply(page: &mut [u8], record: &mut [u8; 48], event: &[u8]) -> Numbers
    ensures { Replies (kind_reply (event_readable event.now) (event_of event.now) page.old «record».old) result.answer result.first result.second «record».new page.new }
{
    match Kind::try_from(byte_at(event, KIND)) {
        Ok(Kind::Entry) => entry_reply(page, record, event),
        Ok(Kind::MemoryRead) => memory_read_reply(page, record, event),
        Ok(Kind::MemoryWrite) => memory_write_reply(page, record, event),
        Ok(Kind::ToCr8) => to_cr8_reply(page, record, event),
        Ok(Kind::FromCr8) => from_cr8_reply(page, record, event),
        Ok(Kind::Rdmsr) => rdmsr_reply(page, record, event),
        Ok(Kind::Wrmsr) => wrmsr_reply(page, record, event),
        Ok(Kind::Boundary) => boundary_reply(page, record, event),
        Ok(Kind::Request) => request_reply(page, record, event),
        Err(_) => Refusal::Bounds.into(),
    }
}
