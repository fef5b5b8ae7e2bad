// The kinds of records, their lengths and flags, and which record can be read.
ghost use Rattle.std.specs.Prelude.{◌≡◌};
ghost use Rattle.trace.specs.Kinds.{record_number_of, Decodes};
ghost use Rattle.trace.specs.Format.{length_of_kind, flags_used, body_readable, record_readable};

use crate::bodies::{body_at, cut_short};
use crate::fields::two_at;
use events::kind::{Kind, UnknownKind};
use page::bytes::byte_at;

// Where a body has its kind, and where its flags.
pub const KIND: u16 = 0;

pub const CONTROL_FLAGS: usize = 1;

pub const MEMORY_FLAGS: u16 = 4;

pub const BOUNDARY_FLAGS: u16 = 1;

// What a record is of: the controls for later entries, or an event of a kind. No Option: records of controls have a length and flags too.
#[derive(Clone, Copy, Debug, PartialEq, Eq)]
pub enum RecordKind {
    Controls,
    Event(Kind),
}

impl TryFrom<u8> for RecordKind {
    type Error = UnknownKind;

    ghost try_from_gives = { Decodes };

    fn try_from(number: u8) -> Result<Self, UnknownKind> {
        if number == 0 {
            return Ok(RecordKind::Controls);
        }
        let kind = Kind::try_from(number)?;
        Ok(RecordKind::Event(kind))
    }
}

impl RecordKind {
    // The length of the kind's body.
    fn length(self) -> usize
        ensures { result ≡ length_of_kind (record_number_of self) }
    {
        match self {
            RecordKind::Controls => 39,
            RecordKind::Event(Kind::Entry) => 1,
            RecordKind::Event(Kind::MemoryRead) => 5,
            RecordKind::Event(Kind::MemoryWrite) => 13,
            RecordKind::Event(Kind::ToCr8) => 3,
            RecordKind::Event(Kind::FromCr8) => 2,
            RecordKind::Event(Kind::Rdmsr) => 5,
            RecordKind::Event(Kind::Wrmsr) => 13,
            RecordKind::Event(Kind::Boundary) => 3,
            RecordKind::Event(Kind::Request) => 2,
        }
    }
}

// The length of a kind's body, 0 of an unknown kind: it answers for every number.
pub fn length_of_kind(kind: u8) -> usize
    ensures { result ≡ length_of_kind kind }
{
    match RecordKind::try_from(kind) {
        Ok(kind) => kind.length(),
        Err(_) => 0,
    }
}

// No unused flag bit is set.
pub fn flags_used(body: &[u8]) -> bool
    ensures { result ≡ flags_used body.now }
{
    match RecordKind::try_from(byte_at(body, KIND)) {
        Ok(RecordKind::Controls) => two_at(body, CONTROL_FLAGS) < 0x200,
        Ok(RecordKind::Event(Kind::MemoryRead)) => byte_at(body, MEMORY_FLAGS) < 4,
        Ok(RecordKind::Event(Kind::MemoryWrite)) => byte_at(body, MEMORY_FLAGS) < 4,
        Ok(RecordKind::Event(Kind::Boundary)) => byte_at(body, BOUNDARY_FLAGS) < 8,
        _ => true,
    }
}

// The kind is known, the length is its kind's, and no unused flag bit is set.
pub fn body_readable(body: &[u8]) -> bool
    ensures { result ≡ body_readable body.now }
{
    match RecordKind::try_from(byte_at(body, KIND)) {
        Ok(kind) => body.len() == kind.length() && flags_used(body),
        Err(_) => false,
    }
}

// The record is not cut short, and its body can be read.
pub fn record_readable(trace: &[u8], place: usize) -> bool
    ensures { result ≡ record_readable trace.now place }
{
    if cut_short(trace, place) {
        return false;
    }
    body_readable(body_at(trace, place))
}
