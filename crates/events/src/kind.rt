// The kinds of events, and the numbers that stand for them in an event's bytes and in a trace's records.
ghost use Rattle.std.specs.Prelude.{◌≡◌, ◌%◌};
ghost use Rattle.processor.specs.Logic.{bit};
ghost use Rattle.events.specs.Kinds.{Decodes};

// In the order of `Event`: in that of the numbers, the compiler makes a subtraction of the conversion, and each event costs an
// instruction more.
#[derive(Clone, Copy, Debug, PartialEq, Eq)]
pub enum Kind {
    Entry,
    Request,
    MemoryRead,
    MemoryWrite,
    ToCr8,
    FromCr8,
    Rdmsr,
    Wrmsr,
    Boundary,
}

// A number that stands for no kind of event.
#[derive(Clone, Copy, Debug, PartialEq, Eq)]
pub struct UnknownKind(pub u8);

impl TryFrom<u8> for Kind {
    type Error = UnknownKind;

    ghost try_from_gives = { Decodes };

    fn try_from(number: u8) -> Result<Self, UnknownKind> {
        match number {
            1 => Ok(Kind::Entry),
            2 => Ok(Kind::MemoryRead),
            3 => Ok(Kind::MemoryWrite),
            4 => Ok(Kind::ToCr8),
            5 => Ok(Kind::FromCr8),
            6 => Ok(Kind::Rdmsr),
            7 => Ok(Kind::Wrmsr),
            8 => Ok(Kind::Boundary),
            9 => Ok(Kind::Request),
            _ => Err(UnknownKind(number)),
        }
    }
}

// The bit of a byte of flags is set; bits count mod 8.
pub fn is_set(flags: u8, at: u8) -> bool
    ensures { result ≡ bit flags (at % 8) }
{
    let at = at % 8;
    (flags >> at) % 2 == 1
}
