// What comes back of an input: the answer with its record, and its numbers.
ghost use Rattle.std.specs.Prelude.{◌≡◌};
ghost use Rattle.events.specs.Answers.{refusal_number, refusal_check, refusal_numbers, numbers, numbers_of};

use processor::controls::Record;

// Why an input is refused; refusal 4 says which entry check fails, by the number that alone names it in document 01.
#[derive(Clone, Copy)]
pub enum Refusal {
    PageLength,
    DescriptorLength,
    Bounds,
    Mode,
    EntryCheck(u8),
}

impl Refusal {
    // The number that document 01 refuses by.
    pub fn number(self) -> u8
        ensures { result ≡ refusal_number self }
    {
        match self {
            Refusal::PageLength => 1,
            Refusal::DescriptorLength => 5,
            Refusal::Bounds => 2,
            Refusal::Mode => 3,
            Refusal::EntryCheck(_) => 4,
        }
    }

    // The check of refusal 4, else 0.
    pub fn check(self) -> u8
        ensures { result ≡ refusal_check self }
    {
        match self {
            Refusal::EntryCheck(check) => check,
            _ => 0,
        }
    }
}

#[derive(Clone, Copy)]
pub enum Answer {
    // By its number and the check of refusal 4: `Numbers::from` and the theorem `numbers_of-one-to-one` hold of any two bytes.
    Refused { number: u8, check: u8 },
    Redirected(u64),
    Passthrough,
    Fault,
    // By the reason's number, as document 01 and the definitions say it; `numbers_of-one-to-one` holds of every number.
    Exit { reason: u32, qualification: u64 },
    Delivered(u8),
    Quiet,
}

#[derive(Clone, Copy)]
pub struct Outcome {
    pub answer: Answer,
    pub record: Record,
}

// An answer's number and its two values, as C and a replay's lines have them.
#[derive(Clone, Copy)]
pub struct Numbers {
    pub answer: u32,
    pub first: u64,
    pub second: u64,
}

// The three numbers, put together.
pub fn numbered(answer: u32, first: u64, second: u64) -> Numbers
    ensures { result ≡ numbers answer first second }
{
    Numbers {
        answer,
        first,
        second,
    }
}

// The numbers of each answer.
impl From<Answer> for Numbers {
    ghost from_gives = { λ answer numbers. numbers ≡ numbers_of answer };

    fn from(answer: Answer) -> Numbers {
        match answer {
            Answer::Refused { number, check } => numbered(0, number.into(), check.into()),
            Answer::Redirected(value) => numbered(1, value, 0),
            Answer::Passthrough => numbered(2, 0, 0),
            Answer::Fault => numbered(3, 0, 0),
            Answer::Exit {
                reason,
                qualification,
            } => numbered(4, reason.into(), qualification),
            Answer::Delivered(vector) => numbered(5, vector.into(), 0),
            Answer::Quiet => numbered(6, 0, 0),
        }
    }
}

// The numbers of a refusal.
impl From<Refusal> for Numbers {
    ghost from_gives = { λ refusal result. result ≡ refusal_numbers refusal };

    fn from(refusal: Refusal) -> Numbers {
        numbered(0, refusal.number().into(), refusal.check().into())
    }
}
