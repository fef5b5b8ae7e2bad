// An answer with its record, on whatever page: a function for each definition of `After`, by its name. One function over the answer would
// be a pair of words at each call for these.
ghost use Rattle.std.specs.Prelude.{ℕ, List};
ghost use Rattle.meaning.specs.After.{Leaves, redirected as redirected_of, passthrough as passthrough_of, fault as fault_of, exit as exit_of, delivered as delivered_of, quiet as quiet_of};

use events::answer::{Answer, Outcome};
use processor::controls::Record;

pub fn redirected(record: Record, value: u64) -> Outcome
    ensures { (p : List ℕ) → Leaves (redirected_of value p «record») result p }
{
    Outcome {
        answer: Answer::Redirected(value),
        record,
    }
}

pub fn passthrough(record: Record) -> Outcome
    ensures { (p : List ℕ) → Leaves (passthrough_of p «record») result p }
{
    Outcome {
        answer: Answer::Passthrough,
        record,
    }
}

pub fn fault(record: Record) -> Outcome
    ensures { (p : List ℕ) → Leaves (fault_of p «record») result p }
{
    Outcome {
        answer: Answer::Fault,
        record,
    }
}

// By the reason's number, as the definition `exit` has it: its claim is of every number.
pub fn exit(record: Record, reason: u32, qualification: u64) -> Outcome
    ensures { (p : List ℕ) → Leaves (exit_of reason qualification p «record») result p }
{
    Outcome {
        answer: Answer::Exit {
            reason,
            qualification,
        },
        record: record.outside(),
    }
}

pub fn delivered(record: Record, vector: u8) -> Outcome
    ensures { (p : List ℕ) → Leaves (delivered_of vector p «record») result p }
{
    Outcome {
        answer: Answer::Delivered(vector),
        record,
    }
}

pub fn quiet(record: Record) -> Outcome
    ensures { (p : List ℕ) → Leaves (quiet_of p «record») result p }
{
    Outcome {
        answer: Answer::Quiet,
        record,
    }
}
