// What an input leaves that is refused, and a guest that leaves, on whatever page.
ghost use Rattle.std.specs.Prelude.{ℕ, List};
ghost use Rattle.events.specs.Answers.{refusal_number, refusal_check};
ghost use Rattle.meaning.specs.Leave.{left as left_of};
ghost use Rattle.meaning.specs.After.{Leaves, refused as refused_of};

use events::answer::{Answer, Outcome, Refusal};
use processor::controls::Record;

pub fn refused(record: Record, refusal: Refusal) -> Outcome
    ensures { (p : List ℕ) → Leaves (refused_of (refusal_number refusal) (refusal_check refusal) p «record») result p }
{
    Outcome {
        answer: Answer::Refused {
            number: refusal.number(),
            check: refusal.check(),
        },
        record,
    }
}

// The guest left for a reason outside the model.
pub fn left(record: Record) -> Outcome
    ensures { (p : List ℕ) → Leaves (left_of p «record») result p }
{
    Outcome {
        answer: Answer::Quiet,
        record: record.outside(),
    }
}
