// What a call tells: the answer's numbers, and the record's bytes where the answer changes them.
ghost use Rattle.std.specs.Prelude.{◌≡◌};
ghost use Rattle.layout.specs.RecordBytes.{controls_of};
ghost use Rattle.replies.specs.Replies.{Told};

use events::answer::{Numbers, Outcome};
use keeping::{keep, keep_status};

// The outcome's numbers; the record's bytes take its record where the answer changes it.
pub fn told(record: &mut [u8; 48], outcome: Outcome) -> Numbers
    ensures { Told outcome «record».old result «record».new }
{
    let numbers = Numbers::from(outcome.answer);
    keep(record, numbers.answer, outcome.record);
    numbers
}

// The same of an outcome whose controls are those that the bytes hold; it differs in the function of `keeping` that it calls.
pub fn told_status(record: &mut [u8; 48], outcome: Outcome) -> Numbers
    requires { outcome.«record».controls ≡ controls_of «record».old }
    ensures { Told outcome «record».old result «record».new }
{
    let numbers = Numbers::from(outcome.answer);
    keep_status(record, numbers.answer, outcome.record);
    numbers
}
