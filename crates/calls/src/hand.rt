// Numbers handed over to a caller.
ghost use Rattle.calls.specs.Calls.{Handed};

use events::answer::Numbers;

// The answer's number; its two values go to first and second, as C lends them.
pub fn hand_over(numbers: Numbers, first: &mut u64, second: &mut u64) -> u32
    ensures { Handed numbers result first.new second.new }
{
    *first = numbers.first;
    *second = numbers.second;
    numbers.answer
}
