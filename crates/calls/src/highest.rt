// The highest vector of a register that is asked for by its base.
ghost use Rattle.std.specs.Prelude.{◌≡◌};
ghost use Rattle.calls.specs.Calls.{found_numbers, gg_highest};

use events::answer::{Numbers, Refusal, numbered};
use processor::offsets::{VIRR, VISR};
use registers::vectors::highest_set;

// What the search finds, in the numbers that `gg_highest` has for it in C: 1 a vector, 2 none. No `From`:
// neither type is this crate's.
fn found_numbers(found: Option<u8>) -> Numbers
    ensures { result ≡ found_numbers found }
{
    match found {
        None => numbered(2, 0, 0),
        Some(vector) => numbered(1, vector.into(), 0),
    }
}

// Refusal 1 of a page of another length; the register that the base names; refusal 2 of another base.
pub fn highest_numbers(page: &[u8], base: u32) -> Numbers
    ensures { result ≡ gg_highest page.now base }
{
    if page.len() != 4096 {
        return Refusal::PageLength.into();
    }
    match u16::try_from(base) {
        Ok(VIRR) => found_numbers(highest_set(page, VIRR)),
        Ok(VISR) => found_numbers(highest_set(page, VISR)),
        _ => Refusal::Bounds.into(),
    }
}
