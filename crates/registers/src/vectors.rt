// The 256-bit registers of a page.
ghost use Rattle.std.specs.Prelude.{◌≡◌, ◌<◌, ◌≤◌, IfSome, unwrap_or};
ghost use Rattle.registers.specs.Vectors.{found_at, highest_bit, highest_of, highest_set, is_set, word_bits, Places};

use page::bytes::word_at;

// The highest set vector of an empty register counts as 0.
pub const NONE_COUNTS_AS: u8 = 0;

// The bytes from one word of a register to the next.
const REGISTER_STEP: u8 = 16;

// None inside the search is a number past every vector: with an Option there an event of near-empty registers takes 232.0 instructions for
// 229.3.
const NOWHERE: u32 = 256;

// The highest set bit of a word, counted from 1, or none: what its leading zeros leave of its 32 bits.
pub fn highest_bit(word: u32) -> Option<u32>
    ensures counted { unwrap_or result 0 ≡ highest_bit word 32 }
    ensures some { IfSome result (λ place. 0 < place) }
    ensures few { IfSome result (λ place. place ≤ 32) }
{
    if word == 0 {
        return None;
    }
    Some(32 - u32::leading_zeros(word))
}

// The highest set bit of eight words that stand so many bytes apart: the words from the top; NOWHERE where none is set.
fn place_in<const STEP: u8>(words: &[u8]) -> u32
    ensures { Places (word_bits words.now STEP) result }
{
    for word in (0..8u16).rev() {
        if let Some(place) = highest_bit(word_at(words, u16::from(STEP) * word)) {
            return 32 * u32::from(word) + place - 1;
        }
    }
    NOWHERE
}

// The same of the page's register at a base.
fn place_from(page: &[u8], base: u16) -> u32
    ensures { Places (is_set page.now base) result }
{
    let at = usize::from(base);
    if at <= page.len() {
        return place_in::<REGISTER_STEP>(&page[at..]);
    }
    NOWHERE
}

// What that number says: an empty register and bit 0 alone are told apart.
fn found_at(place: u32) -> Option<u8>
    requires { place ≤ 256 }
    ensures { result ≡ found_at place }
{
    match place {
        NOWHERE => None,
        _ => Some(place as u8),
    }
}

// The highest set bit of eight words that stand so many bytes apart, or none.
pub fn highest_in<const STEP: u8>(words: &[u8]) -> Option<u8>
    ensures { result ≡ highest_of (word_bits words.now STEP) 256 }
{
    found_at(place_in::<STEP>(words))
}

// The highest set vector of the page's register at the base, or none.
pub fn highest_set(page: &[u8], base: u16) -> Option<u8>
    ensures { result ≡ highest_set page.now base }
{
    found_at(place_from(page, base))
}

// The highest set vector of the page's register at the base, or a number in place of none.
pub fn highest_or(page: &[u8], base: u16, none: u8) -> u8
    ensures { result ≡ unwrap_or (highest_set page.now base) none }
{
    highest_set(page, base).unwrap_or(none)
}
