// What a notification takes out of a lent descriptor: posted bits join VIRR, and are cleared. A slice may have any length.
#![tactic(auto, unfolding(descriptor::specs::Descriptor::cleared, descriptor::specs::Descriptor::cleared_below, descriptor::specs::Descriptor::joined_below, stores::specs::Stores::set_long, stores::specs::Stores::set_word))]

ghost use Rattle.std.specs.Prelude.{◌≡◌};
ghost use Rattle.descriptor.specs.Descriptor.{joined, cleared};

use page::bytes::{byte_at, word_at};
use processor::offsets::VIRR;
use stores::bytes::{set_byte, set_long, set_word};

// Where the outstanding-notification bit stands.
const OUTSTANDING: u16 = 32;

// The bytes of the request bits.
const REQUESTS: usize = 32;

// Posted bits join VIRR, word by word.
pub fn join(page: &mut [u8], descriptor: &[u8])
    ensures { page.new ≡ joined page.old descriptor.now }
{
    for word in 0..8u16 {
        let at = VIRR + 16 * word;
        set_word(page, at, word_at(page, at) | word_at(descriptor, 4 * word));
    }
}

// The outstanding bit and the posted bits are cleared; nothing else of the descriptor changes.
pub fn clear(descriptor: &mut [u8])
    ensures { descriptor.new ≡ cleared descriptor.old }
{
    let byte = byte_at(descriptor, OUTSTANDING);
    let bits = descriptor.len().min(REQUESTS);
    descriptor[..bits].fill(0);
    set_byte(descriptor, OUTSTANDING, byte / 2 * 2);
}
