// The bytes of an access, by its size.
ghost use Rattle.std.specs.Prelude.{◌≡◌};
ghost use Rattle.sizes.specs.Sizes.{read_at, store_at};

use page::bytes::{byte_at, half_at, long_at, word_at};
use stores::bytes::{set_byte, set_half, set_long, set_word};

// The bytes of a read, by its size, a number: what is claimed of 8 is claimed of every other.
pub fn read_at(page: &[u8], offset: u16, size: u8) -> u64
    ensures { result ≡ read_at page.now offset size }
{
    match size {
        1 => byte_at(page, offset) as u64,
        2 => half_at(page, offset) as u64,
        4 => word_at(page, offset) as u64,
        _ => long_at(page, offset),
    }
}

// The bytes of a write, by its size.
pub fn store_at(page: &mut [u8], offset: u16, size: u8, value: u64)
    ensures { page.new ≡ store_at page.old offset size value }
{
    match size {
        1 => set_byte(page, offset, (value % 0x100) as u8),
        2 => set_half(page, offset, (value % 0x1_0000) as u16),
        4 => set_word(page, offset, (value % 0x1_0000_0000) as u32),
        _ => set_long(page, offset, value),
    }
}
