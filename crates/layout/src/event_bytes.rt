// Where the fields of one event stand in its 48 bytes.
ghost use Rattle.std.specs.Prelude.{◌≡◌};
ghost use Rattle.layout.specs.EventBytes.{memory_readable};

use page::bytes::{byte_at, word_within};

pub const KIND: u16 = 0;

pub const SIZE: u16 = 1;

pub const FLAGS: u16 = 2;

pub const DETAIL: u16 = 3;

pub const NUMBER: u16 = 4;

pub const VALUE: u16 = 8;

// No bit that a memory access does not name, and an offset that fits 16 bits.
pub fn memory_readable(event: &[u8]) -> bool
    ensures { result ≡ memory_readable event.now }
{
    (byte_at(event, FLAGS) < 4) & (word_within(event, NUMBER) < 0x1_0000)
}
