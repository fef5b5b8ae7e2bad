// The controls, at the same places in the record's bytes and in an entry's.
ghost use Rattle.std.specs.Prelude.{◌≡◌};
ghost use Rattle.layout.specs.RecordBytes.{controls_of, reserved_zero};

use page::bytes::{long_within, word_within};
use processor::controls::Controls;

pub const THRESHOLD: u16 = 4;

pub const FLAGS: u16 = 8;

pub const NOTIFICATION: u16 = 12;

pub const EOI_EXIT_0: u16 = 16;

pub const EOI_EXIT_1: u16 = 24;

pub const EOI_EXIT_2: u16 = 32;

pub const EOI_EXIT_3: u16 = 40;

// Each field is read at a place of its own.
pub fn controls_of(bytes: &[u8]) -> Controls
    ensures { result ≡ controls_of bytes.now }
{
    Controls {
        flags: word_within(bytes, FLAGS),
        threshold: word_within(bytes, THRESHOLD),
        notification: (word_within(bytes, NOTIFICATION) % 0x1_0000) as u16,
        eoi_exit_0: long_within(bytes, EOI_EXIT_0),
        eoi_exit_1: long_within(bytes, EOI_EXIT_1),
        eoi_exit_2: long_within(bytes, EOI_EXIT_2),
        eoi_exit_3: long_within(bytes, EOI_EXIT_3),
    }
}

// The bytes that are kept for what comes, above the notification vector, are 0.
pub fn reserved_zero(bytes: &[u8]) -> bool
    ensures { result ≡ reserved_zero bytes.now }
{
    word_within(bytes, NOTIFICATION) < 0x1_0000
}
