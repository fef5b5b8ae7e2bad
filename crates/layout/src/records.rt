// The processor record as 48 bytes.
ghost use Rattle.std.specs.Prelude.{◌≡◌};
ghost use Rattle.layout.specs.RecordBytes.{record_readable, record_of};

use crate::controls::{controls_of, reserved_zero};
use page::bytes::byte_at;
use processor::controls::Record;

pub const MODE: u16 = 0;

pub const RVI: u16 = 1;

pub const SVI: u16 = 2;

pub const RECOGNISED: u16 = 3;

// Mode and recognised are 0 or 1, and the reserved bytes are 0.
pub fn record_readable(bytes: &[u8]) -> bool
    ensures { result ≡ record_readable bytes.now }
{
    (byte_at(bytes, MODE) < 2) & (byte_at(bytes, RECOGNISED) < 2) & reserved_zero(bytes)
}

pub fn record_of(bytes: &[u8]) -> Record
    ensures { result ≡ record_of bytes.now }
{
    Record {
        guest: byte_at(bytes, MODE) == 1,
        rvi: byte_at(bytes, RVI),
        svi: byte_at(bytes, SVI),
        recognised: byte_at(bytes, RECOGNISED) == 1,
        controls: controls_of(bytes),
    }
}
