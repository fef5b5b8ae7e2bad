// The record stored in its 48 bytes, where the answer stores it.
ghost use Rattle.std.specs.Prelude.{◌≡◌, ltb};
ghost use Rattle.keeping.specs.KeptBytes.{status_bytes, record_bytes, kept, kept_status};

use crate::controls::controls_bytes;
use layout::records::{MODE, RECOGNISED, RVI, SVI};
use processor::controls::Record;
use stores::bytes::set_byte;

// The bytes take mode, RVI, SVI and recognition.
fn status_bytes(bytes: &mut [u8], state: Record)
    ensures { bytes.new ≡ status_bytes bytes.old state }
{
    set_byte(bytes, MODE, u8::from(state.guest));
    set_byte(bytes, RVI, state.rvi);
    set_byte(bytes, SVI, state.svi);
    set_byte(bytes, RECOGNISED, u8::from(state.recognised));
}

// The bytes take the record.
fn record_bytes(bytes: &mut [u8], state: Record)
    ensures { bytes.new ≡ record_bytes bytes.old state }
{
    status_bytes(bytes, state);
    controls_bytes(bytes, state.controls);
}

// An answer by its number: `keep` and `keep_status` promise what the bytes become for each. Answers 0 to 3 change nothing; an exit, a
// delivery and quiet store the record.
fn stays(answer: u32) -> bool
    ensures { result ≡ ltb answer 4 }
{
    answer < 4
}

// The bytes take the record where the answer stores it.
pub fn keep(bytes: &mut [u8], answer: u32, state: Record)
    ensures { bytes.new ≡ kept bytes.old answer state }
{
    if !stays(answer) {
        record_bytes(bytes, state);
    }
}

// The same of all but the controls, which stay: the two differ in what they store, and a parameter for it would be a closure for two calls.
pub fn keep_status(bytes: &mut [u8], answer: u32, state: Record)
    ensures { bytes.new ≡ kept_status bytes.old answer state }
{
    if !stays(answer) {
        status_bytes(bytes, state);
    }
}
