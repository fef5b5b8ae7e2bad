// The records of a trace: each a length and a body, which is handed back as part of the trace. The three functions read the length each
// for itself: through one `Option` of the body, by `get` and `split_at_checked`, a record of a replay takes 28 instructions more.
ghost use Rattle.std.specs.Prelude.{◌≡◌};
ghost use Rattle.trace.specs.Format.{version_fits, size_fits, cut_short, body_at, next_place};

use crate::fields::{has, two_at};
use page::bytes::byte_at;

pub const VERSION: u8 = 1;

// The longest trace.
pub const LONGEST: usize = 61440;

pub fn version_fits(trace: &[u8]) -> bool
    ensures { result ≡ version_fits trace.now }
{
    byte_at(trace, 0) == VERSION
}

pub fn size_fits(trace: &[u8]) -> bool
    ensures { result ≡ size_fits trace.now }
{
    trace.len() <= LONGEST
}

// The trace ends within the record's length or body.
pub fn cut_short(trace: &[u8], place: usize) -> bool
    ensures { result ≡ cut_short trace.now place }
{
    let len = two_at(trace, place) as usize;
    !has(trace, place, 2 + len)
}

// The body of the record, as part of the trace after its length; an empty part where it is cut short.
pub fn body_at(trace: &[u8], place: usize) -> &[u8]
    ensures { result.now ≡ body_at trace.now place }
{
    if cut_short(trace, place) {
        return &trace[..0];
    }
    let len = two_at(trace, place) as usize;
    let start = place + 2;
    &trace[start..start + len]
}

// Where the next record begins.
pub fn next_place(trace: &[u8], place: usize) -> usize
    ensures { result ≡ next_place trace.now place }
{
    if cut_short(trace, place) {
        return place;
    }
    let len = two_at(trace, place) as usize;
    place + 2 + len
}
