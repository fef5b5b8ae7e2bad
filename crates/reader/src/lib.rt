// A reader that keeps the trace and its place in it: thin functions over those of `trace`. Callers that hold slice and place apart, as the loop
// of a replay does, go through `body_from` and `readable_from`, which make a reader of the two.
#![tactic(auto)]

ghost use Rattle.std.specs.Prelude.{◌≡◌};
ghost use Rattle.trace.specs.Format.{body_at, next_place, record_readable};

use trace::bodies::{body_at, next_place};
use trace::kinds::record_readable;

// The trace, and where in it the record to be read begins.
#[derive(Clone, Copy)]
pub struct Reader<'a> {
    pub trace: &'a [u8],
    pub place: usize,
}

impl<'a> Reader<'a> {
    // At the first record, after the version byte.
    pub fn new(trace: &'a [u8]) -> Reader<'a>
        ensures { (result.trace ≡ trace.entry) × (result.place ≡ 1) }
    {
        Reader { trace, place: 1 }
    }

    // The body of the record at its place, as part of the trace.
    pub fn body(self) -> &'a [u8]
        ensures { result.now ≡ body_at self.entry.trace.now self.entry.place }
    {
        body_at(self.trace, self.place)
    }

    // That record can be read.
    pub fn readable(self) -> bool
        ensures { result ≡ record_readable self.entry.trace.now self.entry.place }
    {
        record_readable(self.trace, self.place)
    }

    // The same reader at the next record.
    pub fn next(self) -> Reader<'a>
        ensures { (result.trace ≡ self.entry.trace) × (result.place ≡ next_place self.entry.trace.now self.entry.place) }
    {
        Reader {
            place: next_place(self.trace, self.place),
            ..self
        }
    }
}

// The body of a trace's first record.
pub fn first_body(trace: &[u8]) -> &[u8]
    ensures { result.now ≡ body_at trace.now 1 }
{
    Reader::new(trace).body()
}

// The body of the record at a place of a trace.
pub fn body_from(trace: &[u8], place: usize) -> &[u8]
    ensures { result.now ≡ body_at trace.now place }
{
    Reader { trace, place }.body()
}

// That record can be read.
pub fn readable_from(trace: &[u8], place: usize) -> bool
    ensures { result ≡ record_readable trace.now place }
{
    Reader { trace, place }.readable()
}
