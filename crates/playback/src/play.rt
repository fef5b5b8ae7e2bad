// The turns of a replay, one after another, and the text that they make.
ghost use Rattle.std.specs.Prelude.{◌≡◌, ◌≤◌, eqb, length};
ghost use Rattle.page.specs.Page.{byte_at};
ghost use Rattle.trace.specs.Format.{length_at, length_of_kind};
ghost use Rattle.recorded.specs.Replay.{is_trace};
ghost use Rattle.playback.specs.Turns.{Ended, Lasts};
ghost use Rattle.playback.specs.Replays.{Prints};

use crate::Text;
use crate::turns::Turn;
use page::bytes::byte_at;
use text::lines::bad_line;
use trace::bodies::{size_fits, version_fits};
use trace::fields::two_at;
use trace::kinds::length_of_kind;

// Turns as long as the replay goes on. The number of records left falls with each, the form that document 01 names; no index is counted.
fn turns(page: &mut [u8], trace: &[u8], limit: u32, out: &mut [u8]) -> Turn
    requires { length trace.now ≤ 61440 }
    ensures { Ended trace.now limit page.old out.old result page.new out.new }
{
    let mut turn = Turn::first(limit);
    while turn.goes_on(trace) {
        turn = turn.next(page, trace, out);
    }
    turn
}

// The first record's length is its kind's; where it is not, it can't be read.
fn first_fits(trace: &[u8]) -> bool
    ensures { result ≡ eqb (length_at trace.now 1) (length_of_kind (byte_at trace.now 3)) }
{
    two_at(trace, 1) as usize == length_of_kind(byte_at(trace, 3))
}

// The replay of a trace up to its last line; one whose first record has another length needs no page.
fn last_turn(trace: &[u8], limit: u32, out: &mut [u8]) -> Turn
    requires { length trace.now ≤ 61440 }
    ensures { Lasts trace.now limit out.old result out.new }
{
    if !first_fits(trace) {
        return Turn::first(limit);
    }
    turns(&mut [0u8; 4096], trace, limit, out)
}

// A right version byte, and no more bytes than the longest trace.
fn is_trace(trace: &[u8]) -> bool
    ensures { result ≡ is_trace trace.now }
{
    version_fits(trace) && size_fits(trace)
}

// The text, written as far as the buffer goes; only "bad 0" of what is no trace.
pub fn printed(trace: &[u8], limit: u32, out: &mut [u8]) -> Text
    ensures { Prints trace.now limit out.old result out.new }
{
    if !is_trace(trace) {
        return Text {
            end: bad_line(out, 0, 0),
            count: 0,
        };
    }
    let last = last_turn(trace, limit, out);
    last.last_line(trace, out)
}
