// The replay of a trace into a lent buffer. Trace, limit and buffer go side by side, as C lends them.
#![tactic(auto, unfolding(crate::specs::Replays::buffer_after, crate::specs::Replays::text_fits, crate::specs::Turns::goes_on, crate::specs::Turns::last_of, recorded::specs::Replay::is_trace))]

ghost use Rattle.std.specs.Prelude.{◌≡◌, length};
ghost use Rattle.recorded.specs.Replay.{replay_text};
ghost use Rattle.playback.specs.Replays.{room_for, Replays};

use crate::play::printed;

mod play;
mod turns;

// Where a text ends, and how many records have a line in it.
#[derive(Clone, Copy)]
pub struct Text {
    pub end: u64,
    pub count: u32,
}

// The longest line, and the longest last line.
const LONGEST_LINE: u64 = 50;

const LONGEST_LAST_LINE: u64 = 11;

// A buffer of so many bytes is long enough for every trace: a line for each record, and the last line.
fn room_for(limit: u32) -> u64
    ensures { result ≡ room_for limit }
{
    LONGEST_LINE * limit as u64 + LONGEST_LAST_LINE
}

// How long the text is.
fn measured(trace: &[u8], limit: u32) -> u64
    ensures { result ≡ length (replay_text trace.now limit) }
{
    printed(trace, limit, &mut [0u8; 1]).end
}

// The text of a replay of at most so many records, at the start of the buffer, or none where the buffer is too short: then nothing of it is
// changed. Only for a buffer without room for every trace is the text measured first.
pub fn replay(trace: &[u8], limit: u32, out: &mut [u8]) -> Option<Text>
    ensures { Replays trace.now limit out.old result out.new }
{
    let room = out.len() as u64;
    if room < room_for(limit) && room < measured(trace, limit) {
        return None;
    }
    Some(printed(trace, limit, out))
}
