// The boundary that a C program links to replay a recorded session.
#![tactic(auto)]

ghost use Rattle.playback.specs.Replays.{GgReplays};

use playback::replay;

// The replay of a trace into a buffer: whether the text fits comes back, the number of bytes written goes to written.
pub fn gg_replay(trace: &[u8], limit: u32, out: &mut [u8], written: &mut u64) -> u32
    ensures { GgReplays trace.now limit out.old result written.new out.new }
{
    let text = replay(trace, limit, out);
    *written = text.map_or(0, |text| text.end);
    text.is_some() as u32
}
