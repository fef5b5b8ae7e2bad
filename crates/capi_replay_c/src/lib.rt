// The boundary that a C program links to replay a recorded session: the function of `capi_replay`, exported under its name with its promise,
// in a crate that is an archive.
#![tactic(auto)]

ghost use Rattle.playback.specs.Replays.{GgReplays};

// The replay of a trace into a buffer: whether the text fits comes back, the number of bytes written goes to written.
#[unsafe(no_mangle)]
pub extern "C" fn gg_replay(trace: &[u8], limit: u32, out: &mut [u8], written: &mut u64) -> u32
    ensures { GgReplays trace.now limit out.old result written.new out.new }
{
    capi_replay::gg_replay(trace, limit, out, written)
}
