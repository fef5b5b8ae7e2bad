// Replays a recorded session: the trace from standard input, its lines to standard output.
#![tactic(auto)]

ghost use Rattle.std.specs.Prelude.{◌<◌, ◌≤◌, length, take, IfOk};
ghost use Rattle.std.specs.Io.KnownBytes.{Consumes, IsAtEnd};

use program::{READ, ROOM, replay_program};
use std::io;
use std::io::Read;

// Reads until the buffer is full or the input ends: how many bytes of the input now stand at the buffer's start. No method of std's does it in
// a lent buffer: `read_exact` says no number where the input ends early, and `copy` not which bytes it writes.
fn read_full<R: Read>(input: &mut R, buffer: &mut [u8]) -> io::Result<usize>
    ensures within { IfOk result (λ n. n ≤ length buffer.new) }
    ensures bytes { IfOk result (λ n. Consumes (R.remaining input.old) (R.remaining input.new) (take n buffer.new)) }
    ensures end { IfOk result (λ n. n < length buffer.new → IsAtEnd (R.remaining input.new)) }
{
    let mut done = 0;
    while done < buffer.len() {
        match input.read(&mut buffer[done..])? {
            0 => break,
            more => done += more,
        }
    }
    Ok(done)
}

fn main(rt: HostRuntime) -> io::Result<()> {
    let mut trace = [0u8; READ];
    let length = read_full(&mut rt.reader(), &mut trace)?;
    let mut out = [0u8; ROOM];
    let written = replay_program(&trace, length, &mut out);
    rt.write_all(&out[..written])
}
