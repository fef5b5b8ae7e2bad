// The text of the program `replay`: how many records it takes, how much it reads and the room for its lines are fixed here.
#![tactic(auto)]

ghost use Rattle.std.specs.Prelude.{◌≡◌};
ghost use Rattle.program.specs.Program.{Prints, PrintsHeld};

use playback::replay;

// How many records a run takes.
const LIMIT: u32 = 10_000;

// One byte more than the longest trace, so that a longer one is seen to be longer.
pub const READ: usize = 61_441;

// Room for a line of each record, of 50 bytes, and for the last, of 11.
pub const ROOM: usize = 500_011;

// The text of a trace, at the start of the buffer; its length comes back.
fn printed(trace: &[u8], out: &mut [u8; ROOM]) -> usize
    ensures { Prints trace.now out.old result out.new }
{
    replay(trace, LIMIT, out).unwrap().end as usize
}

// The text of an input, of which the first bytes of an array are so many, or all of it: array and number, as `PrintsHeld` speaks of them.
pub fn replay_program(input: &[u8; READ], length: usize, out: &mut [u8; ROOM]) -> usize
    ensures { PrintsHeld input.now length out.old result out.new }
{
    printed(&input[..length.min(READ)], out)
}
