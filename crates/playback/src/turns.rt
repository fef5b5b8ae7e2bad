// One turn of a replay: a record read, carried out, and its line written.
ghost use Rattle.std.specs.Prelude.{◌≡◌, ◌<◌};
ghost use Rattle.playback.specs.Turns.{goes_on, Starts, Ready, Turned, Closes};

use crate::Text;
use reader::{body_from, readable_from};
use session::{State, Told, begin, carried_out};
use text::lines::{bad_line, done_line, line};

// What is held, how many records may still be read, the place of the next, how many lines are written, and where they end.
#[derive(Clone, Copy)]
pub struct Turn {
    pub state: State,
    pub left: u32,
    pub place: usize,
    pub count: u32,
    pub at: u32,
}

impl Turn {
    // Before the first record.
    pub fn first(limit: u32) -> Turn
        ensures { Starts limit result }
    {
        Turn {
            state: begin(),
            left: limit,
            place: 1,
            count: 0,
            at: 0,
        }
    }

    // The stated number is not reached, the trace is not at its end, and its next record can be read.
    pub fn goes_on(self, trace: &[u8]) -> bool
        ensures { result ≡ goes_on trace.now self }
    {
        self.left != 0 && self.place < trace.len() && readable_from(trace, self.place)
    }

    // The next record is carried out, and its line written.
    pub fn next(self, page: &mut [u8], trace: &[u8], out: &mut [u8]) -> Turn
        requires { Ready trace.now self }
        ensures { Turned trace.now page.old out.old self result page.new out.new }
    {
        let body = body_from(trace, self.place);
        let Told { numbers, state } = carried_out(page, self.state, body);
        let count = self.count + 1;
        let end = line(out, self.at, count, numbers);
        Turn {
            state,
            left: self.left - 1,
            place: self.place + 2 + body.len(),
            count,
            at: end as u32,
        }
    }

    // The last line: "done", or "bad" where a record is left that can't be read.
    pub fn last_line(self, trace: &[u8], out: &mut [u8]) -> Text
        requires { self.count < 100000 }
        ensures { Closes trace.now out.old self result out.new }
    {
        let end = if self.left == 0 || trace.len() <= self.place {
            done_line(out, self.at, self.count)
        } else {
            bad_line(out, self.at, self.count + 1)
        };
        Text {
            end,
            count: self.count,
        }
    }
}
