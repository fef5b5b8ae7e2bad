// The lines of a replay.
ghost use Rattle.std.specs.Prelude.{◌≤◌, ◌++◌, length};
ghost use Rattle.text.specs.Lines.{line as line_of, done_line, bad_line, field as field_of, line_end};
ghost use Rattle.text.specs.Written.{Writes};

use crate::decimal::{field, line_field, put_all};
use events::answer::Numbers;

const BLANK: u8 = b' ';

const LINE_END: u8 = b'\n';

// Record number, answer, its two numbers.
pub fn line(out: &mut [u8], at: u32, number: u32, numbers: Numbers) -> u64
    ensures { Writes out.old at (line_of number numbers) result out.new }
{
    let answer = line_field(out, at as u64, number as u64, BLANK);
    let first = line_field(out, answer, numbers.answer as u64, BLANK);
    let second = line_field(out, first, numbers.first, BLANK);
    line_field(out, second, numbers.second, LINE_END)
}

// A word and a number.
fn last_line(out: &mut [u8], at: u32, word: &[u8], number: u32) -> u64
    requires { length word.now ≤ 5 }
    ensures { Writes out.old at (word.now ++ field_of number line_end) result out.new }
{
    let next = put_all(out, at as u64, word);
    field(out, next, number as u64, LINE_END)
}

// "done" and the count.
pub fn done_line(out: &mut [u8], at: u32, count: u32) -> u64
    ensures { Writes out.old at (done_line count) result out.new }
{
    last_line(out, at, b"done ", count)
}

// "bad" and the number of the record that can't be read.
pub fn bad_line(out: &mut [u8], at: u32, number: u32) -> u64
    ensures { Writes out.old at (bad_line number) result out.new }
{
    last_line(out, at, b"bad ", number)
}
