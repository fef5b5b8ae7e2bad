// What the program `replay` decides beside the replay: what its arguments ask, what a read says, and the words that it then says.
#![tactic(auto, unfolding(crate::specs::Command::piece_of, crate::specs::Command::usage_text, crate::specs::Command::words_of))]

ghost use Rattle.std.specs.Prelude.{◌≡◌};
ghost use Rattle.command.specs.Command.{asked_of, piece_of, words_of, usage_text};

// errno's number for a call that a signal interrupted.
const EINTR: i32 = 4;

// What the arguments ask.
#[derive(Clone, Copy)]
pub enum Asked {
    StandardInput,
    File,
    Help,
    Wrong,
}

// Why a read brings nothing: a signal came before any byte, or it failed.
#[derive(Clone, Copy)]
pub enum Unread {
    Interrupted,
    Failed,
}

// What could not be done.
#[derive(Clone, Copy)]
pub enum Deed {
    Opening,
    Reading,
    Writing,
}

// By the number of arguments, the program's own name among them, and the first after it, as the definition `asked_of` takes them.
#[tactic(auto, using(crate::proofs::Laws::same_bytes_pointwise), unfolding(crate::specs::Command::asked_of))]
pub fn asked_of(count: usize, first: &[u8]) -> Asked
    ensures { result ≡ asked_of count first.now }
{
    match count {
        0 | 1 => Asked::StandardInput,
        2 if first == b"--help".as_slice() => Asked::Help,
        2 => Asked::File,
        _ => Asked::Wrong,
    }
}

// By what `read` answered, and errno: so many bytes more, or none at the end of the input.
pub fn piece_of(got: isize, error: i32) -> Result<Option<usize>, Unread>
    ensures { result ≡ piece_of got error }
{
    match usize::try_from(got) {
        Ok(0) => Ok(None),
        Ok(bytes) => Ok(Some(bytes)),
        Err(_) if error == EINTR => Err(Unread::Interrupted),
        Err(_) => Err(Unread::Failed),
    }
}

// What stands before the name of what could not be opened, read or written.
pub fn words_of(deed: Deed) -> &'static str
    ensures { result.now ≡ words_of deed }
{
    match deed {
        Deed::Opening => "replay: error opening ",
        Deed::Reading => "replay: error reading ",
        Deed::Writing => "replay: error writing ",
    }
}

pub fn usage() -> &'static str
    ensures { result.now ≡ usage_text }
{
    "usage: replay [FILE]\nReplays the trace in FILE, or on standard input where no file is named, and prints a line for each record.\n"
}
