// A line of the input that is open: a line of any length, held in 17 bytes and a count, and the
// answer to it where it ends. The index to store at stands beside the buffer, as in `text`.
#![tactic(auto)]

ghost use Rattle.std.specs.Prelude.{◌≡◌, ◌≤◌, ◌+◌, length};
ghost use Rattle.text.specs.Put.{Put};
ghost use Rattle.open_line.specs.Gather.{new_line, pushed, held_answer, held_last};

use params::Refusal;
use segment_answer::{put_answer, put_refused};

// A line that is open: its first 17 bytes, and how many it has, where 18 stands for more. Fixed bytes
// and a count, no Vec: the library allocates nothing.
#[derive(Clone, Copy)]
pub struct Line {
    pub bytes: [u8; 17],
    pub len: usize,
}

impl Line {
    pub fn new() -> Line
        ensures { result ≡ new_line }
    {
        Line {
            bytes: [0; 17],
            len: 0,
        }
    }

    // The line with a byte more.
    pub fn push(mut self, b: u8) -> Line
        ensures { result ≡ pushed self b }
    {
        if self.len < 17 {
            self.bytes[self.len] = b;
            self.len += 1;
        } else {
            self.len = 18;
        }
        self
    }
}

// Stores the answer to the line that is held, and gives the index behind it.
#[tactic(auto, unfolding(crate::specs::Gather::held_answer))]
pub fn answer_line(line: Line, out: &mut [u8], at: usize) -> usize
    requires { at + 512 ≤ length out.old }
    ensures put { Put out.old at (held_answer line) result out.new }
    ensures upper_bound { result ≤ at + 512 }
{
    if line.len == 17 {
        put_answer(out, at, &line.bytes)
    } else {
        put_refused(out, at, u8::from(Refusal::BadForm) as usize)
    }
}

// Stores the answer to the last line, which lacks its line feed: nothing where the input ended with
// one.
#[tactic(auto, using(text::specs::Laws::put_none), unfolding(crate::specs::Gather::held_last))]
pub fn finish(line: Line, out: &mut [u8], at: usize) -> usize
    requires { at + 512 ≤ length out.old }
    ensures put { Put out.old at (held_last line) result out.new }
    ensures upper_bound { result ≤ at + 512 }
{
    if line.len == 0 {
        return at;
    }
    answer_line(line, out, at)
}
