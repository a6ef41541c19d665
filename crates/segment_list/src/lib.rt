// The segment list of document 01 for the lines of an input, which comes in pieces of any length: each
// line is answered where its line feed comes, and the last where the input ends. The index to store at stands
// beside the buffer, as in `text`.
#![tactic(auto)]

ghost use Rattle.std.specs.Prelude.{[], ◌∷◌, ◌≡◌, ◌≤◌, ◌+◌, leb, length};
ghost use Rattle.text.specs.Put.{PutCut};
ghost use Rattle.segment_list.specs.Prints.{segments_prints};
ghost use Rattle.segment_list.specs.Feed.{Takes, Feeds};

use open_line::{Line, answer_line, finish};
use text::{Cut, put_cut};

// Room for the answer to any line.
pub const ANSWER: usize = 512;

// The line that is open after a byte of the input, and the index behind what was stored.
#[derive(Clone, Copy)]
struct Taken {
    line: Line,
    written: usize,
}

// Takes a byte of the input: a line feed has the line answered.
fn take_byte(line: Line, b: u8, out: &mut [u8], at: usize) -> Taken
    requires { at + 512 ≤ length out.old }
    ensures takes { Takes line (b ∷ []) out.old at result.line result.written out.new }
    ensures written_bound { result.written ≤ at + 512 }
{
    if b == b'\n' {
        let written = answer_line(line, out, at);
        return Taken {
            line: Line::new(),
            written,
        };
    }
    Taken {
        line: line.push(b),
        written: at,
    }
}

// Whether the answer to any line has room behind an index.
fn has_room(len: usize, at: usize) -> bool
    ensures { result ≡ leb (at + 512) len }
{
    ANSWER <= len.saturating_sub(at)
}

// What feeding some input gives: the line that is open, the index behind the bytes that were taken,
// and the index behind what was stored.
#[derive(Clone, Copy)]
pub struct Fed {
    pub line: Line,
    pub used: usize,
    pub written: usize,
}

// Takes the bytes of the input from an index on and stores the answer to each line that ends, until
// the input is used up or less room is left than the longest answer wants. An index: a slice of the
// rest is no plainer, since each caller would cut it anew where `used` says; and so the loop goes over indices.
pub fn feed(line: Line, input: &[u8], from: usize, out: &mut [u8], at: usize) -> Fed
    ensures { Feeds line input.now from out.old at result out.new }
{
    let mut held = line;
    let mut to = at;
    for i in from..input.len() {
        if !has_room(out.len(), to) {
            return Fed {
                line: held,
                used: i,
                written: to,
            };
        }
        let taken = take_byte(held, input[i], out, to);
        held = taken.line;
        to = taken.written;
    }
    Fed {
        line: held,
        used: from.max(input.len()),
        written: to,
    }
}

// Stores what `segments` prints for a whole input, by way of a buffer for one piece after another.
fn answer_pieces(input: &[u8], piece: &mut [u8; ANSWER], out: &mut [u8]) -> Result<usize, Cut>
    ensures { PutCut out.old 0 (segments_prints input.now) result out.new }
{
    let mut held = Line::new();
    let mut from: usize = 0;
    let mut to: usize = 0;
    // Each turn takes as many bytes as `feed` says, so no `for` goes over them.
    while from < input.len() {
        let fed = feed(held, input, from, piece, 0);
        to = put_cut(out, to, &piece[..fed.written])?;
        held = fed.line;
        from = fed.used;
    }
    let n = finish(held, piece, 0);
    put_cut(out, to, &piece[..n])
}

// Stores what `segments` prints for a whole input, from the start of the buffer and as far as it
// goes. The program does the same with input that it reads in turns.
pub fn answer_all(input: &[u8], out: &mut [u8]) -> Result<usize, Cut>
    ensures { PutCut out.old 0 (segments_prints input.now) result out.new }
{
    let mut piece = [0u8; ANSWER];
    answer_pieces(input, &mut piece, out)
}
