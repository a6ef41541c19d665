// The program `segments`: reads questions from standard input, a line each, and prints the segment
// list of each. What is printed for which input is segment_list's; here are the reads and writes.
// It does what `segment_list::answer_all` does, with input that comes in turns: what the turns print
// and the last line's answer are `segments_prints` of all that was read (`turns_print_lem`).
//
// Answers are written when the buffer is full and whenever what was read is used up, so that a
// question typed at a terminal is answered at once. A read or a write that fails ends the program:
// only the end of the input makes a whole line of one that lacks its line feed.
#![tactic(auto)]

ghost use Rattle.std.specs.Prelude.{IfOk};
ghost use Rattle.segment_list.specs.Feed.{Leaves};

use open_line::Line;
use std::io;
use std::io::{Stdin, Stdout, Write};

// The bytes that are read at a time, and those of the answers that are kept until they are written.
const BUFFER: usize = 65536;

// Where the answers go: standard output, and the bytes that are kept until they are written there.
#[derive(Drop)]
struct Output {
    stdout: Stdout,
    kept: [u8; BUFFER],
}

impl Output {
    // Answers the lines that end in some bytes of the input: the line that is open after them. Each turn
    // takes as many bytes as `feed` says, so no `for` goes over them.
    fn answer(&mut self, line: Line, bytes: &[u8]) -> io::Result<Line>
        ensures { IfOk result (λ held. Leaves line bytes.now held) }
    {
        let mut held = line;
        let mut from: usize = 0;
        while from < bytes.len() {
            let fed = segment_list::feed(held, bytes, from, &mut self.kept, 0);
            held = fed.line;
            from = fed.used;
            self.stdout.write_all(&self.kept[..fed.written])?;
        }
        Ok(held)
    }

    // Answers the last line, where it lacks its line feed.
    fn finish(&mut self, line: Line) -> io::Result<()> {
        let n = open_line::finish(line, &mut self.kept, 0);
        self.stdout.write_all(&self.kept[..n])
    }
}

// Reads once, and answers what was read: the line that is open then, or none where the input has ended.
fn read_once(
    mut stdin: Stdin,
    output: &mut Output,
    line: Line,
    buffer: &mut [u8],
) -> io::Result<Option<Line>> {
    match reading::read(&mut stdin, buffer)? {
        Some(n) => Ok(Some(output.answer(line, &buffer[..n])?)),
        None => Ok(None),
    }
}

// Nothing says that the input ends, so the loop has more turns than any run uses up.
fn run(stdin: Stdin, output: &mut Output, buffer: &mut [u8]) -> io::Result<()> {
    let mut line = Line::new();
    for _ in 0..u64::MAX {
        match read_once(stdin, output, line, buffer)? {
            Some(open) => line = open,
            None => return output.finish(line),
        }
    }
    Ok(())
}

fn main(rt: HostRuntime) {
    let mut buffer = [0u8; BUFFER];
    let mut output = Output {
        stdout: rt.stdout(),
        kept: [0u8; BUFFER],
    };
    // Nobody is left to tell of a read or a write that failed.
    let _ = run(rt.stdin(), &mut output, &mut buffer);
}
