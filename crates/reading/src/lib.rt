// How it stands with an input that is read in turns, by what a read returned: a program that took a
// failed read for the end would answer half a line as a whole one.
#![tactic(auto)]

ghost use Rattle.std.specs.Prelude.{◌≡◌, ◌<◌, ◌≤◌, length, IfOk, IfSome};
ghost use Rattle.reading.specs.Read.{read_told, TurnConsumes};

use std::io;
use std::io::Read;

// What a read returned says of the input: so many bytes were read, none as it has ended, or it failed.
// No `From`, since both types are those of std.
#[tactic(auto, using(crate::specs::Laws::told_failed, crate::specs::Laws::told_ended, crate::specs::Laws::told_more))]
pub fn told(got: io::Result<usize>) -> io::Result<Option<usize>>
    ensures { result ≡ read_told got }
{
    match got {
        Ok(0) => Ok(None),
        Ok(n) => Ok(Some(n)),
        Err(error) => Err(error),
    }
}

// Reads once: so many bytes stand at the start of the buffer, or the input has ended.
pub fn read<R: Read>(input: &mut R, buffer: &mut [u8]) -> io::Result<Option<usize>>
    ensures within { IfOk result (λ found. IfSome found (λ n. (0 < n) × (n ≤ length buffer.new))) }
    ensures bytes { TurnConsumes (R.remaining input.old) (R.remaining input.new) result buffer.new }
{
    told(input.read(buffer))
}
