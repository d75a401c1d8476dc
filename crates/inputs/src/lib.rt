// An input, read into a buffer.
#![tactic(auto)]

ghost use Rattle.std.specs.Prelude.{◌≡◌, ◌<◌, ◌≤◌, length, take, OnOk};
ghost use Rattle.std.specs.Io.KnownBytes.{Consumes, IsAtEnd};

use std::io;
use std::io::Read;

// Reads until the buffer is full, the input ends or a read fails. Answers how many bytes it put at the buffer's start, and the read that
// failed, if one did. Of the bytes after these no promise speaks, since a read may write to all of the buffer that it is lent.
pub fn read_full<R: Read>(input: &mut R, b: &mut [u8]) -> (usize, io::Result<()>)
    ensures bound { result.0 ≤ length b.new }
    ensures length { length b.new ≡ length b.old }
    ensures bytes { Consumes (R.remaining input.old) (R.remaining input.new) (take result.0 b.new) }
    ensures stop { OnOk result.1 (result.0 < length b.new → IsAtEnd (R.remaining input.new)) }
{
    let mut done = 0;
    while done < b.len() {
        match input.read(&mut b[done..]) {
            Ok(0) => break,
            Ok(n) => done += n,
            Err(failure) => return (done, Err(failure)),
        }
    }
    (done, Ok(()))
}

#[cfg(test)]
mod tests;
