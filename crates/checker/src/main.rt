// The program `check` of document 01: reads a table's file from standard input and prints its listing,
// which `checks::check` makes and promises.
#![tactic(auto)]

ghost use Rattle.std.specs.Prelude.{◌≡◌, ◌<◌, ◌≤◌, length, take, OnOk};
ghost use Rattle.std.specs.Io.KnownBytes.{Consumes, IsAtEnd};

use std::io;
use std::io::Read;

// Reads until the buffer is full, the input ends or a read fails. Answers how many bytes it put at the buffer's start, and the read that
// failed, if one did. Of the bytes after these no promise speaks, since a read may write to all of the buffer that it is lent.
fn read_full<R: Read>(input: &mut R, b: &mut [u8]) -> (usize, io::Result<()>)
    ensures bound { result.0 ≤ length b.new }
    ensures length { length b.new ≡ length b.old }
    ensures bytes { Consumes (R.remaining input.old) (R.remaining input.new) (take result.0 b.new) }
    ensures stop { OnOk result.1 (result.0 < length b.new → IsAtEnd (R.remaining input.new)) }
{
    let mut done = 0;
    while done < b.len() {
        match input.read(&mut b[done..]) {
            Ok(0) => break,
            Ok(n) => done += n,
            Err(failure) => return (done, Err(failure)),
        }
    }
    (done, Ok(()))
}

// No byte past the first 18,185 changes a listing, and no listing has more than 5,424: `check_front` and
// `check_fits` of `checks`. A read that fails is the end of the input.
fn main(rt: HostRuntime) -> io::Result<()> {
    let mut file = [0; 18185];
    let (length, _) = read_full(&mut rt.stdin(), &mut file);
    let mut out = [0; 5424];
    if let Ok(n) = checks::check(&file[..length], &mut out) {
        rt.write_all(out.get(..n).unwrap_or(&[]))?;
    }
    Ok(())
}

#[cfg(test)]
mod tests;
