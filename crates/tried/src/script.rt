// The script, line by line: a command, then numbers with one space before each. Numbers are decimal and may have a
// minus sign; those of `file` are hexadecimal. What follows `say ` is text, an empty line ends a line of output, and a
// line with another command than those of `main` and `lent` does nothing.
use crate::lent::Words;
use sets::StateSet;
use std::io;

// A command's letters, without the zeros before them.
pub fn letters(command: &[u8; 8]) -> &[u8] {
    let zeros = command.iter().position(|b| *b != 0).unwrap_or(8);
    command.get(zeros..).unwrap_or(&[])
}

impl Words {
    // The last eight bytes of the command.
    pub fn command(&self) -> [u8; 8] {
        self.all[0].to_be_bytes()
    }

    // Takes a line into the first words: the command and its numbers, of which the last is followed by zeros.
    pub fn take(&mut self, line: &[u8]) {
        let mut fields = line.split(|b| *b == b' ');
        let name = fields.next().unwrap_or(&[]);
        self.all[0] = name.iter().fold(0, |w, b| (w << 8) | u64::from(*b));
        let command = self.command();
        for (place, field) in (1..36).zip(fields) {
            StateSet::EMPTY.write(&mut self.all, place);
            if let Some(number) = self.all[..35].get_mut(place) {
                *number = parsed(letters(&command), field);
            }
        }
    }
}

// A number of a command.
fn parsed(command: &[u8], field: &[u8]) -> u64 {
    match command {
        b"file" => field.iter().fold(0, |n, b| (n << 4) | value(*b)),
        _ => field.iter().fold(0, |n, b| grown(n, *b)),
    }
}

// A number after one more byte. A number with a minus sign is the complement of the one without.
fn grown(n: u64, b: u8) -> u64 {
    if b == b'-' {
        !0
    } else if n < 1 << 63 {
        tens(n, value(b))
    } else {
        !tens(!n, value(b))
    }
}

fn tens(n: u64, digit: u64) -> u64 {
    n.wrapping_mul(10).wrapping_add(digit)
}

// The value of a digit.
fn value(b: u8) -> u64 {
    match b {
        ..b'0' => 0,
        b'0'..b'a' => u64::from(b - b'0'),
        b'a'.. => u64::from(b - b'a') + 10,
    }
}

// What a line prints by itself: a text, or an end.
pub fn tell(rt: &impl Print, command: &[u8], line: &[u8]) -> io::Result<()> {
    match command {
        b"" => println!(rt),
        b"say" => rt.write_all(line.get(4..).unwrap_or(&[])),
        _ => Ok(()),
    }
}

// A number as a state or a size.
pub fn small(w: u64) -> u16 {
    u16::try_from(w).unwrap_or(u16::MAX)
}

// A number as a byte.
pub fn low(w: u64) -> u8 {
    u8::try_from(w).unwrap_or(u8::MAX)
}

// A number as an angle, 0 if it is none.
pub fn signed(w: u64) -> i16 {
    if let Ok(angle) = i16::try_from(w) {
        return angle;
    }
    let size = i64::try_from(!w).unwrap_or(0);
    i16::try_from(size.wrapping_neg()).unwrap_or(0)
}
