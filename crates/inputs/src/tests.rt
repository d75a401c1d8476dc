use super::read_full;
use std::io;
use std::io::{ErrorKind, Read};

// An input of 7s that gives two of them at a read at most, and whose reads fail when none is left.
#[derive(Drop)]
struct Sevens {
    left: usize,
}

impl Read for Sevens {
    fn read(&mut self, b: &mut [u8]) -> io::Result<usize> {
        let n = b.len().min(self.left).min(2);
        if n == 0 {
            return Err(io::Error::from(ErrorKind::BrokenPipe));
        }
        b[..n].fill(7);
        self.left -= n;
        Ok(n)
    }
}

#[test]
fn goes_on_after_short_reads(rt: HostRuntime) {
    let mut b = [0; 5];
    let mut input: &[u8] = b"abc";
    let (length, stop) = read_full(&mut input, &mut b);
    assert_eq!(rt; length, 3);
    assert!(rt; stop.is_ok());
    assert_eq!(rt; b, *b"abc\0\0");
    let mut sevens = Sevens { left: 8 };
    let (length, stop) = read_full(&mut sevens, &mut b);
    assert_eq!(rt; length, 5);
    assert!(rt; stop.is_ok());
    assert_eq!(rt; sevens.left, 3);
    let mut b = [0; 5];
    let (length, stop) = read_full(&mut sevens, &mut b);
    assert_eq!(rt; length, 3);
    assert!(rt; stop.is_err());
    assert_eq!(rt; b, [7, 7, 7, 0, 0]);
}

#[test]
fn writes_no_more_than_it_read(rt: HostRuntime) {
    let mut b = [1; 5];
    let mut input: &[u8] = b"abc";
    let (length, stop) = read_full(&mut input, &mut b);
    assert_eq!(rt; length, 3);
    assert!(rt; stop.is_ok());
    assert_eq!(rt; b, *b"abc\x01\x01");
}
