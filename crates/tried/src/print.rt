// Printing: words, sets, refusals, and what was written to lent buffers.
use answers::Refusal;
use sets::StateSet;
use std::fmt::{Display, Formatter, Write};
use std::{fmt, io};

// Words one after the other, each after a space, in decimal.
#[derive(Clone, Copy)]
pub struct Decimal<'a>(pub &'a [u64]);

impl Display for Decimal<'_> {
    fn fmt<W: Write>(&self, f: &mut Formatter<W>) -> fmt::Result {
        for w in self.0 {
            write!(f, " {w}")?;
        }
        Ok(())
    }
}

// The same in hexadecimal.
#[derive(Clone, Copy)]
pub struct Hex<'a>(pub &'a [u64]);

impl Display for Hex<'_> {
    fn fmt<W: Write>(&self, f: &mut Formatter<W>) -> fmt::Result {
        for w in self.0 {
            write!(f, " {w:016x}")?;
        }
        Ok(())
    }
}

// The number of members, the smallest, and the words in hexadecimal.
#[derive(Clone, Copy)]
pub struct Members {
    pub set: StateSet,
}

impl Display for Members {
    fn fmt<W: Write>(&self, f: &mut Formatter<W>) -> fmt::Result {
        let count = self.set.count();
        write!(f, " count {count} smallest")?;
        match self.set.smallest() {
            Some(s) => write!(f, " {s}")?,
            None => write!(f, " nothing")?,
        }
        let words = Hex(&self.set.words);
        write!(f, "{words}")
    }
}

pub fn set(rt: &impl Print, set: StateSet) -> io::Result<()> {
    rt.print(Members { set })
}

pub fn refused(rt: &impl Print, refusal: Refusal) -> io::Result<()> {
    let number = u8::from(refusal);
    print!(rt; " refused {number}")
}

pub fn answer(rt: &impl Print, yes: bool) -> io::Result<()> {
    rt.print(if yes { " yes" } else { " no" })
}

// Those that are others than a number, each with its place.
fn others<T: Copy + PartialEq + Display>(rt: &impl Print, b: &[T], than: T) -> io::Result<()> {
    for (place, w) in b.iter().enumerate() {
        if *w != than {
            print!(rt; " {place}:{w}")?;
        }
    }
    Ok(())
}

// What a buffer of equal numbers holds now.
fn written<T: Copy + PartialEq + Display>(rt: &impl Print, b: &[T], before: T) -> io::Result<()> {
    if b.iter().all(|w| *w == before) {
        return print!(rt; " untouched");
    }
    others(rt, b, before)
}

// What was written to a set of 91s and to a walk of 999s.
pub fn reasons(rt: &impl Print, set: &[u64], walk: &[u16]) -> io::Result<()> {
    print!(rt; "; set")?;
    written(rt, set, 91)?;
    print!(rt; "; walk")?;
    written(rt, walk, 999)
}

// What a run buffer holds, given its words from before.
pub fn held(rt: &impl Print, run: &[u64], old: &[u64]) -> io::Result<()> {
    print!(rt; "; run")?;
    if run.iter().zip(old).all(|(w, was)| w == was) {
        return print!(rt; " untouched");
    }
    others(rt, run, 0)
}
