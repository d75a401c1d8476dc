// Sets and turns: the calls that answer a set or an angle, or refuse.
use crate::print;
use sets::StateSet;
use std::io;

pub fn full(rt: &impl Print, size: u16) -> io::Result<()> {
    match StateSet::full(size) {
        Ok(set) => print::set(rt, set),
        Err(refusal) => print::refused(rt, refusal),
    }
}

pub fn turn(rt: &impl Print, a: i16, b: i16) -> io::Result<()> {
    match turns::turn(a, b) {
        Ok(angle) => print!(rt; " {angle}"),
        Err(refusal) => print::refused(rt, refusal),
    }
}
