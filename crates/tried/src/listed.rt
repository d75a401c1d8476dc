// Listings of refused files, safe runs and reached runs.
use crate::lent::{Lending, Lent, first, first_mut};
use crate::script;
use answers::Refusal;
use std::io;

// The listing that a call put into an output, or its refusal.
fn show(rt: &impl Print, answer: Result<usize, Refusal>, out: &[u8]) -> io::Result<()> {
    match answer {
        Ok(length) => rt.write_all(first(out, length)),
        Err(refusal) => {
            let number = u8::from(refusal);
            println!(rt; "the call is refused with {number}")
        }
    }
}

// A number and an offset.
pub fn refused(rt: &impl Print, lent: &mut Lent) -> io::Result<()> {
    let words = &lent.words;
    let out = first_mut(&mut lent.bytes, words.length(Lending::Bytes));
    let answer = listings::refused(script::low(words.number(1)), words.count(2), out);
    show(rt, answer, out)
}

// j, the rules, and the set.
pub fn safe(rt: &impl Print, lent: &mut Lent) -> io::Result<()> {
    let words = &lent.words;
    let out = first_mut(&mut lent.bytes, words.length(Lending::Bytes));
    let answer = listings::safe(
        &words.table(),
        words.count(1),
        words.number(2),
        words.set(3),
        out,
    );
    show(rt, answer, out)
}

// The states of the walk, the rules, and the walk.
pub fn reached(rt: &impl Print, lent: &mut Lent) -> io::Result<()> {
    let words = &lent.words;
    let mut walk = [0; 257];
    for (state, number) in walk.iter_mut().zip(words.part(3, 34)) {
        *state = script::small(*number);
    }
    let walk = first(&walk, words.length(Lending::Walk));
    let control = words.control(&lent.angles, &lent.modes);
    let out = first_mut(&mut lent.bytes, words.length(Lending::Bytes));
    let answer = listings::reached(&control, words.number(2), walk, words.count(1), out);
    show(rt, answer, out)
}

// The output as it is lent.
pub fn output(rt: &impl Print, lent: &Lent) -> io::Result<()> {
    rt.write_all(first(&lent.bytes, lent.words.length(Lending::Bytes)))
}
