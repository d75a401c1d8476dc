// The search: f and g, a fresh run buffer, a single rule and a run, each printed with what it leaves in what it was
// lent.
use crate::lent::{Lending, Lent, first, first_mut};
use crate::print;
use crate::print::Decimal;
use answers::Refusal;
use runs::{Outcome, RunAnswer};
use sets::StateSet;
use std::io;

// A refusal, and the words of the answer of f or g: none where it is refused.
pub fn moved(rt: &impl Print, answer: Result<StateSet, Refusal>) -> io::Result<()> {
    let set = match answer {
        Ok(set) => set,
        Err(refusal) => {
            print::refused(rt, refusal)?;
            StateSet::EMPTY
        }
    };
    let words = Decimal(&set.words);
    print!(rt; " set{words}")
}

// What the run buffer holds as it is lent, given its words from before.
fn held(rt: &impl Print, lent: &Lent, old: &[u64]) -> io::Result<()> {
    print::held(rt, first(&lent.run, lent.words.length(Lending::Run)), old)
}

// A fresh run buffer for a number of states.
pub fn fresh(rt: &impl Print, lent: &mut Lent) -> io::Result<()> {
    let old = lent.run;
    let run = first_mut(&mut lent.run, lent.words.length(Lending::Run));
    match runs::fresh(lent.words.state(1), run) {
        Ok(()) => print!(rt; " made")?,
        Err(refusal) => print::refused(rt, refusal)?,
    }
    held(rt, lent, &old)
}

// A single rule, with a set; then n and k.
pub fn single(rt: &impl Print, lent: &mut Lent) -> io::Result<()> {
    let old = lent.run;
    let words = &lent.words;
    let run = first_mut(&mut lent.run, words.length(Lending::Run));
    match runs::single(&words.table(), run, words.set(1)) {
        Ok(rule) => print!(rt; " fired {rule:?}")?,
        Err(refusal) => print::refused(rt, refusal)?,
    }
    let [n, k, ..] = lent.run;
    print!(rt; "; n {n} k {k}")?;
    held(rt, lent, &old)
}

// How a run ended, its rules, and its hints taken and used.
fn ended(rt: &impl Print, answer: RunAnswer) -> io::Result<()> {
    match answer.outcome {
        Outcome::Safe(j) => print!(rt; " safe {j}")?,
        Outcome::Reached(states) => print!(rt; " reached {states}")?,
        Outcome::Unfinished => print!(rt; " unfinished")?,
    }
    let rules = answer.rules;
    let taken = answer.taken;
    let used = answer.used;
    print!(rt; " rules {rules} taken {taken} used {used}")
}

fn answered(rt: &impl Print, answer: Result<RunAnswer, Refusal>) -> io::Result<()> {
    match answer {
        Ok(answer) => ended(rt, answer),
        Err(refusal) => {
            print::refused(rt, refusal)?;
            print!(rt; " rules 0 taken 0 used 0")
        }
    }
}

// A run: the budget, how many words of hints, and the hints.
pub fn run(rt: &impl Print, lent: &mut Lent) -> io::Result<()> {
    let old = lent.run;
    let words = &lent.words;
    let mut set = [91; 5];
    let mut walk = [999; 257];
    let answer = runs::run(
        &words.table(),
        first_mut(&mut lent.run, words.length(Lending::Run)),
        words.hints(),
        words.number(1),
        first_mut(&mut set, words.length(Lending::Set)),
        first_mut(&mut walk, words.length(Lending::Walk)),
    );
    answered(rt, answer)?;
    print::reasons(rt, &set, &walk)?;
    held(rt, lent, &old)
}
