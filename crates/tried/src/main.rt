// Tries the calls on good and bad input. The cases are the lines of the file `stdin` beside this folder, which says what
// they mean; what must come of them stands in the file `stdout`.
#![tactic(auto)]

mod files;
mod ground;
mod lent;
mod listed;
mod print;
mod script;
mod search;

use lent::{Lending, Lent, first};
use print::{Decimal, Hex};
use sets::StateSet;
use std::io;
use std::io::Read;

// The call that a line asks for.
fn call(rt: &impl Print, lent: &mut Lent) -> io::Result<()> {
    let words = &lent.words;
    let name = words.command();
    let i = words.starts();
    let p = words.safe();
    let run = first(&lent.run, words.length(Lending::Run));
    let shown = first(&lent.run, words.count(1));
    match script::letters(&name) {
        b"set" => print::set(rt, i),
        b"meet" => print::set(rt, i.meet(p)),
        b"join" => print::set(rt, i.join(p)),
        b"minus" => print::set(rt, i.minus(p)),
        b"with" => print::set(rt, i.with(words.state(1))),
        b"without" => print::set(rt, i.without(words.state(1))),
        b"member" => print::answer(rt, i.member(words.state(1))),
        b"within" => print::answer(rt, i.within(p)),
        b"full" => ground::full(rt, words.state(1)),
        b"turn" => ground::turn(rt, words.angle(1), words.angle(2)),
        b"at" => print::set(rt, StateSet::read(run, words.count(1))),
        b"first" => rt.print(Decimal(shown)),
        b"hex" => rt.print(Hex(shown)),
        b"f" => search::moved(rt, moves::f(words.moves(), words.size(), words.set(1))),
        b"g" => search::moved(rt, moves::g(words.moves(), words.size(), words.set(1))),
        b"fresh" => search::fresh(rt, lent),
        b"single" => search::single(rt, lent),
        b"run" => search::run(rt, lent),
        b"read" => files::read(rt, lent),
        b"back" => files::back(rt, lent),
        b"write" => files::write(rt, lent),
        b"byte" => files::byte(rt, lent),
        b"refused" => listed::refused(rt, lent),
        b"safe" => listed::safe(rt, lent),
        b"reached" => listed::reached(rt, lent),
        b"show" => listed::output(rt, lent),
        _ => Ok(()),
    }
}

// Takes a piece of the script: a line, or what follows the last one, which tells nothing.
fn step(rt: &impl Print, piece: &[u8], lent: &mut Lent) -> io::Result<()> {
    let line = piece.strip_suffix(b"\n");
    lent.words.take(line.unwrap_or(piece));
    if let Some(line) = line {
        let command = lent.words.command();
        script::tell(rt, script::letters(&command), line)?;
    }
    lent.lend();
    call(rt, lent)
}

fn main(rt: HostRuntime) -> io::Result<()> {
    // a read that fails is the end of the script
    let mut text = [0; 32768];
    let mut done = 0;
    while let Ok(n @ 1..) = rt.stdin().read(&mut text[done..]) {
        done += n;
    }
    let mut lent = Lent::NOTHING;
    for piece in text.split_inclusive(|b| *b == b'\n').take(2000) {
        step(&rt, piece, &mut lent)?;
    }
    Ok(())
}
