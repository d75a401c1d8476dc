// Files: read and written.
use crate::lent::{Lending, Lent, Words, first, first_mut};
use crate::print;
use crate::print::Hex;
use answers::Refusal;
use moves::{Control, Model, Table};
use sets::StateSet;
use std::io;
use tables::{Fault, Reading};

// What a file is read into.
#[derive(Drop)]
struct Buffers {
    moves: [u64; 1025],
    angles: [i16; 257],
    modes: [u8; 257],
}

impl Buffers {
    const SEVENS: Buffers = Buffers {
        moves: [7; 1025],
        angles: [7; 257],
        modes: [7; 257],
    };

    fn read(&mut self, words: &Words, file: &[u8]) -> Result<Reading, Fault> {
        tables::read(
            file,
            first_mut(&mut self.moves, words.length(Lending::Moves)),
            first_mut(&mut self.angles, words.length(Lending::Angles)),
            first_mut(&mut self.modes, words.length(Lending::Modes)),
        )
    }

    // The table that was read, of a model.
    fn control(&self, words: &Words, model: Model) -> Control<'_> {
        Control {
            table: Table {
                model,
                moves: first(&self.moves, words.length(Lending::Moves)),
            },
            angles: first(&self.angles, words.length(Lending::Angles)),
            modes: first(&self.modes, words.length(Lending::Modes)),
        }
    }

    // The first words of rows 0, 1 and 2, the last word of the table, and the labels of states 0, 1, 2 and 255.
    fn show(&self, rt: &impl Print) -> io::Result<()> {
        let words = [
            self.moves[0],
            self.moves[4],
            self.moves[8],
            self.moves[1023],
        ];
        let rows = Hex(&words);
        print!(rt; "  rows{rows} angles")?;
        for state in [0, 1, 2, 255] {
            let angle = self.angles[state];
            print!(rt; " {angle}")?;
        }
        print!(rt; " modes")?;
        for state in [0, 1, 2, 255] {
            let mode = self.modes[state];
            print!(rt; " {mode}")?;
        }
        Ok(())
    }
}

// A refusal and its offset; and N and the numbers of starts, safe states and moves, 0 where the file is refused.
fn reading(rt: &impl Print, reading: Result<Reading, Fault>) -> io::Result<()> {
    match reading {
        Ok(Reading { model, moves }) => {
            let size = model.size;
            let starts = model.starts.count();
            let safe = model.safe.count();
            println!(rt; " model {size} {starts} {safe} {moves}")
        }
        Err(Fault { refusal, offset }) => {
            print::refused(rt, refusal)?;
            println!(rt; " at {offset} model 0 0 0 0")
        }
    }
}

// Reads a file into buffers of 7s, and prints the reading and, but for buffers of a wrong length, what they hold.
pub fn read(rt: &impl Print, lent: &Lent) -> io::Result<()> {
    let mut buffers = Buffers::SEVENS;
    let file = first(&lent.bytes, lent.words.length(Lending::Bytes));
    let answer = buffers.read(&lent.words, file);
    reading(rt, answer)?;
    match answer {
        Err(fault) if fault.refusal == Refusal::WrongLength => Ok(()),
        _ => buffers.show(rt),
    }
}

fn written(rt: &impl Print, answer: Result<usize, Refusal>) -> io::Result<()> {
    match answer {
        Ok(length) => print!(rt; " length {length}"),
        Err(refusal) => print::refused(rt, refusal),
    }
}

// Reads a file into buffers of 7s, and writes the table back to an output of the file's length. A refused file has an empty model.
pub fn back(rt: &impl Print, lent: &Lent) -> io::Result<()> {
    let mut buffers = Buffers::SEVENS;
    let file = first(&lent.bytes, lent.words.length(Lending::Bytes));
    let none = Model {
        size: 0,
        starts: StateSet::EMPTY,
        safe: StateSet::EMPTY,
    };
    let model = match buffers.read(&lent.words, file) {
        Ok(reading) => reading.model,
        Err(_) => none,
    };
    let mut buffer = [7; 18184];
    let out = first_mut(&mut buffer, file.len());
    let control = buffers.control(&lent.words, model);
    written(rt, tables::write(&control, out))?;
    print!(rt;
        "\n  {} bytes",
        if *out == *file { "the same" } else { "other" }
    )
}

// Writes the script's table.
pub fn write(rt: &impl Print, lent: &mut Lent) -> io::Result<()> {
    let words = &lent.words;
    let control = words.control(&lent.angles, &lent.modes);
    let out = first_mut(&mut lent.bytes, words.length(Lending::Bytes));
    written(rt, tables::write(&control, out))
}

// The byte at a place.
pub fn byte(rt: &impl Print, lent: &Lent) -> io::Result<()> {
    match lent.bytes.get(lent.words.count(1)) {
        Some(byte) => print!(rt; " {byte}"),
        None => Ok(()),
    }
}
