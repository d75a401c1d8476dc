// The control table in a file: read from any bytes, and written. Sections are taken by a Reader, which
// holds the lent file and knows its place. Reading checks the whole file before it fills a buffer, so
// a refused reading has changed nothing; so has a refused writing.
//
// The format is in specs/Format.antt; specs/Control.antt says which table a file's contents say.
#![tactic(auto)]

ghost use Rattle.std.specs.Prelude.{◌≡◌};
ghost use Rattle.moves.specs.Models.{as_control};
ghost use Rattle.tables.specs.Format.{section_number};
ghost use Rattle.tables.specs.Said.{said, section_step, Read, Wrote};
ghost use Rattle.tables.specs.Inner.{Fillable};

use answers::Refusal;
use counts::Counts;
use entry::Section;
use moves::{Control, Model};
use outputs::Output;

mod counts;
mod entry;
mod fill;
mod put;
mod refusals;

// A section that was taken: how many entries, and the place past it.
#[derive(Clone, Copy, Debug, PartialEq, Eq)]
pub struct Taken {
    pub number: usize,
    pub next: usize,
}

// Why a file is refused, and at which byte offset.
#[derive(Clone, Copy, Debug, PartialEq, Eq)]
pub struct Fault {
    pub refusal: Refusal,
    pub offset: usize,
}

impl Fault {
    // A refusal at a byte offset.
    fn new(refusal: Refusal, offset: usize) -> Fault
        ensures { result ≡ record { refusal = refusal; offset = offset } }
    {
        Fault { refusal, offset }
    }
}

// A table that was read, but for its moves, and the number of moves.
#[derive(Clone, Copy, Debug, PartialEq, Eq)]
pub struct Reading {
    pub model: Model,
    pub moves: u16,
}

// A lent file, and a place in it.
#[derive(Clone, Copy)]
pub struct Reader<'a> {
    pub file: &'a [u8],
    pub at: usize,
}

// A reader of a lent file, at a place.
pub fn open_at<'a>(file: &'a [u8], at: usize) -> Reader<'a>
    ensures { (result.file ≡ file.entry) × (result.at ≡ at) }
{
    Reader { file, at }
}

// What the reader takes as a section of a file of N states: how many entries, and the place past it.
// Sections are numbered as in document 01: 1 states, 2 starts, 3 safe states, 4 moves; any other
// number is as 2.
pub fn take<'a>(r: Reader<'a>, section: usize, size: usize) -> Result<Taken, Fault>
    ensures { said result ≡ section_step (section_number section size) r.entry.file.now r.entry.at }
{
    Section::from(section).taken(&r, size)
}

// The same of a file and a place.
pub fn section_of(file: &[u8], at: usize, section: usize, size: usize) -> Result<Taken, Fault>
    ensures { said result ≡ section_step (section_number section size) file.now at }
{
    take(open_at(file, at), section, size)
}

// The reading of a file that was taken, by its counts.
fn filled(
    file: &[u8],
    counts: &Counts,
    moves: &mut [u64],
    angles: &mut [i16],
    modes: &mut [u8],
) -> Reading
    requires { Fillable file.now counts.now moves.old angles.old modes.old }
    ensures { Read file.now moves.old angles.old modes.old (Ok result) moves.new angles.new modes.new }
{
    let at_starts = 2 + counts.size * 3 + 2;
    let at_safe = at_starts + counts.starts * 2 + 2;
    let at_moves = at_safe + counts.safe * 2 + 2;
    fill::fill_moves(file, at_moves, counts.moves, moves);
    fill::fill_angles(file, counts.size, angles);
    fill::fill_modes(file, counts.size, modes);
    let model = Model {
        size: counts.size as u16,
        starts: fill::set_of(file, at_starts, counts.starts),
        safe: fill::set_of(file, at_safe, counts.safe),
    };
    Reading {
        model,
        moves: counts.moves as u16,
    }
}

// Reads a file into the move table (1,024 words), 256 angles and 256 modes.
pub fn read(
    file: &[u8],
    moves: &mut [u64],
    angles: &mut [i16],
    modes: &mut [u8],
) -> Result<Reading, Fault>
    ensures { Read file.now moves.old angles.old modes.old
        result moves.new angles.new modes.new }
{
    if !refusals::sized(moves, angles, modes) {
        return Err(Fault::new(Refusal::WrongLength, 0));
    }
    let counts = counts::count(file)?;
    Ok(filled(file, &counts, moves, angles, modes))
}

// Writes a table's file to the front of an output, and answers its length.
pub fn write(control: &Control, out: &mut [u8]) -> Result<usize, Refusal>
    ensures { Wrote (as_control control.now) out.old result out.new }
{
    refusals::test(control, out.len())?;
    let mut output = Output::new(out);
    put::put_file(&mut output, control);
    Ok(output.place())
}
