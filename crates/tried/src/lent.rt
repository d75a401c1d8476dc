// What the script lends to the calls. The words are one buffer, since what is lent may reach past a line's numbers, and a length that
// does not fit lends them all: a line's command and numbers, then N, I, P, the lengths that are lent and the move table.
use crate::script;
use moves::{Control, Model, Table};
use sets::StateSet;

// The places of N, I, P and the move table among the words.
const SIZE: usize = 40;

const STARTS: usize = 44;

const SAFE: usize = 48;

const MOVES: usize = 64;

// What is lent with a length, which stands at this place among the words.
#[derive(Clone, Copy)]
pub enum Lending {
    Moves = 52,
    Run,
    Set,
    Walk,
    Angles,
    Modes,
    Bytes,
}

// A line's command and numbers, N, I, P, the lengths and the move table.
#[derive(Drop)]
pub struct Words {
    pub all: [u64; 1089],
}

// All that is lent: the words, a run buffer, the labels of the states, and bytes, of a file or an output.
#[derive(Drop)]
pub struct Lent {
    pub words: Words,
    pub run: [u64; 2067],
    pub angles: [i16; 257],
    pub modes: [u8; 18184],
    pub bytes: [u8; 18184],
}

// The first so many, or all.
pub fn first<T>(b: &[T], n: usize) -> &[T] {
    b.get(..n).unwrap_or(b)
}

pub fn first_mut<T>(b: &mut [T], n: usize) -> &mut [T] {
    let n = n.min(b.len());
    &mut b[..n]
}

impl Words {
    // The number at a place of the line.
    pub fn number(&self, place: usize) -> u64 {
        self.all.get(place).copied().unwrap_or(0)
    }

    pub fn count(&self, place: usize) -> usize {
        self.number(place) as usize
    }

    pub fn state(&self, place: usize) -> u16 {
        script::small(self.number(place))
    }

    pub fn angle(&self, place: usize) -> i16 {
        script::signed(self.number(place))
    }

    // The four numbers from a place on.
    pub fn set(&self, place: usize) -> StateSet {
        StateSet::read(&self.all, place)
    }

    pub fn length(&self, of: Lending) -> usize {
        self.count(of as usize)
    }

    pub fn size(&self) -> u16 {
        self.state(SIZE)
    }

    pub fn starts(&self) -> StateSet {
        self.set(STARTS)
    }

    pub fn safe(&self) -> StateSet {
        self.set(SAFE)
    }

    pub fn model(&self) -> Model {
        Model {
            size: self.size(),
            starts: self.starts(),
            safe: self.safe(),
        }
    }

    // So many words from a place on, or all.
    pub fn part(&self, from: usize, n: usize) -> &[u64] {
        self.all
            .get(from..)
            .and_then(|rest| rest.get(..n))
            .unwrap_or(&self.all)
    }

    // The move table as it is lent.
    pub fn moves(&self) -> &[u64] {
        self.part(MOVES, self.length(Lending::Moves))
    }

    pub fn table(&self) -> Table<'_> {
        Table {
            model: self.model(),
            moves: self.moves(),
        }
    }

    // The table with labels as they are lent.
    pub fn control<'a>(&'a self, angles: &'a [i16], modes: &'a [u8]) -> Control<'a> {
        Control {
            table: self.table(),
            angles: first(angles, self.length(Lending::Angles)),
            modes: first(modes, self.length(Lending::Modes)),
        }
    }

    // The hints of a run: how many there are, and then these.
    pub fn hints(&self) -> &[u64] {
        self.part(3, self.count(2))
    }

    // Puts a state's row into the move table.
    fn put_row(&mut self) {
        if let Ok(state) = u8::try_from(self.number(1)) {
            let row = self.set(2);
            row.write(&mut self.all, MOVES + 4 * usize::from(state));
        }
    }

    fn put_set(&mut self, place: usize) {
        let set = self.set(1);
        set.write(&mut self.all, place);
    }
}

impl Lent {
    pub const NOTHING: Lent = Lent {
        words: Words { all: [0; 1089] },
        run: [0; 2067],
        angles: [0; 257],
        modes: [0; 18184],
        bytes: [0; 18184],
    };

    // What a line lends. A `fill` fills the command too, so its number may name a call.
    pub fn lend(&mut self) {
        let name = self.words.command();
        let a = self.words.number(1);
        let z = self.words.number(2);
        match script::letters(&name) {
            b"N" => self.words.put_set(SIZE),
            b"I" => self.words.put_set(STARTS),
            b"P" => self.words.put_set(SAFE),
            b"lengths" => self.words.put_set(Lending::Moves as usize),
            b"labels" => self.words.put_set(Lending::Angles as usize),
            b"fill" => self.words.all = [a; 1089],
            b"row" => self.words.put_row(),
            b"buffer" => self.new_run(),
            b"words" => self.put_run(),
            b"angles" => self.angles = [script::signed(a); 257],
            b"angle" => put(&mut self.angles, a, script::signed(z)),
            b"modes" => self.modes = [script::low(a); 18184],
            b"mode" => put(&mut self.modes, a, script::low(z)),
            b"bytes" => self.bytes = [script::low(a); 18184],
            b"file" => self.put_file(),
            _ => {}
        }
    }

    // A run buffer with n, k, the first word of x_1, and every other word.
    fn new_run(&mut self) {
        self.run = [self.words.number(4); 2067];
        self.run[0] = self.words.number(1);
        self.run[1] = self.words.number(2);
        self.run[6] = self.words.number(3);
    }

    // Puts words into the run buffer as it is lent.
    fn put_run(&mut self) {
        let set = self.words.set(2);
        let lent = self.words.length(Lending::Run);
        set.write(first_mut(&mut self.run, lent), self.words.count(1));
    }

    // Puts the numbers of a line as bytes.
    fn put_file(&mut self) {
        for (byte, number) in self.bytes.iter_mut().zip(self.words.part(1, 35)) {
            *byte = script::low(*number);
        }
    }
}

// Puts an element at a place, if there is such a one.
fn put<T: Copy>(b: &mut [T], place: u64, element: T) {
    if let Some(there) = b.get_mut(place as usize) {
        *there = element;
    }
}
