// The move table, 1,024 words lent by the caller: its soundness, its moves, f and g.
//
// `f` and `g` refuse what is not sound. `forward` and `backward` make no test, for callers that
// have made it once; they answer for any words all the same.
#![tactic(auto)]

ghost use Rattle.std.specs.Prelude.{◌≡◌, ◌-◌, ◌<◌, min};
ghost use Rattle.sets.specs.Sets.{word_of};
ghost use Rattle.rules.specs.Table.{sound_table, sound_rows, sound_row, move_count, with_move, forward as f, backward as g};
ghost use Rattle.moves.specs.Models.{as_table};
ghost use Rattle.moves.specs.Wide.{forward256, backward256, ends_in};
ghost use Rattle.answers.specs.Said.{refusal_of};
ghost use Rattle.sets.specs.Said.{Answers};
ghost use Rattle.moves.specs.Said.{move_refusal};

use answers::Refusal;
use sets::StateSet;

// A controller but for its moves: N, the starts I and the safe states P.
#[derive(Clone, Copy, Debug, PartialEq, Eq)]
pub struct Model {
    pub size: u16,
    pub starts: StateSet,
    pub safe: StateSet,
}

// A table as it is lent: the model, and a move table of 1,024 words.
#[derive(Clone, Copy)]
pub struct Table<'a> {
    pub model: Model,
    pub moves: &'a [u64],
}

// A control table as it is lent: a table, and an angle and a mode for each of 256 states.
#[derive(Clone, Copy)]
pub struct Control<'a> {
    pub table: Table<'a>,
    pub angles: &'a [i16],
    pub modes: &'a [u8],
}

impl Table<'_> {
    // Whether the table is sound: the starts, the safe states and all rows.
    pub fn is_sound(&self) -> bool
        ensures { result ≡ sound_table (as_table self.now) }
    {
        let model = self.model;
        if !model.starts.sound(model.size) {
            return false;
        }
        if !model.safe.sound(model.size) {
            return false;
        }
        sound_rows(self.moves, model.size)
    }
}

// Whether row s holds no number from N up, and nothing where s is from N up.
fn sound_row(moves: &[u64], size: u16, s: u16) -> bool
    ensures { result ≡ sound_row size moves.now s }
{
    let row = StateSet::read(moves, 4 * (s as usize));
    if s < size {
        row.sound(size)
    } else {
        row.sound(0)
    }
}

// Whether all rows hold no number from N up and rows from N up are empty.
pub fn sound_rows(moves: &[u64], size: u16) -> bool
    ensures { result ≡ sound_rows size moves.now }
{
    (0..256).all(|s| sound_row(moves, size, s))
}

// The number of moves.
pub fn count_moves(moves: &[u64]) -> usize
    ensures { result ≡ move_count moves.now }
{
    let mut total: usize = 0;
    for s in 0..256 {
        let row = StateSet::read(moves, 4 * s);
        total += row.count() as usize;
    }
    total
}

// The move table where the move from s to u is there, or is not; numbers from 256 up change nothing.
pub fn set_move(moves: &mut [u64], s: u16, u: u16, there: bool)
    ensures { moves.new ≡ with_move moves.old s u there }
{
    let at = 4 * (s as usize);
    let row = StateSet::read(moves, at);
    if there {
        row.with(u).write(moves, at);
    } else {
        row.without(u).write(moves, at);
    }
}

// f, with no test: every number below 256 with a move into it from a member of x below N.
pub fn forward(moves: &[u64], size: u16, x: StateSet) -> StateSet
    ensures { result.words ≡ forward256 size moves.now x.words }
{
    let mut acc = StateSet::EMPTY;
    for s in 0..size {
        if x.member(s) {
            acc = acc.join(StateSet::read(moves, 4 * (s as usize)));
        }
    }
    acc
}

// How many of the 64 states from `from` up are below N.
fn below(size: u16, from: u16) -> u16
    ensures { result ≡ min (size - from) 64 }
{
    size.saturating_sub(from).min(64)
}

// Word q of g, with no test.
#[inline(always)]
fn backward_word(moves: &[u64], size: u16, q: u16, x: StateSet) -> u64
    requires { q < 4 }
    ensures { result ≡ word_of size (ends_in moves.now x.words) q }
{
    let from = 64 * q;
    let m = below(size, from);
    let mut w: u64 = 0;
    for k in 0..m {
        let row = StateSet::read(moves, 4 * ((from + k) as usize));
        w |= u64::from(row.within(x)) << k;
    }
    w
}

// g, with no test, word by word: `backward` has it twice, so it is inlined by force.
#[inline(always)]
fn backward_words(moves: &[u64], size: u16, x: StateSet) -> StateSet
    ensures { result.words ≡ backward256 size moves.now x.words }
{
    StateSet {
        words: [
            backward_word(moves, size, 0, x),
            backward_word(moves, size, 1, x),
            backward_word(moves, size, 2, x),
            backward_word(moves, size, 3, x),
        ],
    }
}

// g, with no test: every state below N all of whose moves end in x. Of a move table of 1,024 words the compiler knows the
// length, so that no row's place is tested.
pub fn backward(moves: &[u64], size: u16, x: StateSet) -> StateSet
    ensures { result.words ≡ backward256 size moves.now x.words }
{
    match moves.as_array::<1024>() {
        Some(whole) => backward_words(whole, size, x),
        None => backward_words(moves, size, x),
    }
}

// Whether f and g are refused: 7, 2, 13.
#[tactic(auto, using(crate::proofs::Refused::wrong_length))]
fn test(moves: &[u64], size: u16, x: StateSet) -> Result<(), Refusal>
    ensures { refusal_of result ≡ move_refusal size moves.now x.words }
{
    if moves.len() != 1024 {
        return Err(Refusal::WrongLength);
    }
    if !sets::in_range(size) {
        return Err(Refusal::OutOfRange);
    }
    if !sound_rows(moves, size) || !x.sound(size) {
        return Err(Refusal::NotSound);
    }
    Ok(())
}

// f(x): every state with a move into it from a member of x.
pub fn f(moves: &[u64], size: u16, x: StateSet) -> Result<StateSet, Refusal>
    ensures { Answers (move_refusal size moves.now x.words) (f size moves.now x.words) result }
{
    test(moves, size, x)?;
    Ok(forward(moves, size, x))
}

// g(x): every state all of whose moves end in x.
pub fn g(moves: &[u64], size: u16, x: StateSet) -> Result<StateSet, Refusal>
    ensures { Answers (move_refusal size moves.now x.words) (g size moves.now x.words) result }
{
    test(moves, size, x)?;
    Ok(backward(moves, size, x))
}
