// Who leads here? A second table of 1,024 words stands beside the move table, row t holding the states with a move to t:
// it is made, asked, kept in step where a move is added or removed, and g is worked out from it.
#![tactic(auto)]

ghost use Rattle.std.specs.Prelude.{◌≡◌, ◌<◌, ◌≤◌, true, false, not, ◌≢◌, length};
ghost use Rattle.std.specs.Int.Count.{count_trailing_zeros};
ghost use Rattle.answers.specs.Refusals.{first_failing};
ghost use Rattle.answers.specs.Said.{refusal_of};
ghost use Rattle.sets.specs.Said.{Answers};
ghost use Rattle.rules.specs.Table.{leads, sound_rows, backward as g};
ghost use Rattle.rules.specs.Second.{into as states_into, second_of, alike, agree as agreed, backward_by_second};
ghost use Rattle.edits.specs.Promises.{lent_tests, into_refusal, edit_refusal, g_refusal, SecondPromise, EditPromise};
ghost use Rattle.edits.specs.Inner.{StatePut, LedIn, LedAll};

use answers::Refusal;
use sets::StateSet;

// The lowest bit that is set.
fn lowest(w: u64) -> usize
    requires { w ≢ 0 }
    ensures value { result ≡ count_trailing_zeros 64 w }
    ensures upper_bound { result < 64 }
{
    u64::trailing_zeros(w) as usize
}

// Puts s into row t.
fn put_state(second: &mut [u64; 1024], t: usize, s: usize)
    requires t_bound { t < 256 }
    requires s_bound { s < 256 }
    ensures { StatePut second.old second.new t s }
{
    second[4 * t + s / 64] |= 1 << (s % 64);
}

// Puts s into each row t from 64 q up whose bit, t - 64 q, is set in w.
fn lead_in(second: &mut [u64; 1024], w: u64, q: usize, s: usize)
    requires q_bound { q < 4 }
    requires s_bound { s < 256 }
    ensures { LedIn second.old second.new w q s }
{
    let mut rest = w;
    while rest != 0 {
        let k = lowest(rest);
        put_state(second, 64 * q + k, s);
        rest &= !(1 << k);
    }
}

// Puts s into each row that its own row holds.
fn lead_all(second: &mut [u64; 1024], row: StateSet, s: usize)
    requires { s < 256 }
    ensures { LedAll second.old second.new row.words s }
{
    for q in 0..4 {
        lead_in(second, row.words[q], q, s);
    }
}

// The second table of a sound move table of N states, one step for each move.
fn second_of(moves: &[u64], size: u16) -> [u64; 1024]
    requires size_bound { size ≤ 256 }
    requires moves_value { sound_rows size moves.now ≡ true }
    ensures { result ≡ second_of moves.now }
{
    let mut second = [0; 1024];
    for s in 0..usize::from(size) {
        lead_all(&mut second, StateSet::read(moves, 4 * s), s);
    }
    second
}

// Whether a second table is that of a move table, where a call is lent both.
fn agree(moves: &[u64], second: &[u64], size: u16) -> bool
    requires { first_failing (lent_tests size moves.now second.now) ≡ 0 }
    ensures { result ≡ agreed moves.now second.now }
{
    second == second_of(moves, size).as_slice()
}

// A move table of N states and a second table, as a call is lent them.
#[derive(Clone, Copy)]
struct Pair<'a> {
    moves: &'a [u64],
    second: &'a [u64],
    size: u16,
}

impl Pair<'_> {
    // The tests that every call begins with: 7, 2, 13.
    fn test_lent(&self) -> Result<(), Refusal>
        ensures { refusal_of result ≡ first_failing (lent_tests self.now.size self.now.moves.now self.now.second.now) }
    {
        let Pair {
            moves,
            second,
            size,
        } = *self;
        if moves.len() != 1024 {
            return Err(Refusal::WrongLength);
        }
        if second.len() != 1024 {
            return Err(Refusal::WrongLength);
        }
        if !sets::in_range(size) {
            return Err(Refusal::OutOfRange);
        }
        if !moves::sound_rows(moves, size) {
            return Err(Refusal::NotSound);
        }
        Ok(())
    }

    // The tests of `into`: then 14 and 4.
    fn test_into(&self, t: u16) -> Result<(), Refusal>
        ensures { refusal_of result ≡ into_refusal self.now.size self.now.moves.now self.now.second.now t }
    {
        self.test_lent()?;
        if !agree(self.moves, self.second, self.size) {
            return Err(Refusal::TablesDisagree);
        }
        if self.size <= t {
            return Err(Refusal::NoSuchState);
        }
        Ok(())
    }

    // The tests of an edit: then 14, 4 for either state, and 15.
    fn test_edit(&self, s: u16, t: u16, there: bool) -> Result<(), Refusal>
        ensures { refusal_of result ≡ edit_refusal self.now.size self.now.moves.now self.now.second.now s t there }
    {
        self.test_lent()?;
        if !agree(self.moves, self.second, self.size) {
            return Err(Refusal::TablesDisagree);
        }
        if self.size <= s {
            return Err(Refusal::NoSuchState);
        }
        if self.size <= t {
            return Err(Refusal::NoSuchState);
        }
        if !differs(self.moves, s, t, there) {
            return Err(Refusal::NothingToEdit);
        }
        Ok(())
    }

    // The tests of g by the second table: then 13 for the set, and 14.
    fn test_g(&self, x: StateSet) -> Result<(), Refusal>
        ensures { refusal_of result ≡ g_refusal self.now.size self.now.moves.now self.now.second.now x.words }
    {
        self.test_lent()?;
        if !x.sound(self.size) {
            return Err(Refusal::NotSound);
        }
        if !agree(self.moves, self.second, self.size) {
            return Err(Refusal::TablesDisagree);
        }
        Ok(())
    }
}

// Makes the second table of a move table.
pub fn make_second(moves: &[u64], size: u16, second: &mut [u64]) -> Result<(), Refusal>
    ensures { SecondPromise size moves.now second.old second.new (refusal_of result) }
{
    Pair {
        moves,
        second,
        size,
    }
    .test_lent()?;
    let made = second_of(moves, size);
    second.copy_from_slice(&made);
    Ok(())
}

// The states with a move to t.
pub fn into(moves: &[u64], second: &[u64], size: u16, t: u16) -> Result<StateSet, Refusal>
    ensures { Answers (into_refusal size moves.now second.now t) (states_into moves.now t) result }
{
    Pair {
        moves,
        second,
        size,
    }
    .test_into(t)?;
    Ok(StateSet::read(second, 4 * usize::from(t)))
}

// Whether an edit changes something: a move to add is not there, one to remove is.
fn differs(moves: &[u64], s: u16, t: u16, there: bool) -> bool
    ensures { result ≡ alike (leads moves.now s t) (not there) }
{
    StateSet::read(moves, 4 * usize::from(s)).member(t) != there
}

// Puts the move from s to t into both tables, or takes it out.
fn edit(
    moves: &mut [u64],
    second: &mut [u64],
    size: u16,
    s: u16,
    t: u16,
    there: bool,
) -> Result<(), Refusal>
    ensures { EditPromise size moves.old moves.new second.old second.new s t there (refusal_of result) }
{
    Pair {
        moves,
        second,
        size,
    }
    .test_edit(s, t, there)?;
    moves::set_move(moves, s, t, there);
    moves::set_move(second, t, s, there);
    Ok(())
}

// Adds the move from s to t.
pub fn add(moves: &mut [u64], second: &mut [u64], size: u16, s: u16, t: u16) -> Result<(), Refusal>
    ensures { EditPromise size moves.old moves.new second.old second.new s t true (refusal_of result) }
{
    edit(moves, second, size, s, t, true)
}

// Removes the move from s to t.
pub fn remove(
    moves: &mut [u64],
    second: &mut [u64],
    size: u16,
    s: u16,
    t: u16,
) -> Result<(), Refusal>
    ensures { EditPromise size moves.old moves.new second.old second.new s t false (refusal_of result) }
{
    edit(moves, second, size, s, t, false)
}

// g by the second table, with no test: the full set less the rows of the states outside x.
fn backward(second: &[u64], size: u16, x: StateSet) -> StateSet
    requires { size ≤ 256 }
    ensures { result.words ≡ backward_by_second size second.now x.words }
{
    let all = StateSet::below(size);
    let mut rest = all.minus(x);
    let mut out = StateSet::EMPTY;
    while let Some(t) = rest.smallest() {
        out = out.join(StateSet::read(second, 4 * usize::from(t)));
        rest = rest.without(t);
    }
    all.minus(out)
}

// g(x), worked out from the second table.
pub fn g_by_second(
    moves: &[u64],
    second: &[u64],
    size: u16,
    x: StateSet,
) -> Result<StateSet, Refusal>
    ensures { Answers (g_refusal size moves.now second.now x.words) (g size moves.now x.words) result }
{
    Pair {
        moves,
        second,
        size,
    }
    .test_g(x)?;
    Ok(backward(second, size, x))
}
