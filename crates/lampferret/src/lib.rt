// The calls for C and Rust, one for each call of documents 01 and 02: numbers pass as themselves, a set as four
// lent words, any other buffer as its place and its length.
//
// Each call passes on what a proved call answers: the refusal's number, 0 for none, and the rest of the
// answer in lent places. Where it refuses, each lent place is left as it was, but for the offset of a reading.
#![tactic(auto)]

ghost use Rattle.std.specs.Prelude.{true, false, ◌≡◌};
ghost use Rattle.answers.specs.Answer.{given};
ghost use Rattle.answers.specs.Said.{said, refusal_of};
ghost use Rattle.sets.specs.Sets.{count, smallest, full, size_refusal};
ghost use Rattle.sets.specs.Said.{said_set};
ghost use Rattle.turns.specs.Turn.{turn_of};
ghost use Rattle.rules.specs.Table.{table, forward as f, backward as g};
ghost use Rattle.moves.specs.Models.{control, as_table};
ghost use Rattle.moves.specs.Said.{move_refusal};
ghost use Rattle.rules.specs.Second.{into as states_into};
ghost use Rattle.runs.specs.Promises.{FreshPromise};
ghost use Rattle.runs.specs.Said.{as_rule, as_outcome};
ghost use Rattle.edits.specs.Promises.{into_refusal, g_refusal, SecondPromise, EditPromise};
ghost use Rattle.checks.specs.Check.{check_listing};
ghost use Rattle.lampferret.specs.Boundary.{number, rule_number, outcome_words, Gives, SetGiven};
ghost use Rattle.lampferret.specs.Boundary.{SingleGiven, RunGiven, ReadGiven, WriteGiven, ListGiven};

use answers::Refusal;
use moves::{Control, Model, Table};
use runs::{Outcome, Rule, RunAnswer};
use sets::StateSet;

// A set lent as four words.
fn set_of(words: &[u64; 4]) -> StateSet
    ensures { result.words ≡ words.now }
{
    StateSet { words: *words }
}

// The four words of a set.
fn words_of(set: StateSet) -> [u64; 4]
    ensures { result ≡ set.words }
{
    set.words
}

// A table whose sets are lent as four words each.
fn table_of<'a>(size: u16, starts: &[u64; 4], safe: &[u64; 4], moves: &'a [u64]) -> Table<'a>
    ensures { as_table result ≡ table size starts.now safe.now moves.now }
{
    let model = Model {
        size,
        starts: set_of(starts),
        safe: set_of(safe),
    };
    Table { model, moves }
}

// What C is told of a call that answers no value: 0, or the refusal's number.
fn told(a: Result<(), Refusal>) -> u8
    ensures { result ≡ refusal_of a }
{
    match a {
        Ok(()) => 0,
        Err(refusal) => u8::from(refusal),
    }
}

// A value into a lent place, unless the call was refused; what C is told.
fn give<T: Copy>(a: Result<T, Refusal>, place: &mut T) -> u8
    ensures { Gives (said a) place.old place.new result }
{
    match a {
        Ok(value) => {
            *place = value;
            0
        }
        Err(refused) => u8::from(refused),
    }
}

// The same of a set, into four lent words.
fn give_set(a: Result<StateSet, Refusal>, words: &mut [u64; 4]) -> u8
    ensures { Gives (said_set a) words.old words.new result }
{
    give(a.map(words_of), words)
}

// The full set of N states.
#[unsafe(no_mangle)]
pub extern "C" fn lampferret_full(size: u16, set: &mut [u64; 4]) -> u8
    ensures { SetGiven (size_refusal size) (full size) set.old set.new result }
{
    give_set(StateSet::full(size), set)
}

// The number of members.
#[unsafe(no_mangle)]
pub extern "C" fn lampferret_count(set: &[u64; 4]) -> u16
    ensures { result ≡ count 256 set.now }
{
    set_of(set).count()
}

// The smallest member; 256 for the empty set.
#[unsafe(no_mangle)]
pub extern "C" fn lampferret_smallest(set: &[u64; 4]) -> u16
    ensures { result ≡ number (smallest set.now) }
{
    set_of(set).smallest().unwrap_or(256)
}

// The turn from angle a to angle b, -180 to 180.
#[unsafe(no_mangle)]
pub extern "C" fn lampferret_turn(a: i16, b: i16, turn: &mut i16) -> u8
    ensures { Gives (turn_of a b) turn.old turn.new result }
{
    give(turns::turn(a, b), turn)
}

// f(x).
#[unsafe(no_mangle)]
pub extern "C" fn lampferret_f(moves: &[u64], size: u16, x: &[u64; 4], res: &mut [u64; 4]) -> u8
    ensures { SetGiven (move_refusal size moves.now x.now) (f size moves.now x.now)
        res.old res.new result }
{
    give_set(moves::f(moves, size, set_of(x)), res)
}

// g(x).
#[unsafe(no_mangle)]
pub extern "C" fn lampferret_g(moves: &[u64], size: u16, x: &[u64; 4], res: &mut [u64; 4]) -> u8
    ensures { SetGiven (move_refusal size moves.now x.now) (g size moves.now x.now)
        res.old res.new result }
{
    give_set(moves::g(moves, size, set_of(x)), res)
}

// The second table of a move table: row t holds the states with a move to t.
#[unsafe(no_mangle)]
pub extern "C" fn lampferret_second(moves: &[u64], size: u16, second: &mut [u64]) -> u8
    ensures { SecondPromise size moves.now second.old second.new result }
{
    told(edits::make_second(moves, size, second))
}

// The states with a move to a state.
#[unsafe(no_mangle)]
pub extern "C" fn lampferret_into(
    moves: &[u64],
    second: &[u64],
    size: u16,
    state: u16,
    res: &mut [u64; 4],
) -> u8
    ensures { SetGiven (into_refusal size moves.now second.now state) (states_into moves.now state)
        res.old res.new result }
{
    give_set(edits::into(moves, second, size, state), res)
}

// A move added, in both tables.
#[unsafe(no_mangle)]
pub extern "C" fn lampferret_add(
    moves: &mut [u64],
    second: &mut [u64],
    size: u16,
    from: u16,
    to: u16,
) -> u8
    ensures { EditPromise size moves.old moves.new second.old second.new from to true result }
{
    told(edits::add(moves, second, size, from, to))
}

// A move removed, from both tables.
#[unsafe(no_mangle)]
pub extern "C" fn lampferret_remove(
    moves: &mut [u64],
    second: &mut [u64],
    size: u16,
    from: u16,
    to: u16,
) -> u8
    ensures { EditPromise size moves.old moves.new second.old second.new from to false result }
{
    told(edits::remove(moves, second, size, from, to))
}

// g(x), worked out from the second table.
#[unsafe(no_mangle)]
pub extern "C" fn lampferret_g_by_second(
    moves: &[u64],
    second: &[u64],
    size: u16,
    x: &[u64; 4],
    res: &mut [u64; 4],
) -> u8
    ensures { SetGiven (g_refusal size moves.now second.now x.now)
        (g size moves.now x.now) res.old res.new result }
{
    give_set(edits::g_by_second(moves, second, size, set_of(x)), res)
}

// A fresh run buffer.
#[unsafe(no_mangle)]
pub extern "C" fn lampferret_fresh(size: u16, run: &mut [u64]) -> u8
    ensures { FreshPromise size run.old run.new result }
{
    told(runs::fresh(size, run))
}

// The number of a rule in document 01.
#[tactic(auto, unfolding(runs::specs::Said::as_rule, crate::specs::Boundary::rule_number))]
fn rule_number(rule: Rule) -> u8
    ensures { result ≡ rule_number (as_rule rule) }
{
    match rule {
        Rule::Unfold => 2,
        Rule::Candidate => 3,
        Rule::Decide => 4,
        Rule::Conflict => 5,
    }
}

// One rule, with a proposed set; the place `rule` gets the number of the rule fired.
#[unsafe(no_mangle)]
pub extern "C" fn lampferret_single(
    moves: &[u64],
    size: u16,
    starts: &[u64; 4],
    safe: &[u64; 4],
    run: &mut [u64],
    proposal: &[u64; 4],
    rule: &mut u8,
) -> u8
    ensures { SingleGiven (table size starts.now safe.now moves.now) proposal.now
        run.old run.new rule.old rule.new result }
{
    let table = table_of(size, starts, safe, moves);
    let a = runs::single(&table, run, set_of(proposal));
    give(a.map(rule_number), rule)
}

// A run's answer in five words.
#[tactic(auto, unfolding(crate::specs::Boundary::outcome_words))]
fn run_words(a: RunAnswer) -> [u64; 5]
    ensures { result ≡ outcome_words (as_outcome a.outcome) a.rules a.taken a.used }
{
    let RunAnswer {
        outcome,
        rules,
        taken,
        used,
    } = a;
    match outcome {
        Outcome::Unfinished => [0, 0, rules, taken, used],
        Outcome::Safe(j) => [1, j as u64, rules, taken, used],
        Outcome::Reached(states) => [2, states as u64, rules, taken, used],
    }
}

// A run of at most budget rules. The place `answer` gets five words: 0 for unfinished, 1 for safe, 2 for
// reached; j of a safe run, the number of states of a reached one, else 0; the rules fired, the hints
// taken, the hints used.
#[unsafe(no_mangle)]
pub extern "C" fn lampferret_run(
    moves: &[u64],
    size: u16,
    starts: &[u64; 4],
    safe: &[u64; 4],
    run: &mut [u64],
    hints: &[u64],
    budget: u64,
    set: &mut [u64],
    walk: &mut [u16],
    answer: &mut [u64; 5],
) -> u8
    ensures { RunGiven (table size starts.now safe.now moves.now) hints.now budget
        run.old run.new set.old set.new walk.old walk.new
        answer.old answer.new result }
{
    let table = table_of(size, starts, safe, moves);
    let a = runs::run(&table, run, hints, budget, set, walk);
    give(a.map(run_words), answer)
}

// Reads a file into the move table, 256 angles and 256 modes. The places `starts` and `safe` get the sets, `counts` the
// numbers of states and of moves, and `offset` the byte offset of a refusal, 0 where there is none.
#[unsafe(no_mangle)]
pub extern "C" fn lampferret_read(
    file: &[u8],
    moves: &mut [u64],
    angles: &mut [i16],
    modes: &mut [u8],
    starts: &mut [u64; 4],
    safe: &mut [u64; 4],
    counts: &mut [u16; 2],
    offset: &mut usize,
) -> u8
    ensures { ReadGiven file.now moves.old moves.new angles.old angles.new
        modes.old modes.new starts.old starts.new safe.old safe.new
        counts.old counts.new offset.new result }
{
    match tables::read(file, moves, angles, modes) {
        Ok(reading) => {
            let model = reading.model;
            let start_words = words_of(model.starts);
            *starts = start_words;
            let safe_words = words_of(model.safe);
            *safe = safe_words;
            *counts = [model.size, reading.moves];
            *offset = 0;
            0
        }
        Err(fault) => {
            *offset = fault.offset;
            u8::from(fault.refusal)
        }
    }
}

// Writes a table's file to the front of an output; the place `length` gets the file's length.
#[unsafe(no_mangle)]
pub extern "C" fn lampferret_write(
    size: u16,
    starts: &[u64; 4],
    safe: &[u64; 4],
    moves: &[u64],
    angles: &[i16],
    modes: &[u8],
    out: &mut [u8],
    length: &mut usize,
) -> u8
    ensures { WriteGiven (control (table size starts.now safe.now moves.now)
        angles.now modes.now) out.old out.new length.old length.new result }
{
    let table = table_of(size, starts, safe, moves);
    let control = Control {
        table,
        angles,
        modes,
    };
    give(tables::write(&control, out), length)
}

// The listing of a file, as the program `check` prints it; the place `length` gets its length.
#[unsafe(no_mangle)]
pub extern "C" fn lampferret_check(file: &[u8], out: &mut [u8], length: &mut usize) -> u8
    ensures { ListGiven (given (check_listing file.now)) out.old out.new
        length.old length.new result }
{
    give(checks::check(file, out), length)
}
