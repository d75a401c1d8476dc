// The run buffer, 2,066 words lent by the caller: a fresh run, a single rule, and a run of rules.
//
// Each call tests all that it is lent before it writes anything, and a refused call leaves every
// buffer as it was. Parameters come in one order: the table, the run buffer, hints, budget, the set,
// the walk.
#![tactic(auto)]

ghost use Rattle.std.specs.Prelude.{◌≡◌, OnOk, length};
ghost use Rattle.answers.specs.Said.{refusal_of};
ghost use Rattle.moves.specs.Models.{as_table};
ghost use Rattle.entries.specs.Refusal.{entry_refusal};
ghost use Rattle.rules.specs.Runs.{asks};
ghost use Rattle.rules.specs.Single.{takes};
ghost use Rattle.rules.specs.Buffer.{decode};
ghost use Rattle.rules.proofs.Ready.{Ready};
ghost use Rattle.runs.specs.Said.{as_rule, is_open};
ghost use Rattle.runs.specs.Inner.{AtRule, Ending, Finished, Gone};
ghost use Rattle.runs.specs.Promises.{lengths_ok, FreshPromise, SingleAnswered, SinglePromise, RunPromise};

use answers::Refusal;
use firing::{Ruling, Span};
use memo::Memo;
use moves::Table;
use sets::StateSet;

mod firing;
mod memo;
mod search;
mod state;
mod walk;

// The rules, by their published names.
#[derive(Clone, Copy, Debug, PartialEq, Eq)]
pub enum Rule {
    Unfold,
    Candidate,
    Decide,
    Conflict,
}

impl Rule {
    // Whether the rule takes a hint.
    fn asks(self) -> bool
        ensures { result ≡ asks (as_rule self) }
    {
        self != Rule::Unfold
    }
}

// How a run stands: safe with j, reached, or unfinished.
#[derive(Clone, Copy, Debug, PartialEq, Eq)]
enum Standing {
    Safe(usize),
    Reached,
    Unfinished,
}

impl Standing {
    // Whether the run has not concluded.
    #[tactic(auto, unfolding(crate::specs::Said::is_open))]
    fn is_open(self) -> bool
        ensures { result ≡ is_open self }
    {
        matches!(self, Standing::Unfinished)
    }
}

// How a run ended: safe with j, reached with the number of states, or unfinished.
#[derive(Clone, Copy, Debug, PartialEq, Eq)]
pub enum Outcome {
    Safe(usize),
    Reached(usize),
    Unfinished,
}

// What a run answers: how it ended, the rules fired, the hints taken and used.
#[derive(Clone, Copy, Debug, PartialEq, Eq)]
pub struct RunAnswer {
    pub outcome: Outcome,
    pub rules: u64,
    pub taken: u64,
    pub used: u64,
}

// A fresh run buffer.
pub fn fresh(size: u16, buf: &mut [u64]) -> Result<(), Refusal>
    ensures { FreshPromise size buf.old buf.new (refusal_of result) }
{
    if buf.len() != 2066 {
        return Err(Refusal::WrongLength);
    }
    let all = StateSet::full(size)?;
    buf.fill(0);
    state::write_x(buf, 1, all);
    buf[0] = 2;
    buf[1] = 2;
    Ok(())
}

// The entry check, past which a rule can be fired. What is read of the table is known to be a word.
fn enter(table: &Table, buf: &[u64]) -> Result<(), Refusal>
    ensures answer { refusal_of result ≡ entry_refusal (as_table table.now) buf.now }
    ensures ready { OnOk result (Ready (as_table table.now) buf.now) }
{
    let _read = table.model.size;
    entries::check(table, buf)
}

// Whether the proposal will do; Unfold ignores it.
fn takes(table: &Table, buf: &[u64], due: Ruling, z: StateSet) -> bool
    requires { AtRule (as_table table.now) buf.now due.rule due.set.words }
    ensures { result ≡ takes (as_table table.now) (decode buf.now) z.words }
{
    !due.rule.asks() || firing::will_do(table, buf, due, z)
}

// One rule, with a proposed set, of a buffer that passes the entry check.
fn ask(table: &Table, buf: &mut [u64], z: StateSet) -> Result<Rule, Refusal>
    requires { Ready (as_table table.now) buf.old }
    ensures { SingleAnswered (as_table table.now) z.words 0 buf.old buf.new result }
{
    let to = (buf[0] - 1) as usize;
    let standing = firing::conclusion(table.model.starts, buf, Span { from: 0, to });
    if !standing.is_open() {
        return Err(Refusal::AlreadyConcluded);
    }
    let mut memo = Memo::new();
    let due = firing::due(table, buf, &mut memo);
    if search::lacks_room(due.rule, buf[0]) {
        return Err(Refusal::NoRoom);
    }
    if !takes(table, buf, due, z) {
        return Err(Refusal::NotAllowed);
    }
    firing::fire(table.model.size, buf, due.rule, z);
    Ok(due.rule)
}

// One rule, with a proposed set.
pub fn single(table: &Table, buf: &mut [u64], z: StateSet) -> Result<Rule, Refusal>
    ensures { SinglePromise (as_table table.now) z.words buf.old buf.new result }
{
    enter(table, buf)?;
    ask(table, buf, z)
}

// The reason of a run into its buffer, and the answer.
fn finish(
    table: &Table,
    buf: &[u64],
    ran: search::Ran,
    set: &mut [u64],
    walk: &mut [u16],
) -> RunAnswer
    requires { Ending (as_table table.now) buf.now ran.standing set.old walk.old }
    ensures { Finished (as_table table.now) buf.now ran result
        set.old set.new walk.old walk.new }
{
    let outcome = match ran.standing {
        Standing::Safe(j) => {
            state::x(buf, j).write(set, 0);
            Outcome::Safe(j)
        }
        Standing::Reached => {
            walk::write(table, buf, walk);
            Outcome::Reached((buf[0] - 1) as usize)
        }
        Standing::Unfinished => Outcome::Unfinished,
    };
    RunAnswer {
        outcome,
        rules: ran.rules,
        taken: ran.taken,
        used: ran.used,
    }
}

// Whether the buffers that only a run is lent have their lengths.
#[tactic(auto, unfolding(crate::specs::Promises::lengths_ok))]
fn lengths(hints: &[u64], set: &[u64], walk: &[u16]) -> bool
    ensures { result ≡ lengths_ok hints.now set.now walk.now }
{
    hints.len() % 4 == 0 && set.len() == 4 && walk.len() == 256
}

// A run of at most budget rules, of a buffer that passes the entry check.
fn go(
    table: &Table,
    buf: &mut [u64],
    hints: &[u64],
    budget: u64,
    set: &mut [u64],
    walk: &mut [u16],
) -> Result<RunAnswer, Refusal>
    requires { Ready (as_table table.now) buf.old × (length set.old ≡ 4) × (length walk.old ≡ 256) }
    ensures { Gone (as_table table.now) hints.now budget
        buf.old buf.new set.old set.new walk.old walk.new result }
{
    let ran = search::advance(table, buf, hints, budget)?;
    Ok(finish(table, buf, ran, set, walk))
}

// A run of at most budget rules.
pub fn run(
    table: &Table,
    buf: &mut [u64],
    hints: &[u64],
    budget: u64,
    set: &mut [u64],
    walk: &mut [u16],
) -> Result<RunAnswer, Refusal>
    ensures { RunPromise (as_table table.now) hints.now budget
        buf.old buf.new set.old set.new walk.old walk.new result }
{
    if !lengths(hints, set, walk) {
        return Err(Refusal::WrongLength);
    }
    enter(table, buf)?;
    go(table, buf, hints, budget, set, walk)
}
