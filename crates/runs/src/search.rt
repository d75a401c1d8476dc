// A run of at most so many rules, rule by rule over the lent buffer.
ghost use Rattle.std.specs.Prelude.{◌≡◌};
ghost use Rattle.moves.specs.Models.{as_table};
ghost use Rattle.rules.specs.Runs.{lacks_room_for};
ghost use Rattle.rules.specs.Buffer.{decode};
ghost use Rattle.rules.proofs.Invariant.{Open};
ghost use Rattle.rules.proofs.Ready.{Ready};
ghost use Rattle.runs.specs.Inner.{AtRule, Chose, Stepped, Advanced};
ghost use Rattle.runs.specs.Said.{as_rule};

use crate::firing::{self, Ruling, Span};
use crate::memo::Memo;
use crate::{Rule, Standing};
use answers::Refusal;
use moves::Table;
use sets::StateSet;

// A set, and how many hints were taken and used for it.
#[derive(Clone, Copy, Debug, PartialEq, Eq)]
pub struct Choice {
    pub set: StateSet,
    pub taken: u64,
    pub used: u64,
}

// The hints that a rule took and used, and where it can have closed the chain.
#[derive(Clone, Copy, Debug, PartialEq, Eq)]
pub struct Took {
    pub taken: u64,
    pub used: u64,
    pub span: Span,
}

// How a run stands after so many rules and hints.
#[derive(Clone, Copy, Debug, PartialEq, Eq)]
pub struct Ran {
    pub standing: Standing,
    pub rules: u64,
    pub taken: u64,
    pub used: u64,
}

// The set that the rule due is fired with, from hint number `at` on.
fn choose(table: &Table, buf: &[u64], due: Ruling, hints: &[u64], at: u64) -> Choice
    requires { AtRule (as_table table.now) buf.now due.rule due.set.words }
    ensures { Chose (as_table table.now) hints.now at buf.now result.set.words result.taken result.used }
{
    if !due.rule.asks() || (hints.len() / 4) as u64 <= at {
        return Choice {
            set: due.set,
            taken: 0,
            used: 0,
        };
    }
    let z = StateSet::read(hints, 4 * (at as usize));
    if firing::will_do(table, buf, due, z) {
        return Choice {
            set: z,
            taken: 1,
            used: 1,
        };
    }
    Choice {
        set: due.set,
        taken: 1,
        used: 0,
    }
}

// The rule due, fired with the hints from number `at` on.
fn step(table: &Table, buf: &mut [u64], due: Ruling, hints: &[u64], at: u64) -> Took
    requires { AtRule (as_table table.now) buf.old due.rule due.set.words × Open (as_table table.now) (decode buf.old) }
    ensures { Stepped (as_table table.now) hints.now at buf.old buf.new
        result.taken result.used result.span.from result.span.to }
{
    let Choice { set, taken, used } = choose(table, buf, due, hints, at);
    let span = firing::closing(table.model.size, buf, due.rule, set);
    firing::fire(table.model.size, buf, due.rule, set);
    Took { taken, used, span }
}

// Whether the rule is Unfold and n is 258.
pub fn lacks_room(rule: Rule, n: u64) -> bool
    ensures { result ≡ lacks_room_for (as_rule rule) n }
{
    !rule.asks() && n == 258
}

// At most budget rules.
pub fn advance(table: &Table, buf: &mut [u64], hints: &[u64], budget: u64) -> Result<Ran, Refusal>
    requires { Ready (as_table table.now) buf.old }
    ensures { Advanced (as_table table.now) hints.now budget buf.old buf.new result }
{
    let mut memo = Memo::new();
    let mut fired: u64 = 0;
    let mut taken: u64 = 0;
    let mut used: u64 = 0;
    let to = (buf[0] - 1) as usize;
    let mut span = Span { from: 0, to };
    loop {
        let standing = firing::conclusion(table.model.starts, buf, span);
        if fired == budget || !standing.is_open() {
            return Ok(Ran {
                standing,
                rules: fired,
                taken,
                used,
            });
        }
        let due = firing::due(table, buf, &mut memo);
        if lacks_room(due.rule, buf[0]) {
            return Err(Refusal::NoRoom);
        }
        let took = step(table, buf, due, hints, taken);
        fired += 1;
        taken += took.taken;
        used += took.used;
        span = took.span;
    }
}
