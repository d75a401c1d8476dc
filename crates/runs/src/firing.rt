// The rules over a run buffer: the conclusion, the rule due and its house choice, what it allows, firing it.
//
// A test on four words covers all 256 places, so what needs no table is promised at 256.
ghost use Rattle.std.specs.Prelude.{◌≡◌, ◌<◌, ◌≤◌, get_or};
ghost use Rattle.moves.specs.Models.{as_table};
ghost use Rattle.sets.specs.Sets.{Proper};
ghost use Rattle.rules.specs.Rules.{conclusion_of, separates, blocks, fire, after_unfold, after_conflict};
ghost use Rattle.rules.specs.Runs.{will_do};
ghost use Rattle.rules.specs.Buffer.{encode, decode};
ghost use Rattle.rules.proofs.Ready.{Good, Spans, Holds, Ready};
ghost use Rattle.runs.specs.Said.{as_standing, as_rule};
ghost use Rattle.runs.specs.Inner.{Looks, Climbs, Untouched, Parted, Closing, AtRule, Fireable, after_above};
ghost use Rattle.runs.specs.Inner.{Remembers, Ruled};

use crate::memo::Memo;
use crate::{Rule, Standing, state};
use moves::Table;
use sets::StateSet;

// The places from `from` up to `to`.
#[derive(Clone, Copy, Debug, PartialEq, Eq)]
pub struct Span {
    pub from: usize,
    pub to: usize,
}

// How the run stands: safe at the smallest j that closes; reached, with a start outside y_1; or unfinished.
// Only a j of the span can close.
pub fn conclusion(starts: StateSet, buf: &[u64], span: Span) -> Standing
    requires { Looks buf.now span.from span.to }
    ensures { as_standing result ≡ conclusion_of 256 starts.words (decode buf.now) }
{
    let mut x = state::x(buf, span.from);
    for j in span.from..span.to {
        let up = state::x(buf, j + 1);
        if up.within(x) {
            return Standing::Safe(j);
        }
        x = up;
    }
    if buf[1] != 1 || starts.within(state::y(buf, 1)) {
        return Standing::Unfinished;
    }
    Standing::Reached
}

// How many x, from x_0 up, Conflict with z leaves as they are: those below x_k, if x_(k-1) is within z.
fn untouched(buf: &[u64], z: StateSet) -> usize
    requires { Spans buf.now × Climbs (decode buf.now) }
    ensures { Untouched (decode buf.now) z.words result }
{
    let k = buf[1] as usize;
    if state::x(buf, k - 1).within(z) {
        return k;
    }
    0
}

// Where the rule, fired with z, can make x_(j+1) lie within x_j.
pub fn closing(size: u16, buf: &[u64], rule: Rule, z: StateSet) -> Span
    requires { Fireable size buf.now rule × Parted size (decode buf.now) }
    ensures { Closing size (fire size (as_rule rule) (decode buf.now) z.words) result.from result.to }
{
    let n = buf[0] as usize;
    let k = buf[1] as usize;
    match rule {
        Rule::Unfold => Span { from: n - 1, to: n },
        Rule::Candidate | Rule::Decide => Span { from: 0, to: 0 },
        Rule::Conflict => {
            let m = untouched(buf, z);
            Span {
                from: m.saturating_sub(1),
                to: k,
            }
        }
    }
}

// A rule, and its house choice.
#[derive(Clone, Copy, Debug, PartialEq, Eq)]
pub struct Ruling {
    pub rule: Rule,
    pub set: StateSet,
}

// The rule due and its house choice: f(x_(k-1)) is within y_k exactly when x_(k-1) is within g(y_k), which is Decide's.
pub fn due(table: &Table, buf: &[u64], memo: &mut Memo) -> Ruling
    requires { Ready (as_table table.now) buf.now × Remembers (as_table table.now) memo.old }
    ensures { Ruled (as_table table.now) buf.now result.rule result.set.words memo.new }
{
    let n = buf[0] as usize;
    let k = buf[1] as usize;
    let x = state::x(buf, k - 1);
    if k == n {
        let safe = table.model.safe;
        if x.within(safe) {
            return Ruling {
                rule: Rule::Unfold,
                set: StateSet::EMPTY,
            };
        }
        return Ruling {
            rule: Rule::Candidate,
            set: safe,
        };
    }
    let y = state::y(buf, k);
    let gy = memo.recall(table, n - 1 - k, y);
    if x.within(gy) {
        return Ruling {
            rule: Rule::Conflict,
            set: y,
        };
    }
    Ruling {
        rule: Rule::Decide,
        set: gy,
    }
}

// What Candidate and Decide ask of z: it contains the house choice, and not x.
fn separates(low: StateSet, x: StateSet, z: StateSet) -> bool
    ensures { result ≡ separates 256 low.words x.words z.words }
{
    low.within(z) && !x.within(z)
}

// What Conflict asks of z: it is within the house choice y, and contains I and f(x ∩ z).
fn blocks(table: &Table, y: StateSet, x: StateSet, z: StateSet) -> bool
    requires { Good (as_table table.now) × Proper table.now.model.size x.words × Proper table.now.model.size z.words }
    ensures { result ≡ blocks (as_table table.now) y.words x.words z.words }
{
    if !z.within(y) || !table.model.starts.within(z) {
        return false;
    }
    moves::forward(table.moves, table.model.size, x.meet(z)).within(z)
}

// Whether z has no members from N up and the rule due allows it. At Candidate k is n.
pub fn will_do(table: &Table, buf: &[u64], due: Ruling, z: StateSet) -> bool
    requires { AtRule (as_table table.now) buf.now due.rule due.set.words }
    ensures { result ≡ will_do (as_table table.now) (decode buf.now) z.words }
{
    if !z.sound(table.model.size) {
        return false;
    }
    let k = buf[1] as usize;
    let x = state::x(buf, k - 1);
    match due.rule {
        Rule::Unfold => true,
        Rule::Candidate | Rule::Decide => separates(due.set, x, z),
        Rule::Conflict => blocks(table, due.set, x, z),
    }
}

// x_n becomes the full set, n and k become n + 1.
fn fire_unfold(size: u16, buf: &mut [u64])
    requires { Holds buf.old × (get_or buf.old 0 0 < 258) }
    ensures { buf.new ≡ encode (after_unfold size (decode buf.old)) }
{
    let n = buf[0];
    state::write_x(buf, n as usize, StateSet::below(size));
    buf[0] = n + 1;
    buf[1] = n + 1;
}

// y_(i-1) becomes z, and k becomes i - 1: Candidate with n for i, Decide with k.
fn fire_above(buf: &mut [u64], i: u64, z: StateSet)
    requires { Holds buf.old × (0 < i) × (i ≤ 258) }
    ensures { buf.new ≡ encode (after_above (decode buf.old) i z.words) }
{
    state::write_y(buf, (i - 1) as usize, z);
    buf[1] = i - 1;
}

// Every x_j with j up to k is met with z, but for those that are within z already; y_k is dropped.
fn fire_conflict(buf: &mut [u64], z: StateSet)
    requires { Holds buf.old × (get_or buf.old 1 0 < get_or buf.old 0 0) × Climbs (decode buf.old) }
    ensures { buf.new ≡ encode (after_conflict 256 (decode buf.old) z.words) }
{
    let k = buf[1];
    let m = (k as usize) + 1;
    let low = untouched(buf, z);
    for j in low..m {
        let x = state::x(buf, j);
        state::write_x(buf, j, x.meet(z));
    }
    state::write_y(buf, k as usize, StateSet::EMPTY);
    buf[1] = k + 1;
}

// The rule, fired with z.
pub fn fire(size: u16, buf: &mut [u64], rule: Rule, z: StateSet)
    requires { Fireable size buf.old rule }
    ensures { buf.new ≡ encode (fire size (as_rule rule) (decode buf.old) z.words) }
{
    let n = buf[0];
    let k = buf[1];
    match rule {
        Rule::Unfold => fire_unfold(size, buf),
        Rule::Candidate => fire_above(buf, n, z),
        Rule::Decide => fire_above(buf, k, z),
        Rule::Conflict => fire_conflict(buf, z),
    }
}
