// The order of the sets, condition by condition, in a buffer that has its shape.
#![tactic(auto, unfolding(rules::specs::Buffer::decode))]

ghost use Rattle.std.specs.Prelude.{◌≡◌, ◌+◌, ◌-◌, ◌<◌};
ghost use Rattle.moves.specs.Models.{as_table};
ghost use Rattle.sets.specs.Search.{all};
ghost use Rattle.rules.specs.Buffer.{decode, rises, falls, parts, topped, chain, obstacles};
ghost use Rattle.entries.specs.Widths.{Widths};

use crate::held::Held;
use moves::Table;
use sets::StateSet;

// A sound table, and a buffer in range whose sets have no members from N up: a test of 256 places is one of N.
#[derive(Clone, Copy)]
pub struct Shape<'a> {
    pub table: Table<'a>,
    pub held: Held<'a>,
    ghost widths: { Widths (as_table table) held.buf.now },
}

// Whether x_j, I and f(x_j) are within x_(j+1).
#[tactic(auto, unfolding(rules::specs::Buffer::decode, rules::specs::Buffer::rises, rules::specs::Buffer::each))]
fn rises_at(shape: &Shape, j: usize) -> bool
    requires { j + 1 < (decode shape.now.held.buf.now).n }
    ensures { result ≡ rises (as_table shape.now.table) (decode shape.now.held.buf.now) j }
{
    let table = &shape.table;
    let x = shape.held.x(j);
    let up = shape.held.x(j + 1);
    x.within(up)
        && table.model.starts.within(up)
        && moves::forward(table.moves, table.model.size, x).within(up)
}

// Whether g(y_(j+1)) is within y_j, where y_j is held.
#[tactic(auto, unfolding(rules::specs::Buffer::decode, rules::specs::Buffer::falls, rules::specs::Buffer::held))]
fn falls_at(shape: &Shape, j: usize) -> bool
    requires { j + 1 < (decode shape.now.held.buf.now).n }
    ensures { result ≡ falls (as_table shape.now.table) (decode shape.now.held.buf.now) j }
{
    let table = &shape.table;
    let held = &shape.held;
    j < held.k() || moves::backward(table.moves, table.model.size, held.y(j + 1)).within(held.y(j))
}

// Whether x_j is not within y_j, where y_j is held.
#[tactic(auto, unfolding(rules::specs::Buffer::decode, rules::specs::Buffer::parts, rules::specs::Buffer::held))]
fn parts_at(shape: &Shape, j: usize) -> bool
    requires { j < (decode shape.now.held.buf.now).n }
    ensures { result ≡ parts shape.now.table.model.size (decode shape.now.held.buf.now) j }
{
    let held = &shape.held;
    j < held.k() || !held.x(j).within(held.y(j))
}

// Whether the chain rises all the way.
fn rises(shape: &Shape) -> bool
    ensures { result ≡ all ((decode shape.now.held.buf.now).n - 1) (rises (as_table shape.now.table) (decode shape.now.held.buf.now)) }
{
    (0..shape.held.n() - 1).all(|j| rises_at(shape, j))
}

// Whether each held y falls to the one before.
fn falls(shape: &Shape) -> bool
    ensures { result ≡ all ((decode shape.now.held.buf.now).n - 1) (falls (as_table shape.now.table) (decode shape.now.held.buf.now)) }
{
    (0..shape.held.n() - 1).all(|j| falls_at(shape, j))
}

// Whether no x is within its held y.
fn parts(shape: &Shape) -> bool
    ensures { result ≡ all (decode shape.now.held.buf.now).n (parts shape.now.table.model.size (decode shape.now.held.buf.now)) }
{
    (0..shape.held.n()).all(|j| parts_at(shape, j))
}

// Whether y_(n-1), if held, contains P.
#[tactic(auto, unfolding(rules::specs::Buffer::decode, rules::specs::Buffer::held))]
fn topped(safe: StateSet, held: &Held) -> bool
    ensures { result ≡ topped 256 safe.words (decode held.now.buf.now) }
{
    let n = held.n();
    held.k() == n || safe.within(held.y(n - 1))
}

// The conditions on x: x_0 is empty, the chain rises, x_(n-2) is within P.
#[tactic(auto, unfolding(rules::specs::Buffer::decode, rules::specs::Buffer::chain, rules::specs::Buffer::each, sets::specs::Sets::empty))]
pub fn chain(shape: &Shape) -> bool
    ensures { result ≡ chain (as_table shape.now.table) (decode shape.now.held.buf.now) (decode shape.now.held.buf.now).n }
{
    let held = &shape.held;
    held.x(0).within(StateSet::EMPTY)
        && rises(shape)
        && held.x(held.n() - 2).within(shape.table.model.safe)
}

// The conditions on y: y_(n-1) contains P, each y falls to the one before, no x is within its y.
#[tactic(auto, unfolding(rules::specs::Buffer::obstacles, rules::specs::Buffer::each))]
pub fn obstacles(shape: &Shape) -> bool
    ensures { result ≡ obstacles (as_table shape.now.table) (decode shape.now.held.buf.now) }
{
    topped(shape.table.model.safe, &shape.held) && falls(shape) && parts(shape)
}
