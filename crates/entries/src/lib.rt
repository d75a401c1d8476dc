// The entry check: whether a table and a run buffer that a caller lends can be run.
//
// One call, for any words at all: `check` says what is wrong with them. What a run may rely on
// after an Ok is a law, `enters` of proofs/Entered.antt.
#![tactic(auto)]

ghost use Rattle.std.specs.Prelude.{◌≡◌, length};
ghost use Rattle.answers.specs.Said.{refusal_of};
ghost use Rattle.moves.specs.Models.{as_table};
ghost use Rattle.rules.specs.Buffer.{entry_check};
ghost use Rattle.rules.proofs.Ready.{Good};
ghost use Rattle.entries.specs.Refusal.{entry_refusal};

use crate::held::Held;
use crate::order::Shape;
use answers::Refusal;
use moves::Table;

mod held;
mod order;
mod places;

// Whether the buffer passes the entry check.
#[tactic(auto, unfolding(rules::specs::Buffer::entry_check, rules::specs::Buffer::each))]
fn passes(table: &Table, buf: &[u64]) -> bool
    requires { (length buf.now ≡ 2066) × Good (as_table table.now) }
    ensures { result ≡ entry_check (as_table table.now) buf.now }
{
    let size = table.model.size;
    if !places::ranges(size, buf) {
        return false;
    }
    let held = Held { buf };
    if !places::unused(&held) || !places::sound_x(size, &held) || !places::sound_y(size, &held) {
        return false;
    }
    let shape = Shape {
        table: *table,
        held,
    };
    order::chain(&shape) && order::obstacles(&shape)
}

// What is wrong with a table and a run buffer: their lengths, N, the table's soundness and the entry check are tested in that order.
#[tactic(auto, unfolding(crate::specs::Refusal::entry_refusal, answers::specs::Refusals::first_failing))]
pub fn check(table: &Table, buf: &[u64]) -> Result<(), Refusal>
    ensures { refusal_of result ≡ entry_refusal (as_table table.now) buf.now }
{
    if buf.len() != 2066 || table.moves.len() != 1024 {
        return Err(Refusal::WrongLength);
    }
    if !sets::in_range(table.model.size) {
        return Err(Refusal::OutOfRange);
    }
    if !table.is_sound() {
        return Err(Refusal::NotSound);
    }
    if !passes(table, buf) {
        return Err(Refusal::FailsEntry);
    }
    Ok(())
}
