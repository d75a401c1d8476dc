// The walk of a reached run: the smallest start outside y_1, then each time the smallest next state
// by a move that lies outside the next y.
ghost use Rattle.std.specs.Prelude.{◌≡◌, ◌≤◌, length, get_or};
ghost use Rattle.std.proofs.lemmas.List.Edits.{sets};
ghost use Rattle.moves.specs.Models.{as_table};
ghost use Rattle.rules.specs.ShownWalk.{shown_walk};
ghost use Rattle.rules.specs.Buffer.{decode};
ghost use Rattle.rules.proofs.Ready.{Ready};
ghost use Rattle.runs.specs.Inner.{Outside};

use crate::state;
use moves::Table;
use sets::StateSet;

// The smallest member of a that is none of y, or 0.
fn first_outside(a: StateSet, y: StateSet) -> u16
    ensures { Outside a.words y.words result }
{
    a.minus(y).smallest().unwrap_or(0)
}

// The walk into the first n-1 places; the rest stay.
pub fn write(table: &Table, buf: &[u64], walk: &mut [u16])
    requires { Ready (as_table table.now) buf.now × (get_or buf.now 0 0 ≤ 257) × (get_or buf.now 1 0 ≤ 1) × (length walk.old ≡ 256) }
    ensures { walk.new ≡ sets walk.old 0 (shown_walk (as_table table.now) (decode buf.now)) }
{
    let m = (buf[0] - 1) as usize;
    let mut at = first_outside(table.model.starts, state::y(buf, 1));
    for j in 0..m {
        walk[j] = at;
        if j + 1 < m {
            let row = StateSet::read(table.moves, 4 * (at as usize));
            at = first_outside(row, state::y(buf, j + 2));
        }
    }
}
