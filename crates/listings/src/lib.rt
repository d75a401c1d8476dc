// The listing that `check` prints, as bytes: of a refused file, of a safe run, of a reached run.
//
// Each call puts its listing into a lent output from place 0 on and answers how many bytes it has.
// It measures first, by putting the listing into no output at all, so an output that is too short
// is refused with 12 and left as it was. Bytes past the listing stay.
//
// The table listed is a model and a move table, whatever words that has: only its moves are counted.
#![tactic(auto)]

ghost use Rattle.std.specs.Prelude.{◌≡◌, List, ℕ};
ghost use Rattle.answers.specs.Answer.{given};
ghost use Rattle.answers.specs.Said.{refusal_of};
ghost use Rattle.moves.specs.Models.{as_table, as_control};
ghost use Rattle.listings.specs.Listing.{refused_listing, safe_listing, reached_refusal, reached_wanted};
ghost use Rattle.listings.specs.Said.{Lists};
ghost use Rattle.outputs.specs.Appends.{Appends};

use answers::Refusal;
use moves::{Control, Table};
use outputs::Output;
use sets::StateSet;

mod lines;
mod put;
mod walk;

// What `append` appends to any output, put into this one from place 0 on, and how many bytes it has.
fn listed<F: Fn(&mut Output)>(out: &mut [u8], append: F) -> Result<usize, Refusal>
    requires { F.IsAlwaysCallable append }
    ensures { (bytes : List ℕ)
        → ((o : _) (r : _) (l : _) → F.post append o r l → Appends o.now bytes l.now)
        → Lists (given bytes) out.old result out.new }
{
    let mut measured = Output::new(&mut []);
    append(&mut measured);
    let length = measured.place();
    if out.len() < length {
        return Err(Refusal::ShortOutput);
    }
    append(&mut Output::new(out));
    Ok(length)
}

// The one line of a file that was refused with a number at an offset.
pub fn refused(number: u8, offset: usize, out: &mut [u8]) -> Result<usize, Refusal>
    ensures { Lists (given (refused_listing number offset)) out.old result out.new }
{
    listed(out, |o| lines::refused_line(o, number, offset))
}

// The listing of a safe run on a table: j, the rules fired, and the set that is the reason.
pub fn safe(
    table: &Table,
    j: usize,
    rules: u64,
    set: StateSet,
    out: &mut [u8],
) -> Result<usize, Refusal>
    ensures { Lists (given (safe_listing (as_table table.now) j rules set.words)) out.old result out.new }
{
    listed(out, |o| lines::safe_run(o, table, j, rules, set))
}

// Why `reached` refuses, if it does.
#[tactic(auto, using(crate::proofs::Refusals::too_many_states))]
fn test(control: &Control, walk: &[u16], states: usize) -> Result<(), Refusal>
    ensures { refusal_of result
        ≡ reached_refusal walk.now control.now.angles.now control.now.modes.now states }
{
    if walk.len() != 256 || control.angles.len() != 256 || control.modes.len() != 256 {
        return Err(Refusal::WrongLength);
    }
    if 256 < states {
        return Err(Refusal::OutOfRange);
    }
    Ok(())
}

// The listing of a reached run on a control table: the rules fired, and a walk of which the first
// `states` count. Refused with 7 where the walk, the angles or the modes are not 256, with 2 for
// more than 256 states. A number in the walk that is no place of the angles has angle and mode 0,
// and a turn from or to a number that is no angle is 0.
pub fn reached(
    control: &Control,
    rules: u64,
    walk: &[u16],
    states: usize,
    out: &mut [u8],
) -> Result<usize, Refusal>
    ensures { Lists
        (reached_wanted (as_control control.now) rules walk.now states)
        out.old result out.new }
{
    test(control, walk, states)?;
    let counted = &walk[..states];
    listed(out, |o| lines::reached_run(o, control, rules, counted))
}
