// What `check` lists of a file: the file is read, the search run without hints, and the verdict put
// into a lent output.
#![tactic(auto)]

ghost use Rattle.std.specs.Prelude.{◌≡◌};
ghost use Rattle.answers.specs.Answer.{given};
ghost use Rattle.rules.specs.Demands.{bound};
ghost use Rattle.moves.specs.Models.{as_control};
ghost use Rattle.listings.specs.Said.{Lists};
ghost use Rattle.checks.specs.Check.{table_listing, check_listing};
ghost use Rattle.checks.specs.Inner.{Sought, answer_wanted};

use answers::Refusal;
use moves::{Control, Table};
use runs::{Outcome, RunAnswer};
use sets::StateSet;

// The budget under which every run ends: 2·N·N + 2·N.
#[tactic(auto, using(crate::proofs::Squares::square))]
fn budget(size: u16) -> u64
    ensures { result ≡ bound size }
{
    let wide = u64::from(size);
    2 * (wide * wide) + 2 * wide
}

// The listing of a run's answer.
fn list(
    control: &Control,
    answer: Result<RunAnswer, Refusal>,
    set: StateSet,
    walk: &[u16],
    out: &mut [u8],
) -> Result<usize, Refusal>
    ensures { Lists
        (answer_wanted (as_control control.now) answer set.words walk.now)
        out.old result out.new }
{
    match answer {
        Ok(run) => match run.outcome {
            Outcome::Safe(j) => listings::safe(&control.table, j, run.rules, set, out),
            Outcome::Reached(states) => listings::reached(control, run.rules, walk, states, out),
            // Neither this nor a refusal comes: the table read is sound, the run buffer fresh, and
            // the budget enough.
            Outcome::Unfinished => listings::refused(0, 0, out),
        },
        Err(refusal) => listings::refused(u8::from(refusal), 0, out),
    }
}

// The listing of a table that was read.
fn search(control: &Control, out: &mut [u8]) -> Result<usize, Refusal>
    requires { Sought (as_control control.now) }
    ensures { Lists
        (given (table_listing (as_control control.now)))
        out.old result out.new }
{
    let mut held = [0; 2066];
    let mut set = [0; 4];
    let mut walk = [0; 256];
    let size = control.table.model.size;
    // It is not refused: the buffer is as long as it has to be, and N was read.
    let _ = runs::fresh(size, &mut held);
    let most = budget(size);
    let answer = runs::run(&control.table, &mut held, &[], most, &mut set, &mut walk);
    list(control, answer, StateSet::read(&set, 0), &walk, out)
}

// The listing of a file: its length, or refused with 12 for a shorter output.
pub fn check(file: &[u8], out: &mut [u8]) -> Result<usize, Refusal>
    ensures { Lists (given (check_listing file.now)) out.old result out.new }
{
    let mut moves = [0; 1024];
    let mut angles = [0; 256];
    let mut modes = [0; 256];
    match tables::read(file, &mut moves, &mut angles, &mut modes) {
        Ok(reading) => {
            let table = Table {
                model: reading.model,
                moves: &moves,
            };
            let control = Control {
                table,
                angles: &angles,
                modes: &modes,
            };
            search(&control, out)
        }
        Err(fault) => listings::refused(u8::from(fault.refusal), fault.offset, out),
    }
}
