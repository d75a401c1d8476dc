// What writing refuses before it writes: lengths, N, soundness, angles and modes, the number of moves,
// a short output. `sized` is also what reading asks of its buffers.
ghost use Rattle.std.specs.Prelude.{◌≡◌, ◌+◌, ◌*◌, ◌<◌, ◌≤◌};
ghost use Rattle.answers.specs.Said.{refusal_of};
ghost use Rattle.moves.specs.Models.{as_control};
ghost use Rattle.sets.specs.Sets.{count};
ghost use Rattle.tables.specs.Control.{sized, clear_at, clear_past, label_at, labelled, write_refusal};
ghost use Rattle.tables.specs.Inner.{SizeIn};

use answers::Refusal;
use moves::{Control, Model};

// Whether the move table, the angles and the modes have their lengths.
#[tactic(auto, using(std::proofs::lemmas::Bool::Decides::nat_tests), unfolding(crate::specs::Control::sized))]
pub fn sized(moves: &[u64], angles: &[i16], modes: &[u8]) -> bool
    ensures { result ≡ sized moves.now angles.now modes.now }
{
    moves.len() == 1024 && angles.len() == 256 && modes.len() == 256
}

// A control table whose angles and modes have their lengths, and whose N is no more.
#[derive(Clone, Copy)]
struct Measured<'a> {
    control: Control<'a>,
    ghost size: { SizeIn (as_control control) },
}

impl Measured<'_> {
    // Whether the angle and the mode at place s are 0, where s is from N up.
    fn clear_at(&self, s: usize) -> bool
        requires { s < 256 }
        ensures { let c = as_control self.now.control in result ≡ clear_at c.table.size c.angles c.modes s }
    {
        let control = &self.control;
        s < usize::from(control.table.model.size) || control.angles[s] == 0 && control.modes[s] == 0
    }

    // Whether all angles and modes from place N up are 0.
    fn clear_past(&self) -> bool
        ensures { let c = as_control self.now.control in result ≡ clear_past c.table.size c.angles c.modes }
    {
        (0..256).all(|s| self.clear_at(s))
    }

    // Whether the angle and the mode of state s are in range.
    fn label_at(&self, s: usize) -> bool
        requires { s < 256 }
        ensures { let c = as_control self.now.control in result ≡ label_at c.angles c.modes s }
    {
        turns::is_angle(self.control.angles[s]) && self.control.modes[s] < 16
    }

    // Whether the angles and modes of all N states are in range.
    fn labelled(&self) -> bool
        ensures { let c = as_control self.now.control in result ≡ labelled c.table.size c.angles c.modes }
    {
        let size = usize::from(self.control.table.model.size);
        (0..size).all(|s| self.label_at(s))
    }
}

// The length of a table's file of k moves.
fn file_length(model: Model, k: usize) -> usize
    requires { k ≤ 65536 }
    ensures { result ≡ 8 + model.size * 3 + count 256 model.starts.words * 2 + count 256 model.safe.words * 2 + k * 4 }
{
    let starts = usize::from(model.starts.count());
    let safe = usize::from(model.safe.count());
    8 + usize::from(model.size) * 3 + starts * 2 + safe * 2 + k * 4
}

// Whether a table can be written to an output of a length, or the refusal.
pub fn test(control: &Control, room: usize) -> Result<(), Refusal>
    ensures { refusal_of result ≡ write_refusal (as_control control.now) room }
{
    let table = control.table;
    if !sized(table.moves, control.angles, control.modes) {
        return Err(Refusal::WrongLength);
    }
    if !sets::in_range(table.model.size) {
        return Err(Refusal::OutOfRange);
    }
    let measured = Measured { control: *control };
    if !table.is_sound() || !measured.clear_past() {
        return Err(Refusal::NotSound);
    }
    if !measured.labelled() {
        return Err(Refusal::BadLabel);
    }
    let k = moves::count_moves(table.moves);
    if 4096 < k {
        return Err(Refusal::OutOfRange);
    }
    if room < file_length(table.model, k) {
        return Err(Refusal::ShortOutput);
    }
    Ok(())
}
