// Filling from a file that was taken: sets of states, the move table, angles and modes.
ghost use Rattle.std.specs.Prelude.{◌≡◌, ◌+◌, ◌*◌, ◌≤◌, length};
ghost use Rattle.tables.specs.Format.{state, number, move};
ghost use Rattle.tables.specs.Control.{set_of_entries, rows_of_entries, angles_of_entries, modes_of_entries};
ghost use Rattle.tables.specs.Inner.{ToFill, values};

use crate::Reader;
use moves::set_move;
use sets::StateSet;

// The set of the k numbers from a place on.
pub fn set_of(file: &[u8], start: usize, k: usize) -> StateSet
    requires { start + k * 2 ≤ length file.now }
    ensures { result.words ≡ set_of_entries (values (number 0) file.now start k) }
{
    let mut x = StateSet::EMPTY;
    for i in 0..k {
        let at = start + i * 2;
        x = x.with(Reader { file, at }.bits16());
    }
    x
}

// The move table of the k moves from a place on.
pub fn fill_moves(file: &[u8], start: usize, k: usize, moves: &mut [u64])
    requires { ToFill file.now start k 4 moves.old 1024 }
    ensures { moves.new ≡ rows_of_entries (values (move 0) file.now start k) }
{
    moves.fill(0);
    for i in 0..k {
        let at = start + i * 4;
        let (from, to) = Reader { file, at }.ends();
        set_move(moves, from, to, true);
    }
}

// The angles of the N states of a file, 0 from N on.
pub fn fill_angles(file: &[u8], size: usize, angles: &mut [i16])
    requires { ToFill file.now 2 size 3 angles.old 256 }
    ensures { angles.new ≡ angles_of_entries (values state file.now 2 size) }
{
    for (i, angle) in angles.iter_mut().enumerate() {
        let at = 2 + i * 3;
        *angle = if i < size {
            Reader { file, at }.signed()
        } else {
            0
        };
    }
}

// The modes of the N states of a file, 0 from N on.
pub fn fill_modes(file: &[u8], size: usize, modes: &mut [u8])
    requires { ToFill file.now 2 size 3 modes.old 256 }
    ensures { modes.new ≡ modes_of_entries (values state file.now 2 size) }
{
    for (i, mode) in modes.iter_mut().enumerate() {
        *mode = if i < size { file[2 + i * 3 + 2] } else { 0 };
    }
}
