// The sets of the state that a run buffer holds: x_j stands from word 2 + 4 j on, y_j from word 1034 + 4 j on.
ghost use Rattle.std.specs.Prelude.{◌≡◌, ◌+◌, ◌*◌, ◌<◌};
ghost use Rattle.std.proofs.lemmas.List.Edits.{sets};
ghost use Rattle.sets.specs.Sets.{quad};

use sets::StateSet;

// x_j.
pub fn x(buf: &[u64], j: usize) -> StateSet
    requires { j < 258 }
    ensures { result.words ≡ quad buf.now (2 + 4 * j) }
{
    StateSet::read(buf, 2 + 4 * j)
}

// y_j.
pub fn y(buf: &[u64], j: usize) -> StateSet
    requires { j < 258 }
    ensures { result.words ≡ quad buf.now (1034 + 4 * j) }
{
    StateSet::read(buf, 1034 + 4 * j)
}

// x_j becomes the set.
pub fn write_x(buf: &mut [u64], j: usize, set: StateSet)
    requires { j < 258 }
    ensures { buf.new ≡ sets buf.old (2 + 4 * j) set.words }
{
    set.write(buf, 2 + 4 * j);
}

// y_j becomes the set.
pub fn write_y(buf: &mut [u64], j: usize, set: StateSet)
    requires { j < 258 }
    ensures { buf.new ≡ sets buf.old (1034 + 4 * j) set.words }
{
    set.write(buf, 1034 + 4 * j);
}
