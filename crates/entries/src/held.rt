// A run buffer whose n and k are in range, so that each set that it holds has its place.
#![tactic(auto, unfolding(rules::specs::Buffer::decode))]

ghost use Rattle.std.specs.Prelude.{◌≡◌, ◌+◌, ◌*◌, ◌<◌, ◌≤◌};
ghost use Rattle.sets.specs.Sets.{quad};
ghost use Rattle.rules.specs.Buffer.{decode};
ghost use Rattle.rules.proofs.Ready.{Spans};

use sets::StateSet;

#[derive(Clone, Copy)]
pub struct Held<'a> {
    pub buf: &'a [u64],
    ghost spans: { Spans buf.now },
}

// The four words in the place of x_j, held or not.
pub fn x_place(buf: &[u64], j: usize) -> StateSet
    requires { j < 258 }
    ensures { result.words ≡ quad buf.now (2 + 4 * j) }
{
    StateSet::read(buf, 2 + 4 * j)
}

// The four words in the place of y_j, held or not.
pub fn y_place(buf: &[u64], j: usize) -> StateSet
    requires { j < 258 }
    ensures { result.words ≡ quad buf.now (1034 + 4 * j) }
{
    StateSet::read(buf, 1034 + 4 * j)
}

impl Held<'_> {
    // How many x are held.
    pub fn n(&self) -> usize
        ensures { result ≡ (decode self.now.buf.now).n }
    {
        self.buf[0] as usize
    }

    // The first y that is held.
    pub fn k(&self) -> usize
        ensures { result ≡ (decode self.now.buf.now).k }
    {
        self.buf[1] as usize
    }

    // x_j, for j below n.
    pub fn x(&self, j: usize) -> StateSet
        requires { j < (decode self.now.buf.now).n }
        ensures { result.words ≡ (decode self.now.buf.now).x j }
    {
        x_place(self.buf, j)
    }

    // y_j, for j from k up, below n.
    pub fn y(&self, j: usize) -> StateSet
        requires { ((decode self.now.buf.now).k ≤ j) × (j < (decode self.now.buf.now).n) }
        ensures { result.words ≡ (decode self.now.buf.now).y j }
    {
        y_place(self.buf, j)
    }
}
