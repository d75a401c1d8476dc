// Bytes appended to a lent output. Those past its end are counted and not written, so what is put
// into no output at all is measured. Places stop at the largest usize, more than any output holds.
#![tactic(auto)]

ghost use Rattle.std.specs.Prelude.{◌≡◌, ◌∷◌, []};
ghost use Rattle.outputs.specs.Appends.{Appends};

// An output, and the place of the next byte.
#[derive(Drop)]
pub struct Output<'a> {
    pub out: &'a mut [u8],
    pub at: usize,
}

impl<'a> Output<'a> {
    // From place 0 on.
    pub fn new(out: &'a mut [u8]) -> Output<'a>
        ensures same_reference { result.out.ghost_name ≡ out.entry.ghost_name }
        ensures output { result.out.now ≡ out.old }
        ensures place { result.at ≡ 0 }
    {
        Output { out, at: 0 }
    }

    // The place of the next byte: how many bytes were put.
    pub fn place(&self) -> usize
        ensures { result ≡ self.now.at }
    {
        self.at
    }

    // One byte.
    pub fn byte(&mut self, b: u8)
        ensures { Appends self.old (b ∷ []) self.new }
    {
        if self.at < self.out.len() {
            self.out[self.at] = b;
        }
        self.at = self.at.saturating_add(1);
    }

    // The bytes of a text.
    pub fn text(&mut self, t: &[u8])
        ensures { Appends self.old t.now self.new }
    {
        for b in t {
            self.byte(*b);
        }
    }
}
