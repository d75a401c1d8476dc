// A set of states, by value: four 64-bit words; state s is bit s mod 64 of word s div 64.
//
// Every call answers for any four words and any numbers. Promises are in the vocabulary of
// specs/Sets.antt; `256` there is the number of states that four words can hold.
#![tactic(auto)]

ghost use Rattle.std.specs.Prelude.{◌≡◌};
ghost use Rattle.std.proofs.lemmas.List.Edits.{sets};
ghost use Rattle.sets.specs.Sets.{member, within, sound, meet, join, minus, with, without, count, full, smallest, in_range, size_refusal, quad};
ghost use Rattle.sets.specs.Said.{Answers};

use answers::Refusal;

mod word;

#[derive(Clone, Copy, Debug, PartialEq, Eq)]
pub struct StateSet {
    pub words: [u64; 4],
}

// Whether N is 1 to 256.
pub fn in_range(size: u16) -> bool
    ensures { result ≡ in_range size }
{
    1 <= size && size <= 256
}

impl StateSet {
    pub const EMPTY: StateSet = StateSet {
        words: [0, 0, 0, 0],
    };

    // The full set of N states; refused for an N outside 1 to 256.
    pub fn full(size: u16) -> Result<StateSet, Refusal>
        ensures { Answers (size_refusal size) (full size) result }
    {
        if !in_range(size) {
            return Err(Refusal::OutOfRange);
        }
        Ok(StateSet::below(size))
    }

    // The set of the states below N: empty for 0, all 256 from 256 up.
    pub fn below(size: u16) -> StateSet
        ensures { result.words ≡ full size }
    {
        StateSet {
            words: [
                word::ones(size, 0),
                word::ones(size, 64),
                word::ones(size, 128),
                word::ones(size, 192),
            ],
        }
    }

    // The number of members.
    pub fn count(self) -> u16
        ensures { result ≡ count 256 self.words }
    {
        let n = u64::count_ones(self.words[0])
            + u64::count_ones(self.words[1])
            + u64::count_ones(self.words[2])
            + u64::count_ones(self.words[3]);
        n as u16
    }

    // The smallest member; the empty set has none.
    pub fn smallest(self) -> Option<u16>
        ensures { result ≡ smallest self.words }
    {
        let a = word::first(self.words[0]);
        if a < 64 {
            return Some(a);
        }
        let b = word::first(self.words[1]);
        if b < 64 {
            return Some(64 + b);
        }
        let c = word::first(self.words[2]);
        if c < 64 {
            return Some(128 + c);
        }
        let d = word::first(self.words[3]);
        if d < 64 {
            return Some(192 + d);
        }
        None
    }

    // Whether s is a member; no number from 256 up is one.
    pub fn member(self, s: u16) -> bool
        ensures { result ≡ member self.words s }
    {
        if s < 256 {
            let j = (s / 64) as usize;
            let k = s % 64;
            (self.words[j] >> k) & 1 == 1
        } else {
            false
        }
    }

    // Whether every member is a member of o.
    pub fn within(self, o: StateSet) -> bool
        ensures { result ≡ within 256 self.words o.words }
    {
        let out = self.minus(o);
        out.words[0] | out.words[1] | out.words[2] | out.words[3] == 0
    }

    // Whether no member is from N up.
    #[tactic(auto, using(crate::proofs::Within::sound_wide))]
    pub fn sound(self, size: u16) -> bool
        ensures { result ≡ sound size self.words }
    {
        if 256 <= size {
            return true;
        }
        self.within(StateSet::below(size))
    }

    // The members of both.
    pub fn meet(self, o: StateSet) -> StateSet
        ensures { result.words ≡ meet 256 self.words o.words }
    {
        StateSet {
            words: [
                self.words[0] & o.words[0],
                self.words[1] & o.words[1],
                self.words[2] & o.words[2],
                self.words[3] & o.words[3],
            ],
        }
    }

    // The members of either.
    pub fn join(self, o: StateSet) -> StateSet
        ensures { result.words ≡ join 256 self.words o.words }
    {
        StateSet {
            words: [
                self.words[0] | o.words[0],
                self.words[1] | o.words[1],
                self.words[2] | o.words[2],
                self.words[3] | o.words[3],
            ],
        }
    }

    // The members that are not members of o.
    pub fn minus(self, o: StateSet) -> StateSet
        ensures { result.words ≡ minus 256 self.words o.words }
    {
        StateSet {
            words: [
                self.words[0] & !o.words[0],
                self.words[1] & !o.words[1],
                self.words[2] & !o.words[2],
                self.words[3] & !o.words[3],
            ],
        }
    }

    // The members and s; a number from 256 up adds nothing.
    pub fn with(mut self, s: u16) -> StateSet
        ensures { result.words ≡ with 256 self.words s }
    {
        if s < 256 {
            let j = (s / 64) as usize;
            self.words[j] |= 1 << (s % 64);
        }
        self
    }

    // The members but for s; a number from 256 up is none of them.
    pub fn without(mut self, s: u16) -> StateSet
        ensures { result.words ≡ without 256 self.words s }
    {
        if s < 256 {
            let j = (s / 64) as usize;
            self.words[j] &= !(1 << (s % 64));
        }
        self
    }

    // The set that stands in a list of words at a place; a word past the end counts as 0.
    pub fn read(b: &[u64], at: usize) -> StateSet
        ensures { result.words ≡ quad b.now at }
    {
        if 4 <= b.len() && at <= b.len() - 4 {
            return StateSet {
                words: [b[at], b[at + 1], b[at + 2], b[at + 3]],
            };
        }
        StateSet {
            words: [
                word::at(b, at, 0),
                word::at(b, at, 1),
                word::at(b, at, 2),
                word::at(b, at, 3),
            ],
        }
    }

    // The set put into a list of words at a place, as far as the list goes.
    pub fn write(self, b: &mut [u64], at: usize)
        ensures { b.new ≡ sets b.old at self.words }
    {
        if 4 <= b.len() && at <= b.len() - 4 {
            b[at] = self.words[0];
            b[at + 1] = self.words[1];
            b[at + 2] = self.words[2];
            b[at + 3] = self.words[3];
            return;
        }
        for k in 0..4 {
            if b.len() <= at || b.len() - at <= k {
                return;
            }
            b[at + k] = self.words[k];
        }
    }
}
