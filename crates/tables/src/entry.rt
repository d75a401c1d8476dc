// Taking from a file: what stands where a reader is, or why it cannot be taken. A reader may be at any place.
ghost use Rattle.std.specs.Prelude.{ℕ, ◌≡◌, ◌+◌, ◌<◌, ◌≤◌, leb, length};
ghost use Rattle.tables.specs.Format.{bits16, signed, count, state, number, move, entry, section_number};
ghost use Rattle.tables.specs.Said.{said, section_step};
ghost use Rattle.tables.specs.Inner.{section_named, said_at, said_number, entries_step};

use crate::{Fault, Reader, Taken};
use answers::Refusal;

// The sections of a file, in their order.
#[derive(Clone, Copy)]
pub enum Section {
    States,
    Starts,
    Safe,
    Moves,
}

impl From<usize> for Section {
    ghost from_gives = { λ number section. (size : ℕ) → section_named section size ≡ section_number number size };

    // By its number in a file: 1 to 4; any other number is as 2.
    fn from(number: usize) -> Section {
        match number {
            1 => Section::States,
            3 => Section::Safe,
            4 => Section::Moves,
            _ => Section::Starts,
        }
    }
}

impl Reader<'_> {
    // The 16 bits at the place.
    #[tactic(auto, unfolding(crate::specs::Format::bits16))]
    pub(crate) fn bits16(&self) -> u16
        requires { self.now.at + 2 ≤ length self.now.file.now }
        ensures { result ≡ bits16 self.now.file.now self.now.at }
    {
        u16::from_le_bytes([self.file[self.at], self.file[self.at + 1]])
    }

    // The 16 bits at the place, and those after them.
    pub(crate) fn ends(&self) -> (u16, u16)
        requires { self.now.at + 4 ≤ length self.now.file.now }
        ensures { (result.0 ≡ bits16 self.now.file.now self.now.at) × (result.1 ≡ bits16 self.now.file.now (self.now.at + 2)) }
    {
        let after = Reader {
            at: self.at + 2,
            ..*self
        };
        (self.bits16(), after.bits16())
    }

    // The integer that the 16 bits at the place are in two's complement.
    pub(crate) fn signed(&self) -> i16
        requires { self.now.at + 2 ≤ length self.now.file.now }
        ensures { result ≡ signed (bits16 self.now.file.now self.now.at) }
    {
        i16::from_le_bytes([self.file[self.at], self.file[self.at + 1]])
    }

    // Whether the file has as many bytes from the place on.
    fn has(&self, bytes: usize) -> bool
        ensures { result ≡ leb (self.now.at + bytes) (length self.now.file.now) }
    {
        self.at <= self.file.len() && bytes <= self.file.len() - self.at
    }

    // A number, or why there is none at the place.
    fn placed(&self, number: Result<u32, Refusal>) -> Result<u32, Fault>
        ensures { said_number result ≡ said_at self.now.at number }
    {
        let at = self.at;
        number.map_err(|refusal| Fault::new(refusal, at))
    }

    // A count from low to high.
    fn count(&self, low: usize, high: usize) -> Result<u32, Refusal>
        ensures { said_at self.now.at result ≡ entry (count low high) self.now.file.now self.now.at 0 }
    {
        if !self.has(2) {
            return Err(Refusal::CutShort);
        }
        let number = u32::from(self.bits16());
        if (number as usize) < low || high < number as usize {
            return Err(Refusal::OutOfRange);
        }
        Ok(number)
    }

    // An angle and a mode.
    fn labels(&self) -> Result<u32, Refusal>
        ensures { said_at self.now.at result ≡ entry state self.now.file.now self.now.at 0 }
    {
        if !self.has(3) {
            return Err(Refusal::CutShort);
        }
        let mode = self.file[self.at + 2];
        if !turns::is_angle(self.signed()) || 16 <= mode {
            return Err(Refusal::BadLabel);
        }
        Ok(u32::from(self.bits16()) * 256 + u32::from(mode))
    }

    // A state number below N that is at least low.
    fn number(&self, size: usize, low: usize) -> Result<u32, Refusal>
        ensures { said_at self.now.at result ≡ entry (number size) self.now.file.now self.now.at low }
    {
        if !self.has(2) {
            return Err(Refusal::CutShort);
        }
        let state = u32::from(self.bits16());
        if size <= state as usize {
            return Err(Refusal::NoSuchState);
        }
        if (state as usize) < low {
            return Err(Refusal::NotRising);
        }
        Ok(state)
    }

    // Two state numbers below N, which make one number that is at least low.
    fn pair(&self, size: usize, low: usize) -> Result<u32, Refusal>
        ensures { said_at self.now.at result ≡ entry (move size) self.now.file.now self.now.at low }
    {
        if !self.has(4) {
            return Err(Refusal::CutShort);
        }
        let (from, to) = self.ends();
        let (from, to) = (u32::from(from), u32::from(to));
        if size <= from as usize || size <= to as usize {
            return Err(Refusal::NoSuchState);
        }
        let number = from * 65536 + to;
        if (number as usize) < low {
            return Err(Refusal::NotRising);
        }
        Ok(number)
    }
}

impl Section {
    // An entry where the reader is that is at least low, where the section's entries rise.
    fn entry(self, reader: &Reader, size: usize, low: usize) -> Result<u32, Fault>
        ensures { said_number result ≡ entry (section_named self size).kind reader.now.file.now reader.now.at low }
    {
        let number = match self {
            Section::States => reader.labels(),
            Section::Starts | Section::Safe => reader.number(size, low),
            Section::Moves => reader.pair(size, low),
        };
        reader.placed(number)
    }

    // Past k entries from where the reader is.
    fn entries(self, start: &Reader, size: usize, k: usize) -> Result<Taken, Fault>
        ensures { said result ≡ entries_step (section_named self size).kind start.now.file.now start.now.at k }
    {
        let Reader { file, mut at } = *start;
        let mut low: usize = 0;
        for i in 0..k {
            low = self.entry(&Reader { file, at }, size, low)? as usize + 1;
            at += self.width();
        }
        Ok(Taken {
            number: k,
            next: at,
        })
    }

    // The width of an entry in bytes.
    fn width(self) -> usize
        ensures { (size : ℕ) → result ≡ (section_named self size).kind.width }
    {
        match self {
            Section::States => 3,
            Section::Starts | Section::Safe => 2,
            Section::Moves => 4,
        }
    }

    // The least number of entries.
    fn least(self) -> usize
        ensures { (size : ℕ) → result ≡ (section_named self size).least }
    {
        match self {
            Section::States => 1,
            Section::Starts | Section::Safe | Section::Moves => 0,
        }
    }

    // The greatest number of entries, in a file of N states.
    fn most(self, size: usize) -> usize
        ensures { result ≡ (section_named self size).most }
    {
        match self {
            Section::States => 256,
            Section::Starts | Section::Safe => size,
            Section::Moves => 4096,
        }
    }

    // The section where the reader is: how many entries, and the place past it.
    pub fn taken(self, reader: &Reader, size: usize) -> Result<Taken, Fault>
        ensures { said result ≡ section_step (section_named self size) reader.now.file.now reader.now.at }
    {
        let k = reader.placed(reader.count(self.least(), self.most(size)))?;
        let first = Reader {
            at: reader.at + 2,
            ..*reader
        };
        self.entries(&first, size, k as usize)
    }
}
