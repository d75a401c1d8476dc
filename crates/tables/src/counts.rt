// The counts of a whole file, taken before anything is filled, or the first refusal.
ghost use Rattle.std.specs.Prelude.{◌≡◌};
ghost use Rattle.tables.specs.Inner.{said_counts, counts_read};

use crate::{Fault, section_of};
use answers::Refusal;

// How many states, starts, safe states and moves a file has.
#[derive(Clone, Copy)]
pub struct Counts {
    pub size: usize,
    pub starts: usize,
    pub safe: usize,
    pub moves: usize,
}

// The four counts of a file that can be taken, or the first refusal.
pub fn count(file: &[u8]) -> Result<Counts, Fault>
    ensures { said_counts result ≡ counts_read file.now }
{
    let states = section_of(file, 0, 1, 0)?;
    let (size, at) = (states.number, states.next);
    let starts = section_of(file, at, 2, size)?;
    let safe = section_of(file, starts.next, 3, size)?;
    let moves = section_of(file, safe.next, 4, size)?;
    if moves.next < file.len() {
        return Err(Fault::new(Refusal::ExtraBytes, moves.next));
    }
    Ok(Counts {
        size,
        starts: starts.number,
        safe: safe.number,
        moves: moves.number,
    })
}
