// Why a call is refused. Each refusal has a number, which files, listings and C are told.
//
// Code refuses by name; promises have the same names in specs/Refusals.antt, and `u8::from` gives the number of that name.
#![tactic(auto)]

ghost use Rattle.std.specs.Prelude.{◌≡◌};
ghost use Rattle.answers.specs.Said.{number_of};

#[derive(Clone, Copy, Debug, PartialEq, Eq)]
pub enum Refusal {
    // The file ends inside a count or entry.
    CutShort = 1,
    // A count, or N given to a call, is out of range; or more than 4,096 moves are to be written.
    OutOfRange = 2,
    // An angle or mode is out of range.
    BadLabel = 3,
    // A state number is N or more.
    NoSuchState = 4,
    // Numbers or pairs do not rise strictly.
    NotRising = 5,
    // There are bytes after the last section.
    ExtraBytes = 6,
    // A lent buffer has the wrong length.
    WrongLength = 7,
    // The run buffer fails the entry check.
    FailsEntry = 8,
    // The rule does not allow the proposal.
    NotAllowed = 9,
    // The run has concluded already.
    AlreadyConcluded = 10,
    // Unfold is due and n is 258.
    NoRoom = 11,
    // The output is shorter than the file to be written.
    ShortOutput = 12,
    // The table, a set given to f or g, or the places from N up are not sound.
    NotSound = 13,
    // The move table and the second table disagree.
    TablesDisagree = 14,
    // The move to add is there, or the one to remove is not.
    NothingToEdit = 15,
}

impl From<Refusal> for u8 {
    ghost from_gives = { λ refusal n. n ≡ number_of refusal };

    fn from(refusal: Refusal) -> u8 {
        refusal as u8
    }
}
