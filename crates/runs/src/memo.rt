// What g was asked for, and what it answered: 258 places, for as many y as a run can hold.
ghost use Rattle.std.specs.Prelude.{◌<◌};
ghost use Rattle.moves.specs.Models.{as_table};
ghost use Rattle.rules.proofs.Ready.{Good};
ghost use Rattle.runs.specs.Inner.{Blank, Remembers, Recalled};

use moves::Table;
use sets::StateSet;

// A set and g of it; where the set is empty, nothing is kept.
#[derive(Clone, Copy)]
struct Kept {
    set: StateSet,
    image: StateSet,
}

#[derive(Clone, Copy)]
pub struct Memo {
    places: [Kept; 258],
}

impl Memo {
    // Nothing is kept.
    pub fn new() -> Memo
        ensures { Blank result }
    {
        let none = Kept {
            set: StateSet::EMPTY,
            image: StateSet::EMPTY,
        };
        Memo {
            places: [none; 258],
        }
    }

    // g(y): from place d, if it is kept there; else worked out, and kept there.
    pub fn recall(&mut self, table: &Table, d: usize, y: StateSet) -> StateSet
        requires { Good (as_table table.now) × Remembers (as_table table.now) self.old × (d < 258) }
        ensures { Recalled (as_table table.now) y.words result.words self.new }
    {
        let kept = self.places[d];
        if kept.set == y && y != StateSet::EMPTY {
            return kept.image;
        }
        let image = moves::backward(table.moves, table.model.size, y);
        self.places[d] = Kept { set: y, image };
        image
    }
}
