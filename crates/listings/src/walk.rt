// What a listing shows of state i of a walk, from 0: the state, its angle and mode, and the turn
// from the state before. What is not there is 0. Private to the crate.
ghost use Rattle.std.specs.Prelude.{◌≡◌, get_or};
ghost use Rattle.listings.specs.Listing.{state_at, angle_at, turn_at};

#[tactic(auto, unfolding(crate::specs::Listing::state_at))]
pub fn state_at(walk: &[u16], i: usize) -> u16
    ensures { result ≡ state_at walk.now i }
{
    walk.get(i).copied().unwrap_or(0)
}

#[tactic(auto, unfolding(crate::specs::Listing::angle_at))]
pub fn angle_at(walk: &[u16], angles: &[i16], i: usize) -> i16
    ensures { result ≡ angle_at walk.now angles.now i }
{
    let s = usize::from(state_at(walk, i));
    angles.get(s).copied().unwrap_or(0)
}

pub fn mode_at(walk: &[u16], modes: &[u8], i: usize) -> u8
    ensures { result ≡ get_or modes.now (state_at walk.now i) 0 }
{
    let s = usize::from(state_at(walk, i));
    modes.get(s).copied().unwrap_or(0)
}

// The turn into state i: 0 for the first, and where one of the two is no angle.
pub fn turn_at(walk: &[u16], angles: &[i16], i: usize) -> i16
    ensures { result ≡ turn_at walk.now angles.now i }
{
    if i == 0 {
        return 0;
    }
    let before = angle_at(walk, angles, i - 1);
    let here = angle_at(walk, angles, i);
    turns::turn(before, here).unwrap_or(0)
}
