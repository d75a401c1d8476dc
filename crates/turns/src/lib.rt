// The turn from one angle to another, in whole degrees from -180 to 180, so that there and back cancel.
// A caller gets the turn, or a refusal where one of the two is no angle. Angles are i16, which holds any
// difference of two, a full turn more and a full turn less.
#![tactic(auto)]

ghost use Rattle.std.specs.Prelude.{◌≡◌, true};
ghost use Rattle.turns.specs.Turn.{is_angle, is_short, half_turn, between, turn_of};
ghost use Rattle.answers.specs.Said.{said};

use answers::Refusal;

// Whether a lies in -180 to 179.
pub fn is_angle(a: i16) -> bool
    ensures { result ≡ is_angle a }
{
    -180 <= a && a <= 179
}

// Whether d is less than a half turn, either way.
#[tactic(auto, using(crate::proofs::Signs::short_above, crate::proofs::Signs::short_below))]
fn is_short(d: i16) -> bool
    ensures { result ≡ is_short 360 d }
{
    -180 < d && d < 180
}

// The half turn: 180 from an angle of 0 or more, -180 from a negative one.
#[tactic(auto, using(crate::proofs::Signs::half_up, crate::proofs::Signs::half_down))]
fn half_turn(a: i16) -> i16
    ensures { result ≡ half_turn 360 a }
{
    if 0 <= a { 180 } else { -180 }
}

// The turn between two angles: the one of b - a, b - a + 360 and b - a - 360 that is less than a half turn, or
// else the half turn.
fn between(a: i16, b: i16) -> i16
    requires from { is_angle a ≡ true }
    requires to { is_angle b ≡ true }
    ensures { result ≡ between 360 a b }
{
    let d = b - a;
    if is_short(d) {
        return d;
    }
    let more = d + 360;
    if is_short(more) {
        return more;
    }
    let less = d - 360;
    if is_short(less) {
        return less;
    }
    half_turn(a)
}

// The turn from angle a to angle b; refused where one of them is none.
pub fn turn(a: i16, b: i16) -> Result<i16, Refusal>
    ensures { said result ≡ turn_of a b }
{
    if !is_angle(a) || !is_angle(b) {
        return Err(Refusal::BadLabel);
    }
    Ok(between(a, b))
}
