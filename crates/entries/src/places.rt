// n and k in range, every word not in use 0, and no set with members from N up.
#![tactic(auto, unfolding(rules::specs::Buffer::decode))]

ghost use Rattle.std.specs.Prelude.{◌≡◌, ◌<◌, length};
ghost use Rattle.sets.specs.Search.{all};
ghost use Rattle.rules.specs.Buffer.{decode, ranges, clear_x, clear_y, unused, sound_x, sound_y};

use crate::held::{Held, x_place, y_place};

// Whether n is 2 to N+2 and k is 1 to n.
#[tactic(auto, unfolding(rules::specs::Buffer::decode, rules::specs::Buffer::ranges, rules::specs::Buffer::each))]
pub fn ranges(size: u16, buf: &[u64]) -> bool
    requires { length buf.now ≡ 2066 }
    ensures { result ≡ ranges size (decode buf.now) }
{
    let n = buf[0];
    let k = buf[1];
    2 <= n && n <= u64::from(size) + 2 && 1 <= k && k <= n
}

// Whether the words of every x that is not held are 0.
fn clear_x(held: &Held) -> bool
    ensures { result ≡ all 258 (clear_x held.now.buf.now) }
{
    (held.n()..258).all(|j| x_place(held.buf, j).sound(0))
}

// Whether y_j is held, or its words are 0.
#[tactic(auto, unfolding(rules::specs::Buffer::decode, rules::specs::Buffer::clear_y))]
fn clear_y_at(held: &Held, j: usize) -> bool
    requires { j < 258 }
    ensures { result ≡ clear_y held.now.buf.now j }
{
    (held.k() <= j && j < held.n()) || y_place(held.buf, j).sound(0)
}

// Whether the words of every y that is not held are 0.
fn clear_y(held: &Held) -> bool
    ensures { result ≡ all 258 (clear_y held.now.buf.now) }
{
    (0..258).all(|j| clear_y_at(held, j))
}

// Whether every word not in use is 0.
#[tactic(auto, unfolding(rules::specs::Buffer::unused, rules::specs::Buffer::each))]
pub fn unused(held: &Held) -> bool
    ensures { result ≡ unused held.now.buf.now }
{
    clear_x(held) && clear_y(held)
}

// Whether no x has members from N up.
pub fn sound_x(size: u16, held: &Held) -> bool
    ensures { result ≡ sound_x size (decode held.now.buf.now) (decode held.now.buf.now).n }
{
    (0..held.n()).all(|j| held.x(j).sound(size))
}

// Whether no held y has members from N up.
pub fn sound_y(size: u16, held: &Held) -> bool
    ensures { result ≡ sound_y size (decode held.now.buf.now) }
{
    (held.k()..held.n()).all(|j| held.y(j).sound(size))
}
