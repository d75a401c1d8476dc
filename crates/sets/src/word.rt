// Single words: what the sets are made of. Private to the crate.
ghost use Rattle.std.specs.Prelude.{◌≡◌, ◌+◌, ◌-◌, ◌^◌, min, get_or};
ghost use Rattle.std.specs.Int.Count.{count_trailing_zeros};

// The word of a full set of N states that starts at state `from`.
pub fn ones(size: u16, from: u16) -> u64
    ensures { result ≡ 2 ^ min (size - from) 64 - 1 }
{
    if size <= from {
        return 0;
    }
    let d = size - from;
    if d < 64 {
        (1 << d) - 1
    } else {
        0xffff_ffff_ffff_ffff
    }
}

// The lowest bit that is set, 64 where none is.
pub fn first(w: u64) -> u16
    ensures { result ≡ count_trailing_zeros 64 w }
{
    u64::trailing_zeros(w) as u16
}

// The word k places after `at`, 0 past the end.
pub fn at(b: &[u64], at: usize, k: usize) -> u64
    ensures { result ≡ get_or b.now (at + k) 0 }
{
    if at < b.len() {
        if k < b.len() - at {
            return b[at + k];
        }
    }
    0
}
