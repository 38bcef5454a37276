// Ranges of categories in order: when two touch, the two as one, and pairs that are out of order (document 01, "Labels" and "Option and tags"). A range
// as a single number is low · 65536 + high.
#![tactic(auto)]

ghost use Rattle.std.specs.Prelude.{◌≡◌, not, ◌&&◌, ◌||◌, ◌+◌, ltb, eqb};
ghost use Rattle.label_ranges.specs.Ranges.{reached, stretched};

use label::Run;

// Whether a range begins within the one before it or right behind its end.
pub fn reaches(k: u32, x: u32) -> bool
    ensures { result ≡ reached k x }
{
    x / Run::KEY_FACTOR <= k % Run::KEY_FACTOR + 1
}

// The key's range goes on to the end of the other, where that is higher.
pub fn stretch(k: u32, x: u32) -> u32
    ensures { result ≡ stretched k x }
{
    let hi = k % Run::KEY_FACTOR;
    let end = x % Run::KEY_FACTOR;
    if hi < end {
        return k - hi + end;
    }
    k
}

// Whether a number goes on from the last run; the first one does not, by the caller's counter, so that only its first turn asks.
pub fn touches(first: bool, next: u32, x: u16) -> bool
    ensures { result ≡ (not first && eqb next x) }
{
    if first {
        return false;
    }
    next == u32::from(x)
}

// Tag 5: a top below its bottom, or not below the limit, which 65535 never is; the category after the top may be the limit.
pub fn bad_pair(top: u16, bottom: u16, limit: u16) -> bool
    ensures { result ≡ (ltb top bottom || ltb limit (top + 1)) }
{
    let next = u32::from(top) + 1;
    (top < bottom) | (u32::from(limit) < next)
}
