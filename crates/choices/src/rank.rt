//! A choice by its number.

ghost use Rattle.std.specs.Prelude.{◌≡◌, ◌+◌, ◌-◌, ◌<◌, ◌≤◌, slice_get, Some, length};
ghost use Rattle.base.specs.Sizes.{most_units};
ghost use Rattle.choices.specs.Picks.{ranked_picks, most_fates, picks_within};
ghost use Rattle.choices.specs.Ways.{ways, ways_below, ways_within};
ghost use Rattle.choices.specs.Seeks.{Begins, Reaches};

use crate::pick::Pick;
use crate::ways::ways;
use arrayvec::ArrayVec;

/// The least number of parts among which there are `left` choices, by a search by halves.
fn reaching(fates: u8, size: u8, parts: u32, left: u128) -> u32
    requires fates { fates ≤ most_fates }
    requires some { 1 ≤ size }
    requires size { size ≤ 3 }
    requires parts { parts ≤ most_units }
    requires low { 1 ≤ left }
    requires high { left ≤ ways fates size parts }
    ensures bound { result ≤ parts }
    ensures reach { Reaches fates size left result }
{
    let mut low = 0;
    let mut high = parts;
    while low + 1 < high {
        let middle = low + (high - low) / 2;
        if ways(fates, size, middle) < left {
            low = middle;
        } else {
            high = middle;
        }
    }
    high
}

/// The first departure of a choice, and the number of what follows it among all that may. The parts
/// are those from `begin` to below `end`.
fn first_pick(fates: u8, size: u8, begin: u32, end: u32, number: u128) -> (Pick, u128)
    requires fates { fates ≤ most_fates }
    requires some { 1 ≤ size }
    requires size { size ≤ 3 }
    requires parts { end ≤ most_units }
    requires within { begin ≤ end }
    requires number { number < ways fates size (end - begin) }
    ensures { Begins fates size begin end number result.0 result.1 }
{
    let parts = end - begin;
    let left = ways(fates, size, parts) - number;
    let reach = reaching(fates, size, parts, left);
    let inside = ways(fates, size, reach) - left;
    let rests = ways(fates, size - 1, reach - 1);
    let pick = Pick {
        part: end - reach,
        fate: (inside / rests) as u8,
    };
    (pick, inside % rests)
}

/// A choice of `size` departures among that many parts, by its number.
pub(crate) fn nth_of_size(fates: u8, size: u8, parts: u32, number: u128) -> ArrayVec<Pick, 3>
    requires fates { fates ≤ most_fates }
    requires size { size ≤ 3 }
    requires parts { parts ≤ most_units }
    requires number { number < ways fates size parts }
    ensures { slice_get (ranked_picks fates size 0 parts) number ≡ Some result.items }
{
    let mut picks = ArrayVec::new();
    let mut begin = 0;
    let mut rest = number;
    for taken in 0..size {
        let (pick, beyond) = first_pick(fates, size - taken, begin, parts, rest);
        picks.push(pick);
        begin = pick.part + 1;
        rest = beyond;
    }
    picks
}

/// The number of departures of a choice, and its number among those with as many.
fn size_of(fates: u8, bound: u8, parts: u32, number: u128) -> (u8, u128)
    requires fates { fates ≤ most_fates }
    requires bound { bound ≤ 3 }
    requires parts { parts ≤ most_units }
    requires number { number < ways_within fates bound parts }
    ensures bound { result.0 ≤ bound }
    ensures rest { result.1 < ways fates result.0 parts }
    ensures sum { number ≡ ways_below fates result.0 parts + result.1 }
{
    let mut rest = number;
    for size in 0..bound {
        let own = ways(fates, size, parts);
        if rest < own {
            return (size, rest);
        }
        rest -= own;
    }
    (bound, rest)
}

/// A choice of at most `bound` departures among that many parts, by its number.
pub(crate) fn nth_within(fates: u8, bound: u8, parts: u32, number: u64) -> ArrayVec<Pick, 3>
    requires fates { fates ≤ most_fates }
    requires bound { bound ≤ 3 }
    requires parts { parts ≤ most_units }
    requires number { number < ways_within fates bound parts }
    ensures { slice_get (picks_within fates bound parts) number ≡ Some result.items }
{
    let (size, rest) = size_of(fates, bound, parts, u128::from(number));
    nth_of_size(fates, size, parts, rest)
}
