//! The powers of two next to a signed number.

ghost use Rattle.std.specs.Prelude.{◌≡◌, ◌≤ℤ◌};
ghost use Rattle.intervals.specs.SignedRounding.{signed_floor, signed_ceiling};

use crate::powers::ceiling;

/// The greatest of 0, -1, -2, -4, -8, .. that isn't above the number.
#[tactic(auto, unfolding(crate::specs::SignedRounding::signed_floor))]
pub(crate) fn signed_floor(number: i64) -> i64
    ensures value { result ≡ signed_floor number }
    ensures below { result ≤ℤ number }
{
    if number >= 0 {
        0
    } else {
        -1 - ceiling((-1 - number) as u64) as i64
    }
}

/// The least of -1, 0, 1, 3, 7, .. that isn't below the number.
#[tactic(auto, unfolding(crate::specs::SignedRounding::signed_ceiling))]
pub(crate) fn signed_ceiling(number: i64) -> i64
    ensures value { result ≡ signed_ceiling number }
    ensures above { number ≤ℤ result }
{
    if number >= 0 {
        ceiling(number as u64) as i64
    } else {
        -1
    }
}
