//! The powers of two next to a word.

ghost use Rattle.std.specs.Prelude.{◌≡◌, ℕ, ◌^◌, ◌<◌, ◌≤◌};
ghost use Rattle.intervals.specs.Rounding.{floor, ceiling};

/// The greatest of 0, 1, 2, 4, 8, .. that isn't above the word.
#[tactic(auto, unfolding(crate::specs::Rounding::floor))]
pub(crate) fn floor(word: u64) -> u64
    ensures value { result ≡ floor word }
    ensures below { result ≤ word }
{
    if word == 0 {
        0
    } else {
        1 << (63 - word.leading_zeros())
    }
}

/// The least 2^k - 1 that isn't below the word.
#[tactic(auto, unfolding(crate::specs::Rounding::ceiling))]
pub(crate) fn ceiling(word: u64) -> u64
    ensures value { result ≡ ceiling word }
    ensures above { word ≤ result }
    ensures small { (bits : ℕ) → word < 2 ^ bits → result < 2 ^ bits }
{
    if word == 0 {
        0
    } else {
        u64::MAX >> word.leading_zeros()
    }
}
