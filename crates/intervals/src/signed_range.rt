//! Ranges of signed numbers, and what joins and rounds them.

ghost use Rattle.std.specs.Prelude.{◌≤ℤ◌};
ghost use Rattle.std.specs.Int.{w64};
ghost use Rattle.std.specs.Int.RustNames.{FitsSigned};

use crate::signed_powers::{signed_ceiling, signed_floor};

/// The signed numbers from `low` to `high`, both included. There is at least one.
#[derive(Clone, Copy, Debug, PartialEq, Eq)]
pub struct SignedRange {
    /// The least number.
    pub low: i64,
    /// The greatest.
    pub high: i64,
    pub ghost ordered: { low ≤ℤ high },
    pub ghost low_fits: { FitsSigned w64 low },
    pub ghost high_fits: { FitsSigned w64 high },
}

impl SignedRange {
    ghost use Rattle.std.specs.Prelude.{◌≡◌, ◌+ℤ◌, ◌-ℤ◌, pos, IsTrue, ◌↔◌};
    ghost use Rattle.std.specs.Option.{option_map};
    ghost use Rattle.intervals.specs.SignedSpans.{signed_span, signed_full, inhabited_signed, not_below, not_above, cut_between, signed_hull, SignedWithin};
    ghost use Rattle.intervals.specs.SignedRounding.{signed_rounded};
    ghost use Rattle.intervals.specs.SeenSigned.{signed_span_of};

    /// All signed numbers of 64 bits.
    pub fn full() -> SignedRange
        ensures { signed_span_of result ≡ signed_full }
    {
        SignedRange {
            low: i64::MIN,
            high: i64::MAX,
        }
    }

    /// The numbers from one to another, if there are any.
    #[tactic(auto, unfolding(crate::specs::SignedSpans::inhabited_signed))]
    pub fn new(low: i64, high: i64) -> Option<SignedRange>
        ensures { option_map signed_span_of result ≡ inhabited_signed (signed_span low high) }
    {
        if low <= high {
            Some(SignedRange { low, high })
        } else {
            None
        }
    }

    /// The numbers that aren't below a number, if there are any.
    pub(crate) fn not_below(self, least: i64) -> Option<SignedRange>
        ensures { option_map signed_span_of result ≡ inhabited_signed (not_below (signed_span_of self) least) }
    {
        SignedRange::new(self.low.max(least), self.high)
    }

    /// The numbers that aren't above a number, if there are any.
    pub(crate) fn not_above(self, greatest: i64) -> Option<SignedRange>
        ensures { option_map signed_span_of result ≡ inhabited_signed (not_above (signed_span_of self) greatest) }
    {
        SignedRange::new(self.low, self.high.min(greatest))
    }

    /// The numbers above a number, if there are any.
    pub(crate) fn above(self, number: i64) -> Option<SignedRange>
        ensures { option_map signed_span_of result ≡ inhabited_signed (not_below (signed_span_of self) (number +ℤ pos 1)) }
    {
        match number.checked_add(1) {
            Some(least) => self.not_below(least),
            None => None,
        }
    }

    /// The numbers below a number, if there are any.
    pub(crate) fn below(self, number: i64) -> Option<SignedRange>
        ensures { option_map signed_span_of result ≡ inhabited_signed (not_above (signed_span_of self) (number -ℤ pos 1)) }
    {
        match number.checked_sub(1) {
            Some(greatest) => self.not_above(greatest),
            None => None,
        }
    }

    /// The numbers from one to another, if there are any.
    pub(crate) fn cut_between(self, least: i64, greatest: i64) -> Option<SignedRange>
        ensures { option_map signed_span_of result ≡ inhabited_signed (cut_between (signed_span_of self) least greatest) }
    {
        SignedRange::new(self.low.max(least), self.high.min(greatest))
    }

    /// Whether each number of the other is one of its own.
    pub fn contains(self, other: SignedRange) -> bool
        ensures { IsTrue result ↔ SignedWithin (signed_span_of other) (signed_span_of self) }
    {
        self.low <= other.low && other.high <= self.high
    }

    /// The least range that contains both.
    pub fn join(self, other: SignedRange) -> SignedRange
        ensures { signed_span_of result ≡ signed_hull (signed_span_of self) (signed_span_of other) }
    {
        SignedRange {
            low: self.low.min(other.low),
            high: self.high.max(other.high),
        }
    }

    /// The least range that contains it, begins at 0 or minus a power of two, and ends at -1 or a power
    /// of two less one.
    #[tactic(auto, unfolding(crate::specs::SignedRounding::signed_rounded))]
    pub fn round(self) -> SignedRange
        ensures { signed_span_of result ≡ signed_rounded (signed_span_of self) }
    {
        SignedRange {
            low: signed_floor(self.low),
            high: signed_ceiling(self.high),
        }
    }
}
