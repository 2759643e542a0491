//! What is known of a number: a range of its word, and one of its reading as a signed number.

ghost use Rattle.intervals.specs.Reducing.{limits, IsReduced};
ghost use Rattle.intervals.specs.Seen.{span_of};
ghost use Rattle.intervals.specs.SeenSigned.{signed_span_of};

use crate::range::Range;
use crate::reducing::{reduce, signed_cut};
use crate::signed_range::SignedRange;

/// The words of a range whose readings as signed numbers lie in another. The ranges are reduced: each
/// has been cut by the other.
#[derive(Clone, Copy, Debug, PartialEq, Eq)]
pub struct Bounds {
    /// The range of the word.
    pub unsigned: Range,
    /// The range of its reading.
    pub signed: SignedRange,
    pub ghost reduced: { IsReduced (limits (span_of unsigned) (signed_span_of signed)) },
}

impl Bounds {
    ghost use Rattle.std.specs.Prelude.{◌≡◌, ℕ, ◌-◌, ◌^◌, IsTrue, ◌↔◌};
    ghost use Rattle.intervals.specs.Spans.{span, only, is_constant};
    ghost use Rattle.intervals.specs.Seen.{immediate_span};
    ghost use Rattle.intervals.specs.Reducing.{any_sign, limits_hull, LimitsWithin};
    ghost use Rattle.intervals.specs.SignedRounding.{limits_rounded};
    ghost use Rattle.intervals.specs.SeenBounds.{limits_of};

    /// The words of a range, whatever their readings are.
    pub fn of(range: Range) -> Bounds
        ensures { limits_of result ≡ any_sign (span_of range) }
    {
        match signed_cut(range, SignedRange::full()) {
            Some(signed) => Bounds {
                unsigned: range,
                signed,
            },
            None => unreachable!(),
        }
    }

    /// All words.
    pub fn full() -> Bounds
        ensures { limits_of result ≡ any_sign (span 0 (2 ^ 64 - 1)) }
    {
        Bounds::of(Range::full())
    }

    /// This word alone.
    pub fn constant(word: u64) -> Bounds
        ensures { limits_of result ≡ any_sign (only word) }
    {
        Bounds::of(Range::constant(word))
    }

    /// The second operand that the machine makes of the immediate of an arithmetic instruction or a
    /// branch.
    pub fn immediate(immediate: i32) -> Bounds
        ensures { limits_of result ≡ any_sign (immediate_span immediate) }
    {
        Bounds::of(Range::immediate(immediate))
    }

    /// Whether it is one word.
    pub fn is_constant(self) -> bool
        ensures { result ≡ is_constant (span_of self.unsigned) }
    {
        self.unsigned.is_constant()
    }

    /// Whether both ranges of the other lie in its own.
    pub fn contains(self, other: Bounds) -> bool
        ensures { IsTrue result ↔ LimitsWithin (limits_of other) (limits_of self) }
    {
        self.unsigned.contains(other.unsigned) && self.signed.contains(other.signed)
    }

    /// The least bounds that contain both.
    pub fn join(self, other: Bounds) -> Bounds
        ensures { limits_of result ≡ limits_hull (limits_of self) (limits_of other) }
    {
        Bounds {
            unsigned: self.unsigned.join(other.unsigned),
            signed: self.signed.join(other.signed),
        }
    }

    /// Both ranges go to the next powers of two, as `Range::round` and `SignedRange::round` do, and are
    /// reduced.
    pub fn round(self) -> Bounds
        ensures nearest { limits_of result ≡ limits_rounded (limits_of self) }
        ensures contains { LimitsWithin (limits_of self) (limits_of result) }
    {
        match reduce(self.unsigned.round(), self.signed.round()) {
            Some(bounds) => bounds,
            None => unreachable!(),
        }
    }
}
