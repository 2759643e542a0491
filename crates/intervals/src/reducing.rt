//! How a range of words and a range of their readings cut each other.

ghost use Rattle.std.specs.Prelude.{◌≡◌};
ghost use Rattle.std.specs.Option.{option_map};
ghost use Rattle.intervals.specs.Spans.{nonempty};
ghost use Rattle.intervals.specs.SignedSpans.{inhabited_signed};
ghost use Rattle.intervals.specs.Reducing.{limits, has_one_sign, has_one_sign_signed, signed_cut, unsigned_cut, reduction};
ghost use Rattle.intervals.specs.Seen.{span_of};
ghost use Rattle.intervals.specs.SeenSigned.{signed_span_of};
ghost use Rattle.intervals.specs.SeenBounds.{limits_of};

use crate::bounds::Bounds;
use crate::range::Range;
use crate::signed_range::SignedRange;

/// The two ranges, each cut by the other (docs/VERIFIER.md, Abstract values). None
/// says that one of them is left empty: then no word is in both. Where both have numbers of both signs
/// neither is cut, so there a word may be left that has no reading in the signed range.
#[tactic(auto, unfolding(crate::specs::Reducing::reduction))]
pub fn reduce(unsigned: Range, signed: SignedRange) -> Option<Bounds>
    ensures { option_map limits_of result ≡ reduction (limits (span_of unsigned) (signed_span_of signed)) }
{
    let signed = signed_cut(unsigned, signed)?;
    let unsigned = unsigned_cut(signed, unsigned)?;
    let signed = signed_cut(unsigned, signed)?;
    Some(Bounds { unsigned, signed })
}

/// Whether none of the words is negative as a signed number, or each.
fn has_one_sign(unsigned: Range) -> bool
    ensures { result ≡ has_one_sign (span_of unsigned) }
{
    unsigned.high < 0x8000_0000_0000_0000 || 0x8000_0000_0000_0000 <= unsigned.low
}

/// Whether none of the numbers is negative, or each.
fn has_one_sign_signed(signed: SignedRange) -> bool
    ensures { result ≡ has_one_sign_signed (signed_span_of signed) }
{
    0 <= signed.low || signed.high < 0
}

/// The signed range, cut to the readings of words of one sign.
#[tactic(auto, unfolding(crate::specs::Reducing::signed_cut))]
pub(crate) fn signed_cut(unsigned: Range, signed: SignedRange) -> Option<SignedRange>
    ensures { option_map signed_span_of result ≡ inhabited_signed (signed_cut (span_of unsigned) (signed_span_of signed)) }
{
    if has_one_sign(unsigned) {
        signed.cut_between(unsigned.low.cast_signed(), unsigned.high.cast_signed())
    } else {
        Some(signed)
    }
}

/// The range of words, cut to those that have readings of one sign.
#[tactic(auto, unfolding(crate::specs::Reducing::unsigned_cut))]
fn unsigned_cut(signed: SignedRange, unsigned: Range) -> Option<Range>
    ensures { option_map span_of result ≡ nonempty (unsigned_cut (signed_span_of signed) (span_of unsigned)) }
{
    if has_one_sign_signed(signed) {
        Range::new(
            unsigned.low.max(signed.low.cast_unsigned()),
            unsigned.high.min(signed.high.cast_unsigned()),
        )
    } else {
        Some(unsigned)
    }
}
