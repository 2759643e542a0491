//! What the edges of a conditional jump say of both ranges of each operand.

ghost use Rattle.std.specs.Prelude.{◌≡◌, IsTrue};
ghost use Rattle.std.specs.Option.{option_map};
ghost use Rattle.intervals.specs.Edges.{is_branch};
ghost use Rattle.intervals.specs.SignedEdges.{signed_equal, signed_above, signed_at_most, signed_at_least, signed_below, signed_narrowed, limits_narrowed, limits_refined};
ghost use Rattle.intervals.specs.SeenSigned.{signed_span_of, signed_spans_of};
ghost use Rattle.intervals.specs.SeenBounds.{limits_of, both_limits};

use crate::bounds::Bounds;
use crate::branches::{condition_edge, is_same};
use crate::reducing::reduce;
use crate::signed_range::SignedRange;
use bpf_isa::instr::{Condition, Instr, Width};

/// The bounds of dst and of the second operand of a conditional jump on the edge that is taken, or on
/// the other (docs/VERIFIER.md, Branches). None says that no words go that
/// way. Only tests in 64 bits, of two different operands, make bounds smaller: the unsigned ones cut
/// the words, the signed ones the readings, and equality both.
#[tactic(auto, unfolding(crate::specs::SignedEdges::limits_refined))]
pub fn refine_bounds(
    instr: &Instr,
    taken: bool,
    first: Bounds,
    second: Bounds,
) -> Option<(Bounds, Bounds)>
    requires { IsTrue (is_branch instr.now) }
    ensures { option_map both_limits result ≡ limits_refined instr.now taken (limits_of first) (limits_of second) }
{
    match instr {
        Instr::Branch {
            width: Width::W64,
            condition,
            dst,
            source,
            ..
        } => if is_same(dst, source) {
            Some((first, second))
        } else {
            bounds_narrowed(*condition, taken, first, second)
        },
        Instr::Branch { .. } => Some((first, second)),
        _ => unreachable!(),
    }
}

/// What an edge of a condition in 64 bits tells, reduced.
#[tactic(auto, unfolding(crate::specs::SignedEdges::limits_narrowed))]
fn bounds_narrowed(
    condition: Condition,
    taken: bool,
    x: Bounds,
    y: Bounds,
) -> Option<(Bounds, Bounds)>
    ensures { option_map both_limits result ≡ limits_narrowed condition taken (limits_of x) (limits_of y) }
{
    let unsigned = condition_edge(condition, taken, x.unsigned, y.unsigned)?;
    let signed = signed_narrowed(condition, taken, x.signed, y.signed)?;
    Some((reduce(unsigned.0, signed.0)?, reduce(unsigned.1, signed.1)?))
}

/// What it tells of the signed ranges.
#[tactic(auto, unfolding(crate::specs::SignedEdges::signed_narrowed))]
fn signed_narrowed(
    condition: Condition,
    taken: bool,
    x: SignedRange,
    y: SignedRange,
) -> Option<(SignedRange, SignedRange)>
    ensures { option_map signed_spans_of result ≡ signed_narrowed condition taken (signed_span_of x) (signed_span_of y) }
{
    match (condition, taken) {
        (Condition::Eq, true) | (Condition::Ne, false) => signed_equal(x, y),
        (Condition::SignedGt, true) | (Condition::SignedLe, false) => signed_above(x, y),
        (Condition::SignedGt, false) | (Condition::SignedLe, true) => signed_at_most(x, y),
        (Condition::SignedGe, true) | (Condition::SignedLt, false) => signed_at_least(x, y),
        (Condition::SignedGe, false) | (Condition::SignedLt, true) => signed_below(x, y),
        _ => Some((x, y)),
    }
}

/// dst = second.
#[tactic(auto, unfolding(crate::specs::SignedEdges::signed_equal))]
fn signed_equal(x: SignedRange, y: SignedRange) -> Option<(SignedRange, SignedRange)>
    ensures { option_map signed_spans_of result ≡ signed_equal (signed_span_of x) (signed_span_of y) }
{
    let common = x.cut_between(y.low, y.high)?;
    Some((common, common))
}

/// dst > second.
#[tactic(auto, unfolding(crate::specs::SignedEdges::signed_above))]
fn signed_above(x: SignedRange, y: SignedRange) -> Option<(SignedRange, SignedRange)>
    ensures { option_map signed_spans_of result ≡ signed_above (signed_span_of x) (signed_span_of y) }
{
    Some((x.above(y.low)?, y.below(x.high)?))
}

/// dst ≤ second.
#[tactic(auto, unfolding(crate::specs::SignedEdges::signed_at_most))]
fn signed_at_most(x: SignedRange, y: SignedRange) -> Option<(SignedRange, SignedRange)>
    ensures { option_map signed_spans_of result ≡ signed_at_most (signed_span_of x) (signed_span_of y) }
{
    Some((x.not_above(y.high)?, y.not_below(x.low)?))
}

/// dst ≥ second.
#[tactic(auto, unfolding(crate::specs::SignedEdges::signed_at_least))]
fn signed_at_least(x: SignedRange, y: SignedRange) -> Option<(SignedRange, SignedRange)>
    ensures { option_map signed_spans_of result ≡ signed_at_least (signed_span_of x) (signed_span_of y) }
{
    Some((x.not_below(y.low)?, y.not_above(x.high)?))
}

/// dst < second.
#[tactic(auto, unfolding(crate::specs::SignedEdges::signed_below))]
fn signed_below(x: SignedRange, y: SignedRange) -> Option<(SignedRange, SignedRange)>
    ensures { option_map signed_spans_of result ≡ signed_below (signed_span_of x) (signed_span_of y) }
{
    Some((x.below(y.high)?, y.above(x.low)?))
}
