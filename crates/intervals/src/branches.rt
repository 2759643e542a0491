//! What the edges of a conditional jump say.

ghost use Rattle.std.specs.Prelude.{◌≡◌, IsTrue};
ghost use Rattle.std.specs.Option.{option_map};
ghost use Rattle.intervals.specs.Spans.{nonempty};
ghost use Rattle.intervals.specs.Edges.{equal, apart, above, at_most, at_least, below, without, condition_edge, is_same, is_branch, jump_edge};
ghost use Rattle.intervals.specs.Seen.{span_of, spans_of};

use crate::range::Range;
use bpf_isa::instr::{Condition, Instr, Source, Width};
use bpf_isa::register::Register;

/// The ranges of dst and of the second operand of a conditional jump on the edge that is taken, or on
/// the other (docs/VERIFIER.md, Branches). None says that no words go that way. Only unsigned tests
/// in 64 bits, of two different operands, make ranges smaller; the others give back both.
#[tactic(auto, unfolding(crate::specs::Edges::jump_edge))]
pub fn refine(instr: &Instr, taken: bool, first: Range, second: Range) -> Option<(Range, Range)>
    requires { IsTrue (is_branch instr.now) }
    ensures { option_map spans_of result ≡ jump_edge instr.now taken (span_of first) (span_of second) }
{
    match instr {
        Instr::Branch {
            width: Width::W64,
            condition,
            dst,
            source,
            ..
        } => if is_same(dst, source) {
            Some((first, second))
        } else {
            condition_edge(*condition, taken, first, second)
        },
        Instr::Branch { .. } => Some((first, second)),
        _ => unreachable!(),
    }
}

/// Whether the second operand is the register.
pub(crate) fn is_same(dst: &Register, source: &Source) -> bool
    ensures { result ≡ is_same dst.now source.now }
{
    match source {
        Source::Immediate(_) => false,
        Source::Register(src) => dst.number() == src.number(),
    }
}

/// What an edge of a condition in 64 bits tells.
#[tactic(auto, unfolding(crate::specs::Edges::condition_edge))]
pub(crate) fn condition_edge(
    condition: Condition,
    taken: bool,
    x: Range,
    y: Range,
) -> Option<(Range, Range)>
    ensures { option_map spans_of result ≡ condition_edge condition taken (span_of x) (span_of y) }
{
    match (condition, taken) {
        (Condition::Eq, true) | (Condition::Ne, false) => equal(x, y),
        (Condition::Eq, false) | (Condition::Ne, true) => apart(x, y),
        (Condition::Gt, true) | (Condition::Le, false) => above(x, y),
        (Condition::Gt, false) | (Condition::Le, true) => at_most(x, y),
        (Condition::Ge, true) | (Condition::Lt, false) => at_least(x, y),
        (Condition::Ge, false) | (Condition::Lt, true) => below(x, y),
        _ => Some((x, y)),
    }
}

/// dst = second.
#[tactic(auto, unfolding(crate::specs::Edges::equal))]
fn equal(x: Range, y: Range) -> Option<(Range, Range)>
    ensures { option_map spans_of result ≡ equal (span_of x) (span_of y) }
{
    let common = Range::new(x.low.max(y.low), x.high.min(y.high))?;
    Some((common, common))
}

/// dst is not second.
#[tactic(auto, unfolding(crate::specs::Edges::apart))]
fn apart(x: Range, y: Range) -> Option<(Range, Range)>
    ensures { option_map spans_of result ≡ apart (span_of x) (span_of y) }
{
    Some((without(x, y)?, without(y, x)?))
}

/// A range whose ends are not the constant of the other, if something is left of it.
fn without(x: Range, y: Range) -> Option<Range>
    ensures { option_map span_of result ≡ nonempty (without (span_of x) (span_of y)) }
{
    if !y.is_constant() {
        return Some(x);
    }
    let low = if x.low == y.low {
        x.low.checked_add(1)?
    } else {
        x.low
    };
    let high = if x.high == y.low {
        x.high.checked_sub(1)?
    } else {
        x.high
    };
    Range::new(low, high)
}

/// dst > second.
#[tactic(auto, unfolding(crate::specs::Edges::above))]
fn above(x: Range, y: Range) -> Option<(Range, Range)>
    ensures { option_map spans_of result ≡ above (span_of x) (span_of y) }
{
    let least = y.low.checked_add(1)?;
    let greatest = x.high.checked_sub(1)?;
    Some((
        Range::new(x.low.max(least), x.high)?,
        Range::new(y.low, y.high.min(greatest))?,
    ))
}

/// dst ≤ second.
#[tactic(auto, unfolding(crate::specs::Edges::at_most))]
fn at_most(x: Range, y: Range) -> Option<(Range, Range)>
    ensures { option_map spans_of result ≡ at_most (span_of x) (span_of y) }
{
    Some((
        Range::new(x.low, x.high.min(y.high))?,
        Range::new(x.low.max(y.low), y.high)?,
    ))
}

/// dst ≥ second.
#[tactic(auto, unfolding(crate::specs::Edges::at_least))]
fn at_least(x: Range, y: Range) -> Option<(Range, Range)>
    ensures { option_map spans_of result ≡ at_least (span_of x) (span_of y) }
{
    Some((
        Range::new(x.low.max(y.low), x.high)?,
        Range::new(y.low, y.high.min(x.high))?,
    ))
}

/// dst < second.
#[tactic(auto, unfolding(crate::specs::Edges::below))]
fn below(x: Range, y: Range) -> Option<(Range, Range)>
    ensures { option_map spans_of result ≡ below (span_of x) (span_of y) }
{
    let greatest = y.high.checked_sub(1)?;
    let least = x.low.checked_add(1)?;
    Some((
        Range::new(x.low, x.high.min(greatest))?,
        Range::new(y.low.max(least), y.high)?,
    ))
}
