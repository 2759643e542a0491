//! The bounds of the result of an arithmetic instruction.

ghost use Rattle.std.specs.Prelude.{◌≡◌, ◌+ℤ◌, ◌-ℤ◌, IsTrue};
ghost use Rattle.std.specs.Option.{option_map};
ghost use Rattle.intervals.specs.Results.{is_arithmetic};
ghost use Rattle.intervals.specs.SignedResults.{if_signed, signed_or_full, signed_result_of, limits_result_of};
ghost use Rattle.intervals.specs.SeenSigned.{signed_span_of};
ghost use Rattle.intervals.specs.SeenBounds.{limits_of};

use crate::bounds::Bounds;
use crate::reducing::reduce;
use crate::results::result;
use crate::signed_range::SignedRange;
use bpf_isa::instr::{Instr, Operator, Width};

/// The bounds of what an arithmetic instruction makes of the words of two (docs/VERIFIER.md, Results
/// of arithmetic on numbers): those of dst, and those of the second operand, which are
/// `Bounds::immediate` of an immediate. The range of words is that of `result`; a move, a sum and a
/// difference in 64 bits keep a signed range too. None says that no words are left.
#[tactic(auto, unfolding(crate::specs::SignedResults::limits_result_of))]
pub fn result_bounds(instr: &Instr, first: Bounds, second: Bounds) -> Option<Bounds>
    requires { IsTrue (is_arithmetic instr.now) }
    ensures { option_map limits_of result ≡ limits_result_of instr.now (limits_of first) (limits_of second) }
{
    let unsigned = result(instr, first.unsigned, second.unsigned)?;
    reduce(unsigned, signed_result(instr, first.signed, second.signed))
}

/// The signed range of a result.
#[tactic(auto, unfolding(crate::specs::SignedResults::signed_result_of))]
fn signed_result(instr: &Instr, x: SignedRange, y: SignedRange) -> SignedRange
    ensures { signed_span_of result ≡ signed_result_of instr.now (signed_span_of x) (signed_span_of y) }
{
    match instr {
        Instr::Arithmetic {
            width: Width::W64,
            operator: Operator::Mov,
            ..
        } => y,
        Instr::Arithmetic {
            width: Width::W64,
            operator: Operator::Add,
            ..
        } => sum(x, y),
        Instr::Arithmetic {
            width: Width::W64,
            operator: Operator::Sub,
            ..
        } => difference(x, y),
        _ => SignedRange::full(),
    }
}

/// The sums, where none leaves the signed numbers, else any number.
fn sum(x: SignedRange, y: SignedRange) -> SignedRange
    ensures { signed_span_of result ≡ signed_or_full (x.low +ℤ y.low) (x.high +ℤ y.high) }
{
    match sums(x, y) {
        Some(range) => range,
        None => SignedRange::full(),
    }
}

/// The sums, if none leaves the signed numbers.
fn sums(x: SignedRange, y: SignedRange) -> Option<SignedRange>
    ensures { option_map signed_span_of result ≡ if_signed (x.low +ℤ y.low) (x.high +ℤ y.high) }
{
    let low = x.low.checked_add(y.low)?;
    let high = x.high.checked_add(y.high)?;
    Some(SignedRange { low, high })
}

/// The differences, where none leaves the signed numbers, else any number.
fn difference(x: SignedRange, y: SignedRange) -> SignedRange
    ensures { signed_span_of result ≡ signed_or_full (x.low -ℤ y.high) (x.high -ℤ y.low) }
{
    match differences(x, y) {
        Some(range) => range,
        None => SignedRange::full(),
    }
}

/// The differences, if none leaves the signed numbers.
fn differences(x: SignedRange, y: SignedRange) -> Option<SignedRange>
    ensures { option_map signed_span_of result ≡ if_signed (x.low -ℤ y.high) (x.high -ℤ y.low) }
{
    let low = x.low.checked_sub(y.high)?;
    let high = x.high.checked_sub(y.low)?;
    Some(SignedRange { low, high })
}
