//! The table of results (docs/VERIFIER.md, Results of arithmetic on numbers), one function a line.
//! `most` is the greatest number of the width; the operands are ranges of such numbers.

ghost use Rattle.std.specs.Prelude.{◌≡◌, ◌≤◌, ◌<◌};
ghost use Rattle.intervals.specs.Operators.{sum_of, difference_of, product_of, quotient_of, remaining, bits_of_both, bits_of_either, shifted_left, shifted_right, signed_divided, signed_remaining, signed_shifted, in_table, most, half};
ghost use Rattle.intervals.specs.Seen.{span_of};
ghost use Rattle.machine.specs.Arithmetic.{width_bits};

use crate::powers::ceiling;
use crate::range::Range;
use bpf_isa::instr::{Operator, Width};

/// The greatest number of a width.
pub(crate) fn most(width: Width) -> u64
    ensures { result ≡ most width }
{
    match width {
        Width::W32 => 0xffff_ffff,
        Width::W64 => u64::MAX,
    }
}

/// The least number of a width that is negative as a signed one.
fn half(width: Width) -> u64
    ensures { result ≡ half width }
{
    match width {
        Width::W32 => 0x8000_0000,
        Width::W64 => 0x8000_0000_0000_0000,
    }
}

/// How many bits a width has.
fn bits(width: Width) -> u64
    ensures { result ≡ width_bits width }
{
    match width {
        Width::W32 => 32,
        Width::W64 => 64,
    }
}

/// Both ends are moved where no sum wraps, or each.
#[tactic(auto, unfolding(crate::specs::Operators::sum_of))]
fn sum_of(most: u64, x: Range, y: Range) -> Range
    requires first { x.high ≤ most }
    requires other { y.high ≤ most }
    ensures { span_of result ≡ sum_of most (span_of x) (span_of y) }
{
    if x.high <= most - y.high {
        Range {
            low: x.low + y.low,
            high: x.high + y.high,
        }
    } else if x.low > most - y.low {
        Range {
            low: x.low - (most - y.low) - 1,
            high: x.high - (most - y.high) - 1,
        }
    } else {
        Range::up_to(most)
    }
}

/// The differences, where none or all of them wrap, else any number.
#[tactic(auto, unfolding(crate::specs::Operators::difference_of))]
fn difference_of(most: u64, x: Range, y: Range) -> Range
    requires first { x.high ≤ most }
    requires other { y.high ≤ most }
    ensures { span_of result ≡ difference_of most (span_of x) (span_of y) }
{
    if x.low >= y.high {
        Range {
            low: x.low - y.high,
            high: x.high - y.low,
        }
    } else if x.high < y.low {
        Range {
            low: most - (y.high - x.low) + 1,
            high: most - (y.low - x.high) + 1,
        }
    } else {
        Range::up_to(most)
    }
}

/// The products, where the greatest doesn't wrap.
#[tactic(auto, unfolding(crate::specs::Operators::product_of))]
fn product_of(most: u64, x: Range, y: Range) -> Range
    ensures { span_of result ≡ product_of most (span_of x) (span_of y) }
{
    match x.high.checked_mul(y.high) {
        Some(high) if high <= most => Range {
            low: x.low * y.low,
            high,
        },
        _ => Range::up_to(most),
    }
}

/// The quotients.
#[tactic(auto, unfolding(crate::specs::Operators::quotient_of))]
fn quotient_of(x: Range, y: Range) -> Range
    ensures { span_of result ≡ quotient_of (span_of x) (span_of y) }
{
    if !y.is_constant() {
        Range::up_to(x.high)
    } else if y.low == 0 {
        Range::constant(0)
    } else {
        Range {
            low: x.low / y.low,
            high: x.high / y.low,
        }
    }
}

/// The remainders.
#[tactic(auto, unfolding(crate::specs::Operators::remaining))]
fn remaining(x: Range, y: Range) -> Range
    ensures { span_of result ≡ remaining (span_of x) (span_of y) }
{
    if y.is_constant() {
        if y.low == 0 || x.high < y.low {
            x
        } else {
            Range::up_to(y.low - 1)
        }
    } else if y.low == 0 {
        Range::up_to(x.high)
    } else {
        Range::up_to(x.high.min(y.high - 1))
    }
}

/// Of the bits of both, none is above the smaller.
#[tactic(auto, unfolding(crate::specs::Operators::bits_of_both))]
fn bits_of_both(x: Range, y: Range) -> Range
    ensures { span_of result ≡ bits_of_both (span_of x) (span_of y) }
{
    Range::up_to(x.high.min(y.high))
}

/// Bits of either: none is above the highest bit of the larger high end.
#[tactic(auto, unfolding(crate::specs::Operators::bits_of_either))]
fn bits_of_either(x: Range, y: Range) -> Range
    ensures { span_of result ≡ bits_of_either (span_of x) (span_of y) }
{
    Range::up_to(ceiling(x.high.max(y.high)))
}

/// Both ends are shifted by a constant count, where no bit is lost.
#[tactic(auto, unfolding(crate::specs::Operators::shifted_left))]
fn shifted_left(most: u64, bits: u64, x: Range, y: Range) -> Range
    requires positive { 0 < bits }
    requires width { bits ≤ 64 }
    ensures { span_of result ≡ shifted_left most bits (span_of x) (span_of y) }
{
    if !y.is_constant() {
        return Range::up_to(most);
    }
    let factor = 1u64 << (y.low % bits);
    match x.high.checked_mul(factor) {
        Some(high) if high <= most => Range {
            low: x.low * factor,
            high,
        },
        _ => Range::up_to(most),
    }
}

/// Both ends are shifted by a constant count.
#[tactic(auto, unfolding(crate::specs::Operators::shifted_right))]
fn shifted_right(bits: u64, x: Range, y: Range) -> Range
    requires positive { 0 < bits }
    requires width { bits ≤ 64 }
    ensures { span_of result ≡ shifted_right bits (span_of x) (span_of y) }
{
    if y.is_constant() {
        let count = y.low % bits;
        Range {
            low: x.low >> count,
            high: x.high >> count,
        }
    } else {
        Range::up_to(x.high)
    }
}

/// The quotients where no number is negative.
#[tactic(auto, unfolding(crate::specs::Operators::signed_divided))]
fn signed_divided(most: u64, half: u64, x: Range, y: Range) -> Range
    ensures { span_of result ≡ signed_divided most half (span_of x) (span_of y) }
{
    if x.high < half && y.high < half {
        quotient_of(x, y)
    } else {
        Range::up_to(most)
    }
}

/// The remainders where no number is negative.
#[tactic(auto, unfolding(crate::specs::Operators::signed_remaining))]
fn signed_remaining(most: u64, half: u64, x: Range, y: Range) -> Range
    ensures { span_of result ≡ signed_remaining most half (span_of x) (span_of y) }
{
    if x.high < half && y.high < half {
        remaining(x, y)
    } else {
        Range::up_to(most)
    }
}

/// The shift to the right that copies the sign, where no number has one.
#[tactic(auto, unfolding(crate::specs::Operators::signed_shifted))]
fn signed_shifted(most: u64, half: u64, bits: u64, x: Range, y: Range) -> Range
    requires positive { 0 < bits }
    requires width { bits ≤ 64 }
    ensures { span_of result ≡ signed_shifted most half bits (span_of x) (span_of y) }
{
    if x.high < half {
        shifted_right(bits, x, y)
    } else {
        Range::up_to(most)
    }
}

/// The line of an operator.
#[tactic(auto, unfolding(crate::specs::Operators::in_table))]
pub(crate) fn in_table(width: Width, operator: Operator, x: Range, y: Range) -> Range
    requires first { x.high ≤ most width }
    requires other { y.high ≤ most width }
    ensures { span_of result ≡ in_table width operator (span_of x) (span_of y) }
{
    match operator {
        Operator::Add => sum_of(most(width), x, y),
        Operator::Sub => difference_of(most(width), x, y),
        Operator::Mul => product_of(most(width), x, y),
        Operator::Div => quotient_of(x, y),
        Operator::SignedDiv => signed_divided(most(width), half(width), x, y),
        Operator::Or => bits_of_either(x, y),
        Operator::And => bits_of_both(x, y),
        Operator::Lsh => shifted_left(most(width), bits(width), x, y),
        Operator::Rsh => shifted_right(bits(width), x, y),
        Operator::Mod => remaining(x, y),
        Operator::SignedMod => signed_remaining(most(width), half(width), x, y),
        Operator::Xor => bits_of_either(x, y),
        Operator::Mov => y,
        Operator::Arsh => signed_shifted(most(width), half(width), bits(width), x, y),
    }
}
