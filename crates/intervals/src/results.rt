//! The result of an arithmetic instruction.

ghost use Rattle.std.specs.Prelude.{◌≡◌, ◌≤◌, IsTrue};
ghost use Rattle.std.specs.Option.{option_map, IsSome};
ghost use Rattle.intervals.specs.Operators.{most};
ghost use Rattle.intervals.specs.Results.{part_of_width, operator_result, arithmetic_result, opposite, negated_result, sign_of, sign_extended, extended_result, most_of, ordered_result, is_arithmetic, result_of};
ghost use Rattle.intervals.specs.Seen.{span_of};

use crate::constants::{exact, is_exact, negate};
use crate::operators::{in_table, most};
use crate::range::Range;
use arithmetic::{in_order, sign_extend};
use bpf_isa::instr::{Instr, Operator, Order, OrderSize, SignExtension, Width};

/// The range of what an arithmetic instruction makes of the words of two ranges (docs/VERIFIER.md,
/// Results of arithmetic on numbers): that of dst, and that of the second operand, which is
/// `Range::immediate` of an immediate. The opposite and a byte order read only the first, a move and
/// a sign extension only the second. While ranges have two ends there always is a result; with
/// signed ends None says that no words are left.
#[tactic(auto, unfolding(crate::specs::Results::result_of))]
pub fn result(instr: &Instr, first: Range, second: Range) -> Option<Range>
    requires { IsTrue (is_arithmetic instr.now) }
    ensures exact { option_map span_of result ≡ result_of instr.now (span_of first) (span_of second) }
    ensures present { IsSome result }
{
    match instr {
        Instr::Arithmetic {
            width,
            operator,
            ..
        } => Some(arithmetic_result(*width, *operator, first, second)),
        Instr::Negate { width, .. } => Some(negated_result(*width, first)),
        Instr::SignExtend { extension, .. } => Some(extended_result(*extension, second)),
        Instr::ByteOrder { order, size, .. } => Some(ordered_result(*order, *size, first)),
        _ => unreachable!(),
    }
}

/// The part of a range that a width computes with.
#[tactic(auto, unfolding(crate::specs::Results::part_of_width))]
fn cut(width: Width, x: Range) -> Range
    ensures value { span_of result ≡ part_of_width width (span_of x) }
    ensures fits { result.high ≤ most width }
{
    match width {
        Width::W64 => x,
        Width::W32 => if x.low >> 32 == x.high >> 32 {
            Range {
                low: x.low % 0x1_0000_0000,
                high: x.high % 0x1_0000_0000,
            }
        } else {
            Range::up_to(0xffff_ffff)
        },
    }
}

#[tactic(auto, unfolding(crate::specs::Results::arithmetic_result))]
fn arithmetic_result(width: Width, operator: Operator, x: Range, y: Range) -> Range
    ensures { span_of result ≡ arithmetic_result width operator (span_of x) (span_of y) }
{
    operator_result(width, operator, cut(width, x), cut(width, y))
}

/// The result for numbers of the width.
#[tactic(auto, unfolding(crate::specs::Results::operator_result))]
fn operator_result(width: Width, operator: Operator, x: Range, y: Range) -> Range
    requires first { x.high ≤ most width }
    requires other { y.high ≤ most width }
    ensures { span_of result ≡ operator_result width operator (span_of x) (span_of y) }
{
    if is_exact(operator) && x.is_constant() && y.is_constant() {
        Range::constant(exact(width, operator, x.low, y.low))
    } else {
        in_table(width, operator, x, y)
    }
}

#[tactic(auto, unfolding(crate::specs::Results::negated_result))]
fn negated_result(width: Width, x: Range) -> Range
    ensures { span_of result ≡ negated_result width (span_of x) }
{
    opposite(width, cut(width, x))
}

/// The opposites of numbers of the width.
#[tactic(auto, unfolding(crate::specs::Results::opposite))]
fn opposite(width: Width, x: Range) -> Range
    requires { x.high ≤ most width }
    ensures { span_of result ≡ opposite width (span_of x) }
{
    if x.is_constant() {
        Range::constant(negate(width, x.low))
    } else {
        Range::up_to(most(width))
    }
}

/// The least number whose sign is set.
fn sign_of(extension: SignExtension) -> u64
    ensures { result ≡ sign_of extension }
{
    match extension {
        SignExtension::From8To64 | SignExtension::From8To32 => 0x80,
        SignExtension::From16To64 | SignExtension::From16To32 => 0x8000,
        SignExtension::From32To64 => 0x8000_0000,
    }
}

#[tactic(auto, unfolding(crate::specs::Results::extended_result))]
fn extended_result(extension: SignExtension, x: Range) -> Range
    ensures { span_of result ≡ extended_result extension (span_of x) }
{
    sign_extended(extension, cut(extension.width(), x))
}

/// The result for numbers of the width.
#[tactic(auto, unfolding(crate::specs::Results::sign_extended))]
fn sign_extended(extension: SignExtension, x: Range) -> Range
    ensures { span_of result ≡ sign_extended extension (span_of x) }
{
    if x.is_constant() {
        Range::constant(sign_extend(extension, x.low))
    } else if x.high < sign_of(extension) {
        x
    } else {
        Range::up_to(most(extension.width()))
    }
}

/// The greatest number of that many bits.
fn most_of(size: OrderSize) -> u64
    ensures { result ≡ most_of size }
{
    match size {
        OrderSize::Bits16 => 0xffff,
        OrderSize::Bits32 => 0xffff_ffff,
        OrderSize::Bits64 => u64::MAX,
    }
}

#[tactic(auto, unfolding(crate::specs::Results::ordered_result))]
fn ordered_result(order: Order, size: OrderSize, x: Range) -> Range
    ensures { span_of result ≡ ordered_result order size (span_of x) }
{
    if x.is_constant() {
        Range::constant(in_order(order, size, x.low))
    } else if matches!(order, Order::Little) && x.high <= most_of(size) {
        x
    } else {
        Range::up_to(most_of(size))
    }
}
