//! The values of arithmetic on words (RFC 9669, sections 4.1 and 4.2).

ghost use Rattle.std.specs.Prelude.{◌≡◌, ◌<◌, ◌%◌, ◌^◌, int_div, int_rem};
ghost use Rattle.std.specs.Int.{cast_signed, cast_unsigned, int_shr, w64};
ghost use Rattle.machine.specs.Arithmetic.{arithmetic, operator_value, sign_extension, in_order, kept_low, turned_round};

use crate::halves::arithmetic_32;
use bpf_isa::instr::{Operator, Order, OrderSize, SignExtension, Width};

/// The low 32 bits of a word.
#[inline]
fn low_half(word: u64) -> u32
    ensures { result ≡ word % 2 ^ 32 }
{
    (word % 0x1_0000_0000) as u32
}

/// The value of an operator for two words, in a width (RFC 9669, section 4.1). In 32 bits the high half
/// of the value is zero.
#[tactic(auto, unfolding(machine::specs::Arithmetic::arithmetic))]
#[inline]
pub fn arithmetic(width: Width, operator: Operator, first: u64, second: u64) -> u64
    ensures { result ≡ arithmetic width operator first second }
{
    match width {
        Width::W32 => u64::from(arithmetic_32(operator, low_half(first), low_half(second))),
        Width::W64 => arithmetic_64(operator, first, second),
    }
}

/// The value of an operator in 64 bits (RFC 9669, section 4.1).
#[tactic(auto, unfolding(machine::specs::Arithmetic::operator_value))]
#[inline]
pub fn arithmetic_64(operator: Operator, first: u64, second: u64) -> u64
    ensures { result ≡ operator_value Width.W64 operator first second }
{
    match operator {
        Operator::Add => first.wrapping_add(second),
        Operator::Sub => first.wrapping_sub(second),
        Operator::Mul => first.wrapping_mul(second),
        Operator::Div => if second == 0 { 0 } else { first / second },
        Operator::SignedDiv => if second == 0 {
            0
        } else {
            signed_quotient_64(first, second)
        },
        Operator::Or => first | second,
        Operator::And => first & second,
        Operator::Lsh => first << (second % 64),
        Operator::Rsh => first >> (second % 64),
        Operator::Mod => if second == 0 { first } else { first % second },
        Operator::SignedMod => if second == 0 {
            first
        } else {
            signed_remainder_64(first, second)
        },
        Operator::Xor => first ^ second,
        Operator::Mov => second,
        Operator::Arsh => signed_shift_64(first, second),
    }
}

/// The quotient of two signed numbers, toward zero.
#[inline]
fn signed_quotient_64(first: u64, second: u64) -> u64
    requires { 0 < second }
    ensures { result ≡ cast_unsigned w64 (int_div (cast_signed w64 first) (cast_signed w64 second)) }
{
    first
        .cast_signed()
        .wrapping_div(second.cast_signed())
        .cast_unsigned()
}

/// Its remainder, of the sign of the first.
#[inline]
fn signed_remainder_64(first: u64, second: u64) -> u64
    requires { 0 < second }
    ensures { result ≡ cast_unsigned w64 (int_rem (cast_signed w64 first) (cast_signed w64 second)) }
{
    first
        .cast_signed()
        .wrapping_rem(second.cast_signed())
        .cast_unsigned()
}

/// The shift to the right that copies the sign.
#[inline]
fn signed_shift_64(first: u64, second: u64) -> u64
    ensures { result ≡ cast_unsigned w64 (int_shr (cast_signed w64 first) (second % 64)) }
{
    (first.cast_signed() >> (second % 64)).cast_unsigned()
}

/// The low bits of a word as a signed number (RFC 9669, section 4.1, MOVSX).
#[tactic(auto, unfolding(machine::specs::Arithmetic::sign_extension))]
#[inline]
pub fn sign_extend(extension: SignExtension, word: u64) -> u64
    ensures { result ≡ sign_extension extension word }
{
    match extension {
        SignExtension::From8To64 => i64::from(low_byte(word).cast_signed()).cast_unsigned(),
        SignExtension::From16To64 => i64::from(low_quarter(word).cast_signed()).cast_unsigned(),
        SignExtension::From32To64 => i64::from(low_half(word).cast_signed()).cast_unsigned(),
        SignExtension::From8To32 => u64::from(i32::from(low_byte(
            word,
        ).cast_signed()).cast_unsigned()),
        SignExtension::From16To32 => u64::from(i32::from(low_quarter(
            word,
        ).cast_signed()).cast_unsigned()),
    }
}

/// The low 8 bits of a word.
#[inline]
fn low_byte(word: u64) -> u8
    ensures { result ≡ word % 2 ^ 8 }
{
    (word % 0x100) as u8
}

/// The low 16 bits of a word.
#[inline]
fn low_quarter(word: u64) -> u16
    ensures { result ≡ word % 2 ^ 16 }
{
    (word % 0x1_0000) as u16
}

/// The low bytes of a word in an order (RFC 9669, section 4.2).
#[inline]
pub fn in_order(order: Order, size: OrderSize, word: u64) -> u64
    ensures { result ≡ in_order order size word }
{
    match order {
        Order::Little => kept_low(size, word),
        Order::Big | Order::Swap => turned_round(size, word),
    }
}

#[tactic(auto, unfolding(machine::specs::Arithmetic::kept_low))]
#[inline]
fn kept_low(size: OrderSize, word: u64) -> u64
    ensures { result ≡ kept_low size word }
{
    match size {
        OrderSize::Bits16 => u64::from(low_quarter(word)),
        OrderSize::Bits32 => u64::from(low_half(word)),
        OrderSize::Bits64 => word,
    }
}

#[tactic(auto, unfolding(machine::specs::Arithmetic::turned_round))]
#[inline]
fn turned_round(size: OrderSize, word: u64) -> u64
    ensures { result ≡ turned_round size word }
{
    match size {
        OrderSize::Bits16 => u64::from(low_quarter(word).swap_bytes()),
        OrderSize::Bits32 => u64::from(low_half(word).swap_bytes()),
        OrderSize::Bits64 => word.swap_bytes(),
    }
}
