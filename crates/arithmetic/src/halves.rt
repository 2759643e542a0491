//! The values of arithmetic in 32 bits (RFC 9669, section 4.1).

ghost use Rattle.std.specs.Prelude.{◌≡◌, ◌<◌, ◌%◌, int_div, int_rem};
ghost use Rattle.std.specs.Int.{cast_signed, cast_unsigned, int_shr, w32};
ghost use Rattle.machine.specs.Arithmetic.{operator_value};

use bpf_isa::instr::{Operator, Width};

/// The value of an operator in 32 bits (RFC 9669, section 4.1).
#[tactic(auto, unfolding(machine::specs::Arithmetic::operator_value))]
#[inline]
pub fn arithmetic_32(operator: Operator, first: u32, second: u32) -> u32
    ensures { result ≡ operator_value Width.W32 operator first second }
{
    match operator {
        Operator::Add => first.wrapping_add(second),
        Operator::Sub => first.wrapping_sub(second),
        Operator::Mul => first.wrapping_mul(second),
        Operator::Div => if second == 0 { 0 } else { first / second },
        Operator::SignedDiv => if second == 0 {
            0
        } else {
            signed_quotient_32(first, second)
        },
        Operator::Or => first | second,
        Operator::And => first & second,
        Operator::Lsh => first << (second % 32),
        Operator::Rsh => first >> (second % 32),
        Operator::Mod => if second == 0 { first } else { first % second },
        Operator::SignedMod => if second == 0 {
            first
        } else {
            signed_remainder_32(first, second)
        },
        Operator::Xor => first ^ second,
        Operator::Mov => second,
        Operator::Arsh => signed_shift_32(first, second),
    }
}

/// The quotient of two signed numbers, toward zero.
#[inline]
fn signed_quotient_32(first: u32, second: u32) -> u32
    requires { 0 < second }
    ensures { result ≡ cast_unsigned w32 (int_div (cast_signed w32 first) (cast_signed w32 second)) }
{
    first
        .cast_signed()
        .wrapping_div(second.cast_signed())
        .cast_unsigned()
}

/// Its remainder, of the sign of the first.
#[inline]
fn signed_remainder_32(first: u32, second: u32) -> u32
    requires { 0 < second }
    ensures { result ≡ cast_unsigned w32 (int_rem (cast_signed w32 first) (cast_signed w32 second)) }
{
    first
        .cast_signed()
        .wrapping_rem(second.cast_signed())
        .cast_unsigned()
}

/// The shift to the right that copies the sign.
#[inline]
fn signed_shift_32(first: u32, second: u32) -> u32
    ensures { result ≡ cast_unsigned w32 (int_shr (cast_signed w32 first) (second % 32)) }
{
    (first.cast_signed() >> (second % 32)).cast_unsigned()
}
