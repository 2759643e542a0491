//! The values of the operations that are exact over constants (RFC 9669, sections 4.1 and 4.2), as
//! the machine computes them.

ghost use Rattle.std.specs.Prelude.{◌≡◌, ◌≤◌};
ghost use Rattle.machine.specs.Arithmetic.{operator_value};
ghost use Rattle.intervals.specs.Operators.{most};
ghost use Rattle.intervals.specs.Results.{is_exact};

use arithmetic::{arithmetic_32, arithmetic_64};
use bpf_isa::instr::{Operator, Width};

/// Whether the operator is exact over constants.
pub(crate) fn is_exact(operator: Operator) -> bool
    ensures { result ≡ is_exact operator }
{
    matches!(
        operator,
        Operator::SignedDiv
            | Operator::Or
            | Operator::And
            | Operator::SignedMod
            | Operator::Xor
            | Operator::Arsh
    )
}

/// The value of an operator for two numbers of a width.
pub(crate) fn exact(width: Width, operator: Operator, first: u64, second: u64) -> u64
    requires first { first ≤ most width }
    requires other { second ≤ most width }
    ensures { result ≡ operator_value width operator first second }
{
    match width {
        Width::W32 => u64::from(arithmetic_32(operator, first as u32, second as u32)),
        Width::W64 => arithmetic_64(operator, first, second),
    }
}

/// The opposite of a number of a width.
pub(crate) fn negate(width: Width, word: u64) -> u64
    requires { word ≤ most width }
    ensures { result ≡ operator_value width Operator.Sub 0 word }
{
    exact(width, Operator::Sub, 0, word)
}
