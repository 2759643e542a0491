//! The conditions of jumps (RFC 9669, section 4.3).

ghost use Rattle.std.specs.Prelude.{◌≡◌};
ghost use Rattle.machine.specs.Arithmetic.{holds, condition_holds};

use bpf_isa::instr::{Condition, Width};

/// Whether a condition holds for two words, in a width.
#[tactic(auto, unfolding(machine::specs::Arithmetic::holds))]
pub fn holds(width: Width, condition: Condition, first: u64, second: u64) -> bool
    ensures { result ≡ holds width condition first second }
{
    match width {
        Width::W32 => compared_32(
            condition,
            (first % 0x1_0000_0000) as u32,
            (second % 0x1_0000_0000) as u32,
        ),
        Width::W64 => compared_64(condition, first, second),
    }
}

#[tactic(auto, unfolding(machine::specs::Arithmetic::condition_holds))]
fn compared_64(condition: Condition, first: u64, second: u64) -> bool
    ensures { result ≡ condition_holds Width.W64 condition first second }
{
    match condition {
        Condition::Eq => first == second,
        Condition::Gt => first > second,
        Condition::Ge => first >= second,
        Condition::Set => first & second != 0,
        Condition::Ne => first != second,
        Condition::SignedGt => first.cast_signed() > second.cast_signed(),
        Condition::SignedGe => first.cast_signed() >= second.cast_signed(),
        Condition::Lt => first < second,
        Condition::Le => first <= second,
        Condition::SignedLt => first.cast_signed() < second.cast_signed(),
        Condition::SignedLe => first.cast_signed() <= second.cast_signed(),
    }
}

#[tactic(auto, unfolding(machine::specs::Arithmetic::condition_holds))]
fn compared_32(condition: Condition, first: u32, second: u32) -> bool
    ensures { result ≡ condition_holds Width.W32 condition first second }
{
    match condition {
        Condition::Eq => first == second,
        Condition::Gt => first > second,
        Condition::Ge => first >= second,
        Condition::Set => first & second != 0,
        Condition::Ne => first != second,
        Condition::SignedGt => first.cast_signed() > second.cast_signed(),
        Condition::SignedGe => first.cast_signed() >= second.cast_signed(),
        Condition::Lt => first < second,
        Condition::Le => first <= second,
        Condition::SignedLt => first.cast_signed() < second.cast_signed(),
        Condition::SignedLe => first.cast_signed() <= second.cast_signed(),
    }
}
