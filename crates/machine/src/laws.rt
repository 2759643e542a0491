//! Laws of the definitions. Nothing here is called.

ghost use Rattle.std.specs.Prelude.{◌≡◌, ◌-◌, ◌^◌};
ghost use Rattle.machine.specs.Arithmetic.{arithmetic, sign_extension, in_order};
ghost use Rattle.machine.specs.Footprint.{FootprintTells};
ghost use Rattle.machine.specs.Guards.{OneGuardedEnd, NoMemoryFault, GuardedFootprintTells, GuardsKeepVerdicts};
ghost use Rattle.machine.specs.Laws.{AreInOrder, OneJudgement};

use bpf_isa::instr::{Operator, Order, OrderSize, SignExtension, Width};

/// The values of arithmetic that docs/MACHINE.md works out.
#[tactic(auto, unfolding(crate::specs::Arithmetic::arithmetic, crate::specs::Arithmetic::operator_value))]
pub fn worked_arithmetic()
    ensures least_divided_by_minus_one { arithmetic Width.W64 Operator.SignedDiv (2 ^ 63) (2 ^ 64 - 1) ≡ 9223372036854775808 }
    ensures its_remainder { arithmetic Width.W64 Operator.SignedMod (2 ^ 63) (2 ^ 64 - 1) ≡ 0 }
    ensures modulo_by_zero { arithmetic Width.W64 Operator.Mod (2 ^ 63) 0 ≡ 9223372036854775808 }
    ensures divided_by_zero { arithmetic Width.W64 Operator.Div (2 ^ 63) 0 ≡ 0 }
    ensures least_half_divided { arithmetic Width.W32 Operator.SignedDiv (2 ^ 31) (2 ^ 64 - 1) ≡ 2147483648 }
    ensures its_half_remainder { arithmetic Width.W32 Operator.SignedMod (2 ^ 31) (2 ^ 64 - 1) ≡ 0 }
    ensures half_modulo_by_zero { arithmetic Width.W32 Operator.Mod 0x1_8000_0000 0 ≡ 2147483648 }
    ensures remainder_has_sign { arithmetic Width.W64 Operator.SignedMod (2 ^ 64 - 13) 3 ≡ 18446744073709551615 }
    ensures divided_unsigned { arithmetic Width.W64 Operator.Div 10 (2 ^ 64 - 1) ≡ 0 }
    ensures half_divided_unsigned { arithmetic Width.W32 Operator.Div (2 ^ 64 - 1) (2 ^ 64 - 1) ≡ 1 }
    ensures half_moved { arithmetic Width.W32 Operator.Mov 0 (2 ^ 64 - 1) ≡ 4294967295 }
    ensures half_wraps { arithmetic Width.W32 Operator.Add 4294967295 1 ≡ 0 }
    ensures count_masked { arithmetic Width.W64 Operator.Lsh 1 65 ≡ 2 }
    ensures sign_shifted { arithmetic Width.W64 Operator.Arsh (2 ^ 64 - 8) 1 ≡ 18446744073709551612 }
    ensures half_sign_shifted { arithmetic Width.W32 Operator.Arsh (2 ^ 64 - 8) 1 ≡ 4294967292 }
{}

/// The extensions and byte orders that docs/MACHINE.md works out.
#[tactic(auto, unfolding(crate::specs::Arithmetic::sign_extension, crate::specs::Arithmetic::kept_low, crate::specs::Arithmetic::turned_round))]
pub fn worked_bytes()
    ensures sign_of_byte { sign_extension SignExtension.From8To64 128 ≡ 18446744073709551488 }
    ensures sign_in_half { sign_extension SignExtension.From8To32 128 ≡ 4294967168 }
    ensures big { in_order Order.Big OrderSize.Bits16 0x1234 ≡ 13330 }
    ensures little { in_order Order.Little OrderSize.Bits64 0x1_0000_0000 ≡ 4294967296 }
    ensures swapped { in_order Order.Swap OrderSize.Bits32 0x1234_5678 ≡ 2018915346 }
{}

/// The checks of each instruction stand in the order of the fault table.
pub fn checks_in_order()
    ensures { AreInOrder }
{}

/// A program has at most one judgement.
pub fn one_judgement()
    ensures { OneJudgement }
{}

/// What a run comes to hangs on no sector but those of its footprint.
pub fn footprint_tells()
    ensures { FootprintTells }
{}

/// A program has at most one end with guards.
pub fn one_guarded_end()
    ensures { OneGuardedEnd }
{}

/// With guards no run stops at a fault of its memory.
pub fn no_memory_fault()
    ensures { NoMemoryFault }
{}

/// What a run with guards comes to hangs on no sector but those of its footprint.
pub fn guarded_footprint_tells()
    ensures { GuardedFootprintTells }
{}

/// Guards keep the verdict of a run whose steps write nothing but the frame at hand.
pub fn guards_keep_verdicts()
    ensures { GuardsKeepVerdicts }
{}
