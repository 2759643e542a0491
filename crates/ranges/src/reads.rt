//! Which registers an instruction reads.

ghost use Rattle.std.specs.Prelude.{◌≡◌, [], ◌∷◌};
ghost use Rattle.machine.specs.Step.{source_registers, operands};
ghost use Rattle.ranges.specs.Reading.{value};
ghost use Rattle.ranges.specs.Rules.{is_read, are_read};
ghost use Rattle.ranges.specs.Seen.{kind_of};
ghost use Rattle.ranges.specs.SeenStates.{state_of};

use crate::state::State;
use crate::value::Value;
use bpf_isa::instr::{Operator, Source};
use bpf_isa::register::Register;

/// Whether what a register holds may be read: with guards, where it isn't unset.
pub(crate) fn is_read(guards: bool, value: Value) -> bool
    ensures { result ≡ is_read guards (kind_of value) }
{
    if guards {
        value.is_word()
    } else {
        value.is_set()
    }
}

/// Whether a register may be read.
pub(crate) fn is_register_read(guards: bool, state: &State, register: Register) -> bool
    ensures { result ≡ is_read guards (value (state_of state.now) register) }
{
    is_read(guards, state.value(register))
}

/// Whether the second operand may be.
fn is_source_read(guards: bool, state: &State, source: &Source) -> bool
    ensures { result ≡ are_read guards (state_of state.now) (source_registers source.now) }
{
    match source {
        Source::Immediate(_) => true,
        Source::Register(register) => is_register_read(guards, state, *register),
    }
}

/// Whether dst and the second operand may be.
pub(crate) fn are_both_read(guards: bool, state: &State, dst: Register, source: &Source) -> bool
    ensures { result ≡ are_read guards (state_of state.now) (dst ∷ source_registers source.now) }
{
    is_register_read(guards, state, dst) && is_source_read(guards, state, source)
}

/// Whether the operands of arithmetic may be. A move does not read dst.
pub(crate) fn are_operands_read(
    guards: bool,
    state: &State,
    operator: Operator,
    dst: Register,
    source: &Source,
) -> bool
    ensures { result ≡ are_read guards (state_of state.now) (operands operator dst source.now) }
{
    match operator {
        Operator::Mov => is_source_read(guards, state, source),
        _ => are_both_read(guards, state, dst, source),
    }
}

/// Whether two registers may be.
pub(crate) fn are_two_read(guards: bool, state: &State, first: Register, other: Register) -> bool
    ensures { result ≡ are_read guards (state_of state.now) (first ∷ other ∷ []) }
{
    is_register_read(guards, state, first) && is_register_read(guards, state, other)
}
