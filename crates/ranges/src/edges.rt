//! What is known on the edges of a conditional jump, and at the entry of a local function.

ghost use Rattle.std.specs.Prelude.{◌≡◌, IsTrue};
ghost use Rattle.std.specs.Option.{option_map};
ghost use Rattle.ranges.specs.Passing.{is_equal_edge, tested_kind, edge_of, argument_kind, entry_state};
ghost use Rattle.ranges.specs.Seen.{kind_of};
ghost use Rattle.ranges.specs.SeenStates.{state_of};

use crate::change::effect_along;
use crate::group::UNSET;
use crate::moving::lead;
use crate::state::State;
use crate::value::{SectorOffsets, StackOffset, Value};
use bpf_isa::instr::{Condition, Instr};
use intervals::Bounds;

/// Whether an edge of a null test says that the register is 0.
pub(crate) fn is_equal_edge(condition: Condition, taken: bool) -> bool
    ensures { result ≡ is_equal_edge condition taken }
{
    match condition {
        Condition::Eq => taken,
        _ => !taken,
    }
}

/// The answer of helper 1 after a null test.
pub(crate) fn tested_value(is_zero: bool) -> Value
    ensures { kind_of result ≡ tested_kind is_zero }
{
    if is_zero {
        Value::Num(Bounds::constant(0))
    } else {
        Value::Sector(SectorOffsets { low: 0, high: 0 })
    }
}

/// The state on an edge of a conditional jump at whose state no rule is broken, the edge that is taken
/// where the condition holds or the other; None where no machine goes that way. An instruction that is
/// no conditional jump leaves the state as it is.
pub fn branch(instr: &Instr, taken: bool, state: &State) -> Option<State>
    ensures { option_map state_of result ≡ edge_of (state_of state.now) instr.now taken }
{
    let mut next = *state;
    if lead(&effect_along(false, instr, taken, state), &mut next) {
        Some(next)
    } else {
        None
    }
}

/// What a local function is given of a register: a number, or a word, and no pointer.
fn argument_value(value: Value) -> Value
    ensures { kind_of result ≡ argument_kind (kind_of value) }
{
    match value {
        Value::Num(_) | Value::Unset => value,
        _ => Value::Word,
    }
}

/// The state at the entry of a local function that is called at a state: r1 to r5, of which only numbers
/// are known, r10 the end of a stack of its own, and nothing else.
#[tactic(auto, unfolding(crate::specs::Passing::entry_state, crate::specs::States::unset_groups))]
pub fn entry(state: &State) -> State
    ensures { state_of result ≡ entry_state (state_of state.now) }
{
    let unset = Value::Unset;
    let stack = Value::Stack(StackOffset { offset: 512 });
    State {
        values: [
            unset,
            argument_value(state.at(1)),
            argument_value(state.at(2)),
            argument_value(state.at(3)),
            argument_value(state.at(4)),
            argument_value(state.at(5)),
            unset,
            unset,
            unset,
            unset,
            stack,
        ],
        groups: [UNSET; 64],
    }
}
