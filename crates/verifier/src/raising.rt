//! What the rules with signed bounds make of a table of those without them.

ghost use Rattle.std.specs.Prelude.{◌≡◌, ◌<◌, ◌^◌, ℕ, List, Option, IfOk, IsTrue, map, length, take};
ghost use Rattle.std.specs.Option.{option_map};
ghost use Rattle.bpf_isa.specs.declared.instr.Instr.{Instr};
ghost use Rattle.bpf_isa.specs.Program.{IsProgram};
ghost use Rattle.ranges.specs.Seen.{kind_of};
ghost use Rattle.ranges.specs.SeenStates.{group_of, state_of};
ghost use Rattle.verifier.specs.Seen.{table_of};
ghost use Rattle.verifier.specs.Good.{IsGood};
ghost use Rattle.verifier.specs.Unsigned.{IsUnsignedGood};
ghost use Rattle.verifier.specs.SeenUnsigned.{pointer_kind, unsigned_kind, unsigned_group, unsigned_state, unsigned_table};

use crate::laws::unsigned_stays_good;
use crate::table::Table;
use crate::unsigned_state::{Pointer, UnsignedGroup, UnsignedState, UnsignedValue};
use intervals::Bounds;
use ranges::{ByteMarks, Group, Spill, State, Value};
use std::alloc::{AllocError, Global};

/// No byte is written.
const UNSET: Group = Group::Marked(ByteMarks {
    written: [false; 8],
});

/// What the rules without signed bounds and spilled numbers know at each slot of a program. Contracts see
/// the list of the states that hold the same, each number with all readings of its words.
#[derive(Drop)]
pub struct UnsignedTable {
    /// The first is that of slot 0. In a second half, and in a slot that no run reaches, there mostly is none.
    pub states: Vec<Option<UnsignedState>>,
}

/// The pointer as a value.
fn raised_pointer(pointer: Pointer) -> Value
    ensures { kind_of result ≡ pointer_kind pointer }
{
    match pointer {
        Pointer::Ctx(o) => Value::Ctx(o),
        Pointer::Stack(o) => Value::Stack(o),
        Pointer::Sector(x) => Value::Sector(x),
        Pointer::SectorOrNull => Value::SectorOrNull,
    }
}

/// The value with a full signed range for a number, reduced.
fn raised_value(value: UnsignedValue) -> Value
    ensures { kind_of result ≡ unsigned_kind value }
{
    match value {
        UnsignedValue::Unset => Value::Unset,
        UnsignedValue::Num(range) => Value::Num(Bounds::of(range)),
        UnsignedValue::Pointer(pointer) => raised_pointer(pointer),
    }
}

/// The bytes as they are.
fn raised_group(group: UnsignedGroup) -> Group
    ensures { group_of result ≡ unsigned_group group }
{
    match group {
        UnsignedGroup::Marked(marks) => Group::Marked(marks),
        UnsignedGroup::Spilled(pointer) => Group::Spilled(Spill {
            value: raised_pointer(pointer),
        }),
    }
}

fn raised_values(x: &[UnsignedValue; 11]) -> [Value; 11]
    ensures { map kind_of result ≡ map unsigned_kind x.now }
{
    let mut values = [Value::Unset; 11];
    for k in 0..11 {
        values[k] = raised_value(x[k]);
    }
    values
}

fn raised_groups(x: &[UnsignedGroup; 64]) -> [Group; 64]
    ensures { map group_of result ≡ map unsigned_group x.now }
{
    let mut groups = [UNSET; 64];
    for k in 0..64 {
        groups[k] = raised_group(x[k]);
    }
    groups
}

/// The state with signed bounds.
fn raised_state(state: &UnsignedState) -> State
    ensures { state_of result ≡ unsigned_state state.now }
{
    State {
        values: raised_values(&state.values),
        groups: raised_groups(&state.groups),
    }
}

/// The state with signed bounds, if there is one.
fn raised_one(state: &Option<UnsignedState>) -> Option<State>
    ensures { option_map state_of result ≡ option_map unsigned_state state.now }
{
    match state {
        Some(state) => Some(raised_state(state)),
        None => None,
    }
}

fn raised_states(
    alloc: Global,
    known: &[Option<UnsignedState>],
) -> Result<Vec<Option<State>>, AllocError>
    ensures { IfOk result (λ states. table_of states.items ≡ unsigned_table known.now) }
{
    let mut states = Vec::new(alloc);
    for state in known.iter() {
        states.push(raised_one(state))?;
    }
    Ok(states)
}

/// The table under the rules with signed bounds: each number gets a full signed range and is reduced, and
/// the bytes stay. If it is good for a program and a number of sectors without signed bounds, it is good
/// for them. An error is want of memory.
pub fn raise(alloc: Global, table: &UnsignedTable) -> Result<Table, AllocError>
    ensures same { IfOk result (λ raised. raised ≡ unsigned_table table.now.states.items) }
    ensures good { IfOk result (λ raised. (program : List (Option Instr)) (sectors : ℕ) → sectors < 2 ^ 64 → IsProgram program → IsUnsignedGood program sectors (unsigned_table table.now.states.items) → IsGood program sectors raised) }
{
    unsigned_stays_good();
    let states = raised_states(alloc, table.states.as_slice())?;
    Ok(Table::of(states))
}
