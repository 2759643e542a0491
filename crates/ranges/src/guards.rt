//! Which slots are guarded.

ghost use Rattle.std.specs.Prelude.{◌≡◌, not, false};
ghost use Rattle.machine.specs.Memory.{byte_count, plain_size};
ghost use Rattle.std.specs.Option.{option_map_or};
ghost use Rattle.helpers.specs.Sums.{checksum_of};
ghost use Rattle.ranges.specs.Reading.{value};
ghost use Rattle.ranges.specs.Seen.{kind_of};
ghost use Rattle.ranges.specs.SeenStates.{state_of};
ghost use Rattle.ranges.specs.Guards.{is_read_place, is_own_place, is_guarded_call, is_guarded_sum, is_guarded};

use crate::place::{AccessPlace, is_own_memory, place_of};
use crate::state::State;
use crate::value::Value;
use arithmetic::{byte_count, plain_size};
use bpf_isa::instr::Instr;
use bpf_isa::register::Register;
use helpers::{Checksum, Helper};

/// Whether n bytes at a distance from a base lie in the stack of the frame at hand, or in the program's own memory.
fn is_own_place(base: Value, offset: i16, n: u64) -> bool
    ensures { result ≡ is_own_place (kind_of base) offset n }
{
    if is_own_memory(base, offset, n) {
        return true;
    }
    base.is_stack() && !matches!(place_of(base, offset, n), AccessPlace::Outside)
}

/// Whether a checksum is guarded.
fn is_guarded_sum(checksum: Checksum) -> bool
    ensures { result ≡ is_guarded_sum checksum }
{
    matches!(checksum, Checksum::OfMemory(_))
}

/// Whether a call of a number that is no helper's is guarded.
fn is_guarded_checksum(number: u32) -> bool
    ensures { result ≡ option_map_or is_guarded_sum (checksum_of number) false }
{
    match Checksum::of(number) {
        Some(checksum) => is_guarded_sum(checksum),
        None => false,
    }
}

/// Whether a call of a helper is guarded.
fn is_guarded_call(state: &State, helper: Helper) -> bool
    ensures { result ≡ is_guarded_call (state_of state.now) helper }
{
    match helper {
        Helper::Copy => !is_own_place(state.at(2), 0, state.at(3).words().unsigned.low),
        _ => false,
    }
}

/// Whether the place of a load isn't proved.
fn is_guarded_load(state: &State, base: Register, offset: i16, n: u64) -> bool
    ensures { result ≡ not (is_read_place (value (state_of state.now) base) offset n) }
{
    let base = state.value(base);
    matches!(place_of(base, offset, n), AccessPlace::Outside) && !is_own_memory(base, offset, n)
}

/// Whether a slot with an instruction is guarded at a state: it is a load, a store or a call of helper 2 whose place isn't
/// proved, or a checksum of memory.
#[tactic(auto, unfolding(crate::specs::Guards::is_guarded))]
pub fn is_guarded(instr: &Instr, state: &State) -> bool
    ensures { result ≡ is_guarded (state_of state.now) instr.now }
{
    match instr {
        Instr::Load {
            size,
            base,
            offset,
            ..
        } => is_guarded_load(state, *base, *offset, byte_count(*size)),
        Instr::LoadSigned {
            size,
            base,
            offset,
            ..
        } => is_guarded_load(state, *base, *offset, byte_count(plain_size(*size))),
        Instr::StoreImmediate {
            size,
            base,
            offset,
            ..
        }
        | Instr::Store {
            size,
            base,
            offset,
            ..
        } => !is_own_place(state.value(*base), *offset, byte_count(*size)),
        Instr::CallHelper { number } => match Helper::of(number.cast_unsigned()) {
            Some(helper) => is_guarded_call(state, helper),
            None => is_guarded_checksum(number.cast_unsigned()),
        },
        _ => false,
    }
}
