//! What an instruction makes of a state: what changes in it. A state is large, so that is said without a copy of it.

ghost use Rattle.std.specs.Prelude.{◌≡◌, ◌==◌, ◌<◌, nat_le, if◌then◌else◌, slice_index_or, []};
ghost use Rattle.std.specs.Option.{option_map, option_map_or};
ghost use Rattle.machine.specs.Memory.{byte_count};
ghost use Rattle.helpers.specs.declared.helper.Helper.TheVariants as helper;
ghost use Rattle.ranges.specs.After.{after_with, computed, after_answer, call_with, load_after, store_after, loosely_loaded, loosely_loaded_at, loosely_stored, groups_left, groups_forgotten};
ghost use Rattle.ranges.specs.Changing.{after_change, groups_after, left_of};
ghost use Rattle.ranges.specs.Groups.{Marked};
ghost use Rattle.ranges.specs.Kinds.{Num, Unset};
ghost use Rattle.ranges.specs.Passing.{edge_with};
ghost use Rattle.ranges.specs.Places.{place_of};
ghost use Rattle.ranges.specs.Reading.{any_word, with_groups, with_value};
ghost use Rattle.ranges.specs.Seen.{kind_of};
ghost use Rattle.ranges.specs.SeenStates.{group_of, state_of};

use crate::bytes::is_group;
use crate::edges::{is_equal_edge, tested_value};
use crate::effects::{answer_value, any_of, load_result, number_result, result_value};
use crate::group::Group;
use crate::place::{AccessPlace, is_own_memory, place_of};
use crate::rules::is_null_test;
use crate::spill::Spill;
use crate::state::State;
use crate::stretch::{GroupPlace, Stretch};
use crate::value::Value;
use crate::writes::group_beyond;
use arithmetic::byte_count;
use bpf_isa::instr::{Instr, Size, Source};
use bpf_isa::register::Register;
use helpers::Helper;
use intervals::{Bounds, refine_bounds};

/// What changes in a state.
#[derive(Clone, Copy)]
pub enum Change {
    /// Nothing does.
    Stays,
    /// A register.
    Register(Register, Value),
    /// Two registers, one after the other.
    Registers(Register, Value, Register, Value),
    /// Register 0, in which a call answers, and registers 1 to 5, which it unsets.
    Answer(Value),
    /// A group of the stack.
    Group(GroupPlace, Group),
    /// Bytes of the stack.
    Bytes(Stretch),
    /// Bytes of the stack, and the registers of the call that writes them.
    Copied(Stretch, Value),
}

/// What comes of a state.
#[derive(Clone, Copy)]
pub enum Effect {
    /// No state is left.
    Nothing,
    /// The state with a change is left.
    Changed(Change),
    /// The state at the entry of a local function that is called there is.
    Entered,
}

/// What stands at a place where another place, or the same, was changed.
#[inline(always)]
fn value_after(n: usize, value: Value, k: usize, other: Value) -> Value
    ensures { kind_of result ≡ (if n == k then kind_of value else kind_of other) }
{
    if n == k { value } else { other }
}

/// What register k holds after a call.
#[inline(always)]
fn answer_after(answer: Value, k: usize, other: Value) -> Value
    ensures { kind_of result ≡ (if k == 0 then kind_of answer else if nat_le k 5 then Unset else kind_of other) }
{
    if k == 0 {
        answer
    } else if k <= 5 {
        Value::Unset
    } else {
        other
    }
}

/// What stands in group k where group n was changed.
#[inline(always)]
fn group_replaced(n: usize, group: Group, k: usize, other: Group) -> Group
    ensures { group_of result ≡ (if n == k then group_of group else group_of other) }
{
    if n == k { group } else { other }
}

/// Group k of a state's stack after a change of bytes.
fn group_changed(bytes: Stretch, state: &State, k: usize) -> Group
    requires { k < 64 }
    ensures { group_of result ≡ slice_index_or (groups_after bytes.are_set bytes.at bytes.n (state_of state.now).groups) k (Marked []) }
{
    group_beyond(bytes, k, state.group(k))
}

impl Change {
    ghost use Rattle.std.specs.Prelude.{◌≡◌, ◌<◌, slice_index_or, []};
    ghost use Rattle.ranges.specs.Changing.{after_change};
    ghost use Rattle.ranges.specs.Groups.{Marked};
    ghost use Rattle.ranges.specs.Reading.{value};
    ghost use Rattle.ranges.specs.Seen.{kind_of};
    ghost use Rattle.ranges.specs.SeenStates.{group_of, state_of};

    /// What register k of a state holds after the change.
    #[inline(always)]
    pub fn value_at(&self, state: &State, k: usize) -> Value
        requires { k < 11 }
        ensures { kind_of result ≡ value (after_change (state_of state.now) self.now) k }
    {
        match self {
            Change::Register(r, value) => value_after(r.number(), *value, k, state.at(k)),
            Change::Registers(r, value, q, other) => value_after(
                q.number(),
                *other,
                k,
                value_after(r.number(), *value, k, state.at(k)),
            ),
            Change::Answer(value) | Change::Copied(_, value) => {
                answer_after(*value, k, state.at(k))
            }
            Change::Stays | Change::Group(_, _) | Change::Bytes(_) => state.at(k),
        }
    }

    /// Group k of a state's stack after the change.
    #[inline(always)]
    pub fn group_at(&self, state: &State, k: usize) -> Group
        requires { k < 64 }
        ensures { group_of result ≡ slice_index_or (after_change (state_of state.now) self.now).groups k (Marked []) }
    {
        match self {
            Change::Group(n, group) => group_replaced(n.number, *group, k, state.group(k)),
            Change::Bytes(bytes) | Change::Copied(bytes, _) => group_changed(*bytes, state, k),
            Change::Stays
            | Change::Register(_, _)
            | Change::Registers(_, _, _, _)
            | Change::Answer(_) => state.group(k),
        }
    }
}

/// Any word in a register where a rule is broken; else a value, if there is one.
fn put(loose: bool, state: &State, register: Register, value: Option<Value>) -> Effect
    ensures { left_of (state_of state.now) result ≡ option_map (with_value (state_of state.now) register) (computed loose (option_map kind_of value)) }
{
    let _state = state;
    if loose {
        return Effect::Changed(Change::Register(register, Value::Word));
    }
    match value {
        Some(value) => Effect::Changed(Change::Register(register, value)),
        None => Effect::Nothing,
    }
}

/// The bytes of which nothing is known after a store whose rules are broken: those of its place in the stack, or all.
#[tactic(auto, using(crate::proofs::Writing::all_forgotten), unfolding(crate::specs::After::groups_forgotten, crate::specs::Changing::groups_after))]
fn bytes_forgotten(state: &State, base: Value, offset: i16, n: u64) -> Stretch
    ensures { groups_after result.are_set result.at result.n (state_of state.now).groups ≡ groups_forgotten (state_of state.now).groups (place_of (kind_of base) offset n) n }
{
    let _state = state;
    match place_of(base, offset, n) {
        AccessPlace::Stack(at) => Stretch {
            at,
            n,
            are_set: false,
        },
        _ => Stretch {
            at: 0,
            n: 512,
            are_set: false,
        },
    }
}

/// A store whose rules are broken. One to the program's own memory leaves the frame as it is.
fn store_loosely(state: &State, base: Value, offset: i16, n: u64) -> Change
    ensures { after_change (state_of state.now) result ≡ with_groups (state_of state.now) (groups_left (state_of state.now).groups (kind_of base) offset n) }
{
    if is_own_memory(base, offset, n) {
        return Change::Stays;
    }
    Change::Bytes(bytes_forgotten(state, base, offset, n))
}

/// A store. Outside of the stack nothing changes where no rule is broken.
#[tactic(auto, unfolding(crate::specs::After::stored_groups, crate::specs::Changing::groups_after, crate::specs::After::groups_after_write))]
fn store(
    loose: bool,
    state: &State,
    value: Value,
    size: Size,
    base: Register,
    offset: i16,
) -> Change
    ensures { after_change (state_of state.now) result ≡ (if loose then loosely_stored (state_of state.now) base offset (byte_count size) else store_after (state_of state.now) (kind_of value) size base offset) }
{
    let n = byte_count(size);
    let base = state.value(base);
    if loose {
        return store_loosely(state, base, offset, n);
    }
    match place_of(base, offset, n) {
        AccessPlace::Stack(at) => if value.is_set() && is_group(at, n) {
            let number = (at / 8) as usize;
            Change::Group(GroupPlace { number }, Group::Spilled(Spill { value }))
        } else {
            Change::Bytes(Stretch {
                at,
                n,
                are_set: true,
            })
        },
        _ => Change::Stays,
    }
}

/// What a load gives whose rules are broken.
fn loosely_loaded(size: Size) -> Value
    ensures { kind_of result ≡ loosely_loaded size }
{
    match size {
        Size::Double => Value::Word,
        _ => any_of(size),
    }
}

/// The same, by its place.
fn loosely_loaded_at(state: &State, size: Size, base: Register, offset: i16) -> Value
    ensures { kind_of result ≡ loosely_loaded_at (state_of state.now) size base offset }
{
    if is_own_memory(state.value(base), offset, byte_count(size)) {
        any_of(size)
    } else {
        loosely_loaded(size)
    }
}

/// A load.
fn load(
    loose: bool,
    state: &State,
    sectors: u32,
    dst: Register,
    size: Size,
    base: Register,
    offset: i16,
) -> Change
    ensures { after_change (state_of state.now) result ≡ (if loose then with_value (state_of state.now) dst (loosely_loaded_at (state_of state.now) size base offset) else load_after sectors (state_of state.now) dst size base offset) }
{
    if loose {
        return Change::Register(dst, loosely_loaded_at(state, size, base, offset));
    }
    let place = place_of(state.value(base), offset, byte_count(size));
    Change::Register(dst, load_result(state, sectors, place, size))
}

/// A call of helper 2, which writes bytes of the stack.
#[tactic(auto, unfolding(crate::specs::After::call_with, crate::specs::Changing::groups_after, crate::specs::After::groups_after_write))]
fn copy(loose: bool, state: &State) -> Change
    ensures { after_change (state_of state.now) result ≡ call_with loose (state_of state.now) helper.Copy }
{
    let n = state.at(3).words().unsigned.low;
    let base = state.at(2);
    let answer = answer_value(Helper::Copy);
    if loose && is_own_memory(base, 0, n) {
        return Change::Answer(answer);
    }
    if loose {
        return Change::Copied(bytes_forgotten(state, base, 0, n), answer);
    }
    match place_of(base, 0, n) {
        AccessPlace::Stack(at) => Change::Copied(
            Stretch {
                at,
                n,
                are_set: true,
            },
            answer,
        ),
        _ => Change::Answer(answer),
    }
}

/// A call of a helper.
#[tactic(auto, unfolding(crate::specs::After::call_with))]
fn call(loose: bool, state: &State, helper: Option<Helper>) -> Change
    ensures { after_change (state_of state.now) result ≡ option_map_or (call_with loose (state_of state.now)) helper (after_answer (state_of state.now) (Num any_word)) }
{
    match helper {
        Some(Helper::Copy) => copy(loose, state),
        Some(other) => Change::Answer(answer_value(other)),
        None => Change::Answer(Value::Num(Bounds::full())),
    }
}

/// What comes of a state after an instruction that is no conditional jump. `loose` says that a rule is broken there that guards
/// lift; where none is, it is what `after` says.
#[tactic(auto, unfolding(crate::specs::After::after_with))]
pub fn effect_after(loose: bool, instr: &Instr, state: &State, sectors: u32) -> Effect
    ensures { left_of (state_of state.now) result ≡ after_with loose sectors (state_of state.now) instr.now }
{
    match instr {
        Instr::Arithmetic { dst, source, .. } => {
            let value = result_value(instr, state.value(*dst), state.second(source));
            put(loose, state, *dst, value)
        }
        Instr::Negate { dst, .. } | Instr::ByteOrder { dst, .. } => {
            let value = number_result(instr, state.value(*dst), Value::Unset);
            put(loose, state, *dst, value)
        }
        Instr::SignExtend { dst, src, .. } => {
            let value = number_result(instr, Value::Unset, state.value(*src));
            put(loose, state, *dst, value)
        }
        Instr::Load {
            size,
            dst,
            base,
            offset,
        } => Effect::Changed(load(loose, state, sectors, *dst, *size, *base, *offset)),
        Instr::LoadSigned { dst, .. } => Effect::Changed(Change::Register(
            *dst,
            Value::Num(Bounds::full()),
        )),
        Instr::StoreImmediate {
            size,
            base,
            offset,
            immediate,
        } => {
            let value = Value::Num(Bounds::immediate(*immediate));
            Effect::Changed(store(loose, state, value, *size, *base, *offset))
        }
        Instr::Store {
            size,
            base,
            offset,
            src,
        } => {
            let value = state.value(*src);
            Effect::Changed(store(loose, state, value, *size, *base, *offset))
        }
        Instr::LoadImmediate { dst, value } => Effect::Changed(Change::Register(
            *dst,
            Value::Num(Bounds::constant(*value)),
        )),
        Instr::CallHelper { number } => {
            let helper = Helper::asked(number.cast_unsigned());
            Effect::Changed(call(loose, state, helper))
        }
        Instr::CallLocal { .. } => Effect::Changed(Change::Answer(Value::Num(Bounds::full()))),
        Instr::Jump { .. } | Instr::LongJump { .. } | Instr::Branch { .. } | Instr::Exit => {
            Effect::Changed(Change::Stays)
        }
    }
}

/// What comes of a state along an edge of a conditional jump. `loose` says that a rule is broken there that guards lift; where
/// none is, it is what `branch` says.
#[tactic(auto, unfolding(crate::specs::Passing::edge_with))]
pub fn effect_along(loose: bool, instr: &Instr, taken: bool, state: &State) -> Effect
    ensures { left_of (state_of state.now) result ≡ edge_with loose (state_of state.now) instr.now taken }
{
    match instr {
        Instr::Branch {
            width,
            condition,
            dst,
            source,
            ..
        } => {
            if loose {
                return Effect::Changed(Change::Stays);
            }
            let (first, other) = (state.value(*dst), state.second(source));
            if is_null_test(*width, *condition, source, first) {
                let value = tested_value(is_equal_edge(*condition, taken));
                return Effect::Changed(Change::Register(*dst, value));
            }
            let refined = refine_bounds(instr, taken, first.words(), other.words());
            match (source, refined) {
                (_, None) => Effect::Nothing,
                (Source::Immediate(_), Some(bounds)) => Effect::Changed(Change::Register(
                    *dst,
                    Value::Num(bounds.0),
                )),
                (Source::Register(src), Some(bounds)) => Effect::Changed(Change::Registers(
                    *dst,
                    Value::Num(bounds.0),
                    *src,
                    Value::Num(bounds.1),
                )),
            }
        }
        _ => Effect::Changed(Change::Stays),
    }
}
