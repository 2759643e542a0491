//! What is known after an instruction.

ghost use Rattle.std.specs.Prelude.{◌≡◌, IsTrue};
ghost use Rattle.std.specs.Option.{option_map, option_or};
ghost use Rattle.machine.specs.Memory.{byte_count};
ghost use Rattle.intervals.specs.Spans.{span};
ghost use Rattle.intervals.specs.Reducing.{any_sign};
ghost use Rattle.intervals.specs.Results.{is_arithmetic};
ghost use Rattle.ranges.specs.Places.{Fits};
ghost use Rattle.ranges.specs.Kinds.{Num};
ghost use Rattle.ranges.specs.Reading.{any_word};
ghost use Rattle.ranges.specs.After.{number_result, result_kind, context_word, any_of, group_value, loaded_kind, answer_kind, after_of};
ghost use Rattle.ranges.specs.Seen.{kind_of};
ghost use Rattle.ranges.specs.SeenStates.{group_of, state_of};

use crate::bytes::is_group;
use crate::change::effect_after;
use crate::group::Group;
use crate::moving::lead;
use crate::place::AccessPlace;
use crate::pointers::move_pointer;
use crate::state::State;
use crate::value::Value;
use arithmetic::byte_count;
use bpf_isa::instr::{Instr, Operator, Size, Width};
use helpers::{Answer, Helper};
use intervals::{Bounds, Range, result_bounds};

/// What arithmetic makes of the words of two numbers; None where it leaves no word.
pub(crate) fn number_result(instr: &Instr, first: Value, other: Value) -> Option<Value>
    requires { IsTrue (is_arithmetic instr.now) }
    ensures { option_map kind_of result ≡ number_result instr.now (kind_of first) (kind_of other) }
{
    match result_bounds(instr, first.words(), other.words()) {
        Some(bounds) => Some(Value::Num(bounds)),
        None => None,
    }
}

/// A pointer that was moved, or else what arithmetic makes of numbers.
fn moved_or_computed(
    instr: &Instr,
    moved: Option<Value>,
    first: Value,
    other: Value,
) -> Option<Value>
    requires { IsTrue (is_arithmetic instr.now) }
    ensures { option_map kind_of result ≡ option_or (option_map kind_of moved) (number_result instr.now (kind_of first) (kind_of other)) }
{
    match moved {
        Some(value) => Some(value),
        None => number_result(instr, first, other),
    }
}

/// What arithmetic makes of dst and the second operand; None where it leaves no word.
#[tactic(auto, unfolding(crate::specs::After::result_kind))]
pub(crate) fn result_value(instr: &Instr, first: Value, other: Value) -> Option<Value>
    requires { IsTrue (is_arithmetic instr.now) }
    ensures { option_map kind_of result ≡ result_kind instr.now (kind_of first) (kind_of other) }
{
    match instr {
        Instr::Arithmetic {
            width: Width::W64,
            operator,
            ..
        } => match operator {
            Operator::Mov => Some(other),
            Operator::Add => moved_or_computed(
                instr,
                move_pointer(false, first, other),
                first,
                other,
            ),
            Operator::Sub => moved_or_computed(
                instr,
                move_pointer(true, first, other),
                first,
                other,
            ),
            _ => number_result(instr, first, other),
        },
        _ => number_result(instr, first, other),
    }
}

/// The numbers up to this one.
fn up_to(high: u64) -> Value
    ensures { kind_of result ≡ Num (any_sign (span 0 high)) }
{
    Value::Num(Bounds::of(Range::up_to(high)))
}

/// An aligned word of the context.
fn context_word(sectors: u32, at: u64) -> Value
    ensures { kind_of result ≡ context_word sectors at }
{
    if at == 0 {
        Value::Num(Bounds::constant(u64::from(sectors)))
    } else if at == 8 || at == 16 {
        up_to(65536)
    } else {
        Value::Num(Bounds::constant(0))
    }
}

/// Any number of a size.
pub(crate) fn any_of(size: Size) -> Value
    ensures { kind_of result ≡ any_of (byte_count size) }
{
    up_to(match size {
        Size::Byte => 0xff,
        Size::Half => 0xffff,
        Size::Word => 0xffff_ffff,
        Size::Double => u64::MAX,
    })
}

/// What a group gives to a load of its eight bytes.
fn group_value(group: Group) -> Value
    ensures { kind_of result ≡ group_value (group_of group) }
{
    match group {
        Group::Marked(_) => Value::Num(Bounds::full()),
        Group::Spilled(spill) => spill.value,
    }
}

/// What a load gives.
#[tactic(auto, unfolding(crate::specs::After::loaded_kind))]
pub(crate) fn load_result(state: &State, sectors: u32, place: AccessPlace, size: Size) -> Value
    requires { Fits place (byte_count size) }
    ensures { kind_of result ≡ loaded_kind sectors (state_of state.now).groups place (byte_count size) }
{
    match place {
        AccessPlace::Context(at) if is_group(at, byte_count(size)) => context_word(sectors, at),
        AccessPlace::Stack(at) if is_group(at, byte_count(size)) => group_value(state.group(
            (at / 8) as usize,
        )),
        _ => any_of(size),
    }
}

/// What a helper answers.
pub(crate) fn answer_value(helper: Helper) -> Value
    ensures { kind_of result ≡ answer_kind helper }
{
    match helper.answer() {
        Answer::Address => Value::SectorOrNull,
        Answer::UpTo(most) => up_to(most),
    }
}

/// The state after an instruction at whose state no rule is broken, on a device of that many sectors.
/// None where arithmetic leaves no word, so that no machine gets there. After a local call r0 is any
/// word. A jump leaves the state as it is, and so does the end of a function.
pub fn after(instr: &Instr, state: &State, sectors: u32) -> Option<State>
    ensures { option_map state_of result ≡ after_of sectors (state_of state.now) instr.now }
{
    let mut next = *state;
    if lead(&effect_after(false, instr, state, sectors), &mut next) {
        Some(next)
    } else {
        None
    }
}
