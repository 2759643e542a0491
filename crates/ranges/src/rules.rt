//! The rules of an instruction at a state, with guards or without. With guards some are lifted, and a register may be read
//! where it isn't unset.

ghost use Rattle.std.specs.Prelude.{◌≡◌, ◌||◌, [], ◌∷◌, pos, Some, None, OnOk, IfErr};
ghost use Rattle.base.specs.Check.{first_failing, check};
ghost use Rattle.machine.specs.Memory.{byte_count, plain_size};
ghost use Rattle.machine.specs.Step.{source_registers, operands};
ghost use Rattle.ranges.specs.Kinds.{is_number};
ghost use Rattle.ranges.specs.Reading.{value, second};
ghost use Rattle.ranges.specs.Places.{place_of, is_inside, none_is, is_group, Fits};
ghost use Rattle.ranges.specs.Rules.{number_rules, may_compute, compares, is_null_test, is_zero, is_equality, may_be_null, has_no, is_whole, load_rules, store_rules, call_rules, rules, rules_with, are_read, are_numbers, reads, computes};
ghost use Rattle.ranges.specs.Seen.{kind_of};
ghost use Rattle.ranges.specs.SeenStates.{state_of};
ghost use Rattle.std.specs.Int.{cast_unsigned, w32};
ghost use Rattle.std.specs.Option.{option_map_or};
ghost use Rattle.helpers.specs.Queries.{registers_of};
ghost use Rattle.bpf_isa.specs.declared.instr.Source.TheVariants as operand;

use crate::bytes::{has_no, is_whole};
use crate::place::{AccessPlace, ByteMark, place_of};
use crate::pointers::move_pointer;
use crate::reads::{are_both_read, are_operands_read, are_two_read, is_read, is_register_read};
use crate::state::State;
use crate::value::Value;
use arithmetic::{byte_count, plain_size};
use base::causes::VerifierCause;
use bpf_isa::instr::{Condition, Instr, Operator, Size, Source, Width};
use bpf_isa::register::Register;
use helpers::{Arity, Helper};
use intervals::Bounds;

/// Whether arithmetic may take these operands.
#[tactic(auto, unfolding(crate::specs::Rules::may_compute))]
fn may_compute(width: Width, operator: Operator, first: Value, other: Value) -> bool
    ensures { result ≡ may_compute width operator (kind_of first) (kind_of other) }
{
    let numbers = first.is_number() && other.is_number();
    match (width, operator) {
        (Width::W64, Operator::Mov) => true,
        (Width::W32, Operator::Mov) => other.is_number(),
        (Width::W64, Operator::Add) => numbers || move_pointer(false, first, other).is_some(),
        (Width::W64, Operator::Sub) => numbers || move_pointer(true, first, other).is_some(),
        _ => numbers,
    }
}

/// The rules of arithmetic: whether the registers may be read, and whether it may take what they hold.
fn breach_of_one(is_read: bool, may: bool) -> Option<VerifierCause>
    ensures { result ≡ first_failing (check VerifierCause.UnsetRegister is_read ∷ computes may ∷ []) }
{
    if !is_read {
        Some(VerifierCause::UnsetRegister)
    } else if !may {
        Some(VerifierCause::PointerArithmetic)
    } else {
        None
    }
}

/// Whether a jump tests the answer of helper 1 against 0.
#[tactic(auto, unfolding(crate::specs::Rules::is_null_test))]
pub(crate) fn is_null_test(
    width: Width,
    condition: Condition,
    source: &Source,
    value: Value,
) -> bool
    ensures { result ≡ is_null_test width condition source.now (kind_of value) }
{
    matches!(width, Width::W64)
        && matches!(condition, Condition::Eq | Condition::Ne)
        && is_zero(source)
        && matches!(value, Value::SectorOrNull)
}

/// Whether the second operand is the immediate 0.
fn is_zero(source: &Source) -> bool
    ensures { result ≡ is_zero source.now }
{
    match source {
        Source::Immediate(immediate) => *immediate == 0,
        Source::Register(_) => false,
    }
}

/// The first rule that a load breaks.
#[tactic(auto, unfolding(crate::specs::Rules::load_rules))]
fn load_breach(
    guards: bool,
    state: &State,
    base: Register,
    offset: i16,
    n: u64,
) -> Option<VerifierCause>
    ensures { result ≡ first_failing (load_rules guards (state_of state.now) base offset n) }
{
    if !is_register_read(guards, state, base) {
        return Some(VerifierCause::UnsetRegister);
    }
    if guards {
        return None;
    }
    let place = place_of(state.value(base), offset, n);
    if matches!(place, AccessPlace::Outside) {
        Some(VerifierCause::OutsideRegion)
    } else if !has_no(state, ByteMark::Unset, place, n) {
        Some(VerifierCause::UnsetByte)
    } else if !is_whole(place, n) && !has_no(state, ByteMark::Pointer, place, n) {
        Some(VerifierCause::PointerAsNumber)
    } else {
        None
    }
}

/// The first rule that a store breaks. `set` says whether the registers may be read that it reads.
#[tactic(auto, unfolding(crate::specs::Rules::store_rules))]
fn store_breach(
    guards: bool,
    state: &State,
    set: bool,
    stored: Value,
    base: Register,
    offset: i16,
    n: u64,
) -> Option<VerifierCause>
    ensures { result ≡ first_failing (store_rules guards (state_of state.now) set (kind_of stored) base offset n) }
{
    if !set {
        return Some(VerifierCause::UnsetRegister);
    }
    if guards {
        return None;
    }
    let value = state.value(base);
    let place = place_of(value, offset, n);
    if !value.is_base() {
        Some(VerifierCause::OutsideRegion)
    } else if !value.is_stack() {
        Some(VerifierCause::ReadOnly)
    } else if matches!(place, AccessPlace::Outside) {
        Some(VerifierCause::OutsideRegion)
    } else if !stored.is_number() && !is_whole(place, n) {
        Some(VerifierCause::PointerAsNumber)
    } else {
        None
    }
}

/// The first rule that arithmetic with two operands breaks.
fn arithmetic_breach(
    guards: bool,
    state: &State,
    width: Width,
    operator: Operator,
    dst: Register,
    source: &Source,
) -> Option<VerifierCause>
    ensures { result ≡ first_failing (reads guards (state_of state.now) (operands operator dst source.now) ∷ computes (guards || may_compute width operator (value (state_of state.now) dst) (second (state_of state.now) source.now)) ∷ []) }
{
    breach_of_one(
        are_operands_read(guards, state, operator, dst, source),
        guards || may_compute(width, operator, state.value(dst), state.second(source)),
    )
}

/// The first rule that arithmetic on one register breaks.
fn register_breach(guards: bool, state: &State, register: Register) -> Option<VerifierCause>
    ensures { result ≡ first_failing (reads guards (state_of state.now) (register ∷ []) ∷ computes (guards || is_number (value (state_of state.now) register)) ∷ []) }
{
    let value = state.value(register);
    breach_of_one(is_read(guards, value), guards || value.is_number())
}

/// The first rule that a conditional jump breaks.
#[tactic(auto, unfolding(crate::specs::Rules::compares))]
fn branch_breach(
    guards: bool,
    state: &State,
    width: Width,
    condition: Condition,
    dst: Register,
    source: &Source,
) -> Option<VerifierCause>
    ensures { result ≡ first_failing (reads guards (state_of state.now) (dst ∷ source_registers source.now) ∷ check VerifierCause.PointerAsNumber (guards || compares (state_of state.now) width condition dst source.now) ∷ []) }
{
    let first = state.value(dst);
    if !are_both_read(guards, state, dst, source) {
        Some(VerifierCause::UnsetRegister)
    } else if guards || is_null_test(width, condition, source, first) {
        None
    } else if !first.is_number() || !state.second(source).is_number() {
        Some(VerifierCause::PointerAsNumber)
    } else {
        None
    }
}

/// The first rule that the end of a program breaks.
fn exit_breach(guards: bool, state: &State) -> Option<VerifierCause>
    ensures { result ≡ first_failing (reads guards (state_of state.now) (0 ∷ []) ∷ check VerifierCause.PointerAsNumber (guards || is_number (value (state_of state.now) 0)) ∷ []) }
{
    let answer = state.at(0);
    if !is_read(guards, answer) {
        Some(VerifierCause::UnsetRegister)
    } else if !guards && !answer.is_number() {
        Some(VerifierCause::PointerAsNumber)
    } else {
        None
    }
}

/// The first rule that a call of helper 2 breaks.
#[tactic(auto, unfolding(crate::specs::Rules::call_rules))]
fn copy_breach(guards: bool, state: &State) -> Option<VerifierCause>
    ensures { result ≡ first_failing (call_rules guards (state_of state.now) Helper.Copy) }
{
    let (from, to, length) = (state.at(1), state.at(2), state.at(3));
    if !is_read(guards, from) || !is_read(guards, to) || !is_read(guards, length) {
        return Some(VerifierCause::UnsetRegister);
    }
    let may = guards || (from.is_number() && to.is_stack());
    if !may || !length.has_length() {
        Some(VerifierCause::HelperArgument)
    } else if !guards
        && matches!(
            place_of(to, 0, length.words().unsigned.low),
            AccessPlace::Outside
        )
    {
        Some(VerifierCause::OutsideRegion)
    } else {
        None
    }
}

/// The first rule that a call breaks: whether its arguments may be read, and whether it may take them.
fn argument_breach(are_read: bool, may: bool) -> Option<VerifierCause>
    ensures { result ≡ first_failing (check VerifierCause.UnsetRegister are_read ∷ check VerifierCause.HelperArgument may ∷ []) }
{
    if !are_read {
        Some(VerifierCause::UnsetRegister)
    } else if !may {
        Some(VerifierCause::HelperArgument)
    } else {
        None
    }
}

/// The first rule that a call of a helper breaks, by how many numbers it takes.
fn number_breach(guards: bool, state: &State, arity: Arity) -> Option<VerifierCause>
    ensures { result ≡ first_failing (reads guards (state_of state.now) (registers_of arity) ∷ check VerifierCause.HelperArgument (guards || are_numbers (state_of state.now) (registers_of arity)) ∷ []) }
{
    let (first, second, third) = (state.at(1), state.at(2), state.at(3));
    match arity {
        Arity::One => argument_breach(is_read(guards, first), guards || first.is_number()),
        Arity::Two => argument_breach(
            is_read(guards, first) && is_read(guards, second),
            guards || (first.is_number() && second.is_number()),
        ),
        Arity::Three => argument_breach(
            is_read(guards, first) && is_read(guards, second) && is_read(guards, third),
            guards || (first.is_number() && second.is_number() && third.is_number()),
        ),
    }
}

/// The first rule that a call of a helper breaks.
#[tactic(auto, unfolding(crate::specs::Rules::call_rules))]
fn call_breach(guards: bool, state: &State, helper: Helper) -> Option<VerifierCause>
    ensures { result ≡ first_failing (call_rules guards (state_of state.now) helper) }
{
    match helper {
        Helper::Copy => copy_breach(guards, state),
        Helper::Query(query) => number_breach(guards, state, query.arity()),
        _ => number_breach(guards, state, Arity::One),
    }
}

/// The first rule that a call of the helper of this number breaks.
fn numbered_breach(guards: bool, state: &State, number: i32) -> Option<VerifierCause>
    ensures { result ≡ first_failing (number_rules guards (state_of state.now) (cast_unsigned w32 number)) }
{
    let number = number.cast_unsigned();
    let helper = if guards {
        Helper::asked(number)
    } else {
        Helper::of(number)
    };
    match helper {
        Some(helper) => call_breach(guards, state, helper),
        None => Some(VerifierCause::UnknownHelper),
    }
}

/// The first rule that a store of a constant breaks.
fn constant_store_breach(
    guards: bool,
    state: &State,
    size: Size,
    base: Register,
    offset: i16,
    immediate: i32,
) -> Option<VerifierCause>
    ensures { result ≡ first_failing (store_rules guards (state_of state.now) (are_read guards (state_of state.now) (base ∷ [])) (second (state_of state.now) (operand.Immediate immediate)) base offset (byte_count size)) }
{
    let stored = Value::Num(Bounds::immediate(immediate));
    let set = is_register_read(guards, state, base);
    store_breach(guards, state, set, stored, base, offset, byte_count(size))
}

/// The first rule that a store of a register breaks.
fn register_store_breach(
    guards: bool,
    state: &State,
    size: Size,
    base: Register,
    offset: i16,
    src: Register,
) -> Option<VerifierCause>
    ensures { result ≡ first_failing (store_rules guards (state_of state.now) (are_read guards (state_of state.now) (base ∷ src ∷ [])) (value (state_of state.now) src) base offset (byte_count size)) }
{
    let set = are_two_read(guards, state, base, src);
    store_breach(
        guards,
        state,
        set,
        state.value(src),
        base,
        offset,
        byte_count(size),
    )
}

/// The first rule that an instruction breaks at a state, in the order of docs/VERIFIER.md, Rules at a
/// slot, with guards or without.
#[tactic(auto, unfolding(crate::specs::Rules::rules_with))]
pub fn broken_rule(guards: bool, instr: &Instr, state: &State) -> Option<VerifierCause>
    ensures { result ≡ first_failing (rules_with guards (state_of state.now) instr.now) }
{
    match instr {
        Instr::Arithmetic {
            width,
            operator,
            dst,
            source,
        } => arithmetic_breach(guards, state, *width, *operator, *dst, source),
        Instr::Negate { dst, .. } => register_breach(guards, state, *dst),
        Instr::SignExtend { src, .. } => register_breach(guards, state, *src),
        Instr::ByteOrder { dst, .. } => register_breach(guards, state, *dst),
        Instr::Jump { .. } | Instr::LongJump { .. } | Instr::CallLocal { .. } => None,
        Instr::Branch {
            width,
            condition,
            dst,
            source,
            ..
        } => branch_breach(guards, state, *width, *condition, *dst, source),
        Instr::CallHelper { number } => numbered_breach(guards, state, *number),
        Instr::Exit => exit_breach(guards, state),
        Instr::Load {
            size,
            base,
            offset,
            ..
        } => load_breach(guards, state, *base, *offset, byte_count(*size)),
        Instr::LoadSigned {
            size,
            base,
            offset,
            ..
        } => load_breach(guards, state, *base, *offset, byte_count(plain_size(*size))),
        Instr::StoreImmediate {
            size,
            base,
            offset,
            immediate,
        } => constant_store_breach(guards, state, *size, *base, *offset, *immediate),
        Instr::Store {
            size,
            base,
            offset,
            src,
        } => register_store_breach(guards, state, *size, *base, *offset, *src),
        Instr::LoadImmediate { .. } => None,
    }
}

/// Whether the rules without guards of an instruction hold at a state, or the first that is broken.
pub fn check(instr: &Instr, state: &State) -> Result<(), VerifierCause>
    ensures kept { OnOk result (first_failing (rules (state_of state.now) instr.now) ≡ None) }
    ensures broken { IfErr result (λ cause. first_failing (rules (state_of state.now) instr.now) ≡ Some cause) }
{
    match broken_rule(false, instr, state) {
        Some(cause) => Err(cause),
        None => Ok(()),
    }
}
