//! One instruction from the fields of its slots, a function for each form.
//!
//! Each answers the first test of its form that fails, in the order register, other field, second
//! slot, or else the instruction that the fields spell.
#![tactic(auto, unfolding(crate::specs::Faults::checks, crate::specs::Faults::layout_of, crate::specs::Spelling::fields_of, crate::specs::Spelling::IsInRange))]

ghost use Rattle.std.specs.Prelude.{Option, ◌≡◌, ◌≢◌, IfOk, IfSome, is_some, List, [], ◌∷◌, nat_lt, if◌then◌else◌, true, false};
ghost use Rattle.base.specs.Check.{first_failing};
ghost use Rattle.bpf_isa.specs.Table.{opcode_of, form_of, operator_code};
ghost use Rattle.bpf_isa.specs.Fields.{fields};
ghost use Rattle.bpf_isa.specs.Spelling.{operator_offset, extension_width, extension_offset, order_immediate};
ghost use Rattle.bpf_isa.specs.Faults.{checks, slot_checks, offsets_of, move_offsets, is_one_of, is_second};
ghost use Rattle.bpf_isa.specs.Decoding.{refusal, IsSpelled};
ghost use Rattle.bpf_isa.specs.declared.fields.Fields.{Fields};
ghost use Rattle.bpf_isa.specs.declared.form.OpcodeForm.TheVariants as form;
ghost use Rattle.bpf_isa.specs.declared.instr.Operator.TheVariants as op;

use crate::fields::Fields;
use crate::form::{OpcodeForm, known_form};
use crate::instr::{
    Condition, Instr, Operator, Order, OrderSize, SignExtension, SignedSize, Size, Source, Width,
};
use crate::register::Register;
use base::causes::CodeCause;

/// The register of this number.
fn register(number: u8) -> Result<Register, CodeCause>
    ensures { result ≡ (if nat_lt number 11 then Ok number else Err CodeCause.Register) }
{
    match Register::new(number) {
        Some(register) => Ok(register),
        None => Err(CodeCause::Register),
    }
}

/// The operator of this code with this offset.
fn with_offset(operator: Operator, offset: u16) -> Option<Operator>
    ensures code { IfSome result (λ o. operator_code o ≡ operator_code operator) }
    ensures offset { IfSome result (λ o. operator_offset o ≡ offset) }
    ensures known { is_some result ≡ is_one_of (offsets_of operator) offset }
{
    match (operator, offset) {
        (Operator::Div | Operator::SignedDiv, 0) => Some(Operator::Div),
        (Operator::Div | Operator::SignedDiv, 1) => Some(Operator::SignedDiv),
        (Operator::Mod | Operator::SignedMod, 0) => Some(Operator::Mod),
        (Operator::Mod | Operator::SignedMod, 1) => Some(Operator::SignedMod),
        (_, 0) => Some(operator),
        _ => None,
    }
}

/// The move that extends the sign to this width with this offset.
fn extension(width: Width, offset: u16) -> Option<SignExtension>
    requires { offset ≢ 0 }
    ensures width { IfSome result (λ e. extension_width e ≡ width) }
    ensures offset { IfSome result (λ e. extension_offset e ≡ offset) }
    ensures known { is_some result ≡ is_one_of (move_offsets width) offset }
{
    match (width, offset) {
        (Width::W64, 8) => Some(SignExtension::From8To64),
        (Width::W64, 16) => Some(SignExtension::From16To64),
        (Width::W64, 32) => Some(SignExtension::From32To64),
        (Width::W32, 8) => Some(SignExtension::From8To32),
        (Width::W32, 16) => Some(SignExtension::From16To32),
        _ => None,
    }
}

/// The size of a byte swap with this immediate.
fn order_size(immediate: u32) -> Option<OrderSize>
    ensures immediate { IfSome result (λ s. order_immediate s ≡ immediate) }
    ensures known { is_some result ≡ is_one_of (16 ∷ 32 ∷ 64 ∷ []) immediate }
{
    match immediate {
        16 => Some(OrderSize::Bits16),
        32 => Some(OrderSize::Bits32),
        64 => Some(OrderSize::Bits64),
        _ => None,
    }
}

/// Arithmetic with a constant.
#[tactic(auto, using(crate::proofs::Table::same_opcode), unfolding(crate::specs::Faults::checks, crate::specs::Faults::layout_of, crate::specs::Spelling::fields_of, crate::specs::Spelling::IsInRange))]
fn arithmetic_immediate(width: Width, operator: Operator, slot: Fields) -> Result<Instr, CodeCause>
    requires { opcode_of (form.Arithmetic width operator false) ≡ slot.opcode }
    ensures exact { (next : Option Fields) → first_failing (checks (form.Arithmetic width operator false) slot next) ≡ refusal result }
    ensures read { (next : Option Fields) → IfOk result (λ i. IsSpelled slot next i) }
{
    let dst = register(slot.dst)?;
    if slot.src != 0 {
        return Err(CodeCause::Field);
    }
    let Some(operator) = with_offset(operator, slot.offset) else {
        return Err(CodeCause::Field);
    };
    let source = Source::Immediate(slot.immediate.cast_signed());
    Ok(Instr::Arithmetic {
        width,
        operator,
        dst,
        source,
    })
}

/// Arithmetic with a register, but for a move.
#[tactic(auto, using(crate::proofs::Table::same_opcode), unfolding(crate::specs::Faults::checks, crate::specs::Faults::layout_of, crate::specs::Spelling::fields_of, crate::specs::Spelling::IsInRange))]
fn arithmetic_register(width: Width, operator: Operator, slot: Fields) -> Result<Instr, CodeCause>
    requires opcode { opcode_of (form.Arithmetic width operator true) ≡ slot.opcode }
    requires other { operator ≢ op.Mov }
    ensures exact { (next : Option Fields) → first_failing (checks (form.Arithmetic width operator true) slot next) ≡ refusal result }
    ensures read { (next : Option Fields) → IfOk result (λ i. IsSpelled slot next i) }
{
    let dst = register(slot.dst)?;
    let src = register(slot.src)?;
    if slot.immediate != 0 {
        return Err(CodeCause::Field);
    }
    let Some(operator) = with_offset(operator, slot.offset) else {
        return Err(CodeCause::Field);
    };
    Ok(Instr::Arithmetic {
        width,
        operator,
        dst,
        source: Source::Register(src),
    })
}

/// A move from a register, of all its bits or of the low ones with their sign.
fn move_register(width: Width, slot: Fields) -> Result<Instr, CodeCause>
    requires { opcode_of (form.Arithmetic width op.Mov true) ≡ slot.opcode }
    ensures exact { (next : Option Fields) → first_failing (checks (form.Arithmetic width op.Mov true) slot next) ≡ refusal result }
    ensures read { (next : Option Fields) → IfOk result (λ i. IsSpelled slot next i) }
{
    let dst = register(slot.dst)?;
    let src = register(slot.src)?;
    if slot.immediate != 0 {
        return Err(CodeCause::Field);
    }
    if slot.offset == 0 {
        return Ok(Instr::Arithmetic {
            width,
            operator: Operator::Mov,
            dst,
            source: Source::Register(src),
        });
    }
    let Some(extension) = extension(width, slot.offset) else {
        return Err(CodeCause::Field);
    };
    Ok(Instr::SignExtend {
        extension,
        dst,
        src,
    })
}

/// The negation of a register.
fn negate(width: Width, slot: Fields) -> Result<Instr, CodeCause>
    requires { opcode_of (form.Negate width) ≡ slot.opcode }
    ensures exact { (next : Option Fields) → first_failing (checks (form.Negate width) slot next) ≡ refusal result }
    ensures read { (next : Option Fields) → IfOk result (λ i. IsSpelled slot next i) }
{
    let dst = register(slot.dst)?;
    if slot.src != 0 || slot.offset != 0 || slot.immediate != 0 {
        return Err(CodeCause::Field);
    }
    Ok(Instr::Negate { width, dst })
}

/// A byte swap.
fn byte_order(order: Order, slot: Fields) -> Result<Instr, CodeCause>
    requires { opcode_of (form.ByteOrder order) ≡ slot.opcode }
    ensures exact { (next : Option Fields) → first_failing (checks (form.ByteOrder order) slot next) ≡ refusal result }
    ensures read { (next : Option Fields) → IfOk result (λ i. IsSpelled slot next i) }
{
    let dst = register(slot.dst)?;
    if slot.src != 0 || slot.offset != 0 {
        return Err(CodeCause::Field);
    }
    let Some(size) = order_size(slot.immediate) else {
        return Err(CodeCause::Field);
    };
    Ok(Instr::ByteOrder { order, size, dst })
}

/// A jump by the offset.
fn jump(slot: Fields) -> Result<Instr, CodeCause>
    requires { opcode_of form.Jump ≡ slot.opcode }
    ensures exact { (next : Option Fields) → first_failing (checks form.Jump slot next) ≡ refusal result }
    ensures read { (next : Option Fields) → IfOk result (λ i. IsSpelled slot next i) }
{
    if slot.dst != 0 || slot.src != 0 || slot.immediate != 0 {
        return Err(CodeCause::Field);
    }
    Ok(Instr::Jump {
        offset: slot.offset.cast_signed(),
    })
}

/// A jump by the immediate.
fn long_jump(slot: Fields) -> Result<Instr, CodeCause>
    requires { opcode_of form.LongJump ≡ slot.opcode }
    ensures exact { (next : Option Fields) → first_failing (checks form.LongJump slot next) ≡ refusal result }
    ensures read { (next : Option Fields) → IfOk result (λ i. IsSpelled slot next i) }
{
    if slot.dst != 0 || slot.src != 0 || slot.offset != 0 {
        return Err(CodeCause::Field);
    }
    Ok(Instr::LongJump {
        offset: slot.immediate.cast_signed(),
    })
}

/// A branch that compares with a constant.
fn branch_immediate(width: Width, condition: Condition, slot: Fields) -> Result<Instr, CodeCause>
    requires { opcode_of (form.Branch width condition false) ≡ slot.opcode }
    ensures exact { (next : Option Fields) → first_failing (checks (form.Branch width condition false) slot next) ≡ refusal result }
    ensures read { (next : Option Fields) → IfOk result (λ i. IsSpelled slot next i) }
{
    let dst = register(slot.dst)?;
    if slot.src != 0 {
        return Err(CodeCause::Field);
    }
    let source = Source::Immediate(slot.immediate.cast_signed());
    Ok(Instr::Branch {
        width,
        condition,
        dst,
        source,
        offset: slot.offset.cast_signed(),
    })
}

/// A branch that compares two registers.
fn branch_register(width: Width, condition: Condition, slot: Fields) -> Result<Instr, CodeCause>
    requires { opcode_of (form.Branch width condition true) ≡ slot.opcode }
    ensures exact { (next : Option Fields) → first_failing (checks (form.Branch width condition true) slot next) ≡ refusal result }
    ensures read { (next : Option Fields) → IfOk result (λ i. IsSpelled slot next i) }
{
    let dst = register(slot.dst)?;
    let src = register(slot.src)?;
    if slot.immediate != 0 {
        return Err(CodeCause::Field);
    }
    let source = Source::Register(src);
    Ok(Instr::Branch {
        width,
        condition,
        dst,
        source,
        offset: slot.offset.cast_signed(),
    })
}

/// A call, of a helper (kind of source 0) or of a function of the program (1).
fn call(slot: Fields) -> Result<Instr, CodeCause>
    requires { opcode_of form.Call ≡ slot.opcode }
    ensures exact { (next : Option Fields) → first_failing (checks form.Call slot next) ≡ refusal result }
    ensures read { (next : Option Fields) → IfOk result (λ i. IsSpelled slot next i) }
{
    let immediate = slot.immediate.cast_signed();
    let instr = match slot.src {
        0 => Instr::CallHelper { number: immediate },
        1 => Instr::CallLocal { offset: immediate },
        _ => return Err(CodeCause::Register),
    };
    if slot.dst != 0 || slot.offset != 0 {
        return Err(CodeCause::Field);
    }
    Ok(instr)
}

/// The return from a local function, or the end of the program.
fn exit(slot: Fields) -> Result<Instr, CodeCause>
    requires { opcode_of form.Exit ≡ slot.opcode }
    ensures exact { (next : Option Fields) → first_failing (checks form.Exit slot next) ≡ refusal result }
    ensures read { (next : Option Fields) → IfOk result (λ i. IsSpelled slot next i) }
{
    if slot.dst != 0 || slot.src != 0 || slot.offset != 0 || slot.immediate != 0 {
        return Err(CodeCause::Field);
    }
    Ok(Instr::Exit)
}

/// A load.
fn load(size: Size, slot: Fields) -> Result<Instr, CodeCause>
    requires { opcode_of (form.Load size) ≡ slot.opcode }
    ensures exact { (next : Option Fields) → first_failing (checks (form.Load size) slot next) ≡ refusal result }
    ensures read { (next : Option Fields) → IfOk result (λ i. IsSpelled slot next i) }
{
    let dst = register(slot.dst)?;
    let base = register(slot.src)?;
    if slot.immediate != 0 {
        return Err(CodeCause::Field);
    }
    Ok(Instr::Load {
        size,
        dst,
        base,
        offset: slot.offset.cast_signed(),
    })
}

/// A load that extends the sign.
fn load_signed(size: SignedSize, slot: Fields) -> Result<Instr, CodeCause>
    requires { opcode_of (form.LoadSigned size) ≡ slot.opcode }
    ensures exact { (next : Option Fields) → first_failing (checks (form.LoadSigned size) slot next) ≡ refusal result }
    ensures read { (next : Option Fields) → IfOk result (λ i. IsSpelled slot next i) }
{
    let dst = register(slot.dst)?;
    let base = register(slot.src)?;
    if slot.immediate != 0 {
        return Err(CodeCause::Field);
    }
    Ok(Instr::LoadSigned {
        size,
        dst,
        base,
        offset: slot.offset.cast_signed(),
    })
}

/// A store of a constant.
fn store_immediate(size: Size, slot: Fields) -> Result<Instr, CodeCause>
    requires { opcode_of (form.StoreImmediate size) ≡ slot.opcode }
    ensures exact { (next : Option Fields) → first_failing (checks (form.StoreImmediate size) slot next) ≡ refusal result }
    ensures read { (next : Option Fields) → IfOk result (λ i. IsSpelled slot next i) }
{
    let base = register(slot.dst)?;
    if slot.src != 0 {
        return Err(CodeCause::Field);
    }
    let immediate = slot.immediate.cast_signed();
    Ok(Instr::StoreImmediate {
        size,
        base,
        offset: slot.offset.cast_signed(),
        immediate,
    })
}

/// A store of a register.
fn store(size: Size, slot: Fields) -> Result<Instr, CodeCause>
    requires { opcode_of (form.Store size) ≡ slot.opcode }
    ensures exact { (next : Option Fields) → first_failing (checks (form.Store size) slot next) ≡ refusal result }
    ensures read { (next : Option Fields) → IfOk result (λ i. IsSpelled slot next i) }
{
    let base = register(slot.dst)?;
    let src = register(slot.src)?;
    if slot.immediate != 0 {
        return Err(CodeCause::Field);
    }
    Ok(Instr::Store {
        size,
        base,
        offset: slot.offset.cast_signed(),
        src,
    })
}

/// The immediate in the second slot of an instruction.
fn second_half(next: Option<Fields>) -> Option<u32>
    ensures known { is_some result ≡ is_second next }
    ensures read { IfSome result (λ n. next ≡ Some (fields 0 0 0 0 n)) }
{
    match next {
        Some(
            Fields {
                opcode: 0,
                dst: 0,
                src: 0,
                offset: 0,
                immediate,
            },
        ) => Some(immediate),
        _ => None,
    }
}

/// The load of a 64-bit immediate, which takes two slots.
fn load_immediate(slot: Fields, next: Option<Fields>) -> Result<Instr, CodeCause>
    requires { opcode_of form.LoadImmediate ≡ slot.opcode }
    ensures exact { first_failing (checks form.LoadImmediate slot next) ≡ refusal result }
    ensures read { IfOk result (λ i. IsSpelled slot next i) }
{
    let dst = register(slot.dst)?;
    if slot.src != 0 {
        return Err(CodeCause::Register);
    }
    if slot.offset != 0 {
        return Err(CodeCause::Field);
    }
    let Some(high) = second_half(next) else {
        return Err(CodeCause::SecondHalf);
    };
    Ok(Instr::LoadImmediate {
        dst,
        value: high as u64 * 0x1_0000_0000 + slot.immediate as u64,
    })
}

/// The instruction of a form that the opcode tells.
#[tactic(auto)]
fn read_form(form: OpcodeForm, slot: Fields, next: Option<Fields>) -> Result<Instr, CodeCause>
    requires { opcode_of form ≡ slot.opcode }
    ensures exact { first_failing (checks form slot next) ≡ refusal result }
    ensures read { IfOk result (λ i. IsSpelled slot next i) }
{
    match form {
        OpcodeForm::Arithmetic {
            width,
            operator,
            register: false,
        } => arithmetic_immediate(width, operator, slot),
        OpcodeForm::Arithmetic {
            width,
            operator: Operator::Mov,
            register: true,
        } => move_register(width, slot),
        OpcodeForm::Arithmetic {
            width,
            operator,
            register: true,
        } => arithmetic_register(width, operator, slot),
        OpcodeForm::Negate { width } => negate(width, slot),
        OpcodeForm::ByteOrder { order } => byte_order(order, slot),
        OpcodeForm::Jump => jump(slot),
        OpcodeForm::LongJump => long_jump(slot),
        OpcodeForm::Branch {
            width,
            condition,
            register: false,
        } => branch_immediate(width, condition, slot),
        OpcodeForm::Branch {
            width,
            condition,
            register: true,
        } => branch_register(width, condition, slot),
        OpcodeForm::Call => call(slot),
        OpcodeForm::Exit => exit(slot),
        OpcodeForm::Load { size } => load(size, slot),
        OpcodeForm::LoadSigned { size } => load_signed(size, slot),
        OpcodeForm::StoreImmediate { size } => store_immediate(size, slot),
        OpcodeForm::Store { size } => store(size, slot),
        OpcodeForm::LoadImmediate => load_immediate(slot, next),
    }
}

/// The instruction that begins in a slot of these fields, or the first test that fails.
#[tactic(auto)]
pub fn read_instr(slot: Fields, next: Option<Fields>) -> Result<Instr, CodeCause>
    ensures exact { first_failing (slot_checks (form_of slot.opcode) slot next) ≡ refusal result }
    ensures read { IfOk result (λ i. IsSpelled slot next i) }
{
    match known_form(slot.opcode) {
        Some(form) => read_form(form, slot, next),
        None => Err(CodeCause::Opcode),
    }
}
