//! The fields of an instruction, a function for each field.

ghost use Rattle.std.specs.Prelude.{ℕ, ℤ, ◌≡◌, ◌<◌, ◌≤◌, ◌%◌, ◌/◌, ◌^◌, ◌++◌, OnOk};
ghost use Rattle.bpf_isa.specs.Table.{opcode_of, operator_code, condition_code, size_code, signed_size_code, source_bit, alu_class, jump_class, order_opcode};
ghost use Rattle.bpf_isa.specs.Fields.{fields, field_bytes};
ghost use Rattle.bpf_isa.specs.Spelling.{fields_of, second_of, operator_offset, extension_width, extension_offset, order_immediate, bits16, bits32};
ghost use Rattle.bpf_isa.specs.Program.{spelling, slot_bytes};
ghost use Rattle.bpf_isa.specs.declared.form.OpcodeForm.TheVariants as known;
ghost use Rattle.bpf_isa.specs.declared.instr.Instr.TheVariants as instruction;

use crate::fields::{Fields, put_fields};
use crate::form::OpcodeForm;
use crate::instr::{
    Condition, Instr, Operator, Order, OrderSize, SignExtension, SignedSize, Size, Source, Width,
};
use crate::register::Register;
use std::alloc::AllocError;

/// The high four bits of an arithmetic opcode.
fn operator_bits(operator: Operator) -> u8
    ensures code { result ≡ operator_code operator }
    ensures small { result < 16 }
{
    match operator {
        Operator::Add => 0,
        Operator::Sub => 1,
        Operator::Mul => 2,
        Operator::Div | Operator::SignedDiv => 3,
        Operator::Or => 4,
        Operator::And => 5,
        Operator::Lsh => 6,
        Operator::Rsh => 7,
        Operator::Mod | Operator::SignedMod => 9,
        Operator::Xor => 10,
        Operator::Mov => 11,
        Operator::Arsh => 12,
    }
}

/// The high four bits of the opcode of a branch.
fn condition_bits(condition: Condition) -> u8
    ensures code { result ≡ condition_code condition }
    ensures small { result < 16 }
{
    match condition {
        Condition::Eq => 1,
        Condition::Gt => 2,
        Condition::Ge => 3,
        Condition::Set => 4,
        Condition::Ne => 5,
        Condition::SignedGt => 6,
        Condition::SignedGe => 7,
        Condition::Lt => 10,
        Condition::Le => 11,
        Condition::SignedLt => 12,
        Condition::SignedLe => 13,
    }
}

/// The code of a size.
fn size_bits(size: Size) -> u8
    ensures code { result ≡ size_code size }
    ensures small { result < 4 }
{
    match size {
        Size::Word => 0,
        Size::Half => 1,
        Size::Byte => 2,
        Size::Double => 3,
    }
}

/// The code of a size, of a load that extends the sign.
fn signed_size_bits(size: SignedSize) -> u8
    ensures code { result ≡ signed_size_code size }
    ensures small { result < 4 }
{
    match size {
        SignedSize::Word => 0,
        SignedSize::Half => 1,
        SignedSize::Byte => 2,
    }
}

/// The bit that tells a register as the source.
fn register_bit(register: bool) -> u8
    ensures bit { result ≡ source_bit register }
    ensures small { result ≤ 8 }
{
    if register { 8 } else { 0 }
}

/// The class of arithmetic of this width.
fn arithmetic_class(width: Width) -> u8
    ensures class { result ≡ alu_class width }
    ensures small { result < 8 }
{
    match width {
        Width::W32 => 4,
        Width::W64 => 7,
    }
}

/// The class of branches of this width.
fn branch_class(width: Width) -> u8
    ensures class { result ≡ jump_class width }
    ensures small { result < 8 }
{
    match width {
        Width::W32 => 6,
        Width::W64 => 5,
    }
}

/// The opcode of a byte swap.
fn swap_opcode(order: Order) -> u8
    ensures { result ≡ order_opcode order }
{
    match order {
        Order::Little => 0xd4,
        Order::Big => 0xdc,
        Order::Swap => 0xd7,
    }
}

/// The opcode of a form.
#[tactic(auto, unfolding(crate::specs::Table::opcode_of))]
fn opcode(form: OpcodeForm) -> u8
    ensures { result ≡ opcode_of form }
{
    match form {
        OpcodeForm::Arithmetic {
            width,
            operator,
            register,
        } => 16 * operator_bits(operator) + register_bit(register) + arithmetic_class(width),
        OpcodeForm::Negate { width } => 0x80 + arithmetic_class(width),
        OpcodeForm::ByteOrder { order } => swap_opcode(order),
        OpcodeForm::Jump => 0x05,
        OpcodeForm::LongJump => 0x06,
        OpcodeForm::Branch {
            width,
            condition,
            register,
        } => 16 * condition_bits(condition) + register_bit(register) + branch_class(width),
        OpcodeForm::Call => 0x85,
        OpcodeForm::Exit => 0x95,
        OpcodeForm::Load { size } => 0x61 + 8 * size_bits(size),
        OpcodeForm::LoadSigned { size } => 0x81 + 8 * signed_size_bits(size),
        OpcodeForm::StoreImmediate { size } => 0x62 + 8 * size_bits(size),
        OpcodeForm::Store { size } => 0x63 + 8 * size_bits(size),
        OpcodeForm::LoadImmediate => 0x18,
    }
}

/// The offset that tells a signed division or modulo.
fn signed_offset(operator: Operator) -> u16
    ensures { result ≡ operator_offset operator }
{
    match operator {
        Operator::SignedDiv | Operator::SignedMod => 1,
        _ => 0,
    }
}

/// The offset of a move that extends the sign.
fn move_offset(extension: SignExtension) -> u16
    ensures { result ≡ extension_offset extension }
{
    match extension {
        SignExtension::From8To64 | SignExtension::From8To32 => 8,
        SignExtension::From16To64 | SignExtension::From16To32 => 16,
        SignExtension::From32To64 => 32,
    }
}

/// The immediate of a byte swap.
fn swap_bits(size: OrderSize) -> u32
    ensures { result ≡ order_immediate size }
{
    match size {
        OrderSize::Bits16 => 16,
        OrderSize::Bits32 => 32,
        OrderSize::Bits64 => 64,
    }
}

/// The field of a register.
fn register_field(register: Register) -> u8
    ensures value { result ≡ register }
    ensures small { result < 16 }
{
    register.number() as u8
}

/// The bits of a second operand that is a constant; 0 for a register.
#[tactic(auto, unfolding(crate::specs::Spelling::fields_of))]
fn constant_field(source: &Source) -> u32
    ensures computes { (w : Width) (o : Operator) (dst : ℕ) → result ≡ (fields_of (instruction.Arithmetic w o dst source.now)).immediate }
    ensures compares { (w : Width) (c : Condition) (dst : ℕ) (offset : ℤ) → result ≡ (fields_of (instruction.Branch w c dst source.now offset)).immediate }
{
    match source {
        Source::Immediate(n) => n.cast_unsigned(),
        Source::Register(_) => 0,
    }
}

/// The field of a second operand that is a register; 0 for a constant.
#[tactic(auto, unfolding(crate::specs::Spelling::fields_of))]
fn source_field(source: &Source) -> u8
    ensures computes { (w : Width) (o : Operator) (dst : ℕ) → result ≡ (fields_of (instruction.Arithmetic w o dst source.now)).src }
    ensures compares { (w : Width) (c : Condition) (dst : ℕ) (offset : ℤ) → result ≡ (fields_of (instruction.Branch w c dst source.now offset)).src }
    ensures small { result < 16 }
{
    match source {
        Source::Immediate(_) => 0,
        Source::Register(src) => register_field(*src),
    }
}

/// Whether a second operand is a register.
#[tactic(auto, unfolding(crate::specs::Spelling::fields_of))]
fn is_register(source: &Source) -> bool
    ensures computes { (w : Width) (o : Operator) (dst : ℕ) → opcode_of (known.Arithmetic w o result) ≡ (fields_of (instruction.Arithmetic w o dst source.now)).opcode }
    ensures compares { (w : Width) (c : Condition) (dst : ℕ) (offset : ℤ) → opcode_of (known.Branch w c result) ≡ (fields_of (instruction.Branch w c dst source.now offset)).opcode }
{
    matches!(source, Source::Register(_))
}

/// The form of an instruction, which tells its opcode.
#[tactic(auto, unfolding(crate::specs::Spelling::fields_of))]
fn form(instr: &Instr) -> OpcodeForm
    ensures { opcode_of result ≡ (fields_of instr.now).opcode }
{
    match instr {
        Instr::Arithmetic {
            width,
            operator,
            source,
            ..
        } => OpcodeForm::Arithmetic {
            width: *width,
            operator: *operator,
            register: is_register(source),
        },
        Instr::Negate { width, .. } => OpcodeForm::Negate { width: *width },
        Instr::SignExtend { extension, .. } => OpcodeForm::Arithmetic {
            width: extension.width(),
            operator: Operator::Mov,
            register: true,
        },
        Instr::ByteOrder { order, .. } => OpcodeForm::ByteOrder { order: *order },
        Instr::Jump { .. } => OpcodeForm::Jump,
        Instr::LongJump { .. } => OpcodeForm::LongJump,
        Instr::Branch {
            width,
            condition,
            source,
            ..
        } => OpcodeForm::Branch {
            width: *width,
            condition: *condition,
            register: is_register(source),
        },
        Instr::CallHelper { .. } | Instr::CallLocal { .. } => OpcodeForm::Call,
        Instr::Exit => OpcodeForm::Exit,
        Instr::Load { size, .. } => OpcodeForm::Load { size: *size },
        Instr::LoadSigned { size, .. } => OpcodeForm::LoadSigned { size: *size },
        Instr::StoreImmediate { size, .. } => OpcodeForm::StoreImmediate { size: *size },
        Instr::Store { size, .. } => OpcodeForm::Store { size: *size },
        Instr::LoadImmediate { .. } => OpcodeForm::LoadImmediate,
    }
}

/// The field of the low four bits: the destination, or the base of a store.
#[tactic(auto, unfolding(crate::specs::Spelling::fields_of))]
fn dst_field(instr: &Instr) -> u8
    ensures value { result ≡ (fields_of instr.now).dst }
    ensures small { result < 16 }
{
    match instr {
        Instr::Arithmetic { dst, .. } | Instr::Negate { dst, .. } => register_field(*dst),
        Instr::SignExtend { dst, .. } | Instr::ByteOrder { dst, .. } => register_field(*dst),
        Instr::Branch { dst, .. } | Instr::LoadImmediate { dst, .. } => register_field(*dst),
        Instr::Load { dst, .. } | Instr::LoadSigned { dst, .. } => register_field(*dst),
        Instr::StoreImmediate { base, .. } | Instr::Store { base, .. } => register_field(*base),
        _ => 0,
    }
}

/// The field of the high four bits: the source, the base of a load, or the kind of a call.
#[tactic(auto, unfolding(crate::specs::Spelling::fields_of))]
fn src_field(instr: &Instr) -> u8
    ensures value { result ≡ (fields_of instr.now).src }
    ensures small { result < 16 }
{
    match instr {
        Instr::Arithmetic { source, .. } | Instr::Branch { source, .. } => source_field(source),
        Instr::SignExtend { src, .. } | Instr::Store { src, .. } => register_field(*src),
        Instr::Load { base, .. } | Instr::LoadSigned { base, .. } => register_field(*base),
        Instr::CallLocal { .. } => 1,
        _ => 0,
    }
}

/// The bits of the offset.
#[tactic(auto, unfolding(crate::specs::Spelling::fields_of))]
fn offset_field(instr: &Instr) -> u16
    ensures { result ≡ (fields_of instr.now).offset }
{
    match instr {
        Instr::Arithmetic { operator, .. } => signed_offset(*operator),
        Instr::SignExtend { extension, .. } => move_offset(*extension),
        Instr::Jump { offset } | Instr::Branch { offset, .. } => offset.cast_unsigned(),
        Instr::Load { offset, .. } | Instr::LoadSigned { offset, .. } => offset.cast_unsigned(),
        Instr::StoreImmediate { offset, .. } | Instr::Store { offset, .. } =>
            offset.cast_unsigned(),
        _ => 0,
    }
}

/// The bits of the immediate; of one of 64 bits the low half.
#[tactic(auto, unfolding(crate::specs::Spelling::fields_of))]
fn immediate_field(instr: &Instr) -> u32
    ensures { result ≡ (fields_of instr.now).immediate }
{
    match instr {
        Instr::Arithmetic { source, .. } | Instr::Branch { source, .. } => constant_field(source),
        Instr::ByteOrder { size, .. } => swap_bits(*size),
        Instr::LongJump { offset } | Instr::CallLocal { offset } => offset.cast_unsigned(),
        Instr::CallHelper { number } => number.cast_unsigned(),
        Instr::StoreImmediate { immediate, .. } => immediate.cast_unsigned(),
        Instr::LoadImmediate { value, .. } => (*value % 0x1_0000_0000) as u32,
        _ => 0,
    }
}

/// The fields of an instruction, of its first slot where it has two.
fn instr_fields(instr: &Instr) -> Fields
    ensures fields { result ≡ fields_of instr.now }
    ensures dst { result.dst < 16 }
    ensures src { result.src < 16 }
{
    Fields {
        opcode: opcode(form(instr)),
        dst: dst_field(instr),
        src: src_field(instr),
        offset: offset_field(instr),
        immediate: immediate_field(instr),
    }
}

/// Appends the bytes of an instruction.
pub fn put_instr(out: &mut Vec<u8>, instr: &Instr) -> Result<(), AllocError>
    ensures appended { OnOk result (out.new.items ≡ out.old.items ++ spelling instr.now) }
{
    put_fields(out, instr_fields(instr))?;
    if let Instr::LoadImmediate { value, .. } = instr {
        let immediate = (*value / 0x1_0000_0000) as u32;
        put_fields(
            out,
            Fields {
                opcode: 0,
                dst: 0,
                src: 0,
                offset: 0,
                immediate,
            },
        )?;
    }
    Ok(())
}

/// Appends the bytes of the instruction that begins in a slot, if one does.
pub fn put_slot(out: &mut Vec<u8>, slot: &Option<Instr>) -> Result<(), AllocError>
    ensures appended { OnOk result (out.new.items ≡ out.old.items ++ slot_bytes slot.now) }
{
    match slot {
        Some(instr) => put_instr(out, instr),
        None => Ok(()),
    }
}
