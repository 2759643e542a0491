//! The instruction that a line says, a function for each form.
//!
//! Each reads the operands of its form first, which is refused as a wrong operand, and then takes
//! the numbers among them, which is refused as a wrong range.
#![tactic(auto, unfolding(crate::specs::Operands::draft))]

ghost use Rattle.std.specs.Prelude.{◌≡◌, None};
ghost use Rattle.bpf_asm.specs.Parts.{parts};
ghost use Rattle.bpf_asm.specs.Operands.{draft, whole};
ghost use Rattle.bpf_asm.specs.Reads.{Gives};
ghost use Rattle.bpf_asm.specs.Statements.{draft_value};
ghost use Rattle.bpf_asm.specs.declared.mnemonic.Mnemonic.TheVariants as kind;

use crate::fault::LineCause;
use crate::mnemonic::Mnemonic;
use crate::operand::{
    one_number, one_register, one_target, place_and_number, place_and_register,
    register_and_number, register_and_operand, register_and_place, register_operand_and_target,
    two_registers,
};
use crate::part::is_end;
use bpf_isa::instr::{
    Condition, Instr, Operator, Order, OrderSize, SignExtension, SignedSize, Size, Width,
};

/// An instruction as a line says it. Where a label is to tell its distance, the distance is 0.
#[derive(Clone, Copy)]
pub(crate) struct Draft<'t> {
    pub instr: Instr,
    pub label: Option<&'t [u8]>,
}

/// An instruction that needs no label.
fn whole<'t>(instr: Instr) -> Draft<'t>
    ensures { draft_value result ≡ whole instr }
{
    Draft { instr, label: None }
}

/// Arithmetic.
fn arithmetic(width: Width, operator: Operator, line: &[u8]) -> Result<Draft<'_>, LineCause>
    ensures { Gives draft_value result (draft (kind.Arithmetic width operator) (parts line.now)) }
{
    let Some((dst, operand)) = register_and_operand(line) else {
        return Err(LineCause::Operand);
    };
    let Some(source) = operand.source() else {
        return Err(LineCause::Range);
    };
    Ok(whole(Instr::Arithmetic {
        width,
        operator,
        dst,
        source,
    }))
}

/// The negation of a register.
fn negate(width: Width, line: &[u8]) -> Result<Draft<'_>, LineCause>
    ensures { Gives draft_value result (draft (kind.Negate width) (parts line.now)) }
{
    match one_register(line) {
        Some(dst) => Ok(whole(Instr::Negate { width, dst })),
        None => Err(LineCause::Operand),
    }
}

/// A move that extends the sign.
fn sign_extend(extension: SignExtension, line: &[u8]) -> Result<Draft<'_>, LineCause>
    ensures { Gives draft_value result (draft (kind.SignExtend extension) (parts line.now)) }
{
    match two_registers(line) {
        Some((dst, src)) => Ok(whole(Instr::SignExtend {
            extension,
            dst,
            src,
        })),
        None => Err(LineCause::Operand),
    }
}

/// A byte swap.
fn byte_order(order: Order, size: OrderSize, line: &[u8]) -> Result<Draft<'_>, LineCause>
    ensures { Gives draft_value result (draft (kind.ByteOrder order size) (parts line.now)) }
{
    match one_register(line) {
        Some(dst) => Ok(whole(Instr::ByteOrder { order, size, dst })),
        None => Err(LineCause::Operand),
    }
}

/// A jump at a distance of 16 bits.
fn jump(line: &[u8]) -> Result<Draft<'_>, LineCause>
    ensures { Gives draft_value result (draft (kind.Jump) (parts line.now)) }
{
    let Some(target) = one_target(line) else {
        return Err(LineCause::Operand);
    };
    let Some((offset, label)) = target.near() else {
        return Err(LineCause::Range);
    };
    Ok(Draft {
        instr: Instr::Jump { offset },
        label,
    })
}

/// A jump at a distance of 32 bits.
fn long_jump(line: &[u8]) -> Result<Draft<'_>, LineCause>
    ensures { Gives draft_value result (draft (kind.LongJump) (parts line.now)) }
{
    let Some(target) = one_target(line) else {
        return Err(LineCause::Operand);
    };
    let Some((offset, label)) = target.far() else {
        return Err(LineCause::Range);
    };
    Ok(Draft {
        instr: Instr::LongJump { offset },
        label,
    })
}

/// A branch.
fn branch(width: Width, condition: Condition, line: &[u8]) -> Result<Draft<'_>, LineCause>
    ensures { Gives draft_value result (draft (kind.Branch width condition) (parts line.now)) }
{
    let Some((dst, operand, target)) = register_operand_and_target(line) else {
        return Err(LineCause::Operand);
    };
    let Some(source) = operand.source() else {
        return Err(LineCause::Range);
    };
    let Some((offset, label)) = target.near() else {
        return Err(LineCause::Range);
    };
    Ok(Draft {
        instr: Instr::Branch {
            width,
            condition,
            dst,
            source,
            offset,
        },
        label,
    })
}

/// The call of a helper.
fn call(line: &[u8]) -> Result<Draft<'_>, LineCause>
    ensures { Gives draft_value result (draft (kind.CallHelper) (parts line.now)) }
{
    let Some(number) = one_number(line) else {
        return Err(LineCause::Operand);
    };
    match number.immediate() {
        Some(number) => Ok(whole(Instr::CallHelper { number })),
        None => Err(LineCause::Range),
    }
}

/// The call of a function of the program.
fn call_local(line: &[u8]) -> Result<Draft<'_>, LineCause>
    ensures { Gives draft_value result (draft (kind.CallLocal) (parts line.now)) }
{
    let Some(target) = one_target(line) else {
        return Err(LineCause::Operand);
    };
    let Some((offset, label)) = target.far() else {
        return Err(LineCause::Range);
    };
    Ok(Draft {
        instr: Instr::CallLocal { offset },
        label,
    })
}

/// The return from a local function, or the end of the program.
fn exit(line: &[u8]) -> Result<Draft<'_>, LineCause>
    ensures { Gives draft_value result (draft (kind.Exit) (parts line.now)) }
{
    if is_end(line) {
        Ok(whole(Instr::Exit))
    } else {
        Err(LineCause::Operand)
    }
}

/// A load.
fn load(size: Size, line: &[u8]) -> Result<Draft<'_>, LineCause>
    ensures { Gives draft_value result (draft (kind.Load size) (parts line.now)) }
{
    let Some((dst, (base, offset))) = register_and_place(line) else {
        return Err(LineCause::Operand);
    };
    match offset.offset() {
        Some(offset) => Ok(whole(Instr::Load {
            size,
            dst,
            base,
            offset,
        })),
        None => Err(LineCause::Range),
    }
}

/// A load that extends the sign.
fn load_signed(size: SignedSize, line: &[u8]) -> Result<Draft<'_>, LineCause>
    ensures { Gives draft_value result (draft (kind.LoadSigned size) (parts line.now)) }
{
    let Some((dst, (base, offset))) = register_and_place(line) else {
        return Err(LineCause::Operand);
    };
    match offset.offset() {
        Some(offset) => Ok(whole(Instr::LoadSigned {
            size,
            dst,
            base,
            offset,
        })),
        None => Err(LineCause::Range),
    }
}

/// A store of an immediate.
fn store_immediate(size: Size, line: &[u8]) -> Result<Draft<'_>, LineCause>
    ensures { Gives draft_value result (draft (kind.StoreImmediate size) (parts line.now)) }
{
    let Some(((base, offset), number)) = place_and_number(line) else {
        return Err(LineCause::Operand);
    };
    let Some(offset) = offset.offset() else {
        return Err(LineCause::Range);
    };
    let Some(immediate) = number.immediate() else {
        return Err(LineCause::Range);
    };
    Ok(whole(Instr::StoreImmediate {
        size,
        base,
        offset,
        immediate,
    }))
}

/// A store of a register.
fn store(size: Size, line: &[u8]) -> Result<Draft<'_>, LineCause>
    ensures { Gives draft_value result (draft (kind.Store size) (parts line.now)) }
{
    let Some(((base, offset), src)) = place_and_register(line) else {
        return Err(LineCause::Operand);
    };
    match offset.offset() {
        Some(offset) => Ok(whole(Instr::Store {
            size,
            base,
            offset,
            src,
        })),
        None => Err(LineCause::Range),
    }
}

/// The load of a 64-bit immediate.
fn load_immediate(line: &[u8]) -> Result<Draft<'_>, LineCause>
    ensures { Gives draft_value result (draft (kind.LoadImmediate) (parts line.now)) }
{
    let Some((dst, number)) = register_and_number(line) else {
        return Err(LineCause::Operand);
    };
    match number.wide() {
        Some(value) => Ok(whole(Instr::LoadImmediate { dst, value })),
        None => Err(LineCause::Range),
    }
}

/// The instruction of this name with the operands of the line.
#[tactic(auto)]
pub(crate) fn read_instruction(mnemonic: Mnemonic, line: &[u8]) -> Result<Draft<'_>, LineCause>
    ensures { Gives draft_value result (draft mnemonic (parts line.now)) }
{
    match mnemonic {
        Mnemonic::Arithmetic(width, operator) => arithmetic(width, operator, line),
        Mnemonic::Negate(width) => negate(width, line),
        Mnemonic::SignExtend(extension) => sign_extend(extension, line),
        Mnemonic::ByteOrder(order, size) => byte_order(order, size, line),
        Mnemonic::Jump => jump(line),
        Mnemonic::LongJump => long_jump(line),
        Mnemonic::Branch(width, condition) => branch(width, condition, line),
        Mnemonic::CallHelper => call(line),
        Mnemonic::CallLocal => call_local(line),
        Mnemonic::Exit => exit(line),
        Mnemonic::Load(size) => load(size, line),
        Mnemonic::LoadSigned(size) => load_signed(size, line),
        Mnemonic::StoreImmediate(size) => store_immediate(size, line),
        Mnemonic::Store(size) => store(size, line),
        Mnemonic::LoadImmediate => load_immediate(line),
    }
}
