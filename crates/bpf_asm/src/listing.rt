//! The listing of a program.
#![tactic(auto, unfolding(crate::specs::Listing::line_text))]

ghost use Rattle.std.specs.Prelude.{◌≡◌, ◌++◌, ℤ, List, codes, OnOk, IfOk, string_bytes};
ghost use Rattle.std.specs.Fmt.{decimal, signed_decimal};
ghost use Rattle.bpf_isa.specs.Program.{IsProgram};
ghost use Rattle.bpf_asm.specs.Mnemonics.{name_of};
ghost use Rattle.bpf_asm.specs.Listing.{with_sign, register_text, source_text, place_text, line_text, slot_text, listing};
ghost use Rattle.bpf_asm.specs.Says.{Says};

use crate::mnemonic::Mnemonic;
use bpf_isa::instr::{Instr, Source};
use bpf_isa::program::Program;
use bpf_isa::register::Register;
use std::alloc::{AllocError, Global};

/// Appends a separator and a register.
fn put_register(out: &mut String, separator: &str, register: Register) -> Result<(), AllocError>
    ensures { OnOk result (string_bytes out.new ≡ string_bytes out.old ++ (separator.now ++ register_text register)) }
{
    let number = register.number();
    write!(out, "{separator}r{number}")
}

/// Appends a separator and a signed number.
fn put_number(out: &mut String, separator: &str, number: i32) -> Result<(), AllocError>
    ensures { OnOk result (string_bytes out.new ≡ string_bytes out.old ++ (separator.now ++ signed_decimal number)) }
{
    write!(out, "{separator}{number}")
}

/// Appends a separator and a number with its sign.
fn put_distance(out: &mut String, separator: &str, distance: i32) -> Result<(), AllocError>
    ensures { OnOk result (string_bytes out.new ≡ string_bytes out.old ++ (separator.now ++ with_sign distance)) }
{
    if distance < 0 {
        write!(out, "{separator}{distance}")
    } else {
        write!(out, "{separator}+{distance}")
    }
}

/// Appends a separator and a source.
fn put_source(out: &mut String, separator: &str, source: Source) -> Result<(), AllocError>
    ensures { OnOk result (string_bytes out.new ≡ string_bytes out.old ++ (separator.now ++ source_text source)) }
{
    match source {
        Source::Immediate(number) => put_number(out, separator, number),
        Source::Register(register) => put_register(out, separator, register),
    }
}

/// Appends a separator and a memory place.
fn put_place(
    out: &mut String,
    separator: &str,
    base: Register,
    offset: i16,
) -> Result<(), AllocError>
    ensures { OnOk result (string_bytes out.new ≡ string_bytes out.old ++ (separator.now ++ place_text base offset)) }
{
    write!(out, "{separator}[")?;
    put_register(out, "", base)?;
    put_distance(out, "", offset as i32)?;
    write!(out, "]")
}

/// Appends the operands of arithmetic, or of a branch before its distance.
fn put_operands(out: &mut String, dst: Register, source: Source) -> Result<(), AllocError>
    ensures { OnOk result (string_bytes out.new ≡ string_bytes out.old ++ (codes " " ++ register_text dst ++ codes ", " ++ source_text source)) }
{
    put_register(out, " ", dst)?;
    put_source(out, ", ", source)
}

/// Appends the operands of a branch.
fn put_branch(
    out: &mut String,
    dst: Register,
    source: Source,
    offset: i16,
) -> Result<(), AllocError>
    ensures { OnOk result (string_bytes out.new ≡ string_bytes out.old ++ (codes " " ++ register_text dst ++ codes ", " ++ source_text source ++ codes ", " ++ with_sign offset)) }
{
    put_operands(out, dst, source)?;
    put_distance(out, ", ", offset as i32)
}

/// Appends the operands of a load.
fn put_load(out: &mut String, dst: Register, base: Register, offset: i16) -> Result<(), AllocError>
    ensures { OnOk result (string_bytes out.new ≡ string_bytes out.old ++ (codes " " ++ register_text dst ++ codes ", " ++ place_text base offset)) }
{
    put_register(out, " ", dst)?;
    put_place(out, ", ", base, offset)
}

/// Appends the operands of a store.
fn put_store(
    out: &mut String,
    base: Register,
    offset: i16,
    stored: Source,
) -> Result<(), AllocError>
    ensures { OnOk result (string_bytes out.new ≡ string_bytes out.old ++ (codes " " ++ place_text base offset ++ codes ", " ++ source_text stored)) }
{
    put_place(out, " ", base, offset)?;
    put_source(out, ", ", stored)
}

/// Appends the operands of a load of a constant of 64 bits.
fn put_wide(out: &mut String, dst: Register, value: u64) -> Result<(), AllocError>
    ensures { OnOk result (string_bytes out.new ≡ string_bytes out.old ++ (codes " " ++ register_text dst ++ codes ", " ++ decimal value)) }
{
    put_register(out, " ", dst)?;
    write!(out, ", {value}")
}

/// Appends the line of an instruction without its end.
pub fn put_instr(out: &mut String, instr: &Instr) -> Result<(), AllocError>
    ensures { OnOk result (string_bytes out.new ≡ string_bytes out.old ++ line_text instr.now) }
{
    out.push_str(Mnemonic::of(instr).name())?;
    match *instr {
        Instr::Arithmetic { dst, source, .. } => put_operands(out, dst, source),
        Instr::Negate { dst, .. } | Instr::ByteOrder { dst, .. } => put_register(out, " ", dst),
        Instr::SignExtend { dst, src, .. } => put_operands(out, dst, Source::Register(src)),
        Instr::Jump { offset } => put_distance(out, " ", offset as i32),
        Instr::LongJump { offset } | Instr::CallLocal { offset } => put_distance(out, " ", offset),
        Instr::Branch {
            dst,
            source,
            offset,
            ..
        } => put_branch(out, dst, source, offset),
        Instr::CallHelper { number } => put_number(out, " ", number),
        Instr::Exit => Ok(()),
        Instr::Load {
            dst,
            base,
            offset,
            ..
        }
        | Instr::LoadSigned {
            dst,
            base,
            offset,
            ..
        } => put_load(out, dst, base, offset),
        Instr::StoreImmediate {
            base,
            offset,
            immediate,
            ..
        } => put_store(out, base, offset, Source::Immediate(immediate)),
        Instr::Store {
            base,
            offset,
            src,
            ..
        } => put_store(out, base, offset, Source::Register(src)),
        Instr::LoadImmediate { dst, value } => put_wide(out, dst, value),
    }
}

/// Appends the line of the instruction that begins in a slot, if one does.
#[tactic(auto)]
fn put_slot(out: &mut String, slot: Option<Instr>) -> Result<(), AllocError>
    ensures { OnOk result (string_bytes out.new ≡ string_bytes out.old ++ slot_text slot) }
{
    let Some(instr) = slot else {
        return Ok(());
    };
    put_instr(out, &instr)?;
    out.push_str("\n")
}

/// The listing of a program: an instruction a line, in one spelling.
#[tactic(auto)]
pub fn list(alloc: Global, program: &Program) -> Result<String, AllocError>
    ensures text { IfOk result (λ text. string_bytes text ≡ listing program.now) }
    ensures says { IfOk result (λ text. Says (string_bytes text) program.now) }
{
    let mut out = String::new(alloc);
    for slot in 0..program.slots() {
        put_slot(&mut out, program.at(slot))?;
    }
    Ok(out)
}
