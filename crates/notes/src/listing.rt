//! Instructions with their slots.

ghost use Rattle.std.specs.Prelude.{◌≡◌, ◌++◌, IfOk, OnOk, string_bytes};
ghost use Rattle.notes.specs.Listing.{numbered_line, numbered_slot, numbered_listing};

use bpf_asm::put_instr;
use bpf_isa::instr::Instr;
use bpf_isa::program::Program;
use std::alloc::{AllocError, Global};

/// Appends the number of a slot, and the instruction that begins there.
fn put_numbered(out: &mut String, slot: usize, instr: &Instr) -> Result<(), AllocError>
    ensures { OnOk result (string_bytes out.new ≡ string_bytes out.old ++ numbered_line slot instr.now) }
{
    write!(out, "{slot}: ")?;
    put_instr(out, instr)?;
    out.push_str("\n")
}

/// Appends the line of a slot in which an instruction begins, as the listing has it.
///
/// # Errors
///
/// Memory was refused.
pub fn put_slot(out: &mut String, slot: usize, instr: Option<Instr>) -> Result<(), AllocError>
    ensures { OnOk result (string_bytes out.new ≡ string_bytes out.old ++ numbered_slot slot instr) }
{
    let Some(instr) = instr else {
        return Ok(());
    };
    put_numbered(out, slot, &instr)
}

/// The listing of a program, each line after the number of its slot. A 64-bit immediate takes two slots.
///
/// # Errors
///
/// Memory was refused.
pub fn numbered_listing(alloc: Global, program: &Program) -> Result<String, AllocError>
    ensures { IfOk result (λ text. string_bytes text ≡ numbered_listing program.now) }
{
    let mut out = String::new(alloc);
    for slot in 0..program.slots() {
        put_slot(&mut out, slot, program.at(slot))?;
    }
    Ok(out)
}
