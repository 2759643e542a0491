//! Where a program is refused.

ghost use Rattle.std.specs.Prelude.{◌≡◌, ◌++◌, OnOk, string_bytes};
ghost use Rattle.notes.specs.Breach.{slot_note};

use crate::put_known;
use bpf_asm::put_instr;
use bpf_isa::instr::Instr;
use request::facts::Breach;
use std::alloc::AllocError;

/// Appends a note with the instruction of a slot.
fn put_slot(out: &mut String, slot: u64, instr: &Instr) -> Result<(), AllocError>
    ensures { OnOk result (string_bytes out.new ≡ string_bytes out.old ++ slot_note slot instr.now) }
{
    write!(out, "note: slot {slot}: ")?;
    put_instr(out, instr)?;
    out.push_str("\n")
}

/// Appends the instruction at which a program is refused, and what is known there of the registers that it reads.
pub(crate) fn put_breach(
    out: &mut String,
    slot: u64,
    breach: &Option<Breach>,
) -> Result<(), AllocError> {
    let Some(breach) = breach else {
        return Ok(());
    };
    let Some(instr) = breach.instr else {
        return Ok(());
    };
    put_slot(out, slot, &instr)?;
    match &breach.state {
        Some(state) => put_known(out, &instr, state),
        None => Ok(()),
    }
}
