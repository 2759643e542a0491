//! Programs from bytes and back.

ghost use Rattle.std.specs.Prelude.{◌≡◌, ◌≢◌, ◌≤◌, ◌<◌, ◌+◌, ◌*◌, ◌/◌, ◌⊎◌, Option, Some, None, length, OnOk, IfOk, IfErr};
ghost use Rattle.base.specs.Check.{first_failing};
ghost use Rattle.bpf_isa.specs.Fields.{fields_at, slot_at};
ghost use Rattle.bpf_isa.specs.Decoding.{IsSpelled, memory_fault};
ghost use Rattle.bpf_isa.specs.Program.{IsWhole, Begins, IsSpelledBy, FirstFault, HasNoFault, checks_at};

use crate::fields::{read_fields, read_slot};
use crate::from_fields::read_instr;
use crate::instr::Instr;
use crate::program::{CodeFault, MOST_SLOTS, Program, push_entry};
use crate::to_fields::put_slot;
use base::causes::CodeCause;
use std::alloc::{AllocError, Global};

/// Tests that the bytes are of 1 to 4,096 whole slots.
#[tactic(auto, using(crate::proofs::Faults::is_cut, crate::proofs::Faults::is_miscounted))]
fn check_length(bytes: &[u8]) -> Result<(), CodeFault>
    ensures whole { OnOk result (IsWhole bytes.now) }
    ensures fault { IfErr result (λ f. FirstFault bytes.now f.code f.slot) }
{
    if bytes.len() % 8 != 0 {
        return Err(CodeFault {
            code: CodeCause::Length,
            slot: bytes.len() as u64 / 8,
        });
    }
    if bytes.is_empty() {
        return Err(CodeFault {
            code: CodeCause::SlotCount,
            slot: 0,
        });
    }
    if bytes.len() > 8 * MOST_SLOTS {
        return Err(CodeFault {
            code: CodeCause::SlotCount,
            slot: 0,
        });
    }
    Ok(())
}

/// The instruction that begins at this slot.
fn instr_at(bytes: &[u8], slot: usize) -> Result<Instr, CodeFault>
    requires { slot < length bytes.now / 8 }
    ensures spelled { IfOk result (λ i. IsSpelled (fields_at bytes.now slot) (slot_at bytes.now (slot + 1)) i) }
    ensures cause { IfErr result (λ f. first_failing (checks_at bytes.now slot) ≡ Some f.code) }
    ensures slot { IfErr result (λ f. f.slot ≡ slot) }
{
    match read_instr(read_fields(bytes, slot), read_slot(bytes, slot + 1)) {
        Ok(instr) => Ok(instr),
        Err(code) => Err(CodeFault {
            code,
            slot: slot as u64,
        }),
    }
}

/// Appends the slots of the instruction that begins after those read so far.
fn read_next(bytes: &[u8], slots: &mut Vec<Option<Instr>>) -> Result<(), CodeFault>
    requires whole { IsWhole bytes.now }
    requires more { length slots.old.items < length bytes.now / 8 }
    requires begins { Begins bytes.now slots.old.items }
    ensures begins { OnOk result (Begins bytes.now slots.new.items) }
    ensures longer { OnOk result (length slots.old.items < length slots.new.items) }
    ensures fault { IfErr result (λ f. (f ≡ memory_fault) ⊎ FirstFault bytes.now f.code f.slot) }
{
    match instr_at(bytes, slots.len()) {
        Ok(instr) => Ok(push_entry(slots, instr)?),
        Err(fault) => Err(fault),
    }
}

/// The program that these bytes spell, or the first fault in them.
pub fn decode(alloc: Global, bytes: &[u8]) -> Result<Program, CodeFault>
    ensures spelled { IfOk result (λ p. IsSpelledBy bytes.now p) }
    ensures clean { OnOk result (HasNoFault bytes.now) }
    ensures fault { IfErr result (λ f. (f ≡ memory_fault) ⊎ FirstFault bytes.now f.code f.slot) }
{
    check_length(bytes)?;
    let mut slots = Vec::new(alloc);
    while slots.len() < bytes.len() / 8 {
        read_next(bytes, &mut slots)?;
    }
    Ok(Program::from_slots(alloc, slots)?)
}

/// The bytes that spell the program.
pub fn encode(alloc: Global, program: &Program) -> Result<Vec<u8>, AllocError>
    ensures spelled { IfOk result (λ out. IsSpelledBy out.items program.now) }
{
    let mut out = Vec::new(alloc);
    for slot in program.as_slots() {
        put_slot(&mut out, slot)?;
    }
    Ok(out)
}
