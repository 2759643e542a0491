//! Programs from texts.

ghost use Rattle.std.specs.Prelude.{◌≡◌, ◌⊎◌, ◌<◌, ◌≤◌, ◌^◌, ℕ, ℤ, List, Option, Some, IfOk, IfErr, bytes_eq};
ghost use Rattle.std.specs.HashMap as hash;
ghost use Rattle.bpf_asm.specs.Statements.{name_value};
ghost use Rattle.base.specs.declared.causes.AsmCause.TheVariants.{Memory};
ghost use Rattle.bpf_asm.specs.Says.{Says, SaysNone, SaysNothing, aim, away, instr_at, memory_fault, empty_fault};
ghost use Rattle.bpf_asm.specs.Outlines.{Stands, IsPlaced, IsUnplaced, LabelsFit};

use crate::fault::{AsmCause, AsmFault, of_code};
use crate::outline::{Outline, WantedLabel, read_outline};
use bpf_isa::instr::Instr;
use bpf_isa::program::Program;
use indexmap::IndexMap;
use std::alloc::Global;

/// The instruction with this distance, where it has one.
fn aim(instr: Instr, distance: i16) -> Instr
    ensures { result ≡ aim distance instr }
{
    match instr {
        Instr::Jump { .. } => Instr::Jump { offset: distance },
        Instr::LongJump { .. } => Instr::LongJump {
            offset: distance as i32,
        },
        Instr::Branch {
            width,
            condition,
            dst,
            source,
            ..
        } => Instr::Branch {
            width,
            condition,
            dst,
            source,
            offset: distance,
        },
        Instr::CallLocal { .. } => Instr::CallLocal {
            offset: distance as i32,
        },
        other => other,
    }
}

/// The distance from the slot after an instruction to a slot.
fn distance(slot: usize, to: usize) -> i16
    requires slot { slot ≤ 4096 }
    requires to { to ≤ 4096 }
    ensures { result ≡ away slot to }
{
    (to as i64 - (slot as i64 + 1)) as i16
}

/// The instruction at this slot, with the distance to the label that it names.
#[tactic(auto, unfolding(crate::specs::Says::instr_at))]
fn place(
    labels: &IndexMap<&[u8], usize>,
    instr: Instr,
    label: Option<&[u8]>,
    slot: usize,
) -> Option<Instr>
    requires slot { slot ≤ 4096 }
    requires labels { LabelsFit (λ q. hash.get_by (λ k. bytes_eq q k.now) labels.now) }
    ensures { result ≡ instr_at (λ q. hash.get_by (λ k. bytes_eq q k.now) labels.now) slot (record { instr = instr; label = name_value label.entry }) }
{
    let Some(name) = label else {
        return Some(instr);
    };
    let Some(to) = labels.get(name) else {
        return None;
    };
    Some(aim(instr, distance(slot, *to)))
}

/// The instructions, each with the distance to the label that it names.
fn place_all(alloc: Global, outline: &Outline<'_>) -> Result<Vec<Instr>, AsmFault>
    requires { Stands outline.now }
    ensures placed { IfOk result (λ instrs. IsPlaced outline.now instrs.items) }
    ensures fault { IfErr result (λ f. (f ≡ memory_fault) ⊎ IsUnplaced outline.now) }
    ensures memory { IfErr result (λ f. f.code ≡ Memory → f ≡ memory_fault) }
{
    let mut instrs = Vec::new(alloc);
    let mut slot = 0;
    for (i, instr) in outline.instrs.iter().enumerate() {
        let wanted = &outline.wanted[i];
        let Some(placed) = place(&outline.labels, *instr, wanted.label, slot) else {
            return Err(AsmFault {
                code: AsmCause::UnknownLabel,
                line: wanted.line,
            });
        };
        instrs.extend_from_slice(&[placed])?;
        slot += if instr.is_wide() { 2 } else { 1 };
    }
    Ok(instrs)
}

/// The program that a text says.
///
/// # Errors
///
/// The first line that says nothing, repeats a label or has no room for its instruction; or the first
/// that names an unknown label; or, at no line, that there are no instructions; or want of memory.
pub fn assemble(alloc: Global, text: &str) -> Result<Program, AsmFault>
    ensures says { IfOk result (λ program. Says text.now program) }
    ensures fault { IfErr result (λ f. (f ≡ memory_fault) ⊎ SaysNone text.now) }
    ensures empty { SaysNothing text.now → IfErr result (λ f. (f ≡ memory_fault) ⊎ (f ≡ empty_fault)) }
    ensures memory { IfErr result (λ f. f.code ≡ Memory → f ≡ memory_fault) }
{
    let outline = read_outline(alloc, text.as_bytes())?;
    let instrs = place_all(alloc, &outline)?;
    match Program::of(alloc, instrs) {
        Ok(program) => Ok(program),
        Err(fault) => Err(of_code(fault)),
    }
}
