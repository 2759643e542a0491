//! Rule 44: local calls within local calls.

ghost use Rattle.std.specs.Prelude.{◌≡◌, ◌<◌, ◌⊎◌, IsTrue, ◌↔◌, OnOk, IfOk, IfErr, length, is_some, true};
ghost use Rattle.bpf_isa.specs.Program.{IsProgram};
ghost use Rattle.bpf_shape.specs.Fault.{memory_fault};
ghost use Rattle.bpf_shape.specs.Edges.{control};
ghost use Rattle.bpf_shape.specs.Chains.{IsFourth};
ghost use Rattle.bpf_shape.specs.Search.{EdgesFit, EntriesFit};
ghost use Rattle.bpf_shape.specs.Rules.{Breaks, Holds};
ghost use Rattle.bpf_shape.specs.Keeping.{IsBrokenAt, AreDeep};
ghost use Rattle.base.specs.declared.causes.VerifierCause.TheVariants as cause;

use crate::calls::callee;
use crate::fault::Fault;
use crate::search::{EdgeKind, reach_of_entries, reached_from};
use base::causes::VerifierCause;
use bpf_isa::program::Program;
use std::alloc::{AllocError, Global};

/// For each slot, whether it is reached from the entry of the third of three local calls in a chain
/// whose first is reached from slot 0.
fn deep_slots(alloc: Global, program: &Program) -> Result<Vec<bool>, AllocError>
    requires edges { EdgesFit (control program.now) (length program.now) }
    requires entries { EntriesFit program.now }
    requires program { IsProgram program.now }
    ensures { IfOk result (λ deep. AreDeep program.now deep.items) }
{
    let outer = reached_from(alloc, program, EdgeKind::All, 0)?;
    let first = reach_of_entries(alloc, program, &outer)?;
    let second = reach_of_entries(alloc, program, &first)?;
    let deep = reach_of_entries(alloc, program, &second)?;
    Ok(deep)
}

/// Whether the local call at a slot, if there is one, is within itself, or the last of four in a chain
/// from slot 0.
fn is_refused(
    alloc: Global,
    program: &Program,
    deep: &Vec<bool>,
    slot: usize,
) -> Result<bool, AllocError>
    requires edges { EdgesFit (control program.now) (length program.now) }
    requires entries { EntriesFit program.now }
    requires deep { AreDeep program.now deep.now.items }
    requires slot { slot < length program.now }
    ensures { IfOk result (λ refused. IsTrue refused ↔ Breaks true program.now cause.CallDepth slot) }
{
    match callee(program, slot) {
        Some(entry) => {
            if deep[slot] {
                return Ok(true);
            }
            let marks = reached_from(alloc, program, EdgeKind::Entering, entry)?;
            Ok(marks[slot])
        }
        None => Ok(false),
    }
}

/// Tests that no local call is within itself, and none the last of four in a chain from slot 0, and
/// names the lowest that is.
pub(crate) fn keep_calls(alloc: Global, program: &Program) -> Result<(), Fault>
    requires edges { EdgesFit (control program.now) (length program.now) }
    requires entries { EntriesFit program.now }
    requires program { IsProgram program.now }
    ensures kept { OnOk result (Holds true program.now cause.CallDepth) }
    ensures refused { IfErr result (λ f. (f ≡ memory_fault) ⊎ IsBrokenAt true program.now cause.CallDepth f) }
{
    let deep = deep_slots(alloc, program)?;
    for slot in 0..program.slots() {
        if is_refused(alloc, program, &deep, slot)? {
            return Err(Fault::at(VerifierCause::CallDepth, slot));
        }
    }
    Ok(())
}
