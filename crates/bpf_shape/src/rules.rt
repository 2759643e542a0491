//! The rules that look at one slot and those beside it.

ghost use Rattle.std.specs.Prelude.{◌≡◌, ◌<◌, ◌==◌, nat_le, not, ◌&&◌, true, OnOk, IfErr};
ghost use Rattle.std.specs.Option.{option_map_or, option_and_then};
ghost use Rattle.bpf_isa.specs.Slots.{at};
ghost use Rattle.bpf_shape.specs.Edges.{begins};
ghost use Rattle.bpf_shape.specs.Again.{helper_number};
ghost use Rattle.bpf_shape.specs.Calls.{callee};
ghost use Rattle.bpf_shape.specs.Rules.{written_register, is_equality, has_form, last_helper, keeps, Holds, FirstBroken};
ghost use Rattle.bpf_shape.specs.Keeping.{IsOfSlots, IsBrokenAt, KeepsAll};

use crate::again::{answer_test, calls_again, helper_number, is_target, limit_before};
use crate::calls::callee;
use crate::edges::control;
use crate::fault::Fault;
use base::causes::VerifierCause;
use bpf_isa::instr::{Condition, Instr};
use bpf_isa::program::Program;
use bpf_isa::register::Register;

/// The register that arithmetic, a load or a 64-bit immediate writes.
fn written_register(instr: &Instr) -> Option<Register>
    ensures { result ≡ written_register instr.now }
{
    match instr {
        Instr::Arithmetic { dst, .. } => Some(*dst),
        Instr::Negate { dst, .. } => Some(*dst),
        Instr::SignExtend { dst, .. } => Some(*dst),
        Instr::ByteOrder { dst, .. } => Some(*dst),
        Instr::Load { dst, .. } => Some(*dst),
        Instr::LoadSigned { dst, .. } => Some(*dst),
        Instr::LoadImmediate { dst, .. } => Some(*dst),
        Instr::Jump { .. }
        | Instr::LongJump { .. }
        | Instr::Branch { .. }
        | Instr::CallHelper { .. }
        | Instr::CallLocal { .. }
        | Instr::Exit
        | Instr::StoreImmediate { .. }
        | Instr::Store { .. } => None,
    }
}

/// Whether an edge leads to a slot in which an instruction begins, where there is an edge.
fn begins(program: &Program, slot: Option<usize>) -> bool
    ensures { result ≡ option_map_or (begins program.now) slot true }
{
    match slot {
        Some(slot) => program.at(slot).is_some(),
        None => true,
    }
}

/// Whether the instruction at a slot leaves r10 as it is.
fn keeps_frame_pointer(program: &Program, slot: usize) -> bool
    ensures { result ≡ option_map_or (λ r. not (r == 10)) (option_and_then written_register (at program.now slot)) true }
{
    match program.at(slot) {
        Some(instr) => match written_register(&instr) {
            Some(register) => register.number() != 10,
            None => true,
        },
        None => true,
    }
}

/// The greatest number of a helper, with guards or without.
fn last_helper(guards: bool) -> u32
    ensures { result ≡ last_helper guards }
{
    if guards { 11 } else { 7 }
}

/// Whether the instruction at a slot, if it calls a helper, calls one that there is, with guards or without.
fn calls_known_helper(program: &Program, slot: usize, guards: bool) -> bool
    ensures { result ≡ option_map_or (λ n. nat_le 1 n && nat_le n (last_helper guards)) (option_and_then helper_number (at program.now slot)) true }
{
    match program.at(slot) {
        Some(instr) => match helper_number(&instr) {
            Some(number) => 1 <= number && number <= last_helper(guards),
            None => true,
        },
        None => true,
    }
}

/// Whether the answer of `again` is compared for equal or not equal.
fn is_equality(test: Option<Condition>) -> bool
    ensures { result ≡ is_equality test }
{
    matches!(test, Some(Condition::Eq | Condition::Ne))
}

/// Whether the instructions around a call of `again` have the form.
#[tactic(auto, unfolding(crate::specs::Rules::has_form))]
fn has_form(program: &Program, slot: usize) -> bool
    requires { slot < 4096 }
    ensures { result ≡ has_form program.now slot }
{
    limit_before(program, slot).is_some()
        && is_equality(answer_test(program, slot + 1))
        && !is_target(program, slot)
        && !is_target(program, slot + 1)
}

/// Whether a slot keeps that rule, one of those that look at one slot.
#[tactic(auto, unfolding(crate::specs::Rules::keeps))]
fn keeps(program: &Program, rule: VerifierCause, slot: usize, guards: bool) -> bool
    requires { slot < 4096 }
    ensures { result ≡ keeps guards program.now rule slot }
{
    match rule {
        VerifierCause::Target => {
            begins(program, control(program, slot).target) && begins(program, callee(program, slot))
        }
        VerifierCause::End => begins(program, control(program, slot).next),
        VerifierCause::FramePointer => keeps_frame_pointer(program, slot),
        VerifierCause::UnknownHelper => calls_known_helper(program, slot, guards),
        VerifierCause::AgainForm => !calls_again(program, slot) || has_form(program, slot),
        _ => true,
    }
}

/// Tests that each slot keeps a rule, and names the lowest that doesn't.
fn keep(program: &Program, rule: VerifierCause, guards: bool) -> Result<(), Fault>
    requires { IsOfSlots rule }
    ensures kept { OnOk result (Holds guards program.now rule) }
    ensures refused { IfErr result (λ f. IsBrokenAt guards program.now rule f) }
{
    for slot in 0..program.slots() {
        if !keeps(program, rule, slot, guards) {
            return Err(Fault::at(rule, slot));
        }
    }
    Ok(())
}

/// Tests the rules that look at one slot, in their order.
pub(crate) fn keep_all(program: &Program, guards: bool) -> Result<(), Fault>
    ensures kept { OnOk result (KeepsAll guards program.now) }
    ensures refused { IfErr result (λ f. FirstBroken guards program.now f.code f.slot) }
{
    keep(program, VerifierCause::Target, guards)?;
    keep(program, VerifierCause::End, guards)?;
    keep(program, VerifierCause::FramePointer, guards)?;
    keep(program, VerifierCause::UnknownHelper, guards)?;
    keep(program, VerifierCause::AgainForm, guards)?;
    Ok(())
}
