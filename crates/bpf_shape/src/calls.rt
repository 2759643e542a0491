//! Local calls and their entries.

ghost use Rattle.std.specs.Prelude.{◌≡◌, ◌<◌, ℕ, None, IsFalse};
ghost use Rattle.bpf_shape.specs.Calls.{callee_of, callee};

use crate::edges::target_slot;
use bpf_isa::instr::Instr;
use bpf_isa::program::Program;

/// The entry of the local function that an instruction at a slot calls. An entry past either end of
/// the program is a number of which the program has no slot.
#[tactic(auto, unfolding(crate::specs::Calls::callee_of))]
pub fn callee_of(slot: usize, instr: &Instr) -> Option<usize>
    requires { slot < 4096 }
    ensures { result ≡ callee_of slot instr.now }
{
    match instr {
        Instr::CallLocal { offset } => Some(target_slot(slot, i64::from(*offset))),
        _ => None,
    }
}

/// The entry of the local call at a slot.
#[tactic(auto, unfolding(crate::specs::Calls::callee))]
pub fn callee(program: &Program, slot: usize) -> Option<usize>
    ensures { result ≡ callee program.now slot }
{
    match program.at(slot) {
        Some(instr) => callee_of(slot, &instr),
        None => None,
    }
}

/// Whether a slot of the program has a local call.
pub(crate) fn has_calls(program: &Program) -> bool
    ensures { IsFalse result → (slot : ℕ) → callee program.now slot ≡ None }
{
    for slot in 0..program.slots() {
        if callee(program, slot).is_some() {
            return true;
        }
    }
    false
}
