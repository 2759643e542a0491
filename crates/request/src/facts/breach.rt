//! Where the verifier refuses a program, and what it knows there.

ghost use Rattle.std.specs.Prelude.{◌≡◌, ◌≤◌, IsTrue, IfSome};
ghost use Rattle.base.specs.Sizes.{most_sectors};
ghost use Rattle.bpf_isa.specs.Slots.{at};
ghost use Rattle.request.specs.Breach.{FindsBreach};

use base::causes::VerifierCause;
use bpf_isa::codec::decode;
use bpf_isa::instr::Instr;
use bpf_isa::program::Program;
use ranges::State;
use std::alloc::Global;
use verifier::{Unaccepted, verify_with};

/// Where the verifier refuses a program.
#[derive(Clone, Copy)]
pub struct Breach {
    /// The instruction that begins at the slot, if one does.
    pub instr: Option<Instr>,
    /// What is known there; none where nothing is.
    pub state: Option<State>,
}

/// The instruction of a refusal, and what is known there.
fn breach_at(program: &Program, unaccepted: &Unaccepted) -> Breach
    ensures instr { result.instr ≡ at program.now unaccepted.now.fault.slot }
    ensures state { result.state ≡ unaccepted.now.known }
{
    Breach {
        instr: program.at(unaccepted.fault.slot as usize),
        state: unaccepted.known,
    }
}

/// Where the verifier refuses the program that bytes spell, for devices of that many sectors, with guards or without, and what it
/// knows there. None where it accepts the program, where the bytes spell none, or for want of memory.
pub fn breach_of(alloc: Global, bytes: &[u8], sectors: u32, guards: bool) -> Option<Breach>
    requires some { 1 ≤ sectors }
    requires device { sectors ≤ most_sectors }
    ensures { IfSome result (FindsBreach guards bytes.now sectors) }
{
    let Ok(program) = decode(alloc, bytes) else {
        return None;
    };
    match verify_with(alloc, &program, sectors, guards) {
        Ok(_verified) => None,
        Err(unaccepted) => match unaccepted.fault.code {
            VerifierCause::Memory => None,
            _ => Some(breach_at(&program, &unaccepted)),
        },
    }
}
