//! What holds of the encoding, each law as the contract of a function that does nothing; and the
//! round trip, as the contract of a function that makes it.

ghost use Rattle.bpf_isa.specs.Forms.{IsOneTable};
ghost use Rattle.bpf_isa.specs.Running.{AgainIsNumbered, EachReady};
ghost use Rattle.bpf_isa.specs.Laws.{OneProgram, NoFaultInSpelled, OneFault};
ghost use Rattle.std.specs.Prelude.{◌≡◌, IfOk, IfErr};
ghost use Rattle.bpf_isa.specs.Decoding.{memory_fault};

use crate::codec::{decode, encode};
use crate::program::{CodeFault, Program};
use std::alloc::Global;

/// The opcode of each form tells that form, and each known opcode is that of its form.
#[tactic(auto, using(crate::proofs::Forms::told, crate::proofs::Table::forth))]
pub fn one_table()
    ensures { IsOneTable }
{}

/// Bytes spell one program at most.
pub fn one_program()
    ensures { OneProgram }
{}

/// Bytes that spell a program have no fault, so `decode` takes whatever `encode` gives, memory aside.
pub fn no_fault_in_spelled()
    ensures { NoFaultInSpelled }
{}

/// The record of each slot is that of its instruction, and one record stands after the end.
pub fn each_ready()
    ensures { EachReady }
{}

/// The records of slots that call `again` have numbers of their own, below that of all such slots.
pub fn again_is_numbered()
    ensures { AgainIsNumbered }
{}

/// Bytes have one first fault at most.
pub fn one_fault()
    ensures { OneFault }
{}

/// The program that its own bytes spell, which is the same one.
pub fn round_trip(alloc: Global, program: &Program) -> Result<Program, CodeFault>
    ensures same { IfOk result (λ again. again ≡ program.now) }
    ensures fault { IfErr result (λ f. f ≡ memory_fault) }
{
    let bytes = encode(alloc, program)?;
    decode(alloc, bytes.as_slice())
}
