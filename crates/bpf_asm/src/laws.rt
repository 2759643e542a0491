//! What holds of texts and listings, each law as the contract of a function that does nothing; and
//! the round trip, as the contract of a function that makes it.

ghost use Rattle.std.specs.Prelude.{◌≡◌, IfOk, IfErr};
ghost use Rattle.bpf_asm.specs.Laws.{OneProgram, ListingSays};
ghost use Rattle.bpf_asm.specs.Says.{memory_fault};

use crate::assembler::assemble;
use crate::fault::AsmFault;
use crate::listing::list;
use bpf_isa::program::Program;
use std::alloc::Global;

/// A text says one program at most.
pub fn one_program()
    ensures { OneProgram }
{}

/// The listing of a program says that program.
pub fn listing_says()
    ensures { ListingSays }
{}

/// The program that its own listing says, which is the same one.
pub fn round_trip(alloc: Global, program: &Program) -> Result<Program, AsmFault>
    ensures same { IfOk result (λ again. again ≡ program.now) }
    ensures fault { IfErr result (λ f. f ≡ memory_fault) }
{
    let text = list(alloc, program)?;
    assemble(alloc, text.as_str())
}
