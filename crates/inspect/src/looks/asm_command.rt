//! Programs from source texts.

ghost use Rattle.std.specs.Prelude.{◌≡◌, IfOk, IfErr};
ghost use Rattle.inspect.specs.Assembly.{text_refusal, IsAssembled, RefusesText};

use base::refusal::{Cause, Refusal};
use bpf_asm::fault::AsmFault;
use bpf_isa::codec::encode;
use request::unreadable;
use std::alloc::Global;

/// The refusal of a source text.
fn text_refusal_of(fault: AsmFault) -> Refusal
    ensures { result ≡ text_refusal fault.code fault.line }
{
    Refusal {
        code: Cause::Asm(fault.code),
        at: fault.line,
        program: None,
    }
}

/// The bytes of the program that a source text says (docs/ASSEMBLY.md).
///
/// # Errors
///
/// The text is no UTF-8, 14 at 0; or it says no program, at its line; or want of memory.
pub fn assemble(alloc: Global, text: &[u8]) -> Result<Vec<u8>, Refusal>
    ensures says { IfOk result (λ bytes. IsAssembled text.now bytes.items) }
    ensures refused { IfErr result (RefusesText text.now) }
{
    let characters = match str::from_utf8(text) {
        Ok(characters) => characters,
        Err(_error) => return Err(unreadable(0)),
    };
    let program = match bpf_asm::assemble(alloc, characters) {
        Ok(program) => program,
        Err(fault) => return Err(text_refusal_of(fault)),
    };
    match encode(alloc, &program) {
        Ok(bytes) => Ok(bytes),
        Err(_error) => Err(Refusal::of_memory()),
    }
}
