//! The listings of programs.

ghost use Rattle.std.specs.Prelude.{◌≡◌, IfOk, IfErr, string_bytes};
ghost use Rattle.inspect.specs.Assembly.{listing_text, IsListed, RefusesBytes};

use base::refusal::Refusal;
use bpf_isa::codec::decode;
use bpf_isa::program::Program;
use notes::numbered_listing;
use request::bytes_refusal_of;
use std::alloc::{AllocError, Global};

/// The listing of a program, with the slots of its instructions or without.
fn listing_of(alloc: Global, program: &Program, numbered: bool) -> Result<String, AllocError>
    ensures { IfOk result (λ text. string_bytes text ≡ listing_text numbered program.now) }
{
    if numbered {
        numbered_listing(alloc, program)
    } else {
        bpf_asm::list(alloc, program)
    }
}

/// The listing of the program that bytes spell (docs/ASSEMBLY.md); numbered, each line stands after its slot.
///
/// # Errors
///
/// The first fault of the bytes, at its slot; or want of memory.
pub fn list(alloc: Global, bytes: &[u8], numbered: bool) -> Result<Vec<u8>, Refusal>
    ensures listed { IfOk result (λ text. IsListed numbered bytes.now text.items) }
    ensures refused { IfErr result (RefusesBytes bytes.now) }
{
    let program = match decode(alloc, bytes) {
        Ok(program) => program,
        Err(fault) => return Err(bytes_refusal_of(fault)),
    };
    match listing_of(alloc, &program, numbered) {
        Ok(text) => Ok(text.into_bytes()),
        Err(_error) => Err(Refusal::of_memory()),
    }
}
