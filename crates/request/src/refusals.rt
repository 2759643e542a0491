//! The refusals of files, options and programs, and the line of a refusal.

ghost use Rattle.std.specs.Prelude.{◌≡◌, ◌++◌, IfOk, OnOk, string_bytes};
ghost use Rattle.request.specs.Settings.{option_refusal};
ghost use Rattle.request.specs.Refusals.{file_refusal, bytes_refusal};
ghost use Rattle.request.specs.FaultLine.{program_part, fault_text};

use crate::settings::OptionPlace;
use base::causes::RequestCause;
use base::refusal::{Cause, Refusal};
use bpf_isa::program::CodeFault;
use std::alloc::{AllocError, Global};

/// The refusal of what was asked for at that place.
pub fn option_refusal_of(place: OptionPlace) -> Refusal
    ensures { result ≡ option_refusal place }
{
    Refusal {
        code: Cause::Request(RequestCause::Option),
        at: place.number(),
        program: None,
    }
}

/// The refusal of a file that cannot be read: 0 is the first one, p + 1 program p.
pub fn unreadable(place: usize) -> Refusal
    ensures { result ≡ file_refusal place }
{
    Refusal {
        code: Cause::Request(RequestCause::File),
        at: place as u64,
        program: None,
    }
}

/// The refusal of the bytes of a program.
pub fn bytes_refusal_of(fault: CodeFault) -> Refusal
    ensures { result ≡ bytes_refusal fault.code fault.slot }
{
    Refusal {
        code: Cause::Code(fault.code),
        at: fault.slot,
        program: None,
    }
}

/// Appends the program that is at fault, if one is.
fn put_program_part(out: &mut String, program: Option<u8>) -> Result<(), AllocError>
    ensures { OnOk result (string_bytes out.new ≡ string_bytes out.old ++ program_part program) }
{
    match program {
        Some(number) => write!(out, " of program {number}"),
        None => Ok(()),
    }
}

/// The line that a refusal prints on standard error (docs/REFUSALS.md, All refusals): its number, its
/// place and, where one is at fault, the program.
#[tactic(auto, unfolding(crate::specs::FaultLine::fault_text))]
pub fn fault_line(alloc: Global, refusal: &Refusal) -> Result<Vec<u8>, AllocError>
    ensures { IfOk result (λ line. line.items ≡ fault_text refusal.now) }
{
    let mut out = String::new(alloc);
    let number = refusal.code.number();
    write!(out, "refused {number} at {}", refusal.at)?;
    put_program_part(&mut out, refusal.program)?;
    write!(out, "\n")?;
    Ok(out.into_bytes())
}
