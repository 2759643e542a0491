//! Where the program of a command is refused.

ghost use Rattle.std.specs.Prelude.{◌≤◌, IfSome};
ghost use Rattle.base.specs.Sizes.{most_sectors};

use crate::command_notes::after::log_options;
use crate::command_notes::held::bytes_of;
use base::limits::Limits;
use request::facts::{Breach, breach_of};
use request::{OptionWords, Request, TrialWords, options_of, trial_of};
use std::alloc::Global;

/// Returns how many sectors an image of `bytes` bytes has, if it may have as many.
fn sectors_of(bytes: usize) -> Option<u32>
    ensures some { IfSome result (λ sectors. 1 ≤ sectors) }
    ensures device { IfSome result (λ sectors. sectors ≤ most_sectors) }
{
    let sectors = bytes / 512;
    if sectors >= 1 && sectors <= Limits::Large.sectors() as usize {
        Some(sectors as u32)
    } else {
        None
    }
}

/// Where a program is refused for the devices of these options.
fn breach_by(alloc: Global, words: OptionWords, code: &[u8]) -> Option<Breach> {
    let options = options_of(words).ok()?;
    breach_of(alloc, code, options.sectors(), options.guards())
}

/// Where a program is refused for an image.
fn breach_for(alloc: Global, words: TrialWords, code: &[u8], image: &[u8]) -> Option<Breach> {
    let trial = trial_of(words).ok()?;
    let sectors = sectors_of(image.len())?;
    breach_of(alloc, code, sectors, trial.guards)
}

/// Where the verifier refuses the program that the file at a place holds, as the command asks for it.
pub(crate) fn breach_in(
    alloc: Global,
    request: Request,
    files: &[Option<Vec<u8>>],
    place: usize,
) -> Option<Breach> {
    let code = bytes_of(files, place)?;
    match request {
        Request::Check(words) => breach_for(alloc, words, code, bytes_of(files, 1)?),
        Request::Verify { words, .. } => breach_by(alloc, words, code),
        _ => breach_by(alloc, log_options(request)?, code),
    }
}
