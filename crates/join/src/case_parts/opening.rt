//! The first lines of a text of cases: its title, and the number of the inputs of a run of a range of the cuts.

ghost use Rattle.std.specs.Prelude.{◌≡◌, IfOk, MatchOption, string_bytes};
ghost use Rattle.case_text.specs.Text.{has_range, opening_text};
ghost use Rattle.join.specs.Heads.{IsSmallOption};
ghost use Rattle.join.specs.CaseTexts.{are_inputs_of_run};
ghost use Rattle.join.specs.CaseReading.{IsOpening, NoOpening, ReadsInputs};

use crate::words::beyond;
use case_text::{has_range, put_opening};
use report::Head;
use report::printed::{cut, number};
use std::alloc::{AllocError, Global};

/// The number of the inputs that the first lines of a text tell, if they tell one.
#[tactic(auto, using(crate::proofs::CaseOpenings::number_read, crate::proofs::CaseOpenings::none_read))]
fn inputs_said(text: &str) -> Option<u64>
    ensures read { ReadsInputs text.now result }
    ensures small { IsSmallOption result }
{
    match beyond("crash cases 1\ninputs ", text) {
        Some(rest) => {
            let (word, _lines) = cut(rest, '\n');
            Some(number(word))
        }
        None => None,
    }
}

/// The number of the inputs that a text tells, and what stands after its first lines, if it begins with these to the byte.
#[tactic(auto, using(crate::proofs::CaseOpenings::found_opening))]
pub(crate) fn read_opening<'t>(
    alloc: Global,
    text: &'t str,
) -> Result<Option<(Option<u64>, &'t str)>, AllocError>
    ensures { IfOk result (λ found. MatchOption found (NoOpening text.now) (λ x. IsOpening text.now x.0 x.1.now)) }
{
    let inputs = inputs_said(text);
    let mut printed = String::new(alloc);
    put_opening(&mut printed, inputs)?;
    match beyond(printed.as_str(), text) {
        Some(rest) => Ok(Some((inputs, rest))),
        None => Ok(None),
    }
}

/// Whether a run with that head tells the number of its inputs so.
pub(crate) fn are_inputs_of_run(head: &Head, inputs: Option<u64>) -> bool
    ensures { result ≡ are_inputs_of_run head.now inputs }
{
    let is_range = has_range(&head.cuts);
    match inputs {
        Some(_inputs) => is_range,
        None => !is_range,
    }
}
