//! A text of cases, read as a whole.

ghost use Rattle.std.specs.Prelude.{◌≡◌, ◌≤◌, ◌^◌, IfOk, MatchOption, length};
ghost use Rattle.std.specs.Str.{IsUtf8};
ghost use Rattle.join.specs.CaseTexts.{NoCasesText};
ghost use Rattle.join.specs.CaseReading.{IsCasesPart, IsOpening};

use crate::case_parts::heading::read_head;
use crate::case_parts::line::read_lines;
use crate::case_parts::opening::{are_inputs_of_run, read_opening};
use crate::case_parts::totals::{CaseTotals, are_totals_of_run, is_totals, totals_said};
use crate::words::before;
use losses::found::Losses;
use report::Head;
use std::alloc::{AllocError, Global};
use std::marker::Model;

/// What is read of a text of cases.
#[derive(Drop)]
pub struct CasePart<'t> {
    /// The number of the inputs, where it tells one.
    pub(crate) inputs: Option<u64>,
    /// Its options and programs.
    pub(crate) head: Head,
    /// What is asked of losses.
    pub(crate) asked: Losses,
    /// The lines of its cases.
    pub(crate) lines: &'t [u8],
    /// What they come to.
    pub(crate) totals: CaseTotals,
    /// The number of its file.
    pub(crate) file: u32,
}

impl<'t> Model for CasePart<'t> {
    ghost use Rattle.join.specs.CaseReading.{CasesRead};

    ghost Value = { CasesRead };

    ghost view = { λ p. record { inputs = p.inputs; head = p.head; asked = p.asked; lines = p.lines.now; totals = p.totals; file = p.file } };
}

/// What is read of a text of cases after its first lines; none where it is the text of none.
fn read_rest<'t>(
    alloc: Global,
    file: u32,
    whole: &str,
    inputs: Option<u64>,
    text: &'t str,
) -> Result<Option<CasePart<'t>>, AllocError>
    requires short { length text.now ≤ 2 ^ 30 }
    requires utf8 { IsUtf8 whole.now }
    requires opened { IsOpening whole.now inputs text.now }
    ensures { IfOk result (λ found. MatchOption found (NoCasesText whole.now) (λ part. IsCasesPart whole.now part × (part.file ≡ file))) }
{
    let _whole = whole;
    let Some((head, asked, found)) = read_head(alloc, text)? else {
        return Ok(None);
    };
    if !are_inputs_of_run(&head, inputs) {
        return Ok(None);
    }
    let (tally, last) = read_lines(alloc, &head, found)?;
    let totals = totals_said(last);
    if !tally.rising {
        return Ok(None);
    }
    if !are_totals_of_run(&head, tally.lines, tally.cuts, totals) {
        return Ok(None);
    }
    if !is_totals(alloc, &head, totals, last)? {
        return Ok(None);
    }
    Ok(Some(CasePart {
        inputs,
        head,
        asked,
        lines: before(found, last),
        totals,
        file,
    }))
}

/// What is read of a text of cases; none where it is the text of none.
///
/// # Errors
///
/// Want of memory.
#[tactic(auto, using(crate::proofs::CaseWholes::no_opening_no_cases, crate::proofs::CaseWholes::rest_short))]
pub(crate) fn read_text<'t>(
    alloc: Global,
    file: u32,
    text: &'t str,
) -> Result<Option<CasePart<'t>>, AllocError>
    requires short { length text.now ≤ 2 ^ 30 }
    requires utf8 { IsUtf8 text.now }
    ensures { IfOk result (λ found. MatchOption found (NoCasesText text.now) (λ part. IsCasesPart text.now part × (part.file ≡ file))) }
{
    match read_opening(alloc, text)? {
        Some((inputs, rest)) => read_rest(alloc, file, text, inputs, rest),
        None => Ok(None),
    }
}
