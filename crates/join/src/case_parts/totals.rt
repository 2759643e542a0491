//! The last line of a text of cases.

ghost use Rattle.std.specs.Prelude.{◌≡◌, ◌++◌, ◌↔◌, ◌+◌, ◌<◌, ◌≤◌, ◌^◌, IfOk, IsTrue, OnOk, string_bytes};
ghost use Rattle.join.specs.CaseTexts.{are_totals_of_run, first_of, last_of, totals_line};
ghost use Rattle.case_text.specs.Text.{are_all_cuts};
ghost use Rattle.join.specs.CaseReading.{ReadsSecond, ReadsTotals};
ghost use Rattle.join.specs.Heads.{IsPrintedHead};

use crate::case_parts::judging::MOST_CASES;
use crate::words::next_word;
use case_text::{are_all_cuts, put_beyond, put_complete, put_counts};
use report::Head;
use report::printed::{cut, number};
use std::alloc::{AllocError, Global};

/// What the cases of a run come to: how many cuts were explored, how many cases they have, how many of these fail, and how many were left
/// out since more parts are torn, and since more are lost.
#[derive(Clone, Copy, Drop)]
pub struct CaseTotals {
    pub(crate) cuts: u64,
    pub(crate) cases: u64,
    pub(crate) failing: u64,
    pub(crate) torn: u64,
    pub(crate) lost: u64,
}

/// The word after the first one of a line, and what stands after it.
#[tactic(auto, using(crate::proofs::CaseLasts::second_read))]
fn second(line: &str) -> (&str, &str)
    ensures { ReadsSecond line.now result.0.now result.1.now }
{
    let (_name, rest) = next_word(line);
    next_word(rest)
}

/// What a last line says, and something where it is none.
#[tactic(auto, using(crate::proofs::CaseLasts::totals_read))]
pub(crate) fn totals_said(text: &str) -> CaseTotals
    ensures { ReadsTotals text.now result }
{
    let (line, _rest) = cut(text, '\n');
    let (cuts, line) = second(line);
    let (cases, line) = second(line);
    let (failing, line) = second(line);
    let (_torn, line) = next_word(line);
    let (torn, line) = second(line);
    let (_lost, line) = next_word(line);
    let (lost, _line) = second(line);
    CaseTotals {
        cuts: number(cuts),
        cases: number(cases),
        failing: number(failing),
        torn: number(torn),
        lost: number(lost),
    }
}

/// Appends the last line, of a run that was asked for each cut of its log or for some.
#[tactic(auto, unfolding(crate::specs::CaseTexts::totals_line))]
pub(crate) fn put_totals(out: &mut String, all: bool, totals: CaseTotals) -> Result<(), AllocError>
    ensures { OnOk result (string_bytes out.new ≡ string_bytes out.old ++ totals_line all totals) }
{
    put_counts(out, totals.cuts, totals.cases, totals.failing)?;
    put_beyond(out, totals.torn, totals.lost)?;
    put_complete(out, all, totals.torn, totals.lost)?;
    write!(out, "\n")?;
    Ok(())
}

/// Whether a text is that last line, of a run with that head.
pub(crate) fn is_totals(
    alloc: Global,
    head: &Head,
    totals: CaseTotals,
    text: &str,
) -> Result<bool, AllocError>
    ensures { IfOk result (λ is. IsTrue is ↔ (text.now ≡ totals_line (are_all_cuts head.now.cuts) totals)) }
{
    let mut printed = String::new(alloc);
    put_totals(&mut printed, are_all_cuts(&head.cuts), totals)?;
    Ok(printed.as_str() == text)
}

/// The first cut that is explored.
pub(crate) fn first_of(head: &Head) -> u64
    ensures { result ≡ first_of head.now }
{
    head.cuts.from.unwrap_or(0)
}

/// The last cut that is explored.
pub(crate) fn last_of(head: &Head) -> u64
    ensures { result ≡ last_of head.now }
{
    head.cuts.to.unwrap_or(u64::from(head.entries))
}

/// Whether the totals can be those of that many lines, at that many cuts, of a run with that head.
#[tactic(auto, using(crate::proofs::CaseLasts::last_small))]
pub(crate) fn are_totals_of_run(head: &Head, lines: u64, cuts: u64, totals: CaseTotals) -> bool
    requires { IsPrintedHead head.now }
    ensures { result ≡ are_totals_of_run head.now lines cuts totals }
{
    let first = first_of(head);
    let last = last_of(head);
    ((totals.failing == lines && lines <= totals.cases) && totals.cases <= MOST_CASES)
        && (cuts <= totals.cuts && totals.cuts <= (last + 1).saturating_sub(first))
}
