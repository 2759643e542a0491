//! A failing case: what the program ends in, where a flush helps, and the parts at risk.

ghost use Rattle.std.specs.Prelude.{◌≡◌, ◌++◌, OnOk, string_bytes};
ghost use Rattle.report.specs.LineText.{ending_text};
ghost use Rattle.cases.specs.AtCut.{Apart, case_of};
ghost use Rattle.losses.specs.FoundCases.{failing_value};
ghost use Rattle.case_page.specs.CaseRows.{window_words, helps_text, case_said, row_text, case_row};

use crate::parts::{CaseRow, put_parts};
use case_text::{KnownParts, Site, window_of};
use epochs::Part;
use losses::flushes::Window;
use losses::found::FailingCase;
use page_parts::{PagePart, put, put_number};
use report::lines::put_outcome;
use std::alloc::AllocError;

/// Appends before which entries a flush takes a case away.
fn put_window(out: &mut String, window: Window) -> Result<(), AllocError>
    ensures { OnOk result (string_bytes out.new ≡ string_bytes out.old ++ window_words window) }
{
    if window.start == window.end {
        put(out, PagePart::OneFlushHelps)?;
    } else {
        put(out, PagePart::FlushHelps)?;
        put_number(out, u64::from(window.start))?;
        out.push_str(" to ")?;
    }
    put_number(out, u64::from(window.end))
}

/// Appends where a flush takes a case away.
#[tactic(auto, unfolding(crate::specs::CaseRows::helps_text))]
fn put_helps(out: &mut String, window: Option<Window>) -> Result<(), AllocError>
    ensures { OnOk result (string_bytes out.new ≡ string_bytes out.old ++ helps_text window) }
{
    match window {
        Some(window) => {
            put_window(out, window)?;
            put(out, PagePart::HelpsClose)
        }
        None => put(out, PagePart::NoFlushHelps),
    }
}

/// Appends the number of a case, what the program ends in, and where a flush takes it away.
#[tactic(auto, unfolding(crate::specs::CaseRows::case_said))]
fn put_said(out: &mut String, case: &FailingCase, window: Option<Window>) -> Result<(), AllocError>
    ensures { OnOk result (string_bytes out.new ≡ string_bytes out.old ++ case_said (failing_value case.now) window) }
{
    put(out, PagePart::CaseOpen)?;
    put_number(out, case.number as u64)?;
    out.push_str(": ")?;
    put_outcome(out, &case.outcome)?;
    out.push_str("; ")?;
    put_helps(out, window)
}

/// Appends a case, by what is the same of each of its parts.
#[tactic(auto, unfolding(crate::specs::CaseRows::row_text))]
fn put_row(
    out: &mut String,
    row: &CaseRow,
    parts: &[Part],
    case: &FailingCase,
) -> Result<(), AllocError>
    requires { Apart parts.now }
    ensures { OnOk result (string_bytes out.new ≡ string_bytes out.old ++ row_text row.now (case_of row.now.tears parts.now case.now.sets.items) parts.now (failing_value case.now)) }
{
    put_said(out, case, row.window)?;
    put(out, PagePart::CaseParts)?;
    put_parts(out, row, parts, case.sets.as_slice())?;
    put(out, PagePart::CaseClose)
}

/// Appends a failing case of a cut.
pub(crate) fn put_case(
    out: &mut String,
    known: &mut KnownParts,
    site: &Site<'_>,
    case: &FailingCase,
) -> Result<(), AllocError>
    ensures { OnOk result (string_bytes out.new ≡ string_bytes out.old ++ case_row site.now.at site.now.tears (failing_value case.now)) }
{
    let window = window_of(known, site, case)?;
    let row = CaseRow {
        by: site.by(),
        tears: site.tears(),
        window,
    };
    put_row(out, &row, site.parts(), case)?;
    Ok(())
}
