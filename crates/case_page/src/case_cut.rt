//! The cuts at which cases fail, each with its first cases.

ghost use Rattle.std.specs.Prelude.{◌≡◌, ◌≤◌, ◌++◌, ◌-◌, All, length, take, OnOk, string_bytes};
ghost use Rattle.losses.specs.declared.found.CutFound.{CutFound as FoundValue};
ghost use Rattle.case_page.specs.Counts.{failing_of};
ghost use Rattle.page_parts.specs.Blocks.{most_cells};
ghost use Rattle.case_page.specs.CasePage.{run_of, cut_at, case_rows, rest_text, case_head, cut_shown, cut_text, listed_text, cuts_text};

use crate::case_row::put_case;
use crate::counts::{case_count, failing_count, failing_of};
use crate::run::CaseRun;
use case_text::{KnownParts, Site};
use losses::found::{CutFound, FailingCase};
use page_parts::{
    MOST_CELLS, PagePart, Showing, one_failing, put, put_begin, put_body, put_number, shown_of,
};
use std::alloc::{AllocError, Global};

/// Appends failing cases of a cut.
fn put_rows(
    out: &mut String,
    known: &mut KnownParts,
    site: &Site<'_>,
    failing: &[FailingCase],
) -> Result<(), AllocError>
    ensures { OnOk result (string_bytes out.new ≡ string_bytes out.old ++ case_rows site.now.at site.now.tears failing.now) }
{
    for case in failing {
        put_case(out, known, site, case)?;
    }
    Ok(())
}

/// Appends failing cases of the cut of that number.
fn put_cases(
    alloc: Global,
    out: &mut String,
    run: &CaseRun<'_>,
    cut: u32,
    failing: &[FailingCase],
) -> Result<(), AllocError>
    requires { cut ≤ length run.now.log.now.entries }
    ensures { OnOk result (string_bytes out.new ≡ string_bytes out.old ++ case_rows (cut_at (run_of run.now) cut) run.now.tears failing.now) }
{
    let mut known = KnownParts::new(alloc);
    let site = Site::new(alloc, run.plan, run.log, run.by, run.tears, cut)?;
    put_rows(out, &mut known, &site, failing)
}

/// Appends how many cases aren't shown.
#[tactic(auto, unfolding(crate::specs::CasePage::rest_text))]
fn put_rest(out: &mut String, count: usize) -> Result<(), AllocError>
    ensures { OnOk result (string_bytes out.new ≡ string_bytes out.old ++ rest_text count) }
{
    if count == 0 {
        return Ok(());
    }
    put(out, PagePart::RestOpen)?;
    put_number(out, count as u64)?;
    put(out, PagePart::RestCases)
}

/// Appends the line of a cut.
#[tactic(auto, unfolding(crate::specs::CasePage::case_head))]
fn put_head(
    out: &mut String,
    run: &CaseRun<'_>,
    how: Showing,
    cut: &CutFound,
) -> Result<(), AllocError>
    requires { cut.now.cut ≤ length run.now.log.now.entries }
    ensures { OnOk result (string_bytes out.new ≡ string_bytes out.old ++ case_head (run_of run.now) how cut.now) }
{
    let count = case_count(how.program, cut);
    put_begin(out, run.plan, how.is_open, &count)?;
    put_body(out, how.program, cut.cut)
}

/// Appends a cut with some of its cases.
#[tactic(auto, unfolding(crate::specs::CasePage::cut_shown))]
fn put_shown_cut(
    alloc: Global,
    out: &mut String,
    run: &CaseRun<'_>,
    how: Showing,
    cut: &CutFound,
) -> Result<(), AllocError>
    requires cut { cut.now.cut ≤ length run.now.log.now.entries }
    requires shown { how.rows ≤ length (failing_of how.program cut.now) }
    ensures { OnOk result (string_bytes out.new ≡ string_bytes out.old ++ cut_shown (run_of run.now) how cut.now) }
{
    let failing = failing_of(how.program, cut);
    put_head(out, run, how, cut)?;
    put_cases(alloc, out, run, cut.cut, &failing[..how.rows])?;
    put_rest(out, failing.len() - how.rows)?;
    put(out, PagePart::CutClose)
}

/// Appends a cut, where cases fail.
fn put_cut(
    alloc: Global,
    out: &mut String,
    run: &CaseRun<'_>,
    how: Showing,
    cut: &CutFound,
) -> Result<(), AllocError>
    requires cut { cut.now.cut ≤ length run.now.log.now.entries }
    requires shown { how.rows ≤ length (failing_of how.program cut.now) }
    ensures { OnOk result (string_bytes out.new ≡ string_bytes out.old ++ cut_text (run_of run.now) how cut.now) }
{
    if failing_count(how.program, cut) == 0 {
        return Ok(());
    }
    put_shown_cut(alloc, out, run, how, cut)
}

/// Appends a cut, where that many failing cuts may still be listed.
fn put_listed(
    alloc: Global,
    out: &mut String,
    run: &CaseRun<'_>,
    lines: usize,
    how: Showing,
    cut: &CutFound,
) -> Result<(), AllocError>
    requires cut { cut.now.cut ≤ length run.now.log.now.entries }
    requires shown { how.rows ≤ length (failing_of how.program cut.now) }
    ensures { OnOk result (string_bytes out.new ≡ string_bytes out.old ++ listed_text (run_of run.now) lines how cut.now) }
{
    if lines == 0 {
        return Ok(());
    }
    put_cut(alloc, out, run, how, cut)
}

/// Appends the first cuts at which cases fail, with that many cases at most.
#[tactic(auto, using(crate::proofs::CaseTexts::cuts_more, crate::proofs::CaseTexts::cuts_end))]
pub(crate) fn put_cuts(
    alloc: Global,
    out: &mut String,
    run: &CaseRun<'_>,
    program: usize,
    most: usize,
    found: &[CutFound],
) -> Result<(), AllocError>
    requires cuts { All (λ (c : FoundValue). c.cut ≤ length run.now.log.now.entries) found.now }
    ensures { OnOk result (string_bytes out.new ≡ string_bytes out.old ++ cuts_text (run_of run.now) program most_cells most found.now) }
{
    let mut left = most;
    let mut lines = MOST_CELLS;
    for cut in found {
        let failing = failing_count(program, cut);
        let how = Showing {
            program,
            is_open: lines == MOST_CELLS,
            rows: shown_of(left, failing),
        };
        put_listed(alloc, out, run, lines, how, cut)?;
        lines = lines.saturating_sub(one_failing(failing));
        left -= how.rows;
    }
    Ok(())
}
