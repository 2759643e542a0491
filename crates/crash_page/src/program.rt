//! What is said of a program.

ghost use Rattle.std.specs.Prelude.{◌≡◌, ◌==◌, if◌then◌else◌, ◌≤◌, ◌++◌, All, length, map, OnOk, string_bytes};
ghost use Rattle.page_parts.specs.declared.pieces.PagePart.TheVariants as piece;
ghost use Rattle.page_parts.specs.Pieces.{piece_text};
ghost use Rattle.page_parts.specs.declared.counts.JudgedKind.TheVariants as kind;
ghost use Rattle.page_parts.specs.Blocks.{most_cells};
ghost use Rattle.page_parts.specs.Counts.{count_fails};
ghost use Rattle.crash_page.specs.Groups.{listed_text, cuts_text};
ghost use Rattle.crash_page.specs.Page.{counts_of, bad_text, judged_text, verdict_text, summary_text, shown_cuts, program_text, IsOfRun, AreOfRun};

use crate::counts::image_counts;
use crate::cut::put_cut;
use crate::run::{PageRun, logged_of};
use losses::flushes::MissingFlush;
use losses::why::CutFailures;
use page_parts::{
    CutCount, JudgedKind, Lacking, MOST_CELLS, PageJudge, PagePart, Showing, count_failing,
    most_of_program, one_failing, put, put_advice, put_legend, put_number, put_row, put_title,
    put_unlisted, shown_of,
};
use std::alloc::{AllocError, Global};

/// The images on which a program fails.
#[derive(Drop)]
pub struct ProgramFailures<'a> {
    /// What the program is.
    pub judge: PageJudge<'a>,
    /// How many images it fails on.
    pub failing: usize,
    /// What it ends in on each of these images.
    pub outcomes: Vec<&'a str>,
    /// What fails at each wanted cut.
    pub cuts: Vec<CutFailures>,
    /// The flushes that are missing for these images.
    pub missing: Vec<MissingFlush>,
    /// How many of these images have no window.
    pub uncured: usize,
}

/// Appends on how many images a program fails, and at how many cuts.
#[tactic(auto, unfolding(crate::specs::Page::bad_text))]
fn put_bad(out: &mut String, failing: usize, cuts: &[CutCount]) -> Result<(), AllocError>
    ensures { OnOk result (string_bytes out.new ≡ string_bytes out.old ++ bad_text failing cuts.now) }
{
    put(out, PagePart::BadOpen)?;
    put_number(out, failing as u64)?;
    put(out, PagePart::BadCuts)?;
    put_number(out, count_failing(cuts) as u64)?;
    put(out, PagePart::Of)
}

/// Appends whether a program fails.
fn put_failing(out: &mut String, failing: usize, cuts: &[CutCount]) -> Result<(), AllocError>
    ensures { OnOk result (string_bytes out.new ≡ string_bytes out.old ++ (if failing == 0 then piece_text piece.GoodOpen else bad_text failing cuts.now)) }
{
    if failing == 0 {
        put(out, PagePart::GoodOpen)
    } else {
        put_bad(out, failing, cuts)
    }
}

/// Appends at how many of the cuts a program fails.
#[tactic(auto, unfolding(crate::specs::Page::judged_text))]
fn put_judged(out: &mut String, failing: usize, cuts: &[CutCount]) -> Result<(), AllocError>
    ensures { OnOk result (string_bytes out.new ≡ string_bytes out.old ++ judged_text failing cuts.now) }
{
    put_failing(out, failing, cuts)?;
    put_number(out, cuts.len() as u64)?;
    put(out, PagePart::GoodClose)
}

/// Appends at how many of the cuts a program fails, or that nothing was judged.
fn put_verdict(out: &mut String, failing: usize, cuts: &[CutCount]) -> Result<(), AllocError>
    ensures { OnOk result (string_bytes out.new ≡ string_bytes out.old ++ verdict_text failing cuts.now) }
{
    if cuts.is_empty() {
        put(out, PagePart::NoCuts)
    } else {
        put_judged(out, failing, cuts)
    }
}

/// Appends a cut, where there is still a line for it.
fn put_listed(
    alloc: Global,
    out: &mut String,
    run: &PageRun<'_>,
    outcomes: &[&str],
    lines: usize,
    how: Showing,
    cut: &CutFailures,
) -> Result<(), AllocError>
    requires shown { how.rows ≤ length cut.now.groups.items }
    requires cut { IsOfRun run.now.starts.now (length outcomes.now) cut.now }
    ensures { OnOk result (string_bytes out.new ≡ string_bytes out.old ++ listed_text run.now.starts.now (map (λ o. o.now) outcomes.now) lines how cut.now) }
{
    if lines == 0 {
        return Ok(());
    }
    put_cut(alloc, out, run, outcomes, how, cut)
}

/// Appends the first cuts at which images fail, with that many groups at most.
#[tactic(auto, using(crate::proofs::Rows::cuts_more, crate::proofs::Rows::cuts_end))]
fn put_cuts(
    alloc: Global,
    out: &mut String,
    run: &PageRun<'_>,
    program: usize,
    outcomes: &[&str],
    most: usize,
    cuts: &[CutFailures],
) -> Result<(), AllocError>
    requires cuts { All (IsOfRun run.now.starts.now (length outcomes.now)) cuts.now }
    ensures { OnOk result (string_bytes out.new ≡ string_bytes out.old ++ cuts_text run.now.starts.now (map (λ o. o.now) outcomes.now) program most_cells most cuts.now) }
{
    let mut left = most;
    let mut lines = MOST_CELLS;
    for cut in cuts {
        let how = Showing {
            program,
            is_open: lines == MOST_CELLS,
            rows: shown_of(left, cut.groups.len()),
        };
        put_listed(alloc, out, run, outcomes, lines, how, cut)?;
        lines = lines.saturating_sub(one_failing(cut.failing));
        left -= how.rows;
    }
    Ok(())
}

/// Appends the first cuts at which a program fails, and how many more there are.
#[tactic(auto, unfolding(crate::specs::Page::shown_cuts))]
fn put_shown_cuts(
    alloc: Global,
    out: &mut String,
    run: &PageRun<'_>,
    program: usize,
    failures: &ProgramFailures<'_>,
    counts: &[CutCount],
) -> Result<(), AllocError>
    requires cuts { AreOfRun run.now.starts.now failures.now }
    requires counts { counts.now ≡ counts_of failures.now }
    ensures { OnOk result (string_bytes out.new ≡ string_bytes out.old ++ shown_cuts run.now.starts.now program failures.now) }
{
    let (outcomes, cuts) = (failures.outcomes.as_slice(), failures.cuts.as_slice());
    let most = most_of_program(run.numbering.log);
    put_cuts(alloc, out, run, program, outcomes, most, cuts)?;
    let count = count_failing(counts).saturating_sub(MOST_CELLS);
    put_unlisted(out, JudgedKind::Images, program, count)
}

/// The flushes that are missing for a program.
fn lacking_of<'a>(program: usize, failures: &'a ProgramFailures<'_>) -> Lacking<'a>
    ensures of { result.of ≡ kind.Images }
    ensures program { result.program ≡ program }
    ensures flushes { result.flushes.now ≡ failures.now.missing.items }
{
    Lacking {
        of: JudgedKind::Images,
        program,
        flushes: failures.missing.as_slice(),
    }
}

/// Appends what a program comes to, and what flushes would do.
#[tactic(auto, unfolding(crate::specs::Page::summary_text))]
fn put_summary(
    out: &mut String,
    program: usize,
    failures: &ProgramFailures<'_>,
    counts: &[CutCount],
) -> Result<(), AllocError>
    requires { counts.now ≡ counts_of failures.now }
    ensures { OnOk result (string_bytes out.new ≡ string_bytes out.old ++ summary_text program failures.now) }
{
    let lacking = lacking_of(program, failures);
    put_title(out, program, &failures.judge)?;
    put_verdict(out, failures.failing, counts)?;
    put_advice(out, &lacking, failures.uncured)
}

/// Appends a program.
#[tactic(auto, using(crate::proofs::Rows::counts_within), unfolding(crate::specs::Page::program_text))]
pub(crate) fn put_program(
    alloc: Global,
    out: &mut String,
    run: &PageRun<'_>,
    program: usize,
    failures: &ProgramFailures<'_>,
) -> Result<(), AllocError>
    requires cuts { AreOfRun run.now.starts.now failures.now }
    ensures { OnOk result (string_bytes out.new ≡ string_bytes out.old ++ program_text run.now.starts.now program failures.now) }
{
    let counts = image_counts(alloc, failures.cuts.as_slice())?;
    let (logged, lacking) = (logged_of(run), lacking_of(program, failures));
    put_summary(out, program, failures, counts.as_slice())?;
    put_row(alloc, out, &logged, &lacking, counts.as_slice())?;
    put_legend(out, JudgedKind::Images)?;
    put_shown_cuts(alloc, out, run, program, failures, counts.as_slice())?;
    put(out, PagePart::SectionClose)
}
