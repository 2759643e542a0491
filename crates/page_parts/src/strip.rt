//! The log as a row of entries, with a cell for each wanted cut.

ghost use Rattle.std.specs.Prelude.{◌≡◌, ◌≤◌, ◌++◌, All, length, OnOk, string_bytes};
ghost use Rattle.page_parts.specs.Cells.{place_name, count_text, passing_text, failing_class, failing_link, failing_title, failing_text, cut_cell, strip_from};
ghost use Rattle.page_parts.specs.declared.counts.CutCount.{CutCount as CutValue};

use crate::counts::{CutCount, put_kind};
use crate::entry::{put_cells, put_shade};
use crate::lacking::Lacking;
use crate::logged::Logged;
use crate::pieces::{PagePart, put, put_number};
use crate::share::{Share, put_class, share_of};
use epochs::Plan;
use logfmt::Log;
use std::alloc::{AllocError, Global};

/// Appends the name of a cut's place on the page.
#[tactic(auto, unfolding(crate::specs::Cells::place_name))]
pub(crate) fn put_place_name(out: &mut String, program: usize, cut: u32) -> Result<(), AllocError>
    ensures { OnOk result (string_bytes out.new ≡ string_bytes out.old ++ place_name program cut) }
{
    write!(out, "p{program}c{cut}")
}

/// Appends how much of a cut fails.
#[tactic(auto, unfolding(crate::specs::Cells::count_text))]
pub(crate) fn put_count(out: &mut String, cut: &CutCount) -> Result<(), AllocError>
    ensures { OnOk result (string_bytes out.new ≡ string_bytes out.old ++ count_text cut.now) }
{
    put_number(out, cut.failing)?;
    put(out, PagePart::Of)?;
    put_number(out, cut.all)?;
    out.push_str(" ")?;
    put_kind(out, cut.of)?;
    out.push_str(" fail")
}

/// Appends the cell of a cut of that epoch at which nothing fails.
#[tactic(auto, unfolding(crate::specs::Cells::passing_text))]
pub(crate) fn put_passing(out: &mut String, epoch: u32) -> Result<(), AllocError>
    ensures { OnOk result (string_bytes out.new ≡ string_bytes out.old ++ passing_text epoch) }
{
    put(out, PagePart::PassingOpen)?;
    put_class(out, Share::No)?;
    put_shade(out, epoch)?;
    put(out, PagePart::PassingClose)
}

/// Appends the classes of the cell of a cut at which something fails.
#[tactic(auto, unfolding(crate::specs::Cells::failing_class))]
pub(crate) fn put_failing_class(
    out: &mut String,
    epoch: u32,
    cut: &CutCount,
) -> Result<(), AllocError>
    ensures { OnOk result (string_bytes out.new ≡ string_bytes out.old ++ failing_class epoch cut.now) }
{
    let share = share_of(cut.all, cut.failing);
    put(out, PagePart::FailingOpen)?;
    put_class(out, share)?;
    put_shade(out, epoch)
}

/// Appends to where the cell of a cut leads.
#[tactic(auto, unfolding(crate::specs::Cells::failing_link))]
fn put_failing_link(out: &mut String, program: usize, cut: &CutCount) -> Result<(), AllocError>
    ensures { OnOk result (string_bytes out.new ≡ string_bytes out.old ++ failing_link program cut.now) }
{
    put(out, PagePart::FailingLink)?;
    put_place_name(out, program, cut.cut)
}

/// Appends what stands beside the pointer at the cell of a cut.
#[tactic(auto, unfolding(crate::specs::Cells::failing_title))]
pub(crate) fn put_failing_title(out: &mut String, cut: &CutCount) -> Result<(), AllocError>
    ensures { OnOk result (string_bytes out.new ≡ string_bytes out.old ++ failing_title cut.now) }
{
    put(out, PagePart::FailingTitle)?;
    put_number(out, u64::from(cut.cut))?;
    out.push_str(": ")?;
    put_count(out, cut)
}

/// Appends the cell of a cut of that epoch at which something fails.
#[tactic(auto, unfolding(crate::specs::Cells::failing_text))]
fn put_failing(
    out: &mut String,
    program: usize,
    epoch: u32,
    cut: &CutCount,
) -> Result<(), AllocError>
    ensures { OnOk result (string_bytes out.new ≡ string_bytes out.old ++ failing_text program epoch cut.now) }
{
    put_failing_class(out, epoch, cut)?;
    put_failing_link(out, program, cut)?;
    put_failing_title(out, cut)?;
    put(out, PagePart::FailingClose)
}

/// Appends the cell of a cut.
fn put_cut_cell(
    out: &mut String,
    plan: &Plan<'_>,
    log: &Log,
    program: usize,
    cut: &CutCount,
) -> Result<(), AllocError>
    requires log { plan.now.log ≡ log.now }
    requires cut { cut.now.cut ≤ length log.now.entries }
    ensures { OnOk result (string_bytes out.new ≡ string_bytes out.old ++ cut_cell log.now.entries program cut.now) }
{
    let _log = log;
    let epoch = plan.epoch(cut.cut);
    if cut.failing == 0 {
        put_passing(out, epoch)
    } else {
        put_failing(out, program, epoch, cut)
    }
}

/// Appends the entries of a log with the flushes that are missing, and each of the cuts before the entry of its number.
#[tactic(auto, using(crate::proofs::Rows::strip_more, crate::proofs::Rows::strip_end))]
pub(crate) fn put_strip(
    alloc: Global,
    out: &mut String,
    logged: &Logged<'_>,
    lacking: &Lacking<'_>,
    cuts: &[CutCount],
) -> Result<(), AllocError>
    requires cuts { All (λ (c : CutValue). c.cut ≤ length logged.now.log.now.entries) cuts.now }
    ensures { OnOk result (string_bytes out.new ≡ string_bytes out.old ++ strip_from lacking.now.of logged.now.log.now.entries lacking.now.program lacking.now.flushes.now 0 cuts.now) }
{
    let (plan, log) = (logged.plan, logged.log);
    let mut from = 0;
    for cut in cuts {
        put_cells(alloc, out, logged, lacking, from, cut.cut)?;
        put_cut_cell(out, plan, log, lacking.program, cut)?;
        from = cut.cut;
    }
    let end = log.entries().len() as u32;
    put_cells(alloc, out, logged, lacking, from, end)
}
