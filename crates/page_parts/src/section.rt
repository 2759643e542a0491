//! What stands on a page of a program beside its cuts: its title, the row of the log, and how many of its cuts aren't listed.

ghost use Rattle.std.specs.Prelude.{◌≡◌, ◌≤◌, ◌++◌, All, length, OnOk, string_bytes};
ghost use Rattle.page_parts.specs.declared.counts.CutCount.{CutCount as CutValue};
ghost use Rattle.page_parts.specs.Cuts.{more_count, unlisted_text};
ghost use Rattle.page_parts.specs.Frame.{strip_open, row_of, strip_text, most_of_program, name_text, title_text};

use crate::block::{is_large, put_more_name, put_row_blocks, put_width};
use crate::counts::{CutCount, JudgedKind, put_kind};
use crate::judge::{PageJudge, put_judge};
use crate::lacking::Lacking;
use crate::logged::Logged;
use crate::pieces::{PagePart, put, put_number};
use crate::strip::put_strip;
use crash_text::put_word;
use logfmt::Log;
use std::alloc::{AllocError, Global};

/// How many groups or cases of a program are shown.
const MOST_OF_PROGRAM: usize = 500;

/// How many of them where the log is large.
const MOST_OF_LARGE: usize = 100;

/// Above how many entries their cells are narrow.
const MANY: usize = 400;

/// Appends what begins a row of that many entries.
#[tactic(auto, unfolding(crate::specs::Frame::strip_open))]
fn put_strip_open(out: &mut String, of: JudgedKind, log: &Log) -> Result<(), AllocError>
    ensures { OnOk result (string_bytes out.new ≡ string_bytes out.old ++ strip_open of log.now.entries) }
{
    put_width(out, of, log)?;
    put(out, PagePart::StripOpen)?;
    put_word(out, log.entries().len() > MANY, "many")?;
    put(out, PagePart::OpenEnd)
}

/// Appends the cells of a row: in blocks where the log is large.
fn put_row_of(
    alloc: Global,
    out: &mut String,
    logged: &Logged<'_>,
    lacking: &Lacking<'_>,
    cuts: &[CutCount],
) -> Result<(), AllocError>
    requires cuts { All (λ (c : CutValue). c.cut ≤ length logged.now.log.now.entries) cuts.now }
    ensures { OnOk result (string_bytes out.new ≡ string_bytes out.old ++ row_of lacking.now.of logged.now.log.now.entries lacking.now.program lacking.now.flushes.now cuts.now) }
{
    if is_large(logged.log) {
        put_row_blocks(out, logged, lacking, cuts)
    } else {
        put_strip(alloc, out, logged, lacking, cuts)
    }
}

/// Appends the row of entries and cuts, with the flushes that are missing.
///
/// # Errors
///
/// Memory was refused.
#[tactic(auto, unfolding(crate::specs::Frame::strip_text))]
pub fn put_row(
    alloc: Global,
    out: &mut String,
    logged: &Logged<'_>,
    lacking: &Lacking<'_>,
    cuts: &[CutCount],
) -> Result<(), AllocError>
    requires cuts { All (λ (c : CutValue). c.cut ≤ length logged.now.log.now.entries) cuts.now }
    ensures { OnOk result (string_bytes out.new ≡ string_bytes out.old ++ strip_text lacking.now.of logged.now.log.now.entries lacking.now.program lacking.now.flushes.now cuts.now) }
{
    put_strip_open(out, lacking.of, logged.log)?;
    put_row_of(alloc, out, logged, lacking, cuts)?;
    put(out, PagePart::StripClose)
}

/// Appends how many cuts more there are at which something fails.
#[tactic(auto, unfolding(crate::specs::Cuts::more_count))]
fn put_more_count(out: &mut String, of: JudgedKind, count: usize) -> Result<(), AllocError>
    ensures { OnOk result (string_bytes out.new ≡ string_bytes out.old ++ more_count of count) }
{
    put_number(out, count as u64)?;
    put(out, PagePart::MoreCuts)?;
    put_kind(out, of)?;
    put(out, PagePart::MoreClose)
}

/// Appends how many cuts at which something fails aren't listed, if there are any.
///
/// # Errors
///
/// Memory was refused.
#[tactic(auto, unfolding(crate::specs::Cuts::unlisted_text))]
pub fn put_unlisted(
    out: &mut String,
    of: JudgedKind,
    program: usize,
    count: usize,
) -> Result<(), AllocError>
    ensures { OnOk result (string_bytes out.new ≡ string_bytes out.old ++ unlisted_text of program count) }
{
    if count == 0 {
        return Ok(());
    }
    put(out, PagePart::MoreOpen)?;
    put_more_name(out, program)?;
    put(out, PagePart::LinkEnd)?;
    put_more_count(out, of, count)
}

/// How many groups or cases of a program are shown, of that log.
pub fn most_of_program(log: &Log) -> usize
    ensures { result ≡ most_of_program log.now.entries }
{
    if is_large(log) {
        MOST_OF_LARGE
    } else {
        MOST_OF_PROGRAM
    }
}

/// Appends the number of a program, and what the report says of it.
#[tactic(auto, unfolding(crate::specs::Frame::name_text))]
fn put_name(out: &mut String, program: usize, judge: &PageJudge<'_>) -> Result<(), AllocError>
    ensures { OnOk result (string_bytes out.new ≡ string_bytes out.old ++ name_text program judge.now) }
{
    write!(out, "{program}: ")?;
    put_judge(out, judge)
}

/// Appends the title of a program.
///
/// # Errors
///
/// Memory was refused.
#[tactic(auto, unfolding(crate::specs::Frame::title_text))]
pub fn put_title(out: &mut String, program: usize, judge: &PageJudge<'_>) -> Result<(), AllocError>
    ensures { OnOk result (string_bytes out.new ≡ string_bytes out.old ++ title_text program judge.now) }
{
    put(out, PagePart::ProgramOpen)?;
    put_number(out, program as u64)?;
    put(out, PagePart::ProgramId)?;
    put_number(out, program as u64)?;
    put(out, PagePart::ProgramName)?;
    put_name(out, program, judge)?;
    put(out, PagePart::ProgramClose)
}
