//! What is said of a cut at which something fails, before its groups or cases.

ghost use Rattle.std.specs.Prelude.{◌≡◌, ◌≤◌, ◌++◌, length, OnOk, string_bytes};
ghost use Rattle.page_parts.specs.Cuts.{stand_text, bar_text, cut_line, cut_open, cut_body, cut_begin, shown_of, one_failing};

use crate::counts::CutCount;
use crate::pieces::{PagePart, put, put_number};
use crate::share::{put_class, share_of};
use crate::strip::{put_count, put_place_name};
use epochs::Plan;
use std::alloc::AllocError;

/// How many groups or cases of a cut are shown.
const MOST_OF_CUT: usize = 8;

/// How a cut is shown.
#[derive(Clone, Copy)]
pub struct Showing {
    /// The number of the program.
    pub program: usize,
    /// Whether it is open, and its first group.
    pub is_open: bool,
    /// How many of its groups or cases are shown.
    pub rows: usize,
}

/// Appends where a cut stands.
#[tactic(auto, unfolding(crate::specs::Cuts::stand_text))]
fn put_stand(out: &mut String, plan: &Plan<'_>, cut: u32) -> Result<(), AllocError>
    requires { cut ≤ length plan.now.log.entries }
    ensures { OnOk result (string_bytes out.new ≡ string_bytes out.old ++ stand_text plan.now.log.entries cut) }
{
    put(out, PagePart::CutNumber)?;
    put_number(out, u64::from(cut))?;
    put(out, PagePart::CutEpoch)?;
    put_number(out, u64::from(plan.epoch(cut)))?;
    put(out, PagePart::CutMarks)?;
    put_number(out, u64::from(plan.marks(cut)))?;
    put(out, PagePart::CutMarksEnd)
}

/// Appends how much of a cut fails, in words and as a bar.
#[tactic(auto, unfolding(crate::specs::Cuts::bar_text))]
fn put_bar(out: &mut String, cut: &CutCount) -> Result<(), AllocError>
    ensures { OnOk result (string_bytes out.new ≡ string_bytes out.old ++ bar_text cut.now) }
{
    put(out, PagePart::BarOpen)?;
    put_count(out, cut)?;
    put(out, PagePart::BarMost)?;
    put_number(out, cut.all)?;
    put(out, PagePart::BarValue)?;
    put_number(out, cut.failing)?;
    put(out, PagePart::BarClose)
}

/// Appends what begins the line of a cut, open or not.
fn put_line(out: &mut String, is_open: bool) -> Result<(), AllocError>
    ensures { OnOk result (string_bytes out.new ≡ string_bytes out.old ++ cut_line is_open) }
{
    if is_open {
        put(out, PagePart::CutOpened)
    } else {
        put(out, PagePart::CutLine)
    }
}

/// Appends what begins a cut.
#[tactic(auto, unfolding(crate::specs::Cuts::cut_open))]
fn put_open(out: &mut String, is_open: bool, cut: &CutCount) -> Result<(), AllocError>
    ensures { OnOk result (string_bytes out.new ≡ string_bytes out.old ++ cut_open is_open cut.now) }
{
    let share = share_of(cut.all, cut.failing);
    put(out, PagePart::CutOpen)?;
    put_class(out, share)?;
    put_line(out, is_open)
}

/// Appends what stands between the line of a cut and its groups or cases.
///
/// # Errors
///
/// Memory was refused.
#[tactic(auto, unfolding(crate::specs::Cuts::cut_body))]
pub fn put_body(out: &mut String, program: usize, cut: u32) -> Result<(), AllocError>
    ensures { OnOk result (string_bytes out.new ≡ string_bytes out.old ++ cut_body program cut) }
{
    put(out, PagePart::CutBody)?;
    put_place_name(out, program, cut)?;
    put(out, PagePart::OpenEnd)
}

/// Appends the line of a cut, open or not, without what only a cut of images has.
///
/// # Errors
///
/// Memory was refused.
#[tactic(auto, unfolding(crate::specs::Cuts::cut_begin))]
pub fn put_begin(
    out: &mut String,
    plan: &Plan<'_>,
    is_open: bool,
    cut: &CutCount,
) -> Result<(), AllocError>
    requires { cut.now.cut ≤ length plan.now.log.entries }
    ensures { OnOk result (string_bytes out.new ≡ string_bytes out.old ++ cut_begin plan.now.log.entries is_open cut.now) }
{
    put_open(out, is_open, cut)?;
    put_stand(out, plan, cut.cut)?;
    put_bar(out, cut)
}

/// How many of a cut's groups or cases are shown, where `left` more may be on the page.
pub fn shown_of(left: usize, rows: usize) -> usize
    ensures value { result ≡ shown_of left rows }
    ensures left { result ≤ left }
    ensures there { result ≤ rows }
{
    left.min(MOST_OF_CUT.min(rows))
}

/// How many cuts a cut at which that much fails is.
pub fn one_failing(failing: usize) -> usize
    ensures { result ≡ one_failing failing }
{
    if failing == 0 { 0 } else { 1 }
}
