//! What is said of a cut at which images fail.

ghost use Rattle.std.specs.Prelude.{◌≡◌, ◌<◌, ◌≤◌, ◌++◌, ◌-◌, All, false, length, map, take, OnOk, string_bytes};
ghost use Rattle.std.specs.List.{flat_map};
ghost use Rattle.choices.specs.Choices.{ranked_choices};
ghost use Rattle.losses.specs.declared.why.group.FailingGroup.{FailingGroup as GroupValue};
ghost use Rattle.losses.specs.WhyText.{IsNumbered};
ghost use Rattle.crash_page.specs.Counts.{image_count};
ghost use Rattle.crash_page.specs.Groups.{group_text, groups_text, first_text, cut_head, rest_text, cut_shown, cut_text};
ghost use Rattle.crash_page.specs.Page.{IsOfRun};

use crate::counts::image_count;
use crate::group::{put_choice_at, put_group};
use crate::run::PageRun;
use losses::why::{CutFailures, FailingGroup};
use page_parts::{PagePart, Showing, put, put_begin, put_body, put_number};
use std::alloc::{AllocError, Global};

/// Appends the first of the choices of a cut, and how many there are.
#[tactic(auto, unfolding(crate::specs::Groups::first_text))]
fn put_first(out: &mut String, run: &PageRun<'_>, groups: &[FailingGroup]) -> Result<(), AllocError>
    requires images { All (λ (g : GroupValue). g.image < length (ranked_choices run.now.starts.now.plan run.now.starts.now.bound run.now.starts.now.tears)) groups.now }
    ensures { OnOk result (string_bytes out.new ≡ string_bytes out.old ++ first_text run.now.starts.now groups.now) }
{
    match groups {
        [] => Ok(()),
        [group, ..] => {
            put(out, PagePart::FirstOpen)?;
            put_choice_at(out, run, group.image)?;
            put(out, PagePart::FirstOf)?;
            put_number(out, groups.len() as u64)?;
            put(out, PagePart::FirstClose)
        }
    }
}

/// Appends the line of a cut.
#[tactic(auto, unfolding(crate::specs::Groups::cut_head))]
fn put_head(
    out: &mut String,
    run: &PageRun<'_>,
    how: Showing,
    cut: &CutFailures,
) -> Result<(), AllocError>
    requires cut { cut.now.cut ≤ length run.now.starts.now.plan.log.entries }
    requires images { All (λ (g : GroupValue). g.image < length (ranked_choices run.now.starts.now.plan run.now.starts.now.bound run.now.starts.now.tears)) cut.now.groups.items }
    ensures { OnOk result (string_bytes out.new ≡ string_bytes out.old ++ cut_head run.now.starts.now how cut.now) }
{
    let count = image_count(cut);
    put_begin(out, run.starts.plan(), how.is_open, &count)?;
    put_first(out, run, cut.groups.as_slice())?;
    put_body(out, how.program, cut.cut)
}

/// Appends how many groups aren't shown.
#[tactic(auto, unfolding(crate::specs::Groups::rest_text))]
fn put_rest(out: &mut String, count: usize) -> Result<(), AllocError>
    ensures { OnOk result (string_bytes out.new ≡ string_bytes out.old ++ rest_text count) }
{
    if count == 0 {
        return Ok(());
    }
    put(out, PagePart::RestOpen)?;
    put_number(out, count as u64)?;
    put(out, PagePart::RestClose)
}

/// Appends groups that aren't open.
fn put_closed(
    alloc: Global,
    out: &mut String,
    run: &PageRun<'_>,
    outcomes: &[&str],
    groups: &[FailingGroup],
) -> Result<(), AllocError>
    requires groups { All (IsNumbered run.now.starts.now (length outcomes.now)) groups.now }
    ensures { OnOk result (string_bytes out.new ≡ string_bytes out.old ++ flat_map (group_text run.now.starts.now (map (λ o. o.now) outcomes.now) false) groups.now) }
{
    for group in groups {
        put_group(alloc, out, run, outcomes, false, *group)?;
    }
    Ok(())
}

/// Appends groups, of which the first may be open.
#[tactic(auto, unfolding(crate::specs::Groups::groups_text))]
fn put_groups(
    alloc: Global,
    out: &mut String,
    run: &PageRun<'_>,
    outcomes: &[&str],
    is_open: bool,
    groups: &[FailingGroup],
) -> Result<(), AllocError>
    requires groups { All (IsNumbered run.now.starts.now (length outcomes.now)) groups.now }
    ensures { OnOk result (string_bytes out.new ≡ string_bytes out.old ++ groups_text run.now.starts.now (map (λ o. o.now) outcomes.now) is_open groups.now) }
{
    match groups {
        [] => Ok(()),
        [group, rest @ ..] => {
            put_group(alloc, out, run, outcomes, is_open, *group)?;
            put_closed(alloc, out, run, outcomes, rest)
        }
    }
}

/// Appends a cut with some of its groups.
#[tactic(auto, using(crate::proofs::Departing::images_within), unfolding(crate::specs::Groups::cut_shown))]
fn put_shown_cut(
    alloc: Global,
    out: &mut String,
    run: &PageRun<'_>,
    outcomes: &[&str],
    how: Showing,
    cut: &CutFailures,
) -> Result<(), AllocError>
    requires shown { how.rows ≤ length cut.now.groups.items }
    requires cut { IsOfRun run.now.starts.now (length outcomes.now) cut.now }
    ensures { OnOk result (string_bytes out.new ≡ string_bytes out.old ++ cut_shown run.now.starts.now (map (λ o. o.now) outcomes.now) how cut.now) }
{
    let groups = cut.groups.as_slice();
    put_head(out, run, how, cut)?;
    put_groups(alloc, out, run, outcomes, how.is_open, &groups[..how.rows])?;
    put_rest(out, groups.len() - how.rows)?;
    put(out, PagePart::CutClose)
}

/// Appends a cut, where images fail.
pub(crate) fn put_cut(
    alloc: Global,
    out: &mut String,
    run: &PageRun<'_>,
    outcomes: &[&str],
    how: Showing,
    cut: &CutFailures,
) -> Result<(), AllocError>
    requires shown { how.rows ≤ length cut.now.groups.items }
    requires cut { IsOfRun run.now.starts.now (length outcomes.now) cut.now }
    ensures { OnOk result (string_bytes out.new ≡ string_bytes out.old ++ cut_text run.now.starts.now (map (λ o. o.now) outcomes.now) how cut.now) }
{
    if cut.failing == 0 {
        return Ok(());
    }
    put_shown_cut(alloc, out, run, outcomes, how, cut)
}
