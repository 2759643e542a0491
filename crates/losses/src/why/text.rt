//! What fails, as a text (docs/OUTPUT.md, The text of `why`).

ghost use Rattle.std.specs.Prelude.{◌≡◌, ◌<◌, ◌++◌, ℕ, length, map, slice_get, Some, OnOk, string_bytes};
ghost use Rattle.std.specs.List.{flat_map};
ghost use Rattle.losses.specs.WhyText.{fate_word, lost_text, next_lost_text, folded_text, count_text, same_text, group_head, example_text, chosen_line, group_line, cut_head, cut_text, cuts_text, IsNumbered, AreNumbered, AreAllNumbered};

use crate::why::cut::CutFailures;
use crate::why::group::FailingGroup;
use choices::{Departure, Fate, Starts};
use epochs::By;
use report::choice_text::{put_departures, put_part};
use std::alloc::AllocError;

/// Appends what became of a part, however much of it is torn.
fn put_fate_word(out: &mut String, fate: Fate) -> Result<(), AllocError>
    ensures { OnOk result (string_bytes out.new ≡ string_bytes out.old ++ fate_word fate) }
{
    match fate {
        Fate::Drop => out.push_str(" lost"),
        Fate::Head(_) => out.push_str(" torn"),
        Fate::Tail(_) => out.push_str(" torn"),
    }
}

/// Appends a part that is lost or torn.
fn put_lost(out: &mut String, by: By, departure: Departure) -> Result<(), AllocError>
    ensures { OnOk result (string_bytes out.new ≡ string_bytes out.old ++ lost_text by departure) }
{
    put_part(out, by, departure.part.entry, departure.part.place)?;
    put_fate_word(out, departure.fate)
}

/// Appends a part that is lost or torn besides.
fn put_next_lost(out: &mut String, by: By, departure: Departure) -> Result<(), AllocError>
    ensures { OnOk result (string_bytes out.new ≡ string_bytes out.old ++ next_lost_text by departure) }
{
    write!(out, ", ")?;
    put_lost(out, by, departure)
}

/// Appends which parts are lost, and which are torn.
fn put_folded(out: &mut String, by: By, departures: &[Departure]) -> Result<(), AllocError>
    ensures { OnOk result (string_bytes out.new ≡ string_bytes out.old ++ folded_text by departures.now) }
{
    match departures {
        [] => write!(out, "where nothing is lost"),
        [first, rest @ ..] => {
            put_lost(out, by, *first)?;
            for departure in rest {
                put_next_lost(out, by, *departure)?;
            }
            Ok(())
        }
    }
}

/// Appends how many images.
fn put_count(out: &mut String, count: usize) -> Result<(), AllocError>
    ensures { OnOk result (string_bytes out.new ≡ string_bytes out.old ++ count_text count) }
{
    if count == 1 {
        return write!(out, "1 image");
    }
    write!(out, "{count} images")
}

/// Appends whether all images of a group end as its example does.
fn put_same(out: &mut String, same: bool) -> Result<(), AllocError>
    ensures { OnOk result (string_bytes out.new ≡ string_bytes out.old ++ same_text same) }
{
    if same {
        return write!(out, ", all ");
    }
    write!(out, ", some ")
}

/// Appends what a group has in common.
#[tactic(auto, unfolding(crate::specs::WhyText::group_head))]
fn put_group_head(
    out: &mut String,
    by: By,
    departures: &[Departure],
    group: FailingGroup,
) -> Result<(), AllocError>
    ensures { OnOk result (string_bytes out.new ≡ string_bytes out.old ++ group_head by departures.now group) }
{
    write!(out, "group ")?;
    put_folded(out, by, departures)?;
    write!(out, ": ")?;
    put_count(out, group.failing)?;
    put_same(out, group.same)
}

/// Appends the example of a group.
#[tactic(auto, unfolding(crate::specs::WhyText::example_text))]
fn put_example(
    out: &mut String,
    by: By,
    departures: &[Departure],
    group: FailingGroup,
) -> Result<(), AllocError>
    ensures { OnOk result (string_bytes out.new ≡ string_bytes out.old ++ example_text by departures.now group) }
{
    write!(out, ", as image {}", group.image)?;
    write!(out, " choice ")?;
    put_departures(out, by, departures)?;
    write!(out, "\n")
}

/// Appends the line of a group whose example has these departures.
#[tactic(auto, unfolding(crate::specs::WhyText::chosen_line))]
fn put_chosen(
    out: &mut String,
    by: By,
    outcomes: &[&str],
    group: FailingGroup,
    departures: &[Departure],
) -> Result<(), AllocError>
    requires { group.line < length outcomes.now }
    ensures { OnOk result (string_bytes out.new ≡ string_bytes out.old ++ chosen_line by (map (λ o. o.now) outcomes.now) group departures.now) }
{
    put_group_head(out, by, departures, group)?;
    out.push_str(outcomes[group.line])?;
    put_example(out, by, departures, group)
}

/// Appends the line of a group.
#[tactic(auto, using(crate::proofs::Shown::group_shown))]
fn put_group(
    out: &mut String,
    by: By,
    starts: &Starts<'_>,
    outcomes: &[&str],
    group: FailingGroup,
) -> Result<(), AllocError>
    requires { IsNumbered starts.now (length outcomes.now) group }
    ensures { OnOk result (string_bytes out.new ≡ string_bytes out.old ++ group_line by starts.now (map (λ o. o.now) outcomes.now) group) }
{
    let choice = starts.nth(group.image);
    put_chosen(out, by, outcomes, group, choice.departures())
}

/// Appends the line of a cut.
#[tactic(auto, unfolding(crate::specs::WhyText::cut_head))]
fn put_cut_head(out: &mut String, program: usize, cut: &CutFailures) -> Result<(), AllocError>
    ensures { OnOk result (string_bytes out.new ≡ string_bytes out.old ++ cut_head program cut.now) }
{
    let failing = cut.failing;
    write!(out, "cut {} program {program}", cut.cut)?;
    write!(out, " images {} failing {failing}\n", cut.images)
}

/// Appends the lines of some groups.
fn put_groups(
    out: &mut String,
    by: By,
    starts: &Starts<'_>,
    outcomes: &[&str],
    groups: &[FailingGroup],
) -> Result<(), AllocError>
    requires { AreNumbered starts.now (length outcomes.now) groups.now }
    ensures { OnOk result (string_bytes out.new ≡ string_bytes out.old ++ flat_map (group_line by starts.now (map (λ o. o.now) outcomes.now)) groups.now) }
{
    for group in groups {
        put_group(out, by, starts, outcomes, *group)?;
    }
    Ok(())
}

/// Appends the lines of a cut, if something fails there.
fn put_cut(
    out: &mut String,
    by: By,
    starts: &Starts<'_>,
    outcomes: &[&str],
    program: usize,
    cut: &CutFailures,
) -> Result<(), AllocError>
    requires { AreNumbered starts.now (length outcomes.now) cut.now.groups.items }
    ensures { OnOk result (string_bytes out.new ≡ string_bytes out.old ++ cut_text by starts.now (map (λ o. o.now) outcomes.now) program cut.now) }
{
    if cut.failing == 0 {
        return Ok(());
    }
    put_cut_head(out, program, cut)?;
    put_groups(out, by, starts, outcomes, cut.groups.as_slice())
}

/// Appends what fails of the program of that number at each cut, as `failures` answers it, with the outcomes that it was given.
pub(crate) fn put_cuts(
    out: &mut String,
    by: By,
    starts: &Starts<'_>,
    outcomes: &[&str],
    program: usize,
    cuts: &[CutFailures],
) -> Result<(), AllocError>
    requires { AreAllNumbered starts.now (length outcomes.now) cuts.now }
    ensures { OnOk result (string_bytes out.new ≡ string_bytes out.old ++ cuts_text by starts.now (map (λ o. o.now) outcomes.now) program cuts.now) }
{
    for cut in cuts {
        put_cut(out, by, starts, outcomes, program, cut)?;
    }
    Ok(())
}
