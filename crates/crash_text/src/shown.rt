//! An image in words.

ghost use Rattle.std.specs.Prelude.{ℕ, ◌≡◌, ◌<◌, ◌≤◌, ◌++◌, length, true, OnOk, string_bytes};
ghost use Rattle.base.specs.Sizes.{most_sectors};
ghost use Rattle.crash_text.specs.AnyShown.{any_chosen_text, any_departed_text, any_head_text, any_line};
ghost use Rattle.crash_text.specs.Shown.{by_word, numbered_text, chosen_text, cut_text, choice_line, departed_text, choice_shown, shown_text};

use crate::cut::{put_any_cut, put_any_departed, put_cut, put_departed};
use crate::numbering::Numbering;
use crate::sector::put_differences;
use choices::{Choice, Departure};
use epochs::By;
use helpers::Device;
use logfmt::Entry;
use report::choice_text::{put_cuts_words, put_departures};
use report::{word_of_cuts, yes_or_no_word};
use std::alloc::AllocError;

/// What the kinds of parts are called.
fn by_word(by: By) -> &'static str
    ensures { result.now ≡ by_word by }
{
    match by {
        By::Sector => "sector",
        By::Write => "write",
    }
}

/// Appends the device, the log and the wanted cuts.
#[tactic(auto, unfolding(crate::specs::Shown::numbered_text))]
fn put_numbered(out: &mut String, numbering: &Numbering<'_>) -> Result<(), AllocError>
    ensures { OnOk result (string_bytes out.new ≡ string_bytes out.old ++ numbered_text numbering.now.plan.now) }
{
    let log = numbering.log;
    write!(
        out,
        "sectors {} entries {}",
        log.sectors(),
        log.entries().len()
    )?;
    let cuts = word_of_cuts(numbering.cuts.kind);
    write!(out, " cuts {cuts}")
}

/// Appends the other options.
#[tactic(auto, unfolding(crate::specs::Shown::chosen_text))]
fn put_chosen(out: &mut String, numbering: &Numbering<'_>) -> Result<(), AllocError>
    ensures { OnOk result (string_bytes out.new ≡ string_bytes out.old
        ++ chosen_text numbering.now.plan.now numbering.now.bound numbering.now.tears) }
{
    let bound = numbering.bound;
    let tears = yes_or_no_word(numbering.tears);
    write!(out, " bound {bound} tears {tears}")?;
    let by = by_word(numbering.by);
    write!(out, " by {by}")?;
    put_cuts_words(out, &numbering.cuts)?;
    out.push_str("\n")
}

/// Appends where a cut stands.
#[tactic(auto, unfolding(crate::specs::Shown::cut_text))]
fn put_place(out: &mut String, numbering: &Numbering<'_>, cut: u32) -> Result<(), AllocError>
    requires { cut ≤ length numbering.now.plan.now.log.entries }
    ensures { OnOk result (string_bytes out.new ≡ string_bytes out.old ++ cut_text numbering.now.plan.now cut) }
{
    let plan = numbering.plan;
    write!(
        out,
        "cut {cut} epoch {} marks {}",
        plan.epoch(cut),
        plan.marks(cut)
    )
}

/// Appends the cut of a choice and its text.
fn put_choice_line(
    out: &mut String,
    numbering: &Numbering<'_>,
    choice: &Choice,
) -> Result<(), AllocError>
    requires { choice.now.cut ≤ length numbering.now.plan.now.log.entries }
    ensures { OnOk result (string_bytes out.new ≡ string_bytes out.old ++ choice_line numbering.now.plan.now choice.now) }
{
    put_place(out, numbering, choice.cut())?;
    out.push_str(" choice ")?;
    put_departures(out, numbering.by, choice.departures())?;
    out.push_str("\n")
}

/// Appends a line for each departure of a choice.
#[tactic(auto, unfolding(crate::specs::Shown::departed_text))]
fn put_departed_lines(out: &mut String, choice: &Choice) -> Result<(), AllocError>
    ensures { OnOk result (string_bytes out.new ≡ string_bytes out.old ++ departed_text choice.now) }
{
    for departure in choice.departures() {
        put_departed(out, *departure)?;
    }
    Ok(())
}

/// Appends a choice: its cut and its text in a line, and a line for each departure.
///
/// # Errors
///
/// Memory was refused.
#[tactic(auto, unfolding(crate::specs::Shown::choice_shown))]
pub fn put_choice(
    out: &mut String,
    numbering: &Numbering<'_>,
    choice: &Choice,
) -> Result<(), AllocError>
    requires { choice.now.cut ≤ length numbering.now.plan.now.log.entries }
    ensures { OnOk result (string_bytes out.new ≡ string_bytes out.old ++ choice_shown numbering.now.plan.now choice.now) }
{
    put_choice_line(out, numbering, choice)?;
    put_departed_lines(out, choice)
}

/// Appends a crash image in words: what images are numbered by, the choice, what stands at its cut, and what in the image
/// differs from that of the cut where nothing departs.
///
/// # Errors
///
/// Memory was refused.
#[tactic(auto, unfolding(crate::specs::Shown::shown_text))]
pub fn put_shown<W: Device, I: Device>(
    out: &mut String,
    numbering: &Numbering<'_>,
    choice: &Choice,
    whole: &W,
    image: &I,
) -> Result<(), AllocError>
    requires cut { choice.now.cut ≤ length numbering.now.plan.now.log.entries }
    requires device { length (I.content image.now) ≤ most_sectors }
    ensures { OnOk result (string_bytes out.new ≡ string_bytes out.old
        ++ shown_text numbering.now.plan.now numbering.now.bound numbering.now.tears choice.now (W.content whole.now) (I.content image.now)) }
{
    put_numbered(out, numbering)?;
    put_chosen(out, numbering)?;
    put_choice(out, numbering, choice)?;
    put_cut(out, numbering, choice.cut())?;
    put_differences(out, whole, image)
}

/// Appends the other options, where any number of parts may be lost.
#[tactic(auto, unfolding(crate::specs::AnyShown::any_chosen_text))]
fn put_any_chosen(out: &mut String, numbering: &Numbering<'_>) -> Result<(), AllocError>
    ensures { OnOk result (string_bytes out.new ≡ string_bytes out.old ++ any_chosen_text numbering.now.plan.now numbering.now.tears) }
{
    let tears = yes_or_no_word(numbering.tears);
    write!(out, " bound any tears {tears}")?;
    let by = by_word(numbering.by);
    write!(out, " by {by}")?;
    put_cuts_words(out, &numbering.cuts)?;
    out.push_str("\n")
}

/// Appends a cut and the departures of a choice there.
#[tactic(auto, unfolding(crate::specs::AnyShown::any_line))]
fn put_any_line(
    out: &mut String,
    numbering: &Numbering<'_>,
    cut: u32,
    departures: &[Departure],
) -> Result<(), AllocError>
    requires { cut ≤ length numbering.now.plan.now.log.entries }
    ensures { OnOk result (string_bytes out.new ≡ string_bytes out.old
        ++ any_line numbering.now.plan.now cut departures.now) }
{
    put_place(out, numbering, cut)?;
    out.push_str(" choice ")?;
    put_departures(out, numbering.by, departures)?;
    out.push_str("\n")
}

/// Appends a line for each departure at a cut.
#[tactic(auto, unfolding(crate::specs::AnyShown::any_departed_text))]
fn put_any_departed_lines(
    out: &mut String,
    entries: &[Entry],
    cut: u32,
    departures: &[Departure],
) -> Result<(), AllocError>
    ensures { OnOk result (string_bytes out.new ≡ string_bytes out.old
        ++ any_departed_text entries.now cut departures.now) }
{
    for departure in departures {
        put_any_departed(out, entries, cut, *departure)?;
    }
    Ok(())
}

/// Appends what is said of a crash image in which any number of parts may be lost, before what in it differs: what images are numbered
/// by, the choice, and what stands at its cut. `put_sector` appends what differs, sector by sector.
///
/// # Errors
///
/// Memory was refused.
#[tactic(auto, unfolding(crate::specs::AnyShown::any_head_text))]
pub fn put_any_head(
    out: &mut String,
    numbering: &Numbering<'_>,
    cut: u32,
    departures: &[Departure],
) -> Result<(), AllocError>
    requires cut { cut ≤ length numbering.now.plan.now.log.entries }
    ensures { OnOk result (string_bytes out.new ≡ string_bytes out.old
        ++ any_head_text numbering.now.plan.now numbering.now.tears cut departures.now) }
{
    put_numbered(out, numbering)?;
    put_any_chosen(out, numbering)?;
    put_any_line(out, numbering, cut, departures)?;
    put_any_departed_lines(out, numbering.log.entries(), cut, departures)?;
    put_any_cut(out, numbering, cut)
}
