//! A group of a cut: the choice of its example, with its image in words.

ghost use Rattle.std.specs.Prelude.{◌≡◌, ◌<◌, ◌++◌, [], length, map, IfOk, OnOk, string_bytes};
ghost use Rattle.choices.specs.Choices.{ranked_choices};
ghost use Rattle.images.specs.Views.{IsMember};
ghost use Rattle.losses.specs.WhyText.{IsNumbered};
ghost use Rattle.crash_page.specs.Groups.{image_text, block_text, choice_at, sides_text, group_open, group_choice, group_size, same_text, group_end, group_line, chosen_text, group_text};

use crate::run::PageRun;
use choices::{Choice, Starts, choice_named};
use crash_text::put_shown;
use images::images_are_devices;
use losses::why::FailingGroup;
use page_parts::{PagePart, put, put_html, put_number, put_sided};
use report::choice_text::put_departures;
use std::alloc::{AllocError, Global};

/// How long a text is that stands on the page.
const LONGEST: usize = 16384;

/// The choice at the same cut where nothing departs.
#[tactic(auto, using(crate::proofs::Departing::nothing_there, crate::proofs::Departing::no_names, crate::proofs::Departing::named_member))]
fn nothing_departs(starts: &Starts<'_>, choice: &Choice) -> Choice
    requires { IsMember starts.now.plan choice.now }
    ensures member { IsMember starts.now.plan result }
    ensures cut { result.cut ≡ choice.now.cut }
    ensures none { result.departures ≡ [] }
{
    match choice_named(
        starts.plan(),
        starts.bound(),
        starts.tears(),
        u64::from(choice.cut()),
        &[],
    ) {
        Some(whole) => whole,
        None => unreachable!(),
    }
}

/// The image of a choice in words.
#[tactic(auto, using(crate::proofs::Departing::member_cut))]
fn image_text(alloc: Global, run: &PageRun<'_>, choice: &Choice) -> Result<String, AllocError>
    requires member { IsMember run.now.starts.now.plan choice.now }
    ensures { IfOk result (λ text. string_bytes text ≡ image_text run.now.starts.now choice.now) }
{
    // A law of crash images, which does nothing: they are devices of the log's size.
    images_are_devices();
    let _sectors = run.numbering.log.sectors();
    let (starts, history) = (run.starts, run.history);
    let whole = history.view(alloc, &nothing_departs(starts, choice))?;
    let image = history.view(alloc, choice)?;
    let mut text = String::new(alloc);
    put_shown(&mut text, &run.numbering, choice, &whole, &image)?;
    Ok(text)
}

/// Appends a text, or how long it is where it is too long.
#[tactic(auto, unfolding(crate::specs::Groups::block_text))]
fn put_block(out: &mut String, text: &str) -> Result<(), AllocError>
    ensures { OnOk result (string_bytes out.new ≡ string_bytes out.old ++ block_text text.now) }
{
    if text.len() <= LONGEST {
        put(out, PagePart::TextOpen)?;
        put_sided(out, text.as_bytes())?;
        return put(out, PagePart::TextClose);
    }
    put(out, PagePart::LongOpen)?;
    put_number(out, text.len() as u64)?;
    put(out, PagePart::LongClose)
}

/// Appends the choice of an image.
pub(crate) fn put_choice_at(
    out: &mut String,
    run: &PageRun<'_>,
    image: u64,
) -> Result<(), AllocError>
    requires image { image < length (ranked_choices run.now.starts.now.plan run.now.starts.now.bound run.now.starts.now.tears) }
    ensures { OnOk result (string_bytes out.new ≡ string_bytes out.old ++ choice_at run.now.starts.now image) }
{
    let choice = run.starts.nth(image);
    put_departures(out, run.numbering.by, choice.departures())
}

/// Appends what the sides of the differences of an image are, where something departs.
fn put_sides(out: &mut String, choice: &Choice) -> Result<(), AllocError>
    ensures { OnOk result (string_bytes out.new ≡ string_bytes out.old ++ sides_text choice.now) }
{
    if choice.departures().is_empty() {
        Ok(())
    } else {
        put(out, PagePart::Sides)
    }
}

/// Appends what begins a group, open or not.
fn put_group_open(out: &mut String, is_open: bool) -> Result<(), AllocError>
    ensures { OnOk result (string_bytes out.new ≡ string_bytes out.old ++ group_open is_open) }
{
    if is_open {
        put(out, PagePart::GroupOpened)
    } else {
        put(out, PagePart::GroupOpen)
    }
}

/// Appends the choice of a group.
#[tactic(auto, unfolding(crate::specs::Groups::group_choice))]
fn put_group_choice(
    out: &mut String,
    run: &PageRun<'_>,
    is_open: bool,
    choice: &Choice,
) -> Result<(), AllocError>
    ensures { OnOk result (string_bytes out.new ≡ string_bytes out.old ++ group_choice run.now.starts.now is_open choice.now) }
{
    put_group_open(out, is_open)?;
    put_departures(out, run.numbering.by, choice.departures())
}

/// Appends the image of a group, and how many failing images stand in it.
#[tactic(auto, unfolding(crate::specs::Groups::group_size))]
fn put_group_size(out: &mut String, group: FailingGroup) -> Result<(), AllocError>
    ensures { OnOk result (string_bytes out.new ≡ string_bytes out.old ++ group_size group) }
{
    put(out, PagePart::GroupImage)?;
    put_number(out, group.image)?;
    put(out, PagePart::GroupSize)?;
    put_number(out, group.failing as u64)
}

/// Appends whether a program ends on all images of a group as on its example.
fn put_same(out: &mut String, same: bool) -> Result<(), AllocError>
    ensures { OnOk result (string_bytes out.new ≡ string_bytes out.old ++ same_text same) }
{
    if same {
        put(out, PagePart::GroupAll)
    } else {
        put(out, PagePart::GroupSome)
    }
}

/// Appends what a program ends in on the example of a group.
#[tactic(auto, unfolding(crate::specs::Groups::group_end))]
fn put_group_end(out: &mut String, outcomes: &[&str], group: FailingGroup) -> Result<(), AllocError>
    requires { group.line < length outcomes.now }
    ensures { OnOk result (string_bytes out.new ≡ string_bytes out.old ++ group_end (map (λ o. o.now) outcomes.now) group) }
{
    put_same(out, group.same)?;
    put_html(out, outcomes[group.line].as_bytes())?;
    put(out, PagePart::GroupLineEnd)
}

/// Appends the line of a group.
#[tactic(auto, unfolding(crate::specs::Groups::group_line))]
fn put_group_line(
    out: &mut String,
    run: &PageRun<'_>,
    outcomes: &[&str],
    is_open: bool,
    group: FailingGroup,
    choice: &Choice,
) -> Result<(), AllocError>
    requires { group.line < length outcomes.now }
    ensures { OnOk result (string_bytes out.new ≡ string_bytes out.old ++ group_line run.now.starts.now (map (λ o. o.now) outcomes.now) is_open group choice.now) }
{
    put_group_choice(out, run, is_open, choice)?;
    put_group_size(out, group)?;
    put_group_end(out, outcomes, group)
}

/// Appends a group.
#[tactic(auto, using(crate::proofs::Departing::member_of), unfolding(crate::specs::Groups::chosen_text))]
pub(crate) fn put_group(
    alloc: Global,
    out: &mut String,
    run: &PageRun<'_>,
    outcomes: &[&str],
    is_open: bool,
    group: FailingGroup,
) -> Result<(), AllocError>
    requires group { IsNumbered run.now.starts.now (length outcomes.now) group }
    ensures { OnOk result (string_bytes out.new ≡ string_bytes out.old ++ group_text run.now.starts.now (map (λ o. o.now) outcomes.now) is_open group) }
{
    let choice = run.starts.nth(group.image);
    let text = image_text(alloc, run, &choice)?;
    put_group_line(out, run, outcomes, is_open, group, &choice)?;
    put_sides(out, &choice)?;
    put_block(out, text.as_str())?;
    put(out, PagePart::GroupClose)
}
