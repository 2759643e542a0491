//! One crash image in words.

ghost use Rattle.std.specs.Prelude.{◌≡◌, ◌≤◌, [], length, IfOk, IfErr};
ghost use Rattle.logfmt.specs.Bounds.{IsLog};
ghost use Rattle.images.specs.Views.{view_of, sectors_of, IsMember};
ghost use Rattle.crash_text.specs.Shown.{shown_text};
ghost use Rattle.inspect.specs.Image.{whole_view, IsShown, RefusesImage};
ghost use Rattle.request.specs.Source.{plan_of};

use crate::looks::image_command::{ImageForm, image_in};
use base::refusal::Refusal;
use choices::{Choice, choice_named};
use crash_text::{Numbering, put_shown};
use epochs::Plan;
use images::History;
use logfmt::Log;
use request::facts::Recording;
use request::{Options, Which};
use std::alloc::{AllocError, Global};

/// The choice at the same cut where nothing departs.
#[tactic(auto, using(crate::proofs::Printed::nothing_there))]
fn nothing_departs(plan: &Plan<'_>, options: &Options, choice: &Choice) -> Choice
    requires { IsMember plan.now choice.now }
    ensures member { IsMember plan.now result }
    ensures cut { result.cut ≡ choice.now.cut }
    ensures none { result.departures ≡ [] }
{
    match choice_named(
        plan,
        options.bound(),
        options.tears(),
        u64::from(choice.cut()),
        &[],
    ) {
        Some(whole) => whole,
        None => unreachable!(),
    }
}

/// The image of a choice in words.
pub(crate) fn text_of<'x>(
    alloc: Global,
    log: &'x Log<'x>,
    plan: &'x Plan<'x>,
    options: &Options,
    choice: &Choice,
) -> Result<Vec<u8>, AllocError>
    requires bounds { IsLog log.now }
    requires plan { plan.now ≡ plan_of options.now log.now }
    requires member { IsMember plan.now choice.now }
    ensures { IfOk result (λ bytes. bytes.items ≡ shown_text plan.now options.now.bound options.now.tears choice.now
        (sectors_of (whole_view plan.now.log choice.now.cut)) (sectors_of (view_of plan.now choice.now))) }
{
    let history = History::new(alloc, plan, log)?;
    let whole = history.view(alloc, &nothing_departs(plan, options, choice))?;
    let image = history.view(alloc, choice)?;
    let numbering = Numbering {
        plan,
        log,
        cuts: options.cuts(),
        by: options.by(),
        bound: options.bound(),
        tears: options.tears(),
    };
    let mut out = String::new(alloc);
    put_shown(&mut out, &numbering, choice, &whole, &image)?;
    Ok(out.into_bytes())
}

/// The crash image that is meant, in words (docs/OUTPUT.md, The text of `show`).
///
/// # Errors
///
/// As of `image`.
pub fn show(
    alloc: Global,
    recording: &Recording<'_>,
    which: Which,
    options: &Options,
) -> Result<Vec<u8>, Refusal>
    ensures shown { IfOk result (λ bytes. IsShown recording.now options.now which bytes.items) }
    ensures refused { IfErr result (RefusesImage recording.now options.now which) }
{
    image_in(alloc, ImageForm::Words, recording, which, options)
}
