//! One crash image with any number of lost or torn parts, as bytes or in words.

ghost use Rattle.std.specs.Prelude.{◌≡◌, ◌≤◌, ◌<◌, ◌==◌, ◌++◌, [], ℕ, Bool, length, position, replicate, slice_get, slice_index_or, string_bytes, Some, IfOk, IfErr, IfSome, OnOk, MatchOption};
ghost use Rattle.epochs.specs.Cuts.{cuts_of};
ghost use Rattle.choices.specs.Seeking.{LacksCut};
ghost use Rattle.cases.specs.AtCut.{parts_of, case_of, image_of};
ghost use Rattle.crash_text.specs.AnyShown.{any_shown_text};
ghost use Rattle.crash_text.specs.Sectors.{sector_at, difference_text};
ghost use Rattle.request.specs.Source.{plan_of};
ghost use Rattle.images.specs.Images.{crash_image};
ghost use Rattle.inspect.specs.AnyImage.{any_text_in, IsAnyImage, IsLostOf, IsToldSo, NoneIsMeant, RefusesAnyImage};
ghost use Rattle.inspect.specs.Image.{sector_bytes};
ghost use Rattle.inspect.specs.declared.looks.image_command.ImageForm.TheVariants as form;

use crate::looks::image_command::ImageForm;
use base::refusal::Refusal;
use cases::Cut;
use crash_text::{Numbering, put_any_head, put_sector};
use epochs::Plan;
use logfmt::Log;
use lost_text::{Lost, lost_said};
use request::facts::Recording;
use request::{OptionPlace, Options, option_refusal_of};
use std::alloc::{AllocError, Global};

/// The place of a number among some cuts.
fn place_of(cuts: &[u32], cut: u64) -> Option<usize>
    ensures { result ≡ position (λ (wanted : ℕ). wanted == cut) cuts.now }
{
    cuts.iter().position(|wanted| u64::from(*wanted) == cut)
}

/// The wanted cut of a number.
fn wanted_cut(plan: &Plan<'_>, cut: u64) -> Option<u32>
    ensures is { IfSome result (λ k. k ≡ cut) }
    ensures wanted { MatchOption result (LacksCut (cuts_of plan.now.kind plan.now.log.entries) cut)
        (λ k. (place : ℕ) × (slice_get (cuts_of plan.now.kind plan.now.log.entries) place ≡ Some cut)) }
    ensures within { IfSome result (λ k. k ≤ length plan.now.log.entries) }
{
    let cuts = plan.cuts();
    match place_of(cuts, cut) {
        Some(place) => Some(cuts[place]),
        None => None,
    }
}

/// Appends a sector of the image of a case's representative.
fn put_bytes(bytes: &mut Vec<u8>, at: &Cut<'_>, sets: &[u16], number: u32) -> Result<(), AllocError>
    requires each { length sets.now ≡ length (parts_of at.now) }
    requires device { number < at.now.log.sectors }
    ensures { (tears : Bool) → OnOk result (bytes.new.items ≡ bytes.old.items
        ++ slice_index_or (image_of at.now (case_of tears (parts_of at.now) sets.now)) number []) }
{
    let sector = at.sector(sets, number);
    bytes.extend_from_slice(sector.as_slice())
}

/// The sectors of that image one after the other.
#[tactic(auto, using(crate::proofs::AnyTold::bytes_more, crate::proofs::AnyTold::bytes_all))]
fn bytes_of(alloc: Global, at: &Cut<'_>, sets: &[u16]) -> Result<Vec<u8>, AllocError>
    requires { length sets.now ≡ length (parts_of at.now) }
    ensures { (tears : Bool) → IfOk result (λ bytes. bytes.items ≡ sector_bytes (image_of at.now (case_of tears (parts_of at.now) sets.now))) }
{
    let mut bytes = Vec::new(alloc);
    for number in 0..at.sectors() {
        put_bytes(&mut bytes, at, sets, number)?;
    }
    Ok(bytes)
}

/// The sectors of the image of what is lost and torn, one after the other.
fn lost_bytes(alloc: Global, at: &Cut<'_>, lost: &Lost) -> Result<Vec<u8>, AllocError>
    requires { IsLostOf at.now lost.now.sets.items lost.now.departures.items }
    ensures { IfOk result (λ bytes. bytes.items ≡ sector_bytes (crash_image at.now.log at.now.cut lost.now.departures.items)) }
{
    let bytes = bytes_of(alloc, at, lost.sets.as_slice())?;
    Ok(bytes)
}

/// Returns `count` sets, each with the one fate whole.
fn whole_sets(alloc: Global, count: usize) -> Result<Vec<u16>, AllocError>
    ensures value { IfOk result (λ sets. sets.items ≡ replicate count 1) }
    ensures each { IfOk result (λ sets. length sets.items ≡ count) }
{
    let mut sets = Vec::new(alloc);
    sets.resize(count, 1)?;
    Ok(sets)
}

/// Appends a sector of the images of two representatives, where it differs.
fn put_difference(
    out: &mut String,
    at: &Cut<'_>,
    whole: &[u16],
    sets: &[u16],
    number: u32,
) -> Result<(), AllocError>
    requires whole { length whole.now ≡ length (parts_of at.now) }
    requires each { length sets.now ≡ length (parts_of at.now) }
    requires device { number < at.now.log.sectors }
    ensures { (tears : Bool) → OnOk result (string_bytes out.new ≡ string_bytes out.old
        ++ sector_at (image_of at.now (case_of tears (parts_of at.now) whole.now)) (image_of at.now (case_of tears (parts_of at.now) sets.now)) number) }
{
    let _sectors = at.sectors();
    let left = at.sector(whole, number);
    let right = at.sector(sets, number);
    put_sector(out, number, &left, &right)
}

/// Appends each sector in which the images of two representatives differ.
fn put_differences(
    out: &mut String,
    at: &Cut<'_>,
    whole: &[u16],
    sets: &[u16],
) -> Result<(), AllocError>
    requires whole { length whole.now ≡ length (parts_of at.now) }
    requires each { length sets.now ≡ length (parts_of at.now) }
    ensures { (tears : Bool) → OnOk result (string_bytes out.new ≡ string_bytes out.old
        ++ difference_text (image_of at.now (case_of tears (parts_of at.now) whole.now)) (image_of at.now (case_of tears (parts_of at.now) sets.now))) }
{
    for number in 0..at.sectors() {
        put_difference(out, at, whole, sets, number)?;
    }
    Ok(())
}

/// Appends each sector in which the image of what is lost and torn differs from that where nothing is.
fn put_lost(alloc: Global, out: &mut String, at: &Cut<'_>, lost: &Lost) -> Result<(), AllocError>
    requires { IsLostOf at.now lost.now.sets.items lost.now.departures.items }
    ensures { OnOk result (string_bytes out.new ≡ string_bytes out.old
        ++ difference_text (crash_image at.now.log at.now.cut []) (crash_image at.now.log at.now.cut lost.now.departures.items)) }
{
    let parts = at.parts();
    let whole = whole_sets(alloc, parts.len())?;
    put_differences(out, at, whole.as_slice(), lost.sets.as_slice())?;
    Ok(())
}

/// The image of what is lost and torn at a cut, in words.
fn words_of<'x>(
    alloc: Global,
    plan: &'x Plan<'x>,
    log: &'x Log<'x>,
    at: &Cut<'_>,
    options: &Options,
    lost: &Lost,
) -> Result<Vec<u8>, AllocError>
    requires plan { plan.now ≡ plan_of options.now log.now }
    requires within { at.now.cut ≤ length plan.now.log.entries }
    requires lost { IsLostOf at.now lost.now.sets.items lost.now.departures.items }
    ensures { IfOk result (λ bytes. bytes.items ≡ any_shown_text plan.now options.now.tears at.now.cut lost.now.departures.items
        (crash_image at.now.log at.now.cut []) (crash_image at.now.log at.now.cut lost.now.departures.items)) }
{
    let numbering = Numbering {
        plan,
        log,
        cuts: options.cuts(),
        by: options.by(),
        bound: options.bound(),
        tears: options.tears(),
    };
    let mut out = String::new(alloc);
    put_any_head(
        &mut out,
        &numbering,
        at.number(),
        lost.departures.as_slice(),
    )?;
    put_lost(alloc, &mut out, at, lost)?;
    Ok(out.into_bytes())
}

/// The image in a form.
fn told<'x>(
    alloc: Global,
    form: ImageForm,
    plan: &'x Plan<'x>,
    log: &'x Log<'x>,
    at: &Cut<'_>,
    options: &Options,
    lost: &Lost,
) -> Result<Vec<u8>, AllocError>
    requires plan { plan.now ≡ plan_of options.now log.now }
    requires log { at.now.log ≡ log.now }
    requires within { at.now.cut ≤ length plan.now.log.entries }
    requires lost { IsLostOf at.now lost.now.sets.items lost.now.departures.items }
    ensures { IfOk result (λ bytes. bytes.items ≡ any_text_in form options.now log.now at.now.cut lost.now.departures.items) }
{
    match form {
        ImageForm::Bytes => lost_bytes(alloc, at, lost),
        ImageForm::Words => words_of(alloc, plan, log, at, options, lost),
    }
}

/// The plan of the options.
#[tactic(auto, using(crate::proofs::AnyTold::plan_is))]
pub(crate) fn plan_for<'x>(
    alloc: Global,
    log: &'x Log<'x>,
    options: &Options,
) -> Result<Plan<'x>, AllocError>
    ensures { IfOk result (λ plan. plan ≡ plan_of options.now log.now) }
{
    let plan = Plan::new(alloc, log, options.cuts(), options.by())?;
    Ok(plan)
}

/// The image of the choice at a wanted cut that is printed so; none where no choice there is.
fn image_at<'x>(
    alloc: Global,
    form: ImageForm,
    plan: &'x Plan<'x>,
    log: &'x Log<'x>,
    cut: u64,
    number: u32,
    said: &str,
    options: &Options,
) -> Result<Option<Vec<u8>>, AllocError>
    requires plan { plan.now ≡ plan_of options.now log.now }
    requires same { number ≡ cut }
    requires within { number ≤ length log.now.entries }
    requires wanted { (place : ℕ) × (slice_get (cuts_of options.now.cuts log.now.entries) place ≡ Some cut) }
    ensures { IfOk result (λ found. MatchOption found (NoneIsMeant options.now log.now cut said.now) (λ bytes. IsToldSo form options.now log.now cut said.now bytes.items)) }
{
    let at = Cut::new(alloc, log, options.by(), number)?;
    let Some(lost) = lost_said(alloc, &at, options.by(), options.tears(), said)? else {
        return Ok(None);
    };
    let bytes = told(alloc, form, plan, log, &at, options, &lost)?;
    Ok(Some(bytes))
}

/// The image of any cut; none where no choice of a wanted cut is.
fn image_said(
    alloc: Global,
    form: ImageForm,
    log: &Log,
    cut: u64,
    said: &str,
    options: &Options,
) -> Result<Option<Vec<u8>>, AllocError>
    ensures { IfOk result (λ found. MatchOption found (NoneIsMeant options.now log.now cut said.now) (λ bytes. IsToldSo form options.now log.now cut said.now bytes.items)) }
{
    let plan = plan_for(alloc, log, options)?;
    let Some(number) = wanted_cut(&plan, cut) else {
        return Ok(None);
    };
    image_at(alloc, form, &plan, log, cut, number, said, options)
}

/// The crash image of the choice at a cut that is printed so, of any number of lost or torn parts, those in flight among them
/// (docs/COMMANDS.md, Commands), in that form. The bound of the options isn't asked for.
///
/// # Errors
///
/// The first refusal in the order of docs/REFUSALS.md: the log, then a cut and a choice that none has, 13 at 11; or want of memory.
pub fn any_image(
    alloc: Global,
    form: ImageForm,
    recording: &Recording<'_>,
    cut: u64,
    said: &str,
    options: &Options,
) -> Result<Vec<u8>, Refusal>
    ensures shown { IfOk result (λ bytes. IsAnyImage form recording.now options.now cut said.now bytes.items) }
    ensures refused { IfErr result (RefusesAnyImage recording.now options.now cut said.now) }
{
    let log = recording.read(alloc, options)?;
    let Ok(found) = image_said(alloc, form, &log, cut, said, options) else {
        return Err(Refusal::of_memory());
    };
    match found {
        Some(bytes) => Ok(bytes),
        None => Err(option_refusal_of(OptionPlace::Choice)),
    }
}
