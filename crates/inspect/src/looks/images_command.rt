//! The survey of the crash images of a log.

ghost use Rattle.std.specs.Prelude.{◌≡◌, ◌≤◌, ◌++◌, length, codes, IfOk, IfErr, MatchOption, OnOk, true, string_bytes};
ghost use Rattle.std.specs.Fmt.{decimal};
ghost use Rattle.std.specs.List.{flat_map};
ghost use Rattle.epochs.specs.Cuts.{cuts_of};
ghost use Rattle.choices.specs.Choices.{ranked_choices, ranked_at, wide_limit};
ghost use Rattle.inspect.specs.Layout.{is_layout};
ghost use Rattle.inspect.specs.Survey.{parts_text, cut_text, open_text, cut_line, survey_text, IsSurvey, RefusesSurvey};

use crate::looks::layout::{is_layout, put_layout};
use base::refusal::Refusal;
use choices::count_at_up_to;
use epochs::Plan;
use request::facts::Recording;
use request::{OptionPlace, Options, option_refusal_of, plan_of};
use std::alloc::{AllocError, Global};

/// The most images that a cut is told to have.
const MOST_COUNTED: u64 = 9_223_372_036_854_775_807;

/// Appends where a cut stands.
#[tactic(auto, unfolding(crate::specs::Survey::cut_text))]
pub(crate) fn put_cut(out: &mut String, plan: &Plan<'_>, cut: u32) -> Result<(), AllocError>
    requires { cut ≤ length plan.now.log.entries }
    ensures { OnOk result (string_bytes out.new ≡ string_bytes out.old ++ cut_text plan.now cut) }
{
    write!(
        out,
        "cut {cut} epoch {} marks {}",
        plan.epoch(cut),
        plan.marks(cut)
    )
}

/// How many images a cut has, of a plan that has no more than can be counted.
fn images_at(plan: &Plan<'_>, bound: u8, tears: bool, cut: u32) -> u64
    requires bound { bound ≤ 3 }
    requires cut { cut ≤ length plan.now.log.entries }
    requires few { length (ranked_at plan.now bound tears cut) ≤ wide_limit }
    ensures { result ≡ length (ranked_at plan.now bound tears cut) }
{
    match count_at_up_to(plan, bound, tears, cut, MOST_COUNTED) {
        Ok(images) => images,
        Err(_too_many) => unreachable!(),
    }
}

/// Appends what a cut leaves open.
#[tactic(auto, unfolding(crate::specs::Survey::open_text))]
fn put_open(
    out: &mut String,
    plan: &Plan<'_>,
    bound: u8,
    tears: bool,
    cut: u32,
) -> Result<(), AllocError>
    requires bound { bound ≤ 3 }
    requires cut { cut ≤ length plan.now.log.entries }
    requires few { length (ranked_at plan.now bound tears cut) ≤ wide_limit }
    ensures { OnOk result (string_bytes out.new ≡ string_bytes out.old ++ open_text plan.now bound tears cut) }
{
    let images = images_at(plan, bound, tears, cut);
    write!(out, " volatile {} images {images}\n", plan.volatile(cut))
}

/// The text of the survey of a plan that has that many images.
#[tactic(auto, unfolding(crate::specs::Survey::survey_text))]
fn text_of(
    alloc: Global,
    plan: &Plan<'_>,
    bound: u8,
    tears: bool,
    images: u64,
) -> Result<String, AllocError>
    requires bound { bound ≤ 3 }
    requires count { images ≡ length (ranked_choices plan.now bound tears) }
    requires few { images ≤ wide_limit }
    ensures { IfOk result (λ out. string_bytes out ≡ survey_text plan.now bound tears) }
{
    let mut out = String::new(alloc);
    for cut in plan.cuts() {
        put_cut(&mut out, plan, *cut)?;
        put_open(&mut out, plan, bound, tears, *cut)?;
    }
    write!(out, "total {images}\n")?;
    Ok(out)
}

/// Appends how a run of that many images is laid out in parts, where that is asked for.
fn put_parts(out: &mut String, images: u64, parts: Option<u64>) -> Result<(), AllocError>
    ensures { OnOk result (string_bytes out.new ≡ string_bytes out.old ++ parts_text parts images) }
{
    match parts {
        Some(parts) => put_layout(out, images, parts),
        None => Ok(()),
    }
}

/// The text of the images, with how the run is laid out in parts where that is asked for.
fn text_with_parts(
    alloc: Global,
    plan: &Plan<'_>,
    options: &Options,
    images: u64,
    parts: Option<u64>,
) -> Result<Vec<u8>, AllocError>
    requires count { images ≡ length (ranked_choices plan.now options.now.bound options.now.tears) }
    requires few { images ≤ wide_limit }
    ensures { IfOk result (λ bytes. bytes.items ≡ survey_text plan.now options.now.bound options.now.tears ++ parts_text parts images) }
{
    let mut out = text_of(alloc, plan, options.bound(), options.tears(), images)?;
    put_parts(&mut out, images, parts)?;
    Ok(out.into_bytes())
}

/// Whether a run of `images` images can be laid out in these parts.
fn can_be_laid_out(images: u64, parts: Option<u64>) -> bool
    ensures { MatchOption parts (result ≡ true) (λ count. result ≡ is_layout images count) }
{
    match parts {
        Some(parts) => is_layout(images, parts),
        None => true,
    }
}

/// A line for each wanted cut of a log, with its epoch, the marks before it, its volatile parts and
/// how many images it has, and then their total (docs/COMMANDS.md, Commands). Where parts are asked for, after these a line for each
/// part in which the run is laid out.
///
/// # Errors
///
/// The first refusal in the order of docs/REFUSALS.md: the log, the number of its images, then a number of parts in which it can't be
/// laid out; or want of memory.
pub fn survey(
    alloc: Global,
    recording: &Recording<'_>,
    parts: Option<u64>,
    options: &Options,
) -> Result<Vec<u8>, Refusal>
    ensures told { IfOk result (λ bytes. IsSurvey parts recording.now options.now bytes.items) }
    ensures refused { IfErr result (RefusesSurvey parts recording.now options.now) }
{
    let log = recording.read(alloc, options)?;
    let (plan, images) = plan_of(alloc, &log, options)?;
    if !can_be_laid_out(images, parts) {
        return Err(option_refusal_of(OptionPlace::Parts));
    }
    match text_with_parts(alloc, &plan, options, images, parts) {
        Ok(bytes) => Ok(bytes),
        Err(_error) => Err(Refusal::of_memory()),
    }
}
