//! The survey of the cuts of a log at which a run looks for cases, with any number of losses.

ghost use Rattle.std.specs.Prelude.{◌≡◌, ◌≤◌, ◌++◌, length, codes, All, IfOk, IfErr, MatchOption, OnOk, true, string_bytes};
ghost use Rattle.std.specs.Fmt.{decimal};
ghost use Rattle.std.specs.List.{flat_map};
ghost use Rattle.request.specs.Source.{plan_of};
ghost use Rattle.case_runs.specs.Cuts.{first_wanted, last_wanted};
ghost use Rattle.inspect.specs.CutLayout.{is_cut_layout};
ghost use Rattle.inspect.specs.CutSurvey.{risks_of, risk_text, risk_line, cut_survey_text, laid_text, IsCutSurvey, RefusesCutSurvey};

use crate::looks::any_image_command::plan_for;
use crate::looks::cut_layout::{is_cut_layout, put_cut_layout};
use crate::looks::images_command::put_cut;
use crate::looks::risks::{CutRisk, risks_of};
use base::refusal::Refusal;
use case_runs::{first_wanted, last_wanted};
use epochs::{Cuts, Plan};
use logfmt::Log;
use request::facts::Recording;
use request::{AnyLosses, OptionPlace, Options, option_refusal_of};
use std::alloc::{AllocError, Global};

/// Appends what a cut leaves open.
#[tactic(auto, unfolding(crate::specs::CutSurvey::risk_text))]
fn put_risk(out: &mut String, risk: &CutRisk) -> Result<(), AllocError>
    ensures { OnOk result (string_bytes out.new ≡ string_bytes out.old ++ risk_text risk.now) }
{
    write!(
        out,
        " at risk {} in flight {}\n",
        risk.at_risk, risk.in_flight
    )
}

/// The text of the cuts.
#[tactic(auto, unfolding(crate::specs::CutSurvey::cut_survey_text))]
fn text_of(alloc: Global, plan: &Plan<'_>, risks: &[CutRisk]) -> Result<String, AllocError>
    requires { All (λ risk. risk.cut ≤ length plan.now.log.entries) risks.now }
    ensures { IfOk result (λ out. string_bytes out ≡ cut_survey_text plan.now risks.now) }
{
    let mut out = String::new(alloc);
    out.push_str("crash cuts 1\n")?;
    for risk in risks {
        put_cut(&mut out, plan, risk.cut)?;
        put_risk(&mut out, risk)?;
    }
    Ok(out)
}

/// Appends how the run is laid out in parts, where that is asked for; else that nobody knows how many cases there are.
fn put_laid(
    out: &mut String,
    cuts: &Cuts,
    count: u32,
    risks: &[CutRisk],
    parts: Option<u64>,
) -> Result<(), AllocError>
    requires { length risks.now ≤ 65537 }
    ensures { OnOk result (string_bytes out.new ≡ string_bytes out.old ++ laid_text parts (first_wanted cuts.now count) (last_wanted cuts.now count) risks.now) }
{
    match parts {
        Some(parts) => {
            let first = u64::from(first_wanted(cuts, count));
            let last = u64::from(last_wanted(cuts, count));
            put_cut_layout(out, first, last, risks, parts)
        },
        None => out.push_str("how many cases there are is not known before the run\n"),
    }
}

/// The text of the cuts of a log, with how the run is laid out in parts where that is asked for.
fn bytes_of(
    alloc: Global,
    log: &Log,
    options: &Options,
    losses: AnyLosses,
    parts: Option<u64>,
) -> Result<Vec<u8>, AllocError>
    ensures told { IfOk result (λ bytes. bytes.items ≡ cut_survey_text (plan_of options.now log.now) (risks_of losses options.now log.now)
        ++ laid_text parts (first_wanted options.now.cuts (length log.now.entries)) (last_wanted options.now.cuts (length log.now.entries)) (risks_of losses options.now log.now)) }
{
    let plan = plan_for(alloc, log, options)?;
    let risks = risks_of(alloc, &plan, log, options, losses)?;
    let mut out = text_of(alloc, &plan, risks.as_slice())?;
    let count = log.entries().len() as u32;
    put_laid(&mut out, &options.cuts(), count, risks.as_slice(), parts)?;
    Ok(out.into_bytes())
}

/// Whether a run can be laid out so.
fn can_be_laid_out(parts: Option<u64>) -> bool
    ensures { MatchOption parts (result ≡ true) (λ count. result ≡ is_cut_layout count) }
{
    match parts {
        Some(parts) => is_cut_layout(parts),
        None => true,
    }
}

/// A line for each cut of a log at which a run looks for cases with that many losses: its epoch, the marks before it, how many parts are
/// at risk there, and how many of these are in flight (docs/CRASH-MODEL.md, Any number of losses). Then it is said that nobody knows
/// beforehand how many cases there are. Where it is asked for, a line for each of that many parts in which the run is laid out stands in
/// place of that. The bound of the options isn't asked for.
///
/// # Errors
///
/// The first refusal in the order of docs/REFUSALS.md: the log, then a number of parts that isn't 1 to 1,048,576, 13 at 18; or want of
/// memory.
pub fn survey_cuts(
    alloc: Global,
    recording: &Recording<'_>,
    parts: Option<u64>,
    losses: AnyLosses,
    options: &Options,
) -> Result<Vec<u8>, Refusal>
    ensures told { IfOk result (λ bytes. IsCutSurvey parts losses recording.now options.now bytes.items) }
    ensures refused { IfErr result (RefusesCutSurvey parts recording.now options.now) }
{
    let log = recording.read(alloc, options)?;
    if !can_be_laid_out(parts) {
        return Err(option_refusal_of(OptionPlace::Parts));
    }
    match bytes_of(alloc, &log, options, losses, parts) {
        Ok(bytes) => Ok(bytes),
        Err(_error) => Err(Refusal::of_memory()),
    }
}
