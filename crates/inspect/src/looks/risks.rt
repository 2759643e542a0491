//! The cuts at which a run looks for cases, with any number of losses, and what each leaves open.

ghost use Rattle.std.specs.Prelude.{◌≡◌, ◌≤◌, ◌+◌, ◌^◌, ◌<◌, if◌then◌else◌, length, map, count_by, All, IfOk};
ghost use Rattle.base.specs.Sizes.{most_units};
ghost use Rattle.logfmt.specs.declared.entry.Entry.{Entry as LogEntry};
ghost use Rattle.epochs.specs.declared.part.Part.{Part as LogPart};
ghost use Rattle.epochs.specs.Plan.{PlanValue};
ghost use Rattle.cases.specs.AtCut.{parts_of};
ghost use Rattle.crash_text.specs.AnyShown.{is_in_flight};
ghost use Rattle.request.specs.Source.{plan_of};
ghost use Rattle.inspect.specs.AnyImage.{cut_of};
ghost use Rattle.case_runs.specs.Cuts.{case_cuts};
ghost use Rattle.inspect.specs.CutSurvey.{count_in_flight, risk_at, risks_of};

use case_runs::case_cuts;
use cases::Cut;
use crash_text::is_in_flight;
use epochs::{By, Part, Plan};
use logfmt::{Entry, Log};
use request::{AnyLosses, Options};
use std::alloc::{AllocError, Global};

/// A cut at which cases are looked for.
#[derive(Clone, Copy)]
pub struct CutRisk {
    /// Its number.
    pub cut: u32,
    /// How many parts a crash may lose there.
    pub at_risk: u32,
    /// How many of these are in flight.
    pub in_flight: u32,
}

/// A count with one more, where a part is in flight.
fn count_with(count: u32, entries: &[Entry], cut: u32, part: Part) -> u32
    requires { count < most_units }
    ensures { result ≡ count + (if is_in_flight entries.now cut part.entry then 1 else 0) }
{
    if is_in_flight(entries, cut, part.entry) {
        count + 1
    } else {
        count
    }
}

/// How many of some parts are in flight at a cut.
fn count_in_flight(entries: &[Entry], cut: u32, parts: &[Part]) -> u32
    requires { length parts.now ≤ most_units }
    ensures { result ≡ count_by (λ (p : LogPart). is_in_flight entries.now cut p.entry) parts.now }
{
    let mut count = 0;
    for part in parts {
        count = count_with(count, entries, cut, *part);
    }
    count
}

/// What a cut leaves open.
fn risk_at(alloc: Global, log: &Log, by: By, cut: u32) -> Result<CutRisk, AllocError>
    requires { cut ≤ length log.now.entries }
    ensures { IfOk result (λ risk. risk ≡ risk_at (record { log = log.now; way = by; cut = cut })) }
{
    let at = Cut::new(alloc, log, by, cut)?;
    let _sectors = at.sectors();
    let parts = at.parts();
    Ok(CutRisk {
        cut,
        at_risk: parts.len() as u32,
        in_flight: count_in_flight(log.entries(), cut, parts),
    })
}

/// What each of some cuts leaves open.
fn risks_at(alloc: Global, log: &Log, by: By, cuts: &[u32]) -> Result<Vec<CutRisk>, AllocError>
    requires { All (λ cut. cut ≤ length log.now.entries) cuts.now }
    ensures { IfOk result (λ risks. risks.items ≡ map (λ cut. risk_at (record { log = log.now; way = by; cut = cut })) cuts.now) }
{
    let mut risks = Vec::new(alloc);
    for cut in cuts {
        risks.push(risk_at(alloc, log, by, *cut)?)?;
    }
    Ok(risks)
}

/// The cuts at which cases are looked for, with what each leaves open.
pub(crate) fn risks_of(
    alloc: Global,
    plan: &Plan<'_>,
    log: &Log,
    options: &Options,
    losses: AnyLosses,
) -> Result<Vec<CutRisk>, AllocError>
    requires { plan.now ≡ plan_of options.now log.now }
    ensures value { IfOk result (λ risks. risks.items ≡ risks_of losses options.now log.now) }
    ensures few { IfOk result (λ risks. length risks.items ≤ 65537) }
    ensures within { IfOk result (λ risks. All (λ risk. risk.cut ≤ length log.now.entries) risks.items) }
{
    let _entries = log.entries();
    let cuts = case_cuts(alloc, plan, log, &options.cuts(), losses.at_most)?;
    let risks = risks_at(alloc, log, options.by(), cuts.as_slice())?;
    Ok(risks)
}
