//! What records tell of a log.

ghost use Rattle.std.specs.Prelude.{◌≡◌, ◌≤◌, All, IfOk, IfErr, length};
ghost use Rattle.losses.specs.FoundCases.{most_cases};
ghost use Rattle.known.specs.Records.{IsRun};
ghost use Rattle.known.specs.Found.{AreKnown, cases_in};
ghost use Rattle.request.specs.Source.{plan_of};
ghost use Rattle.known_runs.specs.Asked.{asked_of, asked_losses, asked_cuts};
ghost use Rattle.known_runs.specs.Told.{memory_fault, FindsBy, RefusesBy};
ghost use Rattle.known_runs.specs.Searched.{StopsFor, RefusesSearch};

use crate::asked::{KnownQuestion, KnownRunFault};
use crate::places::contradiction_of;
use base::causes::RequestCause;
use base::refusal::{Cause, Refusal};
use case_runs::{SearchFault, case_cuts};
use epochs::Plan;
use known::{KnownAt, KnownRecords, KnownRun, find_known, first_contradiction};
use logfmt::Log;
use losses::found::Losses;
use std::alloc::Global;

/// What is asked of losses.
pub(crate) fn losses_of(question: &KnownQuestion<'_>) -> Losses
    ensures { result ≡ asked_losses (asked_of question.now) }
{
    Losses {
        tears: question.options.tears(),
        torn: question.losses.torn,
        lost: question.losses.at_most,
    }
}

/// The refusal for want of memory.
pub(crate) fn memory() -> KnownRunFault
    ensures { result ≡ memory_fault }
{
    KnownRunFault::Refused(Refusal::of_memory())
}

/// The refusal that says why nothing was found.
fn refusal_of(fault: SearchFault) -> Refusal
    ensures { StopsFor fault result }
{
    match fault {
        SearchFault::Memory => Refusal::of_memory(),
        SearchFault::TooMany(cut) => Refusal {
            code: Cause::Request(RequestCause::TooManyImages),
            at: u64::from(cut),
            program: None,
        },
    }
}

/// What records tell at the cuts at which cases are looked for.
fn search_by(
    alloc: Global,
    question: &KnownQuestion<'_>,
    log: &Log<'_>,
    plan: &Plan<'_>,
    records: &KnownRecords<'_>,
) -> Result<Vec<KnownAt>, Refusal>
    requires plan { plan.now ≡ plan_of question.now.options.now log.now }
    ensures found { IfOk result (λ found. AreKnown (asked_losses (asked_of question.now)) log.now question.now.options.now.by (asked_cuts (asked_of question.now) log.now) records.now question.now.stops found.items) }
    ensures few { IfOk result (λ found. cases_in found.items ≤ most_cases) }
    ensures within { IfOk result (λ found. All (λ f. f.cut ≤ length log.now.entries) found.items) }
    ensures refused { IfErr result (RefusesSearch (asked_of question.now) log.now records.now) }
{
    let (options, cuts) = (question.options, question.options.cuts());
    let Ok(cuts) = case_cuts(alloc, plan, log, &cuts, question.losses.at_most) else {
        return Err(Refusal::of_memory());
    };
    let asked = losses_of(question);
    match find_known(
        alloc,
        plan,
        log,
        options.by(),
        cuts.as_slice(),
        records,
        asked,
        question.stops,
    ) {
        Ok(found) => Ok(found),
        Err(fault) => Err(refusal_of(fault)),
    }
}

/// What records of a log without flushes that are added tell of one that may have some, if they don't contradict each other.
pub(crate) fn find_by(
    alloc: Global,
    question: &KnownQuestion<'_>,
    log: &Log<'_>,
    plan: &Plan<'_>,
    plain: &Log<'_>,
    runs: &[KnownRun],
) -> Result<Vec<KnownAt>, KnownRunFault>
    requires plan { plan.now ≡ plan_of question.now.options.now log.now }
    requires runs { All (IsRun plain.now question.now.options.now.by) runs.now }
    ensures found { IfOk result (λ found. FindsBy (asked_of question.now) log.now plain.now runs.now found.items) }
    ensures within { IfOk result (λ found. All (λ f. f.cut ≤ length log.now.entries) found.items) }
    ensures refused { IfErr result (RefusesBy (asked_of question.now) log.now plain.now runs.now) }
{
    let Ok(records) = KnownRecords::new(alloc, plain, question.options.by(), runs) else {
        return Err(memory());
    };
    if let Some(found) = first_contradiction(&records) {
        return Err(contradiction_of(question.records, found));
    }
    match search_by(alloc, question, log, plan, &records) {
        Ok(found) => Ok(found),
        Err(refusal) => Err(KnownRunFault::Refused(refusal)),
    }
}
