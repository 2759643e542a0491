//! Failing cases with what is said of them.

ghost use Rattle.std.specs.Prelude.{◌≡◌, ◌++◌, ◌<◌, ℕ, map, IfOk, OnOk, string_bytes};
ghost use Rattle.interp.specs.Ending.{ending_of};
ghost use Rattle.report.specs.LineText.{ending_text};
ghost use Rattle.losses.specs.FoundCases.{failing_value};
ghost use Rattle.case_text.specs.Collected.{told_value};
ghost use Rattle.case_text.specs.Causes.{cause_text};
ghost use Rattle.case_text.specs.Why.{tail_text, told_of, all_told, failure_of};

use crate::causes::put_cause;
use crate::known::KnownParts;
use crate::said::put_window;
use crate::site::Site;
use epochs::By;
use interp::Outcome;
use losses::cure::Failure;
use losses::flushes::Window;
use losses::found::FailingCase;
use report::lines::put_outcome;
use std::alloc::{AllocError, Global};

/// A failing case with what is said of it.
#[derive(Drop)]
pub(crate) struct ToldFailing {
    /// Its number among the leaves of its cut.
    pub(crate) number: usize,
    /// Where a flush takes it away.
    pub(crate) window: Option<Window>,
    /// Why it fails.
    pub(crate) cause: String,
    /// What it ends in, and its window.
    pub(crate) tail: String,
}

/// Appends what a case ends in, and its window.
#[tactic(auto, unfolding(crate::specs::Why::tail_text))]
fn put_tail(out: &mut String, outcome: &Outcome, window: Option<Window>) -> Result<(), AllocError>
    ensures { OnOk result (string_bytes out.new ≡ string_bytes out.old ++ tail_text (ending_text (ending_of outcome.now)) window) }
{
    put_outcome(out, outcome)?;
    write!(out, ",")?;
    put_window(out, window)
}

/// Why a case fails.
fn cause_of(
    alloc: Global,
    by: By,
    cut: u32,
    known: &KnownParts,
    window: Option<Window>,
) -> Result<String, AllocError>
    ensures { IfOk result (λ cause. string_bytes cause ≡ cause_text by cut known.now window) }
{
    let mut cause = String::new(alloc);
    put_cause(&mut cause, alloc, by, cut, known, window)?;
    Ok(cause)
}

/// What a case ends in, and its window.
fn tail_of(alloc: Global, outcome: &Outcome, window: Option<Window>) -> Result<String, AllocError>
    ensures { IfOk result (λ tail. string_bytes tail ≡ tail_text (ending_text (ending_of outcome.now)) window) }
{
    let mut tail = String::new(alloc);
    put_tail(&mut tail, outcome, window)?;
    Ok(tail)
}

/// What is said of a failing case.
fn told_of(
    known: &mut KnownParts,
    site: &Site<'_>,
    case: &FailingCase,
) -> Result<ToldFailing, AllocError>
    ensures { IfOk result (λ told. told_value told ≡ told_of site.now.at site.now.tears (failing_value case.now)) }
{
    let alloc = *known.lost.allocator();
    known.read(site.tears(), site.parts(), case.sets.as_slice())?;
    let window = site.window(known);
    let cause = cause_of(alloc, site.by(), site.number(), known, window)?;
    let tail = tail_of(alloc, &case.outcome, window)?;
    Ok(ToldFailing {
        number: case.number,
        window,
        cause,
        tail,
    })
}

/// What is said of some failing cases.
pub(crate) fn all_told(
    known: &mut KnownParts,
    site: &Site<'_>,
    failing: &[FailingCase],
) -> Result<Vec<ToldFailing>, AllocError>
    ensures { IfOk result (λ told. map told_value told.items ≡ all_told site.now.at site.now.tears failing.now) }
{
    let mut told = Vec::new(*known.lost.allocator());
    for case in failing {
        told.push(told_of(known, site, case)?)?;
    }
    Ok(told)
}

/// Appends each of some failing cases as a failure of a program.
pub(crate) fn push_failures(
    failures: &mut Vec<Failure>,
    program: u8,
    told: &[ToldFailing],
) -> Result<(), AllocError>
    ensures { OnOk result (failures.new.items ≡ failures.old.items ++ map (failure_of program) (map told_value told.now)) }
{
    for one in told {
        failures.push(Failure {
            program,
            window: one.window,
        })?;
    }
    Ok(())
}
