//! What a page of cases has of a program: the flushes that are missing for its failing cases.

ghost use Rattle.std.specs.Prelude.{◌≡◌, ◌≤◌, ◌++◌, ◌∷◌, [], All, length, slice_get, Some, IfOk, OnOk};
ghost use Rattle.losses.specs.declared.found.CutFound.{CutFound as FoundValue};
ghost use Rattle.losses.specs.FoundCases.{failing_value};
ghost use Rattle.case_text.specs.Why.{failure_of, told_of, program_failures};
ghost use Rattle.case_page.specs.CasePage.{run_of};
ghost use Rattle.case_page.specs.CaseFlushes.{failures_at, failures_of, IsLacking, AreLacking};

use crate::counts::failing_of;
use crate::run::CaseRun;
use case_text::{KnownParts, Site, window_of};
use losses::cure::{Failure, missing_of};
use losses::flushes::MissingFlush;
use losses::found::{CutFound, FailingCase};
use page_parts::uncured_of;
use report::ProgramHead;
use std::alloc::{AllocError, Global};

/// What a page of cases has of a program besides these.
#[derive(Drop)]
pub struct CaseProgram {
    /// What the report says of it.
    pub head: ProgramHead,
    /// The flushes that are missing for its failing cases.
    pub missing: Vec<MissingFlush>,
    /// How many of these no flush takes away.
    pub uncured: usize,
}

/// Takes a failing case as a failure.
fn take_case(
    failures: &mut Vec<Failure>,
    known: &mut KnownParts,
    site: &Site<'_>,
    case: &FailingCase,
) -> Result<(), AllocError>
    ensures { OnOk result (failures.new.items ≡ failures.old.items ++ failure_of 0 (told_of site.now.at site.now.tears (failing_value case.now)) ∷ []) }
{
    let window = window_of(known, site, case)?;
    failures.push(Failure { program: 0, window })?;
    Ok(())
}

/// Takes failing cases of a cut.
fn take_cases(
    failures: &mut Vec<Failure>,
    known: &mut KnownParts,
    site: &Site<'_>,
    failing: &[FailingCase],
) -> Result<(), AllocError>
    ensures { OnOk result (failures.new.items ≡ failures.old.items ++ program_failures site.now.at site.now.tears 0 failing.now) }
{
    for case in failing {
        take_case(failures, known, site, case)?;
    }
    Ok(())
}

/// Takes those of the program of that number at a cut.
fn take_cut(
    alloc: Global,
    failures: &mut Vec<Failure>,
    known: &mut KnownParts,
    run: &CaseRun<'_>,
    program: usize,
    found: &CutFound,
) -> Result<(), AllocError>
    requires { found.now.cut ≤ length run.now.log.now.entries }
    ensures { OnOk result (failures.new.items ≡ failures.old.items ++ failures_at (run_of run.now) program found.now) }
{
    let failing = failing_of(program, found);
    if failing.is_empty() {
        return Ok(());
    }
    let site = Site::new(alloc, run.plan, run.log, run.by, run.tears, found.cut)?;
    take_cases(failures, known, &site, failing)
}

/// The failing cases of the program of that number, as failures.
fn failures_of(
    alloc: Global,
    run: &CaseRun<'_>,
    program: usize,
    found: &[CutFound],
) -> Result<Vec<Failure>, AllocError>
    requires cuts { All (λ (c : FoundValue). c.cut ≤ length run.now.log.now.entries) found.now }
    ensures { IfOk result (λ failures. failures.items ≡ failures_of (run_of run.now) program found.now) }
{
    let mut known = KnownParts::new(alloc);
    let mut failures = Vec::new(alloc);
    for cut in found {
        take_cut(alloc, &mut failures, &mut known, run, program, cut)?;
    }
    Ok(failures)
}

/// The program of that number, with what the report says of it.
fn case_program(
    alloc: Global,
    run: &CaseRun<'_>,
    found: &[CutFound],
    heads: &[ProgramHead],
    program: usize,
    head: ProgramHead,
) -> Result<CaseProgram, AllocError>
    requires cuts { All (λ (c : FoundValue). c.cut ≤ length run.now.log.now.entries) found.now }
    requires head { slice_get heads.now program ≡ Some head }
    ensures { IfOk result (IsLacking (run_of run.now) found.now heads.now program) }
{
    let _heads = heads;
    let failures = failures_of(alloc, run, program, found)?;
    let missing = missing_of(alloc, run.log, failures.as_slice())?;
    Ok(CaseProgram {
        head,
        missing,
        uncured: uncured_of(failures.as_slice(), 0),
    })
}

/// Appends a program.
fn push_program(programs: &mut Vec<CaseProgram>, program: CaseProgram) -> Result<(), AllocError>
    ensures { OnOk result (programs.new.items ≡ programs.old.items ++ program ∷ []) }
{
    programs.push(program)?;
    Ok(())
}

/// The programs of a page, by what the report says of each.
pub(crate) fn case_programs(
    alloc: Global,
    run: &CaseRun<'_>,
    found: &[CutFound],
    heads: &[ProgramHead],
) -> Result<Vec<CaseProgram>, AllocError>
    requires cuts { All (λ (c : FoundValue). c.cut ≤ length run.now.log.now.entries) found.now }
    ensures { IfOk result (λ programs. AreLacking (run_of run.now) found.now heads.now (length heads.now) programs.items) }
{
    let mut programs = Vec::new(alloc);
    for (program, head) in heads.iter().enumerate() {
        let own = case_program(alloc, run, found, heads, program, *head)?;
        push_program(&mut programs, own)?;
    }
    Ok(programs)
}
