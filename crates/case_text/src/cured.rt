//! What a run of cases says of its cure.

ghost use Rattle.std.specs.Prelude.{◌≡◌, ◌≤◌, ◌<◌, ◌++◌, ◌∷◌, [], ℕ, length, slice_get, Some, All, IfOk, OnOk, string_bytes};
ghost use Rattle.std.specs.List.{flat_map};
ghost use Rattle.std.specs.Option.{option_map, option_or};
ghost use Rattle.losses.specs.Places.{AreWindows};
ghost use Rattle.losses.specs.FailureWindows.{windows_in, HoldNoFlush};
ghost use Rattle.cases.specs.AtCut.{parts_of, case_of};
ghost use Rattle.losses.specs.FoundCases.{failing_value};
ghost use Rattle.case_text.specs.Text.{are_all_cuts, case_line, totals_text};
ghost use Rattle.case_text.specs.Window.{case_window};
ghost use Rattle.case_text.specs.Why.{by_program, failure_of, told_of, program_failures, found_failures, cut_failures, all_failures};
ghost use Rattle.case_text.specs.Cured.{line_without, uncured_line, program_uncured, found_uncured, cut_uncured, all_uncured, none_text, begin_text, cure_begin};

use crate::head::put_options;
use crate::known::KnownParts;
use crate::lines::put_case;
use crate::site::Site;
use crate::totals::{are_all_cuts, put_totals};
use epochs::{By, Plan};
use logfmt::Log;
use losses::cure::{Failure, put_programs};
use losses::flushes::Window;
use losses::found::{CaseFindings, CutFound, FailingCase, Losses};
use report::Head;
use std::alloc::{AllocError, Global};

/// What a run of cases says of its cure.
#[derive(Drop)]
pub struct CasesCure {
    /// Its failing cases, each with its program and its window.
    pub failures: Vec<Failure>,
    /// How the text of the cure begins, where this is its first run.
    pub begin: Vec<u8>,
    /// The last line of the text of cases, with which the text of the cure ends, where this is its last run.
    pub last: String,
}

/// The line of a failing case.
fn line_of(
    known: &mut KnownParts,
    site: &Site<'_>,
    program: usize,
    case: &FailingCase,
) -> Result<String, AllocError>
    ensures { IfOk result (λ line. string_bytes line ≡ case_line site.now.at site.now.tears program (failing_value case.now)) }
{
    let mut line = String::new(*known.lost.allocator());
    put_case(&mut line, known, site, program, case)?;
    Ok(line)
}

/// The window of a failing case.
///
/// # Errors
///
/// Memory was refused.
pub fn window_of(
    known: &mut KnownParts,
    site: &Site<'_>,
    case: &FailingCase,
) -> Result<Option<Window>, AllocError>
    ensures { IfOk result (λ window. window ≡ case_window site.now.at (case_of site.now.tears (parts_of site.now.at) (failing_value case.now).sets)) }
{
    known.read(site.tears(), site.parts(), case.sets.as_slice())?;
    Ok(site.window(known))
}

/// Keeps the line of a failing case, where none is kept before it.
fn keep_line(
    uncured: &mut Option<String>,
    known: &mut KnownParts,
    site: &Site<'_>,
    program: usize,
    case: &FailingCase,
) -> Result<(), AllocError>
    ensures { OnOk result (option_map string_bytes uncured.new ≡ option_or (option_map string_bytes uncured.old) (Some (case_line site.now.at site.now.tears program (failing_value case.now)))) }
{
    if uncured.is_some() {
        return Ok(());
    }
    let line = line_of(known, site, program, case)?;
    *uncured = Some(line);
    Ok(())
}

/// Keeps it, where that case has no window.
fn keep_uncured(
    uncured: &mut Option<String>,
    known: &mut KnownParts,
    site: &Site<'_>,
    program: usize,
    case: &FailingCase,
    window: Option<Window>,
) -> Result<(), AllocError>
    ensures { OnOk result (option_map string_bytes uncured.new ≡ option_or (option_map string_bytes uncured.old) (slice_get (line_without window (case_line site.now.at site.now.tears program (failing_value case.now))) 0)) }
{
    match window {
        Some(_window) => Ok(()),
        None => keep_line(uncured, known, site, program, case),
    }
}

/// Takes a failing case of a program: as a failure, and with its line, if it is the first that has no window.
fn take_case(
    failures: &mut Vec<Failure>,
    uncured: &mut Option<String>,
    known: &mut KnownParts,
    site: &Site<'_>,
    program: usize,
    case: &FailingCase,
) -> Result<(), AllocError>
    requires { program < 256 }
    ensures failures { OnOk result (failures.new.items ≡ failures.old.items ++ failure_of program (told_of site.now.at site.now.tears (failing_value case.now)) ∷ []) }
    ensures uncured { OnOk result (option_map string_bytes uncured.new ≡ option_or (option_map string_bytes uncured.old) (slice_get (uncured_line site.now.at site.now.tears program (failing_value case.now)) 0)) }
{
    let window = window_of(known, site, case)?;
    failures.push(Failure {
        program: program as u8,
        window,
    })?;
    keep_uncured(uncured, known, site, program, case, window)
}

/// Takes the failing cases of a program.
fn take_program(
    failures: &mut Vec<Failure>,
    uncured: &mut Option<String>,
    known: &mut KnownParts,
    site: &Site<'_>,
    program: usize,
    failing: &[FailingCase],
) -> Result<(), AllocError>
    requires { program < 256 }
    ensures failures { OnOk result (failures.new.items ≡ failures.old.items ++ program_failures site.now.at site.now.tears program failing.now) }
    ensures uncured { OnOk result (option_map string_bytes uncured.new ≡ option_or (option_map string_bytes uncured.old) (slice_get (program_uncured site.now.at site.now.tears program failing.now) 0)) }
{
    for case in failing {
        take_case(failures, uncured, known, site, program, case)?;
    }
    Ok(())
}

/// Takes the failing cases of each program.
fn take_each(
    failures: &mut Vec<Failure>,
    uncured: &mut Option<String>,
    known: &mut KnownParts,
    site: &Site<'_>,
    programs: &[CaseFindings],
) -> Result<(), AllocError>
    requires { length programs.now ≤ 256 }
    ensures failures { OnOk result (failures.new.items ≡ failures.old.items ++ by_program (found_failures site.now.at site.now.tears) 0 programs.now) }
    ensures uncured { OnOk result (option_map string_bytes uncured.new ≡ option_or (option_map string_bytes uncured.old) (slice_get (by_program (found_uncured site.now.at site.now.tears) 0 programs.now) 0)) }
{
    for (number, found) in programs.iter().enumerate() {
        take_program(
            failures,
            uncured,
            known,
            site,
            number,
            found.failing.as_slice(),
        )?;
    }
    Ok(())
}

/// Takes the failing cases of a cut.
fn take_cut(
    failures: &mut Vec<Failure>,
    uncured: &mut Option<String>,
    known: &mut KnownParts,
    log: &Log,
    plan: &Plan<'_>,
    by: By,
    tears: bool,
    found: &CutFound,
) -> Result<(), AllocError>
    requires plan { plan.now.log ≡ log.now }
    requires cut { found.now.cut ≤ length log.now.entries }
    requires few { length found.now.programs.items ≤ 256 }
    ensures failures { OnOk result (failures.new.items ≡ failures.old.items ++ cut_failures log.now by tears found.now) }
    ensures uncured { OnOk result (option_map string_bytes uncured.new ≡ option_or (option_map string_bytes uncured.old) (slice_get (cut_uncured log.now by tears found.now) 0)) }
{
    let alloc = *known.lost.allocator();
    let site = Site::new(alloc, plan, log, by, tears, found.cut)?;
    take_each(failures, uncured, known, &site, found.programs.as_slice())
}

/// Takes the failing cases of all cuts.
fn take_cuts(
    failures: &mut Vec<Failure>,
    uncured: &mut Option<String>,
    alloc: Global,
    log: &Log,
    plan: &Plan<'_>,
    by: By,
    tears: bool,
    found: &[CutFound],
) -> Result<(), AllocError>
    requires plan { plan.now.log ≡ log.now }
    requires cuts { All (λ cut. cut.cut ≤ length log.now.entries) found.now }
    requires few { All (λ cut. length cut.programs.items ≤ 256) found.now }
    ensures failures { OnOk result (failures.new.items ≡ failures.old.items ++ all_failures log.now by tears found.now) }
    ensures uncured { OnOk result (option_map string_bytes uncured.new ≡ option_or (option_map string_bytes uncured.old) (slice_get (all_uncured log.now by tears found.now) 0)) }
{
    let mut known = KnownParts::new(alloc);
    for cut in found {
        take_cut(failures, uncured, &mut known, log, plan, by, tears, cut)?;
    }
    Ok(())
}

/// The failing cases of a run as failures, and the line of the first that has no window.
#[derive(Drop)]
struct Gathered {
    failures: Vec<Failure>,
    uncured: Option<String>,
}

/// Returns the failing cases of these cuts as failures, and the line of the first that has no window.
fn gather(
    alloc: Global,
    head: &Head,
    log: &Log,
    plan: &Plan<'_>,
    tears: bool,
    found: &[CutFound],
) -> Result<Gathered, AllocError>
    requires plan { plan.now.log ≡ log.now }
    requires cuts { All (λ cut. cut.cut ≤ length log.now.entries) found.now }
    requires few { All (λ cut. length cut.programs.items ≤ 256) found.now }
    ensures failures { IfOk result (λ all. all.failures.items ≡ all_failures log.now head.now.by tears found.now) }
    ensures uncured { IfOk result (λ all. option_map string_bytes all.uncured ≡ slice_get (all_uncured log.now head.now.by tears found.now) 0) }
{
    let mut failures = Vec::new(alloc);
    let mut uncured: Option<String> = None;
    take_cuts(
        &mut failures,
        &mut uncured,
        alloc,
        log,
        plan,
        head.by,
        tears,
        found,
    )?;
    Ok(Gathered { failures, uncured })
}

/// Appends the line that no flush takes away, if there is one.
fn put_none(out: &mut String, uncured: &Option<String>) -> Result<(), AllocError>
    ensures { OnOk result (string_bytes out.new ≡ string_bytes out.old ++ none_text (option_map string_bytes uncured.now)) }
{
    match uncured {
        Some(line) => {
            write!(out, "no flush cures ")?;
            out.push_str(line.as_str())
        }
        None => Ok(()),
    }
}

/// How the text begins.
#[tactic(auto, unfolding(crate::specs::Cured::begin_text))]
fn begin_of(
    alloc: Global,
    head: &Head,
    asked: Losses,
    failures: &[Failure],
    uncured: &Option<String>,
) -> Result<Vec<u8>, AllocError>
    ensures { IfOk result (λ bytes. bytes.items ≡ begin_text head.now asked failures.now (option_map string_bytes uncured.now)) }
{
    let mut out = String::new(alloc);
    write!(out, "crash cure cases 1\n")?;
    put_options(&mut out, head, asked)?;
    put_programs(&mut out, head.programs.len(), failures)?;
    put_none(&mut out, uncured)?;
    Ok(out.into_bytes())
}

/// The last line of the text of cases.
fn last_of(alloc: Global, head: &Head, found: &[CutFound]) -> Result<String, AllocError>
    ensures { IfOk result (λ last. string_bytes last ≡ totals_text (are_all_cuts head.now.cuts) found.now) }
{
    let mut last = String::new(alloc);
    put_totals(&mut last, are_all_cuts(&head.cuts), found)?;
    Ok(last)
}

/// What a run of cases says of its cure (docs/OUTPUT.md, The text of `cure`): its failing cases as failures, of which each window lies in
/// the log and holds no flush entry, and how the text of a cure begins with this run and ends with it. The plan is that of the log; of the
/// head's bound, tears, `first` and number of images nothing is printed.
///
/// # Errors
///
/// Memory was refused.
pub fn cure_of_cases(
    alloc: Global,
    head: &Head,
    log: &Log,
    plan: &Plan<'_>,
    asked: Losses,
    found: &[CutFound],
) -> Result<CasesCure, AllocError>
    requires plan { plan.now.log ≡ log.now }
    requires cuts { All (λ cut. cut.cut ≤ length log.now.entries) found.now }
    requires few { All (λ cut. length cut.programs.items ≤ 256) found.now }
    ensures failures { IfOk result (λ cure. cure.failures.items ≡ all_failures log.now head.now.by asked.tears found.now) }
    ensures inside { IfOk result (λ cure. AreWindows (length log.now.entries) (windows_in cure.failures.items)) }
    ensures calm { IfOk result (λ cure. HoldNoFlush log.now.entries (windows_in cure.failures.items)) }
    ensures begin { IfOk result (λ cure. cure.begin.items ≡ cure_begin head.now asked log.now found.now) }
    ensures last { IfOk result (λ cure. string_bytes cure.last ≡ totals_text (are_all_cuts head.now.cuts) found.now) }
{
    let all = gather(alloc, head, log, plan, asked.tears, found)?;
    let begin = begin_of(alloc, head, asked, all.failures.as_slice(), &all.uncured)?;
    let last = last_of(alloc, head, found)?;
    Ok(CasesCure {
        failures: all.failures,
        begin,
        last,
    })
}
