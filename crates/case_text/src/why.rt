//! The text of why the cases of a run fail.

ghost use Rattle.std.specs.Prelude.{◌≡◌, ◌≤◌, ◌<◌, ◌+◌, ◌++◌, ℕ, length, map, All, IfOk, OnOk, string_bytes};
ghost use Rattle.std.specs.List.{flat_map};
ghost use Rattle.losses.specs.CureText.{programs_text, missing_line};
ghost use Rattle.losses.specs.Counted.{AreMissing};
ghost use Rattle.losses.specs.Places.{AreWindows};
ghost use Rattle.losses.specs.FailureWindows.{windows_in};
ghost use Rattle.case_text.specs.Collected.{told_value};
ghost use Rattle.case_text.specs.Why.{cut_line, told_text, program_causes, by_program, found_causes, cut_causes, program_failures, found_failures, cut_failures, all_failures, begin_text, parts_bytes, TellsWhy};

use crate::grouped::put_groups;
use crate::head::put_options;
use crate::known::KnownParts;
use crate::site::Site;
use crate::told::{ToldFailing, all_told, push_failures};
use crate::totals::{are_all_cuts, put_totals};
use epochs::{By, Plan};
use logfmt::Log;
use losses::cure::{Failure, missing_of, put_flushes};
use losses::flushes::MissingFlush;
use losses::found::{CaseFindings, CutFound, FailingCase, Losses};
use report::Head;
use std::alloc::{AllocError, Global};

/// Appends a cut, with a program and the number of cases in which it fails there.
#[tactic(auto, unfolding(crate::specs::Why::cut_line))]
fn put_cut_line(
    out: &mut String,
    cut: u32,
    program: usize,
    failing: usize,
) -> Result<(), AllocError>
    ensures { OnOk result (string_bytes out.new ≡ string_bytes out.old ++ cut_line cut program failing) }
{
    write!(out, "cut {cut} program {program}")?;
    write!(out, " failing {failing}\n")
}

/// Appends the failing cases of a program at a cut, where there are some.
fn put_told(
    out: &mut String,
    cut: u32,
    program: usize,
    told: &[ToldFailing],
) -> Result<(), AllocError>
    ensures { OnOk result (string_bytes out.new ≡ string_bytes out.old ++ told_text cut program (map told_value told.now)) }
{
    if told.len() == 0 {
        return Ok(());
    }
    put_cut_line(out, cut, program, told.len())?;
    put_groups(out, told)?;
    Ok(())
}

/// Appends why the cases of a program fail at a cut, and each of them as a failure.
fn put_program(
    out: &mut String,
    failures: &mut Vec<Failure>,
    known: &mut KnownParts,
    site: &Site<'_>,
    program: usize,
    failing: &[FailingCase],
) -> Result<(), AllocError>
    requires { program < 256 }
    ensures text { OnOk result (string_bytes out.new ≡ string_bytes out.old ++ program_causes site.now.at site.now.tears program failing.now) }
    ensures failures { OnOk result (failures.new.items ≡ failures.old.items ++ program_failures site.now.at site.now.tears program failing.now) }
{
    let told = all_told(known, site, failing)?;
    push_failures(failures, program as u8, told.as_slice())?;
    put_told(out, site.number(), program, told.as_slice())?;
    Ok(())
}

/// Appends why the cases of each program fail at a cut, and each of them as a failure.
fn put_each(
    out: &mut String,
    failures: &mut Vec<Failure>,
    known: &mut KnownParts,
    site: &Site<'_>,
    programs: &[CaseFindings],
) -> Result<(), AllocError>
    requires { length programs.now ≤ 256 }
    ensures text { OnOk result (string_bytes out.new ≡ string_bytes out.old ++ by_program (found_causes site.now.at site.now.tears) 0 programs.now) }
    ensures failures { OnOk result (failures.new.items ≡ failures.old.items ++ by_program (found_failures site.now.at site.now.tears) 0 programs.now) }
{
    for (number, found) in programs.iter().enumerate() {
        put_program(out, failures, known, site, number, found.failing.as_slice())?;
    }
    Ok(())
}

/// Appends why cases fail at a cut, and each of them as a failure.
fn put_cut(
    out: &mut String,
    failures: &mut Vec<Failure>,
    known: &mut KnownParts,
    log: &Log,
    plan: &Plan<'_>,
    by: By,
    tears: bool,
    found: &CutFound,
) -> Result<(), AllocError>
    requires plan { plan.now.log ≡ log.now }
    requires cut { found.now.cut ≤ length log.now.entries }
    requires few { length found.now.programs.items ≤ 256 }
    ensures text { OnOk result (string_bytes out.new ≡ string_bytes out.old ++ cut_causes log.now by tears found.now) }
    ensures failures { OnOk result (failures.new.items ≡ failures.old.items ++ cut_failures log.now by tears found.now) }
{
    let alloc = *known.lost.allocator();
    let site = Site::new(alloc, plan, log, by, tears, found.cut)?;
    put_each(out, failures, known, &site, found.programs.as_slice())
}

/// Appends why cases fail at all cuts, and each of them as a failure.
fn put_cuts(
    out: &mut String,
    failures: &mut Vec<Failure>,
    alloc: Global,
    log: &Log,
    plan: &Plan<'_>,
    by: By,
    tears: bool,
    found: &[CutFound],
) -> Result<(), AllocError>
    requires plan { plan.now.log ≡ log.now }
    requires cuts { All (λ cut. cut.cut ≤ length log.now.entries) found.now }
    requires few { All (λ cut. length cut.programs.items ≤ 256) found.now }
    ensures text { OnOk result (string_bytes out.new ≡ string_bytes out.old ++ flat_map (cut_causes log.now by tears) found.now) }
    ensures failures { OnOk result (failures.new.items ≡ failures.old.items ++ all_failures log.now by tears found.now) }
{
    let mut known = KnownParts::new(alloc);
    for cut in found {
        put_cut(out, failures, &mut known, log, plan, by, tears, cut)?;
    }
    Ok(())
}

/// Appends title, options, programs and totals.
#[tactic(auto, unfolding(crate::specs::Why::begin_text))]
fn put_begin(
    out: &mut String,
    head: &Head,
    asked: Losses,
    found: &[CutFound],
) -> Result<(), AllocError>
    ensures { OnOk result (string_bytes out.new ≡ string_bytes out.old ++ begin_text head.now asked found.now) }
{
    write!(out, "crash why cases 1\n")?;
    put_options(out, head, asked)?;
    put_totals(out, are_all_cuts(&head.cuts), found)?;
    Ok(())
}

/// The whole text, of its parts.
#[tactic(auto, unfolding(crate::specs::Why::parts_bytes))]
fn write_parts(
    alloc: Global,
    head: &Head,
    asked: Losses,
    found: &[CutFound],
    failures: &[Failure],
    flushes: &[MissingFlush],
    causes: &str,
) -> Result<Vec<u8>, AllocError>
    ensures { IfOk result (λ bytes. bytes.items ≡ parts_bytes head.now asked found.now failures.now flushes.now causes.now) }
{
    let mut out = String::new(alloc);
    put_begin(&mut out, head, asked, found)?;
    put_flushes(&mut out, head.programs.len(), failures, flushes)?;
    out.push_str(causes)?;
    Ok(out.into_bytes())
}

/// The whole text, by the failures and the lines of the cuts.
fn explained(
    alloc: Global,
    head: &Head,
    log: &Log,
    asked: Losses,
    found: &[CutFound],
    failures: &[Failure],
    causes: &str,
) -> Result<Vec<u8>, AllocError>
    requires cuts { All (λ cut. cut.cut ≤ length log.now.entries) found.now }
    requires failures { failures.now ≡ all_failures log.now head.now.by asked.tears found.now }
    requires causes { causes.now ≡ flat_map (cut_causes log.now head.now.by asked.tears) found.now }
    ensures { IfOk result (λ bytes. TellsWhy head.now asked log.now found.now bytes.items) }
{
    let flushes = missing_of(alloc, log, failures)?;
    let bytes = write_parts(
        alloc,
        head,
        asked,
        found,
        failures,
        flushes.as_slice(),
        causes,
    )?;
    Ok(bytes)
}

/// The text of why the cases of a run fail (docs/OUTPUT.md, The text of `why`): options, programs and totals, where flushes are missing,
/// and cut by cut the failing cases, each with its cause. The plan is that of the log; of the head's bound, tears, `first` and number of
/// images nothing is printed.
///
/// # Errors
///
/// Memory was refused.
pub fn write_why(
    alloc: Global,
    head: &Head,
    log: &Log,
    plan: &Plan<'_>,
    asked: Losses,
    found: &[CutFound],
) -> Result<Vec<u8>, AllocError>
    requires plan { plan.now.log ≡ log.now }
    requires cuts { All (λ cut. cut.cut ≤ length log.now.entries) found.now }
    requires few { All (λ cut. length cut.programs.items ≤ 256) found.now }
    ensures { IfOk result (λ bytes. TellsWhy head.now asked log.now found.now bytes.items) }
{
    let mut causes = String::new(alloc);
    let mut failures = Vec::new(alloc);
    put_cuts(
        &mut causes,
        &mut failures,
        alloc,
        log,
        plan,
        head.by,
        asked.tears,
        found,
    )?;
    explained(
        alloc,
        head,
        log,
        asked,
        found,
        failures.as_slice(),
        causes.as_str(),
    )
}
