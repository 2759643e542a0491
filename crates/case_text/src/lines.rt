//! The lines of failing cases.

ghost use Rattle.std.specs.Prelude.{◌≡◌, ◌≤◌, ◌++◌, length, OnOk, string_bytes};
ghost use Rattle.losses.specs.FoundCases.{failing_value};
ghost use Rattle.case_text.specs.Text.{place_text, number_text, case_line, program_cases, programs_cases, cut_cases};

use crate::known::KnownParts;
use crate::said::{put_known, put_window};
use crate::site::Site;
use epochs::{By, Plan};
use logfmt::Log;
use losses::found::{CaseFindings, CutFound, FailingCase};
use report::lines::put_outcome;
use std::alloc::{AllocError, Global};

/// Appends a cut, with the epoch and how many marks stand before it.
///
/// # Errors
///
/// Memory was refused.
#[tactic(auto, unfolding(crate::specs::Text::place_text))]
pub fn put_place(out: &mut String, cut: u64, epoch: u64, marks: u64) -> Result<(), AllocError>
    ensures { OnOk result (string_bytes out.new ≡ string_bytes out.old ++ place_text cut epoch marks) }
{
    write!(out, "cut {cut} epoch {epoch} marks {marks}")
}

/// Appends a program, and a case by its number.
///
/// # Errors
///
/// Memory was refused.
#[tactic(auto, unfolding(crate::specs::Text::number_text))]
pub fn put_number(out: &mut String, program: u64, number: u64) -> Result<(), AllocError>
    ensures { OnOk result (string_bytes out.new ≡ string_bytes out.old ++ number_text program number) }
{
    write!(out, " program {program} case {number} ")
}

/// Appends a failing case of a program.
pub(crate) fn put_case(
    out: &mut String,
    known: &mut KnownParts,
    site: &Site<'_>,
    program: usize,
    case: &FailingCase,
) -> Result<(), AllocError>
    ensures { OnOk result (string_bytes out.new ≡ string_bytes out.old ++ case_line site.now.at site.now.tears program (failing_value case.now)) }
{
    known.read(site.tears(), site.parts(), case.sets.as_slice())?;
    put_place(
        out,
        u64::from(site.number()),
        u64::from(site.epoch()),
        u64::from(site.marks()),
    )?;
    put_number(out, program as u64, case.number as u64)?;
    put_outcome(out, &case.outcome)?;
    put_known(out, site.by(), known)?;
    put_window(out, site.window(known))?;
    write!(out, "\n")?;
    Ok(())
}

/// Appends those of a program.
fn put_program(
    out: &mut String,
    known: &mut KnownParts,
    site: &Site<'_>,
    program: usize,
    failing: &[FailingCase],
) -> Result<(), AllocError>
    ensures { OnOk result (string_bytes out.new ≡ string_bytes out.old ++ program_cases site.now.at site.now.tears program failing.now) }
{
    for case in failing {
        put_case(out, known, site, program, case)?;
    }
    Ok(())
}

/// Appends those of each program.
fn put_programs(
    out: &mut String,
    known: &mut KnownParts,
    site: &Site<'_>,
    programs: &[CaseFindings],
) -> Result<(), AllocError>
    ensures { OnOk result (string_bytes out.new ≡ string_bytes out.old ++ programs_cases site.now.at site.now.tears 0 programs.now) }
{
    for (number, found) in programs.iter().enumerate() {
        put_program(out, known, site, number, found.failing.as_slice())?;
    }
    Ok(())
}

/// Appends the failing cases of a cut.
pub(crate) fn put_cut(
    out: &mut String,
    known: &mut KnownParts,
    log: &Log,
    plan: &Plan<'_>,
    by: By,
    tears: bool,
    found: &CutFound,
) -> Result<(), AllocError>
    requires plan { plan.now.log ≡ log.now }
    requires cut { found.now.cut ≤ length log.now.entries }
    ensures { OnOk result (string_bytes out.new ≡ string_bytes out.old ++ cut_cases log.now by tears found.now) }
{
    let alloc = *known.lost.allocator();
    let site = Site::new(alloc, plan, log, by, tears, found.cut)?;
    put_programs(out, known, &site, found.programs.as_slice())
}
