//! The lines of failing cases.

ghost use Rattle.std.specs.Prelude.{◌≡◌, ◌≤◌, ◌++◌, length, All, OnOk, string_bytes};
ghost use Rattle.std.specs.List.{flat_map};
ghost use Rattle.known_runs.specs.Text.{end_words, case_line, cut_lines};

use case_text::{KnownParts, Site, put_known, put_number, put_place, put_window};
use epochs::{By, Plan};
use known::{KnownAt, KnownFailing, RunEnd};
use logfmt::Log;
use std::alloc::{AllocError, Global};

/// Appends how a program ended.
fn put_end(out: &mut String, end: RunEnd) -> Result<(), AllocError>
    ensures { OnOk result (string_bytes out.new ≡ string_bytes out.old ++ end_words end) }
{
    match end {
        RunEnd::Answer(answer) => write!(out, "answer {answer} codes -"),
        RunEnd::Signal(signal) => write!(out, "signal {signal}"),
        RunEnd::OutOfTime => write!(out, "out of time"),
    }
}

/// Appends a failing case.
fn put_case(
    out: &mut String,
    known: &mut KnownParts,
    site: &Site<'_>,
    case: &KnownFailing,
) -> Result<(), AllocError>
    ensures { OnOk result (string_bytes out.new ≡ string_bytes out.old ++ case_line site.now.at site.now.tears case.now) }
{
    known.read(site.tears(), site.parts(), case.sets.as_slice())?;
    put_place(
        out,
        u64::from(site.number()),
        u64::from(site.epoch()),
        u64::from(site.marks()),
    )?;
    put_number(out, 0, case.number as u64)?;
    put_end(out, case.end)?;
    put_known(out, site.by(), known)?;
    put_window(out, site.window(known))?;
    write!(out, "\n")?;
    Ok(())
}

/// Appends some failing cases of a cut.
fn put_cases(
    out: &mut String,
    known: &mut KnownParts,
    site: &Site<'_>,
    failing: &[KnownFailing],
) -> Result<(), AllocError>
    ensures { OnOk result (string_bytes out.new ≡ string_bytes out.old ++ flat_map (case_line site.now.at site.now.tears) failing.now) }
{
    for case in failing {
        put_case(out, known, site, case)?;
    }
    Ok(())
}

/// Appends the failing cases of a cut.
fn put_cut(
    alloc: Global,
    out: &mut String,
    known: &mut KnownParts,
    log: &Log<'_>,
    plan: &Plan<'_>,
    by: By,
    tears: bool,
    found: &KnownAt,
) -> Result<(), AllocError>
    requires plan { plan.now.log ≡ log.now }
    requires cut { found.now.cut ≤ length log.now.entries }
    ensures { OnOk result (string_bytes out.new ≡ string_bytes out.old ++ cut_lines log.now by tears found.now) }
{
    let site = Site::new(alloc, plan, log, by, tears, found.cut)?;
    put_cases(out, known, &site, found.failing.as_slice())
}

/// Appends the failing cases of all cuts.
pub(crate) fn put_cuts(
    alloc: Global,
    out: &mut String,
    log: &Log<'_>,
    plan: &Plan<'_>,
    by: By,
    tears: bool,
    found: &[KnownAt],
) -> Result<(), AllocError>
    requires plan { plan.now.log ≡ log.now }
    requires cuts { All (λ cut. cut.cut ≤ length log.now.entries) found.now }
    ensures { OnOk result (string_bytes out.new ≡ string_bytes out.old ++ flat_map (cut_lines log.now by tears) found.now) }
{
    let mut known = KnownParts::new(alloc);
    for cut in found {
        put_cut(alloc, out, &mut known, log, plan, by, tears, cut)?;
    }
    Ok(())
}
