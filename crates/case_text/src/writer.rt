//! The text of the failing cases of a run.

ghost use Rattle.std.specs.Prelude.{◌≡◌, ◌≤◌, ◌++◌, length, All, IfOk, OnOk, string_bytes};
ghost use Rattle.std.specs.List.{flat_map};
ghost use Rattle.case_text.specs.Text.{cut_cases, cases_bytes};

use crate::head::put_cases_head;
use crate::known::KnownParts;
use crate::lines::put_cut;
use crate::totals::{are_all_cuts, put_totals};
use epochs::{By, Plan};
use logfmt::Log;
use losses::found::{CutFound, Losses};
use report::Head;
use std::alloc::{AllocError, Global};

/// Appends the failing cases of all cuts.
pub(crate) fn put_cuts(
    out: &mut String,
    known: &mut KnownParts,
    log: &Log,
    plan: &Plan<'_>,
    by: By,
    tears: bool,
    found: &[CutFound],
) -> Result<(), AllocError>
    requires plan { plan.now.log ≡ log.now }
    requires cuts { All (λ cut. cut.cut ≤ length log.now.entries) found.now }
    ensures { OnOk result (string_bytes out.new ≡ string_bytes out.old ++ flat_map (cut_cases log.now by tears) found.now) }
{
    for cut in found {
        put_cut(out, known, log, plan, by, tears, cut)?;
    }
    Ok(())
}

/// The text of the failing cases of a run (docs/OUTPUT.md, The text of cases): title, options and programs as in a report, a line for
/// each failing case, by cut, by program and in the order of the tree, and the totals. A run of a range of the cuts tells the number of
/// its inputs after the title. The plan is that of the log; of the head's bound, tears, `first` and number of images nothing is printed.
///
/// Beside the text it takes room for what is said of one case, and for the parts at risk at one cut.
///
/// # Errors
///
/// Memory was refused.
#[tactic(auto, unfolding(crate::specs::Text::cases_bytes))]
pub fn write_cases(
    alloc: Global,
    inputs: u64,
    head: &Head,
    log: &Log,
    plan: &Plan<'_>,
    asked: Losses,
    found: &[CutFound],
) -> Result<Vec<u8>, AllocError>
    requires plan { plan.now.log ≡ log.now }
    requires cuts { All (λ cut. cut.cut ≤ length log.now.entries) found.now }
    ensures { IfOk result (λ bytes. bytes.items ≡ cases_bytes inputs head.now asked log.now found.now) }
{
    let mut out = String::new(alloc);
    let mut known = KnownParts::new(alloc);
    put_cases_head(&mut out, inputs, head, asked)?;
    put_cuts(&mut out, &mut known, log, plan, head.by, asked.tears, found)?;
    put_totals(&mut out, are_all_cuts(&head.cuts), found)?;
    Ok(out.into_bytes())
}
