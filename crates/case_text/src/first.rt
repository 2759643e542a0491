//! The text of the first failing case of a run.

ghost use Rattle.std.specs.Prelude.{◌≡◌, ◌≤◌, ◌++◌, length, IfOk, OnOk, string_bytes};
ghost use Rattle.case_text.specs.First.{first_text, first_bytes};

use crate::head::put_head;
use crate::known::KnownParts;
use crate::lines::put_case;
use crate::site::Site;
use epochs::Plan;
use logfmt::Log;
use losses::found::{FirstCase, Losses};
use report::Head;
use std::alloc::{AllocError, Global};

/// Appends the last line.
#[tactic(auto, unfolding(crate::specs::First::first_text))]
fn put_first(out: &mut String, cut: u32, program: usize, number: usize) -> Result<(), AllocError>
    ensures { OnOk result (string_bytes out.new ≡ string_bytes out.old ++ first_text cut program number) }
{
    write!(out, "first cut {cut} program {program} case {number}\n")
}

/// The text of the first failing case of a run (docs/OUTPUT.md, The text of cases): title, options and programs, the line of that case,
/// and a last line that names it again. The plan is that of the log.
///
/// # Errors
///
/// Memory was refused.
#[tactic(auto, unfolding(crate::specs::First::first_bytes))]
pub fn write_first(
    alloc: Global,
    head: &Head,
    log: &Log,
    plan: &Plan<'_>,
    asked: Losses,
    first: &FirstCase,
) -> Result<Vec<u8>, AllocError>
    requires plan { plan.now.log ≡ log.now }
    requires cut { first.now.cut ≤ length log.now.entries }
    ensures { IfOk result (λ bytes. bytes.items ≡ first_bytes head.now asked log.now first.now) }
{
    let mut out = String::new(alloc);
    let mut known = KnownParts::new(alloc);
    let site = Site::new(alloc, plan, log, head.by, asked.tears, first.cut)?;
    put_head(&mut out, head, asked)?;
    put_case(&mut out, &mut known, &site, first.program, &first.case)?;
    put_first(&mut out, first.cut, first.program, first.case.number)?;
    Ok(out.into_bytes())
}
