//! A page.

ghost use Rattle.std.specs.Prelude.{◌≡◌, ◌++◌, All, OnOk, string_bytes};
ghost use Rattle.crash_page.specs.Page.{programs_text, page_text, AreOfRun};

use crate::program::{ProgramFailures, put_program};
use crate::run::{PageRun, logged_of};
use page_parts::{JudgedKind, PagePart, put, put_about, put_head, put_list};
use std::alloc::{AllocError, Global};

/// Appends programs, by their numbers from 0 on.
#[tactic(auto, using(crate::proofs::Rows::programs_more, crate::proofs::Rows::programs_end))]
fn put_programs(
    alloc: Global,
    out: &mut String,
    run: &PageRun<'_>,
    programs: &[ProgramFailures<'_>],
) -> Result<(), AllocError>
    requires programs { All (AreOfRun run.now.starts.now) programs.now }
    ensures { OnOk result (string_bytes out.new ≡ string_bytes out.old ++ programs_text run.now.starts.now 0 programs.now) }
{
    for (program, failures) in programs.iter().enumerate() {
        put_program(alloc, out, run, program, failures)?;
    }
    Ok(())
}

/// Appends the page of a run: a text about it, what fails of each program, and the entries of the log.
///
/// It takes time and memory for each entry and each wanted cut of each program, and forms two images for each group that it
/// shows.
///
/// # Errors
///
/// Memory was refused.
#[tactic(auto, unfolding(crate::specs::Page::page_text))]
pub fn put_page(
    alloc: Global,
    out: &mut String,
    about: &str,
    run: &PageRun<'_>,
    programs: &[ProgramFailures<'_>],
) -> Result<(), AllocError>
    requires programs { All (AreOfRun run.now.starts.now) programs.now }
    ensures { OnOk result (string_bytes out.new ≡ string_bytes out.old ++ page_text about.now run.now.starts.now programs.now) }
{
    let logged = logged_of(run);
    put_head(out, JudgedKind::Images, run.numbering.log)?;
    put_about(out, about)?;
    put_programs(alloc, out, run, programs)?;
    put_list(alloc, out, &logged)?;
    put(out, PagePart::Closing)
}
