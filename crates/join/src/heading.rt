//! The head of a part: its options and programs.

ghost use Rattle.std.specs.Prelude.{◌≡◌, ◌↔◌, ◌<◌, ◌≤◌, IfOk, IsTrue, MatchOption, length};
ghost use Rattle.report.specs.Report.{options_text};
ghost use Rattle.join.specs.Heads.{HasLines, IsHeadRead, IsPrintedHead, IsSmallHead, NoHeadRead, ReadsHead, are_cuts_of_run, are_entries_of_run, are_guards_of_run, are_options_of_run, are_programs_of_run, is_program_of_run};
ghost use Rattle.join.specs.Reading.{IsAfterHead, NoHead};

use crate::line::is_before_last;
use crate::options::options_said;
use crate::programs::{MOST_PROGRAMS, programs_said};
use crate::words::{beyond, parts};
use base::limits::Limits;
use epochs::Cuts;
use report::printed::cut;
use report::{Head, ProgramHead, put_options};
use std::alloc::{AllocError, Global};

/// What stands after the head of a text, from the first line on that begins with `image`.
#[tactic(auto, using(crate::proofs::Heads::none_passed, crate::proofs::Heads::one_passed, crate::proofs::Bodies::line_shorter))]
pub(crate) fn after_head(text: &str) -> Option<&str>
    ensures { MatchOption result (NoHead text.now) (λ rest. IsAfterHead text.now rest.now) }
{
    let mut rest = text;
    while let Some((line, more)) = parts(rest, '\n') {
        if beyond("image", line).is_some() {
            return Some(rest);
        }
        rest = more;
    }
    None
}

/// The head with whose options and programs a text begins, and some head where it begins with none.
#[tactic(auto, using(crate::proofs::HeadsRead::head_read))]
fn head_said(alloc: Global, text: &str) -> Result<Head, AllocError>
    ensures read { IfOk result (λ h. ReadsHead text.now h) }
    ensures small { IfOk result (λ h. IsSmallHead h) }
{
    let (line, rest) = cut(text, '\n');
    let programs = programs_said(alloc, rest)?;
    Ok(options_said(line, programs))
}

/// Whether a head has as many programs as a run.
fn has_programs(head: &Head) -> bool
    ensures { IsTrue result ↔ ((0 < length head.now.programs) × (length head.now.programs ≤ 8)) }
{
    let count = head.programs.len();
    count >= 1 && count <= MOST_PROGRAMS
}

/// Whether a program is as a run may have it: no more of its slots are guarded than it has, and none where it isn't verified.
fn is_program_of_run(program: &ProgramHead) -> bool
    ensures { result ≡ is_program_of_run program.now }
{
    let guarded = match program.guards {
        Some(guards) => guards <= program.slots && program.verified,
        None => true,
    };
    program.slots >= 1 && program.slots <= 4096 && program.limit <= 1_000_000_000 && guarded
}

/// Whether each program of a head is one that a run can have.
pub(crate) fn are_programs_of_run(programs: &[ProgramHead]) -> bool
    ensures { result ≡ are_programs_of_run programs.now }
{
    match programs {
        [] => true,
        [first, rest @ ..] => is_program_of_run(first) && are_programs_of_run(rest),
    }
}

/// Whether each number is that of an entry of a log with `count` entries.
fn are_entries_of_run(count: u32, entries: &[u32]) -> bool
    ensures { result ≡ are_entries_of_run count entries.now }
{
    match entries {
        [] => true,
        [first, rest @ ..] => *first < count && are_entries_of_run(count, rest),
    }
}

/// Whether the cuts are as a run over a log with `count` entries may have them.
fn are_cuts_of_run(count: u32, cuts: &Cuts) -> bool
    ensures { result ≡ are_cuts_of_run count cuts.now }
{
    let first = cuts.from.unwrap_or(0);
    let last = cuts.to.unwrap_or(0);
    are_entries_of_run(count, cuts.flushes.places())
        && first <= u64::from(count)
        && last <= u64::from(count)
        && is_before_last(cuts.to, first)
}

/// Whether the options are as a run may have them.
fn are_options_of_run(head: &Head) -> bool
    ensures { result ≡ are_options_of_run head.now }
{
    head.sectors >= 1
        && head.sectors <= Limits::Large.sectors()
        && head.entries <= 65_536
        && head.bound <= 3
        && are_cuts_of_run(head.entries, &head.cuts)
}

/// Whether a head whose numbers are within their ranges is one as a run may have it.
#[tactic(auto, using(crate::proofs::HeadsRead::is_of_run, crate::proofs::HeadsRead::has_count))]
pub(crate) fn is_of_run(head: &Head) -> bool
    requires { IsSmallHead head.now }
    ensures { IsTrue result ↔ IsPrintedHead head.now }
{
    has_programs(head) && are_options_of_run(head) && are_programs_of_run(head.programs.as_slice())
}

/// Whether a text is what is printed of a head.
fn is_printed(alloc: Global, head: &Head, text: &[u8]) -> Result<bool, AllocError>
    ensures { IfOk result (λ is. IsTrue is ↔ (text.now ≡ options_text head.now)) }
{
    let mut printed = String::new(alloc);
    put_options(&mut printed, head)?;
    Ok(printed.as_bytes() == text)
}

/// The options and the programs of a run that stand at the head of a text, to the byte, if they do. `text` goes on after the head.
#[tactic(auto, using(crate::proofs::HeadsRead::not_of_run, crate::proofs::HeadsRead::not_printed, crate::proofs::HeadsRead::is_head_read))]
pub(crate) fn read_head(alloc: Global, text: &str, head: &[u8]) -> Result<Option<Head>, AllocError>
    requires { HasLines text.now head.now }
    ensures { IfOk result (λ found. MatchOption found (NoHeadRead head.now) (λ h. IsHeadRead head.now h)) }
{
    let said = head_said(alloc, text)?;
    if !is_of_run(&said) {
        return Ok(None);
    }
    if !is_printed(alloc, &said, head)? {
        return Ok(None);
    }
    Ok(Some(said))
}
