//! The head of a text of cases: its options and programs.

ghost use Rattle.std.specs.Prelude.{◌≡◌, ◌↔◌, All, IfOk, IsTrue, MatchOption, string_bytes};
ghost use Rattle.case_text.specs.Text.{cases_head, options_text};
ghost use Rattle.join.specs.Heads.{IsPrintedHead, IsProgramHead, IsSmallHead};
ghost use Rattle.join.specs.CaseTexts.{AreLosses, are_lost_of_run, are_torn_of_run};
ghost use Rattle.join.specs.CaseJoining.{cuts_between, head_between};
ghost use Rattle.join.specs.CaseReading.{IsCaseHead, NoCaseHead, ReadsCaseHead, ReadsCaseOptions, ReadsLosses, unbounded};

use crate::heading::is_of_run;
use crate::options::{device_said, few, given_said, is_yes, option_said};
use crate::programs::programs_said;
use crate::words::{beyond, next_word};
use case_text::{put_opening, put_options};
use epochs::Cuts;
use losses::found::Losses;
use report::printed::cut;
use report::{Head, ProgramHead};
use std::alloc::{AllocError, Global};

/// What a line says of losses, and what stands after that.
#[tactic(auto, using(crate::proofs::CaseHeads::losses_read))]
fn losses_said(line: &str) -> (Losses, &str)
    ensures { ReadsLosses line.now result.0 result.1.now }
{
    let (_bound, line) = next_word(line);
    let (_any, line) = next_word(line);
    let (_tears, line) = next_word(line);
    let (tears, line) = next_word(line);
    let (torn, line) = option_said("torn", line);
    let (lost, line) = option_said("at-most", line);
    let asked = Losses {
        tears: is_yes(tears),
        torn: few(torn).unwrap_or(0),
        lost: few(lost),
    };
    (asked, line)
}

/// What the line of the options says, with these programs.
#[tactic(auto, using(crate::proofs::CaseHeads::options_read))]
fn options_said(line: &str, programs: Vec<ProgramHead>) -> (Head, Losses)
    requires { All IsProgramHead programs.items }
    ensures read { ReadsCaseOptions line.now result.0 result.1 }
    ensures programs { result.0.programs ≡ programs.items }
    ensures small { IsSmallHead result.0 }
    ensures tears { result.1.tears ≡ result.0.tears }
{
    let (sectors, entries, kind, line) = device_said(line);
    let (asked, line) = losses_said(line);
    let given = given_said(line);
    let head = Head {
        sectors,
        entries,
        cuts: Cuts {
            kind,
            from: given.from,
            to: given.to,
            flushes: given.flushes,
        },
        bound: 0,
        tears: asked.tears,
        by: given.by,
        first: false,
        programs,
        images: 0,
        base: given.base,
    };
    (head, asked)
}

/// The head with whose options and programs a text begins, and some head where it begins with none.
#[tactic(auto, using(crate::proofs::CaseHeads::head_read))]
fn head_said(alloc: Global, text: &str) -> Result<(Head, Losses), AllocError>
    ensures read { IfOk result (λ x. ReadsCaseHead text.now x.0 x.1) }
    ensures small { IfOk result (λ x. IsSmallHead x.0) }
    ensures tears { IfOk result (λ x. x.1.tears ≡ x.0.tears) }
{
    let (line, rest) = cut(text, '\n');
    let programs = programs_said(alloc, rest)?;
    Ok(options_said(line, programs))
}

/// Whether a run may have that many torn parts.
fn are_torn_of_run(asked: Losses) -> bool
    ensures { result ≡ are_torn_of_run asked }
{
    if asked.tears {
        asked.torn >= 1 && asked.torn <= 3
    } else {
        asked.torn == 0
    }
}

/// Whether a run may have at most that many lost parts.
fn are_lost_of_run(lost: Option<u32>) -> bool
    ensures { result ≡ are_lost_of_run lost }
{
    match lost {
        Some(lost) => lost >= 1 && lost <= 64,
        None => true,
    }
}

/// Whether a run may ask for that.
fn are_losses(head: &Head, asked: Losses) -> bool
    requires { asked.tears ≡ head.now.tears }
    ensures { IsTrue result ↔ AreLosses head.now asked }
{
    let _tears = head.tears;
    are_torn_of_run(asked) && are_lost_of_run(asked.lost)
}

/// The options and the programs of a text.
fn options_text(alloc: Global, head: &Head, asked: Losses) -> Result<String, AllocError>
    ensures { IfOk result (λ out. string_bytes out ≡ options_text head.now asked) }
{
    let mut out = String::new(alloc);
    put_options(&mut out, head, asked)?;
    Ok(out)
}

/// The first lines, the options and the programs of a text.
pub(crate) fn head_text(
    alloc: Global,
    inputs: Option<u64>,
    head: &Head,
    asked: Losses,
) -> Result<String, AllocError>
    ensures { IfOk result (λ out. string_bytes out ≡ cases_head inputs head.now asked) }
{
    let mut out = String::new(alloc);
    put_opening(&mut out, inputs)?;
    put_options(&mut out, head, asked)?;
    Ok(out)
}

/// The options and the programs with which a text begins, what is asked of losses, and what stands after them, if it begins with those of a
/// run, to the byte.
#[tactic(auto, using(crate::proofs::CaseHeads::not_of_run, crate::proofs::CaseHeads::no_losses, crate::proofs::CaseHeads::not_printed, crate::proofs::CaseHeads::is_head))]
pub(crate) fn read_head<'t>(
    alloc: Global,
    text: &'t str,
) -> Result<Option<(Head, Losses, &'t str)>, AllocError>
    ensures { IfOk result (λ found. MatchOption found (NoCaseHead text.now) (λ x. IsCaseHead text.now x.0 x.1 x.2.now)) }
{
    let (head, asked) = head_said(alloc, text)?;
    if !is_of_run(&head) {
        return Ok(None);
    }
    if !are_losses(&head, asked) {
        return Ok(None);
    }
    let printed = options_text(alloc, &head, asked)?;
    match beyond(printed.as_str(), text) {
        Some(rest) => Ok(Some((head, asked, rest))),
        None => Ok(None),
    }
}

/// A head over another range of cuts.
pub(crate) fn head_between(
    alloc: Global,
    head: &Head,
    from: Option<u64>,
    to: Option<u64>,
) -> Result<Head, AllocError>
    ensures { IfOk result (λ h. h ≡ head_between head.now from to) }
{
    let cuts = Cuts {
        kind: head.cuts.kind,
        from,
        to,
        flushes: head.cuts.flushes,
    };
    let programs = head.programs.as_slice().to_vec(alloc)?;
    Ok(Head {
        sectors: head.sectors,
        entries: head.entries,
        cuts,
        bound: head.bound,
        tears: head.tears,
        by: head.by,
        first: head.first,
        programs,
        images: head.images,
        base: head.base,
    })
}
