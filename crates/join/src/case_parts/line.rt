//! The lines of cases, read one after the other and counted.

ghost use Rattle.std.specs.Prelude.{◌≡◌, ◌<◌, ◌≤◌, ◌+◌, ◌^◌, ◌++◌, IfOk, IfSome, MatchOption, length};
ghost use Rattle.join.specs.Heads.{IsPrintedHead};
ghost use Rattle.join.specs.CaseTexts.{goes_on, is_new_cut};
ghost use Rattle.join.specs.CaseReading.{AreCasesRead, IsCaseBody, IsCaseLine, NoCaseBody, NoCaseLine, none_told, one_told};

use crate::case_parts::front::CaseFront;
use crate::case_parts::judging::is_case_of_run;
use crate::case_parts::printing::is_body;
use crate::case_parts::said::case_said;
use crate::ending::is_ending;
use crate::words::parts;
use report::Head;
use std::alloc::{AllocError, Global};

/// What is counted of some lines.
#[derive(Clone, Copy, Drop)]
pub struct CaseTally {
    /// Where the last line stands.
    pub(crate) last: Option<CaseFront>,
    /// How many lines there are.
    pub(crate) lines: u64,
    /// At how many cuts they stand.
    pub(crate) cuts: u64,
    /// Whether each stands after the one before it.
    pub(crate) rising: bool,
}

/// Whether a line stands after the last one, if there is one.
fn goes_on(last: Option<CaseFront>, front: CaseFront) -> bool
    ensures { result ≡ goes_on last front }
{
    match last {
        Some(last) => {
            last.cut < front.cut
                || ((last.cut == front.cut
                    && last.epoch == front.epoch
                    && last.marks == front.marks)
                    && (last.program < front.program
                        || (last.program == front.program && last.number < front.number)))
        }
        None => true,
    }
}

/// Whether a line is of another cut than the last one.
fn is_new_cut(last: Option<CaseFront>, cut: u64) -> bool
    ensures { result ≡ is_new_cut last cut }
{
    match last {
        Some(last) => last.cut != cut,
        None => true,
    }
}

impl CaseTally {
    /// Returns the tally of no line.
    pub(crate) fn none() -> CaseTally
        ensures { result ≡ none_told }
    {
        CaseTally {
            last: None,
            lines: 0,
            cuts: 0,
            rising: true,
        }
    }

    /// Returns the tally with one more line.
    pub(crate) fn more(self, front: CaseFront) -> CaseTally
        requires lines { self.lines + 1 < 2 ^ 64 }
        requires cuts { self.cuts + 1 < 2 ^ 64 }
        ensures { result ≡ one_told self front }
    {
        let new = is_new_cut(self.last, front.cut);
        let beyond = goes_on(self.last, front);
        CaseTally {
            last: Some(front),
            lines: self.lines + 1,
            cuts: self.cuts + u64::from(new),
            rising: self.rising && beyond,
        }
    }
}

/// Where a line without its newline stands, if it is one of a run with that head, to the byte.
#[tactic(auto, using(crate::proofs::CaseLines::not_of_run, crate::proofs::CaseLines::no_ending, crate::proofs::CaseLines::not_printed, crate::proofs::CaseLines::is_case))]
fn front_of(alloc: Global, head: &Head, line: &str) -> Result<Option<CaseFront>, AllocError>
    requires { IsPrintedHead head.now }
    ensures { IfOk result (λ found. MatchOption found (NoCaseBody head.now line.now) (λ front. IsCaseBody head.now line.now front)) }
{
    let said = case_said(alloc, head.by, line)?;
    if !is_ending(said.outcome) {
        return Ok(None);
    }
    if !is_case_of_run(alloc, head, &said)? {
        return Ok(None);
    }
    if !is_body(alloc, head.by, &said, line)? {
        return Ok(None);
    }
    Ok(Some(said.front))
}

/// Where the line stands with which a text begins, and what stands after it, if it begins with one of a run with that head, to the byte.
#[tactic(auto, using(crate::proofs::CaseLines::no_newline_no_case, crate::proofs::CaseLines::no_body_no_case, crate::proofs::CaseLines::body_is_case, crate::proofs::Bodies::line_shorter))]
fn read_line<'t>(
    alloc: Global,
    head: &Head,
    text: &'t str,
) -> Result<Option<(CaseFront, &'t str)>, AllocError>
    requires { IsPrintedHead head.now }
    ensures line { IfOk result (λ found. MatchOption found (NoCaseLine head.now text.now) (λ x. IsCaseLine head.now text.now x.0 x.1.now)) }
    ensures shorter { IfOk result (λ found. IfSome found (λ x. length x.1.now < length text.now)) }
{
    let Some((line, more)) = parts(text, '\n') else {
        return Ok(None);
    };
    match front_of(alloc, head, line)? {
        Some(front) => Ok(Some((front, more))),
        None => Ok(None),
    }
}

/// What is counted of the lines of a run with that head with which a text begins, and what stands after them.
#[tactic(auto, using(crate::proofs::CaseLines::none_are_read, crate::proofs::CaseLines::one_is_read))]
pub(crate) fn read_lines<'t>(
    alloc: Global,
    head: &Head,
    text: &'t str,
) -> Result<(CaseTally, &'t str), AllocError>
    requires head { IsPrintedHead head.now }
    requires short { length text.now ≤ 2 ^ 30 }
    ensures read { IfOk result (λ x. AreCasesRead head.now text.now x.0 x.1.now) }
    ensures end { IfOk result (λ x. NoCaseLine head.now x.1.now) }
{
    let mut tally = CaseTally::none();
    let mut rest = text;
    while let Some((front, more)) = read_line(alloc, head, rest)? {
        tally = tally.more(front);
        rest = more;
    }
    Ok((tally, rest))
}
