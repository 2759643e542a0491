//! The programs of a report.

ghost use Rattle.std.specs.Prelude.{ℕ, ◌≡◌, ◌≢◌, ◌↔◌, ◌<◌, ◌≤◌, ◌++◌, List, true, codes, IfOk, IfSome, IsTrue, MatchOption, OnOk, length, string_bytes};
ghost use Rattle.std.specs.List.{list_all};
ghost use Rattle.report.specs.Report.{program_lines};
ghost use Rattle.join.specs.Heads.{are_programs_of_run};
ghost use Rattle.join.specs.Given.{is_printed, judge_count};
ghost use Rattle.join.specs.GivenReading.{AreJudgesRead, NoJudges};

use crate::heading::are_programs_of_run;
use crate::programs::{MOST_PROGRAMS, programs_said};
use crate::words::{beyond, parts};
use report::{ProgramHead, put_programs};
use std::alloc::{AllocError, Global};

/// The programs that a report is of.
#[derive(Drop)]
pub(crate) struct Judges {
    /// Whether it is one that is given images as files.
    pub(crate) outside: bool,
    /// What is said of each checker.
    pub(crate) programs: Vec<ProgramHead>,
}

/// Whether a report has as many checkers as a run, each as a run may have it.
fn are_checkers(programs: &[ProgramHead]) -> bool
    ensures { IsTrue result ↔ ((0 < length programs.now) × (length programs.now ≤ 8) × (are_programs_of_run programs.now ≡ true)) }
{
    programs.len() >= 1 && programs.len() <= MOST_PROGRAMS && are_programs_of_run(programs)
}

/// The checkers with whose lines a text begins, and what stands after these, if it begins with those of a run.
#[tactic(auto, using(crate::proofs::JudgesRead::checkers_found, crate::proofs::JudgesRead::no_checkers, crate::proofs::JudgesRead::no_printed, crate::proofs::JudgesRead::after_judges, crate::proofs::JudgesRead::after_front))]
fn checkers_said<'t>(alloc: Global, text: &'t str) -> Result<Option<(Judges, &'t str)>, AllocError>
    requires other { (rest : List ℕ) → text.now ≢ codes "program 0 outside " ++ rest }
    ensures judges { IfOk result (λ found. MatchOption found (NoJudges text.now) (λ x. AreJudgesRead text.now x.0.outside x.0.programs.items x.1.now)) }
    ensures shorter { IfOk result (λ found. IfSome found (λ x. length x.1.now ≤ length text.now)) }
{
    let programs = programs_said(alloc, text)?;
    if !are_checkers(programs.as_slice()) {
        return Ok(None);
    }
    let mut printed = String::new(alloc);
    put_programs(&mut printed, programs.as_slice())?;
    let Some(rest) = beyond(printed.as_str(), text) else {
        return Ok(None);
    };
    let judges = Judges {
        outside: false,
        programs,
    };
    Ok(Some((judges, rest)))
}

/// Whether each byte is printable ASCII.
fn are_printed(words: &[u8]) -> bool
    ensures { result ≡ list_all is_printed words.now }
{
    match words {
        [] => true,
        [first, rest @ ..] => *first >= 32 && *first <= 126 && are_printed(rest),
    }
}

/// The program that is given images as files, by the text after the first words of its line, and what stands after the line.
#[tactic(auto, using(crate::proofs::JudgesRead::no_end_no_own, crate::proofs::JudgesRead::no_words_no_own, crate::proofs::JudgesRead::unprinted_no_own, crate::proofs::JudgesRead::own_found, crate::proofs::JudgesRead::after_judges))]
fn own_said<'t>(alloc: Global, text: &str, begun: &'t str) -> Option<(Judges, &'t str)>
    requires { text.now ≡ codes "program 0 outside " ++ begun.now }
    ensures judges { MatchOption result (NoJudges text.now) (λ x. AreJudgesRead text.now x.0.outside x.0.programs.items x.1.now) }
    ensures shorter { IfSome result (λ x. length x.1.now ≤ length text.now) }
{
    let (words, rest) = parts(begun, '\n')?;
    if words.is_empty() {
        return None;
    }
    if !are_printed(words.as_bytes()) {
        return None;
    }
    let judges = Judges {
        outside: true,
        programs: Vec::new(alloc),
    };
    Some((judges, rest))
}

/// The programs with whose lines a text begins, and what stands after these, if it begins with those of a report.
pub(crate) fn judges_said<'t>(
    alloc: Global,
    text: &'t str,
) -> Result<Option<(Judges, &'t str)>, AllocError>
    ensures judges { IfOk result (λ found. MatchOption found (NoJudges text.now) (λ x. AreJudgesRead text.now x.0.outside x.0.programs.items x.1.now)) }
    ensures shorter { IfOk result (λ found. IfSome found (λ x. length x.1.now ≤ length text.now)) }
{
    match beyond("program 0 outside ", text) {
        Some(begun) => Ok(own_said(alloc, text, begun)),
        None => checkers_said(alloc, text),
    }
}

impl Judges {
    /// How many programs they are.
    pub(crate) fn count(&self) -> u64
        ensures { result ≡ judge_count self.now.outside self.now.programs.items }
    {
        if self.outside {
            1
        } else {
            self.programs.len() as u64
        }
    }
}
