//! The lines of the programs of a part, read word by word.

ghost use Rattle.std.specs.Prelude.{◌≡◌, Bool, All, IfOk, MatchOption};
ghost use Rattle.report.specs.Report.{steps_word};
ghost use Rattle.join.specs.Heads.{IsProgramHead, IsProgramLine, NoProgramLine, ReadsProgram, ReadsPrograms};

use crate::options::{few, option_said};
use crate::words::{beyond, next_word, parts};
use report::ProgramHead;
use report::printed::{number, small_number};
use std::alloc::{AllocError, Global};

/// The most programs of a run.
pub(crate) const MOST_PROGRAMS: usize = 8;

/// Whether a word is that of the steps of a verified program.
fn is_budget(word: &str) -> bool
    ensures { (is : Bool) → word.now ≡ steps_word is → result ≡ is }
{
    word == "budget"
}

/// What the line of a program says after its first word.
fn program_said(line: &str) -> ProgramHead
    ensures read { ReadsProgram line.now result }
    ensures small { IsProgramHead result }
{
    let (_number, line) = next_word(line);
    let (_slots, line) = next_word(line);
    let (slots, line) = next_word(line);
    let (steps, line) = next_word(line);
    let (limit, line) = next_word(line);
    ProgramHead {
        slots: small_number(slots),
        limit: number(limit),
        verified: is_budget(steps),
        guards: few(option_said("guards", line).0),
    }
}

/// What the line of a program has after its first word, and what stands after it, where a text begins with one.
#[tactic(auto, using(crate::proofs::ProgramsRead::no_word, crate::proofs::ProgramsRead::no_end))]
fn program_line(text: &str) -> Option<(&str, &str)>
    ensures { MatchOption result (NoProgramLine text.now) (λ x. IsProgramLine text.now x.0.now x.1.now) }
{
    let begun = beyond("program ", text)?;
    parts(begun, '\n')
}

/// What the lines of programs say with which a text begins, at most eight.
#[tactic(auto, using(crate::proofs::ProgramsRead::begun, crate::proofs::ProgramsRead::gone_on, crate::proofs::ProgramsRead::ended, crate::proofs::ProgramsRead::filled, crate::proofs::ProgramsRead::line_shorter))]
pub(crate) fn programs_said(alloc: Global, text: &str) -> Result<Vec<ProgramHead>, AllocError>
    ensures read { IfOk result (λ programs. ReadsPrograms text.now programs.items) }
    ensures small { IfOk result (λ programs. All IsProgramHead programs.items) }
{
    let mut programs = Vec::new(alloc);
    let mut rest = text;
    while let Some((line, more)) = program_line(rest) {
        if programs.len() >= MOST_PROGRAMS {
            return Ok(programs);
        }
        programs.push(program_said(line))?;
        rest = more;
    }
    Ok(programs)
}
