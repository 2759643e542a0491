//! The words with which the line of a case begins.

ghost use Rattle.std.specs.Prelude.{◌≡◌};
ghost use Rattle.join.specs.CaseReading.{ReadsFront};

use report::printed::{field, number};

/// Where the line of a case stands: its cut, with the epoch and how many marks stand before it, its program, and its number.
#[derive(Clone, Copy, Drop)]
pub struct CaseFront {
    pub(crate) cut: u64,
    pub(crate) epoch: u64,
    pub(crate) marks: u64,
    pub(crate) program: u64,
    pub(crate) number: u64,
}

/// Returns what the words say with which a line begins, and the text after them; something where it is no line.
#[tactic(auto, using(crate::proofs::CaseWords::front_read))]
pub(crate) fn front_said(line: &str) -> (CaseFront, &str)
    ensures { ReadsFront line.now result.0 result.1.now }
{
    let (at, line) = field(line);
    let (epoch, line) = field(line);
    let (marks, line) = field(line);
    let (program, line) = field(line);
    let (case, line) = field(line);
    let front = CaseFront {
        cut: number(at),
        epoch: number(epoch),
        marks: number(marks),
        program: number(program),
        number: number(case),
    };
    (front, line)
}
