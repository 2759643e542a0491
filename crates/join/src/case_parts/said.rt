//! What the line of a case says.

ghost use Rattle.std.specs.Prelude.{◌≡◌, IfOk};
ghost use Rattle.join.specs.CaseReading.{ReadsCase, ReadsHalves};

use crate::case_parts::front::{CaseFront, front_said};
use crate::case_parts::known::{known_words, window_said};
use crate::case_parts::lists::{mixed_said, names_said, parts_said};
use crate::case_parts::names::{Mixed, PartName};
use crate::ending::at_choice;
use choices::Name;
use epochs::By;
use losses::flushes::Window;
use report::printed::number;
use std::alloc::{AllocError, Global};
use std::marker::Model;

/// What the line of a case says.
#[derive(Drop)]
pub(crate) struct CaseSaid<'t> {
    pub(crate) front: CaseFront,
    /// What the program ended in.
    pub(crate) outcome: &'t str,
    /// What the representative loses and tears.
    pub(crate) lost: Vec<Name>,
    /// The parts that are whole.
    pub(crate) kept: Vec<PartName>,
    /// The parts of which two fates or more are possible, and not all.
    pub(crate) mixed: Vec<Mixed>,
    /// How many parts may have any fate.
    pub(crate) free: u64,
    pub(crate) window: Option<Window>,
}

impl<'t> Model for CaseSaid<'t> {
    ghost use Rattle.std.specs.Prelude.{map};
    ghost use Rattle.join.specs.CaseTexts.{ToldCase};
    ghost use Rattle.join.specs.CaseReading.{mixed_value};

    ghost Value = { ToldCase };

    ghost view = { λ c. record { front = c.front; outcome = c.outcome.now; lost = c.lost.items; kept = c.kept.items; mixed = map mixed_value c.mixed.items; free = c.free; window = c.window } };
}

/// What stands before and after ` choice `; nothing where that isn't there.
#[tactic(auto, using(crate::proofs::CaseLines::halves_found, crate::proofs::CaseLines::no_halves))]
fn halves(text: &str) -> (&str, &str)
    ensures { ReadsHalves text.now result.0.now result.1.now }
{
    match at_choice(text) {
        Some(halves) => halves,
        None => ("", ""),
    }
}

/// What the line of a case says, and something where it is none.
pub(crate) fn case_said<'t>(
    alloc: Global,
    by: By,
    line: &'t str,
) -> Result<CaseSaid<'t>, AllocError>
    ensures { IfOk result (λ said. ReadsCase by line.now said) }
{
    let (front, rest) = front_said(line);
    let (outcome, rest) = halves(rest);
    let words = known_words(rest);
    let lost = names_said(alloc, by, words.lost)?;
    let kept = parts_said(alloc, by, words.kept)?;
    let mixed = mixed_said(alloc, by, words.mixed)?;
    Ok(CaseSaid {
        front,
        outcome,
        lost,
        kept,
        mixed,
        free: number(words.free),
        window: window_said(words.window),
    })
}
