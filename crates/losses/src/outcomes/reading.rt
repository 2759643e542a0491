//! What programs end in, read from the text of failing lines.
//!
//! Of a text that is not that of lines nothing is said.

ghost use Rattle.std.specs.Prelude.{◌≡◌, ◌<◌, ◌++◌, ◌∷◌, [], ◌==◌, if◌then◌else◌, ℕ, List, length, map, filter, IfOk, OnOk};
ghost use Rattle.losses.specs.ProgramOutcomes.{IsEnding, ReadsOutcome, AreOutcomes, is_marked, if_own};

use report::lines::LineMark;
use report::printed::{cut, field};
use std::alloc::{AllocError, Global};

/// A text without its last character, where it is this one.
fn without(text: &str, last: char) -> &str
    requires { last < 128 }
    ensures { (front : List ℕ) → text.now ≡ front ++ last ∷ [] → result.now ≡ front }
{
    match text.strip_suffix(last) {
        Some(front) => front,
        None => text,
    }
}

/// What a program ended in, of what a line says after its program.
fn outcome_in(said: &str) -> &str
    ensures { IsEnding said.now result.now }
{
    let (begun, _choice) = cut(said, 'h');
    without(without(begun, 'c'), ' ')
}

/// What the program of the first line ended in, and the lines after it.
fn read_outcome(text: &str) -> (&str, &str)
    ensures { ReadsOutcome text.now result.0.now result.1.now }
{
    let (_image, after_image) = field(text);
    let (_cut, after_cut) = field(after_image);
    let (_program, after_program) = field(after_cut);
    let (said, more) = cut(after_program, '\n');
    (outcome_in(said), more)
}

/// Appends what a line says, if it is of that program.
fn push_own<'t>(
    outcomes: &mut Vec<&'t str>,
    program: usize,
    mark: LineMark,
    outcome: &'t str,
) -> Result<(), AllocError>
    ensures { OnOk result (map (λ o. o.now) outcomes.new.items ≡ map (λ o. o.now) outcomes.old.items ++ if_own program mark outcome.now) }
{
    if usize::from(mark.program) == program {
        outcomes.push(outcome)?;
    }
    Ok(())
}

/// What the program of that number ends in on each image on which it fails, by the text of all failing lines and their marks. Each is
/// a part of the text.
///
/// It takes 16 bytes for each.
///
/// # Errors
///
/// Memory was refused.
pub fn outcomes_of<'t>(
    alloc: Global,
    text: &'t str,
    marks: &[LineMark],
    program: usize,
) -> Result<Vec<&'t str>, AllocError>
    ensures read { IfOk result (λ outcomes. AreOutcomes text.now marks.now program (map (λ o. o.now) outcomes.items)) }
    ensures many { IfOk result (λ outcomes. length outcomes.items ≡ length (filter (is_marked program) marks.now)) }
{
    let mut outcomes = Vec::new(alloc);
    let mut rest = text;
    for mark in marks {
        let (outcome, more) = read_outcome(rest);
        push_own(&mut outcomes, program, *mark, outcome)?;
        rest = more;
    }
    Ok(outcomes)
}
