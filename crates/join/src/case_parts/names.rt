//! Parts by their names, and what may become of them, read from words.

ghost use Rattle.std.specs.Prelude.{ℕ, ◌≡◌, ◌+◌, ◌≤◌, ◌<◌, Some, true};
ghost use Rattle.choices.specs.declared.fate.Fate.{Fate as FateValue};
ghost use Rattle.choices.specs.CrashModel.{IsFate};
ghost use Rattle.report.specs.ChoiceText.{fate_text};
ghost use Rattle.join.specs.CaseReading.{ReadsOneName, ReadsPartName, ReadsPossible};

use choices::{Fate, Name};
use epochs::By;
use report::choice_text::read_fate;
use report::printed::{cut, small_number};

/// A part by its entry and its place there.
#[derive(Clone, Copy, Drop)]
pub struct PartName {
    pub(crate) entry: u32,
    pub(crate) place: u32,
}

/// A part with what may become of it; `None` is whole.
#[derive(Drop)]
pub(crate) struct Mixed {
    pub(crate) part: PartName,
    pub(crate) fates: Vec<Option<Fate>>,
}

/// What may become of a part, by a word.
#[tactic(auto, using(crate::proofs::CaseWords::whole_read, crate::proofs::CaseWords::possible_read))]
pub(crate) fn possible_said(word: &str) -> Option<Fate>
    ensures { ReadsPossible word.now result }
{
    if word == "whole" {
        return None;
    }
    read_fate(word.as_bytes())
}

/// The part that a word says.
#[tactic(auto, using(crate::proofs::CaseWords::sector_read, crate::proofs::CaseWords::write_read))]
pub(crate) fn part_said(by: By, word: &str) -> PartName
    ensures { ReadsPartName by word.now result }
{
    match by {
        By::Sector => {
            let (entry, place) = cut(word, '.');
            PartName {
                entry: small_number(entry),
                place: small_number(place),
            }
        }
        By::Write => PartName {
            entry: small_number(word),
            place: 0,
        },
    }
}

/// What became of a part by a word, and the drop where it says nothing.
fn lost_said(word: &str) -> Fate
    ensures { (f : FateValue) → IsFate true f → word.now ≡ fate_text f → result ≡ f }
{
    match read_fate(word.as_bytes()) {
        Some(fate) => fate,
        None => Fate::Drop,
    }
}

/// The part that a word says, with what became of it.
#[tactic(auto, using(crate::proofs::CaseWords::name_read))]
pub(crate) fn name_said(by: By, word: &str) -> Name
    ensures { ReadsOneName by word.now result }
{
    let (part, fate) = cut(word, ':');
    let part = part_said(by, part);
    Name {
        entry: part.entry,
        place: part.place,
        fate: lost_said(fate),
    }
}
