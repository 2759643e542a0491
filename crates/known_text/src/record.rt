//! A record, read from its line.

ghost use Rattle.std.specs.Prelude.{◌≡◌, ◌≤◌, ◌++◌, ◌↔◌, IfOk, IsTrue, MatchOption, OnOk, string_bytes, length};
ghost use Rattle.epochs.specs.Units.{marks_at};
ghost use Rattle.known_text.specs.Records.{IsRanOnly, NoRan, ran_of, ran_text};
ghost use Rattle.known_text.specs.Reading.{AreMarks, AreOfLog, AreSets, IsSaidSo, NoSets, NoneIsSaidSo, ReadsRan, ran_said};

use crate::ending::{end_said, is_end, put_end};
use crate::looked::looked_said;
use cases::Cut;
use epochs::By;
use known::{KnownRun, RunEnd};
use logfmt::{Entry, Log};
use lost_text::lost_said;
use report::printed::{cut, field, small_number};
use std::alloc::{AllocError, Global};

/// What the words of a line say. Of its choice and of its sectors they stand here as they are.
#[derive(Clone, Copy, Drop)]
pub struct RanSaid<'t> {
    pub(crate) cut: u32,
    pub(crate) choice: &'t str,
    pub(crate) marks: u32,
    pub(crate) end: RunEnd,
    pub(crate) looked: &'t str,
}

/// What the words of a line say, and something where it is no record.
#[tactic(auto, using(crate::proofs::Lines::words_read))]
fn words_said<'t>(line: &'t str) -> RanSaid<'t>
    ensures { ReadsRan line.now (ran_said result) }
{
    let (_ran, line) = cut(line, ' ');
    let (at, line) = field(line);
    let (choice, line) = field(line);
    let (marks, line) = field(line);
    let (end, line) = end_said(line);
    let (_looked, looked) = cut(line, ' ');
    RanSaid {
        cut: small_number(at),
        choice,
        marks: small_number(marks),
        end,
        looked,
    }
}

/// Appends the line of these words, without its newline.
#[tactic(auto, unfolding(crate::specs::Records::ran_text))]
fn put_ran(out: &mut String, said: &RanSaid<'_>) -> Result<(), AllocError>
    ensures { OnOk result (string_bytes out.new ≡ string_bytes out.old ++ ran_text (ran_said said.now)) }
{
    write!(out, "ran cut {} choice {}", said.cut, said.choice)?;
    write!(out, " marks {} ", said.marks)?;
    put_end(out, said.end)?;
    write!(out, " looked {}", said.looked)
}

/// Whether a line is that of these words, to the byte.
fn is_line(alloc: Global, said: &RanSaid<'_>, line: &str) -> Result<bool, AllocError>
    ensures { IfOk result (λ is. IsTrue is ↔ (line.now ≡ ran_text (ran_said said.now))) }
{
    let mut printed = String::new(alloc);
    put_ran(&mut printed, said)?;
    Ok(printed.as_str() == line)
}

/// The words of a line that has the form of a record.
#[tactic(auto, using(crate::proofs::Lines::none_said, crate::proofs::Lines::said_so))]
fn form_said<'t>(alloc: Global, line: &'t str) -> Result<Option<RanSaid<'t>>, AllocError>
    ensures { IfOk result (λ found. MatchOption found (NoneIsSaidSo line.now) (λ said. IsSaidSo line.now (ran_said said))) }
{
    let said = words_said(line);
    if is_line(alloc, &said, line)? {
        Ok(Some(said))
    } else {
        Ok(None)
    }
}

/// Whether a cut is one of a log, with that many marks before it.
fn has_marks(entries: &[Entry], marks: &[u32], cut: u32, count: u32) -> bool
    requires { AreMarks entries.now marks.now }
    ensures { IsTrue result ↔ ((cut ≤ length entries.now) × (count ≡ marks_at entries.now cut)) }
{
    match marks.get(cut as usize) {
        Some(before) => *before == count,
        None => false,
    }
}

/// Whether words are of a cut of a log, have as many marks as stand before it, and an end that there is.
fn are_of_log(entries: &[Entry], marks: &[u32], said: &RanSaid<'_>) -> bool
    requires { AreMarks entries.now marks.now }
    ensures { IsTrue result ↔ AreOfLog entries.now (ran_said said.now) }
{
    has_marks(entries, marks, said.cut, said.marks) && is_end(said.end)
}

/// Returns for each part at risk at a cut the set of the one fate that becomes of it, by the words of a choice.
#[tactic(auto, using(crate::proofs::Recorded::no_sets, crate::proofs::Recorded::are_sets))]
fn sets_said(
    alloc: Global,
    log: &Log<'_>,
    way: By,
    cut: u32,
    choice: &str,
) -> Result<Option<Vec<u16>>, AllocError>
    requires { cut ≤ length log.now.entries }
    ensures { IfOk result (λ found. MatchOption found (NoSets log.now way cut choice.now) (λ sets. AreSets log.now way cut choice.now sets.items)) }
{
    let at = Cut::new(alloc, log, way, cut)?;
    match lost_said(alloc, &at, way, true, choice)? {
        Some(lost) => Ok(Some(lost.sets)),
        None => Ok(None),
    }
}

/// The record that a line is, of a log of which it is known how many marks stand before each cut.
///
/// # Errors
///
/// Memory was refused.
#[tactic(auto, using(crate::proofs::Recorded::no_form, crate::proofs::Recorded::other_log, crate::proofs::Recorded::no_choice, crate::proofs::Recorded::no_looks, crate::proofs::Recorded::is_record))]
pub(crate) fn record_said(
    alloc: Global,
    log: &Log<'_>,
    way: By,
    marks: &[u32],
    line: &str,
) -> Result<Option<KnownRun>, AllocError>
    requires { AreMarks log.now.entries marks.now }
    ensures { IfOk result (λ found. MatchOption found (NoRan log.now way line.now) (λ run. IsRanOnly log.now way line.now (ran_of run))) }
{
    let _sectors = log.sectors();
    let Some(said) = form_said(alloc, line)? else {
        return Ok(None);
    };
    if !are_of_log(log.entries(), marks, &said) {
        return Ok(None);
    }
    let Some(sets) = sets_said(alloc, log, way, said.cut, said.choice)? else {
        return Ok(None);
    };
    let Some(looked) = looked_said(alloc, log.sectors(), said.looked)? else {
        return Ok(None);
    };
    Ok(Some(KnownRun {
        cut: said.cut,
        sets,
        marks: said.marks,
        end: said.end,
        looked,
    }))
}
