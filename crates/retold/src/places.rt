//! Where flushes are missing, by the lines of a report (docs/OUTPUT.md, The text of `cure`).

ghost use Rattle.std.specs.Prelude.{◌≡◌, ◌<◌, ◌++◌, ◌∷◌, [], None, Some, IfOk, MatchOption, OnOk, codes, length, map, slice_get, string_bytes};
ghost use Rattle.std.specs.List.{flat_map};
ghost use Rattle.epochs.specs.Flushes.{places_of};
ghost use Rattle.choices.specs.Choices.{ranked_choices};
ghost use Rattle.losses.specs.FailureWindows.{places_in};
ghost use Rattle.losses.specs.CureText.{uncured_at, flush_line};
ghost use Rattle.report.specs.Words.{next_flush};
ghost use Rattle.join.specs.Given.{line_told, told_line};
ghost use Rattle.join.specs.GivenReading.{given_told};
ghost use Rattle.join.specs.Reading.{words_text};
ghost use Rattle.retold.specs.Told.{AreOfRun, TellsPlaces, beyond_line, count_of, end_told, entries_told, next_told, uncured_told, untried_line};

use crate::missing::missing_in;
use crate::subject::Subject;
use epochs::Cuts;
use join::{Given, GivenLine};
use losses::cure::{Failure, put_programs, put_round};
use losses::flushes::MissingFlush;
use report::choice_text::put_departures;
use report::lines::LineMark;
use std::alloc::{AllocError, Global};

/// How many entries `--flush` takes.
const MOST_FLUSHES: usize = 64;

/// The number of the first failure without a window.
fn first_uncured(failures: &[Failure]) -> Option<usize>
    ensures { result ≡ uncured_at failures.now }
{
    failures.iter().position(|failure| failure.window.is_none())
}

/// Appends of which image, cut and program a line is.
#[tactic(auto, unfolding(join::specs::Reading::words_text))]
fn put_words(out: &mut String, mark: LineMark, cut: u32) -> Result<(), AllocError>
    ensures { OnOk result (string_bytes out.new ≡ string_bytes out.old ++ words_text (record { image = mark.image; cut = cut; program = mark.program })) }
{
    write!(
        out,
        "image {} cut {} program {} ",
        mark.image, cut, mark.program
    )
}

/// Appends what a program ended in, and what leads to the choice.
fn put_outcome(out: &mut String, outcome: &str) -> Result<(), AllocError>
    ensures { OnOk result (string_bytes out.new ≡ string_bytes out.old ++ (outcome.now ++ codes " choice ")) }
{
    write!(out, "{outcome} choice ")
}

/// Appends a line as the report has it.
fn put_line(out: &mut String, subject: &Subject<'_>, line: &GivenLine<'_>) -> Result<(), AllocError>
    requires { line.now.mark.image < length (ranked_choices subject.now.starts.now.plan subject.now.starts.now.bound subject.now.starts.now.tears) }
    ensures { OnOk result (string_bytes out.new ≡ string_bytes out.old ++ told_line subject.now.starts.now (line_told line.now)) }
{
    let choice = subject.starts.nth(line.mark.image);
    put_words(out, line.mark, choice.cut())?;
    put_outcome(out, line.outcome)?;
    put_departures(out, subject.by, choice.departures())?;
    write!(out, "\n")
}

/// The line at a place, where there is one.
fn line_at<'x>(lines: &'x [GivenLine<'x>], place: usize) -> Option<&'x GivenLine<'x>>
    ensures { MatchOption result (slice_get lines.now place ≡ None) (λ line. slice_get lines.now place ≡ Some line.now) }
{
    lines.get(place)
}

/// Appends the line of the first failure without a window, where there is one.
#[tactic(auto, using(crate::proofs::Tellings::none_uncured, crate::proofs::Tellings::uncured_past, crate::proofs::Tellings::uncured_is, crate::proofs::Tellings::line_within))]
fn put_uncured(
    out: &mut String,
    subject: &Subject<'_>,
    failures: &[Failure],
) -> Result<(), AllocError>
    requires { AreOfRun subject.now.starts.now (map line_told subject.now.lines.now) }
    ensures { OnOk result (string_bytes out.new ≡ string_bytes out.old ++ uncured_told subject.now.starts.now (map line_told subject.now.lines.now) failures.now) }
{
    let Some(place) = first_uncured(failures) else {
        return Ok(());
    };
    let Some(line) = line_at(subject.lines, place) else {
        return Ok(());
    };
    out.push_str("no flush cures ")?;
    put_line(out, subject, line)
}

/// The entries before which the next run is to have a flush: those that were added, and those that are missing.
fn entries_of(alloc: Global, cuts: &Cuts, missing: &[MissingFlush]) -> Result<Vec<u32>, AllocError>
    ensures { IfOk result (λ entries. entries.items ≡ places_of cuts.now.flushes ++ places_in missing.now) }
{
    let mut entries = cuts.flushes.places().to_vec(alloc)?;
    for flush in missing {
        entries.push(flush.at)?;
    }
    Ok(entries)
}

/// Appends entries that follow another.
fn put_more(out: &mut String, entries: &[u32]) -> Result<(), AllocError>
    ensures { OnOk result (string_bytes out.new ≡ string_bytes out.old ++ flat_map next_flush entries.now) }
{
    for entry in entries {
        write!(out, ",{entry}")?;
    }
    Ok(())
}

/// Appends entries with commas between.
fn put_entries(out: &mut String, entries: &[u32]) -> Result<(), AllocError>
    ensures { OnOk result (string_bytes out.new ≡ string_bytes out.old ++ entries_told entries.now) }
{
    match entries {
        [] => Ok(()),
        [first, rest @ ..] => {
            write!(out, "{first}")?;
            put_more(out, rest)
        }
    }
}

/// Appends which run is next, with these flushes.
fn put_untried(out: &mut String, entries: &[u32]) -> Result<(), AllocError>
    ensures { OnOk result (string_bytes out.new ≡ string_bytes out.old ++ untried_line entries.now) }
{
    out.push_str("untried --flush ")?;
    put_entries(out, entries)?;
    write!(out, "\n")
}

/// Appends that these are more flushes than a run can be given.
#[tactic(auto, unfolding(crate::specs::Told::beyond_line))]
fn put_beyond(out: &mut String, count: usize) -> Result<(), AllocError>
    ensures { OnOk result (string_bytes out.new ≡ string_bytes out.old ++ beyond_line count) }
{
    write!(out, "untried {count} flushes, more than --flush takes\n")
}

/// Appends which run is next, if `--flush` takes that many.
fn put_next_run(out: &mut String, entries: &[u32]) -> Result<(), AllocError>
    ensures { OnOk result (string_bytes out.new ≡ string_bytes out.old ++ next_told entries.now) }
{
    let count = entries.len();
    if count <= MOST_FLUSHES {
        put_untried(out, entries)
    } else {
        put_beyond(out, count)
    }
}

/// Appends the last line: that of the report where no flush is missing, and else which run is next.
fn put_end(
    alloc: Global,
    out: &mut String,
    cuts: &Cuts,
    given: &Given<'_>,
    missing: &[MissingFlush],
) -> Result<(), AllocError>
    ensures { OnOk result (string_bytes out.new ≡ string_bytes out.old ++ end_told (places_of cuts.now.flushes) (given_told given.now) missing.now) }
{
    if missing.is_empty() {
        return out.push_str(given.last);
    }
    let entries = entries_of(alloc, cuts, missing)?;
    put_next_run(out, entries.as_slice())
}

/// Where flushes are missing.
pub(crate) fn places_text(
    alloc: Global,
    subject: &Subject<'_>,
    cuts: &Cuts,
    given: &Given<'_>,
) -> Result<Vec<u8>, AllocError>
    requires lines { map line_told subject.now.lines.now ≡ (given_told given.now).lines }
    requires of_run { AreOfRun subject.now.starts.now (map line_told subject.now.lines.now) }
    requires programs { subject.now.programs ≡ count_of (given_told given.now) }
    ensures { IfOk result (λ bytes. TellsPlaces (places_of cuts.now.flushes) subject.now.starts.now (given_told given.now) bytes.items) }
{
    let missing = missing_in(alloc, subject)?;
    let (failures, flushes) = (missing.failures.as_slice(), missing.flushes.as_slice());
    let mut out = String::new(alloc);
    out.push_str("crash cure 1\n")?;
    out.push_str(given.head)?;
    put_programs(&mut out, subject.programs, failures)?;
    put_uncured(&mut out, subject, failures)?;
    put_round(&mut out, 1, flushes)?;
    put_end(alloc, &mut out, cuts, given, flushes)?;
    Ok(out.into_bytes())
}
