//! The notes beside an answer.

use crate::command_notes::blind::put_blind;
use crate::command_notes::forced::put_forced;
use crate::command_notes::held::recording_of;
use crate::command_notes::large::put_large;
use crate::command_notes::left_out::put_left_out;
use crate::command_notes::no_cuts::put_no_cuts;
use crate::command_notes::promises::put_promises;
use crate::command_notes::unreached::put_unreached;
use crate::command_notes::untold::put_untold;
use crate::put_note;
use command_line::Words;
use epochs::{By, CutKind};
use request::facts::{LogFacts, RunFacts, log_facts};
use request::{Extent, LossWords, OptionWords, Request, options_of};
use std::alloc::{AllocError, Global};

/// How a report begins that says of which log it is.
const MARKED: &[u8] = b"crash report 2\ninputs ";

/// Appends what no run reaches of the programs that were verified for a run, by their numbers, and which pass without looking at what
/// the log writes.
fn put_explored_notes(out: &mut String, facts: &RunFacts) -> Result<(), AllocError> {
    for (number, found) in facts.unreached.iter().enumerate() {
        put_unreached(out, Some(number as u8), *found)?;
    }
    put_blind(out, facts.blind.as_slice())
}

/// Appends that a program of which there are records looked at nothing of what the log writes, where that is so.
fn put_records_notes(out: &mut String, facts: &RunFacts) -> Result<(), AllocError> {
    match facts.blind.as_slice() {
        [true] => put_note(
            out,
            "program 0: looked at no sector that an entry writes, in no record, so no loss changes what it ends in",
        ),
        _ => Ok(()),
    }
}

/// Appends which marks of a log promise what nothing made durable, where some do.
fn put_mark_notes(out: &mut String, log: &LogFacts) -> Result<(), AllocError> {
    match &log.promises {
        Some(found) => put_promises(out, found),
        None => Ok(()),
    }
}

/// Appends how many writes of a log have more sectors than may depart, where sectors depart.
fn put_large_notes(
    out: &mut String,
    options: OptionWords,
    log: &LogFacts,
) -> Result<(), AllocError> {
    let by_sector = matches!(options.settings.by, By::Sector);
    if !by_sector || options.settings.bound == 0 || log.large == 0 {
        return Ok(());
    }
    put_large(out, options.settings.bound, log.large)?;
    put_note(out, "with --by write each may be dropped as a whole")
}

/// Appends how many entries of a log have FUA, where parts of others are torn.
fn put_forced_notes(
    out: &mut String,
    options: OptionWords,
    log: &LogFacts,
) -> Result<(), AllocError> {
    if !options.settings.tears || options.settings.bound == 0 || log.forced == 0 {
        return Ok(());
    }
    put_forced(out, log.forced)
}

/// Whether a first or a last cut is named.
fn is_ranged(options: OptionWords) -> bool {
    let cuts = options.settings.cuts;
    cuts.from.is_some() || cuts.to.is_some()
}

/// Appends that no cut of a log is wanted, or that it has no flush entry, where the cuts before flushes are asked for.
fn put_cut_notes(out: &mut String, options: OptionWords, log: &LogFacts) -> Result<(), AllocError> {
    match (options.settings.cuts.kind, log.cuts, log.flushes) {
        (_, 0, _) => put_no_cuts(out, is_ranged(options)),
        (CutKind::BeforeFlush, _, 0) => put_note(
            out,
            "no entry is a flush, so --cuts flush has the one cut at the end; ask without --cuts",
        ),
        _ => Ok(()),
    }
}

/// Appends that an image loses at most one part, where that is asked of a whole run: so it is without an option.
fn put_one_loss(out: &mut String, options: OptionWords) -> Result<(), AllocError> {
    if options.settings.bound != 1 || !matches!(options.settings.extent, Extent::Whole) {
        return Ok(());
    }
    match options.settings.by {
        By::Sector => put_note(
            out,
            "in each image at most 1 sector is lost or torn; --bound any explores every loss (docs/CRASH-MODEL.md, What a clean report doesn't say)",
        ),
        By::Write => put_note(
            out,
            "in each image at most 1 write is lost or torn; --bound any explores every loss (docs/CRASH-MODEL.md, What a clean report doesn't say)",
        ),
    }
}

/// Appends which cuts and which losses no image of a log has, by the options.
fn put_survey_notes(
    out: &mut String,
    options: OptionWords,
    log: &LogFacts,
) -> Result<(), AllocError> {
    put_cut_notes(out, options, log)?;
    put_large_notes(out, options, log)?;
    put_forced_notes(out, options, log)
}

/// Appends what no run reaches of the programs that a command verified, and which pass without looking at what the log writes.
fn put_program_notes(out: &mut String, words: &Words, facts: &RunFacts) -> Result<(), AllocError> {
    match words.request() {
        Request::Verify { .. } | Request::Check(_) => {
            for found in facts.unreached.iter() {
                put_unreached(out, None, *found)?;
            }
            Ok(())
        }
        Request::Explore(_) | Request::Why(_) => put_explored_notes(out, facts),
        Request::Cure(_) | Request::Page(_) => put_explored_notes(out, facts),
        Request::Marked(_) => put_explored_notes(out, facts),
        Request::Cases(_, _) | Request::CureCases(_, _) => put_explored_notes(out, facts),
        Request::Known(_, _) => put_records_notes(out, facts),
        _ => Ok(()),
    }
}

/// The options by which a command asks for its log, where something is said of the log beside its answer.
fn noted_options(words: &Words) -> Option<OptionWords> {
    match words.request() {
        Request::Explore(options) | Request::Why(options) => Some(options),
        Request::Cure(options) | Request::Page(options) => Some(options),
        Request::Marked(options) => Some(options),
        Request::Cases(options, _) | Request::CureCases(options, _) => Some(options),
        Request::Known(options, _) => Some(options),
        Request::Retold(options, _) | Request::Log(options) => Some(options),
        Request::Export(options) | Request::Images(options, _) => Some(options),
        Request::Cuts(options, _, _) => Some(options),
        _ => None,
    }
}

/// What notes say of the log that the first file holds, as these options ask for it.
fn log_noted(alloc: Global, options: OptionWords, files: &[Option<Vec<u8>>]) -> Option<LogFacts> {
    let options = options_of(options).ok()?;
    let recording = recording_of(files)?;
    log_facts(alloc, &recording, &options)
}

/// Appends what is said of the log of a command, by its options.
fn put_log_notes(
    out: &mut String,
    words: &Words,
    options: OptionWords,
    log: &LogFacts,
) -> Result<(), AllocError> {
    match words.request() {
        Request::Log(_) => put_mark_notes(out, log),
        Request::Cuts(_, _, _) => put_cut_notes(out, options, log),
        Request::Export(_) | Request::Images(_, _) => put_survey_notes(out, options, log),
        Request::Cases(_, _) | Request::CureCases(_, _) | Request::Known(_, _) => {
            put_mark_notes(out, log)?;
            put_cut_notes(out, options, log)
        }
        _ => {
            put_mark_notes(out, log)?;
            put_survey_notes(out, options, log)
        }
    }
}

/// Whether each cut of a log is asked for.
fn are_all_cuts(options: OptionWords) -> bool {
    matches!(options.settings.cuts.kind, CutKind::All) && !is_ranged(options)
}

/// Appends what a clean run of any number of losses left out.
fn put_left_notes(
    out: &mut String,
    options: OptionWords,
    losses: &LossWords,
    facts: &RunFacts,
) -> Result<(), AllocError> {
    match &facts.left_out {
        Some(left) => put_left_out(out, losses, are_all_cuts(options), left),
        None => Ok(()),
    }
}

/// Appends what records of a program didn't tell, or where they told all, what the search left out.
fn put_known_notes(
    out: &mut String,
    options: OptionWords,
    losses: &LossWords,
    facts: &RunFacts,
) -> Result<(), AllocError> {
    match &facts.untold {
        Some(untold) if untold.cases > 0 || untold.stopped > 0 => put_untold(out, untold),
        _ => put_left_notes(out, options, losses, facts),
    }
}

/// Appends that a report doesn't say of which log it is, where it doesn't: its second line then has its options.
fn put_unmarked(out: &mut String, files: &[Option<Vec<u8>>]) -> Result<(), AllocError> {
    match files {
        [_, Some(report), ..] if !report.as_slice().starts_with(MARKED) => put_note(
            out,
            "the report doesn't say of which log it is; explore --inputs and crashbpf-each write one that does",
        ),
        _ => Ok(()),
    }
}

/// The notes beside the answer of a command that succeeded, by what its files hold and what its run knows: what no run of a program
/// reaches (`verify`, `check` and the commands of a run), which programs pass without looking at what the log writes (`explore`, `why` and
/// `page`), which marks promise what nothing made durable (`log` and the commands of a run), that no cut is wanted, or that `--cuts flush`
/// has one (the commands of a run, `images` and `export`; the latter where no entry is a flush), how many writes never depart as a whole,
/// and how many entries with FUA aren't torn (`images` and the commands of a run; not where any number of losses is explored, by which
/// each write may be dropped, and one with FUA torn while it is in flight), that an image loses at most one part (`explore` of a whole
/// run), that a report that is given doesn't say of which log it is, and how much records of a program didn't tell. Each line begins with `note: `; mostly there is none. The log is read once more for them, and where there is no memory for that
/// nothing is said of it.
///
/// # Errors
///
/// Memory was refused.
pub fn notes_beside(
    alloc: Global,
    words: &Words,
    files: &[Option<Vec<u8>>],
    facts: &RunFacts,
) -> Result<String, AllocError> {
    let mut out = String::new(alloc);
    put_program_notes(&mut out, words, facts)?;
    if let Some(options) = noted_options(words) {
        if let Some(log) = log_noted(alloc, options, files) {
            put_log_notes(&mut out, words, options, &log)?;
        }
    }
    match words.request() {
        Request::Explore(options) | Request::Marked(options) => {
            put_one_loss(&mut out, options)?;
        }
        Request::Retold(_, _) => put_unmarked(&mut out, files)?,
        Request::Cases(options, losses) => {
            put_left_notes(&mut out, options, &losses, facts)?;
        }
        Request::Known(options, known) => {
            put_known_notes(&mut out, options, &known.losses, facts)?;
        }
        _ => (),
    }
    Ok(out)
}
