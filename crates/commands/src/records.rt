//! What records of a program tell of a log (docs/COMMANDS.md, Records in place of programs).

ghost use Rattle.std.specs.Prelude.{◌≡◌, [], IfOk, IfErr};
ghost use Rattle.known_runs.specs.Asked.{asked_of};
ghost use Rattle.known_runs.specs.Told.{RefusesKnown};
ghost use Rattle.commands.specs.Acting.{held_by, records_refusal, search_asked, AnswersRecords, TellsRecords, RefusesRecords, RefusesWith};

use crate::action::{Acted, HeldFiles, answer_of, report_refusal_of};
use base::causes::RequestCause;
use base::refusal::{Cause, Refusal};
use command_line::Words;
use known::Stops;
use known_runs::{KnownQuestion, KnownRunFault, KnownTold, tell_known, wanted_known};
use notes::{command_notes, put_note};
use request::facts::{Recording, RunFacts, Untold};
use request::{
    KnownSearch, KnownTelling, KnownWords, OptionWords, Options, Request, known_of, options_of,
};
use std::alloc::{AllocError, Global};

/// The refusal of records, or of what they are to be of.
fn records_refusal_of(fault: KnownRunFault) -> Refusal
    ensures { result ≡ records_refusal fault }
{
    match fault {
        KnownRunFault::Refused(refusal) => refusal,
        KnownRunFault::Line(line) | KnownRunFault::Other(line) => report_refusal_of(line),
        KnownRunFault::Contradiction {
            earlier: _earlier,
            later,
        } => report_refusal_of(later),
    }
}

/// What is asked of records.
fn question_of<'a>(
    recording: &'a Recording<'a>,
    records: &'a [u8],
    search: KnownSearch,
    options: &'a Options,
) -> KnownQuestion<'a>
    ensures { asked_of result ≡ search_asked recording.entry.now records.entry.now search options.entry.now }
{
    KnownQuestion {
        recording,
        records,
        losses: search.losses,
        stops: Stops {
            at_failing: search.at_failing,
            cases: search.cases,
        },
        options,
    }
}

/// What notes say of what records tell.
fn facts_of(told: &KnownTold) -> RunFacts
    ensures { result.unreached.items ≡ [] }
{
    let mut facts = RunFacts::none();
    facts.blind.push(told.blind);
    facts.left_out = told.left_out;
    facts.untold = Some(Untold {
        cases: told.untold,
        stopped: told.stopped,
    });
    facts
}

/// What is told of records, with the status: the text of the cases, or the images that are wanted.
fn told_of(
    alloc: Global,
    telling: KnownTelling,
    question: &KnownQuestion<'_>,
) -> Result<Acted, KnownRunFault>
    ensures told { IfOk result (λ answer. TellsRecords telling (asked_of question.now) answer.bytes.items answer.status) }
    ensures knows { IfOk result (λ answer. answer.facts.unreached.items ≡ []) }
    ensures refused { IfErr result (RefusesKnown (asked_of question.now)) }
{
    match telling {
        KnownTelling::Cases => {
            let told = tell_known(alloc, question)?;
            let facts = facts_of(&told);
            Ok(Acted {
                bytes: told.bytes,
                status: told.status,
                facts,
            })
        }
        KnownTelling::Wanted => {
            let bytes = wanted_known(alloc, question)?;
            Ok(answer_of(bytes, false, RunFacts::none()))
        }
    }
}

/// What is told of the records that the second file is, of the log that the first file holds.
#[inline(never)]
pub(crate) fn act_records(
    alloc: Global,
    words: OptionWords,
    known: KnownWords,
    files: &HeldFiles<'_>,
) -> Result<Acted, Refusal>
    ensures answers { IfOk result (λ answer. AnswersRecords words known (held_by files.now) answer.bytes.items answer.status) }
    ensures knows { IfOk result (λ answer. answer.facts.unreached.items ≡ []) }
    ensures refused { IfErr result (RefusesWith words (RefusesRecords known (held_by files.now))) }
{
    let options = options_of(words)?;
    let search = known_of(known, &options)?;
    let (recording, records) = files.given()?;
    let question = question_of(&recording, records, search, &options);
    match told_of(alloc, known.telling, &question) {
        Ok(acted) => Ok(acted),
        Err(fault) => Err(records_refusal_of(fault)),
    }
}

/// Why records that files hold are refused.
fn fault_in(
    alloc: Global,
    words: OptionWords,
    known: KnownWords,
    files: &HeldFiles<'_>,
) -> Option<KnownRunFault> {
    let options = options_of(words).ok()?;
    let search = known_of(known, &options).ok()?;
    let (recording, records) = files.given().ok()?;
    let question = question_of(&recording, records, search, &options);
    tell_known(alloc, &question).err()
}

/// Appends why records are refused, where the line alone doesn't say it.
fn put_fault(out: &mut String, fault: KnownRunFault) -> Result<(), AllocError> {
    match fault {
        KnownRunFault::Other(_line) => put_note(
            out,
            "the line is one of a head, and another one than that of this log with these options, or than the first head has",
        ),
        KnownRunFault::Contradiction { earlier, later } => write!(
            out,
            "note: the records at lines {earlier} and {later} contradict each other: their images have the same bytes wherever the program looked on both, and it ended otherwise; so it looks at something else too, or a look was missed\n"
        ),
        KnownRunFault::Refused(_) | KnownRunFault::Line(_) => Ok(()),
    }
}

/// The notes after a refusal, as `notes_after` of `notes` says them; after that of records also why they are refused, for which they are
/// read once more.
///
/// # Errors
///
/// Memory was refused.
pub fn notes_after(
    alloc: Global,
    words: &Words,
    files: &[Option<Vec<u8>>],
    base: &Option<Option<Vec<u8>>>,
    refusal: &Refusal,
) -> Result<String, AllocError> {
    let mut out = command_notes::notes_after(alloc, words, files, refusal)?;
    let held = HeldFiles {
        named: files,
        base,
        choice: words.choice(),
    };
    match (words.request(), refusal.code) {
        (Request::Known(options, known), Cause::Request(RequestCause::NotReport)) => {
            if let Some(fault) = fault_in(alloc, options, known, &held) {
                put_fault(&mut out, fault)?;
            }
        }
        _ => (),
    }
    Ok(out)
}
