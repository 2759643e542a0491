//! From the bytes of a log and of records to the bytes of the answer.

ghost use Rattle.std.specs.Prelude.{◌≡◌, ◌≤◌, ◌^◌, length, option_map, All, IfOk, IfErr, OnOk};
ghost use Rattle.known_text.specs.Pieces.{head_said};
ghost use Rattle.request.specs.Inputs.{head_given};
ghost use Rattle.request.specs.Source.{plan_of, images_of, IsLogOf, IsRecorded};
ghost use Rattle.known_runs.specs.Asked.{asked_of, asked_losses};
ghost use Rattle.known_runs.specs.Number.{source_of};
ghost use Rattle.known_runs.specs.Text.{known_bytes};
ghost use Rattle.known_runs.specs.Wanted.{WantsOf, TellsWanted};
ghost use Rattle.known_runs.specs.Told.{FindsKnown, TellsOf, TellsKnown, RefusesOf, RefusesKnown};

use crate::asked::{KnownQuestion, KnownRunFault, KnownTold};
use crate::blind::are_blind;
use crate::number::number_of_records;
use crate::read::read_records;
use crate::search::{find_by, losses_of, memory};
use crate::text::write_known;
use crate::totals::{left_out_of, status_of, totals_of};
use crate::wanted::write_wanted;
use epochs::Plan;
use images::initial_number;
use known::KnownAt;
use known_text::KnownHead;
use logfmt::{Log, text_of_one_log};
use report::Head;
use request::plan_of;
use std::alloc::{AllocError, Global};

/// How many bytes a text of records has at most: 1 GiB.
const MOST_OF_RECORDS: usize = 1_073_741_824;

/// What records tell, with the head of their text, and the number that it has to have.
#[derive(Drop)]
struct FoundKnown<'t> {
    inputs: u64,
    head: Option<KnownHead<'t>>,
    found: Vec<KnownAt>,
    /// Whether there are records, and in none of them the program looked at a sector that the log writes.
    blind: bool,
}

/// What the records of a text tell of a log, of which `plain` is the one without flushes that are added.
fn found_of<'t>(
    alloc: Global,
    question: &KnownQuestion<'t>,
    log: &Log<'_>,
    plan: &Plan<'_>,
    plain: &Log<'_>,
) -> Result<FoundKnown<'t>, KnownRunFault>
    requires short { length question.now.records.now ≤ 2 ^ 30 }
    requires plan { plan.now ≡ plan_of question.now.options.now log.now }
    ensures inputs { IfOk result (λ f. f.inputs ≡ (source_of (asked_of question.now) plain.now).inputs) }
    ensures found { IfOk result (λ f. FindsKnown (asked_of question.now) log.now plain.now (option_map head_said f.head) f.found.items) }
    ensures within { IfOk result (λ f. All (λ found. found.cut ≤ length log.now.entries) f.found.items) }
    ensures refused { IfErr result (RefusesOf (asked_of question.now) log.now plain.now) }
{
    let file = question.recording.log();
    let Ok(inputs) = number_of_records(alloc, file, plain, question.options) else {
        return Err(memory());
    };
    let known = match read_records(alloc, question, plain, inputs) {
        Ok(known) => known,
        Err(fault) => return Err(fault),
    };
    match find_by(alloc, question, log, plan, plain, known.runs.as_slice()) {
        Ok(found) => Ok(FoundKnown {
            inputs,
            head: known.head,
            found,
            blind: are_blind(plain.entries(), known.runs.as_slice()),
        }),
        Err(fault) => Err(fault),
    }
}

/// The text of what was found.
#[tactic(auto, unfolding(request::specs::Inputs::head_given))]
fn text_of(
    alloc: Global,
    question: &KnownQuestion<'_>,
    log: &Log<'_>,
    plan: &Plan<'_>,
    images: u64,
    found: &FoundKnown<'_>,
) -> Result<Vec<u8>, AllocError>
    requires plan { plan.now ≡ plan_of question.now.options.now log.now }
    requires count { images ≡ length (images_of question.now.options.now log.now) }
    requires cuts { All (λ cut. cut.cut ≤ length log.now.entries) found.now.found.items }
    ensures { IfOk result (λ bytes. bytes.items ≡ known_bytes found.now.inputs (head_given question.now.options.now log.now) (asked_losses (asked_of question.now)) (option_map head_said found.now.head) log.now found.now.found.items) }
{
    let options = question.options;
    let head = Head {
        sectors: options.sectors(),
        entries: log.entries().len() as u32,
        cuts: options.cuts(),
        bound: options.bound(),
        tears: options.tears(),
        by: options.by(),
        first: false,
        programs: Vec::new(alloc),
        images,
        base: initial_number(log),
    };
    let asked = losses_of(question);
    write_known(
        alloc,
        found.inputs,
        &head,
        &found.head,
        log,
        plan,
        asked,
        found.found.as_slice(),
    )
}

/// What is told of a log, of which `plain` is the one without flushes that are added.
fn told_of(
    alloc: Global,
    question: &KnownQuestion<'_>,
    log: &Log<'_>,
    plan: &Plan<'_>,
    images: u64,
    plain: &Log<'_>,
) -> Result<KnownTold, KnownRunFault>
    requires short { length question.now.records.now ≤ 2 ^ 30 }
    requires plan { plan.now ≡ plan_of question.now.options.now log.now }
    requires count { images ≡ length (images_of question.now.options.now log.now) }
    ensures told { IfOk result (λ t. TellsOf (asked_of question.now) log.now plain.now t.bytes.items t.status) }
    ensures refused { IfErr result (RefusesOf (asked_of question.now) log.now plain.now) }
{
    let found = match found_of(alloc, question, log, plan, plain) {
        Ok(found) => found,
        Err(fault) => return Err(fault),
    };
    let totals = totals_of(found.found.as_slice());
    match text_of(alloc, question, log, plan, images, &found) {
        Ok(bytes) => Ok(KnownTold {
            bytes,
            status: status_of(totals),
            untold: totals.untold,
            stopped: totals.stopped,
            left_out: left_out_of(totals),
            blind: found.blind,
        }),
        Err(_error) => Err(memory()),
    }
}

/// The images that are wanted of a log, of which `plain` is the one without flushes that are added, as a text.
fn wanted_of(
    alloc: Global,
    question: &KnownQuestion<'_>,
    log: &Log<'_>,
    plan: &Plan<'_>,
    plain: &Log<'_>,
) -> Result<Vec<u8>, KnownRunFault>
    requires short { length question.now.records.now ≤ 2 ^ 30 }
    requires plan { plan.now ≡ plan_of question.now.options.now log.now }
    ensures wants { IfOk result (λ bytes. WantsOf (asked_of question.now) log.now plain.now bytes.items) }
    ensures refused { IfErr result (RefusesOf (asked_of question.now) log.now plain.now) }
{
    let found = match found_of(alloc, question, log, plan, plain) {
        Ok(found) => found,
        Err(fault) => return Err(fault),
    };
    let (by, tears) = (question.options.by(), question.options.tears());
    let those = found.found.as_slice();
    match write_wanted(alloc, found.inputs, log, plan, by, tears, those) {
        Ok(bytes) => Ok(bytes),
        Err(_error) => Err(memory()),
    }
}

/// The log of a question: with the flushes that are added, and without them.
#[derive(Drop)]
struct ReadLogs<'x> {
    log: Log<'x>,
    plain: Log<'x>,
}

/// The log of a question, whose text of records isn't too long.
fn read_logs<'x>(alloc: Global, question: &KnownQuestion<'x>) -> Result<ReadLogs<'x>, KnownRunFault>
    ensures short { OnOk result (length question.now.records.now ≤ 2 ^ 30) }
    ensures log { IfOk result (λ logs. IsLogOf question.now.recording.now question.now.options.now logs.log) }
    ensures plain { IfOk result (λ logs. IsRecorded question.now.recording.now question.now.options.now logs.plain) }
    ensures refused { IfErr result (RefusesKnown (asked_of question.now)) }
{
    if question.records.len() > MOST_OF_RECORDS {
        return Err(KnownRunFault::Line(0));
    }
    let (recording, options) = (question.recording, question.options);
    let log = match recording.read(alloc, options) {
        Ok(log) => log,
        Err(refusal) => return Err(KnownRunFault::Refused(refusal)),
    };
    match recording.recorded(alloc, options) {
        Ok(plain) => Ok(ReadLogs { log, plain }),
        Err(refusal) => Err(KnownRunFault::Refused(refusal)),
    }
}

/// What records of a program of the user's tell of the cases of a log (docs/OUTPUT.md, Records of a program of yours): the text, and its
/// status.
///
/// # Errors
///
/// That the text of records has more than 1 GiB; the refusals of the log and of the number of its images; the first line that is none of
/// records of the log; the first two records that contradict each other, by the later one; 12 at the cut with which there are more than
/// 16,777,216 told leaves and open cases; or want of memory.
pub fn tell_known(alloc: Global, question: &KnownQuestion<'_>) -> Result<KnownTold, KnownRunFault>
    ensures told { IfOk result (λ t. TellsKnown (asked_of question.now) t.bytes.items t.status) }
    ensures refused { IfErr result (RefusesKnown (asked_of question.now)) }
{
    let logs = match read_logs(alloc, question) {
        Ok(logs) => logs,
        Err(fault) => return Err(fault),
    };
    let ReadLogs { log, plain } = logs;
    let (plan, images) = match plan_of(alloc, &log, question.options) {
        Ok(found) => found,
        Err(refusal) => return Err(KnownRunFault::Refused(refusal)),
    };
    // A law of logs, which does nothing: the bytes are a text of one log.
    text_of_one_log();
    told_of(alloc, question, &log, &plan, images, &plain)
}

/// The images of the representatives of the cases of a log that records of a program of the user's leave open, in the order of the search
/// and in the form of `export` (docs/OUTPUT.md, The text of `export`).
///
/// # Errors
///
/// Those of `tell_known`.
pub fn wanted_known(alloc: Global, question: &KnownQuestion<'_>) -> Result<Vec<u8>, KnownRunFault>
    ensures wanted { IfOk result (λ bytes. TellsWanted (asked_of question.now) bytes.items) }
    ensures refused { IfErr result (RefusesKnown (asked_of question.now)) }
{
    let logs = match read_logs(alloc, question) {
        Ok(logs) => logs,
        Err(fault) => return Err(fault),
    };
    let ReadLogs { log, plain } = logs;
    let (plan, _images) = match plan_of(alloc, &log, question.options) {
        Ok(found) => found,
        Err(refusal) => return Err(KnownRunFault::Refused(refusal)),
    };
    text_of_one_log();
    wanted_of(alloc, question, &log, &plan, &plain)
}
