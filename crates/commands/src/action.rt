//! Performing a command.

ghost use Rattle.std.specs.Prelude.{◌≡◌, ◌==◌, ◌<◌, ◌≤◌, ◌-◌, ◌⊎◌, ℕ, ◌∷◌, [], true, false, drop, length, map, option_map, position, is_none, Some, None, MatchResult, IfOk, IfErr, OnOk};
ghost use Rattle.std.specs.List.{filter_map};
ghost use Rattle.base.specs.Refusals.{memory_refusal};
ghost use Rattle.request.specs.declared.command.Request.TheVariants as asks;
ghost use Rattle.runs.specs.Explore.{RefusesWanted};
ghost use Rattle.request.specs.Refusals.{file_refusal};
ghost use Rattle.runs.specs.declared.explore_command.WantedAnswer.TheVariants as wants;
ghost use Rattle.commands.specs.Acting.{first_held, second_held, lines_held, files_of, held_by, initial_of, recording, status_of, HoldsRecording, HoldsGiven, RefusesRecording, RefusesGiven, AnswersRun, AnswersFiles, AnswersExplore, AnswersMarked, first_line, marked_report, title_length, with_inputs, AnswersCases, wanted_by, AnswersCuts, RefusesCuts, AnswersRetold, RefusesReportOf, report_refusal, retold_refusal, AnswersAny, RefusesAny, form_of, Shows, AnswersOf, Answers, JoinsCases, JoinsEither, JoinsTexts, RefusesTexts, are_cases, cases_refusal, join_refusal, most_texts, RefusesWith, RefusesCases, RefusesLook, RefusesToAct, RefusesFiles};
ghost use Rattle.commands.specs.Knowing.{KnowsRun, KnowsFiles, KnowsExplored, KnowsCases, KnowsVerified, KnowsTried, Knows};
ghost use Rattle.request.specs.Found.{IsEmpty};
ghost use Rattle.commands.specs.Stored.{stored_log, stored_programs, stored_settings};
ghost use Rattle.request.specs.declared.settings.Telling.TheVariants as tells;

use crate::records::act_records;
use crate::stored::{stored_files, stored_options};
use base::causes::{JoinCause, RequestCause};
use base::limits::Limits;
use base::refusal::{Cause, Refusal};
use command_line::Words;
use inspect::looks::{
    ImageForm, any_image, assemble, export_images, image, import, list, show, shown_log, survey,
    survey_cuts, verify_program,
};
use inspect::trial::try_image;
use join::{CasesFault, JoinFault, join, join_cases};
use request::facts::{Recording, RunFacts};
use request::{
    AnyLosses, CaseTelling, LossWords, OptionWords, Options, Request, Retelling, Telling,
    TrialWords, Which, inputs_line, losses_of, number_of_report, options_of, trial_of, unreadable,
};
use retold::{RetellFault, retell};
use runs::{Question, RunAnswer, WantedAnswer, run_with};
use std::alloc::{AllocError, Global};
use std::sync::Wait;
use std::thread::Threads;
use workers::Gate;

/// How many texts of parts are joined at most.
const MOST_TEXTS: usize = 4096;

/// The title of a report.
const TITLE: &[u8] = b"crash report 2\n";

/// The line with which the text of cases begins.
const CASES_LINE: &[u8] = b"crash cases 1\n";

/// What is shown of a log, for which no program runs.
#[derive(Clone, Copy)]
pub(crate) enum LogLook {
    /// How many crash images each cut has, and how the run is laid out in this many parts, where that is asked for.
    Images(Option<u64>),
    /// The bytes of its crash images.
    Export,
    /// Its entries as a table.
    Log,
    /// One crash image as bytes.
    Image(Which),
    /// One crash image in words.
    Show(Which),
}

/// What a command answers on what its files hold, and what is known for its notes.
#[derive(Drop)]
pub(crate) struct Acted {
    /// The bytes for standard output.
    pub(crate) bytes: Vec<u8>,
    /// The status.
    pub(crate) status: u8,
    /// What is known of the programs and the run.
    pub(crate) facts: RunFacts,
}

/// What each file of a command holds, none where it could not be read: those that it names by themselves, and the one after
/// `--base`, where that stands there. Beside them the text after `--choice`.
#[derive(Clone, Copy)]
pub(crate) struct HeldFiles<'x> {
    pub named: &'x [Option<Vec<u8>>],
    pub base: &'x Option<Option<Vec<u8>>>,
    pub choice: &'x str,
}

impl<'x> HeldFiles<'x> {
    /// What the first file holds: a log, a source text or a program.
    fn first(&self) -> Result<&'x [u8], Refusal>
        ensures { MatchResult result (λ bytes. first_held (held_by self.now) ≡ Some bytes.now)
            (λ r. (first_held (held_by self.now) ≡ None) × (r ≡ file_refusal 0)) }
    {
        match self.named {
            [Some(bytes), ..] => Ok(bytes.as_slice()),
            _ => Err(unreadable(0)),
        }
    }

    /// What the second file holds: an image, or a report.
    fn second(&self) -> Result<&'x [u8], Refusal>
        ensures { MatchResult result (λ bytes. second_held (held_by self.now) ≡ Some bytes.now)
            (λ r. (second_held (held_by self.now) ≡ None) × (r ≡ file_refusal 1)) }
    {
        match self.named {
            [_, Some(bytes), ..] => Ok(bytes.as_slice()),
            _ => Err(unreadable(1)),
        }
    }

    /// What the third file holds: lines of C, and no bytes where it isn't named.
    fn lines(&self) -> Result<&'x [u8], Refusal>
        ensures { MatchResult result (λ bytes. lines_held (held_by self.now) ≡ Some bytes.now)
            (λ r. (lines_held (held_by self.now) ≡ None) × (r ≡ file_refusal 2)) }
    {
        match self.named {
            [_, _, Some(bytes), ..] => Ok(bytes.as_slice()),
            [_, _, None, ..] => Err(unreadable(2)),
            _ => Ok(&[]),
        }
    }

    /// What the device held before entry 0: what the file after `--base` holds, and no bytes without it.
    fn initial(&self) -> Result<&'x [u8], Refusal>
        ensures { MatchResult result (λ bytes. initial_of (held_by self.now).base ≡ Some bytes.now)
            (λ r. (initial_of (held_by self.now).base ≡ None) × (r ≡ file_refusal (length (held_by self.now).named))) }
    {
        match self.base {
            None => Ok(&[]),
            Some(Some(bytes)) => Ok(bytes.as_slice()),
            Some(None) => Err(unreadable(self.named.len())),
        }
    }

    /// The log that the first file holds, over what the device held before entry 0.
    pub(crate) fn recording(&self) -> Result<Recording<'x>, Refusal>
        ensures { MatchResult result (HoldsRecording (held_by self.now)) (RefusesRecording (held_by self.now) (λ text r. ⊥)) }
    {
        let log = self.first()?;
        let initial = self.initial()?;
        Ok(Recording::of(log, initial))
    }

    /// The log as `recording` has it, and the second file's bytes: a report, or records of a program of the user's.
    pub(crate) fn given(&self) -> Result<(Recording<'x>, &'x [u8]), Refusal>
        ensures { MatchResult result (λ held. HoldsGiven (held_by self.now) held.0 held.1.now) (RefusesGiven (held_by self.now) (λ text given r. ⊥)) }
    {
        let log = self.first()?;
        let given = self.second()?;
        let initial = self.initial()?;
        Ok((Recording::of(log, initial), given))
    }
}

/// The place of the first file that cannot be read.
fn first_unreadable(files: &[Option<Vec<u8>>]) -> Option<usize>
    ensures { result ≡ position is_none files.now }
{
    files.iter().position(|file| file.is_none())
}

/// Copies of the programs, or of the texts of parts, that can be read.
fn programs_of(alloc: Global, files: &[Option<Vec<u8>>]) -> Result<Vec<Vec<u8>>, AllocError>
    ensures { IfOk result (λ programs. map (λ f. f.items) programs.items ≡ filter_map (option_map (λ f. f.items)) files.now) }
{
    let mut programs = Vec::new(alloc);
    for file in files {
        if let Some(bytes) = file {
            programs.push(bytes.as_slice().to_vec(alloc)?)?;
        }
    }
    Ok(programs)
}

/// An answer, with the status 1 where an image fails and 0 else.
pub(crate) fn answer_of(bytes: Vec<u8>, failing: bool, facts: RunFacts) -> Acted
    ensures bytes { result.bytes ≡ bytes }
    ensures status { result.status ≡ status_of failing }
    ensures facts { result.facts ≡ facts }
{
    Acted {
        bytes,
        status: if failing { 1 } else { 0 },
        facts,
    }
}

/// Explores a log, and answers what is wanted with its status: 1 where there is a failing image.
fn explore_files<G: Gate + Sync, R: Threads + Wait + Sync>(
    rt: &R,
    alloc: Global,
    gate: &G,
    question: &Question<'_>,
) -> Result<Acted, Refusal>
    ensures answers { IfOk result (λ answer. AnswersRun question.now.wanted question.now.options.now question.now.recording.now (map (λ f. f.items) question.now.programs.now) answer.bytes.items answer.status) }
    ensures knows { IfOk result (λ answer. KnowsRun question.now.wanted question.now.options.now question.now.recording.now (map (λ f. f.items) question.now.programs.now) answer.status answer.facts) }
    ensures refused { IfErr result (RefusesWanted question.now.wanted question.now.recording.now (map (λ f. f.items) question.now.programs.now) question.now.options.now) }
{
    let RunAnswer { explored, facts } = run_with(rt, alloc, gate, question)?;
    Ok(answer_of(explored.bytes, explored.failing, facts))
}

/// Explores the files of a command, of which the first is the log.
fn act_explore<G: Gate + Sync, R: Threads + Wait + Sync>(
    rt: &R,
    alloc: Global,
    gate: &G,
    wanted: WantedAnswer,
    words: OptionWords,
    files: &HeldFiles<'_>,
) -> Result<Acted, Refusal>
    ensures answers { IfOk result (λ answer. AnswersExplore wanted words (held_by files.now) answer.bytes.items answer.status) }
    ensures knows { IfOk result (λ answer. KnowsExplored wanted words (held_by files.now) answer.status answer.facts) }
    ensures refused { IfErr result (RefusesWith words (RefusesFiles wanted (held_by files.now))) }
{
    let options = options_of(words)?;
    explore_readable(rt, alloc, gate, wanted, files, &options)
}

/// The place of the first newline of a text.
fn newline_in(text: &[u8]) -> Option<usize>
    ensures { result ≡ position (λ (byte : ℕ). byte == 10) text.now }
{
    text.iter().position(|byte| *byte == b'\n')
}

/// The first line of a text, with its newline.
fn first_line(text: &[u8]) -> &[u8]
    ensures { result.now ≡ first_line text.now }
{
    match newline_in(text) {
        Some(place) => &text[..place + 1],
        None => text,
    }
}

/// A report of that many programs that says after its title of which log and options it is, by what stands after its title.
fn with_inputs(alloc: Global, log: &[u8], programs: u64, rest: &[u8]) -> Result<Vec<u8>, AllocError>
    ensures { IfOk result (λ bytes. bytes.items ≡ with_inputs log.now programs rest.now) }
{
    let inputs = inputs_line(alloc, number_of_report(log, first_line(rest)), programs)?;
    let mut out = Vec::new(alloc);
    out.extend_from_slice(TITLE)?;
    out.extend_from_slice(inputs.as_bytes())?;
    out.extend_from_slice(rest)?;
    Ok(out)
}

/// What stands after the title of a report.
fn after_title(report: &[u8]) -> &[u8]
    ensures { result.now ≡ drop title_length report.now }
{
    if report.len() < TITLE.len() {
        return &[];
    }
    &report[TITLE.len()..]
}

/// A report that says of what it is, of that of the files of a command, of which the first is the log.
fn marked(
    alloc: Global,
    files: &HeldFiles<'_>,
    log: &[u8],
    report: &[u8],
) -> Result<Vec<u8>, AllocError>
    ensures { IfOk result (λ bytes. bytes.items ≡ marked_report log.now (length (held_by files.now).named - 1) report.now) }
{
    let programs = (files.named.len() as u64).saturating_sub(1);
    with_inputs(alloc, log, programs, after_title(report))
}

/// Explores the files of a command, of which the first is the log, and says of what the report is.
#[inline(never)]
fn act_marked<G: Gate + Sync, R: Threads + Wait + Sync>(
    rt: &R,
    alloc: Global,
    gate: &G,
    words: OptionWords,
    files: &HeldFiles<'_>,
) -> Result<Acted, Refusal>
    ensures answers { IfOk result (λ answer. AnswersMarked words (held_by files.now) answer.bytes.items answer.status) }
    ensures knows { IfOk result (λ answer. KnowsExplored (wants.Told tells.Report) words (held_by files.now) answer.status answer.facts) }
    ensures refused { IfErr result (RefusesWith words (RefusesFiles (wants.Told tells.Report) (held_by files.now))) }
{
    let wanted = WantedAnswer::Told(Telling::Report);
    let options = options_of(words)?;
    let acted = explore_readable(rt, alloc, gate, wanted, files, &options)?;
    let log = files.first()?;
    match marked(alloc, files, log, acted.bytes.as_slice()) {
        Ok(bytes) => Ok(Acted {
            bytes,
            status: acted.status,
            facts: acted.facts,
        }),
        Err(_error) => Err(Refusal::of_memory()),
    }
}

/// What is wanted of any number of losses.
fn wanted_by(cured: bool, losses: AnyLosses) -> WantedAnswer
    ensures { result ≡ wanted_by cured losses }
{
    if cured {
        WantedAnswer::CuredCases(losses)
    } else {
        WantedAnswer::Cases(losses)
    }
}

/// Finds the failing cases of any number of losses in the files of a command, of which the first is the log, or where flushes are
/// missing for them.
#[inline(never)]
fn act_cases<G: Gate + Sync, R: Threads + Wait + Sync>(
    rt: &R,
    alloc: Global,
    gate: &G,
    cured: bool,
    words: OptionWords,
    losses: LossWords,
    files: &HeldFiles<'_>,
) -> Result<Acted, Refusal>
    ensures answers { IfOk result (λ answer. AnswersCases cured words losses (held_by files.now) answer.bytes.items answer.status) }
    ensures knows { IfOk result (λ answer. KnowsCases cured words losses (held_by files.now) answer.status answer.facts) }
    ensures refused { IfErr result (RefusesWith words (RefusesCases cured losses (held_by files.now))) }
{
    let options = options_of(words)?;
    let meant = losses_of(losses, &options)?;
    explore_readable(rt, alloc, gate, wanted_by(cured, meant), files, &options)
}

/// Explores files, each of which has to be readable.
fn explore_readable<G: Gate + Sync, R: Threads + Wait + Sync>(
    rt: &R,
    alloc: Global,
    gate: &G,
    wanted: WantedAnswer,
    files: &HeldFiles<'_>,
    options: &Options,
) -> Result<Acted, Refusal>
    ensures answers { IfOk result (λ answer. AnswersFiles wanted options.now (held_by files.now) answer.bytes.items answer.status) }
    ensures knows { IfOk result (λ answer. KnowsFiles wanted options.now (held_by files.now) answer.status answer.facts) }
    ensures refused { IfErr result (RefusesFiles wanted (held_by files.now) options.now) }
{
    let Some((first, others)) = files.named.split_first() else {
        return Err(unreadable(0));
    };
    let Some(log) = first else {
        return Err(unreadable(0));
    };
    if let Some(place) = first_unreadable(others) {
        return Err(unreadable(place + 1));
    }
    let initial = files.initial()?;
    let recording = Recording::of(log.as_slice(), initial);
    match programs_of(alloc, others) {
        Ok(programs) => {
            let question = Question {
                wanted,
                recording: &recording,
                programs: programs.as_slice(),
                options,
            };
            explore_files(rt, alloc, gate, &question)
        }
        Err(_error) => Err(Refusal::of_memory()),
    }
}

/// The run that the program holds itself.
fn act_stored<G: Gate + Sync, R: Threads + Wait + Sync>(
    rt: &R,
    alloc: Global,
    gate: &G,
) -> Result<Acted, Refusal>
    ensures answers { IfOk result (λ answer. AnswersRun (wants.Told tells.Report) stored_settings (recording stored_log []) stored_programs answer.bytes.items answer.status) }
    ensures knows { IfOk result (λ answer. KnowsRun (wants.Told tells.Report) stored_settings (recording stored_log []) stored_programs answer.status answer.facts) }
    ensures refused { IfErr result (λ r. (r ≡ memory_refusal) ⊎ RefusesWanted (wants.Told tells.Report) (recording stored_log []) stored_programs stored_settings r) }
{
    let options = stored_options();
    match stored_files(alloc) {
        Ok((log, programs)) => {
            let recording = Recording::of(log.as_slice(), &[]);
            let question = Question {
                wanted: WantedAnswer::Told(Telling::Report),
                recording: &recording,
                programs: programs.as_slice(),
                options: &options,
            };
            explore_files(rt, alloc, gate, &question)
        }
        Err(_error) => Err(Refusal::of_memory()),
    }
}

/// What is shown of a log.
fn shown(
    alloc: Global,
    look: LogLook,
    recording: &Recording<'_>,
    options: &Options,
) -> Result<Vec<u8>, Refusal>
    ensures shown { IfOk result (λ bytes. Shows look options.now recording.now bytes.items) }
    ensures refused { IfErr result (RefusesLook look options.now recording.now) }
{
    match look {
        LogLook::Images(parts) => survey(alloc, recording, parts, options),
        LogLook::Export => export_images(alloc, recording, options),
        LogLook::Log => shown_log(alloc, recording, options),
        LogLook::Image(which) => image(alloc, recording, which, options),
        LogLook::Show(which) => show(alloc, recording, which, options),
    }
}

/// What is shown of the log that the first file holds.
#[inline(never)]
fn act_look(
    alloc: Global,
    look: LogLook,
    words: OptionWords,
    files: &HeldFiles<'_>,
) -> Result<Acted, Refusal>
    ensures answers { IfOk result (λ answer. AnswersOf words (λ s text. Shows look s text) (held_by files.now) answer.bytes.items answer.status) }
    ensures knows { IfOk result (λ answer. IsEmpty answer.facts) }
    ensures refused { IfErr result (RefusesWith words (λ s. RefusesRecording (held_by files.now) (λ text. RefusesLook look s text))) }
{
    let options = options_of(words)?;
    let recording = files.recording()?;
    let bytes = shown(alloc, look, &recording, &options)?;
    Ok(answer_of(bytes, false, RunFacts::none()))
}

/// How an image is told.
fn form_of(in_words: bool) -> ImageForm
    ensures { result ≡ form_of in_words }
{
    if in_words {
        ImageForm::Words
    } else {
        ImageForm::Bytes
    }
}

/// The image with any number of losses that the text of a choice names, of the log that the first file holds.
#[inline(never)]
fn act_any_image(
    alloc: Global,
    words: OptionWords,
    cut: u64,
    in_words: bool,
    files: &HeldFiles<'_>,
) -> Result<Acted, Refusal>
    ensures answers { IfOk result (λ answer. AnswersAny words cut in_words (held_by files.now) answer.bytes.items answer.status) }
    ensures knows { IfOk result (λ answer. IsEmpty answer.facts) }
    ensures refused { IfErr result (RefusesWith words (RefusesAny cut (held_by files.now))) }
{
    let options = options_of(words)?;
    // No number of losses is given.
    let any = LossWords {
        any: true,
        torn: None,
        at_most: None,
        telling: CaseTelling::Cases,
    };
    let _losses = losses_of(any, &options)?;
    let recording = files.recording()?;
    let form = form_of(in_words);
    let bytes = any_image(alloc, form, &recording, cut, files.choice, &options)?;
    Ok(answer_of(bytes, false, RunFacts::none()))
}

/// The cuts at which cases are looked for, of the log that the first file holds.
#[inline(never)]
fn act_cuts(
    alloc: Global,
    words: OptionWords,
    losses: LossWords,
    parts: Option<u64>,
    files: &HeldFiles<'_>,
) -> Result<Acted, Refusal>
    ensures answers { IfOk result (λ answer. AnswersCuts words losses parts (held_by files.now) answer.bytes.items answer.status) }
    ensures knows { IfOk result (λ answer. IsEmpty answer.facts) }
    ensures refused { IfErr result (RefusesWith words (RefusesCuts losses parts (held_by files.now))) }
{
    let options = options_of(words)?;
    let meant = losses_of(losses, &options)?;
    let recording = files.recording()?;
    let bytes = survey_cuts(alloc, &recording, parts, meant, &options)?;
    Ok(answer_of(bytes, false, RunFacts::none()))
}

/// The refusal of a report, or of records, that are none, by the line at which that shows.
pub(crate) fn report_refusal_of(line: u64) -> Refusal
    ensures { result ≡ report_refusal line }
{
    Refusal {
        code: Cause::Request(RequestCause::NotReport),
        at: line,
        program: None,
    }
}

/// The refusal of a report, or of what it is to be of.
fn retold_refusal_of(fault: RetellFault) -> Refusal
    ensures { result ≡ retold_refusal fault }
{
    match fault {
        RetellFault::Refused(refusal) => refusal,
        RetellFault::Report(line) => report_refusal_of(line),
    }
}

/// What is told of the report that the second file is, of the log that the first file holds.
fn act_retold(
    alloc: Global,
    telling: Retelling,
    words: OptionWords,
    files: &HeldFiles<'_>,
) -> Result<Acted, Refusal>
    ensures answers { IfOk result (λ answer. AnswersRetold telling words (held_by files.now) answer.bytes.items answer.status) }
    ensures knows { IfOk result (λ answer. IsEmpty answer.facts) }
    ensures refused { IfErr result (RefusesWith words (RefusesReportOf (held_by files.now))) }
{
    let options = options_of(words)?;
    let (recording, report) = files.given()?;
    match retell(alloc, telling, &recording, report, &options) {
        Ok(retold) => Ok(answer_of(retold.bytes, retold.failing, RunFacts::none())),
        Err(fault) => Err(retold_refusal_of(fault)),
    }
}

/// The log that is imported of a raw log.
#[inline(never)]
fn act_import(alloc: Global, limits: Limits, files: &HeldFiles<'_>) -> Result<Acted, Refusal>
    ensures answers { IfOk result (λ answer. Answers (asks.Import limits) (held_by files.now) answer.bytes.items answer.status) }
    ensures knows { IfOk result (λ answer. IsEmpty answer.facts) }
    ensures refused { IfErr result (RefusesToAct (asks.Import limits) (held_by files.now)) }
{
    let raw = files.first()?;
    let text = import(alloc, raw, limits)?;
    Ok(answer_of(text, false, RunFacts::none()))
}

/// What the verifier says of a program, with each guarded slot or without.
#[inline(never)]
fn act_verify(
    alloc: Global,
    words: OptionWords,
    listed: bool,
    files: &HeldFiles<'_>,
) -> Result<Acted, Refusal>
    ensures answers { IfOk result (λ answer. Answers (asks.Verify words listed) (held_by files.now) answer.bytes.items answer.status) }
    ensures knows { IfOk result (λ answer. KnowsVerified words (held_by files.now) answer.facts) }
    ensures refused { IfErr result (RefusesToAct (asks.Verify words listed) (held_by files.now)) }
{
    let options = options_of(words)?;
    let code = files.first()?;
    let report = verify_program(alloc, code, &options, listed)?;
    Ok(Acted {
        bytes: report.text,
        status: 0,
        facts: RunFacts::of_program(report.unreached),
    })
}

/// What a program comes to on one image, with the status 1 where it rejects that.
#[inline(never)]
fn act_check(alloc: Global, words: TrialWords, files: &HeldFiles<'_>) -> Result<Acted, Refusal>
    ensures answers { IfOk result (λ answer. Answers (asks.Check words) (held_by files.now) answer.bytes.items answer.status) }
    ensures knows { IfOk result (λ answer. KnowsTried words (held_by files.now) answer.facts) }
    ensures refused { IfErr result (RefusesToAct (asks.Check words) (held_by files.now)) }
{
    let trial = trial_of(words)?;
    let code = files.first()?;
    let image = files.second()?;
    let lines = files.lines()?;
    let report = try_image(alloc, code, image, lines, &trial)?;
    let facts = RunFacts::of_program(report.unreached);
    Ok(answer_of(report.bytes, report.failing, facts))
}

/// The program of a source text, as bytes.
#[inline(never)]
fn act_asm(alloc: Global, files: &HeldFiles<'_>) -> Result<Acted, Refusal>
    ensures answers { IfOk result (λ answer. Answers asks.Asm (held_by files.now) answer.bytes.items answer.status) }
    ensures knows { IfOk result (λ answer. IsEmpty answer.facts) }
    ensures refused { IfErr result (RefusesToAct asks.Asm (held_by files.now)) }
{
    let source = files.first()?;
    let bytes = assemble(alloc, source)?;
    Ok(answer_of(bytes, false, RunFacts::none()))
}

/// The listing of a program.
#[inline(never)]
fn act_list(alloc: Global, numbered: bool, files: &HeldFiles<'_>) -> Result<Acted, Refusal>
    ensures answers { IfOk result (λ answer. Answers (asks.List numbered) (held_by files.now) answer.bytes.items answer.status) }
    ensures knows { IfOk result (λ answer. IsEmpty answer.facts) }
    ensures refused { IfErr result (RefusesToAct (asks.List numbered) (held_by files.now)) }
{
    let code = files.first()?;
    let text = list(alloc, code, numbered)?;
    Ok(answer_of(text, false, RunFacts::none()))
}

/// The refusal of texts that aren't joined.
fn join_refusal_of(fault: JoinFault) -> Refusal
    ensures { result ≡ join_refusal fault }
{
    Refusal {
        code: Cause::Join(fault.cause),
        at: u64::from(fault.file),
        program: None,
    }
}

/// The refusal of texts of cases that aren't joined.
fn cases_refusal_of(fault: CasesFault) -> Refusal
    ensures { result ≡ cases_refusal fault }
{
    match fault {
        CasesFault::Part(fault) => join_refusal_of(fault),
        CasesFault::TooMany(file) => Refusal {
            code: Cause::Request(RequestCause::TooManyImages),
            at: u64::from(file),
            program: None,
        },
    }
}

/// Whether the first of some texts begins as the text of cases does.
fn are_cases(texts: &[Vec<u8>]) -> bool
    requires { 0 < length texts.now }
    ensures { result ≡ are_cases (map (λ f. f.items) texts.now) }
{
    let text = texts[0].as_slice();
    let most = text.len().min(CASES_LINE.len());
    &text[..most] == CASES_LINE
}

/// What the texts come to, with the status 1 where there is a failing line: of cases where the first one begins so, and else of parts.
fn join_texts(alloc: Global, part: bool, texts: &[Vec<u8>]) -> Result<Acted, Refusal>
    requires some { 0 < length texts.now }
    requires few { length texts.now ≤ most_texts }
    ensures answers { IfOk result (λ answer. JoinsEither part (map (λ f. f.items) texts.now) answer.bytes.items answer.status) }
    ensures knows { IfOk result (λ answer. IsEmpty answer.facts) }
    ensures refused { IfErr result (RefusesTexts part (map (λ f. f.items) texts.now)) }
{
    if are_cases(texts) {
        match join_cases(alloc, part, texts) {
            Ok(joined) => Ok(answer_of(joined.bytes, joined.failing, RunFacts::none())),
            Err(fault) => Err(cases_refusal_of(fault)),
        }
    } else {
        match join(alloc, part, texts) {
            Ok(joined) => Ok(answer_of(joined.bytes, joined.failing, RunFacts::none())),
            Err(fault) => Err(join_refusal_of(fault)),
        }
    }
}

/// What the parts that the files hold come to.
#[inline(never)]
fn act_join(alloc: Global, part: bool, files: &HeldFiles<'_>) -> Result<Acted, Refusal>
    ensures answers { IfOk result (λ answer. Answers (asks.Join part) (held_by files.now) answer.bytes.items answer.status) }
    ensures knows { IfOk result (λ answer. IsEmpty answer.facts) }
    ensures refused { IfErr result (RefusesToAct (asks.Join part) (held_by files.now)) }
{
    if files.named.is_empty() {
        return Err(unreadable(0));
    }
    if files.named.len() > MOST_TEXTS {
        return Err(join_refusal_of(JoinFault {
            cause: JoinCause::TooLong,
            file: MOST_TEXTS as u32,
        }));
    }
    if let Some(place) = first_unreadable(files.named) {
        return Err(unreadable(place));
    }
    match programs_of(alloc, files.named) {
        Ok(texts) => join_texts(alloc, part, texts.as_slice()),
        Err(_error) => Err(join_refusal_of(JoinFault {
            cause: JoinCause::Memory,
            file: 0,
        })),
    }
}

/// What `act` answers, with what is known for the notes.
pub(crate) fn act_known<G: Gate + Sync, R: Threads + Wait + Sync>(
    rt: &R,
    alloc: Global,
    gate: &G,
    words: &Words,
    files: &HeldFiles<'_>,
) -> Result<Acted, Refusal>
    ensures answers { IfOk result (λ answer. Answers words.now.request (held_by files.now) answer.bytes.items answer.status) }
    ensures knows { IfOk result (λ answer. Knows words.now.request (held_by files.now) answer.status answer.facts) }
    ensures refused { IfErr result (RefusesToAct words.now.request (held_by files.now)) }
{
    match words.request() {
        Request::StoredRun => act_stored(rt, alloc, gate),
        Request::Explore(words) => {
            let wanted = WantedAnswer::Told(Telling::Report);
            act_explore(rt, alloc, gate, wanted, words, files)
        }
        Request::Marked(words) => act_marked(rt, alloc, gate, words, files),
        Request::Cases(words, losses) => { act_cases(rt, alloc, gate, false, words, losses, files) }
        Request::CureCases(words, losses) => {
            act_cases(rt, alloc, gate, true, words, losses, files)
        }
        Request::Why(words) => {
            let wanted = WantedAnswer::Told(Telling::Causes);
            act_explore(rt, alloc, gate, wanted, words, files)
        }
        Request::Cure(words) => {
            let wanted = WantedAnswer::Cured;
            act_explore(rt, alloc, gate, wanted, words, files)
        }
        Request::Page(words) => {
            let wanted = WantedAnswer::Told(Telling::Page);
            act_explore(rt, alloc, gate, wanted, words, files)
        }
        Request::Retold(words, telling) => act_retold(alloc, telling, words, files),
        Request::Known(words, known) => act_records(alloc, words, known, files),
        Request::Images(words, parts) => act_look(alloc, LogLook::Images(parts), words, files),
        Request::Cuts(words, losses, parts) => { act_cuts(alloc, words, losses, parts, files) }
        Request::Export(words) => act_look(alloc, LogLook::Export, words, files),
        Request::Log(words) => act_look(alloc, LogLook::Log, words, files),
        Request::Import(limits) => act_import(alloc, limits, files),
        Request::Image(words, which) => act_look(alloc, LogLook::Image(which), words, files),
        Request::Show(words, which) => act_look(alloc, LogLook::Show(which), words, files),
        Request::AnyImage {
            words,
            cut,
            in_words,
        } => act_any_image(alloc, words, cut, in_words, files),
        Request::Verify { words, listed } => act_verify(alloc, words, listed, files),
        Request::Check(words) => act_check(alloc, words, files),
        Request::Asm => act_asm(alloc, files),
        Request::List { numbered } => act_list(alloc, numbered, files),
        Request::Join { part } => act_join(alloc, part, files),
    }
}

/// Performs a command on what its files hold, one for each of `Words::files`, none where a file could
/// not be read, and `base` that of `Words::base`, where there is one; with no file at all the first cannot
/// be read. Answers the bytes for standard output and
/// the status: 0 where the command succeeded and no image fails, 1 where some do. An exploration waits
/// until its workers are back; `gate` is told of its blocks as by `explore_with`, and changes nothing.
///
/// # Errors
///
/// The first refusal in the order of docs/REFUSALS.md: an option, a file, then those of `explore`,
/// `survey` or `image`; those of a source text, and those of a program.
pub fn act<G: Gate + Sync, R: Threads + Wait + Sync>(
    rt: &R,
    alloc: Global,
    gate: &G,
    words: &Words,
    files: &[Option<Vec<u8>>],
    base: &Option<Option<Vec<u8>>>,
) -> Result<(Vec<u8>, u8), Refusal>
    ensures answers { IfOk result (λ answer. Answers words.now.request (files_of (λ f. f.items) files.now base.now words.now.choice) answer.0.items answer.1) }
    ensures refused { IfErr result (RefusesToAct words.now.request (files_of (λ f. f.items) files.now base.now words.now.choice)) }
{
    let held = HeldFiles {
        named: files,
        base,
        choice: words.choice(),
    };
    match act_known(rt, alloc, gate, words, &held) {
        Ok(acted) => Ok((acted.bytes, acted.status)),
        Err(refusal) => Err(refusal),
    }
}
