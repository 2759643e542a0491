//! A text of records, read line by line.

ghost use Rattle.std.specs.Prelude.{ℕ, ◌≡◌, ◌≢◌, ◌⊎◌, ◌+◌, ◌<◌, ◌≤◌, ◌^◌, ◌++◌, ◌∷◌, [], IfErr, IfOk, List, MatchOption, length, map, option_map, string_bytes};
ghost use Rattle.std.specs.Fmt.{decimal};
ghost use Rattle.known_text.specs.declared.fault.KnownCause.TheVariants as causes;
ghost use Rattle.known_text.specs.Records.{ran_of};
ghost use Rattle.known_text.specs.Reading.{AreMarks};
ghost use Rattle.known_text.specs.Texts.{IsHead, IsKnownOnly, IsRefused, ended, title};
ghost use Rattle.known_text.specs.Pieces.{AnyProgramFault, FirstFault, HasFirst, HasHead, HasProgram, HasAll, HeadFault, PieceFault, PiecesFault, ProgramFault, PushFault, PushesRan, RanAt, RanFault, Steps, head_said};

use crate::fault::{KnownFault, MEMORY, unread};
use crate::head::{HeadLine, KnownHead, any_word, own_word};
use crate::marks::marks_of;
use crate::record::record_said;
use crate::words::{beyond, first_line};
use epochs::By;
use known::KnownRun;
use logfmt::Log;
use std::alloc::{AllocError, Global};
use std::str;

/// How many records a text may have.
const MOST_RECORDS: usize = 1_048_576;

/// A text of records.
#[derive(Drop)]
pub struct KnownText<'t> {
    /// Its head; none where the text is empty.
    pub head: Option<KnownHead<'t>>,
    /// Its records, in their order.
    pub runs: Vec<KnownRun>,
}

/// What stands after a title, if bytes begin with one.
fn beyond_title<'t>(bytes: &'t [u8]) -> Option<&'t [u8]>
    ensures { MatchOption result ((rest : List ℕ) → bytes.now ≢ ended title ++ rest) (λ rest. bytes.now ≡ ended title ++ rest.now) }
{
    beyond("crash known 1\n", bytes)
}

/// What stands after the lines of the program and of the sum of a head, if these stand there, the first at a line of that number.
#[tactic(auto, using(crate::proofs::Headed::sum_there, crate::proofs::Headed::sum_other, crate::proofs::Headed::program_other))]
fn beyond_program<'t>(
    alloc: Global,
    head: &KnownHead<'_>,
    bytes: &'t [u8],
    line: u32,
) -> Result<&'t [u8], KnownFault>
    requires head { IsHead (head_said head.now) }
    requires line { line + 1 < 2 ^ 32 }
    ensures rest { IfOk result (λ rest. HasProgram (head_said head.now) bytes.now rest.now) }
    ensures refused { IfErr result (λ f. ProgramFault (head_said head.now) bytes.now line f) }
{
    match own_word(alloc, HeadLine::Program, head.words, bytes, line) {
        Ok(rest) => match own_word(alloc, HeadLine::Sum, head.sum, rest, line + 1) {
            Ok(last) => Ok(last),
            Err(fault) => Err(fault),
        },
        Err(fault) => Err(fault),
    }
}

/// What stands after the lines of a head after its title, if these stand there, the first at a line of that number.
#[tactic(auto, using(crate::proofs::Headed::head_there, crate::proofs::Headed::rest_other, crate::proofs::Headed::inputs_other, crate::proofs::Headed::inputs_form))]
fn beyond_head<'t>(
    alloc: Global,
    inputs: u64,
    digits: &[u8],
    head: &KnownHead<'_>,
    bytes: &'t [u8],
    line: u32,
) -> Result<&'t [u8], KnownFault>
    requires digits { digits.now ≡ decimal inputs }
    requires head { IsHead (head_said head.now) }
    requires line { line + 2 < 2 ^ 32 }
    ensures rest { IfOk result (λ rest. HasHead inputs (head_said head.now) bytes.now rest.now) }
    ensures refused { IfErr result (λ f. HeadFault inputs (head_said head.now) bytes.now line f) }
{
    let _inputs = inputs;
    match own_word(alloc, HeadLine::Inputs, digits, bytes, line) {
        Ok(rest) => match beyond_program(alloc, head, rest, line + 1) {
            Ok(last) => Ok(last),
            Err(fault) => Err(fault),
        },
        Err(fault) => Err(fault),
    }
}

/// The words of a program and the sum of the first head, and what stands after them.
#[tactic(auto, using(crate::proofs::Headed::any_there, crate::proofs::Headed::any_sum_other, crate::proofs::Headed::any_program_other))]
fn first_program<'t>(
    alloc: Global,
    bytes: &'t [u8],
) -> Result<(KnownHead<'t>, &'t [u8]), KnownFault>
    ensures head { IfOk result (λ x. HasProgram (head_said x.0) bytes.now x.1.now) }
    ensures refused { IfErr result (λ f. AnyProgramFault bytes.now f) }
{
    match any_word(alloc, HeadLine::Program, bytes, 3) {
        Ok((words, rest)) => match any_word(alloc, HeadLine::Sum, rest, 4) {
            Ok((sum, last)) => Ok((KnownHead { words, sum }, last)),
            Err(fault) => Err(fault),
        },
        Err(fault) => Err(fault),
    }
}

/// The first head, and what stands after it.
#[tactic(auto, using(crate::proofs::Headed::first_there, crate::proofs::Headed::first_rest_other, crate::proofs::Headed::first_inputs_other, crate::proofs::Headed::first_title_other, crate::proofs::Headed::inputs_form))]
fn first_head<'t>(
    alloc: Global,
    inputs: u64,
    digits: &[u8],
    bytes: &'t [u8],
) -> Result<(KnownHead<'t>, &'t [u8]), KnownFault>
    requires digits { digits.now ≡ decimal inputs }
    ensures head { IfOk result (λ x. HasFirst inputs (head_said x.0) bytes.now x.1.now) }
    ensures refused { IfErr result (λ f. FirstFault inputs bytes.now f) }
{
    let _inputs = inputs;
    let Some(after) = beyond_title(bytes) else {
        return Err(unread(1));
    };
    match own_word(alloc, HeadLine::Inputs, digits, after, 2) {
        Ok(rest) => match first_program(alloc, rest) {
            Ok(found) => Ok(found),
            Err(fault) => Err(fault),
        },
        Err(fault) => Err(fault),
    }
}

/// The record that stands at the line of that number, and what stands after it.
#[tactic(auto, using(crate::proofs::Pieced::ran_cut_off, crate::proofs::Pieced::ran_no_text, crate::proofs::Pieced::ran_other, crate::proofs::Pieced::ran_there))]
fn record_at<'t>(
    alloc: Global,
    log: &Log<'_>,
    way: By,
    marks: &[u32],
    bytes: &'t [u8],
    line: u32,
) -> Result<(KnownRun, &'t [u8]), KnownFault>
    requires { AreMarks log.now.entries marks.now }
    ensures run { IfOk result (λ x. RanAt log.now way bytes.now (ran_of x.0) x.1.now) }
    ensures refused { IfErr result (λ f. RanFault log.now way bytes.now line f) }
{
    let _sectors = log.sectors();
    let Some((said, rest)) = first_line(bytes) else {
        return Err(unread(line));
    };
    let Ok(text) = str::from_utf8(said) else {
        return Err(unread(line));
    };
    match record_said(alloc, log, way, marks, text) {
        Ok(Some(run)) => Ok((run, rest)),
        Ok(None) => Err(unread(line)),
        Err(_error) => Err(MEMORY),
    }
}

/// Appends the record that stands at the line of that number, where there is room for one more, and answers what stands after it.
#[tactic(auto, using(crate::proofs::Pieced::too_many, crate::proofs::Pieced::run_pushed, crate::proofs::Pieced::no_run))]
fn push_record<'t>(
    alloc: Global,
    log: &Log<'_>,
    way: By,
    marks: &[u32],
    runs: &mut Vec<KnownRun>,
    bytes: &'t [u8],
    line: u32,
) -> Result<&'t [u8], KnownFault>
    requires { AreMarks log.now.entries marks.now }
    ensures run { IfOk result (λ rest. PushesRan log.now way bytes.now (map ran_of runs.old.items) (map ran_of runs.new.items) rest.now) }
    ensures refused { IfErr result (λ f. PushFault log.now way bytes.now line (length runs.old.items) f) }
{
    if runs.len() >= MOST_RECORDS {
        return Err(unread(line));
    }
    match record_at(alloc, log, way, marks, bytes, line) {
        Ok((run, rest)) => match runs.push(run) {
            Ok(()) => Ok(rest),
            Err(_failed) => Err(MEMORY),
        },
        Err(fault) => Err(fault),
    }
}

/// Takes the head or the record with which bytes begin, at the line of that number, and answers what stands after it, and the number of the next line.
#[tactic(auto, using(crate::proofs::Pieced::head_taken, crate::proofs::Pieced::head_fault, crate::proofs::Pieced::run_taken, crate::proofs::Pieced::run_fault))]
fn next_piece<'t>(
    alloc: Global,
    log: &Log<'_>,
    way: By,
    marks: &[u32],
    inputs: u64,
    digits: &[u8],
    head: &KnownHead<'_>,
    runs: &mut Vec<KnownRun>,
    bytes: &'t [u8],
    line: u32,
) -> Result<(&'t [u8], u32), KnownFault>
    requires marks { AreMarks log.now.entries marks.now }
    requires digits { digits.now ≡ decimal inputs }
    requires head { IsHead (head_said head.now) }
    requires line { line + 4 < 2 ^ 32 }
    requires few { length runs.old.items ≤ 1048576 }
    ensures piece { IfOk result (λ x. Steps (record { log = log.now; way = way; inputs = inputs }) (head_said head.now) bytes.now line (map ran_of runs.old.items) (map ran_of runs.new.items) x.0.now x.1) }
    ensures refused { IfErr result (λ f. PieceFault (record { log = log.now; way = way; inputs = inputs }) (head_said head.now) bytes.now line (length runs.old.items) f) }
{
    match beyond_title(bytes) {
        Some(after) => match beyond_head(alloc, inputs, digits, head, after, line + 1) {
            Ok(rest) => Ok((rest, line + 4)),
            Err(fault) => Err(fault),
        },
        None => match push_record(alloc, log, way, marks, runs, bytes, line) {
            Ok(rest) => Ok((rest, line + 1)),
            Err(fault) => Err(fault),
        },
    }
}

/// The records after the first head.
#[tactic(auto, using(crate::proofs::Gotten::got_none, crate::proofs::Gotten::got_more, crate::proofs::Gotten::got_all, crate::proofs::Gotten::got_fault))]
fn records_of(
    alloc: Global,
    log: &Log<'_>,
    way: By,
    marks: &[u32],
    inputs: u64,
    digits: &[u8],
    head: &KnownHead<'_>,
    bytes: &[u8],
) -> Result<Vec<KnownRun>, KnownFault>
    requires marks { AreMarks log.now.entries marks.now }
    requires digits { digits.now ≡ decimal inputs }
    requires head { IsHead (head_said head.now) }
    requires short { length bytes.now ≤ 2 ^ 30 }
    ensures runs { IfOk result (λ runs. HasAll (record { log = log.now; way = way; inputs = inputs }) (head_said head.now) bytes.now (map ran_of runs.items)) }
    ensures refused { IfErr result (λ f. PiecesFault (record { log = log.now; way = way; inputs = inputs }) (head_said head.now) bytes.now f) }
{
    let mut runs = Vec::new(alloc);
    let mut rest = bytes;
    let mut line: u32 = 5;
    while !rest.is_empty() {
        match next_piece(
            alloc, log, way, marks, inputs, digits, head, &mut runs, rest, line,
        ) {
            Ok((more, next)) => {
                rest = more;
                line = next;
            }
            Err(fault) => return Err(fault),
        }
    }
    Ok(runs)
}

/// The digits of a number.
fn digits_of(alloc: Global, number: u64) -> Result<String, AllocError>
    ensures { IfOk result (λ out. string_bytes out ≡ decimal number) }
{
    let mut out = String::new(alloc);
    write!(out, "{number}")?;
    Ok(out)
}

/// A text of records that isn't empty.
#[tactic(auto, using(crate::proofs::Refused::known_only, crate::proofs::Refused::refused_first, crate::proofs::Refused::refused_later))]
fn some_known<'t>(
    alloc: Global,
    bytes: &'t [u8],
    log: &Log<'_>,
    way: By,
    inputs: u64,
) -> Result<KnownText<'t>, KnownFault>
    requires some { bytes.now ≢ [] }
    requires short { length bytes.now ≤ 2 ^ 30 }
    ensures known { IfOk result (λ known. IsKnownOnly (record { log = log.now; way = way; inputs = inputs }) bytes.now (option_map head_said known.head) (map ran_of known.runs.items)) }
    ensures refused { IfErr result (λ f. (f.cause ≡ causes.Memory) ⊎ IsRefused (record { log = log.now; way = way; inputs = inputs }) bytes.now f) }
{
    let _sectors = log.sectors();
    let Ok(marks) = marks_of(alloc, log.entries()) else {
        return Err(MEMORY);
    };
    let Ok(digits) = digits_of(alloc, inputs) else {
        return Err(MEMORY);
    };
    match first_head(alloc, inputs, digits.as_bytes(), bytes) {
        Ok((head, rest)) => match records_of(
            alloc,
            log,
            way,
            marks.as_slice(),
            inputs,
            digits.as_bytes(),
            &head,
            rest,
        ) {
            Ok(runs) => Ok(KnownText {
                head: Some(head),
                runs,
            }),
            Err(fault) => Err(fault),
        },
        Err(fault) => Err(fault),
    }
}

/// The records of a program of a log, by the bytes of their text, of at most 1 GiB: of a log without flushes that are added, of what departs as one, and of
/// the number H that it has (docs/OUTPUT.md, Records of a program of yours).
///
/// # Errors
///
/// The first line that doesn't go on as a text of records of the log does, or that isn't there; or want of memory.
#[tactic(auto, using(crate::proofs::Refused::empty_known))]
pub fn read_known<'t>(
    alloc: Global,
    bytes: &'t [u8],
    log: &Log<'_>,
    way: By,
    inputs: u64,
) -> Result<KnownText<'t>, KnownFault>
    requires { length bytes.now ≤ 2 ^ 30 }
    ensures known { IfOk result (λ known. IsKnownOnly (record { log = log.now; way = way; inputs = inputs }) bytes.now (option_map head_said known.head) (map ran_of known.runs.items)) }
    ensures refused { IfErr result (λ f. (f.cause ≡ causes.Memory) ⊎ IsRefused (record { log = log.now; way = way; inputs = inputs }) bytes.now f) }
{
    if bytes.is_empty() {
        let _sectors = log.sectors();
        return Ok(KnownText {
            head: None,
            runs: Vec::new(alloc),
        });
    }
    some_known(alloc, bytes, log, way, inputs)
}
