//! crashbpf, the program: from a log of block writes and checkers to the report of the crash images
//! that fail.
//!
//! A log tells what was written to a device, in order. A power cut leaves one of many crash images of
//! it (docs/CRASH-MODEL.md). A checker, a BPF program, looks at an image and answers 0 where it is
//! good. This program judges every image within the bounds that it is asked for, and reports each one
//! on which a checker answers otherwise (docs/COMMANDS.md).
//!
//! # Place
//!
//! The top. What a command answers, with which status, and when it is refused, is all decided by
//! `commands`, whose `perform` takes what the files hold and tells how the process ends. `input_files` reads
//! them. Here that is carried out: the answer is written to standard output, or a refusal's line to standard
//! error, and the status is the one that `perform` tells, or 2 where standard output takes no more. That has a line on standard error,
//! but for a pipe that nobody reads any more (`print_cut`): so a command ends quietly before `head`. Notes stand
//! on standard error in both cases, and change neither the status nor standard output; nor do the line that
//! says how far an exploration is, and the note of how large its report may get, which come before them. Want
//! of memory is a refusal wherever it is met, so the line of a refusal takes none (`refusal_line`). Where standard
//! error takes no more, nothing follows.
//!
//! # What is proved
//!
//! `run` performs the command on what was read of its files, and ends by that (`specs/Ending.antt`): with an answer of the command, all of
//! it written, and its status; or with status 2, where only the first bytes of an answer were written, or where the command is refused
//! and nothing was. `read_and_run` does so on what `Inputs::read` read for the words: of the files that they name, in their order, and
//! of the one after `--base`, within the limits that they ask for; the file of `--report` or `--known` is read as a report (`files_name`). With
//! `--sectors base` the command is performed as with the number of whole sectors of the file after `--base` (`meant`).
//!
//! A refusal has its line. Where no write to standard error failed, that line stands there, whole, and then some notes; where one failed,
//! the first bytes of both (`SaysFirst`, `Takes`). It is the line of the command's refusal, whose place is the one in the whole file
//! (`refusal_of_files`). Where the files can't be read it is the line of a refusal, and no contract says of which. An answer that is cut
//! off has the line that says why, and nothing follows (`cut_line`).
//!
//! What a file of the system holds and what the streams take no contract can say. Nor does one say what the notes are, what stands on
//! standard error beside an answer, what is printed of words that aren't taken, or how far an exploration is said to be. That is shown
//! by runs of the built program.
#![tactic(auto)]

ghost use Rattle.std.specs.Prelude.{◌≡◌, ◌<◌, [], length, take, true, false, OnOk, OnErr, IfErr};
ghost use Rattle.std.specs.Io.KnownBytes.{Appends};
ghost use Rattle.request.specs.declared.command.Request.TheVariants as asks;
ghost use Rattle.command_line.specs.Words.{limits_asked, sectors_asked};
ghost use Rattle.commands.specs.Exits.{Exits};
ghost use Rattle.request.specs.FaultLine.{fault_text};
ghost use Rattle.base.specs.Refusals.{memory_refusal};
ghost use Rattle.std.specs.Thread.{IsSync};
ghost use Rattle.input_files.specs.Reads.{AreInputs};
ghost use Rattle.input_files.specs.Standing.{refusal_of_files};
ghost use Rattle.crashbpf.specs.Ending.{held_in, files_name, meant, fault_of, cut_line, Takes, SaysFirst, SaysStopped, Ends, EndsOn};

use arrayvec::ArrayString;
use base::refusal::Refusal;
use clap::error::ErrorKind as WordsFault;
use commands::{
    Exit, OptionWords, Output, Progress, Request, RunFacts, Stopped, StreamFault, Streamed, Words,
    emit, escaped_words, lines_of_image, notes_after, notes_beside, perform, perform_export,
};
use input_files::{DeviceSize, FileSource, Inputs};
use itoa::Buffer;
use std::alloc::AllocError;
use std::io::{ErrorKind, Write};
use std::process::ExitCode;
use std::rt::Env;
use std::sync::Wait;
use std::thread::Threads;
use std::time::Clock;
use std::{env, io, thread};

/// The status of a run that was refused or could not be written.
const REFUSED: u8 = 2;

/// The line of a standard output that takes no more.
const UNWRITTEN: &str = "crashbpf: standard output can't be written\n";

/// The line of words that are no text.
const NO_TEXT: &str = "error: the command line is not UTF-8\n";

/// The line of words that are taken as they are shown, and not as they are.
const NOT_TAKEN: &str = "error: the command line has a word that is not taken\n";

/// How a command ended.
#[derive(Drop)]
struct CommandEnd<W> {
    /// The status of the process.
    status: u8,
    /// Standard output, whatever became of its writes.
    writer: W,
}

/// The line that a refusal prints (docs/REFUSALS.md, All refusals): its number, its place and, where one is at fault, the program. It is made
/// without memory, since want of memory is a refusal too.
#[tactic(auto, unfolding(request::specs::FaultLine::fault_text))]
fn refusal_line(refusal: &Refusal) -> ArrayString<64>
    ensures { result.bytes ≡ fault_text refusal.now }
{
    let mut digits = Buffer::new();
    let mut line = ArrayString::new();
    line.push_str("refused ");
    line.push_str(digits.format(refusal.code.number()));
    line.push_str(" at ");
    line.push_str(digits.format(refusal.at));
    if let Some(program) = refusal.program {
        line.push_str(" of program ");
        line.push_str(digits.format(program));
    }
    line.push_str("\n");
    line
}

/// Prints a text on standard error, and says whether it took all of it.
fn print<E: Write>(errors: &mut Output<E>, text: &str) -> bool
    requires going { errors.old.has_failed ≡ false }
    ensures said { Takes (E.contents errors.old.writer) (E.contents errors.new.writer) errors.new.has_failed text.now }
    ensures going { result ≡ true → errors.new.has_failed ≡ false }
{
    emit(errors, text.as_bytes()).is_ok()
}

/// Prints a line on standard error, if it takes it, and answers the status.
fn print_line<E: Write>(errors: &mut Output<E>, line: &str) -> u8
    requires going { errors.old.has_failed ≡ false }
    ensures said { Takes (E.contents errors.old.writer) (E.contents errors.new.writer) errors.new.has_failed line.now }
    ensures status { result ≡ 2 }
{
    print(errors, line);
    REFUSED
}

/// Prints the line of the refusal for want of memory on standard error, if it takes it, and answers the status.
fn print_memory<E: Write>(errors: &mut Output<E>) -> u8
    requires going { errors.old.has_failed ≡ false }
    ensures said { Takes (E.contents errors.old.writer) (E.contents errors.new.writer) errors.new.has_failed (fault_text memory_refusal) }
    ensures status { result ≡ 2 }
{
    print_line(errors, refusal_line(&Refusal::of_memory()).as_str())
}

/// Prints notes on standard error, and then one more. Where there was no memory for the first they are left out, and where it takes no
/// more all are.
fn print_notes<E: Write>(errors: &mut Output<E>, notes: Result<String, AllocError>, last: &str)
    requires going { errors.old.has_failed ≡ false }
    ensures { SaysFirst (Takes (E.contents errors.old.writer) (E.contents errors.new.writer) errors.new.has_failed) [] }
{
    if let Ok(notes) = notes {
        if !print(errors, notes.as_str()) {
            return;
        }
    }
    print(errors, last);
}

/// Writes an answer, and says whether all of it was written: else how many bytes were, and last whether that is since nobody reads it.
fn put_answer<W: Write>(writer: W, answer: &[u8]) -> (Result<(), u64>, W, bool)
    ensures whole { OnOk result.0 (Appends (W.contents writer) (W.contents result.1) answer.now) }
    ensures part { IfErr result.0 (λ n. (n < length answer.now) × Appends (W.contents writer) (W.contents result.1) (take n answer.now)) }
{
    let mut output = Output::new(writer);
    let written = emit(&mut output, answer);
    let is_unread = output.is_unread();
    (written, output.into_writer(), is_unread)
}

/// Performs a command on the files that were read for it.
fn perform_on<R: AllocGlobal + Eprint + Clock + Threads + Wait + Sync>(
    rt: &R,
    progress: &Progress<'_, R>,
    words: &Words,
    inputs: &Inputs,
) -> Exit
    ensures { Exits words.now.request (held_in inputs.now words.now.choice) result.output.items result.refusal result.status }
{
    let files = inputs.contents();
    perform(rt, rt.alloc(), progress, words, files, inputs.base())
}

/// Performs a command on the files that were read for it, and ends the line that says how far it is.
fn perform_to_the_end<R: AllocGlobal + Eprint + Clock + Threads + Wait + Sync>(
    rt: &R,
    progress: &Progress<'_, R>,
    words: &Words,
    inputs: &Inputs,
) -> Exit
    ensures { Exits words.now.request (held_in inputs.now words.now.choice) result.output.items result.refusal result.status }
{
    let exit = perform_on(rt, progress, words, inputs);
    progress.end();
    exit
}

/// Performs a command on the files that were read for it, while a thread of its own says how far it is.
fn perform_watched<R: AllocGlobal + Eprint + Clock + Threads + Wait + Sync>(
    rt: &R,
    progress: &Progress<'_, R>,
    words: &Words,
    inputs: &Inputs,
) -> Exit
    ensures { Exits words.now.request (held_in inputs.now words.now.choice) result.output.items result.refusal result.status }
{
    let watch = || progress.watch();
    let act = || -> Exit
        requires { IsSync R.row }
        ensures { Exits words.entry.now.request (held_in inputs.entry.now words.entry.now.choice) result.output.items result.refusal result.status }
    { perform_to_the_end(rt, progress, words, inputs) };
    // Where no thread can be made, the watch comes last, and ends at once.
    let (_watched, exit) = thread::join(rt, watch, act);
    exit
}

/// Performs a command on the files that were read for it, and says how far it is where that is asked for.
fn performed<R: AllocGlobal + Eprint + Clock + Threads + Wait + Sync>(
    rt: &R,
    words: &Words,
    inputs: &Inputs,
) -> Exit
    ensures { Exits words.now.request (held_in inputs.now words.now.choice) result.output.items result.refusal result.status }
{
    let progress = Progress::new(rt, words.progress(), lines_of_image(words));
    if words.progress() {
        perform_watched(rt, &progress, words, inputs)
    } else {
        perform_on(rt, &progress, words, inputs)
    }
}

/// Prints the line of a refusal of a command on the files that were read for it, and notes on it.
fn print_refused<R: AllocGlobal, E: Write>(
    rt: &R,
    words: &Words,
    inputs: &Inputs,
    refusal: Refusal,
    errors: &mut Output<E>,
) -> u8
    requires going { errors.old.has_failed ≡ false }
    ensures said { SaysFirst (Takes (E.contents errors.old.writer) (E.contents errors.new.writer) errors.new.has_failed) (fault_text (refusal_of_files inputs.now.lengths refusal)) }
    ensures status { result ≡ 2 }
{
    let refusal = inputs.refusal(refusal);
    if print(errors, refusal_line(&refusal).as_str()) {
        let files = inputs.contents();
        let notes = notes_after(rt.alloc(), words, files, inputs.base(), &refusal);
        print_notes(errors, notes, inputs.note(&refusal));
    }
    REFUSED
}

/// Prints the line of a refusal to read the files of a command, and notes on it.
fn print_unread<R: AllocGlobal, E: Write>(
    rt: &R,
    words: &Words,
    refusal: &Refusal,
    errors: &mut Output<E>,
) -> u8
    requires going { errors.old.has_failed ≡ false }
    ensures said { SaysFirst (Takes (E.contents errors.old.writer) (E.contents errors.new.writer) errors.new.has_failed) (fault_text refusal.now) }
    ensures status { result ≡ 2 }
{
    if print(errors, refusal_line(refusal).as_str()) {
        let notes = notes_after(rt.alloc(), words, &[], &None, refusal);
        print_notes(errors, notes, "");
    }
    REFUSED
}

/// Why standard output takes no more.
fn fault_of(is_unread: bool) -> StreamFault
    ensures { result ≡ fault_of is_unread }
{
    if is_unread {
        StreamFault::Unread
    } else {
        StreamFault::Unwritten
    }
}

/// Prints why an answer is cut off: nothing where standard output is a pipe that nobody reads any more.
fn print_cut<E: Write>(errors: &mut Output<E>, fault: StreamFault) -> u8
    requires going { errors.old.has_failed ≡ false }
    ensures said { Takes (E.contents errors.old.writer) (E.contents errors.new.writer) errors.new.has_failed (cut_line fault) }
    ensures status { result ≡ 2 }
{
    match fault {
        StreamFault::Memory => print_memory(errors),
        StreamFault::Unwritten => print_line(errors, UNWRITTEN),
        StreamFault::Unread => print_line(errors, ""),
    }
}

/// Performs a command on the files that were read for it, whose whole answer is made and then written, and ends as it says: with its
/// answer on standard output, or with the line of its refusal on standard error, and with the notes on it there.
fn run_whole<R: AllocGlobal + Eprint + Clock + Threads + Wait + Sync, W: Write, E: Write>(
    rt: &R,
    words: &Words,
    inputs: &Inputs,
    writer: W,
    errors: &mut Output<E>,
) -> CommandEnd<W>
    requires going { errors.old.has_failed ≡ false }
    ensures { Ends words.now inputs.now (W.contents writer) (W.contents result.writer) (Takes (E.contents errors.old.writer) (E.contents errors.new.writer) errors.new.has_failed) result.status }
{
    let exit = performed(rt, words, inputs);
    match exit.refusal {
        None => {
            let (written, writer, is_unread) = put_answer(writer, exit.output.as_slice());
            if written.is_err() {
                let status = print_cut(errors, fault_of(is_unread));
                return CommandEnd { status, writer };
            }
            let notes = notes_beside(rt.alloc(), words, inputs.contents(), &exit.facts);
            print_notes(errors, notes, "");
            CommandEnd {
                status: exit.status,
                writer,
            }
        }
        Some(refusal) => {
            let status = print_refused(rt, words, inputs, refusal, errors);
            CommandEnd { status, writer }
        }
    }
}

/// Performs `export` with such words on the files that were read for it, whose answer is written as it is made.
fn run_streamed<R: AllocGlobal, W: Write, E: Write>(
    rt: &R,
    words: &Words,
    asked: OptionWords,
    inputs: &Inputs,
    writer: W,
    errors: &mut Output<E>,
) -> CommandEnd<W>
    requires asked { words.now.request ≡ asks.Export asked }
    requires going { errors.old.has_failed ≡ false }
    ensures { Ends words.now inputs.now (W.contents writer) (W.contents result.writer) (Takes (E.contents errors.old.writer) (E.contents errors.new.writer) errors.new.has_failed) result.status }
{
    let files = inputs.contents();
    let choice = words.choice();
    let ended = perform_export(rt.alloc(), asked, files, inputs.base(), choice, writer);
    let Streamed { written, writer } = ended;
    match written {
        Ok(()) => {
            let facts = RunFacts::none();
            let notes = notes_beside(rt.alloc(), words, files, &facts);
            print_notes(errors, notes, "");
            CommandEnd { status: 0, writer }
        }
        Err(why) => {
            let status = print_stopped(rt, words, inputs, why, errors);
            CommandEnd { status, writer }
        }
    }
}

/// Prints why an answer isn't written, or not all of it: a refusal with its notes, or that it is cut off.
fn print_stopped<R: AllocGlobal, E: Write>(
    rt: &R,
    words: &Words,
    inputs: &Inputs,
    why: Stopped,
    errors: &mut Output<E>,
) -> u8
    requires going { errors.old.has_failed ≡ false }
    ensures said { SaysStopped inputs.now.lengths (Takes (E.contents errors.old.writer) (E.contents errors.new.writer) errors.new.has_failed) why }
    ensures status { result ≡ 2 }
{
    match why {
        Stopped::Refused(refusal) => print_refused(rt, words, inputs, refusal, errors),
        Stopped::Cut(fault) => print_cut(errors, fault),
    }
}

/// Performs a command on the files that were read for it, and ends as it says.
fn run<R: AllocGlobal + Eprint + Clock + Threads + Wait + Sync, W: Write, E: Write>(
    rt: &R,
    words: &Words,
    inputs: &Inputs,
    writer: W,
    errors: &mut Output<E>,
) -> CommandEnd<W>
    requires going { errors.old.has_failed ≡ false }
    ensures { Ends words.now inputs.now (W.contents writer) (W.contents result.writer) (Takes (E.contents errors.old.writer) (E.contents errors.new.writer) errors.new.has_failed) result.status }
{
    match words.request() {
        Request::Export(asked) => run_streamed(rt, words, asked, inputs, writer, errors),
        _ => run_whole(rt, words, inputs, writer, errors),
    }
}

/// The name by which the files of a command are read: `report` where a report, or records, stand in place of programs.
fn files_name<'a>(command: &'a str, words: &Words) -> &'a str
    ensures { result.now ≡ files_name words.now.request command.now }
{
    match words.request() {
        Request::Retold(_, _) | Request::Known(_, _) => "report",
        _ => command,
    }
}

/// Performs a command on the files that were read for it, with `--sectors base` on a device of the size that one of them has, and ends
/// as it says.
fn run_on_device<R: AllocGlobal + Eprint + Clock + Threads + Wait + Sync, W: Write, E: Write>(
    rt: &R,
    words: &mut Words,
    inputs: &Inputs,
    writer: W,
    errors: &mut Output<E>,
) -> CommandEnd<W>
    requires going { errors.old.has_failed ≡ false }
    ensures { Ends (meant words.old inputs.now) inputs.now (W.contents writer) (W.contents result.writer) (Takes (E.contents errors.old.writer) (E.contents errors.new.writer) errors.new.has_failed) result.status }
{
    words.set_size(inputs.base_sectors());
    run(rt, words, inputs, writer, errors)
}

/// Reads the files of a command, and performs it.
fn read_and_run<
    S: FileSource + AllocGlobal + Eprint + Clock + Threads + Wait + Sync,
    W: Write,
    E: Write,
>(rt: &S, command: &str, words: &mut Words, writer: W, errors: &mut Output<E>) -> CommandEnd<W>
    requires going { errors.old.has_failed ≡ false }
    ensures { EndsOn (AreInputs S.named S.File.remaining (files_name words.old.request command.now) (sectors_asked words.old.request) (limits_asked words.old.request) words.old.files words.old.base)
        words.old (W.contents writer) (W.contents result.writer) (Takes (E.contents errors.old.writer) (E.contents errors.new.writer) errors.new.has_failed) result.status }
{
    let size = DeviceSize {
        sectors: words.sectors(),
        limits: words.limits(),
    };
    match Inputs::read(
        rt,
        files_name(command, words),
        words.files(),
        words.base(),
        &size,
    ) {
        Ok(inputs) => run_on_device(rt, words, &inputs, writer, errors),
        Err(refusal) => {
            let status = print_unread(rt, words, &refusal, errors);
            CommandEnd { status, writer }
        }
    }
}

/// The words after the program's name.
fn words_of<R: Env + AllocGlobal>(rt: &R) -> io::Result<Vec<String>> {
    let mut words: Vec<String> = env::args(rt)?.collect(rt.alloc())?;
    if !words.is_empty() {
        words.remove(0);
    }
    Ok(words)
}

/// Prints what is wrong with the words, or the help that they ask for. The text is that of the words as they are shown: `clap` puts
/// words into it as they stand.
fn print_fault<R: AllocGlobal + Print + Eprint, E: Write>(
    rt: &R,
    words: &[String],
    errors: &mut Output<E>,
) -> u8
    requires going { errors.old.has_failed ≡ false }
{
    let Ok(shown) = escaped_words(rt.alloc(), words) else {
        return print_memory(errors);
    };
    match Words::of(rt.alloc(), shown.as_slice()) {
        Ok(_words) => print_line(errors, NOT_TAKEN),
        Err(fault) => print_text(rt, &fault, errors),
    }
}

/// The status after a text that was to be printed: that of the text, or 2 where it couldn't be.
fn status_after<E: Write>(errors: &mut Output<E>, printed: io::Result<()>, status: u8) -> u8
    requires going { errors.old.has_failed ≡ false }
    ensures printed { OnOk printed (result ≡ status) }
    ensures unprinted { OnErr printed (result ≡ 2) }
{
    match printed {
        Ok(()) => status,
        Err(error) => {
            let is_unread = error.kind() == ErrorKind::BrokenPipe;
            print_cut(errors, fault_of(is_unread))
        }
    }
}

/// Prints the text of a fault of the words, or of the help that they ask for.
fn print_text<R: Print + Eprint, E: Write>(
    rt: &R,
    fault: &clap::Error,
    errors: &mut Output<E>,
) -> u8
    requires going { errors.old.has_failed ≡ false }
{
    if fault.kind() == WordsFault::OutOfMemory {
        return print_memory(errors);
    }
    status_after(errors, fault.print(rt), fault.exit_code() as u8)
}

/// Performs what the command line asks for.
fn start<
    R: Env + FileSource + AllocGlobal + Print + Eprint + Clock + Threads + Wait + Sync,
    E: Write,
>(rt: &R, errors: &mut Output<E>) -> u8
    requires going { errors.old.has_failed ≡ false }
{
    let words = match words_of(rt) {
        Ok(words) => words,
        Err(error) if error.kind() == ErrorKind::InvalidData => {
            return print_line(errors, NO_TEXT);
        }
        Err(_error) => return print_memory(errors),
    };
    let command = words.first().map(|word| word.as_str()).unwrap_or("");
    match Words::of(rt.alloc(), words.as_slice()) {
        Ok(mut words) => read_and_run(rt, command, &mut words, io::writer(rt), errors).status,
        Err(fault) if fault.kind() == WordsFault::OutOfMemory => print_text(rt, &fault, errors),
        Err(_fault) => print_fault(rt, words.as_slice(), errors),
    }
}

fn main(rt: HostRuntime) -> ExitCode {
    let mut errors = Output::new(rt.stderr());
    ExitCode::from(start(&rt, &mut errors))
}
