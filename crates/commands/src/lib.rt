//! The commands of crashbpf: from the words of the command line and what files hold to the bytes that a
//! command prints and its status.
//!
//! A log tells what was written to a device, in order. A power cut leaves one of many crash images of
//! it (docs/CRASH-MODEL.md). A checker, a BPF program, looks at an image and answers 0 where it is
//! good. `explore` judges every image within the bounds that it is asked for, and reports each one
//! on which a checker answers otherwise (docs/COMMANDS.md).
//!
//! # Place
//!
//! The layer below the program, which names this crate alone. Each command's answer is made by a crate below, and what the
//! program calls of them is handed on from here:
//!
//! - `request`: what a run is asked, and `Options`, tested in their order; what each command reads of a log; the line of a
//!   refusal.
//! - `command_line`: the words of the command line, and their help.
//! - `runs`: `explore_with` and `run_with`, by which `explore`, with a bound or with any number of losses, `why`, `page` and `cure` go from bytes to bytes.
//! - `inspect`: `images`, `image`, `show`, both with a bound or with any number of losses, `log`, `verify`, `asm` and `list`.
//! - `known_runs`: `explore` and `export` with records in place of programs.
//! - `notes`: the notes after a refusal and beside an answer.
//!
//! What stands here:
//!
//! - `action`: `act`, what a command answers on what its files hold, and with which status.
//! - `exit`: `perform`, which does the same and says how the process ends: its standard output, its refusal and its status,
//!   with what is known for the notes.
//! - `escaping`: the words of the command line, as a fault of it shows them.
//! - `records`: what records of a program of the user's tell, and why they are refused.
//! - `stored`: the run that the program holds itself.
//! - `laws`: that there is one answer at most to what is asked, and no refusal beside it but for memory; that workers, cache
//!   and progress change nothing of it; that `show` names each sector that differs; that each failing image stands once in what
//!   `why` says; that the parts of a run, joined, are what the run answers; that of the report of checkers `why` is told as of them.
//! - `streamed`: `perform_export`, which writes the answer of `export` as it is made. `emit` writes all of another answer to an `Output`, a
//!   writer that is asked no more once a write has failed; both come from `export`.
//! - `progress`: the gate that says on standard error how far an exploration is, and before it begins how large its report may get.
//! - `largest`: how large a report may get.
//!
//! # What is proved
//!
//! `act` answers for each command exactly the bytes that the contract of its call says, over the options that the words ask for
//! and what the files hold, with status 1 where a run found a failing image (of `cure` the first), and 0 else. Its refusals come
//! in the order of docs/REFUSALS.md: of the words, of a file that can't be read, then those of the call (`specs/Acting.antt`).
//! Without a word it explores the log and the program that it holds itself (`specs/Stored.antt`). `perform` gives the status 2
//! and an empty standard output where `act` refuses, and else `act`'s own (`specs/Exits.antt`). `perform_export` writes an answer
//! of `export`, as `act` gives it whole; or it is refused, as `act` refuses, and nothing is written; or the first bytes of an
//! answer are written, and not all (`IsWritten`, `IsStopped`).
//!
//! For what is asked and what the files hold there is at most one answer with one status, whatever the command, and an answer
//! and a refusal for another cause than memory exclude each other (`one_answer`, `answer_or_refusal`; of reports alone
//! `one_report`, `report_or_refusal`). Words that differ in the number of workers, the size of the cache and the line of
//! progress alone have the same answer (`work_changes_nothing`). `show` names each sector in which an image differs from the
//! image of its cut where nothing departs, and where it names none the two are the same (`show_names_differences`). Each image
//! on which a program fails, by the lines of the report, stands once in what `why` says (`each_image_stands_once`). The texts
//! that a run answers for its parts, which have each image of a range once, come to what it answers for that range
//! (`joined_parts_are_run`), and are refused for their length or want of memory alone (`parts_of_run_are_joined`). So `join`
//! prints of such files what `explore` prints of the whole run, with the same status (`join_is_explore`), whatever workers and
//! caches the parts were made by (`join_is_explore_by_own`). What `explore --bound any` prints of all failing cases is a text that `join`
//! reads (`cases_are_text`). Of files with what it prints of ranges of cuts that follow one another, and that together have the cuts of a
//! run, `join` prints what it prints of the whole range, with the same status (`join_is_explore_of_cases`), whatever workers made the parts
//! (`join_is_explore_of_cases_by_own`), and refuses them for their size or want of memory alone (`ranges_of_run_are_joined`). The ranges of
//! `images --bound any --parts` are such (`laid_out_ranges_are_parts`).
//!
//! `explore --known` prints exactly the text of what is found by records, and `export --known` the images that these leave open. Where the
//! records are true of a program, so is what the text says of it: it fails on each image of a failing case, and at a cut of which nothing is open,
//! left out or pending on no other. The text ends in ` complete` or ` of these cuts` exactly where that holds of each cut that was searched. Then
//! each image of any cut that was asked for on which the program fails is one of a failing case, and with ` complete` every cut was asked for.
//! With status 0 it fails on no image of any cut that was asked for (`records_tell_truth`, `specs/Records.antt`).
//!
//! Of a report that `explore` printed `why --report` prints what `why` prints of its programs, and it isn't refused as no report up to
//! 1 GiB (`why_of_report_is_why`); so does `page --report` (`page_of_report_is_page`). The failing lines of a report have no more bytes
//! than are said before the run (`reports_are_bounded`). `emit` writes all bytes, or says how many were written before the writer failed.
//! What a run reports, and what the other commands show, stands on the pages of `runs` and `inspect`.
//!
//! # How it is proved
//!
//! - Bytes in a constant against what a definition computes: one `refl` with an `unfolding` line of all that computes
//!   (`commands/proofs/OwnRun.antt`).
//! - That a program ends in words is an induction over its steps, with one record of a machine (`HoldsWords` in
//!   `commands/proofs/Holding.antt`). Each instruction is looked at by its effect alone, without its checks, but for the one of a local
//!   call, which bounds the frames. That an operator makes a word of words follows from the ranges of `intervals` over spans of one
//!   number, so no operator is opened (`Computed.antt`).
//! - `_` doesn't stand for what a definition takes apart, as the list of checks or the effect inside a step. Cure: the cases in a lemma
//!   about the effect alone (`effect_goes` in `Ending.antt`), and one lemma above it that names both.
//! - Which images are meant changes the text of a run and nothing else of it. Each such fact is a `refl` with an `unfolding` line
//!   (`run_meant`, `part_text_is` in `PartsJoined.antt`), so all parts are those of one `RunValue`.
//! - That a join has a line exactly where the run has one is told image by image (`IsQuiet` in `PartsJoined.antt`), and not along the
//!   row. So no part's place counts.
//! - That what is printed of cases is a text of cases is shown from the tree alone. The fates of a part in a leaf are some of all fates, in
//!   their order and one at least, and the parts that are lost, kept or mixed are some of those at risk. What is some of a list that
//!   rises does too (`AreSome` in `CaseFates.antt`, `CasePlaces.antt`).
//! - A run by its cuts, of which the law of `join` speaks, looks a cut up in all that was found in the ranges (`run_over` in
//!   `CaseSegments.antt`). So nothing has to be said of what two runs find at one cut.
//! - That `why --report` is `why` is shown of what is read: the report of a run is one of the log (`is_report` in `GivenRun.antt`), a report
//!   is read in one way alone, and what is told of it is told of the failing lines (`tells_causes`).
//!
//! # Example
//!
//! ```
//! use command_line::Words;
//! use commands::{OpenGate, act};
//!
//! // `args` are explore, disk.log, check.bpf, --sectors, 64, and `files` what the two files hold
//! let words = Words::of(alloc, args)?;
//! let (bytes, status) = act(rt, alloc, &OpenGate, &words, files, &None)?;
//! // bytes: the report; status: 1 where an image fails
//! ```
//!
//! # Choices
//!
//! - Where several files can't be read, 14 names the first of them in the order of the command line: that is the
//!   order in which they are named, and one refusal is enough.
//! - 14 and 13 have no ` of program P`: the place of 14 names the file; no program was decoded.
//! - At a refusal nothing is printed on standard output: what stands there is a whole report or nothing.
//! - Out of memory in `asm` and `list` has place 0, and number 72 where the part that met it has no number of its
//!   own: as in every other command.
#![tactic(auto)]

mod action;
mod escaping;
mod exit;
mod largest;
mod laws;
mod progress;
mod records;
mod stored;
mod streamed;

pub use action::act;
pub use command_line::Words;
pub use epochs::{By, CutKind, Cuts, Flushes};
pub use escaping::escaped_words;
pub use exit::{Exit, perform};
pub use export::{Output, StreamFault, emit};
pub use inspect::looks::{Stopped, choices_are_short, image, report_prints_choices, show, survey};
pub use largest::lines_of_image;
pub use laws::{
    answer_or_refusal, cases_are_text, each_image_stands_once, join_is_explore,
    join_is_explore_by_own, join_is_explore_of_cases, join_is_explore_of_cases_by_own,
    joined_parts_are_run, laid_out_ranges_are_parts, one_answer, one_report,
    page_of_report_is_page, parts_of_run_are_joined, ranges_of_run_are_joined, records_tell_truth,
    report_or_refusal, reports_are_bounded, show_names_differences, why_of_report_is_why,
    work_changes_nothing,
};
pub use notes::command_notes::notes_beside;
pub use progress::Progress;
pub use records::notes_after;
pub use request::facts::{Recording, RunFacts};
pub use request::{
    Extent, OptionPlace, OptionWords, Options, Request, Settings, Telling, Which, fault_line,
};
pub use runs::{Explored, explore, explore_with};
pub use streamed::{Streamed, perform_export};
pub use workers::{Gate, OpenGate};
