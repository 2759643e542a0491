//! The runs of programs on the crash images of a log: from the bytes of a log and of programs to the bytes of the report, of
//! why programs fail, or of the page that shows where.
//!
//! # Place
//!
//! Below `commands`, which performs `explore`, `why`, `page` and `cure` by `run_with`. `request` reads the log and counts its images,
//! `bpf_isa` decodes the programs, `verifier` accepts them, `workers` judges the images
//! by `checker`, `report` writes the lines and what stands at the head of each text, `losses` tells what fails of a program at
//! each cut (`why`) and which flushes are missing (`cure`), and `crash_page` writes the page. Of any number of losses `case_runs` finds
//! the failing cases, `case_text` writes them, and `case_page` their page.
//!
//! | Call | Answers |
//! |---|---|
//! | `explore_with(rt, alloc, gate, recording, programs, options)` | the report, or the text of a part, how often the cache was hit, and whether an image fails; `gate` is told of each block |
//! | `explore(rt, alloc, recording, programs, options)` | the bytes of the report |
//! | `run_with(rt, alloc, gate, question)` | by what is wanted the report; the same run told by its causes (`causes.rt`), or as a page for a browser (`paging.rt`); where flushes are missing, and what is left with them, run by run (`curing.rt`); the failing cases of any number of losses (`case_command.rt`), or a cure by these. With it what is known of the programs for the notes |
//! | `blind_programs_pass()` | a law, by a function that does nothing: what it means that a program is blind (`blind.rt`) |
//! | `any_loss_is_told()`, `told_cases_fail()` | laws: on which images that are asked for a program fails, by the text of cases |
//! | `cases_are_faultless()` | a law: no program that the verifier accepted without guards has a fault on any image of any cut |
//! | `flushes_bring_nothing()` | a law: what a log with added flushes leaves is left by the log without them |
//!
//! # What is proved
//!
//! Where `explore` answers `Ok`, its bytes are `report_bytes` of the log's failing lines
//! (`workers/specs/Failing.antt`): of all images and programs whose outcome, by the definition of the
//! machine on the definition of the image, is not a verdict with answer 0. With the option `first` they
//! are the report of the first failing image alone. A program runs within the limit
//! of steps that is asked for, or, without one, within the budget with which the verifier accepts it for
//! the device, with guards or without, as the options say; what it doesn't accept is refused (`specs/Programs.antt`). Without a
//! limit that is asked for no run has a fault or spends its budget, and no line says so (`IsFaultless` in `specs/Explore.antt`), by
//! the soundness of the verifier. With guards a run may also stray, at a slot that the program's least table guards (`IsGuarded`).
//!
//! Where the options mean a part of a run, the images of the part alone are judged, and the bytes are its text: the definition is
//! `span_report` of `report`, over the failing lines of these images and the number of the inputs (`specs/Inputs.antt`). Which images
//! are judged says `specs/Judged.antt`. Why programs fail, the page and a cure are of whole runs alone.
//!
//! Where it is asked why programs fail, `run_with` answers, of the same failing lines, which flushes are missing and what fails of each
//! program at each cut (`IsExplained` in `specs/Why.antt`); where the page is asked for, the page of it (`IsPaged`). Where it answers `Err`, the refusal is the first in the
//! order of docs/REFUSALS.md (`Refuses` in `specs/Explore.antt`): the number of programs, the log, the number of its images, then
//! each program; or memory ran out.
//!
//! Where cases are wanted, they are looked for at the cuts that `case_cuts` of `case_runs` says: at the last ones of the range and its end,
//! or at each that is wanted where not all cuts are or `--at-most` is given. The workers share the work, and how many there are changes
//! nothing of the answer. The answer has each failing case of each program, and no other (`IsCases` in `specs/Cases.antt`). The run is
//! refused at the cut with which there are more than 16,777,216 cases. With the option `first` one thread looks for them, and the answer
//! has the first of them alone, or where none fails that of all (`TellsFirst`); it is refused where none of the first 16,777,216 cases
//! fails, and there are more. `AnyLosses` says what is told of them (`IsTextOf`). The text of cases of a range of the cuts has the number
//! of the inputs (`specs/Inputs.antt`). The gate is told of each run of a program and of each case, as of a block.
//! What this means the laws say. Asked for are the choices of the wanted cuts, with as few torn parts and as few lost ones as is asked
//! (`IsAskedFor` of `case_runs`). `any_loss_is_told`: each image of such a choice on which a program fails is one of a failing case that is
//! told. Where all cuts are wanted and nothing bounds the losses these are all images of all cuts. `told_cases_fail` is the other
//! direction: a failing case that is told is one of a wanted cut, and on each of its images its program fails, and ends as the case says.
//!
//! A cure makes one run after the other, each of the log with the flushes that were missing before. What a run finds is one definition with
//! two cases (`Finds` in `specs/Cured.antt`): its failing lines, or with any number of losses its failing cases (`cured_log` in
//! `curing.rt`). Rounds, their text and the end are stated and proved once, for both. A cure by cases has all of them in each run, also with
//! the option `first`. Where a later run has more than 16,777,216 cases, that ends the text.
//!
//! What `run_with` knows for the notes is that of `specs/Finds.antt`: of each program that is verified what no run reaches. What notes say
//! of a log alone, or of a refused program, `request` finds where they are made.
//!
//! Where failing images or cases are told, `run_with` also finds which programs are blind (`specs/Blind.antt`): at each wanted cut, run on the
//! image in which nothing is lost or torn, they answer 0 and look at no sector that an entry covers. A flag of each program says it,
//! exactly. The law `blind_programs_pass` says what it means: such a program comes to the same on each image of a cut, and no
//! failing line is of it.
//!
//! A run has one program to eight, one worker to 64, and a cache of up to 65,536 outcomes. The bytes and
//! the refusals are the same for every number of workers and every size of the cache.
//!
//! # How it is proved
//!
//! - A loop that tells of rounds, of which nobody knows how many come, keeps 'with whatever is told from here on, all is told' (`LeadsOn`
//!   in `runs/specs/Trials.antt`). A round puts its part in front of what is to come, and the end hands over the last part. All facts
//!   between two rounds are one record over plain variables (`Trying` in `runs/proofs/Leading.antt`).
//! - **What is noticed is a test that computes** (`is_blind` in `specs/Blind.antt`). Then the clause is one equation, a `map` over the
//!   checkers, and a body that finds too little is refused as well as one that finds too much. It looks at no failing line: the run on
//!   the image in which nothing departs says whether a program fails, and a law leads from there to each image. So nothing hangs on
//!   `--first`, on the part, or on memory for the lines.
//! - A test that is asked again at each cut may keep what it knows, as a list of which each element passes (`is_bare_by` in `blind.rt`).
//!   The invariant is one equation with `list_all`, and where the list is full the test is made again.
//!
//! # Example
//!
//! ```
//! use runs::explore;
//!
//! // `options` are of a device of one sector and a bound of 0, the log has no entry, and `programs` is mov64 r0, 0; exit
//! let report = explore(rt, alloc, &recording, programs, &options)?;
//! // crash report 2
//! // sectors 1 entries 0 cuts all bound 0 tears no first no
//! // program 0 slots 2 limit 2
//! // images 1 failing 0 lines 0
//! ```
//!
//! # Choices
//!
//! - `hits` of `explore_with` has no clause: what lies under a lock no contract names; tests show it.
#![tactic(auto)]

mod blind;
mod case_command;
mod causes;
mod curing;
mod explore_command;
mod laws;
mod missing;
mod paging;
mod task;

pub use explore_command::{
    Explored, Question, RunAnswer, WantedAnswer, explore, explore_with, run_with,
};
pub use laws::{
    any_loss_is_told, blind_programs_pass, cases_are_faultless, flushes_bring_nothing,
    told_cases_fail,
};
