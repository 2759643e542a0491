//! What looks at one log, image or program by itself: the answers of the commands that judge no run of all images, each from bytes to
//! bytes.
//!
//! | Module | Has |
//! |---|---|
//! | `looks` | the images of a log, one or all of them as bytes or in words, a log as a table, the import of a raw log; a program verified, assembled and listed |
//! | `trial` | one run of a program on one image, told step by step |
//!
//! # Place
//!
//! Below `commands`, which performs these commands, and beside `runs`. `request` says what is asked, reads the log and counts its images,
//! `choices` and `images` find and form an image, `cases` one with any number of losses, `case_runs` says which cuts such a run explores, `report` reads and prints a choice, `crash_text` puts an image and a log into words, `export`
//! writes all images, `notes` has listings, `raw_log` imports, `bpf_isa`, `bpf_asm` and `verifier` decode, assemble, list and
//! verify a program, and `interp` makes the steps of a run.
//!
//! Of `looks`:
//!
//! | Call | Command | Answers |
//! |---|---|---|
//! | `survey(alloc, recording, parts, options)` | `images` | the number of crash images, cut by cut, and how the run is laid out in parts |
//! | `survey_cuts(alloc, recording, parts, losses, options)` | `images --bound any` | the cuts at which a run looks for cases, with what each leaves open, or how the run is laid out in parts by these cuts |
//! | `image(alloc, recording, which, options)` | `image` | the bytes of one crash image |
//! | `show(alloc, recording, which, options)` | `show` | one crash image in words |
//! | `any_image(alloc, form, recording, cut, said, options)` | both with `--bound any` | one crash image with any number of lost or torn parts, by the text of its choice |
//! | `shown_log(alloc, recording, options)` | `log` | the log as a table |
//! | `import(alloc, raw, limits)` | `import` | the log that is imported of a raw log |
//! | `verify_program(alloc, code, options, listed)` | `verify` | the budget with which a program is accepted, and with guards the guarded slots; beside the text what no run reaches of it |
//! | `assemble(alloc, source)` | `asm` | the program of a source text, as bytes |
//! | `list(alloc, code, numbered)` | `list` | the listing of a program, with its slots or without |
//!
//! Of `trial`:
//!
//! | Call | Command | Answers |
//! |---|---|---|
//! | `try_image(alloc, code, image, lines, asked)` | `check` | what the program comes to on the image, in how many steps, and the last steps in words, with their places in C; beside the text whether it rejects the image, and what no run reaches of it |
//!
//! # What is proved
//!
//! ## `looks`
//!
//! `image` answers the bytes of the image that is meant, of which there is one (`specs/Which.antt`), and `show` its text, beside
//! the image of the same cut where nothing departs (`specs/Image.antt`). What the report prints of a choice, by which an image
//! may be named, is what `show` prints of it, and no choice's text has more than 96 bytes (`report_prints_choices`,
//! `choices_are_short`). `any_image` answers the same of the choice of a cut that is printed so, of any number of parts at risk there, of
//! which there is one (`specs/AnyImage.antt`). `survey` answers the text of `specs/Survey.antt`. The parts in which it lays a run out have each image
//! once, in their order, and each can be asked for (`parts_are_even`, `specs/Layout.antt`). `survey_cuts` answers the text of
//! `specs/CutSurvey.antt`. The parts in which it lays a run out follow one another, and their runs look for cases at the cuts of the
//! whole run, each part at some of them (`cut_parts_are_run`, `specs/CutParts.antt`). `shown_log` answers the table of the log
//! (`specs/Table.antt`). `import` answers the text of `raw_log` for the largest device within the limits (`specs/Import.antt`).
//!
//! What `verify_program` answers is the budget of an accepted program, and with guards how many of its slots are guarded, and
//! which (`specs/Verifying.antt`). What `assemble` answers spells the
//! program that the source text says, and what `list` answers is the listing of the program that the bytes spell
//! (`specs/Assembly.antt`).
//!
//! Where one of them answers `Err`, the refusal is the first in the order of docs/REFUSALS.md, as these files say it, or memory
//! ran out; of a source text only that it says no program.
//!
//! ## `trial`
//!
//! Where `try_image` answers, its text says what the machine, with guards or without, comes to within the limit or the budget, and
//! how many steps that takes. Of each of the last ones it says its number, its slot, its instruction and the registers that it
//! changed, or the place at which it strayed (`specs/TrialText.antt`, `specs/Trace.antt`), all of it by the definition of the
//! machine. The place in C follows where the lines of C have one of the slot (`SourceLines.antt` of `notes`). `failing` is whether the
//! program rejects the image. It is refused for the size of the image, for bytes that aren't lines of C, for the first fault of the
//! program's bytes, for what the verifier says, or for want of memory.
//!
//! # How it is proved
//!
//! - 'This one and no other' needs no law that a text is that of one value. Where the reader says that no other names have the text, its
//!   caller answers a value with `IsOnly`, and none with `NoneIs` (`inspect/specs/Which.antt`), both over any predicate. Lemmas over
//!   `MatchOption found A B` take the arm's equation `found ≡ Some x` (`at_some`, `at_none` in `inspect/proofs/Printed.antt`).
//!
//! # Example
//!
//! ```
//! use inspect::looks::{image, survey};
//! use request::Which;
//!
//! let cuts = survey(alloc, &recording, None, &options)?;
//! // cut 0 epoch 0 marks 0 volatile 0 images 1
//! // total 1
//! let sectors = image(alloc, &recording, Which::Number(0), &options)?;
//! // the sectors of that image, one after the other
//! ```
//!
//! A run on one image:
//!
//! ```
//! use base::limits::Limits;
//! use inspect::trial::try_image;
//! use request::Trial;
//!
//! let asked = Trial { limits: Limits::Usual, epoch: 0, marks: 0, checked: None, guards: false, trace: 10 };
//! let report = try_image(alloc, bytes, &[0; 2048], &[], &asked)?;   // mov64 r0, 0; exit
//! // crash check 1
//! // sectors 4 epoch 0 marks 0
//! // program slots 2 budget 2
//! // step 1 slot 0 mov64 r0, 0; r0 0
//! // step 2 slot 1 exit
//! // steps 2
//! // answer 0 codes -
//! ```
//!
//! # More that is promised
//!
//! - **All images as a text.** `export` writes exactly the text of the images that are meant, as it is made, over any
//!   writer whose bytes are known. Where it stops on the way, the writer has the first bytes of the text and not all.
//!   It is refused before the first byte for the log or the number of its images, in their order, or for want of
//!   memory: `write_images` (`told`, `stopped`), `export_images` (`told`, `refused`).
//!
//! # Choices
//!
//! - `verify --list` prints the lines of `list --slots`: an instruction with its slot has one form on standard
//!   output, which can be looked for in the listing.
//! - A file that isn't 1 to 16,384 whole sectors, with `--large` to 33,554,432, is refused 14 at 1, as one that can't
//!   be read, before the program is decoded: as with a source that is too long. The files are tested before what they
//!   say, and the verifier has to know the size.
//! - Without `--checked` the verifier is asked, and its budget is the limit; with it the program is only decoded: a
//!   checker is tried under the rules under which it will run, and is refused as `verify` refuses it. One that isn't
//!   accepted yet is run with `--checked`, and its fault names the slot.
//! - `check` takes `--large` for its image, though it takes no log: an image has the size of its file, and a larger
//!   one is refused as before where nobody asked for it.
//! - `--epoch` and `--marks` are 0 where they aren't given, and at most 65,536: no log has more entries.
//! - Being out of memory for an image is 72 at 0: it is neither a log, nor a program, nor a source.
//! - `--trace N` tells the last N steps, and no others: what matters is mostly what led to the answer, or to the
//!   fault. All steps are those of a number that is great enough.
//! - `--trace` names a word by a sector of the largest device within the limits, whatever the image has: the
//!   addresses of sectors are the same on every device. Without `--large` each line is the one before it.
//! - A step has the registers that it changed, and not what it stored: a store names its register and its place in
//!   its own instruction, and the next load shows the bytes.
#![tactic(auto)]

pub mod looks;
pub mod trial;
