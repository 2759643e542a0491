//! The texts of parts of a run, and what they come to together; and a report that is given in place of programs.
//!
//! A run of billions of images is laid out in parts: each is judged by itself, on any machine, and makes a text
//! (docs/OUTPUT.md, The text of a part). This crate reads such texts and joins them: all of a run to its report, to the byte what one
//! run of all images would print, or where that is asked for, some in a row to the text of a greater part.
//!
//! ```text
//! crash part 1
//! part 102..154 of 823 inputs 589552134
//! sectors 4 entries 12 cuts all bound 2 tears yes first no
//! program 0 slots 39 budget 87
//! image 104 cut 4 program 0 answer 1 codes 1 choice 2.0:drop
//! images 52 failing 1 lines 1
//! ```
//!
//! | Type or call | What it is |
//! |---|---|
//! | `join(alloc, part, files)` | the report of the run of which these are the parts, or with `part` the text of their images, as a `JoinedText`; or why they aren't joined |
//! | `JoinedText` | the bytes of a text, and whether a failing line stands there |
//! | `JoinFault` | the file that is at fault, and why |
//! | `join_cases(alloc, part, files)` | the text of the run of all cuts with any number of losses, of the texts of runs of ranges of cuts that follow one another, or with `part` the text of the cuts that they have; or why they aren't joined, as a `CasesFault` |
//! | `read_report(alloc, run, bytes, line)` | what a report of that run says, as a `Given`; none where the bytes are the report of no such run |
//! | `ReportRun` | the run of which a report is to be: the line of its options, and its images by number |
//! | `Given`, `GivenLine` | what is read of a report, and of each of its failing lines: its mark, and what the program ended in |
//! | `join_is_run`, `parts_are_joined`, `join_is_cases`, `cases_are_joined` | laws, as functions that do nothing |
//!
//! # Place
//!
//! On `report`, whose definitions say what is printed, and which reads a choice; and on `case_text` for texts of cases. What a log is, or a
//! program, isn't known here, and neither is how images are judged: a run is its head, a number of its inputs, and for each image its
//! failing lines (`RunValue` in `specs/Text.antt`).
//!
//! # What is proved
//!
//! Where `join` answers `Ok`, each file is the text of a part to the byte (`IsPart`), all are of one run, in a row each begins where the
//! one before it ends, and the bytes are those of all lines in that order, with their totals. Without `part` the first begins at image 0
//! and the last ends at the number of all images (`IsJoin` in `specs/Joining.antt`). Where it answers `Err`, the fault is the first in the
//! order of docs/COMMANDS.md (`RefusesJoin`), or there was no memory. More than 1 GiB is never joined, and is refused before a text is read
//! (the clauses `short` and `first`). Any bytes are taken.
//!
//! Where `join_cases` answers `Ok`, each file is a text of cases by the rules of docs/OUTPUT.md, to the byte (`IsCasesText` in
//! `specs/CaseTexts.antt`), and can be read in no other way; all say the same of their run but for the range, and have the same number of
//! its inputs; ordered by their first cuts each begins right after the one before it ends; they have at most 16,777,216 cases; without
//! `part` they have all cuts of the log; and the bytes are the head over the whole range, which isn't told where it has all cuts, nor is
//! the number of the inputs; all lines in that order, and the sums of the totals (`AreJoinedCases` in `specs/CaseJoining.antt`). Where it
//! answers `Err`, the fault is the first in the order of its page (`RefusesCases`), or there was no memory. The law `join_is_cases`: texts
//! of ranges of one run that follow one another, and that together have the cuts of the whole range, come to what the run of the whole
//! range prints, and where these are all cuts, the run that was asked for no range. The law `cases_are_joined`: such texts are refused for
//! their length, for want of memory, or where the run of the whole range has more cases than a run may have; without `part` where these are
//! all cuts (`specs/CaseLaws.antt`).
//!
//! `read_report` answers something exactly where the bytes are a report of the run (`IsReport` in `specs/Given.antt`): the line of the
//! options to the byte; checkers, or one program that is given images as files; lines of images of the run, by image and then by program,
//! each once, with the cut and the choice that its image has; and a last line that counts them. What is read can be read in no other way
//! (`IsReportRead`). Else no report of the run has these bytes (`NoReport`). At which line that shows isn't proved.
//!
//! The laws are about whole runs (`specs/Laws.antt`). Where the texts are those of parts of one run by the definition of the report, and
//! each image from A to below B is in one of them and no other image is in any, then what they come to is the text of the images from A
//! to below B by that definition, and of all images the report. Such texts are refused for their length or for want of memory alone;
//! without `part` where these are all images of the run.
//!
//! # How it is written
//!
//! A text is read from the front, and each piece is compared to the byte with what is printed of what was read; so no other text is taken
//! for that of a part. Lines are read one after the other and not kept: of each its image and its program are looked at, and counted. What
//! is printed in the end are the very bytes of the files.
//!
//! `words` cuts texts, and reads words and numbers. `span` reads the first two lines. `heading` finds the end of the head, and compares it
//! with what `report` prints of what `options` and `programs` read there. `line` and `ending` read a failing line, `tally` counts lines,
//! `reading` reads all lines of a part, and `part` a whole text. `given` reads a report as a whole, by the same words: since images are
//! numbered, a line is printed again with the cut and the choice of its image, and compared. `row` puts parts into their order, and
//! `joining` joins them. Files are borrowed: what is kept of one are slices of its bytes. `case_parts` has the same for texts of cases, with
//! modules of the same names: there a line is read as a whole (`said`), judged (`judging`), printed again (`printing`) and compared, as its
//! parts at risk may be any number.
//!
//! # How it is proved
//!
//! - A reader of words needs to say only what it finds where the text is a printed one (`ReadsHead`). The comparison after it settles the
//!   rest, and what it finds of other texts has no clause.
//! - What a line may say beside its head is a test that computes (`has_program_and_cut`, `are_names_of_run`), over the head that was read
//!   before the lines. A head that is printed alike has the same answers (`line_moved`), so the law needs no second reading of the head.
//! - A line of the report that changes is read in `ending` and `line`, and in `read_failing` of `tests/parts_model.py`, which is written
//!   from the documents.
//!
//! # Example
//!
//! ```
//! use base::causes::JoinCause;
//! use join::{JoinFault, join};
//!
//! // `bytes` is the text above
//! let mut parts = Vec::new(alloc);
//! parts.push(bytes.to_vec(alloc)?)?;
//! if let Ok(joined) = join(alloc, true, parts.as_slice()) {
//!     // one part alone is joined to its own text: `joined.bytes` is `bytes`, and `joined.failing` is true
//!     let is_same = joined.failing && joined.bytes.as_slice() == bytes;
//! }
//! if let Err(JoinFault { cause: JoinCause::Gap, file }) = join(alloc, false, parts.as_slice()) {
//!     // `file` is 0: images of the run are missing before it
//! }
//! parts.push(bytes.to_vec(alloc)?)?;
//! if let Err(JoinFault { cause: JoinCause::Overlap, file }) = join(alloc, true, parts.as_slice()) {
//!     // `file` is 1: its images are in the file before it too
//! }
//! ```
//!
//! # Choices
//!
//! - Where the last part is missing, 63 names a file after all others, and where the first is, the first file by
//!   images: its sentence says that images are missing between the file and the part before it. At the last file that
//!   would be read as a gap before this one.
//! - What is missing at the ends is told after what is missing between parts, and with `--first` too: `join` and
//!   `join --part` have one order, and a missing part is told whatever the others hold.
//! - A file that doesn't begin with the first line of a part is read and counted to its 13th byte: it is no part, and
//!   a wrong file of gigabytes is told at once. It is refused 61 in the order of the files, after 65, as a short one
//!   is.
//! - `join` tells 14 and 65 file by file, in the order of the files: what comes first is known without reading the
//!   files after it.
#![tactic(auto)]

mod case_parts;
mod ending;
mod fault;
mod given;
mod heading;
mod joining;
mod laws;
mod line;
mod options;
mod part;
mod programs;
mod reading;
mod row;
mod span;
mod tally;
mod words;

pub use case_parts::{CasesFault, join_cases};
pub use fault::JoinFault;
pub use given::{Given, GivenLine, ReportRun, read_report};
pub use joining::{JoinedText, join};
pub use laws::{cases_are_joined, join_is_cases, join_is_run, parts_are_joined};
