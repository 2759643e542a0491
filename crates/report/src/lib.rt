//! The report of a run: the bytes that it prints.
//!
//! A run judges each crash image of a log by its programs. An image on which a program does not answer
//! 0 makes a line. The report is a text of ASCII lines (docs/OUTPUT.md):
//!
//! ```text
//! crash report 2
//! sectors 4 entries 1 cuts all bound 1 tears yes first no
//! program 0 slots 11 limit 9
//! image 3 cut 1 program 0 answer 1 codes - choice 0.0:head1
//! images 10 failing 1 lines 1
//! ```
//!
//! | Module | Has |
//! |---|---|
//! | `choice_text` | the text of a choice: its departures, as the report prints them, printed and read back |
//! | `lines` | failing lines: what they say, and their text, in which they are kept; of which image and program each is |
//! | `head`, `writer` | what stands before the lines, and the bytes of all |
//! | `printed` | words of a text that was printed, taken apart again |
//! | `span` | a part of a run: which images of which run a text is of |
//!
//! | Type or call | What it is |
//! |---|---|
//! | `Head`, `ProgramHead` | what stands before the lines, and the number of images |
//! | `write_report(alloc, head, lines)` | the bytes of the report |
//! | `write_part(alloc, head, span, lines)` | the bytes of a part of a run |
//! | `Span`, `put_span(out, span)` | which images of which run a text is of, and the two lines that say so |
//! | `put_options(out, head)`, `put_totals(out, images, lines)` | append its options and programs, and its last line |
//! | `put_device`, `put_given`, `put_programs`, `put_image` | append what these are made of, for texts that have it too |
//! | `put_steps(out, program)` | appends of a program the most steps of a run, and how many slots are guarded |
//!
//! Of `choice_text`:
//!
//! | Call | Does |
//! |---|---|
//! | `put_departures(out, by, departures)` | appends the departures of a choice |
//! | `put_names(out, by, names)` | appends the same of their names |
//! | `put_part`, `put_fate` | append a part, and what became of it |
//! | `read_names(alloc, by, text)` | the names of which a text is |
//! | `read_fate(word)` | what became of a part, by its word |
//! | `is_text_of(alloc, by, names, text)` | whether names are printed to a text |
//! | `put_cuts_words(out, cuts)` | appends the flushes that were added to a log, and the range of the wanted cuts, as the report prints them |
//!
//! Of `lines`:
//!
//! | Type | What it is |
//! |---|---|
//! | `Line` | one image with one program on which it fails |
//! | `LinesPart` | lines in a row, as they are printed |
//! | `Lines` | lines in their order, made of parts |
//! | `LineMark` | of which image and which program a line is |
//!
//! # Place
//!
//! On `choices`, whose departures and names it prints, on `epochs`, which says what a part is and whose kinds of cut the head names,
//! and on `interp`, whose `Outcome` a failing line holds. `workers` makes the lines, and `commands` the head; `losses` and `join` read
//! lines back, and what tells of an image takes the text of its choice. By sector a departure is printed with the place of its sector
//! in the entry, by write with the entry alone. Which images fail is not known here.
//!
//! # What is proved
//!
//! `write_report` gives exactly `report_bytes` of what head and lines say (`specs/Report.antt`,
//! `specs/Text.antt`), byte by byte, where the lines stand in the order of their images; its one error
//! is want of memory. Where the first failing image alone was asked for, these are its lines, and then a
//! last line with its number, or with `none`. `put_options` and `put_totals` append exactly their parts of it,
//! for texts that begin and end as the report does.
//!
//! `write_part` gives exactly `span_report` (`specs/Part.antt`): the lines that say of which images of which run it is, the same
//! options and programs, and the lines of these images with their totals.
//!
//! ## `choice_text`
//!
//! `put_departures` appends the text of the departures' names (`departures_text`). `read_names` answers
//! names of which the text is exactly the given one, digit for digit, and none where no one to three names,
//! and no empty list of them, are printed so; there are no other names with the same text. So whatever is
//! printed of a choice is read back to its names, and anything else is refused.
//!
//! Whether a choice with these names is one of a cut is the question of `choices::choice_named`.
//!
//! ## `lines`
//!
//! Contracts see `LinesPart` and `Lines` as a list of `FailingLine`, what the lines say (`specs/Line.antt`):
//! `LinesPart::push` adds to its end, and keeps the lines where memory is wanting; `followed_by` puts a part
//! after all lines so far. `put` appends exactly `line_text` of each line (`specs/LineText.antt`), and where
//! the lines are in the order of their images, `put_first` that of the lines of the first image, and
//! `image_count` counts their images. `marks` answers the mark of each line, in their order.
//!
//! # How it is written
//!
//! Each part of the head is appended to one string by a function of its own, which says what it appended.
//! Lines are kept as they are printed, and of how many images they are is known with them; so `write_report`
//! makes room for all bytes once, and appends the texts of the lines one after the other.
//!
//! # Example
//!
//! ```
//! use report::write_report;
//!
//! let bytes = write_report(alloc, &head, &lines)?;
//! // the text above, of one failing line
//! ```
//!
//! The text of a choice:
//!
//! ```
//! use epochs::By;
//! use report::choice_text::{put_departures, read_names};
//!
//! let names = read_names(alloc, By::Sector, "17.0:drop,18.1:head3")?;
//! // two names, where the text is one
//! let mut out = String::new(alloc);
//! put_departures(&mut out, By::Sector, choice.departures())?;
//! // the text of a choice, as one of these
//! ```
//!
//! ```text
//! 17.0:drop,18.1:head3   sector 0 of entry 17 never arrived, of sector 1 of entry 18 the first three eighths
//! 17:drop                by write: nothing of entry 17 arrived
//! -                      nothing departed
//! ```
//!
//! Failing lines:
//!
//! ```
//! use arrayvec::ArrayVec;
//! use epochs::By;
//! use interp::{Outcome, Verdict};
//! use report::lines::{Line, Lines, LinesPart};
//!
//! // `choice` is 0.0:head1 at cut 1
//! let line = Line {
//!     image: 3,
//!     cut: 1,
//!     program: 0,
//!     outcome: Outcome::Verdict(Verdict { answer: 1, codes: ArrayVec::new() }),
//!     by: By::Sector,
//!     departures: choice.departures_owned(),
//! };
//! let mut part = LinesPart::new(alloc);
//! part.push(line)?;
//! let lines = Lines::new(alloc).followed_by(part)?;
//! let count = lines.len();        // 1
//! let mut out = Vec::new(alloc);
//! lines.put(&mut out)?;           // image 3 cut 1 program 0 answer 1 codes - choice 0.0:head1
//! ```
//!
//! # Choices
//!
//! - Where contracts compare a value that has a `Vec`, the field is a type of ours that contracts see as a list
//!   (`Bytes`, `Lines`): clauses can then say `≡` of the whole value.
//! - A line of the report is taken to have 528 bytes: none has more, with 16 codes and three parts, and each number
//!   as long as it can be. How long they are hangs on what the programs answer.
//!
//! # How it is proved
//!
//! - 'Some of a list, in order' by recursion on the whole list (`AreSomeOf`), and 'the pieces of a block' as a filter
//!   with counts as its lengths, make each step two lines.
//! - Let a function that writes answer exactly for the lines that it was given, and lead to the definition's lines by
//!   one lemma in the caller (`report_of_found` in `runs/proofs/Findings.antt`).
//! - **What is kept as text is still a list of values to contracts**: `Vec<Snapshot<Line>>` takes no room for its
//!   elements, and an invariant ties the bytes to what it says (`IsPart` in `report`). For 'unchanged where memory is
//!   wanting' write the text apart, `reserve` one list, append, push.
#![tactic(auto)]

pub mod choice_text;
mod head;
pub mod lines;
pub mod printed;
mod span;
mod writer;

pub use head::{Head, ProgramHead};
pub use span::{Span, put_span};
pub use writer::{
    put_device, put_given, put_image, put_options, put_programs, put_steps, put_totals,
    word_of_cuts, write_part, write_report, yes_or_no_word,
};
