//! Records of runs of a program as a text, read and refused exactly.
//!
//! A program of the user's is run by somebody else, who writes down how it ended on each image, and at which sectors it looked:
//!
//! ```text
//! crash known 1
//! inputs 1970076140817820677
//! program 0 outside ./check {}
//! sum 5f0c
//! ran cut 2 choice - marks 0 answer 0 looked 1,0
//! ran cut 2 choice 1.0:drop marks 0 answer 0 looked 1
//! ```
//!
//! Texts are put together one after the other, with the head of each or with that of the first alone.
//!
//! | Module | Has |
//! |---|---|
//! | `looked` | the sectors at which a program looked, read from ranges |
//! | `ending` | how a program ended |
//! | `record` | a record, read from its line: its words, and whether it is one of the log |
//! | `marks` | how many marks stand before each cut |
//! | `head` | the lines of a head |
//! | `text` | a text, piece by piece |
//! | `fault` | why a text is refused |
//! | `words` | words of a text, and lines of bytes |
//!
//! | Type or call | What it is |
//! |---|---|
//! | `read_known(alloc, bytes, log, way, inputs)` | the records of a text, or the line at which it is refused |
//! | `KnownText` | the head and the records |
//! | `KnownHead` | the words of the program, and the sum that who judges made |
//! | `KnownFault`, `KnownCause` | the line, and whether it is none of a text of records (17) or another head (18) |
//!
//! # Place
//!
//! On `known`, whose `KnownRun` a record is, on `lost_text`, which reads its choice, on `cases`, which says which parts are at risk at a
//! cut, and on `report`, which takes words apart. What records tell of images isn't known here, nor what H is made of: who calls hands
//! it over, and the log without added flushes. A file of more than 1 GiB is refused before.
//!
//! # What is proved
//!
//! `read_known` answers `Ok` exactly where the bytes are a text of records of the log (`IsKnown`, `specs/Texts.antt`), and then with its
//! head and its records; there is no other head and no other records of which the bytes are a text (`IsKnownOnly`). A record is one of
//! the log (`IsRan`, `specs/Records.antt`): its cut, its choice, which gives any number of the parts at risk there a fate other than
//! whole, its marks, an end that there is, and sectors of the device, none twice. Its sets have for each part at risk the one fate that
//! becomes of it (`set_of` of `lost_text`).
//!
//! Else it answers with a line (`IsRefused`): the lines before it are those of a text, and no text goes on with it; or it isn't there
//! whole, and the text isn't complete. The cause is `Other` exactly where the line is one of a head, in its place and in its form.
//!
//! # How it is written
//!
//! The words of a line are taken apart at blanks, and printed again: where that gives other bytes, the line is none. So are ranges; the
//! text of a choice is compared in `lost_text`. Ranges are tested before their sectors are listed, so that a list is no longer than
//! the device. Of a text one head is read, and then piece by piece a head that has to be the same, or a record.
//!
//! # Example
//!
//! ```
//! use epochs::By;
//! use known_text::read_known;
//!
//! let refused_at = match read_known(alloc, bytes, &log, By::Sector, 1970076140817820677) {
//!     Ok(_known) => None, // _known.runs: the records
//!     Err(fault) => Some(fault.line),
//! };
//! ```
#![tactic(auto)]

mod ending;
mod fault;
mod head;
mod looked;
mod marks;
mod record;
mod text;
mod words;

pub use fault::{KnownCause, KnownFault};
pub use head::KnownHead;
pub use text::{KnownText, read_known};
