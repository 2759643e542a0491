//! What records of a program of the user's tell of a log, and which images they leave open: from the bytes of a log and of a text of records to the bytes of the answer.
//!
//! Who runs a program of their own on crash images, and sees at which sectors it looks, writes records (`known_text`). By these `known`
//! finds the cases of each cut, as far as they tell. What was found is printed here:
//!
//! ```text
//! crash cases 1
//! inputs 1970076140817820677
//! sectors 4 entries 2 cuts all bound any tears no
//! program 0 outside ./check {}
//! sum 5f0c
//! cut 2 epoch 0 marks 0 program 0 case 1 answer 1 codes - choice 0.0:drop kept 1.0 free 0 flush 1..1
//! cuts 1 cases 3 failing 1 torn beyond 0 lost beyond 0 open 0 stopped 0 complete
//! ```
//!
//! docs/OUTPUT.md, 'Records of a program of yours', has the grammar.
//!
//! | Module | Has |
//! |---|---|
//! | `asked` | what is asked, and why nothing is told |
//! | `number` | the number of the log and of the options on which an image hangs, of which records are |
//! | `read` | the records of a text |
//! | `places` | at which line of the text a record stands |
//! | `search` | what the records tell |
//! | `lines`, `totals`, `text` | the text of that: its lines, its last line, and all of it |
//! | `image`, `differing`, `wanted` | an image that is wanted, in which sectors two differ, and the text of all |
//! | `blind` | whether a program looked at nothing that the log writes |
//! | `command` | all of it in order |
//!
//! | Type or call | What it is |
//! |---|---|
//! | `KnownQuestion` | a recording, the bytes of the records, what is asked of losses, where the search of a cut ends, and the options |
//! | `tell_known(alloc, question)` | the text of what the records tell, with its status; or why nothing is told, as a `KnownRunFault` |
//! | `wanted_known(alloc, question)` | the images of the representatives of open cases, in the form of `export`, numbered from 0 in the order of the search |
//!
//! # Place
//!
//! On `known` and `known_text`, on `case_text`, whose words of a case it takes, and on `request`, by which the log is read. It judges
//! nothing, and knows no checker. `commands` calls it where records stand in place of programs.
//!
//! # What is proved
//!
//! - Where `tell_known` answers, the bytes of the records are a text of records of the log, and no other (`IsKnownOnly` of `known_text`),
//!   none of which contradicts another. The answer is exactly the text of what `find_known` finds by them, at each cut at which cases are looked
//!   for (`TellsKnown`, `specs/Told.antt`). The log is searched with the flushes that are added, and the records are of the log without
//!   them.
//! - The number after `inputs` is that of the log and of the options on which an image hangs (`records_number`). Records of another number
//!   are refused.
//! - Where `wanted_known` answers, it is the same of the images that are wanted: each is the representative of an open case, and all are
//!   there, in the order of the search (`TellsWanted`, `specs/Wanted.antt`).
//! - The status is 1 where a told leaf fails; else 0 where nothing is open, left out or pending, and else 3.
//! - Where it refuses, the refusal is one of `RefusesKnown`. Two records that contradict each other are named by the lines at which they stand
//!   (`record_line`).
//!
//! # Example
//!
//! ```
//! use known::Stops;
//! use known_runs::{KnownQuestion, tell_known};
//! use request::{AnyLosses, CaseTelling};
//!
//! let question = KnownQuestion {
//!     recording: &recording,
//!     records: bytes,
//!     losses: AnyLosses { torn: 0, at_most: None, telling: CaseTelling::Cases },
//!     stops: Stops { at_failing: true, cases: None },
//!     options: &options,
//! };
//! let status = match tell_known(alloc, &question) {
//!     Ok(told) => told.status, // told.bytes: the text
//!     Err(_fault) => 2,
//! };
//! ```
#![tactic(auto)]

mod asked;
mod blind;
mod command;
mod differing;
mod image;
mod lines;
mod number;
mod places;
mod read;
mod search;
mod text;
mod totals;
mod wanted;

pub use asked::{KnownQuestion, KnownRunFault, KnownTold};
pub use command::{tell_known, wanted_known};
