//! What is told of a report that is given in place of programs: why they fail, as a text or as a page, and where flushes are missing.
//!
//! Who judges crash images by a program of their own has a report of it (docs/OUTPUT.md, The report of a program of yours). What `why`,
//! `page` and `cure` tell of a run, they tell of such a report too, and of one of checkers: nothing is judged for it. The report is tested against
//! the log and the options first, line by line.
//!
//! | Type or call | What it is |
//! |---|---|
//! | `retell(alloc, telling, recording, report, options)` | what is told of the report, as a `Retold`; or why nothing is, as a `Fault` |
//! | `Retelling` of `request` | what is told: why the programs fail, the page of where they do, or where flushes are missing |
//!
//! # Place
//!
//! On `request`, by which a recording is read, on `join`, which reads reports, on `losses`, which finds groups and flushes, and on
//! `crash_page`, which writes the page. It judges nothing, and knows no checker. `commands` calls it where `--report` stands.
//!
//! # What is proved
//!
//! Where `retell` answers, the bytes are a report of the log with these options, to the byte (`IsReport` of `join`), and what is told is of
//! exactly its lines (`IsRetold` in `specs/Retold.antt`): the groups of `why` are those of its failing images and outcomes at each cut, and
//! the flushes are the fewest that lie in each of their windows (`specs/Told.antt`). Where the fault is `Report`, the bytes are the report
//! of no such run, or longer than 1 GiB (`RefusesRetold`). Where its second line says of which log, options and programs it is, it has to be
//! of these, with as many programs (`IsGiven`). At which line a fault shows is tested, not proved. That of the report of checkers
//! `why` and `page` tell as of the checkers are laws of `commands`, `why_of_report_is_why` and `page_of_report_is_page`.
//!
//! # Choices
//!
//! - The head and the totals are the bytes of the report. The run that it is tested against has the same options and images, so they could
//!   be printed anew but for the programs, of which one that is given images as files has words alone.
//! - `cure` tells of the first round alone. What still fails with its flushes only the next run of the program knows, so the last line
//!   names the flushes for it. Where they are more than the 64 that `--flush` takes, it says so. All of them stand in the lines of round 1.
//! - A line is kept as its mark and a slice of the report. What departs is found again by the number of the image.
//!
//! # How it is proved
//!
//! - `Subject` carries what is known of the lines that were read: each is one of the run, and they rise. So no call repeats it.
//! - That the images of one program rise follows from the order of all lines (`proofs/Rising.antt`).
//! - The text grows part after part, and each appending function says what it appends; `why_told` and `places_told` put these together
//!   (`proofs/Tellings.antt`).
//!
//! # Example
//!
//! ```
//! use request::Retelling;
//! use retold::retell;
//!
//! // `bytes` is what crashbpf-each printed of the log of `recording`, with the same options
//! if let Ok(told) = retell(alloc, Retelling::Causes, &recording, bytes, &options) {
//!     let text = told.bytes;
//!     // crash why 2
//!     // ..
//!     // group 0.0 lost: 1 image, all answer 1 codes -, as image 4 choice 0.0:drop
//! }
//! ```
#![tactic(auto)]

mod command;
mod lines;
mod missing;
mod page;
mod places;
mod subject;
mod why;

pub use command::{MOST_OF_REPORT, RetellFault, Retold, retell};
