//! crash_page, a run as a page for a browser: the log as a row of entries with the cuts between them and the flushes that are
//! missing, and of each cut at which images fail its groups, each with the image of its example in words (docs/OUTPUT.md, The page
//! of `page`).
//!
//! # Place
//!
//! On `page_parts`, which has the row and all else that a page of cases has too, on `losses`, whose groups (`why`) it shows, on `crash_text`
//! for the text of an image, and on `images`, which forms the two images that this text compares. It judges nothing: `runs` hands it what
//! fails of checkers, and `retold` what a report says. `case_page`, which has cases in place of images, stands beside it.
//!
//! | Call | Does |
//! |---|---|
//! | `program_failures(alloc, run, failures, program, judge, images, outcomes)` | is what a page takes of a program: it fails on these images, and ends so on each |
//! | `put_page(alloc, out, about, run, programs)` | appends the page, of programs that fail on that many images at these cuts |
//!
//! # What is proved
//!
//! `put_page` appends exactly the text of its definition (`page_text` in `specs/Page.antt`) over the log, the plan and what fails
//! at each cut. What `put_page` asks of the failures that it is given holds of what `program_failures` answers: these are, of the images on
//! which a program fails, what fails at each cut and which flushes are missing (`specs/Failing.antt`).
//!
//! # How it is written
//!
//! Each call appends to the page, piece after piece, as its definition is composed. `cut` and `group` have what stands after a click on a
//! cut, `program` what is said of a program, and `failing` what a page takes of one. At most five hundred groups a program are shown.
//!
//! # Example
//!
//! ```
//! use crash_page::{PageRun, program_failures, put_page};
//! use crash_text::Numbering;
//! use epochs::{By, Cuts};
//! use losses::cure::Failure;
//! use page_parts::PageJudge;
//! use report::ProgramHead;
//!
//! // `starts` and `history` are those of `plan`, which has all cuts of `log`; the program fails on image 104 alone
//! let numbering = Numbering { plan: &plan, log: &log, cuts: Cuts::ALL, by: By::Sector, bound: 2, tears: true };
//! let run = PageRun { starts: &starts, history: &history, numbering };
//! let outcomes = Vec::from_slice(alloc, &["answer 1 codes 1"])?;
//! let judge = PageJudge::Checker(ProgramHead { slots: 39, limit: 87, verified: true, guards: None });
//! let failures = [Failure { program: 0, window: None }];
//! let program = program_failures(alloc, &run, &failures, 0, judge, &[104], outcomes)?;
//! let mut page = String::new(alloc);
//! put_page(alloc, &mut page, "disk.log", &run, &[program])?;
//! // a page with the row of the log, and after the cut of image 104 its group
//! ```
#![tactic(auto)]

mod counts;
mod cut;
mod failing;
mod group;
mod laws;
mod page;
mod program;
mod run;

pub use failing::program_failures;
pub use laws::failures_are_of_run;
pub use page::put_page;
pub use program::ProgramFailures;
pub use run::PageRun;
