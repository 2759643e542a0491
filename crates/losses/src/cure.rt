//! Flushes that take failing images away, round by round, and what is said of them.
//!
//! A run of a log finds failing lines. Each is a failure: an image, and a program that fails on it. Its window says where a flush
//! would take the image away (`flushes`). A round adds the flushes that are missing, so that each window holds one. Then the log
//! is run again, since what a flush leaves may fail in another way.
//!
//! # The text
//!
//! A line each, in this order:
//!
//! 1. `crash cure 1`.
//! 2. The second line of the report and those of its programs, of the first run.
//! 3. For each program `program P failing F uncured U`: of the first run, on how many images it fails, and how many of these
//!    have no window.
//! 4. Where the first run has a failure without a window, `no flush cures ` and the failing line of the first one, as the
//!    report prints it.
//! 5. For each flush of each round, `round N flush before E from A failing G`: N from 1, E the place that was picked, A the
//!    first entry before which the flush may stand, G how many failures of that round's run are counted there.
//! 6. The last line of the report of the last run; or, where that has too many images, `refused 12 at K`, K the cut.
//!
//! # How it is written
//!
//! The lines of a run are kept as they are printed. So the line that is named is found among them by its newlines (`printed`).
#![tactic(auto)]

mod adding;
mod failure;
mod failures;
mod printed;
mod text;

pub use adding::{Added, add_missing};
pub use failure::Failure;
pub use failures::{failures_of, missing_of, windows_of};
pub use printed::uncured_line;
pub use text::{put_begin, put_flushes, put_programs, put_refused, put_round};
