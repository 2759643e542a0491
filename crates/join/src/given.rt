//! A report that is given in place of programs, read and tested (docs/OUTPUT.md, The report, The report of a program of yours).
//!
//! The images of a run are numbered, so the number of a line's image says which cut and choice it has. A line is read by its words, and
//! printed again with the cut and the choice of its image: where this gives other bytes, the text is no report of the run.

mod judges;
mod lines;
mod outcome;
mod run;
mod told;
mod whole;

pub use run::ReportRun;
pub use told::GivenLine;
pub use whole::{Given, read_report};
