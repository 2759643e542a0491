//! A model beside the product, on which no contract of the product rests: the tie between a run and its exploration as a list
//! of events.
//!
//! `explore_core` speaks of any list of jobs, and `workers` of the images and checkers of a run. Here it is
//! proved that the jobs of a run, each image that is judged with each checker, by image and then by checker, in the run's
//! blocks, are one of those lists. So all that `explore_core` says of every list of events is said of the
//! run.
//!
//! # Place
//!
//! On top of `workers` and `explore_core`. It has laws alone, and no other crate stands on it.
//!
//! # What is proved
//!
//! `jobs_of` (`specs/Jobs.antt`) are the jobs of a run in its blocks. A job names the key of its image and
//! checker, and what that ends in, by numbers. Any numbers will do that give two images with checkers one
//! number only where they have one key, and two endings one number only where both fail or neither does
//! (`AreNumbers`); an image without a key has a number of its own.
//!
//! - `runs_are_jobs`: the images never fall from job to job, and equal keys have equal outcomes; there are as
//!   many blocks of jobs as the run has; the failing jobs of a block are the lines of `part`, and all failing
//!   jobs are `failing_lines`, in their order; and whether a job fails follows from its outcome.
//! - `events_find_failing_lines`: where a list of events on these jobs has drawn all blocks and lost none, and
//!   passed over none, its pieces by block are the failing lines of the run.
//!
//! That the steps of a real run are such a list of events is no theorem: a test replays one.
//!
//! # Example
//!
//! ```text
//! image 0, checker 0    Job { image: 0, key: 0, outcome: 0, fails: false }
//! image 0, checker 1    Job { image: 0, key: 1, outcome: 1, fails: true }: a failing line of the run
//! image 1, checker 0    Job { image: 1, key: 0, outcome: 0, fails: false }: of the same key as image 0
//! ```
#![tactic(auto)]

mod laws;

pub use laws::{events_find_failing_lines, runs_are_jobs};
