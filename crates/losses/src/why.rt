//! Why a program fails: how many images of each cut, and in which groups they stand.
//!
//! A report of many failing lines doesn't tell its reader what to fix. A program that fails where one write is lost mostly
//! fails too where others are lost besides, and where it is torn mostly fails wherever it is torn. So a few groups tell all.
//!
//! # How it is written
//!
//! The images of a cut are numbered in a row, so the failing ones of a cut are found by two searches by halves. Their departures
//! are taken as numbers (`numbers_at` of `choices`), by which `fold` of `groups` finds the example of each. Then each image is
//! counted at its example (`group`), and its outcome is compared with that of the example (`same`).
#![tactic(auto)]

mod causes;
mod cut;
mod cuts;
mod group;
mod laws;
mod same;
mod text;

pub use causes::put_causes;
pub use cut::CutFailures;
pub use cuts::failures;
pub use group::FailingGroup;
pub use laws::{all_stand, each_stands_once};
