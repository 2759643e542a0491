//! The text of a choice: its departures, as the report prints them
//! (docs/OUTPUT.md, The report), printed and read back.
//!
//! # How it is written
//!
//! `reading` takes a text apart at its marks, and would take more than what is printed, as numbers with
//! zeros in front; so `read_names` prints what was read, and compares. `printing` is the printer.
#![tactic(auto)]

mod cuts;
mod printing;
mod reading;

pub use cuts::put_cuts_words;
pub use printing::{put_departures, put_fate, put_names, put_part};
pub use reading::{is_text_of, read_fate, read_names};
