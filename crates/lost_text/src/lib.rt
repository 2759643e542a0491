//! The text of a choice of any number of the parts at risk, read back.
//!
//! ```text
//! 17.0:drop,18.1:head3   sector 0 of entry 17 never arrived, of sector 1 of entry 18 the first three eighths
//! 17:drop                by write: nothing of entry 17 arrived
//! -                      each part is whole
//! ```
//!
//! | Module | Has |
//! |---|---|
//! | `names` | the names of which a text is, however many |
//! | `lost` | what becomes of each part at risk at a cut, by a text |
//!
//! | Type or call | What it is |
//! |---|---|
//! | `Lost` | of each part at risk the set of the one fate that becomes of it, and what is lost and torn of them |
//! | `lost_said(alloc, at, by, tears, said)` | that of a text, where it is the text of a choice at the cut |
//!
//! # Place
//!
//! On `report`, which prints and reads up to three names, and on `cases`, which says which parts are at risk and what a set of fates is.
//! `known_text` reads the choice of a record here.
//!
//! # What is proved
//!
//! `lost_said` answers exactly where a choice at the cut is printed so, with tears or without (`IsSaid`, `specs/Said.antt`): any number of the
//! parts at risk isn't whole. No other choice loses and tears something else and is printed so (`IsLostSo`). Of each part its set has the
//! one fate that becomes of it (`set_of`, `specs/Lost.antt`), and what is lost and torn is what the representative of these sets loses and tears.
//! Where no choice is printed so it answers none.
//!
//! # How it is written
//!
//! A text is taken apart at its commas, each word is read as the one name that it says, and all are printed again and compared. The parts at
//! risk and the names stand in one order, so one walk over the parts gives each its fate; where a name is left, the text is of no choice.
//!
//! # Example
//!
//! ```
//! use cases::Cut;
//! use epochs::By;
//! use lost_text::lost_said;
//!
//! let at = Cut::new(alloc, &log, By::Sector, 2)?;
//! let sets = match lost_said(alloc, &at, By::Sector, true, "1.0:drop")? {
//!     Some(lost) => lost.sets, // whole of part 0, and the drop of part 1
//!     None => Vec::new(alloc), // no choice there is printed so
//! };
//! ```
#![tactic(auto)]

mod lost;
mod names;

pub use lost::{Lost, lost_said};
