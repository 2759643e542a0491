//! Texts of runs of any number of losses over ranges of cuts, read and joined (docs/OUTPUT.md, The text of cases).
//!
//! A text is read word by word, and printed again from what was read: where this gives other bytes, it is no text of cases.

mod fault;
mod front;
mod heading;
mod joining;
mod judging;
mod known;
mod line;
mod lists;
mod names;
mod opening;
mod part;
mod printing;
mod row;
mod said;
mod totals;

pub use fault::CasesFault;
pub use joining::join_cases;
