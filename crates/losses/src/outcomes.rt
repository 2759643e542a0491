//! What programs end in on the images on which they fail, read back from failing lines.
//!
//! A run keeps its failing lines as they are printed. Whoever compares what a program ends in on two images, or says it again, takes
//! it from there: `answer 1 codes -`, `fault 81 slot 0` or `out of steps`.
//!
//! # How it is written
//!
//! A line is read by its words up to its program. What the program ended in stands from there to ` choice `, and its words have no
//! `h`, so the first `h` is that of ` choice `. Nothing is copied: an outcome is a part of the text.
#![tactic(auto)]

mod reading;
mod text;

pub use reading::outcomes_of;
pub use text::printed_text;
