//! The failing lines of a run.
//!
//! A run judges each crash image of a log by its programs. An image on which a program does not answer
//! 0 makes a line: the number of the image and its cut, the number of the program, what the program
//! ended in, what departs as one, and the parts of the image that are not whole.
//!
//! # How it is written
//!
//! A run may have more lines than there is memory for their values: a value has room for sixteen codes
//! and three departures. So a line is printed at once, and what is kept of it is its text, byte for byte
//! what the report has of it. What else the report wants is kept beside the text: of how many images the
//! lines are, and where those of the first image end. What the lines say stands in a list of snapshots,
//! which only contracts read and which takes no room.
//!
//! A line is written apart first, in room that the part uses again for each. So want of memory in the midst
//! of it changes no text. A part gives back by `trim` what its text doesn't take, and parts are put together
//! without a copy.
//!
//! A line's text says which image and which program it is of: `reading` reads the marks of all lines back where
//! they are asked for, so nothing more is kept of a line. Its words stand between blanks, and its one newline
//! ends it (`proofs/Back.antt`). Each text is that of whole lines.
#![tactic(auto)]

mod all;
mod images;
mod line;
mod marks;
mod part;
mod reading;
mod text;

pub use all::Lines;
pub use line::Line;
pub use marks::LineMark;
pub use part::LinesPart;
pub use text::put_outcome;
