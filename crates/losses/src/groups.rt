//! Groups of the failing choices of a cut: under which smallest failing choice each stands.
//!
//! A program that fails where one write is lost mostly fails too where others are lost besides. So a few
//! of the failing choices of a cut tell all: those of which no other failing choice is a part. Where the
//! program fails wherever a write is torn, there are many of these, and they differ in how much of it is
//! torn alone. So they are folded where the same parts are lost and the same parts are torn.
//!
//! # A choice in numbers
//!
//! A departure is a part with a fate; here it is one number, its place in the order
//! of departures: 15 times the part, and then 0 where it is lost and 1 to 14 where it is torn. A choice has
//! at most three of them, rising.
#![tactic(auto)]

mod folding;
mod grouping;
mod keys;
mod laws;

pub use folding::fold;
pub use grouping::groups;
pub use laws::{group_is_smallest, stands_under_one};
