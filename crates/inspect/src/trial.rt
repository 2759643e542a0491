//! One run of a program on one image, told step by step.
//!
//! So a checker is tried on a good image, on one that failed, and on a real disk.
//!
//! # How it is written
//!
//! A run is made twice: `course_of` counts its steps, and `put_last` makes them again and has the lines of the last ones. So no step
//! is kept, however many lines are asked for.
#![tactic(auto)]

mod course;
mod image;
mod trace;
mod trying;

pub use trying::{TrialReport, try_image};
