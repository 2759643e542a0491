//! What a checker can ask of a crash image: its device, its context, and the helpers.
//!
//! A checker judges one crash image. It sees the image as a device of sectors of 512 bytes, through
//! the trait `Device`, and it is told three numbers, the `Context`: how many sectors the device has,
//! in which epoch the cut lies, and how many marks were passed before it. More it asks by calling
//! one of seven helpers (docs/MACHINE.md, Helpers):
//!
//! | Helper | Answers |
//! |---|---|
//! | `sector` | where a sector stands in the memory of the program, or 0 |
//! | `copy` | bytes of the device, written into a window, and whether one was past its end |
//! | `again` | whether a call is made again, up to a limit |
//! | `report` | whether a code is kept |
//! | `zero` | whether a sector is all zeros |
//! | `mix` | a number of a sector |
//! | `same` | whether two sectors hold the same bytes |
//!
//! `sector`, `zero`, `mix`, `same` and the checksums of bytes of the device are a `Query`: they answer a number of the device and
//! of up to three numbers, look at no sectors but those that these numbers name, and change nothing. What stands of each is in
//! `specs/Queries.antt`. Definitions and proofs of other crates speak of any query, so that a new one touches this crate alone.
//!
//! A program with guards may ask for checksums too (docs/MACHINE.md, Checksums), by the numbers 8 to 11, which are no `Helper`:
//! `Checksum::of` knows them. 8 and 9 are queries, and 10 and 11 are of bytes that the program has.
//!
//! # Place
//!
//! The crate stands low, on the words of `base`, the kernels of `lanes` and `checksums`. The machine runs a checker
//! over any `Device`, the verifier reasons about any, and a view of a crash image is one. What each
//! helper answers is defined once, in `specs/Answers.antt`, over a device as its list of sectors; the
//! machine's definition cites it. `again` and `report` depend on the run alone: their definitions stand here, and
//! how a call of `again` is counted. A run keeps the counts and the codes.
//!
//! # What is proved
//!
//! - Of a `Device`: `sectors` is the length of its list, `sector(n)` lends the n-th sector and is
//!   none exactly past the end, and every sector has 512 bytes. What an implementation keeps in
//!   memory is its own matter.
//! - `answer` of `answers` gives exactly the defined answer of a query, for each device and each number, on it or past it.
//!   It hangs on the query's arguments alone, and on the sectors at which the query looks (`proofs/Queries.antt`).
//! - `copy` leaves in its window exactly the defined bytes, zeros past the device, and gives the
//!   defined answer. Positions do not wrap. A window has at most 512 bytes.
//! - `Helper::of` knows the numbers 1 to 7 and no other, `Checksum::of` 8 to 11, and `Helper::asked` all of these. An answer is
//!   what `Helper::answer` says that it may be.
//! - `sums::of_device` gives exactly the checksum of that many bytes of the device, zeros past it, and `sums::of_bytes` that of
//!   bytes.
//! - `Filled` is a device in which each byte is the same, as one that nothing has written.
//! - `count_again` counts exactly the call at its place, while it was counted less often than the limit, and gives the defined
//!   answer of `again`.
//! - A `Footprint` keeps the sectors at which a run looked, each once, in the order in which it first did, up to its room;
//!   where they are more it keeps none (`noted` in `specs/Footprint.antt`).
//!
//! No call takes memory, and none refuses.
//!
//! # Example
//!
//! ```
//! use helpers::{Filled, answers};
//!
//! let device = Filled::new(4, 0);
//! // answers::zero(&device, 3) is 1, answers::zero(&device, 4) is 2
//! ```
//!
//! # Choices
//!
//! - Helpers 3 (`again`) and 4 (`report`) change what the machine holds, and no device is asked. So the code of `report`
//!   stands in `plain` and in `interp`, by the definition here.
//!
//! # How it is proved
//!
//! - Bytes that are lent or owned: an enum, a definition by its cases (`bytes_of`), and `unfolding` of it on the few
//!   methods that look inside. A number that is worked out once (the mix of a sector) is an invariant of the Model,
//!   which every method has.
#![tactic(auto)]

pub mod answers;
pub mod copying;
mod counts;
mod device;
mod filled;
mod footprint;
mod helper;
pub mod sums;

pub use counts::count_again;
pub use device::{Context, Device};
pub use filled::Filled;
pub use footprint::Footprint;
pub use helper::{Answer, Arity, Helper, Query};
pub use sums::Checksum;
