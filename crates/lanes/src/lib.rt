//! The sector kernels: loops over sectors of 512 bytes, written by `std::simd`.
//!
//! A device is a row of sectors, and a sector is 512 bytes. What goes over each byte of a sector is
//! done here, a vector of 64 bytes at a time, so that no code above loops over single bytes:
//!
//! | Call | Answer |
//! |---|---|
//! | `same(a, b)` | whether the two sectors hold the same bytes |
//! | `is_zero(a)` | whether each byte is 0, as in a sector that nothing has written |
//! | `mix(a)` | a number of 64 bits that depends on each word of the sector |
//! | `splice(new, old, pieces)` | a torn sector: the first `pieces` times 64 bytes are new, the rest old |
//!
//! # Place
//!
//! The lowest layer. It stands on nothing but `std`. The answers of the helpers `zero`, `same` and
//! `mix` of the machine are these calls at a device's sectors (docs/MACHINE.md), and images are
//! made and compared by `splice` and `same` (docs/CRASH-MODEL.md). Nothing here knows of a device,
//! a log or a program.
//!
//! No call takes memory, and none refuses. The one `requires` is that `splice` is asked for at
//! most 8 pieces, since a sector has no more.
//!
//! # What is proved
//!
//! Each call gives exactly what its plain definition in `specs/Sector.antt` says, for each sector:
//!
//! - `same` is true exactly where the two lists of bytes are equal.
//! - `is_zero` is true exactly where the sector `IsZero`: each byte is 0.
//! - `mix` is the number `mix` of the sector. It is defined over the 64 little-endian words of a
//!   sector, eight rows of eight. The eight words of a column are the coefficients of a polynomial
//!   at 1,000,003, and the eight columns those of a polynomial at 16,777,619, the first always the
//!   highest. The mix is its value modulo 2^64. The definition cuts nothing off before the end,
//!   where the code wraps at each step. `worked_mixes` is the law that the definition has the five
//!   values that docs/MACHINE.md works out.
//! - `splice` is `take (64 * pieces)` of the new sector, followed by `drop (64 * pieces)` of the
//!   old one.
//!
//! # How it is written
//!
//! A kernel goes over the eight rows of 64 bytes of a sector, each row one vector (`rows`), with
//! no copy of the sector but the one that `splice` gives back. `same` and `is_zero` (`compare`)
//! end at the first row that settles the answer. `mix` (`mixing`) keeps eight sums in the eight
//! lanes of a vector of words. Speed is measured by the program `bench`, and is no part of any
//! contract.
//!
//! # Example
//!
//! ```
//! use lanes::{is_zero, mix, same, splice};
//!
//! let old = [0; 512];
//! let mut new = [0; 512];
//! new[504] = 1; // word 63, the last
//! let torn = splice(&new, &old, 7); // the last 64 bytes did not reach the device
//! // is_zero(&torn) and same(&torn, &old) are true, mix(&new) is 1 and mix(&torn) is 0
//! ```
//!
//! # Choices
//!
//! - `mix` is defined as the value of two polynomials, cut off modulo 2^64 at the end: the definition then doesn't
//!   repeat the loop, which wraps at each step.
//!
//! # How it is proved
//!
//! - The length of a vector is free: `c.fits-x.0`. Where a function answers lanes, say the length and each lane in
//!   one record (`HasLanes`), since nothing else knows the length.
//! - One test of lanes serves `same` and `is_zero`: the second compares with `splat(0)`. Both are
//!   `simd_ne(..).to_bitmask() == 0`, whose lemma is `mask_tells`.
//! - Keep a load of a slice in a function of its own (`load_row`), against an `unfoldable` definition (`row_of`).
//!   Else each goal prints and computes 64 bytes.
//! - Worked values by `refl`, with an `unfolding` line, compute over lists of 512 elements in about 3 seconds
//!   (`lanes/proofs/mixing/worked_mixes`).
//! - A vector of bytes read as words is `digits_l` of `number_l`: `words_of_row` says once that these are the words
//!   of the definition.
//! - A crate above that wants a test in place of an equation takes it from `lanes/proofs/CallerLemmas.antt`
//!   (`same_test`, `zero_test`).
#![tactic(auto)]

mod compare;
mod mixing;
mod rows;
mod splicing;

pub use compare::{is_zero, same};
pub use mixing::{mix, worked_mixes};
pub use splicing::splice;
