//! Ranges of words: what arithmetic makes of them, what a conditional jump leaves of them, and how they
//! are joined and rounded.
//!
//! A `Range` is the words from `low` to `high`, both included; by its type it isn't empty. The rules are
//! those of docs/VERIFIER.md, Results of arithmetic on numbers and Branches.
//!
//! | Call | Answer |
//! |---|---|
//! | `result(&instr, first, second)` | the range of what an arithmetic instruction makes of words of two ranges |
//! | `refine(&instr, taken, first, second)` | the ranges of the operands of a conditional jump on one of its edges, None where no words go that way |
//! | `Range::new`, `constant`, `up_to`, `full` | a range by its ends, of one word, from 0, of all words |
//! | `Range::immediate(n)` | the second operand that the machine makes of an immediate |
//! | `x.is_constant()`, `x.contains(y)` | whether it is one word, whether it has each word of another |
//! | `x.join(y)`, `x.round()` | the least range that has both, the least one between powers of two |
//!
//! A `Bounds` says more of a number: a range of its word and one of its reading as a signed number, a
//! `SignedRange`, each cut by the other (docs/VERIFIER.md, Abstract values). The verifier says with it
//! which words a register may hold.
//!
//! | Call | Answer |
//! |---|---|
//! | `reduce(unsigned, signed)` | the bounds that two ranges make, None where one of them is left empty |
//! | `Bounds::of`, `constant`, `immediate`, `full` | the bounds of a range, of one word, of all words, whatever their readings |
//! | `result_bounds`, `refine_bounds` | `result` and `refine` for bounds; a result is None where no words are left |
//! | `b.join(c)`, `b.round()`, `b.contains(c)`, `b.is_constant()` | as those of a range, for both of its ranges |
//!
//! No call takes memory, and none refuses. `result` is asked for an arithmetic instruction and `refine`
//! for a conditional jump, which their contracts require.
//!
//! # Place
//!
//! On `bpf_isa`, whose instructions it takes, on the definitions of `machine`, whose arithmetic it covers,
//! and on `arithmetic`, which computes constants. The crate of abstract values stands on it; there a
//! register holds the bounds of a number, or a pointer.
//!
//! # What is proved
//!
//! Contracts see a range as a `Span`, a record of two numbers (`specs/Spans.antt`).
//!
//! - `result` gives exactly the table: `specs/Operators.antt` has a line for each operator, and
//!   `specs/Results.antt` the steps before it: operands of a 32-bit operation are cut, shift counts
//!   are masked, and constants are computed exactly where the table says so.
//! - `refine` gives exactly the table of `specs/Edges.antt`, and None exactly where a range would be
//!   empty.
//! - `round` and `join` are exact too, and what they answer is the nearest range of its kind
//!   (`rounding_contains`, `hull_is_least`).
//! - `results_cover`: every two words of the operands' ranges lead by the arithmetic of the machine to a
//!   word of the result's. `refinements_cover`: where two words pass the test of the machine one way,
//!   that edge is taken and its ranges have them. `immediates_agree`: an immediate's range is the word
//!   that the machine takes.
//! - `results_are_monotone`, `refinements_are_monotone`, `rounding_is_monotone`: smaller ranges have
//!   smaller results, and an edge that smaller ranges take is taken by larger ones.
//! - `results_fit`, `refinements_fit`: what comes out are ranges of words, and an edge makes none larger.
//!
//! Of the two ranges of a number contracts see a `Limits`, a record of a span and a signed span
//! (`specs/Reducing.antt`, `specs/SignedSpans.antt`). The calls are exact by the definitions in
//! `specs/Reducing.antt`, `specs/SignedResults.antt`, `specs/SignedEdges.antt` and
//! `specs/SignedRounding.antt`. Laws of them (`specs/LimitLaws.antt`):
//!
//! - `reducing_keeps`: reducing loses no word that is in both ranges, finds none empty that has one,
//!   changes nothing a second time, and makes of smaller ranges smaller ones. `reduced_agree`: ranges
//!   are reduced just where both say the same, or both have numbers of both signs.
//! - `bounds_of_results_cover`, `refined_bounds_cover`: as for ranges, words of the machine are kept. So
//!   None says that there are no words.
//! - `bounds_of_results_are_monotone`, `refined_bounds_are_monotone`, `rounding_of_bounds`: smaller
//!   bounds have smaller results. `hull_of_bounds_is_least`: a join of reduced bounds is reduced.
//! - `bounds_of_results_fit`, `refined_bounds_fit`: what comes out is reduced.
//!
//! # How it is written
//!
//! - `range`, `powers`: the type, and the powers of two next to a word.
//! - `operators`: the table, one function a line, for operands that are numbers of the width.
//! - `constants`: the exact values of constants, which the crate `arithmetic` computes for the machine too.
//! - `results`: `result`, the steps before the table.
//! - `branches`: `refine`, one function for each relation that an edge tells.
//! - `laws`: the laws, contracts of functions that do nothing.
//! - `signed_range`, `signed_powers`, `bounds`, `reducing`, `bounds_results`, `bounds_branches`,
//!   `bounds_laws`: the same for signed ranges, and for both ranges of a number.
//!
//! A range has unsigned ends only, so a signed operation is that of the table where no word is
//! negative, and else may give any number. Signed jumps, jumps in 32 bits, `jset`, and a jump that
//! compares a register with itself tell nothing of ranges. Bounds are cut by signed jumps too, and keep
//! signed ends where a move, a sum or a difference in 64 bits tells them.
//!
//! # Example
//!
//! ```
//! use bpf_isa::instr::Instr;
//! use intervals::{Range, refine, result};
//!
//! // r1 is 3 to 10, and `add` is add64 r1, 5
//! let sum = result(add, Range { low: 3, high: 10 }, Range::immediate(5));
//! // it is 8 to 15; where `jump`, jge r1, 12, .., does not jump it is 8 to 11
//! let edge = refine(jump, false, Range { low: 8, high: 15 }, Range::constant(12));
//! // before the next turn of a loop: 8 to 15
//! let rounded = Range { low: 8, high: 11 }.round();
//! ```
//!
//! # How it is proved
//!
//! - **One record of two inequalities a notion** (`IsSpan m x`, `Has x a`, `Within x t` in
//!   `intervals/specs/Spans.antt`), the bound m a variable. Then `grind (arith, nat_tests)` splits the tests of a
//!   table on both sides, and the same two words close 'covers', 'fits' and 'is monotone' of an operator. What it is
//!   to know of products, quotients and masks is bound by `let` before. `intervals/proofs/Decided.antt` has the
//!   results that a test decides (a constant, a range that stays, the full range) once for all operators.
//! - A constant of a type (`const FULL`) is pinned by no clause and seen by no plant; a function with a clause is.
//! - A definition that is a chain of `option_and_then` wants two words: `Whenever P` (holds where there is something)
//!   and `Related R` (where there is a first there is a second, related). Each has a lemma for a step and one for a
//!   map. Every law of reducing, results and edges of `Bounds` is such a chain (`intervals/proofs`).
//! - 'No word is lost' follows from monotony: the limits of one word are reduced and lie in x, so they lie in what is
//!   left (`reduced_has` in `intervals`).
//! - What the crates above ask of ranges and limits stands as closed lemmas in `intervals/proofs/CallerLemmas.antt`;
//!   the answers of the laws cite the same ones. The bounds of `cast_unsigned w64 n` want the range of n: `pos n` is
//!   n, however large.
//! - Over whole numbers with a sign `omega (arith, ints, clamps)` does `int_min` and `int_max`; state readings by
//!   cases (`natural_reading`, `negative_reading`).
#![tactic(auto)]

mod bounds;
mod bounds_branches;
pub mod bounds_laws;
mod bounds_results;
mod branches;
mod constants;
pub mod laws;
mod operators;
mod powers;
mod range;
mod reducing;
mod results;
mod signed_powers;
mod signed_range;

pub use bounds::Bounds;
pub use bounds_branches::refine_bounds;
pub use bounds_results::result_bounds;
pub use branches::refine;
pub use range::Range;
pub use reducing::reduce;
pub use results::result;
pub use signed_range::SignedRange;
