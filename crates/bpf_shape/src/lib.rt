//! The shape of BPF programs: control edges, the rules about them, the longest path and the budget
//! (docs/VERIFIER.md, Control edges to Budget).
//!
//! `shape` looks at a program before anything is said of its values. It answers a `Shape`, which has
//! the budget, that is how many steps a run takes at most, and the heads, at which the verifier rounds
//! its states. Or it refuses the program with the first of the shape rules that is broken, and the
//! lowest slot that breaks it.
//!
//! # Place
//!
//! On `bpf_isa`, from which it takes programs, and `base`. The verifier stands on it: it takes shapes
//! and control edges from here, and its refusals are of the same type, `Fault`. Nothing here looks at
//! registers' values, memory or the machine.
//!
//! # What is proved
//!
//! A contract sees a program as the list of its slots. The definitions are in `specs/`:
//!
//! - `Edges`: `control program slot`, where control goes from a slot: to the next slot, to the target of
//!   a jump, to both or nowhere. `Calls`: `callee program slot`, the entry of a local call.
//! - `Again`: calls of helper 3 with their K, the again edge of a slot, `plain`, which is the edges
//!   without it, heads, and `turns`, the sum of all K.
//! - `Paths`: walks along edges as lists of slots, what is reached, what lies on a cycle, paths.
//! - `Chains`: which local call is within which, chains of them, the last of four, recursion.
//! - `Weights`: `IsLongest program weight entry n`: some path that begins at a slot reached from the entry
//!   weighs n, and no such path weighs more. `AreWeights program depth weight`: a slot weighs 1, a local call
//!   one more than the longest path of its entry, where calls are followed that many deep.
//! - `Budget`: `IsBudget` is one more than all K, times the longest path of slot 0 with calls followed three
//!   deep. In a program of right shape no more are to be followed (law `deeper_is_the_same`).
//! - `Rules`: which slot `Breaks` which rule, with guards or without, their `order`, and `FirstBroken`.
//! - `Shape`: `IsShapeOf`: each rule holds, and these are the budget and the heads.
//!
//! The contract of `shape`, in words: an answer is the shape of the program, so each rule holds; a
//! refusal, want of memory aside, is the first broken rule in their order at the lowest slot that breaks
//! it. A program has at most one of each and never both (`laws`), so the answer is determined. Paths are
//! stated over all lists of slots. That the code finds the longest one follows from an equation that the
//! lengths meet: each is the weight of its slot and the greatest of those after its edges.
//!
//! Further laws say what the layers above rest on: a control edge of a program of right shape leads to an
//! instruction, and so does a local call; an edge is the again edge or a plain one; no local call is within
//! itself, and none is the last of four from slot 0; and how each call of `again` is enclosed.
//!
//! # How it is written
//!
//! - `edges`, `calls`, `again`: the edges of a slot, by its instruction and the one before, and the entry of
//!   a local call.
//! - `rules`: the rules that look at one slot, each tested over all slots.
//! - `lengths`: sweeps from the highest slot to the lowest give each slot the weight of its longest path,
//!   once those after it are known. Where control mostly goes on to higher slots, few sweeps do; at most
//!   there is one for each slot. A slot that gets no length leads to a cycle.
//! - `search`: which slots are reached, by marks and a list of slots that wait. It tells the slots reached
//!   from an entry, and for a slot without a length whether it is on a cycle itself.
//! - `depth`: rule 44. What is reached in the third function of a chain from slot 0 takes four searches.
//!   Whether a local call is within itself takes one for each, along control edges and into functions.
//! - `weights`: three rounds, each of which follows local calls one deeper: it weighs them by the lengths
//!   before, with one search for each entry, and makes the lengths anew. A program without local calls needs
//!   no round. With n slots, c local calls and e entries all this takes at most about (c + 3 e + 12) * n steps
//!   beside the sweeps.
//! - `shaping`: `shape`. `value`: `Shape`. `fault`: `Fault`, why and where the verifier refuses a
//!   program, by the causes of `base`.
//!
//! # Example
//!
//! ```
//! use bpf_shape::{control, shape};
//!
//! // `program` is mov64 r1, 2; call 3; jeq r0, 0, +1; ja -4; exit
//! let found = shape(alloc, &program, false)?;
//! let budget = found.budget();        // 15: one more than K = 2, times the 5 slots of the path 3, 0, 1, 2, 4
//! let head = found.is_head(3);        // true: the again edge leads from slot 2 to slot 3
//! let edges = control(&program, 2);   // Edges { next: Some(3), target: Some(4) }
//! // `other` is mov64 r0, 0; ja -2
//! let fault = shape(alloc, &other, false).err();     // a loop without again, slot 0
//! ```
//!
//! # More that is promised
//!
//! - **Shape.** Where Ok, every shape rule holds, and the budget is that of VERIFIER.md. Else it is the first broken
//!   rule with its lowest slot, or memory ran out: `one_fault`, `no_fault_in_shaped`, `calls_are_nested`.
//!
//! # Choices
//!
//! - That an instruction has a next slot (41) is tested as 'an instruction begins at its next slot': in a program the
//!   two are the same, since no second half stands after an instruction of one slot; and the second is what the
//!   layers above use.
//!
//! # How it is proved
//!
//! - Longest paths need no order of search. Values that meet 'one more than the greatest after my edges' are the
//!   longest paths, both ways, and a slot that gets no value leads to a cycle (`bpf_shape/proofs/Longest.antt`).
//! - Weights that depend on longest paths, which depend on weights: a relation by depth over weights as functions on
//!   slots (`AreWeights program (suc depth) weight` has the weights of one less, `inner`). Then uniqueness, the
//!   code's rounds and the end of runs are each an induction on the depth, and a law says from which depth on nothing
//!   changes. A list that the code keeps is such a function by `get_or weights slot 1`.
//! - What is reached through calls is a walk along one more edge for each call (`entering`), so one search serves it.
//!   A search that begins at any set of slots has the predicate of its starts as a parameter (`AreMarks next n starts
//!   marks`). The loop itself is stated for the slots that were marked at its begin (`spread`).
#![tactic(auto)]

mod again;
mod calls;
mod depth;
mod edges;
mod fault;
pub mod laws;
mod lengths;
mod rules;
mod search;
mod shaping;
mod value;
mod weights;

pub use calls::{callee, callee_of};
pub use edges::{Edges, control, edges_of};
pub use fault::Fault;
pub use shaping::{MOST_STEPS, shape};
pub use value::Shape;
