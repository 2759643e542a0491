//! Callers of the public calls that only tests make.
//!
//! A `requires` that nobody can meet proves anything, so each public call that has one has a caller that is proved. Tests stand
//! outside of the proofs. Where no other crate makes a call, a function here does: it meets what the call requires, and passes on
//! its answer. Some calls that only tests make require nothing; most of them have a caller here all the same.
//!
//! | Module | Has a caller of |
//! |---|---|
//! | `checkers` | `refine` of `intervals`; `check` of `ranges`; `check_table`, `raise`, `verify` and `Table::into_states` of `verifier`; `round_trip` of `bpf_isa` and of `bpf_asm` |
//! | `judged` | `judge_block` of `workers`; of `images` a `Key`'s `program`, `epoch`, `marks` and `changed_sectors`, and `ChangedSector::number` |
//! | `events` | of `explore_core` `Jobs::new`, `Keys::of`, `run`, and of an `Explore` `next`, `least` and `pieces` |
//!
//! # Place
//!
//! On top of all crates whose calls it makes. No crate stands on it, and no program has it.
//!
//! # What is proved
//!
//! That each call is made as its `requires` ask. A law has no `requires` and does nothing, so none is called here.
//!
//! # Example
//!
//! ```
//! use callers::checkers::verified;
//!
//! let verified = verified(alloc, &program)?;      // for a device of one sector
//! let budget = verified.budget();
//! ```
#![tactic(auto)]

pub mod checkers;
pub mod events;
pub mod judged;
