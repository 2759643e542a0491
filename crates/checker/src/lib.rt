//! A checker: a program that judges crash images, with the way in which it is run.
//!
//! A program that the verifier accepted for a size of devices is run without checks, for at most as many steps
//! as its budget says. One that it accepted with guards is run so too, but that the places of its guarded slots are tested.
//! One that no verifier was asked about is run with every check, for at most as many steps as its limit says.
//!
//! # Place
//!
//! Above both ways of running a program, `interp` with every check and `plain` without any, above `verifier`, whose
//! accepted programs it runs, and above `soundness`, which proves that they meet no fault, stray at guarded slots alone, and
//! end within their budgets. Below `verdict_cache` and `workers`, which judge images. Nothing else stands on `plain`, or on both the
//! machines and the verifier, so none of them has to wait for another.
//!
//! # What is proved
//!
//! What `judge` answers is the `outcome` of `machine` within the checker's limit or budget, by whichever of the two
//! runs; of a verified one it is a verdict. With guards it is the `guarded_outcome`, a verdict or a stray at a guarded slot.
//! A `Checker` that says that it was verified holds a program that the verifier accepts for that size of devices, with that
//! budget, and where that was with guards, which slots its least table guards (`IsChecker` in `specs/Checker.antt`). So of a
//! verified checker `judge` asks for an image of a device of the size for which it was verified (`Suits`), and tests nothing.
//!
//! `judge_noted` answers the same, and in so much room the footprint of the run, the sectors at which it looked
//! (docs/MACHINE.md, Footprint): what a `Footprint` keeps of the `footprint` of `machine`, or of the `guarded_footprint`.
//! That is a list of these sectors, each once, or no list where there is no room for all (`kept_is_the_footprint`). Where it
//! is a list, the checker ends in the same on each device of that size that has the same bytes in these sectors
//! (`agreeing_devices_are_judged_alike`; `specs/Footprints.antt`).
//!
//! A program that is accepted without guards is judged alike with them, on each image of its size, and has the same footprint
//! (`guards_change_no_judgement`; `specs/Guards.antt`).
//!
//! A program with guards has memory of its own (docs/MACHINE.md, Memory). A `RunMemory` is made once, for the checkers of a run, and is
//! there where one of them has guards (`AreServed`); then `judge` asks for nothing more (`IsServed`; `specs/Memory.antt`).
//!
//! `Checker::verified` takes memory where a program was accepted with guards, to keep its guarded slots, and `RunMemory::new` where
//! a checker has guards. No other call does, and each returns.
//!
//! # Example
//!
//! ```
//! use bpf_isa::codec::decode;
//! use checker::{Checker, RunMemory};
//! use helpers::{Context, Filled};
//! use verifier::verify;
//!
//! let program = decode(alloc, bytes)?;   // mov64 r0, 0; exit
//! let verified = verify(alloc, &program, 4)?;
//! let context = Context { sectors: 4, epoch: 0, marks: 0 };
//! let checker = Checker::verified(alloc, &verified)?;
//! let mut memory = RunMemory::of(alloc, &checker)?;
//! let outcome = checker.judge(&mut memory, &context, &Filled::new(4, 0));
//! // a verdict with the answer 0 and no codes
//! ```
//!
//! # Choices
//!
//! - `Checker` is a crate of its own, `checker`, and no longer stands on `interp`'s public surface: nothing else of
//!   `interp` knew of the verifier or its soundness, and a crate can't show again what stands above it. So the
//!   interpreter, the failing lines and the report are proved beside the verifier and not after it.
//! - A checker keeps a verified program, its budget and the size, and not the table: a table takes up to 10 MB, and
//!   nothing asks for it once it was found good.
#![tactic(auto)]

mod checker;
mod laws;
mod memory;

pub use checker::Checker;
pub use laws::{
    agreeing_devices_are_judged_alike, guards_change_no_judgement, kept_is_the_footprint,
};
pub use memory::RunMemory;
