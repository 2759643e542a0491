//! The definition of the machine on which checkers run. It has no code that runs.
//!
//! The machine is that of RFC 9669 with the memory, the helpers and the faults of docs/MACHINE.md.
//! It is stated here once, over the types of `bpf_isa` and `helpers`, for all who cite it: the
//! interpreter, whose outcome is that of this machine, the ranges, which cover its values, and the
//! verifier, whose tables cover its states. Nothing here knows of code: the program is its list of
//! slots, the device its list of sectors, the context its three numbers.
//!
//! # The definitions
//!
//! - `Arithmetic`: `arithmetic width operator a b` is the value of each operator in each width, and
//!   `condition_holds` says whether a condition holds. `sign_extension` and `in_order` are the moves that extend the
//!   sign and the byte swaps.
//! - `State`: what the machine holds between two steps, and the state at the start. The frames are a
//!   list, the outermost first; each but the first has what its call saved.
//! - `Memory`: `byte_at` is the memory, one partial function of addresses that answers a `ByteAt`.
//!   An access is the list of its addresses, `number_from` the number there, `frames_with` the
//!   frames when bytes were written.
//! - `Step`: `checks` lists the checks of an instruction in the order of the fault table, `effect` is
//!   what it does where all of them pass, and `step` the effect or the first fault.
//! - `Outcome`: `outcome` is what a number of steps from the start end in, a verdict, a fault or
//!   neither, and `IsJudgement` says which verdict some limit gives.
//! - `Footprint`: `footprint` is the list of the sectors at which the helpers and the loads of a run look.
//! - `Guards`: the machine with guards. `guarded_outcome` is what a number of its steps end in, and `guarded_footprint`
//!   where they look.
//! - `Operations` and `Looks`: for each slot `bpf_isa` makes a record, by which both machines run. They say which operation
//!   its code names, what its step is, and what that reads of the device. `proofs/Records.antt` has that its step is that of
//!   its instruction (`record_step_is`), and `proofs/Looks.antt` that it looks at the same sectors (`made_reads`).
//!
//! # What is proved
//!
//! The crate's functions do nothing; each is a law of the definitions.
//!
//! - `worked_arithmetic`, `worked_bytes`: the definitions have the values that docs/MACHINE.md works
//!   out, among them those at zero divisors and at the least signed number.
//! - `checks_in_order`: the checks of each instruction stand in the order of the fault table, each
//!   fault at most once.
//! - `one_judgement`: a program has at most one judgement on an image.
//! - `footprint_tells`: what a run comes to hangs on the sectors of its footprint alone, and on how many the device has.
//! - `one_guarded_end`, `guarded_footprint_tells`: the same of runs with guards. `no_memory_fault`: they stop at none of
//!   the faults 82 to 84. `guards_keep_verdicts`: a run that writes nothing but the frame at hand has its verdict with
//!   guards too.
//!
//! # Example
//!
//! ```text
//! outcome program device context 10        // what ten steps of the program end in
//! ```
//!
//! # Choices
//!
//! - A jump to before slot 0 has as its target a number that no program has as a slot: it is then fault 80, as every
//!   other target outside, by the same check.
//! - Fault 84 is tested by the range of the stacks' addresses, after 83: what is mapped and in that range is a stack.
//!
//! # How it is proved
//!
//! - A form with many checks is broken at its tail: `set_and_go`, `go_on`, `store_and_go`, `load_and_go` each have
//!   the clause `after_checks s (the rest of the list) effect`. Five checks in one function run into the limit of
//!   `search`.
//! - One loop serves all tests of addresses: an enum `Test` and a word `passes .. test = λ at. ..`, with four lemmas
//!   over `all_at`. Such lemmas need their arguments written out; with `_` they stay unsolved.
//! - Signed division needs no lemma: `cast_unsigned (int_div ..)` of the least number by minus one is the least
//!   number by itself.
//! - `rw (← c.self.view_is)` opens a Model in an answer. The length of one array field alone is told; that of another
//!   goes into the Model's `invariant`.
//! - An access to memory is carried between blocks by `map memory (addresses a n)`. With 'the same bytes at other
//!   places' (`reading_moved` in `interp/proofs`) all tests and the number move at once.
#![tactic(auto)]

mod laws;

use bpf_isa::instr::Size;
pub use laws::{
    checks_in_order, footprint_tells, guarded_footprint_tells, guards_keep_verdicts,
    no_memory_fault, one_guarded_end, one_judgement, worked_arithmetic, worked_bytes,
};

/// What a step reads of the device (docs/MACHINE.md, Footprint).
pub enum Look {
    /// Nothing.
    Nothing,
    /// The number that a load of this size finds at its address.
    Load(Size),
    /// What a call of a helper asks for.
    Call,
}

/// What stands at an address of a program's memory (docs/MACHINE.md, Address space).
#[derive(Clone, Copy)]
pub enum ByteAt {
    /// No byte.
    Unmapped,
    /// A byte of a stack that was not written.
    Unset,
    /// A byte.
    Holds(u8),
}
