//! Abstract values: what a register and a byte of the stack may hold, and how an instruction changes
//! what is known.
//!
//! The verifier walks over a program without a device. At a slot it has a `State`, which says what
//! each register and each byte of the stack of the frame at hand may hold. This crate knows the values
//! and the rules at one slot (docs/VERIFIER.md, Abstract values to Rules at a slot); which slots there
//! are, where states arrive and when they settle is the matter of the crate above.
//!
//! | Call | Answer |
//! |---|---|
//! | `State::start()` | what is known before the first instruction |
//! | `s.join(&t)` | what is known where either is |
//! | `s.contains(&t)` | whether the join of both is the first: it covers all that the other does |
//! | `s.round()` | the state with its ranges between powers of two, as it is at the head of a loop |
//! | `check(&instr, &state)` | that each rule of the instruction holds, or the first that is broken |
//! | `after(&instr, &state, sectors)` | the state after an instruction that is no conditional jump, None where no machine gets there |
//! | `branch(&instr, taken, &state)` | the state on an edge of a conditional jump, None where no machine goes that way |
//! | `entry(&state)` | the state at the entry of a local function that is called there |
//! | `effect_after(loose, &instr, &state, sectors)`, `effect_along(loose, &instr, taken, &state)` | what comes of the state there, where a rule that guards lift is broken (`loose`), or else as `after` and `branch` say |
//! | `lead(&effect, &mut state)`, `s.take_in(&t)`, `s.widen()` | makes it of the state, joins, rounds, in place |
//! | `broken_rule(guards, &instr, &state)` | the first rule with guards or without that is broken, if one is |
//! | `is_guarded(&instr, &state)` | whether the slot is guarded: the place of its access isn't proved |
//!
//! No call takes memory, and none refuses but by its answer. `after` and `branch` are meant for an
//! instruction that breaks no rule at the state; at another they answer what their definition says,
//! which then covers nothing.
//!
//! # Place
//!
//! On `bpf_isa` and `helpers`, whose instructions and helpers it takes, on `arithmetic`, which has the
//! sizes of accesses, on `intervals`, which knows the bounds of numbers, and on the definitions of
//! `machine`. The verifier stands on it.
//!
//! # What is proved
//!
//! Contracts see a value as a `Kind` (`specs/Kinds.antt`), eight bytes of the stack as a `GroupKind`,
//! and a state as an `Abstract`, the lists of both; `kind_of`, `group_of` and `state_of` lead there.
//! The bounds of offsets and ranges are kept by the types `ContextOffset`, `StackOffset`,
//! `SectorOffsets`, `Bounds` and `Spill`. A number or a pointer that is stored to eight aligned bytes is kept
//! there as a `Spill`, until one of them is overwritten.
//!
//! - `join`, `contains`, `round` and `start` of values, groups and states are exactly those of
//!   `specs/Kinds.antt`, `specs/Groups.antt` and `specs/States.antt`.
//! - `check` answers the first failing one of the list `rules` (`specs/Rules.antt`), which has the
//!   rules of each form of instruction in their order.
//! - `after` is exactly `after_of` (`specs/After.antt`), `branch` exactly `edge_of` and `entry` exactly
//!   `entry_state` (`specs/Passing.antt`). `passes` there says to which slots what state is passed, for
//!   the crate above. A local call passes two: what is kept after it to the next slot, and what its
//!   function gets to the entry.
//! - `join_is_least`, `states_join`: a join holds all that either does, and is the least that does;
//!   one state contains another just where it holds all that the other does, register by register and
//!   byte by byte (`specs/Order.antt`).
//! - `round_contains`, `states_round`: rounding loses nothing, and keeps the order.
//! - `start_fits`, `states_fit`: the state at the start is within the bounds of states (`IsState`), and
//!   so is what is made of states by joins, rounding, instructions, edges and local calls.
//! - `states_are_ordered`: each state is under itself, the order leads on from state to state, and two
//!   that are under each other are the same.
//! - `rules_are_monotone`: a smaller state breaks no rule where a larger one breaks none.
//! - `after_is_monotone`, `edges_are_monotone`, `passes_are_monotone`: there it is left with a smaller
//!   state after an instruction and on the edges of a conditional jump, or with none, and passes smaller
//!   states to the same slots.
//! - `broken_rule` answers the first failing one of the list `rules_with`, what `effect_after` and `effect_along` leave is
//!   exactly `after_with` and `edge_with`, and `is_guarded` that of `specs/Guards.antt`.
//! - `guarded_rules_are_weaker`: where no rule without guards is broken, none with guards is.
//! - `guarded_rules_are_monotone`, `guarded_passes_are_monotone`, `guarded_passes_fit`: as those of acceptance without guards.
//! - `guards_are_proved`: nothing is guarded where no rule without guards is broken, nor at a smaller state where it isn't at a
//!   larger one.
//!
//! That states cover what the machine does is proved in `soundness`.
//!
//! # How it is written
//!
//! - `value`, `spill`, `group`, `state`: the types, with their joins.
//! - `pointers`: what an addition makes of a pointer. `place`: where an access falls. `bytes`: what is
//!   known of the bytes there. `writes`: stores.
//! - `reads`, `rules`: the rules, one function a form. Their causes are those of `base`.
//! - `change`: what comes of a state after an instruction and along an edge, with guards and without; `effects` and `edges`
//!   have the values for it, and `stretch` the places in the stack.
//! - `moving`: makes that of a state, in place. `after` and `branch` copy a state and then do so.
//! - `guards`: the rules with guards, and which slots are guarded.
//! - `knowing`: what is known of a state, and joining and rounding it.
//! - `laws`: the laws, contracts of functions that do nothing.
//!
//! # Example
//!
//! ```
//! use bpf_asm::assemble;
//! use ranges::{State, after, check};
//!
//! let program = assemble(alloc, "mov64 r1, 0\ncall 1\nldxb r0, [r0+0]\nexit\n")?;
//! let mut state = State::start();
//! for slot in 0..2 {
//!     if let Some(instr) = program.at(slot)
//!         && let Some(next) = after(&instr, &state, 4)
//!     {
//!         state = next;
//!     }
//! }
//! if let Some(load) = program.at(2) {
//!     let fault = check(&load, &state).err();     // OutsideRegion, number 52: r0 isn't tested against 0
//! }
//! ```
//!
//! # Choices
//!
//! - Spilled values are rounded at heads as those in registers; where the join of two is unset, their bytes are
//!   unset: the definition of a good table says so, and one rule serves both.
//!
//! # How it is proved
//!
//! - **Bounds of a `Copy` type inside an enum stand in a ghost field** (`pub ghost ordered: { low ≤ high }`). A
//!   struct with a ghost field has its own file where it stands in a cycle of types (`ranges/src/spill.rt`), since a
//!   ghost field takes all `ghost use` of its file.
//! - **Written bytes are a `Change`** with their place (`Stretch`), and not with the groups that they make. What a
//!   group is after it is asked group by group (`group_written`), and `ranges/proofs/Writing.antt` leads to the list
//!   of the definition.
//! - What answers a changed copy stands on what changes in place: `let mut next = *state; if lead(&effect, &mut next)
//!   { Some(next) } else { None }` needs no file, and the rules stand once (`after`, `branch`, `State::join` of
//!   `ranges`).
//! - `contains` by the join ('the join of both is the first') is what a reader believes and what the code tests. The
//!   order place by place (`Under`) is what proofs use. One law says that they are the same (`join_is_least`,
//!   `states_join`).
//! - **A result that may be empty is an `Option` of a state** (`after_of`), and `passed_state` passes it on. Of a
//!   machine's step it is enough to prove `IsSomeAnd result (λ k. Describes .. k x)`. One lemma by the two cases of
//!   the result (`result_goes` in `soundness/proofs/Computing.antt`) leads to the step, and no form of instruction
//!   looks at what reducing does.
//! - A group that keeps a number is under each group of marks, and one that keeps a pointer only under unset ones:
//!   `IsTrue (is_number k) ⊎ (ys ≡ unset_marks)` (`GroupUnder` in `ranges`). The cases of k stand in four small
//!   lemmas (`marks_met`, `value_met`, `met_under`, `met_same`).
//! - What `search` finds by the variants of an enum may be lost when the enum gets one more (`Change::value_at`).
//!   Cure: a lemma over the list by its first places (`answered_at` in `ranges/proofs/Writing.antt`).
//! - **Monotone rules**: one lemma for a list of two, three, four or five checks (`four_pass` in
//!   `ranges/proofs/SmallerRules.antt`), with an implication for each test, in which the tests before it may be used.
//!   So the place of an access is the same for both states once it lies inside. 'Where there is a second there is a
//!   first, under it' (`Met`) is the word for partial results that must stay, and `Related` for those that may go.
#![tactic(auto)]

mod byte_marks;
mod bytes;
mod change;
mod edges;
mod effects;
mod group;
mod guards;
mod knowing;
pub mod laws;
mod moving;
mod place;
mod pointers;
mod reads;
mod rules;
mod spill;
mod state;
mod stretch;
mod value;
mod writes;

pub use byte_marks::ByteMarks;
pub use change::{Change, Effect, effect_after, effect_along};
pub use edges::{branch, entry};
pub use effects::after;
pub use group::Group;
pub use guards::is_guarded;
pub use moving::lead;
pub use rules::{broken_rule, check};
pub use spill::Spill;
pub use state::State;
pub use stretch::{GroupPlace, Stretch};
pub use value::{ContextOffset, SectorOffsets, StackOffset, Value};
