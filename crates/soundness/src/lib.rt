//! The soundness of the verifier: what an accepted program does on the machine. It has no code that runs.
//!
//! The verifier walks over a program with abstract states and never sees a device. This crate says what
//! those states mean of the machine on which the program runs, and proves that a program which is accepted
//! runs safely: on each image of the size for which it was accepted no step is a fault, and the run ends in
//! a verdict within the budget (docs/PROVED.md, Verifier soundness; docs/VERIFIER.md).
//!
//! # Place
//!
//! On `machine`, whose steps and runs it speaks of, on `intervals` and `ranges`, which say what abstract
//! values are and what an instruction makes of them, on `bpf_shape` for the rules of shape and the budget,
//! and on `verifier`, which says what a good table is and which programs are accepted. What stands above it
//! needs only its laws.
//!
//! # The definitions
//!
//! - `Meaning`: `Means` says what an abstract value says of a register: a number of a range, an address of
//!   the context, of the stack of the frame at hand or of a sector, or 0 or the address of a sector; of
//!   `Unset` it says nothing. `Covers` says that an abstract state covers a state of the machine: register
//!   by register, and the bytes of the stack by groups of eight. Bytes that are called written are set, and
//!   a spilled pointer says what it says of the number that its eight bytes hold. The frame at hand is the
//!   last one.
//! - `Machines`: `IsSetting` is a program of right shape with a device of 512-byte sectors and a context
//!   that tells of it. `IsMachine` says how a machine with one to four frames looks between two steps, and
//!   `HasLimit` that register 1 holds the limit of a call of `again` that comes next. That is a fact about
//!   the program and not about the table, whose state at the call may know less.
//! - `Callers`: `AreWaiting` says of the frames below the one at hand that each is at a local call which it
//!   reached from the entry of its own function, and that the state of the table after the call covers it
//!   (`CoversWaiting`): what its call saved, its stack, and any word that the function may answer.
//! - `Reaching`: `Reached program context device n s` says that n steps lead from the start to state s.
//!   `StepsWithoutFault`: no step from a reached state is a fault. `NeverFaults`: the run stops at none,
//!   however many steps are made.
//! - `Ending`: `EndsWithin`: within that many steps from the start the program ends in a verdict.
//! - `Accepted`: `IsImage` is what may be asked of a device and a context of a size, and `IsSafeRun` what is
//!   promised of a run on it.
//!
//! # What is proved
//!
//! The crate's functions do nothing; each is a law of the definitions.
//!
//! - `accepted_runs_safely`: a program that the verifier accepts for a number of sectors, with a budget, runs
//!   safely on each image of that size: no step from a reached state is a fault, and the outcome within the
//!   budget is a verdict.
//! - `guarded_runs_safely`: one that it accepts with guards runs safely with guards: no step from a reached state is a fault, none
//!   strays but at a guarded slot, and the outcome within the budget is a verdict, or a stray at such a slot.
//! - `order_keeps_meaning`: a state that knows less covers all that one does which knows more. So joins and
//!   rounding lose no machine.
//! - `step_is_covered`: where a slot breaks no rule, the step of a machine that its state covers is never a
//!   fault. It is the end, in the outermost frame; or it goes on along a control edge to a machine which a state covers that the slot
//!   sends there, and the frames below stay as they are; or it enters a local function, where a state that is
//!   sent to the entry covers the machine and one that is sent after the call covers the frame that waits; or
//!   it returns to a frame that the table knows. This holds for each instruction.
//! - `step_is_safe`: the same over a good table, so over each that `check_table` takes: the machine after the
//!   step is covered by the table again, and its frames below wait as before.
//! - `table_covers`: so a good table covers each machine that is reached in any number of steps, and no step
//!   of any of them is a fault.
//! - `guarded_step_is_covered`: the same of a step with guards, where a slot breaks no rule with guards and no byte of a stack
//!   is unset. It strays only at a guarded slot.
//! - `guarded_table_covers`: so a table that is good with guards covers each machine that is reached with guards, no step of
//!   any of them is a fault, and none strays but at a guarded slot.
//! - `run_ends_within_budget`: a program of right shape whose run never faults ends in a verdict within its
//!   budget, on every device and in every context.
//! - `faults_are_of_steps`: the run never faults exactly where no step from a reached state is a fault.
//! - `runs_go_on`: a run of n + m steps is the run of m steps from the state that n steps reach.
//!
//! # How it is proved
//!
//! Each form of instruction has a lemma over plain variables, `.._goes`, which says that its step goes to a
//! machine that its states cover: `Computing` and `Pointers` (arithmetic), `Loads`, `Stores` and `Stacks`,
//! `Branches`, `Calls`. They speak of the frame at hand, with its number, over any frames below it. `Steps`
//! puts them together. `Locals` has the two steps that change the number of frames: that no fifth is opened
//! follows from the rule about chains of calls, since each frame keeps how its call was reached (`Frames`).
//! `Tables` leads from one step to all of them. `Loose` and `LooseStores` have the lemmas of steps with guards where a rule
//! without them is broken, and `LooseSteps` puts them together with the others.
//! `Filling` leads from a machine to the one whose unset bytes are 0, `LooseTables` to all that are reached, and
//! `LooseRuns` to the end of a run, which takes the same potential: it hangs on no stack.
//!
//! That a run ends is another matter, of shape alone. Before each step three numbers are kept: how often the
//! calls of `again` may still answer 1; a room for each frame, which bounds the weight of each path from where
//! it stands; and what is pending. A step along an edge of paths takes the weight of its slot from the room at
//! hand. The weight of a local call is one more than the longest path of its function, which becomes the room of
//! the new frame. A call of `again` that answers 1 takes a turn, and a longest path of slot 0 is pending for it;
//! its again edge takes what is pending and makes the longest path of the running function its room, which with
//! the rooms below is never more than a longest path of slot 0. So the turns left times that path, what is
//! pending and the rooms fall together with each step, and the room at hand is never 0. The form of `again`
//! matters twice: no jump or call leads to a call of it, so register 1 has its K, and none to the test after it,
//! so register 0 has its answer (`Room`, `Saved`, `Progress`, `Within`).
//!
//! # Example
//!
//! ```text
//! // mov64 r1, 2; call 3; jeq r0, 0, +1; ja -4; exit
//! // budget: one more than K = 2, times the 5 slots of the longest path, which is 15 steps
//! ```
//!
//! # More that is promised
//!
//! - A good table covers each state that the machine reaches, and each frame that waits. A program of right shape
//!   whose run meets no fault ends within its budget: `worked_loops`.
//!
//! # Choices
//!
//! - The soundness of the verifier is a crate of laws above `verifier`: it speaks of the machine, which the crates of
//!   ranges and tables need not know; and its proofs are checked apart from theirs.
//!
//! # Notes on the proofs
//!
//! - A step's law is one lemma a form of instruction, `.._goes`, over a record of plain parts (`machine m` in
//!   `soundness/proofs/Standing.antt`), with a goal by cases on the step (a fault is ⊥). At the top `λ d. record { ..
//!   frames = split.is d .. }` makes any machine one of such parts.
//! - Frames: the parts have the list `below` of the frames that wait, so each lemma of a form speaks of the frame at
//!   hand, and says that `below` stays. That frame has the number `length m.below`. Lists of frames are `below ++ f ∷
//!   []`; `split_last` makes one, and `number_is`, `last_is`, `last_got`, `without_last` (`Frames.antt`) lead to what
//!   the machine's definition says by `length frames - 1`.
//! - What waits is a recursion over adjacent frames (`AreWaiting`), with three clauses in each lemma: one frame, two,
//!   and more (`[]`, `a ∷ []`, `a ∷ b ∷ rest` for those below), since `rest ++ f ∷ []` doesn't compute. An index that
//!   grows with the frames is a variable with an equation, `n ≡ frame + length below`.
//! - 'Sent to a slot, with a property' (`IsSent holds slot arrivals`) serves the machine that goes on and the frame
//!   that waits alike. Rounding and looking it up in a table need only that the property passes to states that know
//!   less.
//! - `Means k c` in two clauses, of which the first says nothing of Unset. With the operands' words for all values
//!   (`Has (words k) (word s r)`) arithmetic needs no case on numbers.
//! - Checks that pass: `pass_two` to `pass_five` and `two_tell` to `five_tell` over plain Booleans
//!   (`soundness/proofs/Checks.antt`); write the list of checks out, `_` stays unsolved.
//! - Memory: one lemma for a test at each of n addresses (`all_pass`), one for what is loaded (`loaded_is`), and a
//!   plain recursion for a stack in which bytes are stored (`filled`). `grind (arith, ints, nat_tests)` proves
//!   `(start + o + cast_unsigned w64 d) % 2 ^ 64 ≡ start + at` from `pos o +ℤ d ≡ pos at`.
//! - Where a computed value stands in a type, a local `by` over it with `refl` for its equation. `unfolding` stands
//!   under the outer signature, and `where` takes it over.
//! - To analyse a step take `step .. ≡ Next t` as the premise: then no check has to be looked at (`in_next` in
//!   `soundness/proofs/Taken.antt`).
//! - A room for each frame that waits is a recursion over their number whose step is a record with the rest as a
//!   parameter (`WaitsBelow`, `Waiting` in `soundness/proofs/Room.antt`). Of the frames only the list of what their
//!   calls saved is kept, which no store changes. A function that goes by cases on such a number takes the parts as
//!   arguments: `rw` of a field inside a record of the same value is refused (motive).
//! - A recursion whose step has cases: give the case function the recursive call as an argument. A worked run of 29
//!   steps is one `auto` with an `unfolding(..)` line.
//! - **A step with guards is the machine's own step with tests round it** (`guarded`), so no form is proved twice.
//!   Where no rule without guards is broken, `step_covered` serves as it is, and only that the step writes its own
//!   frame is new (`own_kept`). Where one is broken a form says that it writes its own frame and goes on, or strays
//!   (`LooselyGoes` in `soundness/proofs/Loose.antt`).
//! - A run with guards goes on as `filled t`, where t is what the machine's own step leads to. What covers t covers
//!   that too (`known_filled`). What bounds a run hangs on no stack (`runs_filled`), so `progress` serves both
//!   machines.
#![tactic(auto)]

mod accepted;
mod ending;
mod laws;

pub use accepted::{accepted_runs_safely, guarded_runs_safely};
pub use ending::{faults_are_of_steps, run_ends_within_budget, runs_go_on, worked_loops};
pub use laws::{
    guarded_step_is_covered, guarded_table_covers, order_keeps_meaning, step_is_covered,
    step_is_safe, table_covers,
};
