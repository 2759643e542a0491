//! The verifier: which programs are accepted for devices of some size, with which budget, and why the
//! others are refused (docs/VERIFIER.md, Good table to Refusals). It knows two kinds of acceptance, without guards and with
//! them. With guards the rules are weaker, and a run tests the places of the accesses that aren't proved.
//!
//! A `Table` says what is known at each slot of a program: an abstract state, or none. A table is good
//! where the start is known at slot 0, no rule is broken at any slot, and what each slot passes on is
//! known where it arrives: at the next slot, at the target of a jump, and at the entry of a function that
//! is called. `check_table` tests that. `verify` searches for such a table a slot at a time: what the slot
//! knows is passed on, and joined to what is known where it arrives. Where no table is good it makes rounds,
//! in each of which all slots pass on what they know, until a round changes nothing: they tell the refusal.
//!
//! | Call | Answer |
//! |---|---|
//! | `verify(alloc, &program, sectors)` | the program with its budget and its table, or why it is refused |
//! | `verify_known(alloc, &program, sectors)` | the same, and beside a refusal what is known at its slot |
//! | `verify_with(alloc, &program, sectors, guards)` | the same, with guards or without |
//! | `guarded_slots(alloc, &verified)`, `is_guarded_at(&verified, slot)` | at which slots a run tests the place of an access |
//! | `unreached_of(&verified)` | how many instructions no run reaches, and the first |
//! | `check_table(&program, &shape, sectors, &table)` | that a table is good, or its first breach; takes no memory |
//! | `check_table_with(&program, &shape, sectors, &table, guards)` | the same, with guards or without |
//! | `Verified`: `has_guards`, `program`, `sectors`, `budget`, `table` | what was accepted, how, for which devices, how many steps a run takes at most, and what is known |
//! | `raise(alloc, &table)` | what a table of the rules without signed bounds and spilled numbers, an `UnsignedTable`, is under those with them |
//! | `Table`: `of`, `into_states`, `states`, `slots`, `state` | a table by its states |
//!
//! # Place
//!
//! On `bpf_shape`, which knows the edges, the entries, the heads and the budget, and whose `Fault` is the refusal
//! here too; and on `ranges`, which knows what an instruction makes of a state. This crate says where
//! states arrive and when they settle. Above it a `Verified` gives the program and the limit of its
//! steps; it is run with every test, as all programs are.
//!
//! # What is proved
//!
//! A contract sees a program as the list of its slots and a table as the list of its states. The
//! definitions are in `specs/`:
//!
//! - `Tables`: `rule_with`, the first rule that is broken at a slot, and `sent_with`, what a slot passes
//!   on to which slots as it arrives there, rounded at heads. Both take which kind of acceptance is meant, and so does what
//!   follows. All else is said by these two. `rule_at` and `sent_from` are these without guards.
//! - `Good`: `IsGoodWith`, and `IsGood` without guards. That the states are within their bounds is a part of it, and holds
//!   of each `Table`. `Breaches`: `FirstBreach` of a table, in the order of the document.
//! - `Least`: `IsLeast`, a good table that is contained in each good table.
//! - `Rounds`: `round_of`, the table of that many `rounds`, and `IsSettled`: the one of them that a round doesn't
//!   change. `Measure`: the sum of a table, by which the rounds end. `Visits`: how often slots are visited in them.
//! - `Sought`: `IsSought`, a table to which a search comes that passes on what one slot after the other knows.
//! - `Verdicts`: `IsVerified`, what holds of each `Verified`, and `RefusedWith`, by cases; `IsAccepted` and `Refused`
//!   without guards. Acceptance speaks of no rounds: a program is accepted where it has the right shape and a good table
//!   exists.
//! - `Guards`: `guarded_slots` of a table.
//!
//! The contracts, in words:
//!
//! - `check_table` answers Ok exactly where the table is good, else its first breach. Which breach that
//!   is is determined, and a good table has none (`laws`).
//! - What `verify` accepts has right shape, the budget of its longest path, and its least good table, which
//!   `check_table` takes.
//! - What it refuses, want of memory aside, breaks this shape rule first; or no table is good for it, and this is
//!   the first breach of its settled table. Where the rounds need more than 500,000 visits of slots, it is a breach that
//!   the search met. No program is both accepted and refused, there is one budget and one table at most, one refusal
//!   up to that many visits, and none is refused for a table that isn't settled (`laws`).
//! - The rounds end: each that changes the table raises its sum, which stays below 2^96 (`laws`). So there is no
//!   limit of rounds.
//! - A program that is accepted without guards is accepted with them, with the same budget and the same table, and none of
//!   its slots is guarded (`laws`).
//! - `verify_known` tells beside a broken rule what is known at its slot: by the settled table, or where the rounds need
//!   too many visits, by the table at which the search met the broken rule.
//!
//! That the settled table is the least rests on `ranges`: a smaller state breaks no rule that a larger one keeps, and
//! passes on smaller states. That a run of an accepted program meets no fault is proved in `soundness`.
//!
//! # How it is written
//!
//! - `table`: `Table`. `passing`: the rules and edges of one slot. `check`: `check_table`.
//! - `scene`: a program of right shape, and the kind of acceptance, which the search, the test of a table and the rounds are
//!   given. `passing` alone asks for the kind.
//! - `climbing`: the search. Where little changes along an edge it passes on the changed parts alone (`way`); else it
//!   leads a copy along the edge in place, in one room for all slots. Of it only is proved that one slot after the
//!   other passed on what it knew, so that each good table contains what it ends with; that this one is good is tested
//!   by `check_table`, and then it is the least. So it is free which slot comes next (`agenda`, by the `order` of the
//!   ways, in a `worklist`), which parts of a state are joined (`parts`, `learning`) and when (`news`), and along which of
//!   the ways that bring the same (`origins`). `inferring`: the search, and the rounds where it finds nothing good.
//! - `rounds`: a round lists all that is passed on by the table as it is, and then lets it arrive, so no
//!   copy of the table is made. What is known already is not joined again. Each slot that learns something
//!   gets a mark, and only the marked slots pass on in the next round: what the others pass on is contained
//!   where it arrives, so it would change nothing. The table after each round is still exactly that of the
//!   definition, in which all slots pass on.
//! - `verified`: `Verified`, `verify`, `verify_known` and `verify_with`. `unreached`: what no run reaches. `guarded`: the
//!   guarded slots. `laws`: the laws, contracts of functions that do nothing.
//!
//! # Example
//!
//! ```
//! use verifier::{verify, verify_with};
//!
//! // `program` is mov64 r0, 0; exit
//! let verified = verify(alloc, &program, 4)?;
//! let budget = verified.budget();                 // 2
//! // `other` is mov64 r1, 0; call 1; ldxb r0, [r0+0]; exit, without a test against 0
//! let fault = verify(alloc, &other, 4).err();     // OutsideRegion, number 52, at slot 2
//! // with guards it is accepted, and a run tests its load at slot 2
//! let guarded = verify_with(alloc, &other, 4, true).ok();
//! ```
//!
//! # More that is promised
//!
//! - **Tables.** A table is found good exactly where it is, else its first breach is told. One that is good without
//!   signed bounds stays good under today's rules: `good_has_no_breach`, `unsigned_stays_good`.
//! - **Guarded slots** are those with a load, a store or a call of `copy` whose place the least table doesn't prove.
//!   A program that is accepted without guards is accepted with them, by the same budget and table, and has none. So
//!   none of its runs strays, and on each image of its size it is judged alike with them: the same end, and the same
//!   sectors that it looks at: `good_needs_no_guards`.
//!
//! # Choices
//!
//! - A round first lists what is passed and then lets it arrive: no table has to be copied; a table of 4,096 states
//!   has 10 MB.
//! - The start isn't rounded where slot 0 is a head: it has no ranges, so its rounding is itself.
//! - The search joins only the parts of a state that a slot learned or changes, and all parts the first time that
//!   something is passed along an edge: what else arrives is known there already; an edge that no value took may open
//!   later.
//!
//! # How it is proved
//!
//! - A round is `fold receive t (passed t)` over a list of what is passed. The loop that lets it arrive keeps one
//!   record, `Arrived old prefix now changed`. That its flag is exact is one lemma (`same_covers`), which needs that
//!   the order of states is transitive (`verifier/proofs/Chains.antt`).
//! - Work that may be left out: state 'what is left out would change nothing' as the invariant (`IsMarked` in
//!   `verifier`). One lemma over `fold` and `flat_map` with a test for each place (`all_left_out` in
//!   `verifier/proofs/Marks.antt`) then gives the whole round, and nothing is said about how marks arise.
//! - A relation between two states that is reflexive and composes (`Kept`, with `kept_self` and `kept_more`) serves
//!   the single step and the loop, whose invariant is the relation from the call to now.
//! - In a contract of a private function a relation over all good tables is a record (`IsBelowGood`), since `search`
//!   doesn't pass a Π type on.
//! - Lists of what is passed are compared by `SentUnder`: each of the first stands in the second, in order, at the
//!   same slot and under it. An edge that isn't taken is then one skipped element.
//! - **A test that only spares work has no contract.** Where `tell_group` of `verifier` learns nothing it needs no
//!   reason, so `holds` compares numbers where they lie, without a clause.
//! - An enum with bounds is copied in pieces, the tag apart. Reading the copy as a whole waits for the pieces (store
//!   forwarding): compare by reference (`holds`).
//! - **What waits is free too**: which parts a slot passes on at once (`news`) is picked by what heads learned, and
//!   no contract speaks of it. Short phases in a scratch copy (`FIRST` 7, `NARROW` 400, a sample of a third of the
//!   slots) try it on small random programs. The answers are to stay, and no search may end without a breach in a
//!   table that isn't good.
//! - **One of two ways is enough.** Where two ways meet, a group that no instruction on them changed comes from the
//!   same slot by both (`origins`). So while the search hurries on, one is told, and the slots on the other learn it
//!   when all is told again. What a slot told on some of its edges alone it owes (`owed` in `news`). Without that
//!   list the search ends in a table that isn't good. Fewer visits don't bring their share: those that are left wait
//!   for memory. Looking at all groups of the target first, so that they come from memory together, made it slower.
//! - A method on an element of an array of a type with a Model, `self.stacks[i].write(..)`, leaves `slice_set stacks
//!   i c.write.new.self` by itself.
#![tactic(auto)]

mod agenda;
mod check;
mod climbing;
mod guarded;
mod inferring;
pub mod laws;
mod learning;
mod news;
mod order;
mod origins;
mod parts;
mod passing;
mod raising;
mod rounds;
mod scene;
mod table;
mod unreached;
mod unsigned_state;
mod verified;
mod way;
mod worklist;

pub use check::{check_table, check_table_with};
pub use guarded::{guarded_slots, is_guarded_at};
pub use raising::{UnsignedTable, raise};
pub use table::Table;
pub use unreached::{Unreached, unreached_of};
pub use unsigned_state::{Pointer, UnsignedGroup, UnsignedState, UnsignedValue};
pub use verified::{Unaccepted, Verified, verify, verify_known, verify_with};
