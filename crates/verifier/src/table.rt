//! Tables: what is known at each slot of a program.

ghost use Rattle.std.specs.Prelude.{◌≡◌, ◌<◌, ◌↔◌, IsTrue, IfOk, length, map, set, None, Some, [], ◌∷◌};
ghost use Rattle.std.specs.Option.{option_map};
ghost use Rattle.intervals.specs.SeenBounds.{limits_of};
ghost use Rattle.ranges.specs.States.{start};
ghost use Rattle.ranges.specs.Groups.{Spilled as Kept};
ghost use Rattle.ranges.specs.Kinds.{Num as Number};
ghost use Rattle.ranges.specs.Seen.{kind_of};
ghost use Rattle.ranges.specs.SeenStates.{group_of, state_of};
ghost use Rattle.verifier.specs.Tables.{state_at, Covers, AreStates};
ghost use Rattle.verifier.specs.Seen.{table_of};
ghost use Rattle.verifier.specs.Passing.{LearnsAt};
ghost use Rattle.verifier.specs.Rounds.{join_arrival, receive, first_table};
ghost use Rattle.verifier.specs.Sought.{TakesIn};
ghost use Rattle.verifier.specs.Ways.{Goes, LearnsAlong, TellsGroupAt, TellsValueAt};

use crate::learning::{learn, tell_group, tell_number, tell_value};
use crate::parts::Parts;
use crate::way::Way;
use intervals::Bounds;
use ranges::{Group, State, Value};
use std::alloc::{AllocError, Global};
use std::marker::Model;

/// What is known at each slot of a program (docs/VERIFIER.md, Good table). In a second half, and in a
/// slot that no run reaches, there mostly is no state.
///
/// Contracts see the list of the states, None where there is none. Each is within the bounds of states
/// (`AreStates`), since the types of its values have no others.
#[derive(Drop)]
pub struct Table {
    states: Vec<Option<State>>,
}

impl Model for Table {
    ghost use Rattle.std.specs.Prelude.{List, Option};
    ghost use Rattle.ranges.specs.States.{Abstract};
    ghost use Rattle.verifier.specs.Tables.{AreStates};
    ghost use Rattle.verifier.specs.Seen.{table_of};

    ghost Value = { List (Option Abstract) };

    ghost view = { λ t. table_of t.states.items };

    ghost invariant = { λ t. AreStates (table_of t.states.items) };
}

impl Table {
    /// The table of these states, the first that of slot 0.
    pub fn of(states: Vec<Option<State>>) -> Table
        ensures { result ≡ table_of states.items }
    {
        Table { states }
    }

    /// Its states, which are moved out.
    pub fn into_states(self) -> Vec<Option<State>>
        ensures { table_of result.items ≡ self }
    {
        self.states
    }

    /// Its states.
    pub fn states(&self) -> &[Option<State>]
        ensures { table_of result.now ≡ self.now }
    {
        self.states.as_slice()
    }

    /// For how many slots it has a state or none.
    pub fn slots(&self) -> usize
        ensures slots { result ≡ length self.now }
        ensures states { AreStates self.now }
    {
        self.states.len()
    }

    /// What is known at a slot; None where it has no state, and past the end.
    #[inline(always)]
    pub fn state(&self, slot: usize) -> Option<&State>
        ensures { option_map (λ s. state_of s.now) result ≡ state_at self.now slot }
    {
        match self.states.get(slot) {
            Some(Some(state)) => Some(state),
            _ => None,
        }
    }

    /// Whether what is known at a slot contains a state.
    pub(crate) fn covers(&self, slot: usize, state: &State) -> bool
        ensures { IsTrue result ↔ Covers (state_at self.now slot) (state_of state.now) }
    {
        match self.state(slot) {
            Some(known) => known.contains(state),
            None => false,
        }
    }

    /// The table of that many slots with the start in slot 0 and no other state.
    pub(crate) fn first(alloc: Global, slots: usize) -> Result<Table, AllocError>
        ensures { IfOk result (λ table. table ≡ first_table slots) }
    {
        let mut states = Vec::new(alloc);
        states.resize(slots, None)?;
        put_start(&mut states);
        Ok(Table { states })
    }

    /// A state arrives at a slot: it is joined to what is known there.
    #[tactic(auto, using(crate::proofs::Tables::received_at, crate::proofs::Tables::all_states))]
    pub(crate) fn receive(&mut self, slot: usize, state: &State)
        requires { slot < length self.old }
        ensures { self.new ≡ receive self.old (slot, state_of state.now) }
    {
        join_to(&mut self.states[slot], state);
    }

    /// Some parts of a state arrive at a slot. Those of which it learned something.
    #[tactic(auto, using(crate::proofs::Learned::takes_in, crate::proofs::Tables::all_states))]
    pub(crate) fn learn(&mut self, slot: usize, state: &State, parts: Parts) -> Parts
        requires { slot < length self.old }
        ensures { TakesIn self.old ((slot, state_of state.now) ∷ []) self.new }
    {
        learn_at(&mut self.states[slot], state, parts)
    }

    /// Register n goes along a way. Whether something is learned from it.
    #[inline(always)]
    #[tactic(auto, using(crate::proofs::Ways::along_self, crate::proofs::Tables::all_states))]
    pub(crate) fn learn_value(&mut self, way: &Way, n: usize) -> bool
        requires way { Goes way.now (length self.old) }
        requires register { n < 11 }
        ensures { LearnsAlong way.now self.old self.new }
    {
        let value = match self.state(way.from) {
            Some(state) => way.value_at(state, n),
            None => return false,
        };
        tell_value_at(&mut self.states[way.to], n, value)
    }

    /// Group n of the stack goes along a way. Whether something is learned from it.
    #[inline(always)]
    #[tactic(auto, using(crate::proofs::Ways::along_self, crate::proofs::Tables::all_states))]
    pub(crate) fn learn_group(&mut self, way: &Way, n: usize) -> bool
        requires way { Goes way.now (length self.old) }
        requires group { n < 64 }
        ensures { LearnsAlong way.now self.old self.new }
    {
        let Some(state) = self.state(way.from) else {
            return false;
        };
        match way.number_at(state, n) {
            Some(number) => tell_number_at(&mut self.states[way.to], n, number),
            None => self.learn_other_group(way, n),
        }
    }

    /// Tells a group that is no number, or may change on the way.
    // Few groups are such in a long search, and the loop over the others is quicker without their copies.
    #[inline(never)]
    #[tactic(auto, using(crate::proofs::Ways::along_self, crate::proofs::Tables::all_states))]
    fn learn_other_group(&mut self, way: &Way, n: usize) -> bool
        requires way { Goes way.now (length self.old) }
        requires group { n < 64 }
        ensures { LearnsAlong way.now self.old self.new }
    {
        let group = match self.state(way.from) {
            Some(state) => way.group_at(state, n),
            None => return false,
        };
        tell_group_at(&mut self.states[way.to], n, group)
    }
}

/// What is known at a slot learns some parts of a state, all of them where nothing is known. Those that it learned.
#[tactic(auto, using(crate::proofs::Learned::learned_none, crate::proofs::Learned::learned_some))]
fn learn_at(known: &mut Option<State>, state: &State, parts: Parts) -> Parts
    ensures { LearnsAt (option_map state_of known.old) (state_of state.now) (option_map state_of known.new) }
{
    match known {
        Some(known) => learn(known, state, parts),
        None => {
            *known = Some(*state);
            Parts::ALL
        }
    }
}

/// A value is joined to register n of what is known at a slot. Whether that tells something.
#[inline(always)]
#[tactic(auto, using(crate::proofs::Ways::tells_some_value, crate::proofs::Ways::tells_none_value))]
fn tell_value_at(known: &mut Option<State>, n: usize, value: Value) -> bool
    requires { n < 11 }
    ensures { TellsValueAt (option_map state_of known.old) n (kind_of value) (option_map state_of known.new) }
{
    match known {
        Some(known) => tell_value(known, n, value),
        None => false,
    }
}

/// A group is joined to group n of what is known at a slot. Whether that tells something.
#[inline(always)]
#[tactic(auto, using(crate::proofs::Ways::tells_some_group, crate::proofs::Ways::tells_none_group))]
fn tell_group_at(known: &mut Option<State>, n: usize, group: Group) -> bool
    requires { n < 64 }
    ensures { TellsGroupAt (option_map state_of known.old) n (group_of group) (option_map state_of known.new) }
{
    match known {
        Some(known) => tell_group(known, n, group),
        None => false,
    }
}

/// A number is joined to what is kept in group n of what is known at a slot. Whether that tells something.
#[inline(always)]
#[tactic(auto, using(crate::proofs::Ways::tells_some_group, crate::proofs::Ways::tells_none_group))]
fn tell_number_at(known: &mut Option<State>, n: usize, number: Bounds) -> bool
    requires { n < 64 }
    ensures { TellsGroupAt (option_map state_of known.old) n (Kept (Number (limits_of number))) (option_map state_of known.new) }
{
    match known {
        Some(known) => tell_number(known, n, number),
        None => false,
    }
}

/// What is known at a slot once a state has arrived.
fn join_to(known: &mut Option<State>, state: &State)
    ensures { option_map state_of known.new ≡ Some (join_arrival (option_map state_of known.old) (state_of state.now)) }
{
    match known {
        Some(known) => known.take_in(state),
        None => *known = Some(*state),
    }
}

/// Puts the start into slot 0, if there is one.
fn put_start(states: &mut Vec<Option<State>>)
    ensures { table_of states.new.items ≡ set (table_of states.old.items) 0 (Some start) }
{
    if !states.is_empty() {
        states[0] = Some(State::start());
    }
}
