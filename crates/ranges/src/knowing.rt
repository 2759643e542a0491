//! What is known where either of two states is, what rounds a state, and the parts of one.

ghost use Rattle.std.specs.Prelude.{◌≡◌, IsTrue, length, map, ◌↔◌};
ghost use Rattle.ranges.specs.Kinds.{join, round};
ghost use Rattle.ranges.specs.Groups.{zip_with, join_group, round_group};
ghost use Rattle.ranges.specs.Seen.{kind_of};
ghost use Rattle.ranges.specs.SeenStates.{group_of};

use crate::group::{Group, UNSET};
use crate::state::State;
use crate::value::{ContextOffset, StackOffset, Value};
use bpf_isa::instr::Source;
use bpf_isa::register::Register;
use intervals::Bounds;

/// Joins other values to these.
fn join_values_into(x: &mut [Value; 11], y: &[Value; 11])
    ensures values { map kind_of x.new ≡ zip_with join (map kind_of x.old) (map kind_of y.now) }
    ensures long { length x.new ≡ length x.old }
{
    for k in 0..11 {
        x[k] = x[k].join(y[k]);
    }
}

/// Joins the groups of another stack to those of one. Most are bytes with the same marks.
fn join_groups_into(x: &mut [Group; 64], y: &[Group; 64])
    ensures groups { map group_of x.new ≡ zip_with join_group (map group_of x.old) (map group_of y.now) }
    ensures long { length x.new ≡ length x.old }
{
    for k in 0..64 {
        if !x[k].has_same_marks(&y[k]) {
            x[k] = x[k].join(y[k]);
        }
    }
}

/// Rounds these values.
fn widen_values(x: &mut [Value; 11])
    ensures values { map kind_of x.new ≡ map round (map kind_of x.old) }
    ensures long { length x.new ≡ length x.old }
{
    for k in 0..11 {
        x[k] = x[k].round();
    }
}

/// Rounds what is kept in these groups.
fn widen_groups(x: &mut [Group; 64])
    ensures groups { map group_of x.new ≡ map round_group (map group_of x.old) }
    ensures long { length x.new ≡ length x.old }
{
    for k in 0..64 {
        x[k].widen();
    }
}

fn contains_values(x: &[Value; 11], y: &[Value; 11]) -> bool
    ensures { IsTrue result ↔ (zip_with join (map kind_of x.now) (map kind_of y.now) ≡ map kind_of x.now) }
{
    for k in 0..11 {
        if !x[k].contains(y[k]) {
            return false;
        }
    }
    true
}

fn contains_groups(x: &[Group; 64], y: &[Group; 64]) -> bool
    ensures { IsTrue result ↔ (zip_with join_group (map group_of x.now) (map group_of y.now) ≡ map group_of x.now) }
{
    for k in 0..64 {
        if !x[k].covers(&y[k]) {
            return false;
        }
    }
    true
}

impl State {
    ghost use Rattle.ranges.specs.States.{join_state, round_state, StateContains, start};
    ghost use Rattle.std.specs.Prelude.{◌<◌, slice_index_or, slice_set, []};
    ghost use Rattle.ranges.specs.Groups.{Marked};
    ghost use Rattle.ranges.specs.Reading.{value, second, with_value, with_groups};
    ghost use Rattle.ranges.specs.SeenStates.{state_of};

    /// The state at the start: r1 is the context, r10 the end of the stack, and nothing else is known.
    #[tactic(auto, unfolding(crate::specs::States::start, crate::specs::States::unset_groups))]
    pub fn start() -> State
        ensures { state_of result ≡ start }
    {
        let unset = Value::Unset;
        let context = Value::Ctx(ContextOffset { offset: 0 });
        let stack = Value::Stack(StackOffset { offset: 512 });
        State {
            values: [
                unset, context, unset, unset, unset, unset, unset, unset, unset, unset, stack,
            ],
            groups: [UNSET; 64],
        }
    }

    /// What is known where either state is (docs/VERIFIER.md, Abstract states).
    pub fn join(&self, other: &State) -> State
        ensures { state_of result ≡ join_state (state_of self.now) (state_of other.now) }
    {
        let mut both = *self;
        both.take_in(other);
        both
    }

    /// The state with all ranges rounded, those of spilled values too.
    pub fn round(&self) -> State
        ensures { state_of result ≡ round_state (state_of self.now) }
    {
        let mut wide = *self;
        wide.widen();
        wide
    }

    /// Joins another state to it, as `join` does.
    #[tactic(auto, unfolding(crate::specs::States::join_state))]
    pub fn take_in(&mut self, other: &State)
        ensures { state_of self.new ≡ join_state (state_of self.old) (state_of other.now) }
    {
        join_values_into(&mut self.values, &other.values);
        join_groups_into(&mut self.groups, &other.groups);
    }

    /// Rounds it, as `round` does.
    #[tactic(auto, unfolding(crate::specs::States::round_state))]
    pub fn widen(&mut self)
        ensures { state_of self.new ≡ round_state (state_of self.old) }
    {
        widen_values(&mut self.values);
        widen_groups(&mut self.groups);
    }

    /// Whether it covers all that the other does: the join of both is itself.
    #[tactic(auto, unfolding(crate::specs::States::join_state))]
    pub fn contains(&self, other: &State) -> bool
        ensures { IsTrue result ↔ StateContains (state_of self.now) (state_of other.now) }
    {
        contains_values(&self.values, &other.values) && contains_groups(&self.groups, &other.groups)
    }

    /// What register n holds.
    pub(crate) fn at(&self, n: usize) -> Value
        requires { n < 11 }
        ensures { kind_of result ≡ value (state_of self.now) n }
    {
        self.values[n]
    }

    /// What a register holds.
    pub(crate) fn value(&self, register: Register) -> Value
        ensures { kind_of result ≡ value (state_of self.now) register }
    {
        self.at(register.number())
    }

    /// The second operand of an instruction.
    pub(crate) fn second(&self, source: &Source) -> Value
        ensures { kind_of result ≡ second (state_of self.now) source.now }
    {
        match source {
            Source::Immediate(immediate) => Value::Num(Bounds::immediate(*immediate)),
            Source::Register(register) => self.value(*register),
        }
    }

    /// Group n of the stack.
    pub(crate) fn group(&self, n: usize) -> Group
        requires { n < 64 }
        ensures { group_of result ≡ slice_index_or (state_of self.now).groups n (Marked []) }
    {
        self.groups[n]
    }

    /// Puts another value into register n.
    pub(crate) fn set_at(&mut self, n: usize, value: Value)
        requires { n < 11 }
        ensures { state_of self.new ≡ with_value (state_of self.old) n (kind_of value) }
    {
        self.values[n] = value;
    }

    /// Puts another value into a register.
    pub(crate) fn set_value(&mut self, register: Register, value: Value)
        ensures { state_of self.new ≡ with_value (state_of self.old) register (kind_of value) }
    {
        self.set_at(register.number(), value);
    }

    /// Puts other groups into it.
    pub(crate) fn set_groups(&mut self, groups: [Group; 64])
        ensures { state_of self.new ≡ with_groups (state_of self.old) (map group_of groups) }
    {
        self.groups = groups;
    }

    /// Puts another group n into it.
    pub(crate) fn set_group(&mut self, n: usize, group: Group)
        requires { n < 64 }
        ensures { state_of self.new ≡ with_groups (state_of self.old) (slice_set (state_of self.old).groups n (group_of group)) }
    {
        self.groups[n] = group;
    }
}
