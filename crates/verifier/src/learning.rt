//! What a state that arrives tells one that is known, part by part.

ghost use Rattle.std.specs.Prelude.{◌≡◌, ◌<◌, IfSome, slice_index_or, slice_set, []};
ghost use Rattle.intervals.specs.SeenBounds.{limits_of};
ghost use Rattle.ranges.specs.Groups.{Marked, Spilled as Kept};
ghost use Rattle.ranges.specs.Kinds.{Num as Number};
ghost use Rattle.ranges.specs.Reading.{value, with_value, with_groups};
ghost use Rattle.ranges.specs.Seen.{kind_of};
ghost use Rattle.ranges.specs.SeenStates.{group_of, state_of};
ghost use Rattle.verifier.specs.Passing.{LearnsFrom};
ghost use Rattle.verifier.specs.Ways.{TellsGroup, TellsValue};

use crate::parts::Parts;
use intervals::Bounds;
use ranges::{Group, Spill, State, Value};

/// What register n holds.
#[inline(always)]
fn value_at(state: &State, n: usize) -> Value
    requires { n < 11 }
    ensures { kind_of result ≡ value (state_of state.now) n }
{
    state.values[n]
}

/// Group n of the stack.
#[inline(always)]
fn group_at(state: &State, n: usize) -> Group
    requires { n < 64 }
    ensures { group_of result ≡ slice_index_or (state_of state.now).groups n (Marked []) }
{
    state.groups[n]
}

/// The number that is kept in group n of the stack, if it is one.
#[inline(always)]
pub(crate) fn number_at(state: &State, n: usize) -> Option<Bounds>
    requires { n < 64 }
    ensures { IfSome result (λ number. slice_index_or (state_of state.now).groups n (Marked []) ≡ Kept (Number (limits_of number))) }
{
    match &state.groups[n] {
        Group::Spilled(spill) => match &spill.value {
            Value::Num(number) => Some(*number),
            _ => None,
        },
        Group::Marked(_) => None,
    }
}

/// The group in which a number is kept.
#[inline(always)]
fn group_with(number: Bounds) -> Group
    ensures { group_of result ≡ Kept (Number (limits_of number)) }
{
    Group::Spilled(Spill {
        value: Value::Num(number),
    })
}

/// Puts another value into register n.
#[inline(always)]
fn put_value(state: &mut State, n: usize, value: Value)
    requires { n < 11 }
    ensures { state_of state.new ≡ with_value (state_of state.old) n (kind_of value) }
{
    state.values[n] = value;
}

/// Puts another group n into a state.
#[inline(always)]
fn put_group(state: &mut State, n: usize, group: Group)
    requires { n < 64 }
    ensures { state_of state.new ≡ with_groups (state_of state.old) (slice_set (state_of state.old).groups n (group_of group)) }
{
    state.groups[n] = group;
}

/// Joins a value to register n of a known state. Whether that tells something.
#[inline(always)]
#[tactic(auto, using(crate::proofs::Ways::tells_no_value))]
pub(crate) fn tell_value(known: &mut State, n: usize, new: Value) -> bool
    requires { n < 11 }
    ensures { TellsValue (state_of known.old) n (kind_of new) (state_of known.new) }
{
    let old = value_at(known, n);
    if old.contains(new) {
        return false;
    }
    put_value(known, n, old.join(new));
    true
}

/// Whether a group holds all that another does, as `contains`: most are numbers, which aren't copied for it.
#[inline(always)]
fn holds(known: &Group, new: &Group) -> bool {
    match (known, new) {
        (Group::Spilled(x), Group::Spilled(y)) => match (&x.value, &y.value) {
            (Value::Num(a), Value::Num(b)) => a.contains(*b),
            _ => x.value.contains(y.value),
        },
        _ => known.contains(*new),
    }
}

/// Whether group n of a known state's stack holds all that a group does.
#[inline(always)]
fn holds_group(known: &State, n: usize, new: &Group) -> bool
    requires { n < 64 }
{
    holds(&known.groups[n], new)
}

/// Joins a group to group n of a known state's stack. Whether that tells something.
#[inline(always)]
#[tactic(auto, using(crate::proofs::Ways::tells_no_group))]
pub(crate) fn tell_group(known: &mut State, n: usize, new: Group) -> bool
    requires { n < 64 }
    ensures { TellsGroup (state_of known.old) n (group_of new) (state_of known.new) }
{
    if holds_group(known, n, &new) {
        return false;
    }
    let old = group_at(known, n);
    put_group(known, n, old.join(new));
    true
}

/// Joins a number to what is kept in group n of a known state's stack. Whether that tells something. Where that is a number
/// too its bounds are joined where they lie, and no group is copied.
#[inline(always)]
#[tactic(auto, using(crate::proofs::Ways::tells_no_group))]
pub(crate) fn tell_number(known: &mut State, n: usize, new: Bounds) -> bool
    requires { n < 64 }
    ensures { TellsGroup (state_of known.old) n (Kept (Number (limits_of new))) (state_of known.new) }
{
    let Some(old) = number_at(known, n) else {
        return tell_group(known, n, group_with(new));
    };
    if old.contains(new) {
        return false;
    }
    put_group(known, n, group_with(old.join(new)));
    true
}

/// Joins a register of another state to that of a known one. Whether that tells something.
fn learn_value(known: &mut State, state: &State, n: usize) -> bool
    requires { n < 11 }
    ensures { LearnsFrom (state_of known.old) (state_of state.now) (state_of known.new) }
{
    tell_value(known, n, value_at(state, n))
}

/// Joins a group of another stack to that of a known one. Whether that tells something.
fn learn_group(known: &mut State, state: &State, n: usize) -> bool
    requires { n < 64 }
    ensures { LearnsFrom (state_of known.old) (state_of state.now) (state_of known.new) }
{
    tell_group(known, n, group_at(state, n))
}

/// Joins some registers. Those from which something is learned.
#[tactic(auto, using(crate::proofs::Learned::learns_self, crate::proofs::Learned::learns_more))]
fn learn_values(known: &mut State, state: &State, parts: Parts, learned: &mut Parts)
    ensures { LearnsFrom (state_of known.old) (state_of state.now) (state_of known.new) }
{
    for n in 0..11 {
        if parts.has_value(n) && learn_value(known, state, n) {
            learned.add_value(n);
        }
    }
}

/// Joins some groups of another stack. Those from which something is learned.
#[tactic(auto, using(crate::proofs::Learned::learns_self, crate::proofs::Learned::learns_more))]
fn learn_groups(known: &mut State, state: &State, parts: Parts, learned: &mut Parts)
    ensures { LearnsFrom (state_of known.old) (state_of state.now) (state_of known.new) }
{
    let mut rest = parts;
    for _turn in 0..64 {
        let Some(n) = rest.take_group() else {
            return;
        };
        if learn_group(known, state, n) {
            learned.add_group(n);
        }
    }
}

/// Joins some parts of another state to a known one. Those from which something is learned.
#[tactic(auto, using(crate::proofs::Learned::learns_more))]
pub(crate) fn learn(known: &mut State, state: &State, parts: Parts) -> Parts
    ensures { LearnsFrom (state_of known.old) (state_of state.now) (state_of known.new) }
{
    let mut learned = Parts::NONE;
    learn_values(known, state, parts, &mut learned);
    learn_groups(known, state, parts, &mut learned);
    learned
}
