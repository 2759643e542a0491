//! What little changes goes along an edge without a copy: part by part, from what is known at one slot to what is known
//! at another.

ghost use Rattle.std.specs.Prelude.{◌≡◌, ◌<◌, IsTrue, length};
ghost use Rattle.ranges.specs.After.{is_touched};
ghost use Rattle.verifier.specs.Ways.{Goes, LearnsAlong, LeavesGroup};

use crate::learning::number_at;
use crate::parts::Parts;
use crate::table::Table;
use intervals::Bounds;
use ranges::{Change, Group, State, Stretch, Value};

/// Between which slots something is passed, what changes, and whether it is rounded, since it arrives at a head.
#[derive(Clone, Copy)]
pub(crate) struct Way {
    pub from: usize,
    pub to: usize,
    pub change: Change,
    pub is_head: bool,
}

/// Whether one of these bytes of the stack is in group n.
#[inline(always)]
fn touches(bytes: Stretch, n: usize) -> bool
    requires { n < 64 }
    ensures { result ≡ is_touched bytes.at bytes.n n }
{
    let first = 8 * n as u64;
    bytes.at < first + 8 && first < bytes.at + bytes.n
}

/// Whether a change is seen to leave group n of the stack as it was.
#[inline(always)]
#[tactic(auto, using(crate::proofs::Ways::group_left, crate::proofs::Ways::bytes_left))]
fn leaves_group(change: &Change, n: usize) -> bool
    requires { n < 64 }
    ensures { IsTrue result → LeavesGroup change.now n }
{
    match change {
        Change::Stays
        | Change::Register(_, _)
        | Change::Registers(_, _, _, _)
        | Change::Answer(_) => true,
        Change::Group(changed, _) => changed.number != n,
        Change::Bytes(bytes) | Change::Copied(bytes, _) => !touches(*bytes, n),
    }
}

impl Way {
    ghost use Rattle.std.specs.Prelude.{◌≡◌, ◌<◌, IfSome, slice_index_or, []};
    ghost use Rattle.intervals.specs.SeenBounds.{limits_of};
    ghost use Rattle.ranges.specs.Groups.{Marked, Spilled as Kept};
    ghost use Rattle.ranges.specs.Kinds.{Num as Number};
    ghost use Rattle.ranges.specs.Reading.{value};
    ghost use Rattle.ranges.specs.Seen.{kind_of};
    ghost use Rattle.ranges.specs.SeenStates.{group_of, state_of};
    ghost use Rattle.verifier.specs.Ways.{passed_along};

    /// What register n holds as a state arrives.
    #[inline(always)]
    #[tactic(auto, using(crate::proofs::Ways::round_value))]
    pub(crate) fn value_at(&self, state: &State, n: usize) -> Value
        requires { n < 11 }
        ensures { kind_of result ≡ value (passed_along self.now (state_of state.now)) n }
    {
        let value = self.change.value_at(state, n);
        if self.is_head { value.round() } else { value }
    }

    /// Group n of the stack as a state arrives.
    #[inline(always)]
    #[tactic(auto, using(crate::proofs::Ways::round_group_at))]
    pub(crate) fn group_at(&self, state: &State, n: usize) -> Group
        requires { n < 64 }
        ensures { group_of result ≡ slice_index_or (passed_along self.now (state_of state.now)).groups n (Marked []) }
    {
        let group = self.change.group_at(state, n);
        if self.is_head { group.round() } else { group }
    }

    /// The number that is kept in group n of the stack as a state arrives, if it is one that arrives as it was.
    #[inline(always)]
    pub(crate) fn number_at(&self, state: &State, n: usize) -> Option<Bounds>
        requires { n < 64 }
        ensures { IfSome result (λ number. Kept (Number (limits_of number)) ≡ slice_index_or (passed_along self.now (state_of state.now)).groups n (Marked [])) }
    {
        if self.is_head {
            return None;
        }
        if leaves_group(&self.change, n) {
            number_at(state, n)
        } else {
            None
        }
    }
}

/// Some registers go along a way. Those from which something is learned.
#[tactic(auto, using(crate::proofs::Ways::along_self, crate::proofs::Ways::along_more))]
fn learn_values(table: &mut Table, way: &Way, parts: Parts, learned: &mut Parts)
    requires { Goes way.now (length table.old) }
    ensures { LearnsAlong way.now table.old table.new }
{
    let mut rest = parts;
    for _turn in 0..11 {
        let Some(n) = rest.take_value() else {
            return;
        };
        if table.learn_value(way, n) {
            learned.add_value(n);
        }
    }
}

/// Some groups of the stack go along a way. Those from which something is learned.
#[tactic(auto, using(crate::proofs::Ways::along_self, crate::proofs::Ways::along_more))]
fn learn_groups(table: &mut Table, way: &Way, parts: Parts, learned: &mut Parts)
    requires { Goes way.now (length table.old) }
    ensures { LearnsAlong way.now table.old table.new }
{
    let mut rest = parts;
    for _turn in 0..64 {
        let Some(n) = rest.take_group() else {
            return;
        };
        if table.learn_group(way, n) {
            learned.add_group(n);
        }
    }
}

/// Some parts go along a way. Those from which something is learned.
#[tactic(auto, using(crate::proofs::Ways::along_more))]
pub(crate) fn learn_along(table: &mut Table, way: &Way, parts: Parts) -> Parts
    requires { Goes way.now (length table.old) }
    ensures { LearnsAlong way.now table.old table.new }
{
    let mut learned = Parts::NONE;
    learn_values(table, way, parts, &mut learned);
    learn_groups(table, way, parts, &mut learned);
    learned
}
