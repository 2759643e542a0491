//! Stores to the stack.

ghost use Rattle.std.specs.Prelude.{◌≡◌, ◌<◌, ◌≤◌, ◌+◌, map};
ghost use Rattle.ranges.specs.After.{mark_after, group_after, group_forgotten};
ghost use Rattle.ranges.specs.Changing.{group_beyond, groups_after};
ghost use Rattle.ranges.specs.Reading.{with_groups};
ghost use Rattle.ranges.specs.SeenStates.{group_of, state_of};

use crate::byte_marks::ByteMarks;
use crate::group::{Group, UNSET};
use crate::place::ByteMark;
use crate::state::State;
use crate::stretch::Stretch;

/// Whether byte k of group g is set where n bytes from a place on are written.
fn mark_after(at: u64, n: u64, g: usize, group: Group, k: usize) -> bool
    requires place { at + n ≤ 512 }
    requires groups { g < 64 }
    requires byte { k < 8 }
    ensures { result ≡ mark_after at n g (group_of group) k }
{
    let byte = 8 * g as u64 + k as u64;
    (at <= byte && byte < at + n) || !matches!(group.mark(k), ByteMark::Unset)
}

/// Group g where n bytes from a place on are written.
#[tactic(auto, unfolding(crate::specs::After::group_after))]
fn group_after(at: u64, n: u64, g: usize, group: Group) -> Group
    requires place { at + n ≤ 512 }
    requires groups { g < 64 }
    ensures { group_of result ≡ group_after at n g (group_of group) }
{
    let first = 8 * g as u64;
    if at < first + 8 && first < at + n {
        Group::Marked(ByteMarks {
            written: [
                mark_after(at, n, g, group, 0),
                mark_after(at, n, g, group, 1),
                mark_after(at, n, g, group, 2),
                mark_after(at, n, g, group, 3),
                mark_after(at, n, g, group, 4),
                mark_after(at, n, g, group, 5),
                mark_after(at, n, g, group, 6),
                mark_after(at, n, g, group, 7),
            ],
        })
    } else {
        group
    }
}

/// Group g where nothing is known of n bytes from a place on.
fn group_forgotten(at: u64, n: u64, g: usize, group: Group) -> Group
    requires place { at + n ≤ 512 }
    requires groups { g < 64 }
    ensures { group_of result ≡ group_forgotten at n g (group_of group) }
{
    let from = 8 * g as u64;
    if at < from + 8 && from < at + n {
        UNSET
    } else {
        group
    }
}

/// Group g after a change of bytes.
pub(crate) fn group_beyond(bytes: Stretch, g: usize, group: Group) -> Group
    requires { g < 64 }
    ensures { group_of result ≡ group_beyond bytes.are_set bytes.at bytes.n g (group_of group) }
{
    if bytes.are_set {
        group_after(bytes.at, bytes.n, g, group)
    } else {
        group_forgotten(bytes.at, bytes.n, g, group)
    }
}

/// The groups after a change of bytes.
fn groups_after(x: &[Group; 64], bytes: Stretch) -> [Group; 64]
    ensures { map group_of result ≡ groups_after bytes.are_set bytes.at bytes.n (map group_of x.now) }
{
    let mut groups = [UNSET; 64];
    for g in 0..64 {
        groups[g] = group_beyond(bytes, g, x[g]);
    }
    groups
}

/// Changes bytes.
// The new groups make its frame large.
#[inline(never)]
pub(crate) fn write(state: &mut State, bytes: Stretch)
    ensures { state_of state.new ≡ with_groups (state_of state.old) (groups_after bytes.are_set bytes.at bytes.n (state_of state.old).groups) }
{
    let groups = groups_after(&state.groups, bytes);
    state.set_groups(groups);
}
