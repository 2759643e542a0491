//! Eight bytes of a stack.

ghost use Rattle.std.specs.Prelude.{◌≡◌, ◌<◌, IsTrue, ◌&&◌, ◌↔◌};
ghost use Rattle.ranges.specs.Groups.{Marked, zip_with, group_kept, marks_at_join, join_group, round_group, GroupContains};
ghost use Rattle.ranges.specs.Seen.{kind_of};
ghost use Rattle.ranges.specs.SeenStates.{group_of};

use crate::byte_marks::ByteMarks;
use crate::place::ByteMark;
use crate::spill::Spill;
use crate::value::Value;

/// Eight bytes of a stack, from an offset that is a multiple of 8 (docs/VERIFIER.md, Abstract states).
#[derive(Clone, Copy)]
pub enum Group {
    /// For each byte whether it is written. One that is not may be unset.
    Marked(ByteMarks),
    /// The bytes of a number or a pointer.
    Spilled(Spill),
}

/// No byte is written.
pub const UNSET: Group = Group::Marked(ByteMarks {
    written: [false; 8],
});

/// A value that is kept in the eight bytes. What may be anything leaves them unset.
fn group_of(value: Value) -> Group
    ensures { group_of result ≡ group_kept (kind_of value) }
{
    match value {
        Value::Unset | Value::Word => UNSET,
        value => Group::Spilled(Spill { value }),
    }
}

fn both_written(x: &[bool; 8], y: &[bool; 8]) -> [bool; 8]
    ensures { result ≡ zip_with (λ a b. a && b) x.now y.now }
{
    let mut marks = [false; 8];
    for k in 0..8 {
        marks[k] = x[k] & y[k];
    }
    marks
}

/// Bytes that are written in both.
fn both(x: ByteMarks, y: ByteMarks) -> ByteMarks
    ensures { result.written ≡ zip_with (λ a b. a && b) x.written y.written }
{
    ByteMarks {
        written: both_written(&x.written, &y.written),
    }
}

/// What bytes that are known by marks are where a value is kept instead: all bytes of a number are
/// written, and those of a pointer become unset.
fn group_at_join(marks: ByteMarks, value: Value) -> Group
    ensures { group_of result ≡ Marked (marks_at_join marks.written (kind_of value)) }
{
    if value.is_number() {
        Group::Marked(marks)
    } else {
        UNSET
    }
}

/// Whether the marks of the bytes are the same.
fn same(x: &[bool; 8], y: &[bool; 8]) -> bool
    ensures { IsTrue result ↔ (x.now ≡ y.now) }
{
    x == y
}

impl Group {
    ghost use Rattle.ranges.specs.Places.{mark_in};

    /// What is known where either group is.
    #[tactic(auto, unfolding(crate::specs::Groups::join_group))]
    pub fn join(self, other: Group) -> Group
        ensures { group_of result ≡ join_group (group_of self) (group_of other) }
    {
        match (self, other) {
            (Group::Marked(x), Group::Marked(y)) => Group::Marked(both(x, y)),
            (Group::Marked(x), Group::Spilled(y)) => group_at_join(x, y.value),
            (Group::Spilled(x), Group::Marked(y)) => group_at_join(y, x.value),
            (Group::Spilled(x), Group::Spilled(y)) => group_of(x.value.join(y.value)),
        }
    }

    /// The group with its spilled value rounded.
    #[tactic(auto, unfolding(crate::specs::Groups::round_group))]
    pub fn round(self) -> Group
        ensures { group_of result ≡ round_group (group_of self) }
    {
        match self {
            Group::Spilled(x) => Group::Spilled(Spill {
                value: x.value.round(),
            }),
            group => group,
        }
    }

    /// Whether it knows no more than the other: the join of both is itself.
    #[inline(always)]
    #[tactic(auto, unfolding(crate::specs::Groups::join_group))]
    pub fn contains(self, other: Group) -> bool
        ensures { IsTrue result ↔ GroupContains (group_of self) (group_of other) }
    {
        match (self, other) {
            (Group::Marked(x), Group::Marked(y)) => same(&both(x, y).written, &x.written),
            (Group::Spilled(x), Group::Spilled(y)) => x.value.contains(y.value),
            (Group::Marked(x), Group::Spilled(y)) => y.value.is_number()
                || same(&x.written, &[false; 8]),
            (Group::Spilled(_), Group::Marked(_)) => false,
        }
    }

    /// Whether both are known by the same marks of their bytes. Then joining the other changes nothing.
    #[inline(always)]
    #[tactic(auto, using(crate::proofs::Marks::same_marks), unfolding(crate::specs::Groups::join_group))]
    pub(crate) fn has_same_marks(&self, other: &Group) -> bool
        ensures { IsTrue result → GroupContains (group_of self.now) (group_of other.now) }
    {
        match (self, other) {
            (Group::Marked(x), Group::Marked(y)) => same(&x.written, &y.written),
            _ => false,
        }
    }

    /// As `contains`, and quick where both are known by the same marks, as most are.
    #[inline(always)]
    pub(crate) fn covers(&self, other: &Group) -> bool
        ensures { IsTrue result ↔ GroupContains (group_of self.now) (group_of other.now) }
    {
        self.has_same_marks(other) || self.contains(*other)
    }

    /// Rounds it in place, as `round` does.
    #[inline(always)]
    #[tactic(auto, unfolding(crate::specs::Groups::round_group))]
    pub(crate) fn widen(&mut self)
        ensures { group_of self.new ≡ round_group (group_of self.old) }
    {
        if let Group::Spilled(_) = self {
            *self = self.round();
        }
    }

    /// What is known of byte k.
    pub(crate) fn mark(self, k: usize) -> ByteMark
        requires { k < 8 }
        ensures { result ≡ mark_in (group_of self) k }
    {
        match self {
            Group::Marked(marks) => if marks.written[k] {
                ByteMark::Written
            } else {
                ByteMark::Unset
            },
            Group::Spilled(x) => if x.value.is_number() {
                ByteMark::Written
            } else {
                ByteMark::Pointer
            },
        }
    }
}
