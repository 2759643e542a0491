//! What is known at a slot under the rules without signed bounds and spilled numbers.

ghost use Rattle.std.specs.Prelude.{◌≡◌, length};

use intervals::Range;
use ranges::{ByteMarks, ContextOffset, SectorOffsets, StackOffset};

/// A pointer, as `Value` has them.
#[derive(Clone, Copy)]
pub enum Pointer {
    Ctx(ContextOffset),
    Stack(StackOffset),
    Sector(SectorOffsets),
    SectorOrNull,
}

/// What a register may hold.
#[derive(Clone, Copy)]
pub enum UnsignedValue {
    /// Anything, unset too.
    Unset,
    /// The words of a range.
    Num(Range),
    Pointer(Pointer),
}

/// Eight bytes of a stack.
#[derive(Clone, Copy)]
pub enum UnsignedGroup {
    /// For each byte whether it is written.
    Marked(ByteMarks),
    /// The bytes of a pointer.
    Spilled(Pointer),
}

/// What is known of a machine's state at a slot.
#[derive(Clone, Copy)]
pub struct UnsignedState {
    /// What r0 to r10 hold.
    pub values: [UnsignedValue; 11],
    /// The stack of the frame at hand, in groups of eight bytes.
    pub groups: [UnsignedGroup; 64],
    pub ghost registers: { length values ≡ 11 },
    pub ghost stack: { length groups ≡ 64 },
}
