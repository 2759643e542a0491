//! What is known at a slot.

ghost use Rattle.std.specs.Prelude.{◌≡◌, length};

use crate::group::Group;
use crate::value::Value;

/// What is known of a machine's state at a slot (docs/VERIFIER.md, Abstract states).
#[derive(Clone, Copy)]
pub struct State {
    /// What r0 to r10 hold.
    pub values: [Value; 11],
    /// The stack of the frame at hand, in groups of eight bytes.
    pub groups: [Group; 64],
    pub ghost registers: { length values ≡ 11 },
    pub ghost stack: { length groups ≡ 64 },
}
