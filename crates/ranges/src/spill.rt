//! A value on the stack.

ghost use Rattle.std.specs.Prelude.{IsTrue, not};
ghost use Rattle.ranges.specs.Kinds.{is_unknown};
ghost use Rattle.ranges.specs.Seen.{kind_of};

use crate::value::Value;

/// A number or a pointer that is kept on the stack.
#[derive(Clone, Copy)]
pub struct Spill {
    pub value: Value,
    pub ghost known: { IsTrue (not (is_unknown (kind_of value))) },
}
