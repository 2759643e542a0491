//! Where an access falls.

ghost use Rattle.std.specs.Prelude.{◌≡◌, ◌≤◌, ◌+◌, IfSome};
ghost use Rattle.ranges.specs.Places.{in_own, is_own_memory, landing, place_of, Fits};
ghost use Rattle.ranges.specs.Seen.{kind_of};

use crate::pointers::offset_in;
use crate::value::Value;

/// Where the bytes of an access lie (docs/VERIFIER.md, Rules at a slot).
#[derive(Clone, Copy)]
pub enum AccessPlace {
    /// In no region, or not for each offset that the base may have.
    Outside,
    /// In the context, from this offset on.
    Context(u64),
    /// In the stack of the frame at hand, from this offset on.
    Stack(u64),
    /// In a sector.
    Sector,
}

/// What is known of a byte of the stack.
#[derive(Clone, Copy)]
pub enum ByteMark {
    /// It may be unset.
    Unset,
    /// It is set, and may be one of the eight of a spilled number.
    Written,
    /// It is one of the eight of a spilled pointer.
    Pointer,
}

/// Where n bytes at a distance from an offset begin, if they lie below the size of a region.
fn landing(size: u64, n: u64, offset: u64, distance: i16) -> Option<u64>
    ensures value { result ≡ landing size n offset distance }
    ensures bound { IfSome result (λ at. at + n ≤ size) }
{
    if n <= size {
        offset_in(size - n, i128::from(offset) + i128::from(distance))
    } else {
        None
    }
}

/// Where the memory begins that a program with guards has of its own (docs/MACHINE.md, Memory).
const MEMORY_START: u64 = 0x100_0000_0000;

/// How many bytes it has.
const MEMORY: u64 = 65536;

/// Whether n bytes at a distance from a number lie in it.
fn in_own(number: u64, distance: i16, n: u64) -> bool
    ensures { result ≡ in_own number distance n }
{
    number >= MEMORY_START && landing(MEMORY, n, number - MEMORY_START, distance).is_some()
}

/// The same, whichever number a value may be.
pub(crate) fn is_own_memory(base: Value, distance: i16, n: u64) -> bool
    ensures { result ≡ is_own_memory (kind_of base) distance n }
{
    match base {
        Value::Num(number) => {
            let range = number.unsigned;
            in_own(range.low, distance, n) && in_own(range.high, distance, n)
        }
        _ => false,
    }
}

/// Where n bytes lie at a distance from a base.
#[tactic(auto, unfolding(crate::specs::Places::place_of))]
pub(crate) fn place_of(base: Value, distance: i16, n: u64) -> AccessPlace
    ensures value { result ≡ place_of (kind_of base) distance n }
    ensures fits { Fits result n }
{
    match base {
        Value::Ctx(o) => match landing(32, n, u64::from(o.offset), distance) {
            Some(at) => AccessPlace::Context(at),
            None => AccessPlace::Outside,
        },
        Value::Stack(o) => match landing(512, n, u64::from(o.offset), distance) {
            Some(at) => AccessPlace::Stack(at),
            None => AccessPlace::Outside,
        },
        Value::Sector(x) => {
            let low = landing(512, n, u64::from(x.low), distance);
            let high = landing(512, n, u64::from(x.high), distance);
            if low.is_some() && high.is_some() {
                AccessPlace::Sector
            } else {
                AccessPlace::Outside
            }
        }
        _ => AccessPlace::Outside,
    }
}
