//! Pointers that arithmetic moves.

ghost use Rattle.std.specs.Prelude.{◌≡◌, ◌≤◌, ◌≤ℤ◌, IfSome};
ghost use Rattle.std.specs.Option.{option_map};
ghost use Rattle.intervals.specs.Seen.{span_of};
ghost use Rattle.ranges.specs.Pointers.{offset_in, offsets_in, moved_offset, moved_place, moved_offsets, moved_pointer};
ghost use Rattle.ranges.specs.Seen.{kind_of, offsets_of};

use crate::value::{ContextOffset, SectorOffsets, StackOffset, Value};
use intervals::Range;

/// A whole number as an offset of at most `limit`.
pub(crate) fn offset_in(limit: u64, place: i128) -> Option<u64>
    ensures value { result ≡ offset_in limit place }
    ensures bound { IfSome result (λ o. o ≤ limit) }
{
    if place >= 0 && place <= i128::from(limit) {
        Some(place as u64)
    } else {
        None
    }
}

/// The offsets in a sector from one whole number to another.
fn offsets_in(low: i128, high: i128) -> Option<SectorOffsets>
    requires { low ≤ℤ high }
    ensures { option_map offsets_of result ≡ offsets_in 65535 low high }
{
    let low = offset_in(65535, low)?;
    let high = offset_in(65535, high)?;
    Some(SectorOffsets {
        low: low as u16,
        high: high as u16,
    })
}

/// An offset at the distance of a constant.
fn moved_offset(down: bool, offset: u64, y: Range) -> i128
    ensures { result ≡ moved_offset down offset (span_of y) }
{
    let distance = i128::from(y.low.cast_signed());
    if down {
        i128::from(offset) - distance
    } else {
        i128::from(offset) + distance
    }
}

/// An offset of one place, moved by a constant.
#[tactic(auto, unfolding(crate::specs::Pointers::moved_place))]
fn moved_place(limit: u64, down: bool, offset: u64, y: Range) -> Option<u64>
    ensures value { result ≡ moved_place limit down offset (span_of y) }
    ensures bound { IfSome result (λ o. o ≤ limit) }
{
    if y.is_constant() {
        offset_in(limit, moved_offset(down, offset, y))
    } else {
        None
    }
}

/// Offsets in a sector, moved by a constant.
fn moved_by_constant(down: bool, x: SectorOffsets, y: Range) -> Option<SectorOffsets>
    ensures { option_map offsets_of result ≡ offsets_in 65535 (moved_offset down x.low (span_of y)) (moved_offset down x.high (span_of y)) }
{
    let low = moved_offset(down, u64::from(x.low), y);
    let high = moved_offset(down, u64::from(x.high), y);
    offsets_in(low, high)
}

/// Offsets in a sector, moved by a constant or by a range of small numbers.
#[tactic(auto, unfolding(crate::specs::Pointers::moved_offsets))]
fn moved_offsets(down: bool, x: SectorOffsets, y: Range) -> Option<SectorOffsets>
    ensures { option_map offsets_of result ≡ moved_offsets down (offsets_of x) (span_of y) }
{
    let (low, high) = (i128::from(x.low), i128::from(x.high));
    let (least, most) = (i128::from(y.low), i128::from(y.high));
    if y.is_constant() {
        moved_by_constant(down, x, y)
    } else if y.high > 65535 {
        None
    } else if down {
        offsets_in(low - most, high - least)
    } else {
        offsets_in(low + least, high + most)
    }
}

/// A pointer moved by a number, up or down; None where that isn't allowed.
#[tactic(auto, unfolding(crate::specs::Pointers::moved_pointer))]
pub(crate) fn move_pointer(down: bool, pointer: Value, number: Value) -> Option<Value>
    ensures { option_map kind_of result ≡ moved_pointer down (kind_of pointer) (kind_of number) }
{
    match (pointer, number) {
        (Value::Ctx(o), Value::Num(y)) => {
            let offset = moved_place(32, down, u64::from(o.offset), y.unsigned)?;
            Some(Value::Ctx(ContextOffset {
                offset: offset as u8,
            }))
        }
        (Value::Stack(o), Value::Num(y)) => {
            let offset = moved_place(512, down, u64::from(o.offset), y.unsigned)?;
            Some(Value::Stack(StackOffset {
                offset: offset as u16,
            }))
        }
        (Value::Sector(x), Value::Num(y)) => Some(Value::Sector(moved_offsets(
            down, x, y.unsigned,
        )?)),
        _ => None,
    }
}
