//! What is known of the registers that an instruction reads.

ghost use Rattle.std.specs.Prelude.{◌≡◌, ◌++◌, ◌<◌, ◌≤◌, ◌-◌, OnOk, codes, string_bytes};
ghost use Rattle.std.specs.Fmt.{decimal, signed_decimal};
ghost use Rattle.machine.specs.Memory.{byte_count, plain_size};
ghost use Rattle.bpf_asm.specs.Listing.{with_sign};
ghost use Rattle.intervals.specs.Seen.{span_of};
ghost use Rattle.intervals.specs.SeenSigned.{signed_span_of};
ghost use Rattle.intervals.specs.SeenBounds.{limits_of};
ghost use Rattle.ranges.specs.Reading.{value};
ghost use Rattle.ranges.specs.Seen.{kind_of};
ghost use Rattle.ranges.specs.SeenStates.{state_of};
ghost use Rattle.notes.specs.Known.{word_text, says_no_more, reading_text, number_text, kind_text, size_text, room_text, within_text, wanted_text, head_text, register_note, base_note, source_note, operand_notes, number_notes, argument_notes, known_notes};

use arithmetic::{byte_count, plain_size};
use bpf_isa::instr::{Instr, Operator, Source};
use bpf_isa::register::Register;
use helpers::{Arity, Helper};
use intervals::{Bounds, Range, SignedRange};
use ranges::{State, Value};
use std::alloc::AllocError;

/// Appends the words of a range.
fn put_range(out: &mut String, range: Range) -> Result<(), AllocError>
    ensures { OnOk result (string_bytes out.new ≡ string_bytes out.old ++ word_text (span_of range)) }
{
    if range.low == range.high {
        write!(out, "the number {}", range.low)
    } else {
        write!(out, "a number, {} to {}", range.low, range.high)
    }
}

/// Whether the words say all that the signed range does.
fn says_no_more(bounds: Bounds) -> bool
    ensures { result ≡ says_no_more (limits_of bounds) }
{
    let (words, readings) = (bounds.unsigned, bounds.signed);
    words.high < 0x8000_0000_0000_0000
        || 0x8000_0000_0000_0000 <= words.low
        || (readings.low == i64::MIN && readings.high == i64::MAX)
}

/// Appends a signed range.
fn put_readings(out: &mut String, range: SignedRange) -> Result<(), AllocError>
    ensures { OnOk result (string_bytes out.new ≡ string_bytes out.old ++ reading_text (signed_span_of range)) }
{
    write!(out, ", signed {} to {}", range.low, range.high)
}

/// Appends the words of a number, and its readings where they say more.
fn put_number(out: &mut String, bounds: Bounds) -> Result<(), AllocError>
    ensures { OnOk result (string_bytes out.new ≡ string_bytes out.old ++ number_text (limits_of bounds)) }
{
    put_range(out, bounds.unsigned)?;
    if says_no_more(bounds) {
        Ok(())
    } else {
        put_readings(out, bounds.signed)
    }
}

/// Appends how far below r10 an offset from the lower end of the stack lies.
fn put_below(out: &mut String, offset: u16) -> Result<(), AllocError>
    requires { offset ≤ 512 }
    ensures { OnOk result (string_bytes out.new ≡ string_bytes out.old ++ (codes "the stack, " ++ decimal (512 - offset) ++ codes " below r10")) }
{
    let below = 512 - offset;
    write!(out, "the stack, {below} below r10")
}

/// Appends what a register may hold.
fn put_value(out: &mut String, value: Value) -> Result<(), AllocError>
    ensures { OnOk result (string_bytes out.new ≡ string_bytes out.old ++ kind_text (kind_of value)) }
{
    match value {
        Value::Unset | Value::Word => out.push_str("unset, or not of one kind on all paths"),
        Value::Num(bounds) => put_number(out, bounds),
        Value::Ctx(place) => write!(out, "the context, offset {}", place.offset),
        Value::Stack(place) => put_below(out, place.offset),
        Value::Sector(place) => write!(out, "a sector, offset {} to {}", place.low, place.high),
        Value::SectorOrNull => out.push_str("a sector or 0"),
    }
}

/// Appends a number with its sign.
fn put_distance(out: &mut String, distance: i16) -> Result<(), AllocError>
    ensures { OnOk result (string_bytes out.new ≡ string_bytes out.old ++ with_sign distance) }
{
    if distance < 0 {
        write!(out, "{distance}")
    } else {
        write!(out, "+{distance}")
    }
}

/// Appends how many bytes an access has.
#[tactic(auto, unfolding(crate::specs::Known::size_text))]
fn put_size(out: &mut String, bytes: u64) -> Result<(), AllocError>
    ensures { OnOk result (string_bytes out.new ≡ string_bytes out.old ++ size_text bytes) }
{
    write!(out, "; an access of size {bytes} at ")
}

/// Appends how many bytes its region has.
#[tactic(auto, unfolding(crate::specs::Known::room_text))]
fn put_room(out: &mut String, room: u64) -> Result<(), AllocError>
    ensures { OnOk result (string_bytes out.new ≡ string_bytes out.old ++ room_text room) }
{
    write!(out, " has to lie within its {room}")
}

/// Appends that an access has to lie within a region of that many bytes.
fn put_within(out: &mut String, room: u64, distance: i16, bytes: u64) -> Result<(), AllocError>
    ensures { OnOk result (string_bytes out.new ≡ string_bytes out.old ++ within_text room distance bytes) }
{
    put_size(out, bytes)?;
    put_distance(out, distance)?;
    put_room(out, room)
}

/// Appends what an access wants of the register with its address.
fn put_wanted(out: &mut String, value: Value, distance: i16, bytes: u64) -> Result<(), AllocError>
    ensures { OnOk result (string_bytes out.new ≡ string_bytes out.old ++ wanted_text (kind_of value) distance bytes) }
{
    match value {
        Value::Unset | Value::Word => Ok(()),
        Value::Num(_) => out.push_str("; an address is wanted"),
        Value::Ctx(_) => put_within(out, 32, distance, bytes),
        Value::Stack(_) | Value::Sector(_) => put_within(out, 512, distance, bytes),
        Value::SectorOrNull => out.push_str("; a test against 0 has to come first"),
    }
}

/// Appends which register is meant.
fn put_head(out: &mut String, register: usize) -> Result<(), AllocError>
    ensures { OnOk result (string_bytes out.new ≡ string_bytes out.old ++ head_text register) }
{
    write!(out, "note: r{register}: ")
}

/// What the register of a number may hold.
fn value_at(state: &State, register: usize) -> Value
    requires { register < 11 }
    ensures { kind_of result ≡ value (state_of state.now) register }
{
    state.values[register]
}

/// Appends a note with the register of that number.
#[tactic(auto, unfolding(crate::specs::Known::register_note))]
fn put_numbered(out: &mut String, state: &State, register: usize) -> Result<(), AllocError>
    requires { register < 11 }
    ensures { OnOk result (string_bytes out.new ≡ string_bytes out.old ++ register_note (state_of state.now) register) }
{
    put_head(out, register)?;
    put_value(out, value_at(state, register))?;
    out.push_str("\n")
}

/// Appends a note with a register.
fn put_register(out: &mut String, state: &State, register: Register) -> Result<(), AllocError>
    ensures { OnOk result (string_bytes out.new ≡ string_bytes out.old ++ register_note (state_of state.now) register) }
{
    put_numbered(out, state, register.number())
}

/// Appends a note with the register that has the address of an access.
#[tactic(auto, unfolding(crate::specs::Known::base_note))]
fn put_base(
    out: &mut String,
    state: &State,
    base: Register,
    distance: i16,
    bytes: u64,
) -> Result<(), AllocError>
    ensures { OnOk result (string_bytes out.new ≡ string_bytes out.old ++ base_note (state_of state.now) base distance bytes) }
{
    let value = value_at(state, base.number());
    put_head(out, base.number())?;
    put_value(out, value)?;
    put_wanted(out, value, distance, bytes)?;
    out.push_str("\n")
}

/// Appends a note with the second operand, where that is a register.
fn put_source(out: &mut String, state: &State, source: &Source) -> Result<(), AllocError>
    ensures { OnOk result (string_bytes out.new ≡ string_bytes out.old ++ source_note (state_of state.now) source.now) }
{
    match source {
        Source::Immediate(_) => Ok(()),
        Source::Register(register) => put_register(out, state, *register),
    }
}

/// Appends notes with both operands.
fn put_both(
    out: &mut String,
    state: &State,
    dst: Register,
    source: &Source,
) -> Result<(), AllocError>
    ensures { OnOk result (string_bytes out.new ≡ string_bytes out.old ++ (register_note (state_of state.now) dst ++ source_note (state_of state.now) source.now)) }
{
    put_register(out, state, dst)?;
    put_source(out, state, source)
}

/// Appends notes with the operands of arithmetic. A move does not read dst.
fn put_operands(
    out: &mut String,
    state: &State,
    operator: Operator,
    dst: Register,
    source: &Source,
) -> Result<(), AllocError>
    ensures { OnOk result (string_bytes out.new ≡ string_bytes out.old ++ operand_notes (state_of state.now) operator dst source.now) }
{
    match operator {
        Operator::Mov => put_source(out, state, source),
        _ => put_both(out, state, dst, source),
    }
}

/// Appends notes with the numbers that a helper takes.
fn put_numbers(out: &mut String, state: &State, arity: Arity) -> Result<(), AllocError>
    ensures { OnOk result (string_bytes out.new ≡ string_bytes out.old ++ number_notes (state_of state.now) arity) }
{
    match arity {
        Arity::One => put_numbered(out, state, 1),
        Arity::Two => {
            put_numbered(out, state, 1)?;
            put_numbered(out, state, 2)
        }
        Arity::Three => {
            put_numbered(out, state, 1)?;
            put_numbered(out, state, 2)?;
            put_numbered(out, state, 3)
        }
    }
}

/// Appends notes with the arguments of a helper.
fn put_arguments(out: &mut String, state: &State, helper: Helper) -> Result<(), AllocError>
    ensures { OnOk result (string_bytes out.new ≡ string_bytes out.old ++ argument_notes (state_of state.now) helper) }
{
    match helper {
        Helper::Copy => put_numbers(out, state, Arity::Three),
        Helper::Query(query) => put_numbers(out, state, query.arity()),
        _ => put_numbers(out, state, Arity::One),
    }
}

/// Appends notes with what is known of the registers that an instruction reads, and what an access wants of its address.
///
/// # Errors
///
/// Memory was refused.
#[tactic(auto, unfolding(crate::specs::Known::known_notes))]
pub fn put_known(out: &mut String, instr: &Instr, state: &State) -> Result<(), AllocError>
    ensures { OnOk result (string_bytes out.new ≡ string_bytes out.old ++ known_notes (state_of state.now) instr.now) }
{
    match instr {
        Instr::Arithmetic {
            operator,
            dst,
            source,
            ..
        } => put_operands(out, state, *operator, *dst, source),
        Instr::Negate { dst, .. } | Instr::ByteOrder { dst, .. } => put_register(out, state, *dst),
        Instr::SignExtend { src, .. } => put_register(out, state, *src),
        Instr::Jump { .. }
        | Instr::LongJump { .. }
        | Instr::CallLocal { .. }
        | Instr::LoadImmediate { .. } => Ok(()),
        Instr::Branch { dst, source, .. } => put_both(out, state, *dst, source),
        Instr::CallHelper { number } => match Helper::asked(number.cast_unsigned()) {
            Some(helper) => put_arguments(out, state, helper),
            None => Ok(()),
        },
        Instr::Exit => put_numbered(out, state, 0),
        Instr::Load {
            size,
            base,
            offset,
            ..
        } => put_base(out, state, *base, *offset, byte_count(*size)),
        Instr::LoadSigned {
            size,
            base,
            offset,
            ..
        } => put_base(out, state, *base, *offset, byte_count(plain_size(*size))),
        Instr::StoreImmediate {
            size,
            base,
            offset,
            ..
        } => put_base(out, state, *base, *offset, byte_count(*size)),
        Instr::Store {
            size,
            base,
            offset,
            src,
        } => {
            put_base(out, state, *base, *offset, byte_count(*size))?;
            put_register(out, state, *src)
        }
    }
}
