//! The operands of a line, each with the line after it.
#![tactic(auto, unfolding(crate::specs::Operands::register, crate::specs::Operands::magnitude_of, crate::specs::Operands::number, crate::specs::Operands::sign, crate::specs::Operands::distance, crate::specs::Operands::operand, crate::specs::Operands::place, crate::specs::Operands::target, crate::specs::Words::register_of, crate::specs::Words::is_name))]

ghost use Rattle.std.specs.Prelude.{◌≡◌, option_map};
ghost use Rattle.bpf_asm.specs.Parts.{parts, first_word, is_none_left};
ghost use Rattle.bpf_asm.specs.Words.{register_of, is_name, number_with_sign};
ghost use Rattle.bpf_asm.specs.Operands.{mark, register, magnitude_of, number, sign, distance, operand, place, target, with_comma, one, two, three, source_in_range, distance_to, offset_in_range, immediate_in_range};
ghost use Rattle.bpf_asm.specs.Reads.{Reads, operand_value, target_value, aim_value};

use crate::number::{Number, magnitude};
use crate::part::{self, is_end};
use bpf_isa::instr::Source;
use bpf_isa::register::Register;

/// A register, or else a number.
#[derive(Clone, Copy)]
pub(crate) enum Operand {
    Register(Register),
    Number(Number),
}

impl Operand {
    /// The operand as a source of an instruction, if it is in its range.
    pub(crate) fn source(self) -> Option<Source>
        ensures { result ≡ source_in_range (operand_value self) }
    {
        match self {
            Operand::Register(register) => Some(Source::Register(register)),
            Operand::Number(number) => Some(Source::Immediate(number.immediate()?)),
        }
    }
}

/// Where a jump or a local call goes: at a distance, or to a label.
#[derive(Clone, Copy)]
pub(crate) enum Target<'t> {
    Distance(Number),
    Label(&'t [u8]),
}

impl<'t> Target<'t> {
    /// The distance of 16 bits, if it is in its range, and the label that is to tell it.
    pub(crate) fn near(self) -> Option<(i16, Option<&'t [u8]>)>
        ensures { option_map aim_value result ≡ distance_to offset_in_range (target_value self.entry) }
    {
        match self {
            Target::Distance(number) => Some((number.offset()?, None)),
            Target::Label(name) => Some((0, Some(name))),
        }
    }

    /// The distance of 32 bits, if it is in its range, and the label that is to tell it.
    pub(crate) fn far(self) -> Option<(i32, Option<&'t [u8]>)>
        ensures { option_map aim_value result ≡ distance_to immediate_in_range (target_value self.entry) }
    {
        match self {
            Target::Distance(number) => Some((number.immediate()?, None)),
            Target::Label(name) => Some((0, Some(name))),
        }
    }
}

/// The register that a word names.
fn named_register(word: &[u8]) -> Option<Register>
    ensures { result ≡ register_of word.now }
{
    if word.len() == 2 && word[0] == b'r' && word[1].is_ascii_digit() {
        Register::new(word[1] - b'0')
    } else if word == "r10".as_bytes() {
        Register::new(10)
    } else {
        None
    }
}

/// Whether a word is a name.
pub(crate) fn is_name(word: &[u8]) -> bool
    ensures { result ≡ is_name word.now }
{
    !word.is_empty() && word[0].is_ascii_alphabetic()
}

/// This mark.
pub(crate) fn mark(line: &[u8], wanted: u8) -> Option<&[u8]>
    ensures { option_map (λ rest. parts rest.now) result ≡ mark wanted (parts line.now) }
{
    match part::mark(line) {
        Some((mark, rest)) if mark == wanted => Some(rest),
        _ => None,
    }
}

/// A register.
fn register(line: &[u8]) -> Option<(Register, &[u8])>
    ensures { Reads (λ x. x) result (register (parts line.now)) }
{
    let (word, rest) = part::word(line)?;
    Some((named_register(word)?, rest))
}

/// A number without a sign, as the magnitude of one with this sign.
fn magnitude_of(line: &[u8], negative: bool) -> Option<(Number, &[u8])>
    ensures { Reads (λ x. x) result (magnitude_of negative (parts line.now)) }
{
    let (word, rest) = part::word(line)?;
    let magnitude = magnitude(word)?;
    Some((
        Number {
            negative,
            magnitude,
        },
        rest,
    ))
}

/// A number, or `-` and a number.
fn number(line: &[u8]) -> Option<(Number, &[u8])>
    ensures { Reads (λ x. x) result (number (parts line.now)) }
{
    match part::mark(line) {
        Some((b'-', rest)) => magnitude_of(rest, true),
        Some(_) => None,
        None => magnitude_of(line, false),
    }
}

/// `+` or `-`; the value is whether it is `-`.
fn sign(line: &[u8]) -> Option<(bool, &[u8])>
    ensures { Reads (λ x. x) result (sign (parts line.now)) }
{
    match part::mark(line)? {
        (b'+', rest) => Some((false, rest)),
        (b'-', rest) => Some((true, rest)),
        _ => None,
    }
}

/// `+` or `-` and a number.
fn distance(line: &[u8]) -> Option<(Number, &[u8])>
    ensures { Reads (λ x. x) result (distance (parts line.now)) }
{
    let (negative, rest) = sign(line)?;
    magnitude_of(rest, negative)
}

/// A register, or else a number.
fn any_operand(line: &[u8]) -> Option<(Operand, &[u8])>
    ensures { Reads operand_value result (operand (parts line.now)) }
{
    if let Some((register, rest)) = register(line) {
        return Some((Operand::Register(register), rest));
    }
    let (number, rest) = number(line)?;
    Some((Operand::Number(number), rest))
}

/// A memory place: the base and the offset.
fn place(line: &[u8]) -> Option<((Register, Number), &[u8])>
    ensures { Reads (λ x. x) result (place (parts line.now)) }
{
    let inside = mark(line, b'[')?;
    let Some((base, rest)) = register(inside) else {
        return None;
    };
    let (offset, rest) = distance(rest)?;
    let rest = mark(rest, b']')?;
    Some(((base, offset), rest))
}

/// Where a jump or a local call goes.
fn any_target(line: &[u8]) -> Option<(Target<'_>, &[u8])>
    ensures { Reads target_value result (target (parts line.now)) }
{
    if let Some((word, rest)) = part::word(line) {
        return if is_name(word) {
            Some((Target::Label(word), rest))
        } else {
            None
        };
    }
    let (number, rest) = distance(line)?;
    Some((Target::Distance(number), rest))
}

/// A register and a comma.
fn register_with_comma(line: &[u8]) -> Option<(Register, &[u8])>
    ensures { Reads (λ x. x) result (with_comma (register (parts line.now))) }
{
    let Some((register, rest)) = register(line) else {
        return None;
    };
    let rest = mark(rest, b',')?;
    Some((register, rest))
}

/// A memory place and a comma.
fn place_with_comma(line: &[u8]) -> Option<((Register, Number), &[u8])>
    ensures { Reads (λ x. x) result (with_comma (place (parts line.now))) }
{
    let Some((place, rest)) = place(line) else {
        return None;
    };
    let rest = mark(rest, b',')?;
    Some((place, rest))
}

/// One register and nothing after it.
pub(crate) fn one_register(line: &[u8]) -> Option<Register>
    ensures { result ≡ one register (parts line.now) }
{
    match register(line) {
        Some((register, rest)) if is_end(rest) => Some(register),
        _ => None,
    }
}

/// Two registers.
pub(crate) fn two_registers(line: &[u8]) -> Option<(Register, Register)>
    ensures { result ≡ two register register (parts line.now) }
{
    let Some((first, rest)) = register_with_comma(line) else {
        return None;
    };
    Some((first, one_register(rest)?))
}

/// A register and an operand.
pub(crate) fn register_and_operand(line: &[u8]) -> Option<(Register, Operand)>
    ensures { option_map (λ x. (x.0, operand_value x.1)) result ≡ two register operand (parts line.now) }
{
    let Some((first, rest)) = register_with_comma(line) else {
        return None;
    };
    match any_operand(rest) {
        Some((operand, rest)) if is_end(rest) => Some((first, operand)),
        _ => None,
    }
}

/// A target.
pub(crate) fn one_target(line: &[u8]) -> Option<Target<'_>>
    ensures { option_map target_value result ≡ one target (parts line.now) }
{
    match any_target(line) {
        Some((target, rest)) if is_end(rest) => Some(target),
        _ => None,
    }
}

/// A register, an operand and a target.
pub(crate) fn register_operand_and_target(line: &[u8]) -> Option<(Register, Operand, Target<'_>)>
    ensures { option_map (λ x. (x.0, operand_value x.1, target_value x.2)) result ≡ three register operand target (parts line.now) }
{
    let Some((first, rest)) = register_with_comma(line) else {
        return None;
    };
    let Some((second, rest)) = any_operand(rest) else {
        return None;
    };
    let rest = mark(rest, b',')?;
    match one_target(rest) {
        Some(target) => Some((first, second, target)),
        None => None,
    }
}

/// A number.
pub(crate) fn one_number(line: &[u8]) -> Option<Number>
    ensures { result ≡ one number (parts line.now) }
{
    match number(line) {
        Some((number, rest)) if is_end(rest) => Some(number),
        _ => None,
    }
}

/// A register and a number.
pub(crate) fn register_and_number(line: &[u8]) -> Option<(Register, Number)>
    ensures { result ≡ two register number (parts line.now) }
{
    let Some((first, rest)) = register_with_comma(line) else {
        return None;
    };
    Some((first, one_number(rest)?))
}

/// A register and a memory place.
pub(crate) fn register_and_place(line: &[u8]) -> Option<(Register, (Register, Number))>
    ensures { result ≡ two register place (parts line.now) }
{
    let Some((first, rest)) = register_with_comma(line) else {
        return None;
    };
    match place(rest) {
        Some((place, rest)) if is_end(rest) => Some((first, place)),
        _ => None,
    }
}

/// A memory place and a number.
pub(crate) fn place_and_number(line: &[u8]) -> Option<((Register, Number), Number)>
    ensures { result ≡ two place number (parts line.now) }
{
    let Some((first, rest)) = place_with_comma(line) else {
        return None;
    };
    Some((first, one_number(rest)?))
}

/// A memory place and a register.
pub(crate) fn place_and_register(line: &[u8]) -> Option<((Register, Number), Register)>
    ensures { result ≡ two place register (parts line.now) }
{
    let Some((first, rest)) = place_with_comma(line) else {
        return None;
    };
    Some((first, one_register(rest)?))
}
