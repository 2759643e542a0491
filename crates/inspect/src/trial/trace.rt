//! The steps of a run in words.

ghost use Rattle.std.specs.Prelude.{◌≡◌, ◌<◌, ◌+◌, ◌-◌, ◌++◌, OnOk, IfOk, string_bytes, if◌then◌else◌, [], Some};
ghost use Rattle.std.specs.Option.{option_and_then};
ghost use Rattle.helpers.specs.Helper.{helper_of};
ghost use Rattle.machine.specs.Memory.{context_bytes};
ghost use Rattle.machine.specs.State.{word};
ghost use Rattle.notes.specs.SourceLines.{source_text, values_of};
ghost use Rattle.interp.specs.Walks.{memory_as, start_as, step_as, stepped_to, with_both};
ghost use Rattle.inspect.specs.Trace.{call_touches, came_text, helper_touches, place_text, pointed_at, sector_end, sum_touches, word_text, held_text, is_same, begin_text, change_text, line_end, registers_of, changes_text, step_text, stray_text, strayed_by, strayed_bytes, touch_text, touch_at, touch_here, touches, trace_text};

use arithmetic::{byte_count, plain_size};
use base::limits::Limits;
use bpf_asm::put_instr;
use bpf_isa::instr::Instr;
use bpf_isa::program::Program;
use bpf_isa::register::Register;
use helpers::sums::taken;
use helpers::{Checksum, Context, Device, Helper};
use interp::{Halt, Walk};
use notes::{SourceLine, put_source};
use request::Trial;
use std::alloc::{AllocError, Global};

/// Where the context begins, the stacks, and the sectors.
const CONTEXT_START: u64 = 0x1_0000_0000;

const STACK_START: u64 = 0x2_0000_0000;

const SECTOR_START: u64 = 0x3_0000_0000;

/// A place that an instruction reads or writes, and by which register.
#[derive(Clone, Copy)]
pub(crate) struct Touch {
    pub(crate) register: usize,
    pub(crate) address: u64,
    /// The number of bytes.
    pub(crate) count: u64,
}

/// The end of the addresses of the sectors of a largest device within these limits.
fn sector_end(limits: Limits) -> u64
    ensures { result ≡ sector_end limits }
{
    SECTOR_START + 1024 * limits.sectors() as u64
}

/// Appends the block of a distance, and the place in it.
fn put_place(out: &mut String, distance: u64) -> Result<(), AllocError>
    ensures { OnOk result (string_bytes out.new ≡ string_bytes out.old ++ place_text distance) }
{
    write!(out, "{}+{}", distance / 1024, distance % 1024)
}

/// Appends a word, an address of a largest device within these limits as one.
#[tactic(auto, unfolding(crate::specs::Trace::word_text))]
fn put_word(out: &mut String, limits: Limits, word: u64) -> Result<(), AllocError>
    ensures { OnOk result (string_bytes out.new ≡ string_bytes out.old ++ word_text limits word) }
{
    let end = sector_end(limits);
    if word < CONTEXT_START {
        write!(out, "{word}")
    } else if word < STACK_START {
        write!(out, "context+{}", word - CONTEXT_START)
    } else if word < SECTOR_START {
        write!(out, "stack ")?;
        put_place(out, word - STACK_START)
    } else if word < end {
        write!(out, "sector ")?;
        put_place(out, word - SECTOR_START)
    } else {
        write!(out, "{word}")
    }
}

/// Appends what a register holds.
fn put_held(out: &mut String, limits: Limits, held: Option<u64>) -> Result<(), AllocError>
    ensures { OnOk result (string_bytes out.new ≡ string_bytes out.old ++ held_text limits held) }
{
    match held {
        Some(word) => put_word(out, limits, word),
        None => write!(out, "unset"),
    }
}

/// Whether a register holds the same as before.
fn is_same(before: Option<u64>, now: Option<u64>) -> bool
    ensures { result ≡ is_same before now }
{
    match before {
        Some(word) => match now {
            Some(other) => word == other,
            None => false,
        },
        None => now.is_none(),
    }
}

/// Appends a register that a step changed.
fn put_change(
    out: &mut String,
    limits: Limits,
    number: usize,
    before: Option<u64>,
    now: Option<u64>,
) -> Result<(), AllocError>
    ensures { OnOk result (string_bytes out.new ≡ string_bytes out.old ++ change_text limits number before now) }
{
    if is_same(before, now) {
        return Ok(());
    }
    write!(out, "; r{number} ")?;
    put_held(out, limits, now)
}

/// What the registers of a run hold.
#[tactic(auto, unfolding(crate::specs::Trace::registers_of))]
fn registers_of<D: Device>(walk: &Walk<'_, D>) -> [Option<u64>; 11]
    ensures { result ≡ registers_of walk.now.state }
{
    [
        walk.register(0),
        walk.register(1),
        walk.register(2),
        walk.register(3),
        walk.register(4),
        walk.register(5),
        walk.register(6),
        walk.register(7),
        walk.register(8),
        walk.register(9),
        walk.register(10),
    ]
}

/// Appends the registers that hold something else than before.
#[tactic(auto, unfolding(crate::specs::Trace::changes_text))]
fn put_changes(
    out: &mut String,
    limits: Limits,
    before: &[Option<u64>; 11],
    now: &[Option<u64>; 11],
) -> Result<(), AllocError>
    ensures { OnOk result (string_bytes out.new ≡ string_bytes out.old ++ changes_text limits before.now now.now) }
{
    for number in 0..11 {
        put_change(out, limits, number, before[number], now[number])?;
    }
    Ok(())
}

/// The word in a register, or 0.
fn word_in<D: Device>(walk: &Walk<'_, D>, number: usize) -> u64
    requires { number < 11 }
    ensures { result ≡ word walk.now.state number }
{
    walk.register(number).unwrap_or(0)
}

/// The place at a distance from the word in a register.
fn touch_at<D: Device>(walk: &Walk<'_, D>, base: Register, offset: i16, count: u64) -> Touch
    ensures { result ≡ touch_at walk.now.state base offset count }
{
    let word = word_in(walk, base.number());
    Touch {
        register: base.number(),
        address: word.wrapping_add(i64::from(offset).cast_unsigned()),
        count,
    }
}

/// The place at which the second argument of a call points.
fn pointed_at<D: Device>(walk: &Walk<'_, D>, count: u64) -> Touch
    ensures { result ≡ pointed_at walk.now.state count }
{
    Touch {
        register: 2,
        address: word_in(walk, 2),
        count,
    }
}

/// The place that a helper writes, by its number.
fn helper_touches<D: Device>(walk: &Walk<'_, D>, number: u32) -> Option<Touch>
    ensures { result ≡ option_and_then (helper_touches walk.now.state) (helper_of number) }
{
    match Helper::of(number) {
        Some(Helper::Copy) => Some(pointed_at(walk, word_in(walk, 3))),
        _ => None,
    }
}

/// The place of the bytes of a checksum, where they are of memory: those that a call takes.
fn sum_touches<D: Device>(walk: &Walk<'_, D>, checksum: Checksum) -> Option<Touch>
    ensures { result ≡ sum_touches walk.now.state checksum }
{
    match checksum {
        Checksum::OfDevice(_) => None,
        Checksum::OfMemory(_) => Some(pointed_at(walk, taken(word_in(walk, 3)))),
    }
}

/// The place that a call reads or writes, by its number.
fn call_touches<D: Device>(walk: &Walk<'_, D>, number: u32) -> Option<Touch>
    ensures { result ≡ call_touches walk.now.state number }
{
    match Checksum::of(number) {
        Some(checksum) => sum_touches(walk, checksum),
        None => helper_touches(walk, number),
    }
}

/// The place that the next instruction reads or writes, if it does.
#[tactic(auto, unfolding(crate::specs::Trace::touch_here))]
fn touch_here<D: Device>(walk: &Walk<'_, D>) -> Option<Touch>
    ensures { result ≡ touch_here walk.now.program walk.now.state }
{
    match walk.instr() {
        Some(instr) => touches(walk, &instr),
        None => None,
    }
}

/// The place that an instruction reads or writes, if it does.
fn touches<D: Device>(walk: &Walk<'_, D>, instr: &Instr) -> Option<Touch>
    ensures { result ≡ touches walk.now.state instr.now }
{
    match instr {
        Instr::Load {
            size,
            base,
            offset,
            ..
        } => Some(touch_at(walk, *base, *offset, byte_count(*size))),
        Instr::LoadSigned {
            size,
            base,
            offset,
            ..
        } => Some(touch_at(walk, *base, *offset, byte_count(plain_size(*size)))),
        Instr::StoreImmediate {
            size,
            base,
            offset,
            ..
        } => Some(touch_at(walk, *base, *offset, byte_count(*size))),
        Instr::Store {
            size,
            base,
            offset,
            ..
        } => Some(touch_at(walk, *base, *offset, byte_count(*size))),
        Instr::CallHelper { number } => call_touches(walk, number.cast_unsigned()),
        _ => None,
    }
}

/// Appends by which register a step strayed.
#[tactic(auto, unfolding(crate::specs::Trace::strayed_by))]
fn put_strayed_by(out: &mut String, register: usize) -> Result<(), AllocError>
    ensures { OnOk result (string_bytes out.new ≡ string_bytes out.old ++ strayed_by register) }
{
    write!(out, "; stray by r{register} at ")
}

/// Appends how many bytes a step that strayed would have read or written.
#[tactic(auto, unfolding(crate::specs::Trace::strayed_bytes))]
fn put_strayed_bytes(out: &mut String, count: u64) -> Result<(), AllocError>
    ensures { OnOk result (string_bytes out.new ≡ string_bytes out.old ++ strayed_bytes count) }
{
    write!(out, " bytes {count}")
}

/// Appends the place at which a step strayed.
fn put_touch(out: &mut String, limits: Limits, touch: Touch) -> Result<(), AllocError>
    ensures { OnOk result (string_bytes out.new ≡ string_bytes out.old ++ touch_text limits touch) }
{
    put_strayed_by(out, touch.register)?;
    put_word(out, limits, touch.address)?;
    put_strayed_bytes(out, touch.count)
}

/// Appends where a step strayed.
fn put_stray(out: &mut String, limits: Limits, touch: Option<Touch>) -> Result<(), AllocError>
    ensures { OnOk result (string_bytes out.new ≡ string_bytes out.old ++ stray_text limits touch) }
{
    match touch {
        Some(touch) => put_touch(out, limits, touch),
        None => Ok(()),
    }
}

/// Appends what is said of a step that came to this, before which these were in the registers and this was the place.
fn put_came<D: Device>(
    out: &mut String,
    limits: Limits,
    before: &[Option<u64>; 11],
    touch: Option<Touch>,
    end: Option<Halt>,
    walk: &Walk<'_, D>,
) -> Result<(), AllocError>
    ensures { OnOk result (string_bytes out.new ≡ string_bytes out.old ++ came_text limits before.now touch (stepped_to walk.now end)) }
{
    match end {
        None => put_changes(out, limits, before, &registers_of(walk)),
        Some(Halt::Stray(_)) => put_stray(out, limits, touch),
        Some(Halt::Verdict(_) | Halt::Fault { .. }) => Ok(()),
    }
}

/// Appends the number of a step, its slot and the instruction there.
#[tactic(auto, unfolding(crate::specs::Trace::begin_text))]
fn put_begin<D: Device>(out: &mut String, number: u64, walk: &Walk<'_, D>) -> Result<(), AllocError>
    ensures { OnOk result (string_bytes out.new ≡ string_bytes out.old ++ begin_text walk.now.program number walk.now.state) }
{
    write!(out, "step {number} slot {} ", walk.slot())?;
    match walk.instr() {
        Some(instr) => put_instr(out, &instr),
        None => Ok(()),
    }
}

/// Ends the line of a step with the place in C of its slot, where that is known.
#[tactic(auto, unfolding(crate::specs::Trace::line_end))]
fn put_line_end(
    alloc: Global,
    out: &mut String,
    lines: &[SourceLine<'_>],
    slot: u32,
) -> Result<(), AllocError>
    ensures { OnOk result (string_bytes out.new ≡ string_bytes out.old ++ line_end (values_of lines.now) slot) }
{
    put_source(alloc, out, lines, slot)?;
    write!(out, "\n")
}

/// Makes a step, and appends its line, with the place in C of its slot where that is known. Answers what the run ended in, if it did.
#[tactic(auto, unfolding(crate::specs::Trace::step_text))]
fn put_step<D: Device>(
    alloc: Global,
    out: &mut String,
    limits: Limits,
    lines: &[SourceLine<'_>],
    number: u64,
    walk: &mut Walk<'_, D>,
) -> Result<Option<Halt>, AllocError>
    ensures line { OnOk result (string_bytes out.new ≡ string_bytes out.old ++ step_text limits (values_of lines.now) walk.old.program number walk.old.state (step_as walk.old.guards walk.old.program walk.old.context walk.old.device walk.old.memory walk.old.state)) }
    ensures made { IfOk result (λ end. stepped_to walk.new end ≡ step_as walk.old.guards walk.old.program walk.old.context walk.old.device walk.old.memory walk.old.state) }
    ensures same { walk.new ≡ with_both walk.old walk.new.state walk.new.memory }
{
    put_begin(out, number, walk)?;
    let slot = walk.slot();
    let before = registers_of(walk);
    let touch = touch_here(walk);
    let end = walk.step();
    put_came(out, limits, &before, touch, end, walk)?;
    put_line_end(alloc, out, lines, slot)?;
    Ok(end)
}

/// Makes a step, and appends its line if that is wanted. Answers what the run ended in, if it did.
fn trace_step<D: Device>(
    alloc: Global,
    out: &mut String,
    limits: Limits,
    lines: &[SourceLine<'_>],
    number: u64,
    wanted: bool,
    walk: &mut Walk<'_, D>,
) -> Result<Option<Halt>, AllocError>
    ensures line { OnOk result (string_bytes out.new ≡ string_bytes out.old ++ (if wanted then step_text limits (values_of lines.now) walk.old.program number walk.old.state (step_as walk.old.guards walk.old.program walk.old.context walk.old.device walk.old.memory walk.old.state) else [])) }
    ensures made { IfOk result (λ end. stepped_to walk.new end ≡ step_as walk.old.guards walk.old.program walk.old.context walk.old.device walk.old.memory walk.old.state) }
    ensures same { walk.new ≡ with_both walk.old walk.new.state walk.new.memory }
{
    if wanted {
        put_step(alloc, out, limits, lines, number, walk)
    } else {
        Ok(walk.step())
    }
}

/// Makes that many steps, or fewer where the run ends, and appends the lines of those whose numbers are above another. The first step has
/// number 1.
#[inline(never)]
fn put_trace<D: Device>(
    alloc: Global,
    out: &mut String,
    limits: Limits,
    lines: &[SourceLine<'_>],
    walk: &mut Walk<'_, D>,
    steps: u64,
    above: u64,
) -> Result<(), AllocError>
    ensures { OnOk result (string_bytes out.new ≡ string_bytes out.old ++ trace_text limits (values_of lines.now) walk.old.guards walk.old.program walk.old.context walk.old.device steps 1 above walk.old.memory walk.old.state) }
{
    for made in 0..steps {
        let number = made + 1;
        let end = trace_step(alloc, out, limits, lines, number, above < number, walk)?;
        if let Some(_halt) = end {
            return Ok(());
        }
    }
    Ok(())
}

/// Appends the lines of the last steps of a run of a program, with guards or without, as many as are asked for. The run makes that
/// many steps.
pub(crate) fn put_last<D: Device>(
    alloc: Global,
    out: &mut String,
    lines: &[SourceLine<'_>],
    program: &Program,
    context: &Context,
    device: &D,
    asked: &Trial,
    steps: u64,
) -> Result<(), AllocError>
    ensures { OnOk result (string_bytes out.new ≡ string_bytes out.old ++ trace_text asked.now.limits (values_of lines.now) asked.now.guards program.now (context_bytes context.now) (D.content device.now) steps 1 (steps - asked.now.trace) (memory_as asked.now.guards) (start_as asked.now.guards)) }
{
    let mut walk = Walk::new(alloc, program, context, device, asked.guards)?;
    let above = steps.saturating_sub(asked.trace);
    put_trace(alloc, out, asked.limits, lines, &mut walk, steps, above)
}
