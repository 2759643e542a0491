//! Calls of `again`, and the edges and heads that they make.

ghost use Rattle.std.specs.Prelude.{◌≡◌, ◌≤◌, ◌*◌, IfSome, IfOk};
ghost use Rattle.bpf_shape.specs.Search.{with_mark};
ghost use Rattle.bpf_shape.specs.Again.{helper_number, calls_again, limit_of, zero_test, limit_before, answer_test, again_edge, plain, is_slot, aims_at, is_target, heads, turns_at, turns};

use crate::calls::callee;
use crate::edges::{Edges, control};
use bpf_isa::instr::{Condition, Instr, Operator, Source, Width};
use bpf_isa::program::Program;
use bpf_isa::ready::{AGAIN_NUMBER, MOST_TURNS};
use std::alloc::{AllocError, Global};

/// The number of the helper that an instruction calls.
pub(crate) fn helper_number(instr: &Instr) -> Option<u32>
    ensures { result ≡ helper_number instr.now }
{
    match instr {
        Instr::CallHelper { number } => Some(number.cast_unsigned()),
        _ => None,
    }
}

/// Whether the instruction at a slot calls `again`.
#[tactic(auto, unfolding(crate::specs::Again::calls_again))]
pub(crate) fn calls_again(program: &Program, slot: usize) -> bool
    ensures { result ≡ calls_again program.now slot }
{
    match program.at(slot) {
        Some(instr) => helper_number(&instr) == Some(AGAIN_NUMBER),
        None => false,
    }
}

/// K of `mov64 r1, K`, where it is in its range.
#[tactic(auto, unfolding(crate::specs::Again::limit_of))]
fn limit_of(instr: &Instr) -> Option<u64>
    ensures value { result ≡ limit_of instr.now }
    ensures bound { IfSome result (λ limit. limit ≤ 1048576) }
{
    match instr {
        Instr::Arithmetic {
            width: Width::W64,
            operator: Operator::Mov,
            dst,
            source: Source::Immediate(n),
        } => {
            let limit = i64::from(*n).cast_unsigned();
            if dst.number() == 1 && 1 <= limit && limit <= MOST_TURNS {
                Some(limit)
            } else {
                None
            }
        }
        _ => None,
    }
}

/// The condition of a jump that compares r0 with the constant 0, in 64 bits.
#[tactic(auto, unfolding(crate::specs::Again::zero_test))]
fn zero_test(instr: &Instr) -> Option<Condition>
    ensures { result ≡ zero_test instr.now }
{
    match instr {
        Instr::Branch {
            width: Width::W64,
            condition,
            dst,
            source: Source::Immediate(n),
            ..
        } => {
            if dst.number() == 0 && *n == 0 {
                Some(*condition)
            } else {
                None
            }
        }
        _ => None,
    }
}

/// K of a call of `again` at a slot, from the slot before.
#[tactic(auto, unfolding(crate::specs::Again::limit_before))]
pub(crate) fn limit_before(program: &Program, slot: usize) -> Option<u64>
    ensures value { result ≡ limit_before program.now slot }
    ensures bound { IfSome result (λ limit. limit ≤ 1048576) }
{
    if slot == 0 {
        return None;
    }
    match program.at(slot - 1) {
        Some(instr) => limit_of(&instr),
        None => None,
    }
}

/// The condition that a slot after a call of `again` tests of its answer.
#[tactic(auto, unfolding(crate::specs::Again::answer_test))]
pub(crate) fn answer_test(program: &Program, slot: usize) -> Option<Condition>
    ensures { result ≡ answer_test program.now slot }
{
    if slot == 0 || !calls_again(program, slot - 1) {
        return None;
    }
    match program.at(slot) {
        Some(instr) => zero_test(&instr),
        None => None,
    }
}

/// The again edge of a slot: the edge for r0 not 0, of the test after a call of `again`.
#[tactic(auto, unfolding(crate::specs::Again::again_edge))]
pub(crate) fn again_edge(program: &Program, slot: usize) -> Option<usize>
    ensures { result ≡ again_edge program.now slot }
{
    match answer_test(program, slot) {
        Some(Condition::Eq) => control(program, slot).next,
        Some(Condition::Ne) => control(program, slot).target,
        _ => None,
    }
}

/// The control edges of a slot without its again edge.
#[tactic(auto, unfolding(crate::specs::Again::plain))]
pub(crate) fn plain(program: &Program, slot: usize) -> Edges
    ensures { result ≡ plain program.now slot }
{
    let edges = control(program, slot);
    match answer_test(program, slot) {
        Some(Condition::Eq) => Edges {
            next: None,
            target: edges.target,
        },
        Some(Condition::Ne) => Edges {
            next: edges.next,
            target: None,
        },
        _ => edges,
    }
}

/// Whether an edge leads to that slot.
fn is_slot(slot: usize, to: Option<usize>) -> bool
    ensures { result ≡ is_slot slot to }
{
    match to {
        Some(t) => t == slot,
        None => false,
    }
}

/// Whether the jump or the local call at a slot leads to that slot.
fn aims_at(program: &Program, slot: usize, from: usize) -> bool
    ensures { result ≡ aims_at program.now slot from }
{
    is_slot(slot, control(program, from).target) || is_slot(slot, callee(program, from))
}

/// Whether a jump or a local call leads to a slot.
#[tactic(auto, unfolding(crate::specs::Again::is_target))]
pub(crate) fn is_target(program: &Program, slot: usize) -> bool
    ensures { result ≡ is_target program.now slot }
{
    for from in 0..program.slots() {
        if aims_at(program, slot, from) {
            return true;
        }
    }
    false
}

/// For each slot, whether an again edge leads to it.
pub(crate) fn heads(alloc: Global, program: &Program) -> Result<Vec<bool>, AllocError>
    ensures { IfOk result (λ marks. marks.items ≡ heads program.now) }
{
    let mut marks = Vec::new(alloc);
    marks.resize(program.slots(), false)?;
    for slot in 0..program.slots() {
        mark(&mut marks, again_edge(program, slot));
    }
    Ok(marks)
}

/// Marks a slot, if there is one.
fn mark(marks: &mut Vec<bool>, slot: Option<usize>)
    ensures { marks.new.items ≡ with_mark marks.old.items slot }
{
    if let Some(slot) = slot
        && slot < marks.len()
    {
        marks[slot] = true;
    }
}

/// What the call at a slot adds to the sum of all K.
#[tactic(auto, unfolding(crate::specs::Again::turns_at))]
fn turns_at(program: &Program, slot: usize) -> u64
    ensures value { result ≡ turns_at program.now slot }
    ensures bound { result ≤ 1048576 }
{
    if calls_again(program, slot) {
        limit_before(program, slot).unwrap_or(0)
    } else {
        0
    }
}

/// The sum of K over all calls of `again`.
#[tactic(auto, unfolding(crate::specs::Again::turns))]
pub(crate) fn turns(program: &Program) -> u64
    ensures value { result ≡ turns program.now }
    ensures bound { result ≤ 4096 * 1048576 }
{
    let mut total = 0;
    for slot in 0..program.slots() {
        total += turns_at(program, slot);
    }
    total
}
