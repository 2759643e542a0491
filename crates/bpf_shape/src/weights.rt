//! What slots weigh, and the longest paths of entries.

ghost use Rattle.std.specs.Prelude.{◌≡◌, ◌<◌, ◌≤◌, ℕ, Some, true, OnOk, IfOk, length};
ghost use Rattle.bpf_isa.specs.Program.{IsProgram};
ghost use Rattle.bpf_shape.specs.Edges.{control};
ghost use Rattle.bpf_shape.specs.Calls.{callee};
ghost use Rattle.bpf_shape.specs.Search.{EdgesFit, EntriesFit};
ghost use Rattle.bpf_shape.specs.Budget.{most_calls};
ghost use Rattle.bpf_shape.specs.Rules.{Holds};
ghost use Rattle.base.specs.declared.causes.VerifierCause.TheVariants as cause;
ghost use Rattle.bpf_shape.specs.Lengths.{length_of, marked_length, IsGreatest, IsGreatestFrom, AreGreatest, IsWeighed, AreWeighed, AreLengths};

use crate::calls::{callee, has_calls};
use crate::lengths::path_lengths;
use crate::search::{EdgeKind, reached_from};
use bpf_isa::program::Program;
use std::alloc::{AllocError, Global};

/// How deep local calls are followed.
const MOST_CALLS: usize = 3;

/// The length of a slot, if it is marked, else 0.
fn marked_length(lengths: &Vec<Option<u64>>, marks: &Vec<bool>, slot: usize) -> u64
    requires lengths { slot < length lengths.now.items }
    requires marks { slot < length marks.now.items }
    ensures { result ≡ marked_length lengths.now.items marks.now.items slot }
{
    if marks[slot] {
        match lengths[slot] {
            Some(length) => length,
            None => 0,
        }
    } else {
        0
    }
}

/// The greatest length of the marked slots.
fn greatest(lengths: &Vec<Option<u64>>, marks: &Vec<bool>) -> u64
    requires { length marks.now.items ≡ length lengths.now.items }
    ensures { IsGreatest lengths.now.items marks.now.items (length lengths.now.items) result }
{
    let mut longest = 0;
    for slot in 0..lengths.len() {
        longest = longest.max(marked_length(lengths, marks, slot));
    }
    longest
}

/// The greatest length of the slots that are reached from an entry.
pub(crate) fn greatest_from(
    alloc: Global,
    program: &Program,
    lengths: &Vec<Option<u64>>,
    entry: usize,
) -> Result<u64, AllocError>
    requires edges { EdgesFit (control program.now) (length program.now) }
    requires entry { entry < length program.now }
    requires lengths { length lengths.now.items ≡ length program.now }
    ensures { IfOk result (λ k. IsGreatestFrom program.now lengths.now.items entry k) }
{
    let marks = reached_from(alloc, program, EdgeKind::All, entry)?;
    Ok(greatest(lengths, &marks))
}

/// The greatest number from an entry on, which is kept for the next call with that entry.
fn known_greatest(
    alloc: Global,
    program: &Program,
    lengths: &Vec<Option<u64>>,
    longest: &mut Vec<Option<u64>>,
    entry: usize,
) -> Result<u64, AllocError>
    requires edges { EdgesFit (control program.now) (length program.now) }
    requires entry { entry < length program.now }
    requires lengths { length lengths.now.items ≡ length program.now }
    requires long { length longest.old.items ≡ length program.now }
    requires known { AreGreatest program.now lengths.now.items longest.old.items }
    ensures long { length longest.new.items ≡ length longest.old.items }
    ensures known { OnOk result (AreGreatest program.now lengths.now.items longest.new.items) }
    ensures greatest { IfOk result (λ k. IsGreatestFrom program.now lengths.now.items entry k) }
{
    if let Some(length) = longest[entry] {
        return Ok(length);
    }
    let length = greatest_from(alloc, program, lengths, entry)?;
    longest[entry] = Some(length);
    Ok(length)
}

/// What a slot weighs by these lengths: 1, and a local call one more than the greatest length of the
/// slots that are reached from its entry.
fn weigh_slot(
    alloc: Global,
    program: &Program,
    lengths: &Vec<Option<u64>>,
    longest: &mut Vec<Option<u64>>,
    slot: usize,
) -> Result<u64, AllocError>
    requires edges { EdgesFit (control program.now) (length program.now) }
    requires entries { EntriesFit program.now }
    requires lengths { length lengths.now.items ≡ length program.now }
    requires few { (s k : ℕ) → length_of lengths.now.items s ≡ Some k → k ≤ 562949953421312 }
    requires long { length longest.old.items ≡ length program.now }
    requires known { AreGreatest program.now lengths.now.items longest.old.items }
    ensures long { length longest.new.items ≡ length longest.old.items }
    ensures known { OnOk result (AreGreatest program.now lengths.now.items longest.new.items) }
    ensures weight { IfOk result (λ weight. IsWeighed program.now lengths.now.items (callee program.now slot) weight) }
{
    match callee(program, slot) {
        Some(entry) => Ok(1 + known_greatest(alloc, program, lengths, longest, entry)?),
        None => Ok(1),
    }
}

/// What each slot weighs by these lengths.
fn weigh(
    alloc: Global,
    program: &Program,
    lengths: &Vec<Option<u64>>,
) -> Result<Vec<u64>, AllocError>
    requires edges { EdgesFit (control program.now) (length program.now) }
    requires entries { EntriesFit program.now }
    requires lengths { length lengths.now.items ≡ length program.now }
    requires few { (s k : ℕ) → length_of lengths.now.items s ≡ Some k → k ≤ 562949953421312 }
    ensures { IfOk result (λ weights. AreWeighed program.now lengths.now.items (length program.now) weights.items) }
{
    let mut longest = Vec::new(alloc);
    longest.resize(program.slots(), None)?;
    let mut weights = Vec::new(alloc);
    for slot in 0..program.slots() {
        let weight = weigh_slot(alloc, program, lengths, &mut longest, slot)?;
        weights.push(weight)?;
    }
    Ok(weights)
}

/// The lengths of paths where no local call is followed: each slot weighs 1.
pub(crate) fn plain_lengths(
    alloc: Global,
    program: &Program,
) -> Result<Vec<Option<u64>>, AllocError>
    ensures lengths { IfOk result (λ lengths. AreLengths program.now 0 lengths.items) }
    ensures program { OnOk result (IsProgram program.now) }
{
    let mut weights = Vec::new(alloc);
    weights.resize(program.slots(), 1)?;
    let lengths = path_lengths(alloc, program, &weights)?;
    Ok(lengths)
}

/// The lengths of paths where local calls are followed three deep, from those where none is.
pub(crate) fn followed_lengths(
    alloc: Global,
    program: &Program,
    lengths: Vec<Option<u64>>,
) -> Result<Vec<Option<u64>>, AllocError>
    requires edges { EdgesFit (control program.now) (length program.now) }
    requires entries { EntriesFit program.now }
    requires loops { Holds true program.now cause.Loop }
    requires program { IsProgram program.now }
    requires lengths { AreLengths program.now 0 lengths.items }
    ensures { IfOk result (λ followed. AreLengths program.now most_calls followed.items) }
{
    if !has_calls(program) {
        return Ok(lengths);
    }
    let mut lengths = lengths;
    for _depth in 0..MOST_CALLS {
        let weights = weigh(alloc, program, &lengths)?;
        lengths = path_lengths(alloc, program, &weights)?;
    }
    Ok(lengths)
}
