//! The weight of the longest path of each slot, without again edges, by the weights of the slots.

ghost use Rattle.std.specs.Prelude.{◌≡◌, ◌<◌, ◌≤◌, ℕ, IsTrue, IsFalse, OnOk, IfOk, Some, length};
ghost use Rattle.bpf_isa.specs.Program.{IsProgram};
ghost use Rattle.bpf_shape.specs.Again.{plain};
ghost use Rattle.bpf_shape.specs.Lengths.{weight_at, heaviest, length_of, after_edge, length_from, known_count, AreHeavy, ArePartial, AreSettled, IsStuck};

use crate::again::plain;
use crate::edges::Edges;
use bpf_isa::program::Program;
use std::alloc::{AllocError, Global};

/// What a slot weighs.
fn weight_at(weights: &Vec<u64>, slot: usize) -> u64
    requires { slot < length weights.now.items }
    ensures { result ≡ weight_at weights.now.items slot }
{
    weights[slot]
}

/// The length after an edge; 0 where there is no edge.
fn after_edge(lengths: &Vec<Option<u64>>, slot: Option<usize>) -> Option<u64>
    ensures { result ≡ after_edge lengths.now.items slot }
{
    match slot {
        Some(slot) => {
            if slot < lengths.len() {
                lengths[slot]
            } else {
                None
            }
        }
        None => Some(0),
    }
}

/// A weight and the greater of the lengths after two edges, where both are known.
#[tactic(auto, unfolding(crate::specs::Lengths::length_from))]
fn length_from(weight: u64, lengths: &Vec<Option<u64>>, edges: Edges) -> Option<u64>
    requires weight { weight ≤ 137438953472 }
    requires lengths { (s k : ℕ) → length_of lengths.now.items s ≡ Some k → k ≤ 562949953421312 }
    ensures { result ≡ length_from weight lengths.now.items edges }
{
    let next = after_edge(lengths, edges.next)?;
    let target = after_edge(lengths, edges.target)?;
    Some(weight + next.max(target))
}

/// Gives a slot its length, where it has none and those after its edges are known.
fn settle(
    program: &Program,
    weights: &Vec<u64>,
    lengths: &mut Vec<Option<u64>>,
    slot: usize,
) -> bool
    requires slot { slot < length program.now }
    requires count { length program.now ≤ 4096 }
    requires weights { heaviest weights.now.items ≤ 137438953472 }
    requires partial { ArePartial (plain program.now) (length program.now) weights.now.items lengths.old.items }
    ensures partial { ArePartial (plain program.now) (length program.now) weights.now.items lengths.new.items }
    ensures more { IsTrue result → known_count lengths.old.items < known_count lengths.new.items }
    ensures same { IsFalse result → lengths.new.items ≡ lengths.old.items }
    ensures stuck { IsFalse result → IsStuck (plain program.now) weights.now.items lengths.new.items slot }
{
    if lengths[slot].is_some() {
        return false;
    }
    match length_from(weight_at(weights, slot), lengths, plain(program, slot)) {
        Some(length) => {
            lengths[slot] = Some(length);
            true
        }
        None => false,
    }
}

/// Goes over the slots once, from the highest to the lowest, and says whether one got its length.
fn sweep(program: &Program, weights: &Vec<u64>, lengths: &mut Vec<Option<u64>>) -> bool
    requires weights { heaviest weights.now.items ≤ 137438953472 }
    requires partial { ArePartial (plain program.now) (length program.now) weights.now.items lengths.old.items }
    ensures partial { ArePartial (plain program.now) (length program.now) weights.now.items lengths.new.items }
    ensures more { IsTrue result → known_count lengths.old.items < known_count lengths.new.items }
    ensures stuck { IsFalse result → (s : ℕ) → s < length program.now → IsStuck (plain program.now) weights.now.items lengths.new.items s }
{
    let mut found = false;
    let mut slot = program.slots();
    while 0 < slot {
        slot -= 1;
        if settle(program, weights, lengths, slot) {
            found = true;
        }
    }
    found
}

/// For each slot the weight of its longest path; none, where a path from it comes to a loop.
pub(crate) fn path_lengths(
    alloc: Global,
    program: &Program,
    weights: &Vec<u64>,
) -> Result<Vec<Option<u64>>, AllocError>
    requires heavy { AreHeavy (length program.now) weights.now.items }
    requires weights { heaviest weights.now.items ≤ 137438953472 }
    ensures settled { IfOk result (λ lengths. AreSettled (plain program.now) (length program.now) weights.now.items lengths.items) }
    ensures program { OnOk result (IsProgram program.now) }
{
    let mut lengths = Vec::new(alloc);
    lengths.resize(program.slots(), None)?;
    while sweep(program, weights, &mut lengths) {}
    Ok(lengths)
}
