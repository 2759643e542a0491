//! The rules of the whole program, and `shape`.

ghost use Rattle.std.specs.Prelude.{◌≡◌, ◌+◌, ◌*◌, ◌<◌, ◌≤◌, ◌⊎◌, true, IsTrue, IsFalse, ◌↔◌, OnOk, IfOk, IfErr, length};
ghost use Rattle.bpf_isa.specs.Program.{IsProgram};
ghost use Rattle.bpf_shape.specs.Fault.{memory_fault};
ghost use Rattle.bpf_shape.specs.Edges.{control};
ghost use Rattle.bpf_shape.specs.Again.{plain};
ghost use Rattle.bpf_shape.specs.Paths.{OnCycle};
ghost use Rattle.bpf_shape.specs.Search.{EdgesFit, EntriesFit};
ghost use Rattle.bpf_shape.specs.Lengths.{AreLengths, IsProduct, HasBudget};
ghost use Rattle.bpf_shape.specs.Rules.{Holds, FirstBroken};
ghost use Rattle.bpf_shape.specs.Keeping.{IsBrokenAt, IsFirstOfPaths};
ghost use Rattle.bpf_shape.specs.Shape.{IsShapeOf};
ghost use Rattle.base.specs.declared.causes.VerifierCause.TheVariants as cause;

use crate::again::{heads, plain, turns};
use crate::depth::keep_calls;
use crate::fault::Fault;
use crate::rules::keep_all;
use crate::search::{EdgeKind, reach_of_edges};
use crate::value::Shape;
use crate::weights::{followed_lengths, greatest_from, plain_lengths};
use base::causes::VerifierCause;
use bpf_isa::program::Program;
use std::alloc::{AllocError, Global};

/// The greatest budget of a program.
pub const MOST_STEPS: u64 = 1_000_000_000;

/// Whether a slot is on a cycle of edges without again edges. One with a longest path is on none.
fn is_on_cycle(
    alloc: Global,
    program: &Program,
    lengths: &Vec<Option<u64>>,
    slot: usize,
) -> Result<bool, AllocError>
    requires edges { EdgesFit (plain program.now) (length program.now) }
    requires lengths { AreLengths program.now 0 lengths.now.items }
    requires slot { slot < length program.now }
    ensures { IfOk result (λ found. IsTrue found ↔ OnCycle (plain program.now) slot) }
{
    if lengths[slot].is_some() {
        return Ok(false);
    }
    let marks = reach_of_edges(alloc, program, EdgeKind::Plain, plain(program, slot))?;
    Ok(marks[slot])
}

/// Tests that there is no cycle without again edges, and names the lowest slot on one.
fn keep_loops(alloc: Global, program: &Program, lengths: &Vec<Option<u64>>) -> Result<(), Fault>
    requires edges { EdgesFit (plain program.now) (length program.now) }
    requires lengths { AreLengths program.now 0 lengths.now.items }
    ensures kept { OnOk result (Holds true program.now cause.Loop) }
    ensures refused { IfErr result (λ f. (f ≡ memory_fault) ⊎ IsBrokenAt true program.now cause.Loop f) }
{
    for slot in 0..program.slots() {
        if is_on_cycle(alloc, program, lengths, slot)? {
            return Err(Fault::at(VerifierCause::Loop, slot));
        }
    }
    Ok(())
}

/// Tests that there is no cycle without again edges, then the local calls within local calls.
fn keep_paths(alloc: Global, program: &Program, lengths: &Vec<Option<u64>>) -> Result<(), Fault>
    requires plain { EdgesFit (plain program.now) (length program.now) }
    requires edges { EdgesFit (control program.now) (length program.now) }
    requires entries { EntriesFit program.now }
    requires program { IsProgram program.now }
    requires lengths { AreLengths program.now 0 lengths.now.items }
    ensures loops { OnOk result (Holds true program.now cause.Loop) }
    ensures calls { OnOk result (Holds true program.now cause.CallDepth) }
    ensures refused { IfErr result (λ f. (f ≡ memory_fault) ⊎ IsFirstOfPaths program.now f) }
{
    let loops = keep_loops(alloc, program, lengths);
    let calls = keep_calls(alloc, program);
    loops.and(calls)
}

/// The budget, from the sum of all K and the longest path; none, where it is above what is accepted.
#[tactic(auto, using(crate::proofs::Budgets::product_fits))]
fn steps(turns: u64, longest: u64) -> Option<u64>
    requires { turns ≤ 4294967296 }
    ensures { IsProduct turns longest result }
{
    if longest > MOST_STEPS {
        return None;
    }
    let steps = (1 + turns) * longest;
    if steps > MOST_STEPS {
        None
    } else {
        Some(steps)
    }
}

/// The budget of a program without cycles; none, where it is above what is accepted.
fn budget(
    alloc: Global,
    program: &Program,
    lengths: Vec<Option<u64>>,
) -> Result<Option<u64>, AllocError>
    requires edges { EdgesFit (control program.now) (length program.now) }
    requires entries { EntriesFit program.now }
    requires loops { Holds true program.now cause.Loop }
    requires program { IsProgram program.now }
    requires lengths { AreLengths program.now 0 lengths.items }
    ensures { IfOk result (λ found. HasBudget program.now found) }
{
    let followed = followed_lengths(alloc, program, lengths)?;
    let longest = greatest_from(alloc, program, &followed, 0)?;
    Ok(steps(turns(program), longest))
}

/// The shape of a program, with guards or without, or the first of the shape rules that it breaks, at the lowest slot
/// that does (docs/VERIFIER.md, Shape rules and Budget).
pub fn shape(alloc: Global, program: &Program, guards: bool) -> Result<Shape, Fault>
    ensures shape { IfOk result (λ shape. IsShapeOf guards program.now shape) }
    ensures refused { IfErr result (λ f. (f ≡ memory_fault) ⊎ FirstBroken guards program.now f.code f.slot) }
{
    keep_all(program, guards)?;
    let lengths = plain_lengths(alloc, program)?;
    keep_paths(alloc, program, &lengths)?;
    match budget(alloc, program, lengths)? {
        Some(budget) => {
            let heads = heads(alloc, program)?;
            Ok(Shape::new(budget, heads))
        }
        None => Err(Fault::at(VerifierCause::Budget, 0)),
    }
}
