//! All the work of a run.

ghost use Rattle.std.specs.Prelude.{◌≡◌, ◌≤◌, false, map, IfOk, IfErr};
ghost use Rattle.std.specs.List.Sorted.{IsNonDecreasing};
ghost use Rattle.base.specs.Refusals.{memory_refusal};
ghost use Rattle.workers.specs.Failing.{failing_lines};
ghost use Rattle.report.specs.Line.{first_lines};
ghost use Rattle.workers.specs.Exploring.{ArePiecesOf};
ghost use Rattle.workers.specs.Input.{IsRunOf};
ghost use Rattle.workers.specs.Laws.{BeginsWithFirst};
ghost use Rattle.workers.specs.Pieces.{RefusesPieces};

use crate::cache::Shards;
use crate::collecting::collect;
use crate::crew::{Back, crew_back};
use crate::gate::Gate;
use crate::input::Input;
use crate::piece::Piece;
use crate::settling::with_left;
use base::refusal::Refusal;
use report::lines::Lines;
use std::alloc::Global;
use std::marker::Brand;
use std::sync::Wait;
use std::thread::Threads;
use verdict_cache::{Run, shards};

/// What the work gives.
#[derive(Drop)]
pub struct Work {
    /// The failing lines, by image and then by program.
    pub lines: Lines,
    /// How many judgements were taken from the cache, at most 2^64 - 1.
    pub hits: u64,
}

/// The pieces of all blocks, one of each.
fn all_pieces<'a, J: Run + Send + Sync, G: Gate + Sync, R: Threads + Wait + Sync>(
    rt: &R,
    alloc: Global,
    gate: &G,
    input: &Input<'a>,
    shards: &Shards<'_, 'a, J>,
) -> Result<Vec<Piece>, Refusal>
    requires run { IsRunOf J.plan J.checkers input.now }
    ensures pieces { IfOk result (λ pieces. ArePiecesOf input.now pieces.items) }
    ensures refused { IfErr result (λ r. r ≡ memory_refusal) }
{
    let crew = input.crew();
    let back = match crew_back::<J, Brand, G, R>(rt, alloc, gate, input, shards, crew) {
        Ok(back) => back,
        Err(_error) => return Err(Refusal::of_memory()),
    };
    let Back {
        board,
        seats,
        pieces,
        left,
        refused,
    } = back;
    if let Err(refusal) = board.gather(seats) {
        return Err(refusal);
    }
    if !refused {
        return Ok(pieces);
    }
    match with_left(rt, gate, input, shards, pieces, left.as_slice()) {
        Ok(pieces) => Ok(pieces),
        Err(_error) => Err(Refusal::of_memory()),
    }
}

/// The work of the run that `J` names.
fn explore_by<J: Run + Send + Sync, G: Gate + Sync, R: Threads + Wait + Sync>(
    rt: &R,
    alloc: Global,
    gate: &G,
    input: &Input<'_>,
    cache: u32,
) -> Result<Work, Refusal>
    requires run { IsRunOf J.plan J.checkers input.now }
    requires cache { (cache ≡ J.size) × (cache ≤ 65536) }
    ensures whole { IfOk result (λ work. input.now.first ≡ false → work.lines ≡ failing_lines input.now) }
    ensures first { IfOk result (λ work. first_lines work.lines ≡ first_lines (failing_lines input.now)) }
    ensures begins { IfOk result (λ work. BeginsWithFirst (failing_lines input.now) work.lines) }
    ensures order { IfOk result (λ work. IsNonDecreasing (map (λ l. l.image) work.lines)) }
    ensures refused { IfErr result (λ r. r ≡ memory_refusal) }
{
    let locks = match shards::<J>(alloc, input.history(), input.checkers(), cache) {
        Ok(locks) => locks,
        Err(_error) => return Err(Refusal::of_memory()),
    };
    let shards = Shards::new(alloc, locks.as_slice());
    let pieces = match all_pieces(rt, alloc, gate, input, &shards) {
        Ok(pieces) => pieces,
        Err(refusal) => return Err(refusal),
    };
    match collect(alloc, pieces, input.first_image(), input.block_count()) {
        Ok(lines) => Ok(Work {
            lines,
            hits: shards.hits(rt),
        }),
        Err(refusal) => Err(refusal),
    }
}

/// Judges the images that are asked of a run, and answers the failing lines: all of them, or with `first` those of
/// the first failing image and perhaps some after them, since blocks that lie wholly after a failing image
/// are passed over. It takes as many workers as `Input::new` was told, but no more than there are blocks:
/// the caller is worker 0, and each other one has a thread of its own, where one can be made. `gate` is
/// told how many images are judged first, and then of each block before and after it is taken.
///
/// How many workers there are, and how much they keep, changes no line. It waits until all are back.
///
/// # Errors
///
/// Want of memory, and nothing else.
pub fn explore_all<G: Gate + Sync, R: Threads + Wait + Sync>(
    rt: &R,
    alloc: Global,
    gate: &G,
    input: &Input<'_>,
) -> Result<Work, Refusal>
    ensures whole { IfOk result (λ work. input.now.first ≡ false → work.lines ≡ failing_lines input.now) }
    ensures first { IfOk result (λ work. first_lines work.lines ≡ first_lines (failing_lines input.now)) }
    ensures begins { IfOk result (λ work. BeginsWithFirst (failing_lines input.now) work.lines) }
    ensures order { IfOk result (λ work. IsNonDecreasing (map (λ l. l.image) work.lines)) }
    ensures refused { IfErr result (λ r. r ≡ memory_refusal) }
{
    gate.begin(input.judged_count());
    explore_by::<Brand, G, R>(rt, alloc, gate, input, input.cache())
}
