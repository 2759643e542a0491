//! The blocks that workers left in their hands.

ghost use Rattle.std.specs.Prelude.{◌≡◌, ◌<◌, ◌++◌, All, IfOk, map};
ghost use Rattle.workers.specs.Input.{IsRunOf};
ghost use Rattle.workers.specs.Local.{IsLocal};
ghost use Rattle.workers.specs.Pieces.{block_count, piece_of};

use crate::cache::Shards;
use crate::gate::Gate;
use crate::input::Input;
use crate::local::Local;
use crate::piece::Piece;
use crate::worker::Worker;
use std::alloc::AllocError;
use std::sync::Wait;
use verdict_cache::Run;

/// The piece of a block. The gate is told before and after.
pub(crate) fn piece_left<'a, J: Run, G: Gate, R: Wait>(
    rt: &R,
    worker: &Worker<'_, 'a, J, G>,
    local: &mut Local<'a>,
    block: u32,
) -> Result<Piece, AllocError>
    requires local { IsLocal worker.now.input.now local.old }
    requires block { block < block_count worker.now.input.now }
    ensures piece { IfOk result (λ piece. piece ≡ piece_of worker.now.input.now block) }
    ensures local { IsLocal worker.now.input.now local.new }
{
    worker.gate.before(worker.number, block);
    let piece = worker.piece(rt, local, block)?;
    worker.gate.after(worker.number, block);
    Ok(piece)
}

/// The pieces of all workers, and after them those of the blocks that are left in their hands, which the
/// caller judges now.
pub(crate) fn with_left<'a, J: Run, G: Gate, R: Wait>(
    rt: &R,
    gate: &G,
    input: &Input<'a>,
    shards: &Shards<'_, 'a, J>,
    pieces: Vec<Piece>,
    left: &[u32],
) -> Result<Vec<Piece>, AllocError>
    requires run { IsRunOf J.plan J.checkers input.now }
    requires left { All (λ block. block < block_count input.now) left.now }
    ensures { IfOk result (λ all. all.items ≡ pieces.items ++ map (piece_of input.now) left.now) }
{
    let worker = Worker {
        input: &*input,
        shards: &*shards,
        gate: &*gate,
        number: 0,
    };
    let mut local = Local::new(shards.alloc(), input)?;
    let mut pieces = pieces;
    for block in left {
        pieces.push(piece_left(rt, &worker, &mut local, *block)?)?;
    }
    Ok(pieces)
}
