//! The judging of images in a row, and of a block.

ghost use Rattle.std.specs.Prelude.{◌≡◌, ◌<◌, ◌≤◌, ◌-◌, ◌++◌, length, IfOk, OnOk, Some};
ghost use Rattle.checker.specs.Memory.{AreServed};
ghost use Rattle.workers.specs.Failing.{image_count, image_lines, lines_from, part};
ghost use Rattle.workers.specs.Images.{IsRow, IsStop};
ghost use Rattle.workers.specs.Input.{IsRunOf};
ghost use Rattle.workers.specs.Local.{IsTrueOf, IsLocal, Reaches};
ghost use Rattle.workers.specs.Pieces.{block_count, piece_of};

use crate::block_lines::BlockLines;
use crate::cache::Shards;
use crate::gate::{Gate, OpenGate};
use crate::input::Input;
use crate::judging::Seen;
use crate::local::Local;
use crate::look::{EntryLook, Stop};
use crate::piece::Piece;
use crate::reuse::Reuse;
use crate::worker::Worker;
use checker::RunMemory;
use choices::Picked;
use images::Changes;
use std::alloc::{AllocError, Global};
use std::sync::{Mutex, Wait};
use verdict_cache::{Run, Shard};

/// Images in a row: those that are left, from one on, with its picks, to before `end`. Where none is left, the picks are any.
#[derive(Drop)]
pub(crate) struct ImageRow {
    image: u64,
    end: u64,
    picked: Picked,
}

impl<'b, 'a, J: Run, G: Gate> Worker<'b, 'a, J, G> {
    /// Appends the lines of the first images of a row: of those in a row that are of one cut.
    fn judge_cut<R: Wait>(
        &self,
        rt: &R,
        changes: &mut Changes<'a>,
        memory: &mut RunMemory,
        lines: &mut BlockLines,
        row: &mut ImageRow,
    ) -> Result<(), AllocError>
        requires changes { changes.old ≡ self.now.input.now.plan.log }
        requires row { IsRow self.now.input.now row.old }
        requires some { row.old.image < row.old.end }
        requires served { AreServed memory.old self.now.input.now.checkers }
        ensures changes { changes.new ≡ changes.old }
        ensures memory { memory.new ≡ memory.old }
        ensures row { OnOk result (IsRow self.now.input.now row.new) }
        ensures end { OnOk result (row.new.end ≡ row.old.end) }
        ensures fewer { OnOk result (row.old.image < row.new.image) }
        ensures lines { OnOk result (lines.new ≡ lines.old ++ lines_from self.now.input.now row.old.image (row.new.image - row.old.image)) }
    {
        let input = self.input;
        let place = row.picked.place();
        let mut choice = input.choice_by(&row.picked);
        let image = row.image;
        let end = row.end;
        let mut next = image;
        while next < end && choice.place() == place {
            self.judge_image(rt, changes, memory, lines, next, &choice)?;
            input.go_on(&mut choice);
            next += 1;
        }
        *row = ImageRow {
            image: next,
            end,
            picked: Picked::of(&choice),
        };
        Ok(())
    }

    /// Appends the lines of the first image of a row, which the checkers before one find good. What that one ends in may be known.
    fn judge_first(
        &self,
        reuse: &mut Reuse,
        memory: &mut RunMemory,
        lines: &mut BlockLines,
        row: &ImageRow,
        stop: &mut Stop,
    ) -> Result<(), AllocError>
        requires known { IsTrueOf self.now.input.now reuse.old }
        requires place { reuse.old.place ≡ Some row.now.picked.place }
        requires row { IsRow self.now.input.now row.now }
        requires some { row.now.image < row.now.end }
        requires stop { IsStop self.now.input.now row.now.picked stop.old }
        requires served { AreServed memory.old self.now.input.now.checkers }
        ensures memory { memory.new ≡ memory.old }
        ensures known { IsTrueOf self.now.input.now reuse.new }
        ensures lines { OnOk result (lines.new ≡ lines.old ++ image_lines self.now.input.now row.now.image) }
    {
        let input = self.input;
        let choice = input.choice_by(&row.picked);
        let view = input.history.view(self.shards.alloc(), &choice)?;
        let seen = Seen {
            image: row.image,
            choice: &choice,
            view: &view,
        };
        input.judge_by_reuse(reuse, memory, lines, &seen, &row.picked, stop)
    }

    /// Appends the lines of the first images of a row, and answers how many they are: all that are known to be good, or one.
    fn judge_or_pass(
        &self,
        reuse: &mut Reuse,
        memory: &mut RunMemory,
        lines: &mut BlockLines,
        row: &ImageRow,
    ) -> Result<u64, AllocError>
        requires known { IsTrueOf self.now.input.now reuse.old }
        requires place { reuse.old.place ≡ Some row.now.picked.place }
        requires row { IsRow self.now.input.now row.now }
        requires some { row.now.image < row.now.end }
        requires served { AreServed memory.old self.now.input.now.checkers }
        ensures memory { memory.new ≡ memory.old }
        ensures known { IsTrueOf self.now.input.now reuse.new }
        ensures some { IfOk result (λ count. 1 ≤ count) }
        ensures most { IfOk result (λ count. count ≤ row.now.end - row.now.image) }
        ensures reach { IfOk result (λ count. Reaches self.now.input.now row.now.picked count) }
        ensures lines { IfOk result (λ count. lines.new ≡ lines.old ++ lines_from self.now.input.now row.now.image count) }
    {
        match reuse.look(self.input, memory, &row.picked, row.end - row.image) {
            EntryLook::Good(count) => Ok(count),
            EntryLook::Stops(stop) => {
                let mut stop = stop;
                self.judge_first(reuse, memory, lines, row, &mut stop)?;
                Ok(1)
            }
        }
    }

    /// Appends the lines of the first images of a row, with what is known by footprints.
    fn judge_next(
        &self,
        reuse: &mut Reuse,
        memory: &mut RunMemory,
        lines: &mut BlockLines,
        row: &mut ImageRow,
    ) -> Result<(), AllocError>
        requires known { IsTrueOf self.now.input.now reuse.old }
        requires place { reuse.old.place ≡ Some row.old.picked.place }
        requires row { IsRow self.now.input.now row.old }
        requires some { row.old.image < row.old.end }
        requires served { AreServed memory.old self.now.input.now.checkers }
        ensures memory { memory.new ≡ memory.old }
        ensures known { IsTrueOf self.now.input.now reuse.new }
        ensures row { OnOk result (IsRow self.now.input.now row.new) }
        ensures end { OnOk result (row.new.end ≡ row.old.end) }
        ensures fewer { OnOk result (row.old.image < row.new.image) }
        ensures lines { OnOk result (lines.new ≡ lines.old ++ lines_from self.now.input.now row.old.image (row.new.image - row.old.image)) }
    {
        let count = self.judge_or_pass(reuse, memory, lines, row)?;
        reuse.end_if_vain();
        self.input.go_over(&mut row.picked, count);
        row.image += count;
        Ok(())
    }

    /// Appends the lines of the first images of a row: with what is known by footprints at a cut where that may tell something, and
    /// else of all those of the cut.
    fn judge_some<R: Wait>(
        &self,
        rt: &R,
        local: &mut Local<'a>,
        lines: &mut BlockLines,
        row: &mut ImageRow,
    ) -> Result<(), AllocError>
        requires local { IsLocal self.now.input.now local.old }
        requires row { IsRow self.now.input.now row.old }
        requires some { row.old.image < row.old.end }
        ensures local { IsLocal self.now.input.now local.new }
        ensures row { OnOk result (IsRow self.now.input.now row.new) }
        ensures end { OnOk result (row.new.end ≡ row.old.end) }
        ensures fewer { OnOk result (row.old.image < row.new.image) }
        ensures lines { OnOk result (lines.new ≡ lines.old ++ lines_from self.now.input.now row.old.image (row.new.image - row.old.image)) }
    {
        if local.reuse.is_on(self.input, &row.picked) {
            self.judge_next(&mut local.reuse, &mut local.memory, lines, row)
        } else {
            self.judge_cut(rt, &mut local.changes, &mut local.memory, lines, row)
        }
    }

    /// The lines of some images in a row, of which there is one at least.
    fn judge_row<R: Wait>(
        &self,
        rt: &R,
        local: &mut Local<'a>,
        first: u64,
        end: u64,
    ) -> Result<BlockLines, AllocError>
        requires local { IsLocal self.now.input.now local.old }
        requires some { first < end }
        requires end { end ≤ image_count self.now.input.now }
        ensures lines { IfOk result (λ lines. lines ≡ lines_from self.now.input.now first (end - first)) }
        ensures local { IsLocal self.now.input.now local.new }
    {
        let mut lines = BlockLines::new(self.shards.alloc());
        let picked = local.reuse.start(self.input, first);
        let mut row = ImageRow {
            image: first,
            end,
            picked,
        };
        while row.image < row.end {
            self.judge_some(rt, local, &mut lines, &mut row)?;
        }
        let ImageRow {
            image,
            end: _,
            picked,
        } = row;
        local.reuse.keep(image, picked);
        Ok(lines)
    }

    /// The piece of a block, whose images it judges.
    #[tactic(auto, unfolding(crate::specs::Failing::part))]
    pub(crate) fn piece<R: Wait>(
        &self,
        rt: &R,
        local: &mut Local<'a>,
        block: u32,
    ) -> Result<Piece, AllocError>
        requires local { IsLocal self.now.input.now local.old }
        requires block { block < block_count self.now.input.now }
        ensures piece { IfOk result (λ piece. piece ≡ piece_of self.now.input.now block) }
        ensures local { IsLocal self.now.input.now local.new }
    {
        let (first, end) = self.input.images_of(block);
        let lines = self.judge_row(rt, local, first, end)?;
        Ok(Piece::of(block, lines))
    }
}

/// Judges the images of a block: 64 in a row, from the one on that is `64 * block` after the first, or those that are left. The
/// sixteen shards are those of the cache of the run. Without a cache it asks none of them.
///
/// Without a cache it takes memory for the lines, and for what is known by footprints: where that is refused, images are
/// judged by themselves. With one it takes memory for the lines and for keys. Where a checker has guards, it takes memory for its program.
/// An image borrows its sectors from the log.
///
/// # Errors
///
/// Memory was refused.
pub fn judge_block<'a, J: Run, R: Wait>(
    rt: &R,
    alloc: Global,
    input: &Input<'a>,
    shards: &[Mutex<Shard<'a, J>>],
    block: u32,
) -> Result<Piece, AllocError>
    requires run { IsRunOf J.plan J.checkers input.now }
    requires shards { length shards.now ≡ 16 }
    requires block { block < block_count input.now }
    ensures { IfOk result (λ piece. piece ≡ piece_of input.now block) }
{
    let worker = Worker {
        input: &*input,
        shards: &Shards::new(alloc, shards),
        gate: &OpenGate,
        number: 0,
    };
    worker.piece(rt, &mut Local::new(alloc, input)?, block)
}
