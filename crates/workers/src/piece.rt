//! A piece of the work.

ghost use Rattle.std.specs.Prelude.{◌≡◌, ◌+◌, ◌++◌, IfOk};
ghost use Rattle.workers.specs.declared.found.BlockFound.TheVariants as held;
ghost use Rattle.workers.specs.Counting.{counts_with, reaches};
ghost use Rattle.workers.specs.Least.{least_image};
ghost use Rattle.workers.specs.Pieces.{lines_of};

use crate::block_lines::BlockLines;
use crate::found::BlockFound;
use report::lines::Lines;
use std::alloc::AllocError;
use std::marker::Model;

/// How many images, in a row, are one piece of work.
pub const BLOCK: u64 = 64;

/// What one block of images has: its failing lines, or the failing image after which it was passed
/// over. Contracts see the block and which of the two.
#[derive(Drop)]
pub struct Piece {
    block: u32,
    found: BlockFound,
}

impl Model for Piece {
    ghost use Rattle.workers.specs.Pieces.{PieceValue};

    ghost Value = { PieceValue };

    ghost view = { λ p. record { block = p.block; found = p.found } };
}

/// Whether a failing image, if there is one, is at most that many after another.
fn reaches(least: Option<u64>, from: u64, image: u64) -> bool
    ensures { result ≡ reaches least (from + image) }
{
    match least {
        Some(least) => least.saturating_sub(from) <= image,
        None => false,
    }
}

impl Piece {
    /// The full piece of a block that has those lines. It takes no more room than they do.
    pub(crate) fn of(block: u32, lines: BlockLines) -> Piece
        ensures { result ≡ record { block = block; found = held.Lines lines } }
    {
        Piece {
            block,
            found: BlockFound::Lines(lines.trim()),
        }
    }

    /// The piece of a block that was passed over, since that failing image comes before all of it. It is counted from the
    /// first image on that is judged. `collect` takes the piece only where this is so.
    pub fn passed(block: u32, image: u64) -> Piece
        ensures { result ≡ record { block = block; found = held.Passed image } }
    {
        Piece {
            block,
            found: BlockFound::Passed(image),
        }
    }

    /// The number of its block.
    pub fn block(&self) -> u32
        ensures { result ≡ self.now.block }
    {
        self.block
    }

    /// The least failing image that was found in its block.
    pub fn least_image(&self) -> Option<u64>
        ensures { result ≡ least_image (lines_of self.now.found) }
    {
        match &self.found {
            BlockFound::Lines(lines) => lines.least_image(),
            BlockFound::Passed(_) => None,
        }
    }

    /// Whether it counts where that is the least failing image of the full pieces, and `from` the first image that is
    /// judged. A full piece always does; a passed one where the image that it names comes before all of its block, and is
    /// the least failing image or comes after it.
    pub(crate) fn counts(&self, from: u64, least: Option<u64>) -> bool
        ensures { result ≡ counts_with from least self.now.block self.now.found }
    {
        match &self.found {
            BlockFound::Lines(_) => true,
            BlockFound::Passed(image) => {
                *image < BLOCK * u64::from(self.block) && reaches(least, from, *image)
            }
        }
    }

    /// Returns `lines`, followed by its own.
    pub(crate) fn appended_to(self, lines: Lines) -> Result<Lines, AllocError>
        ensures { IfOk result (λ all. all ≡ lines ++ lines_of self.found) }
    {
        let Piece { block: _, found } = self;
        match found {
            BlockFound::Lines(own) => lines.followed_by(own.into_lines()),
            BlockFound::Passed(_) => Ok(lines),
        }
    }
}
