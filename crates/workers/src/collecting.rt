//! The lines of a run, made of the pieces of its work.

ghost use Rattle.std.specs.Prelude.{◌≡◌, ◌<◌, ◌++◌, ◌∷◌, [], ℕ, All, List, length, position, IfOk, IfErr, OnOk};
ghost use Rattle.std.specs.List.{flat_map};
ghost use Rattle.workers.specs.Pieces.{PieceValue, AreWhole, lines_by_block, RefusesPieces};
ghost use Rattle.workers.specs.Table.{AreRows, first_of, is_missing, row_lines};

use crate::block_lines::lower;
use crate::piece::Piece;
use base::causes::WorkCause;
use base::refusal::Refusal;
use report::lines::Lines;
use std::alloc::{AllocError, Global};

/// The piece of each block so far, the first block that came twice, and the least failing image.
#[derive(Drop)]
struct PieceTable {
    rows: Vec<Option<Piece>>,
    twice: Option<u32>,
    least: Option<u64>,
}

/// The lower of two blocks, the first of which there may not be.
fn first_of(seen: Option<u32>, block: u32) -> u32
    ensures { result ≡ first_of seen block }
{
    match seen {
        Some(other) => other.min(block),
        None => block,
    }
}

impl PieceTable {
    /// A table of that many blocks, of which none has a piece.
    fn new(alloc: Global, blocks: u32) -> Result<PieceTable, AllocError>
        ensures { IfOk result (λ table. AreRows [] blocks table.rows.items table.twice table.least) }
    {
        let mut rows = Vec::new(alloc);
        for _block in 0..blocks {
            rows.push(None)?;
        }
        Ok(PieceTable {
            rows,
            twice: None,
            least: None,
        })
    }

    /// Puts one more piece into its row.
    fn put(&mut self, piece: Piece)
        requires { piece.block < length self.old.rows.items }
        ensures { (pieces : List PieceValue) (blocks : ℕ) → AreRows pieces blocks self.old.rows.items self.old.twice self.old.least
            → AreRows (pieces ++ piece ∷ []) blocks self.new.rows.items self.new.twice self.new.least }
    {
        let block = piece.block();
        self.least = lower(self.least, piece.least_image());
        if self.rows[block as usize].is_some() {
            self.twice = Some(first_of(self.twice, block));
        } else {
            self.rows[block as usize] = Some(piece);
        }
    }
}

/// The table of those pieces.
fn table_of(alloc: Global, pieces: Vec<Piece>, blocks: u32) -> Result<PieceTable, AllocError>
    requires { All (λ piece. piece.block < blocks) pieces.items }
    ensures { IfOk result (λ table. AreRows pieces.items blocks table.rows.items table.twice table.least) }
{
    let mut table = PieceTable::new(alloc, blocks)?;
    for piece in pieces {
        table.put(piece);
    }
    Ok(table)
}

/// Whether a row has no piece that counts.
fn is_missing(row: &Option<Piece>, from: u64, least: Option<u64>) -> bool
    ensures { result ≡ is_missing from least row.now }
{
    match row {
        Some(piece) => !piece.counts(from, least),
        None => true,
    }
}

/// The first block without a piece that counts.
fn first_missing(rows: &[Option<Piece>], from: u64, least: Option<u64>) -> Option<usize>
    ensures { result ≡ position (is_missing from least) rows.now }
{
    rows.iter().position(|row| is_missing(row, from, least))
}

/// The lines of all rows, one after the other.
fn join_rows(alloc: Global, rows: Vec<Option<Piece>>) -> Result<Lines, AllocError>
    ensures { IfOk result (λ lines. lines ≡ flat_map row_lines rows.items) }
{
    let mut all = Lines::new(alloc);
    for row in rows {
        if let Some(piece) = row {
            all = piece.appended_to(all)?;
        }
    }
    Ok(all)
}

/// The lines of the pieces of a run, by block; the first block begins with image `from`. The pieces come in any order; there
/// are to be as many as blocks, one of each. A passed piece counts as none where the image that it names is not before
/// all of its block, or precedes every failing image of the full pieces.
///
/// # Errors
///
/// The lowest block of which there are two pieces; or else the lowest of which there is none; or want
/// of memory.
pub fn collect(alloc: Global, pieces: Vec<Piece>, from: u64, blocks: u32) -> Result<Lines, Refusal>
    requires { All (λ piece. piece.block < blocks) pieces.items }
    ensures whole { OnOk result (AreWhole from pieces.items blocks) }
    ensures lines { IfOk result (λ lines. lines ≡ lines_by_block pieces.items blocks) }
    ensures refused { IfErr result (RefusesPieces from pieces.items blocks) }
{
    let table = match table_of(alloc, pieces, blocks) {
        Ok(table) => table,
        Err(_error) => return Err(Refusal::of_memory()),
    };
    let PieceTable { rows, twice, least } = table;
    match (twice, first_missing(rows.as_slice(), from, least)) {
        (Some(block), _) => Err(Refusal::of_work(WorkCause::PieceTwice, u64::from(block))),
        (None, Some(block)) => Err(Refusal::of_work(WorkCause::PieceMissing, block as u64)),
        (None, None) => match join_rows(alloc, rows) {
            Ok(lines) => Ok(lines),
            Err(_error) => Err(Refusal::of_memory()),
        },
    }
}
