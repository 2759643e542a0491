//! What a piece of the work holds.

use crate::block_lines::BlockLines;

/// What was found of a block.
#[derive(Drop)]
pub(crate) enum BlockFound {
    /// All its failing lines.
    Lines(BlockLines),
    /// Nothing: the block was passed over, since this failing image comes before all of it. It is counted from the first
    /// image on that is judged.
    Passed(u64),
}
