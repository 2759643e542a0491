//! What workers hand over.

use crate::job::JobList;

/// What was found in a block.
#[derive(Drop)]
pub enum BlockFindings {
    /// Its failing jobs.
    Lines(JobList),
    /// Nothing: the block was passed over, since this failing image comes before all of it.
    Passed(u64),
}

/// What a worker handed over of a block.
#[derive(Drop)]
pub struct HandedBlock {
    /// The number of the block.
    pub block: usize,
    /// What was found in it.
    pub found: BlockFindings,
}
