//! What is judged: jobs in blocks.

ghost use Rattle.std.specs.Prelude.{◌≡◌, ◌<◌, ◌^◌, ◌++◌, ◌∷◌, [], OnOk, OnErr, length, map, is_some, IfSome, IfNone};
ghost use Rattle.std.specs.List.{list_all};
ghost use Rattle.explore_core.specs.Agreement.{agrees, last_image};
ghost use Rattle.explore_core.specs.Jobs.{AreJobs, all_jobs, block_at, failing, first_failing_image, lies_after};

use std::alloc::{AllocError, Global};
use std::marker::Model;

/// A job: an image with a checker that is to judge it.
#[derive(Clone, Copy)]
pub struct Job {
    /// The number of the image.
    pub image: u64,
    /// Under what the cache keeps its outcome.
    pub key: u64,
    /// What the checker ends in on the image.
    pub outcome: u64,
    /// Whether the checker finds the image bad.
    pub fails: bool,
}

/// Jobs one after the other. Contracts see the list.
#[derive(Drop)]
pub struct JobList {
    items: Vec<Job>,
}

impl Model for JobList {
    ghost use Rattle.std.specs.Prelude.{List};
    ghost use Rattle.explore_core.specs.declared.job.Job.{Job};

    ghost Value = { List Job };

    ghost view = { λ l. l.items.items };
}

impl JobList {
    /// No job.
    pub(crate) fn new(alloc: Global) -> JobList
        ensures { result ≡ [] }
    {
        JobList {
            items: Vec::new(alloc),
        }
    }

    /// The jobs as a slice.
    pub fn as_slice(&self) -> &[Job]
        ensures { result.now ≡ self.now }
    {
        self.items.as_slice()
    }

    /// Adds a job at the end. Where memory is wanting, the list stays as it was.
    pub(crate) fn push(&mut self, job: Job) -> Result<(), AllocError>
        ensures added { OnOk result (self.new ≡ self.old ++ job ∷ []) }
        ensures kept { OnErr result (self.new ≡ self.old) }
    {
        self.items.push(job)?;
        Ok(())
    }

    /// Leaves the failing jobs.
    pub(crate) fn keep_failing(&mut self)
        ensures { self.new ≡ failing self.old }
    {
        self.items.retain(
            |job: &Job| -> bool
                ensures { result ≡ job.now.fails }
            { job.fails },
        );
    }
}

/// The image of the first failing job of a list.
pub(crate) fn first_failing_image(jobs: &[Job]) -> Option<u64>
    ensures { result ≡ first_failing_image jobs.now }
{
    for job in jobs {
        if job.fails {
            return Some(job.image);
        }
    }
    None
}

/// Whether each image of a list comes after that one.
pub(crate) fn lies_after(image: u64, jobs: &[Job]) -> bool
    ensures { result ≡ lies_after image jobs.now }
{
    for job in jobs {
        if job.image <= image {
            return false;
        }
    }
    true
}

/// Jobs in blocks: images never fall from job to job, and equal keys have equal outcomes. Contracts
/// see the blocks, each a list of jobs.
#[derive(Drop)]
pub struct Jobs {
    blocks: Vec<Vec<Job>>,
}

impl Model for Jobs {
    ghost use Rattle.std.specs.Prelude.{List, map};
    ghost use Rattle.explore_core.specs.declared.job.Job.{Job};
    ghost use Rattle.explore_core.specs.Jobs.{AreJobs};

    ghost Value = { List (List Job) };

    ghost view = { λ j. map (λ b. b.items) j.blocks.items };

    ghost invariant = { λ j. AreJobs (map (λ b. b.items) j.blocks.items) };
}

/// Whether images never fall from job to job.
fn images_rise(blocks: &[Vec<Job>]) -> bool
    ensures { result ≡ is_some (last_image 0 (all_jobs (map (λ b. b.items) blocks.now))) }
{
    let mut last = 0;
    for block in blocks {
        match last_image(last, block.as_slice()) {
            Some(image) => last = image,
            None => return false,
        }
    }
    true
}

/// The last image of a list, or `before` where there is none; none where an image falls.
fn last_image(before: u64, jobs: &[Job]) -> Option<u64>
    ensures { result ≡ last_image before jobs.now }
{
    let mut last = before;
    for job in jobs {
        if job.image < last {
            return None;
        }
        last = job.image;
    }
    Some(last)
}

/// Whether equal keys have equal outcomes.
fn outcomes_agree(blocks: &[Vec<Job>]) -> bool
    ensures { result ≡ list_all (λ own. list_all (λ job. list_all (λ b. agrees b.items job) blocks.now) own.items) blocks.now }
{
    for own in blocks {
        if !all_agree(blocks, own.as_slice()) {
            return false;
        }
    }
    true
}

/// Whether the jobs with the key of one of these have its outcome.
fn all_agree(blocks: &[Vec<Job>], jobs: &[Job]) -> bool
    ensures { result ≡ list_all (λ job. list_all (λ b. agrees b.items job) blocks.now) jobs.now }
{
    for job in jobs {
        if !agrees_with(blocks, job) {
            return false;
        }
    }
    true
}

/// Whether the jobs of all blocks with the key of that one have its outcome.
fn agrees_with(blocks: &[Vec<Job>], job: &Job) -> bool
    ensures { result ≡ list_all (λ b. agrees b.items job.now) blocks.now }
{
    for block in blocks {
        if !agrees(block.as_slice(), job) {
            return false;
        }
    }
    true
}

/// Whether the jobs of a list with the key of that one have its outcome.
fn agrees(jobs: &[Job], job: &Job) -> bool
    ensures { result ≡ agrees jobs.now job.now }
{
    for other in jobs {
        if other.key == job.key && other.outcome != job.outcome {
            return false;
        }
    }
    true
}

impl Jobs {
    /// Those blocks of jobs; none exactly where an image falls from job to job, or equal keys have
    /// unequal outcomes.
    pub fn new(blocks: Vec<Vec<Job>>) -> Option<Jobs>
        ensures some { IfSome result (λ jobs. (jobs ≡ map (λ b. b.items) blocks.items) × AreJobs jobs) }
        ensures none { IfNone result (AreJobs (map (λ b. b.items) blocks.items) → ⊥) }
    {
        if !images_rise(blocks.as_slice()) {
            return None;
        }
        if !outcomes_agree(blocks.as_slice()) {
            return None;
        }
        Some(Jobs { blocks })
    }

    /// The number of blocks.
    pub fn block_count(&self) -> usize
        ensures blocks { result ≡ length self.now }
        ensures small { result < 2 ^ 63 }
    {
        self.blocks.as_slice().len()
    }

    /// The jobs of a block: none past the last block.
    pub fn block(&self, block: usize) -> &[Job]
        ensures { result.now ≡ block_at self.now block }
    {
        if block < self.blocks.len() {
            self.blocks[block].as_slice()
        } else {
            &[]
        }
    }

    /// That images never fall, and that equal keys have equal outcomes.
    pub fn are_jobs(&self)
        ensures { AreJobs self.now }
    {
        let _blocks = &self.blocks;
    }
}
