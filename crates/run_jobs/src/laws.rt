//! Laws of the jobs of a run. The functions only call other laws; each contract is a theorem.

ghost use Rattle.run_jobs.specs.Laws.{RunsAreJobs, EventsFindFailingLines};

use explore_core::whole_is_failing;
use verdict_cache::one_image_tells;

/// The jobs of a run, in its blocks, are jobs of `explore_core`: images never fall, equal keys have equal
/// outcomes, and whether a job fails follows from its outcome. Those of a block that fail are the lines of
/// the block, and all that fail are the failing lines of the run.
pub fn runs_are_jobs()
    ensures { RunsAreJobs }
{
    one_image_tells();
}

/// Where events on the jobs of a run have drawn all blocks, and none is held, lost or passed over, what was
/// handed over, by block, are the failing lines of the run.
pub fn events_find_failing_lines()
    ensures { EventsFindFailingLines }
{
    runs_are_jobs();
    whole_is_failing();
}
