//! Callers of what is asked of a run's images, by way of a log that is read.

ghost use Rattle.std.specs.Prelude.{◌≡◌, ◌≤◌, IfOk, false, length};
ghost use Rattle.choices.specs.Choices.{ranked_choices, limit};
ghost use Rattle.epochs.specs.declared.part.By.TheVariants.{Sector};
ghost use Rattle.workers.specs.Input.{IsRunOf};

use base::limits::Limits;
use bpf_isa::program::Program;
use checker::Checker;
use choices::{Starts, count};
use epochs::{By, Cuts, Plan};
use images::{ChangedSector, History, Key};
use logfmt::{Log, read};
use std::alloc::{AllocError, Global};
use std::marker::Brand;
use std::sync::{Mutex, Wait};
use verdict_cache::{Run, Shard, shards};
use workers::{AskedRun, Input, Piece, judge_block};

/// The program, the epoch and the marks of a key, and how many sectors it names.
pub fn parts_of(key: &Key<'_>) -> (u8, u32, u32, usize) {
    let changed = key.changed_sectors();
    (key.program(), key.epoch(), key.marks(), changed.len())
}

/// The number of a sector that a key names.
pub fn number_of(sector: &ChangedSector<'_>) -> u32 {
    sector.number()
}

/// The plan of a log with all its cuts.
fn plan_of<'a>(alloc: Global, log: &'a Log<'_>) -> Result<Plan<'a>, AllocError>
    ensures log { IfOk result (λ plan. plan.log ≡ log.now) }
    ensures by { IfOk result (λ plan. plan.by ≡ Sector) }
{
    Plan::new(alloc, log, Cuts::ALL, By::Sector)
}

/// The history of a plan.
fn history_of<'a>(
    alloc: Global,
    plan: &'a Plan<'_>,
    log: &'a Log<'_>,
) -> Result<History<'a>, AllocError>
    requires { plan.now.log ≡ log.now }
    ensures { IfOk result (λ history. history ≡ plan.now) }
{
    History::new(alloc, plan, log)
}

/// The table of the choices of a plan in which nothing departs.
fn starts_of<'a>(alloc: Global, plan: &'a Plan<'_>) -> Result<Starts<'a>, AllocError>
    requires { length (ranked_choices plan.now 0 false) ≤ limit }
    ensures { IfOk result (λ starts. starts ≡ record { plan = plan.now; bound = 0; tears = false }) }
{
    Starts::new(alloc, plan, 0, false)
}

/// The piece of the first block of a run, if it has one.
fn first_of_run<'a, J: Run, R: Wait>(
    rt: &R,
    alloc: Global,
    input: &Input<'a>,
    history: &'a History<'a>,
    checkers: &[Checker<'_>],
) -> Result<Option<Piece>, AllocError>
    requires run { IsRunOf J.plan J.checkers input.now }
    requires history { history.now ≡ J.plan }
    requires checkers { checkers.now ≡ J.checkers }
    requires cache { 16 ≡ J.size }
{
    let shards: Vec<Mutex<Shard<'a, J>>> = shards(alloc, history, checkers, 16)?;
    if 0 < input.block_count() {
        Ok(Some(judge_block(rt, alloc, input, shards.as_slice(), 0)?))
    } else {
        Ok(None)
    }
}

/// The piece of the first block of a run of one program, which has a limit of three steps, of all images of a plan.
fn piece_of<R: Wait>(
    rt: &R,
    alloc: Global,
    plan: &Plan<'_>,
    starts: &Starts<'_>,
    history: &History<'_>,
    program: &Program,
    images: u64,
) -> Result<Option<Piece>, AllocError>
    requires by { plan.now.by ≡ Sector }
    requires starts { starts.now ≡ record { plan = plan.now; bound = 0; tears = false } }
    requires history { history.now ≡ plan.now }
    requires count { images ≡ length (ranked_choices plan.now 0 false) }
    requires few { images ≤ limit }
{
    let checkers = [Checker::limited(program, 3)];
    let input = Input::new(
        plan,
        starts,
        history,
        &checkers,
        By::Sector,
        AskedRun {
            bound: 0,
            tears: false,
            from: 0,
            to: images,
            first: false,
            workers: 1,
            cache: 16,
        },
    );
    first_of_run::<Brand, R>(rt, alloc, &input, history, &checkers)
}

/// The piece of the first block of a run of one program on a log for a device of one sector. None where there is no such run, or
/// no memory.
pub fn first_piece<R: Wait>(
    rt: &R,
    alloc: Global,
    text: &[u8],
    program: &Program,
) -> Option<Piece> {
    let Ok(log) = read(alloc, text, 1, Limits::Usual) else {
        return None;
    };
    let Ok(plan) = plan_of(alloc, &log) else {
        return None;
    };
    let Ok(history) = history_of(alloc, &plan, &log) else {
        return None;
    };
    let Ok(images) = count(&plan, 0, false) else {
        return None;
    };
    let Ok(starts) = starts_of(alloc, &plan) else {
        return None;
    };
    match piece_of(rt, alloc, &plan, &starts, &history, program, images) {
        Ok(piece) => piece,
        Err(_) => None,
    }
}
