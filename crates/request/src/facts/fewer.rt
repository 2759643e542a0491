//! What makes a log with too many crash images have fewer.

ghost use Rattle.std.specs.Prelude.{◌≡◌, ◌≤◌, IfOk, IfSome, MatchOption};
ghost use Rattle.request.specs.Extents.{most_images};
ghost use Rattle.request.specs.Fewer.{CountsImages, IsGreatest, NoneIsSmaller, plan_with, AreFewer, FindsFewer};

use crate::Options;
use crate::facts::recording::Recording;
use choices::count_up_to;
use epochs::{CutKind, Cuts, Plan};
use logfmt::Log;
use std::alloc::{AllocError, Global};

/// A bound, and how many images there are with it.
#[derive(Clone, Copy)]
pub struct Smaller {
    pub bound: u8,
    pub images: u64,
}

/// What makes a log have fewer images.
#[derive(Clone, Copy)]
pub struct Fewer {
    /// How many it has with the cuts of `--cuts flush`; none where these are too many as well.
    pub flush: Option<u64>,
    /// How many it has with the cuts of `--cuts mark`; none where these are too many as well.
    pub mark: Option<u64>,
    /// The greatest smaller bound with which it hasn't too many.
    pub smaller: Option<Smaller>,
}

/// How many images a plan has; none where they are more than `most`.
fn images_of(plan: &Plan<'_>, bound: u8, tears: bool, most: u64) -> Option<u64>
    requires { bound ≤ 3 }
    ensures { CountsImages most plan.now bound tears result }
{
    match count_up_to(plan, bound, tears, most) {
        Ok(images) => Some(images),
        Err(_too_many) => None,
    }
}

/// How many images a log has with cuts of a kind; none where these are too many.
fn images_with(
    alloc: Global,
    log: &Log,
    options: &Options,
    kind: CutKind,
) -> Result<Option<u64>, AllocError>
    ensures { IfOk result (CountsImages (most_images options.now.extent) (plan_with kind options.now log.now) options.now.bound options.now.tears) }
{
    let asked = options.cuts();
    let cuts = Cuts {
        kind,
        from: asked.from,
        to: asked.to,
        flushes: asked.flushes,
    };
    let plan = Plan::new(alloc, log, cuts, options.by())?;
    let most = options.extent().most();
    Ok(images_of(&plan, options.bound(), options.tears(), most))
}

/// The greatest bound below one with which a plan hasn't too many images.
fn smaller_bound(plan: &Plan<'_>, below: u8, tears: bool, most: u64) -> Option<Smaller>
    requires { below ≤ 3 }
    ensures { MatchOption result (NoneIsSmaller most plan.now tears below) (λ found. IsGreatest most plan.now tears below found.bound found.images) }
{
    for bound in (0..below).rev() {
        if let Some(images) = images_of(plan, bound, tears, most) {
            return Some(Smaller { bound, images });
        }
    }
    None
}

/// What makes a log have fewer images than by the options.
fn fewer_of(alloc: Global, log: &Log, options: &Options) -> Result<Fewer, AllocError>
    ensures { IfOk result (AreFewer options.now log.now) }
{
    let plan = Plan::new(alloc, log, options.cuts(), options.by())?;
    let (bound, tears) = (options.bound(), options.tears());
    Ok(Fewer {
        flush: images_with(alloc, log, options, CutKind::BeforeFlush)?,
        mark: images_with(alloc, log, options, CutKind::AfterMark)?,
        smaller: smaller_bound(&plan, bound, tears, options.extent().most()),
    })
}

/// What makes the log of a recording have fewer images than by the options. None where they ask for none that it is, or for want of
/// memory.
pub fn fewer_images(alloc: Global, recording: &Recording<'_>, options: &Options) -> Option<Fewer>
    ensures { IfSome result (FindsFewer recording.now options.now) }
{
    let Ok(log) = recording.read(alloc, options) else {
        return None;
    };
    fewer_of(alloc, &log, options).ok()
}
