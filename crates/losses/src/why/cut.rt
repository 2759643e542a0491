//! The failing images of one cut.

ghost use Rattle.std.specs.Prelude.{◌≡◌, ◌+◌, ◌<◌, ◌≤◌, ◌∷◌, ℕ, length, map, slice_get, Some, IfOk};
ghost use Rattle.choices.specs.Choices.{ranked_at};
ghost use Rattle.losses.specs.FirstParts.{AreChoices};
ghost use Rattle.losses.specs.Folded.{AreFolded};
ghost use Rattle.losses.specs.Failures.{numbers_in, AreOfCut};

use crate::groups::fold;
use crate::why::group::FailingGroup;
use arrayvec::ArrayVec;
use choices::{Starts, list_is_set, numbers_at};
use std::alloc::{AllocError, Global};

/// What fails at a cut.
#[derive(Drop)]
pub struct CutFailures {
    /// The cut.
    pub cut: u32,
    /// How many images it has.
    pub images: u64,
    /// How many of them the program fails on.
    pub failing: usize,
    /// The groups of these, by image.
    pub groups: Vec<FailingGroup>,
}

/// The departures of some images of a cut as numbers, where the images of the cut begin with `first`.
fn numbers_of(
    alloc: Global,
    starts: &Starts<'_>,
    cut: u32,
    first: u64,
    images: &[u64],
) -> Result<Vec<ArrayVec<u32, 3>>, AllocError>
    requires cut { cut ≤ length starts.now.plan.log.entries }
    requires images { AreOfCut starts.now cut first images.now }
    ensures { IfOk result (λ numbers. map (λ ns. ns.items) numbers.items ≡ map (numbers_in starts.now cut first) images.now) }
{
    let mut numbers = Vec::with_capacity(alloc, images.len())?;
    for image in images {
        let rest = *image - first;
        numbers.push(numbers_at(starts.plan(), starts.bound(), starts.tears(), cut, rest))?;
    }
    Ok(numbers)
}

/// Returns for each of some failing images of a cut, whose images begin with `first`, the place of the example under which it stands.
pub(crate) fn examples_of(
    alloc: Global,
    starts: &Starts<'_>,
    cut: u32,
    first: u64,
    images: &[u64],
) -> Result<Vec<usize>, AllocError>
    requires cut { cut ≤ length starts.now.plan.log.entries }
    requires images { AreOfCut starts.now cut first images.now }
    ensures { IfOk result (λ places. AreFolded (map (numbers_in starts.now cut first) images.now) places.items) }
{
    // A law of the choices at a cut, which does nothing: they are listed in their order.
    list_is_set();
    let numbers = numbers_of(alloc, starts, cut, first, images)?;
    fold(alloc, numbers.as_slice())
}
