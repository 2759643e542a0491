//! The failing images of a program, cut by cut.

ghost use Rattle.std.specs.Prelude.{◌≡◌, ◌+◌, ◌<◌, ◌≤◌, ◌∷◌, ℕ, length, map, filter, slice_get, Some, IfOk};
ghost use Rattle.std.specs.List.{slice_index_or};
ghost use Rattle.std.specs.List.Sorted.{IsNonDecreasing};
ghost use Rattle.epochs.specs.Cuts.{cuts_of};
ghost use Rattle.losses.specs.Failures.{AreImages, AreCuts, IsCut, is_below, is_between, AreInOrder};
ghost use Rattle.losses.specs.WhyText.{AreAllNumbered};

use crate::why::cut::{CutFailures, examples_of};
use crate::why::group::groups_of;
use choices::Starts;
use std::alloc::{AllocError, Global};

/// How many numbers are below one.
fn below(numbers: &[u64], bound: u64) -> usize
    requires { IsNonDecreasing numbers.now }
    ensures bound { result ≤ length numbers.now }
    ensures before { (k d : ℕ) → k < result → slice_index_or numbers.now k d < bound }
    ensures beyond { (k d : ℕ) → result ≤ k → k < length numbers.now → bound ≤ slice_index_or numbers.now k d }
{
    numbers.partition_point(|number| *number < bound)
}

/// How many numbers are below `first`, and those from it to below `end`, of numbers in their order.
fn between(numbers: &[u64], first: u64, end: u64) -> (usize, &[u64])
    requires order { IsNonDecreasing numbers.now }
    requires rising { first ≤ end }
    ensures before { result.0 ≡ length (filter (is_below first) numbers.now) }
    ensures own { result.1.now ≡ filter (is_between first end) numbers.now }
    ensures within { result.0 + length result.1.now ≤ length numbers.now }
{
    let begin = below(numbers, first);
    let beyond = below(numbers, end);
    (begin, &numbers[begin..beyond])
}

/// What fails at the wanted cut of a place.
fn cut_failures(
    alloc: Global,
    starts: &Starts<'_>,
    place: usize,
    cut: u32,
    failing: &[u64],
    outcomes: &[&str],
) -> Result<CutFailures, AllocError>
    requires cut { cut ≤ length starts.now.plan.log.entries }
    requires wanted { slice_get (cuts_of starts.now.plan.kind starts.now.plan.log.entries) place ≡ Some cut }
    requires failing { AreImages starts.now failing.now }
    requires outcomes { length outcomes.now ≡ length failing.now }
    ensures { IfOk result (IsCut starts.now failing.now (map (λ o. o.now) outcomes.now) place) }
{
    let (first, end) = starts.range_of(place);
    let (begin, own) = between(failing, first, end);
    let places = examples_of(alloc, starts, cut, first, own)?;
    Ok(CutFailures {
        cut,
        images: end - first,
        failing: own.len(),
        groups: groups_of(alloc, own, places.as_slice(), outcomes, begin)?,
    })
}

/// What fails at each wanted cut, of a program that fails on the images with those numbers, rising, and ends on each in the outcome
/// at the same place.
///
/// For each failing image it takes the search of its choice and one for each part of it, and some 100 bytes for each at the cut
/// at hand.
///
/// # Errors
///
/// Memory was refused.
pub fn failures(
    alloc: Global,
    starts: &Starts<'_>,
    failing: &[u64],
    outcomes: &[&str],
) -> Result<Vec<CutFailures>, AllocError>
    requires images { AreImages starts.now failing.now }
    requires outcomes { length outcomes.now ≡ length failing.now }
    ensures cuts { IfOk result (λ cuts. AreCuts starts.now failing.now (map (λ o. o.now) outcomes.now) cuts.items) }
    ensures numbered { IfOk result (λ cuts. AreAllNumbered starts.now (length failing.now) cuts.items) }
{
    let cuts = starts.plan().cuts();
    let mut found = Vec::with_capacity(alloc, cuts.len())?;
    for (place, cut) in cuts.iter().enumerate() {
        found.push(cut_failures(alloc, starts, place, *cut, failing, outcomes)?)?;
    }
    Ok(found)
}
