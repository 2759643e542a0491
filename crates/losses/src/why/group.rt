//! The groups of a cut, and how many failing images stand under each.

ghost use Rattle.std.specs.Prelude.{◌≡◌, ◌+◌, ◌<◌, ◌≤◌, ◌++◌, ◌∷◌, [], ℕ, length, filter, map, slice_get, Some, IfOk, OnOk};
ghost use Rattle.std.specs.List.{slice_index_or};
ghost use Rattle.losses.specs.CountedGroups.{times, same_at, has_images, groups_of};

use crate::why::same::same_of;
use std::alloc::{AllocError, Global};

/// A group of failing images of a cut: those that fail since the same parts are lost and the same parts are torn.
#[derive(Clone, Copy, Drop)]
pub struct FailingGroup {
    /// The image of its example, the first of its smallest failing choices.
    pub image: u64,
    /// The place of that image among those on which the program fails.
    pub line: usize,
    /// How many failing images stand under it, with the example.
    pub failing: usize,
    /// Whether the program ends on all of them as it does on the example.
    pub same: bool,
}

/// How often each place of a list stands in it.
fn counts_of(alloc: Global, places: &[usize]) -> Result<Vec<usize>, AllocError>
    requires { (i place : ℕ) → slice_get places.now i ≡ Some place → place < length places.now }
    ensures long { IfOk result (λ counts. length counts.items ≡ length places.now) }
    ensures counts { IfOk result (λ counts. (k : ℕ) → slice_index_or counts.items k 0 ≡ times k places.now) }
{
    let mut counts = Vec::new(alloc);
    counts.resize(places.len(), 0)?;
    for place in places {
        counts[*place] += 1;
    }
    Ok(counts)
}

/// Appends a group, if images stand under it.
fn push_group(groups: &mut Vec<FailingGroup>, group: FailingGroup) -> Result<(), AllocError>
    ensures { OnOk result (groups.new.items ≡ groups.old.items ++ filter has_images (group ∷ [])) }
{
    if group.failing != 0 {
        groups.push(group)?;
    }
    Ok(())
}

/// The groups of the failing images of a cut, of which each stands under the one at that place, and the first has the outcome of
/// that number.
pub(crate) fn groups_of(
    alloc: Global,
    images: &[u64],
    places: &[usize],
    outcomes: &[&str],
    begin: usize,
) -> Result<Vec<FailingGroup>, AllocError>
    requires long { length places.now ≡ length images.now }
    requires places { (i place : ℕ) → slice_get places.now i ≡ Some place → place < length places.now }
    requires outcomes { begin + length places.now ≤ length outcomes.now }
    ensures { IfOk result (λ groups. groups.items ≡ groups_of (map (λ o. o.now) outcomes.now) begin images.now places.now) }
{
    let counts = counts_of(alloc, places)?;
    let same = same_of(alloc, places, outcomes, begin)?;
    let mut groups = Vec::new(alloc);
    for (place, image) in images.iter().enumerate() {
        push_group(
            &mut groups,
            FailingGroup {
                image: *image,
                line: begin + place,
                failing: counts[place],
                same: same[place],
            },
        )?;
    }
    Ok(groups)
}
