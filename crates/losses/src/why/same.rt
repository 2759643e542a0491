//! Whether a program ends on all images of a group as on its example.

ghost use Rattle.std.specs.Prelude.{◌≡◌, ◌+◌, ◌<◌, ◌≤◌, ◌&&◌, ℕ, length, map, slice_get, Some, IfOk, bytes_eq, true, false};
ghost use Rattle.std.specs.List.{slice_index_or};
ghost use Rattle.losses.specs.CountedGroups.{ends_at, ends_alike, same_at};

use std::alloc::{AllocError, Global};

/// Whether the outcomes of those numbers are the same.
fn are_alike(outcomes: &[&str], first: usize, second: usize) -> bool
    requires first { first < length outcomes.now }
    requires second { second < length outcomes.now }
    ensures { result ≡ ends_alike (map (λ o. o.now) outcomes.now) first second }
{
    outcomes[first] == outcomes[second]
}

/// Whether both hold.
fn both(so_far: bool, alike: bool) -> bool
    ensures { result ≡ (so_far && alike) }
{
    so_far && alike
}

/// Returns for each place whether all images that stand under it have its outcome, where `begin` is the number of the first image's
/// outcome.
pub(crate) fn same_of(
    alloc: Global,
    places: &[usize],
    outcomes: &[&str],
    begin: usize,
) -> Result<Vec<bool>, AllocError>
    requires places { (i place : ℕ) → slice_get places.now i ≡ Some place → place < length places.now }
    requires outcomes { begin + length places.now ≤ length outcomes.now }
    ensures long { IfOk result (λ same. length same.items ≡ length places.now) }
    ensures same { IfOk result (λ same. (k : ℕ) → k < length places.now → slice_index_or same.items k true ≡ same_at (map (λ o. o.now) outcomes.now) begin places.now k) }
{
    let mut same = Vec::new(alloc);
    same.resize(places.len(), true)?;
    for (place, example) in places.iter().enumerate() {
        let alike = are_alike(outcomes, begin + place, begin + *example);
        same[*example] = both(same[*example], alike);
    }
    Ok(same)
}
