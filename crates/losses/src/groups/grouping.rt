//! The groups of failing choices.

ghost use Rattle.std.specs.Prelude.{◌≡◌, ◌≤◌, ℕ, length, map, IfOk, MatchOption, slice_get, Some};
ghost use Rattle.std.specs.List.Sorted.{IsNonDecreasing};
ghost use Rattle.losses.specs.FirstParts.{AreChoices, AreGroups};
ghost use Rattle.losses.specs.Keys.{part_keys, Lacks, IsFirstFound};

use crate::groups::keys::{first_of, key_of, part_keys};
use arrayvec::ArrayVec;
use std::alloc::{AllocError, Global};

/// The place of the first of some keys that is a part of a choice.
fn part_among(keys: &[u128], numbers: &[u32]) -> Option<usize>
    requires few { length numbers.now ≤ 3 }
    requires rising { IsNonDecreasing keys.now }
    ensures { MatchOption result ((i other : ℕ) → slice_get (part_keys numbers.now) i ≡ Some other → Lacks keys.now other) (IsFirstFound keys.now (part_keys numbers.now)) }
{
    let sought = part_keys(numbers);
    first_of(keys, sought.as_slice())
}

/// Returns for each failing choice of a cut the place of the one in whose group it stands: the first of the failing
/// choices that are a part of it. A choice is the numbers of its departures.
///
/// It takes a search by halves for each part of each choice, and 24 bytes for each choice.
///
/// # Errors
///
/// Memory was refused.
pub fn groups(alloc: Global, failing: &[ArrayVec<u32, 3>]) -> Result<Vec<usize>, AllocError>
    requires { AreChoices (map (λ c. c.items) failing.now) }
    ensures { IfOk result (λ places. AreGroups (map (λ c. c.items) failing.now) places.items) }
{
    let mut places = Vec::with_capacity(alloc, failing.len())?;
    let mut keys = Vec::with_capacity(alloc, failing.len())?;
    for (place, choice) in failing.iter().enumerate() {
        let group = match part_among(keys.as_slice(), choice.as_slice()) {
            Some(part) => part,
            None => place,
        };
        places.push(group)?;
        keys.push(key_of(choice.as_slice()))?;
    }
    Ok(places)
}
