//! Smallest failing choices, folded where the same parts are lost and the same parts are torn.

ghost use Rattle.std.specs.Prelude.{◌≡◌, ◌≤◌, ◌<◌, ℕ, length, map, IfOk, OnOk, unwrap_or};
ghost use Rattle.std.specs.Ordering.{nat_cmp};
ghost use Rattle.std.specs.List.{slice_index_or};
ghost use Rattle.std.specs.BTreeMap as tree;
ghost use Rattle.losses.specs.FirstParts.{AreChoices};
ghost use Rattle.losses.specs.Folded.{lost_or_torn, AreFolded};
ghost use Rattle.losses.specs.Keys.{key_of, AreWords, Remembers, Takes};

use crate::groups::grouping::groups;
use crate::groups::keys::key_of;
use arrayvec::ArrayVec;
use std::alloc::{AllocError, Global};
use std::collections::BTreeMap;

/// What becomes of the part of a departure, however much of it is torn.
fn lost_or_torn(number: u32) -> u32
    ensures { result ≡ lost_or_torn number }
{
    15 * (number / 15) + u32::from(number % 15 != 0)
}

/// What becomes of the parts of a choice.
fn folded_numbers(numbers: &[u32]) -> ArrayVec<u32, 3>
    requires { length numbers.now ≤ 3 }
    ensures { result.items ≡ map lost_or_torn numbers.now }
{
    let mut folded = ArrayVec::new();
    for number in numbers {
        folded.push(lost_or_torn(*number));
    }
    folded
}

/// The key that a choice has in common with those in which the same parts are lost and the same parts are torn.
fn folded_key(numbers: &[u32]) -> u128
    requires { length numbers.now ≤ 3 }
    ensures value { result ≡ key_of (map lost_or_torn numbers.now) }
    ensures words { AreWords (map lost_or_torn numbers.now) }
{
    let folded = folded_numbers(numbers);
    key_of(folded.as_slice())
}

/// The place that is known by a key, or this one, which is known by it from then on.
fn known_by(
    examples: &mut BTreeMap<u128, usize>,
    key: u128,
    place: usize,
) -> Result<usize, AllocError>
    ensures kept { OnOk result (Remembers (tree.get nat_cmp examples.old) (tree.get nat_cmp examples.new) key place) }
    ensures known { IfOk result (λ known. known ≡ unwrap_or (tree.get nat_cmp examples.old key) place) }
{
    if let Some(known) = examples.get(&key) {
        return Ok(*known);
    }
    examples.insert(key, place)?;
    Ok(place)
}

/// The place of the example of the choice after those of which the examples have these places. The first failing choice that is a
/// part of it has the place `part`.
fn example_of(
    examples: &mut BTreeMap<u128, usize>,
    places: &[usize],
    part: usize,
    choice: &[u32],
) -> Result<usize, AllocError>
    requires few { length choice.now ≤ 3 }
    requires part { part ≤ length places.now }
    ensures words { AreWords (map lost_or_torn choice.now) }
    ensures takes { IfOk result (λ e. Takes (tree.get nat_cmp examples.old) (tree.get nat_cmp examples.new) (key_of (map lost_or_torn choice.now)) places.now part e) }
{
    let key = folded_key(choice);
    if part < places.len() {
        return Ok(places[part]);
    }
    known_by(examples, key, part)
}

/// Returns for each failing choice of a cut the place of the example under which it stands. The smallest failing choices are folded
/// where the same parts are lost and the same parts are torn, and the first is the example. A choice stands under the example of the
/// first failing choice that is a part of it. A choice is the numbers of its departures: 15 times a part, and then 0 where it is lost
/// and 1 to 14 where it is torn.
///
/// It takes what `groups` takes, and for each smallest choice a look into a map of the examples.
///
/// # Errors
///
/// Memory was refused.
pub fn fold(alloc: Global, failing: &[ArrayVec<u32, 3>]) -> Result<Vec<usize>, AllocError>
    requires { AreChoices (map (λ c. c.items) failing.now) }
    ensures { IfOk result (λ places. AreFolded (map (λ c. c.items) failing.now) places.items) }
{
    let parts = groups(alloc, failing)?;
    let mut examples = BTreeMap::new(alloc);
    let mut places = Vec::with_capacity(alloc, failing.len())?;
    for (place, choice) in failing.iter().enumerate() {
        let part = parts[place];
        let example = example_of(&mut examples, places.as_slice(), part, choice.as_slice())?;
        places.push(example)?;
    }
    Ok(places)
}
