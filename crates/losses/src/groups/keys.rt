//! Keys of choices, and their search.

ghost use Rattle.std.specs.Prelude.{◌≡◌, ◌+◌, ◌*◌, ◌<◌, ◌≤◌, ℕ, length, slice_get, Some, MatchOption};
ghost use Rattle.std.specs.List.{slice_index_or};
ghost use Rattle.std.specs.List.Sorted.{IsNonDecreasing};
ghost use Rattle.losses.specs.Keys.{key_of, part_keys, AreWords, Lacks, IsFirstFound};

use arrayvec::ArrayVec;

/// The digit of a number in a key.
fn digit(number: u32) -> u128
    ensures value { result ≡ number + 1 }
    ensures bound { result ≤ 4294967296 }
{
    u128::from(number) + 1
}

/// The key of a choice with two departures.
fn key_of_two(first: u32, second: u32) -> u128
    ensures { result ≡ 4294967296 * (first + 1) + (second + 1) }
{
    4_294_967_296 * digit(first) + digit(second)
}

/// The key of a choice with three departures.
fn key_of_three(first: u32, second: u32, third: u32) -> u128
    ensures { result ≡ 18446744073709551616 * (first + 1) + 4294967296 * (second + 1) + (third + 1) }
{
    18_446_744_073_709_551_616 * digit(first) + key_of_two(second, third)
}

/// The key of a choice.
#[tactic(auto, unfolding(crate::specs::Keys::key_of))]
pub(crate) fn key_of(numbers: &[u32]) -> u128
    requires { length numbers.now ≤ 3 }
    ensures value { result ≡ key_of numbers.now }
    ensures words { AreWords numbers.now }
{
    match numbers {
        [] => 0,
        [first] => digit(*first),
        [first, second] => key_of_two(*first, *second),
        [first, second, third, ..] => key_of_three(*first, *second, *third),
    }
}

/// The keys of the parts of a choice beside itself, in the order of choices.
#[tactic(auto, unfolding(crate::specs::Keys::key_of))]
pub(crate) fn part_keys(numbers: &[u32]) -> ArrayVec<u128, 7>
    requires { length numbers.now ≤ 3 }
    ensures { result.items ≡ part_keys numbers.now }
{
    let mut keys = ArrayVec::new();
    match numbers {
        [] => {}
        [_] => keys.push(0),
        [first, second] => {
            keys.push(0);
            keys.push(digit(*first));
            keys.push(digit(*second));
        }
        [first, second, third, ..] => {
            keys.push(0);
            keys.push(digit(*first));
            keys.push(digit(*second));
            keys.push(digit(*third));
            keys.push(key_of_two(*first, *second));
            keys.push(key_of_two(*first, *third));
            keys.push(key_of_two(*second, *third));
        }
    }
    keys
}

/// How many keys are below one.
fn below(keys: &[u128], key: u128) -> usize
    requires { IsNonDecreasing keys.now }
    ensures bound { result ≤ length keys.now }
    ensures before { (k d : ℕ) → k < result → slice_index_or keys.now k d < key }
    ensures beyond { (k d : ℕ) → result ≤ k → k < length keys.now → key ≤ slice_index_or keys.now k d }
{
    keys.partition_point(|other| *other < key)
}

/// The place of a key among others.
pub(crate) fn place_of(keys: &[u128], key: u128) -> Option<usize>
    requires { IsNonDecreasing keys.now }
    ensures { MatchOption result (Lacks keys.now key) (λ place. slice_get keys.now place ≡ Some key) }
{
    let place = below(keys, key);
    match keys.get(place) {
        Some(other) => { if *other == key { Some(place) } else { None } }
        None => None,
    }
}

/// The place of the first of the sought keys that is there.
pub(crate) fn first_of(keys: &[u128], sought: &[u128]) -> Option<usize>
    requires { IsNonDecreasing keys.now }
    ensures { MatchOption result ((i other : ℕ) → slice_get sought.now i ≡ Some other → Lacks keys.now other) (IsFirstFound keys.now sought.now) }
{
    for key in sought {
        if let Some(place) = place_of(keys, *key) {
            return Some(place);
        }
    }
    None
}
