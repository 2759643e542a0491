//! Records that contradict each other.

ghost use Rattle.std.specs.Prelude.{◌≡◌, true, false, not, option_map};
ghost use Rattle.std.specs.List.{list_any, list_all};
ghost use Rattle.known.specs.Records.{kept_value};
ghost use Rattle.known.specs.Contradictions.{clashes, kept_contradict, options_contradict, IsFirstAgainst, IsFirstOfAll};

use crate::records::{KeptRun, KnownRecords, Looked, common_from};
use crate::run::is_same_end;

/// Two records that contradict each other, by their places.
#[derive(Clone, Copy)]
pub struct Contradiction {
    pub earlier: usize,
    pub later: usize,
}

/// Whether a sector is another one of the same number.
#[tactic(auto, using(lanes::proofs::CallerLemmas::same_test))]
fn is_other(one: &Looked, other: &Looked) -> bool
    ensures { result ≡ clashes one.now other.now }
{
    one.number == other.number && !lanes::same(&one.bytes, &other.bytes)
}

/// Whether one of some sectors is another one of the same number.
fn is_among(one: &Looked, others: &[Looked]) -> bool
    ensures { result ≡ list_any (clashes one.now) others.now }
{
    for other in others {
        if is_other(one, other) {
            return true;
        }
    }
    false
}

/// Whether no sector of one list is another one of the same number in the other list.
fn are_alike(sectors: &[Looked], others: &[Looked]) -> bool
    ensures { result ≡ list_all (λ k. not (list_any (clashes k) others.now)) sectors.now }
{
    for one in sectors {
        if is_among(one, others) {
            return false;
        }
    }
    true
}

/// Whether two lists have another sector of one number at a place.
fn differ_at(sectors: &[Looked], others: &[Looked], place: usize) -> bool
    ensures { result ≡ true → list_all (λ k. not (list_any (clashes k) others.now)) sectors.now ≡ false }
{
    if place < sectors.len() && place < others.len() {
        is_other(&sectors[place], &others[place])
    } else {
        false
    }
}

/// Answers as `are_alike` does. It looks at one place first, where two records mostly differ.
fn are_alike_past(sectors: &[Looked], others: &[Looked], place: usize) -> bool
    ensures { result ≡ list_all (λ k. not (list_any (clashes k) others.now)) sectors.now }
{
    if differ_at(sectors, others, place) {
        return false;
    }
    are_alike(sectors, others)
}

/// Whether two records contradict each other.
fn is_contrary(one: &KeptRun, other: &KeptRun, place: usize) -> bool
    ensures { result ≡ kept_contradict (kept_value one.now) (kept_value other.now) }
{
    if one.marks != other.marks {
        return false;
    }
    if is_same_end(one.end, other.end) {
        return false;
    }
    are_alike_past(one.sectors.as_slice(), other.sectors.as_slice(), place)
}

/// How many sectors two records have in common, from the first one on, where `before` is that of the record before the first one. No
/// contract says so, and who asks has to look.
fn common_with(one: &KeptRun, other: &KeptRun, before: usize) -> usize {
    if before < one.shared {
        before
    } else {
        common_from(one.sectors.as_slice(), other.sectors.as_slice(), one.shared)
    }
}

/// Answers as `common_with` does for two records, and 0 where one isn't there.
pub(crate) fn common_after(one: Option<&KeptRun>, other: Option<&KeptRun>, before: usize) -> usize {
    match one {
        None => 0,
        Some(one) => match other {
            None => 0,
            Some(other) => common_with(one, other, before),
        },
    }
}

/// Whether two records are there that contradict each other.
pub(crate) fn are_contrary(one: Option<&KeptRun>, other: Option<&KeptRun>, place: usize) -> bool
    ensures { result ≡ options_contradict (option_map (λ k. k.now) one.entry) (option_map (λ k. k.now) other.entry) }
{
    match one {
        None => false,
        Some(one) => match other {
            None => false,
            Some(other) => is_contrary(one, other, place),
        },
    }
}

/// The first record that contradicts a later one.
fn first_against(records: &KnownRecords<'_>, later: usize) -> Option<usize>
    ensures { IsFirstAgainst records.now later result }
{
    let mut common = 0;
    for earlier in 0..later {
        common = records.common_at(earlier, later, common);
        if records.contradict_at(earlier, later, common) {
            return Some(earlier);
        }
    }
    None
}

/// The first two records that contradict each other: by the later one, and then by the earlier one.
pub fn first_contradiction(records: &KnownRecords<'_>) -> Option<Contradiction>
    ensures { IsFirstOfAll records.now result }
{
    let runs = records.runs();
    for later in 0..runs.len() {
        if let Some(earlier) = first_against(records, later) {
            return Some(Contradiction { earlier, later });
        }
    }
    None
}
