//! The entries after `--flush`.

ghost use Rattle.std.specs.Prelude.{ℕ, ◌≡◌, ◌+◌, ◌≤◌, ◌++◌, List, MatchOption};
ghost use Rattle.epochs.specs.Flushes.{places_of};
ghost use Rattle.command_line.specs.FlushList.{HasComma, IsCut, IsFlushList, NoFlushList};

use crate::number::small_number_in;
use epochs::Flushes;

/// How many flushes can be added.
const MOST_FLUSHES: u8 = 64;

/// What stands before and after the first comma of a text.
fn cut(text: &str) -> Option<(&str, &str)>
    ensures { MatchOption result (HasComma text.now → ⊥) (λ parts. IsCut text.now parts.0.now parts.1.now) }
{
    text.split_once(',')
}

/// Returns these flushes, and after them those of the list that a text is, at most `left`.
fn read_on(found: &Flushes, left: u8, text: &str) -> Option<Flushes>
    requires { found.now.count + left ≤ 64 }
    ensures { MatchOption result (NoFlushList left text.now)
        (λ all. (entries : List ℕ) × IsFlushList text.now entries × (places_of all ≡ places_of found.now ++ entries)) }
{
    if left == 0 {
        return None;
    }
    let Some((first, beyond)) = cut(text) else {
        return Some(found.with(small_number_in(text)?));
    };
    read_on(&found.with(small_number_in(first)?), left - 1, beyond)
}

/// The flushes of the list that a text is: 1 to 64 numbers with commas between.
pub(crate) fn flushes_in(text: &str) -> Option<Flushes>
    ensures { MatchOption result (NoFlushList 64 text.now) (λ flushes. IsFlushList text.now (places_of flushes)) }
{
    read_on(&Flushes::NONE, MOST_FLUSHES, text)
}
