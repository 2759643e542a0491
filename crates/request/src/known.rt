//! What is asked of a search by records of a program.

ghost use Rattle.std.specs.Prelude.{◌≡◌, None, Some, true, false, MatchOption, MatchResult};
ghost use Rattle.request.specs.Known.{is_count_asked, known_asked, known_refusal};

use crate::any_losses::{AnyLosses, LossWords, losses_of};
use crate::options::Options;
use crate::refusals::option_refusal_of;
use crate::settings::{KnownTelling, OptionPlace};
use base::refusal::Refusal;

/// The most cases after which the search of a cut may be asked to end.
const MOST_CASES: u64 = 16_777_216;

/// What was written of a search by records of a program; no check was made of it (docs/COMMANDS.md, Options).
#[derive(Clone, Copy)]
pub struct KnownWords {
    /// What was written of any number of losses.
    pub losses: LossWords,
    /// Whether `--stop-at-failing` stands there.
    pub at_failing: bool,
    /// The number after `--cases`, where that stands there.
    pub cases: Option<u64>,
    /// What is to be printed about what was found.
    pub telling: KnownTelling,
}

/// What is asked of a search by records of a program.
#[derive(Clone, Copy)]
pub struct KnownSearch {
    /// What is asked of any number of losses.
    pub losses: AnyLosses,
    /// Whether the search of a cut ends at its first failing case.
    pub at_failing: bool,
    /// After how many cases it ends, 1 to 16,777,216, where that is asked.
    pub cases: Option<u32>,
}

/// Returns after how many cases the search of a cut ends, where that is asked: none where the number after `--cases` isn't 1 to
/// 16,777,216.
fn count_of(number: Option<u64>) -> Option<Option<u32>>
    ensures { MatchOption result (is_count_asked number ≡ false) (λ most. (is_count_asked number ≡ true) × (most ≡ number)) }
{
    match number {
        Some(most) if 1 <= most && most <= MOST_CASES => Some(Some(most as u32)),
        Some(_) => None,
        None => Some(None),
    }
}

/// What these words ask for of a search by records, beside good options.
///
/// # Errors
///
/// 13 at 22 without `any`; then those of `losses_of`; then 13 at 23 where the number after `--cases` isn't 1 to 16,777,216.
pub fn known_of(words: KnownWords, options: &Options) -> Result<KnownSearch, Refusal>
    ensures { MatchResult result (λ k. (known_asked words options.now ≡ k) × (known_refusal words options.now ≡ None)) (λ r. known_refusal words options.now ≡ Some r) }
{
    if !words.losses.any {
        return Err(option_refusal_of(OptionPlace::Known));
    }
    let losses = losses_of(words.losses, options)?;
    let Some(cases) = count_of(words.cases) else {
        return Err(option_refusal_of(OptionPlace::Cases));
    };
    Ok(KnownSearch {
        losses,
        at_failing: words.at_failing,
        cases,
    })
}
