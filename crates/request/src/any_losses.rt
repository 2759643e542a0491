//! What is asked of any number of losses.

ghost use Rattle.std.specs.Prelude.{◌≡◌, None, Some, true, false, MatchOption, MatchResult};
ghost use Rattle.request.specs.AnyLosses.{is_lost_asked, is_torn_asked, losses_asked, losses_refusal, torn_asked};

use crate::options::Options;
use crate::refusals::option_refusal_of;
use crate::settings::{CaseTelling, OptionPlace};
use base::refusal::Refusal;

/// The most parts that may be torn.
const MOST_TORN: u64 = 3;

/// The most parts that may be lost or torn, where that is bounded.
const MOST_LOST: u64 = 64;

/// What was written of any number of losses; no check was made of it (docs/COMMANDS.md, Options).
#[derive(Clone, Copy)]
pub struct LossWords {
    /// Whether `any` stands after `--bound`.
    pub any: bool,
    /// The number after `--torn`, where that stands there.
    pub torn: Option<u64>,
    /// The number after `--at-most`, where that stands there.
    pub at_most: Option<u64>,
    /// What is to be told of the failing cases.
    pub telling: CaseTelling,
}

/// What is asked of any number of losses.
#[derive(Clone, Copy)]
pub struct AnyLosses {
    /// How many parts may be torn, 0 to 3: 0 without tears.
    pub torn: u32,
    /// How many parts may be lost or torn, 1 to 64, where that is bounded.
    pub at_most: Option<u32>,
    /// What is to be told of the failing cases.
    pub telling: CaseTelling,
}

/// How many parts may be torn, by the number after `--torn`: none where that number isn't 1 to 3, or stands there without tears.
fn torn_of(number: Option<u64>, tears: bool) -> Option<u32>
    ensures { MatchOption result (is_torn_asked number tears ≡ false) (λ t. (is_torn_asked number tears ≡ true) × (t ≡ torn_asked number tears)) }
{
    match number {
        Some(torn) if tears && 1 <= torn && torn <= MOST_TORN => Some(torn as u32),
        Some(_) => None,
        None if tears => Some(1),
        None => Some(0),
    }
}

/// How many parts may be lost or torn, where that is bounded: none where the number after `--at-most` isn't 1 to 64.
fn at_most_of(number: Option<u64>) -> Option<Option<u32>>
    ensures { MatchOption result (is_lost_asked number ≡ false) (λ most. (is_lost_asked number ≡ true) × (most ≡ number)) }
{
    match number {
        Some(most) if 1 <= most && most <= MOST_LOST => Some(Some(most as u32)),
        Some(_) => None,
        None => Some(None),
    }
}

/// What these words ask for of any number of losses, beside good options.
///
/// # Errors
///
/// Without `any`, 13 at 20 where `--torn` stands there, and else 13 at 21. Then 13 at 20 where the number after `--torn` isn't 1 to 3, or
/// stands there without `--tears`; 13 at 21 where that after `--at-most` isn't 1 to 64; 13 at 4 where a cache is asked for, and 13 at
/// 17 where some images alone are.
#[tactic(auto, unfolding(crate::specs::AnyLosses::loss_checks))]
pub fn losses_of(words: LossWords, options: &Options) -> Result<AnyLosses, Refusal>
    ensures { MatchResult result (λ l. (losses_asked words options.now ≡ l) × (losses_refusal words options.now ≡ None)) (λ r. losses_refusal words options.now ≡ Some r) }
{
    if !words.any && words.torn.is_some() {
        return Err(option_refusal_of(OptionPlace::Torn));
    }
    if !words.any {
        return Err(option_refusal_of(OptionPlace::AtMost));
    }
    let Some(torn) = torn_of(words.torn, options.tears()) else {
        return Err(option_refusal_of(OptionPlace::Torn));
    };
    let Some(at_most) = at_most_of(words.at_most) else {
        return Err(option_refusal_of(OptionPlace::AtMost));
    };
    if options.cache() > 0 {
        return Err(option_refusal_of(OptionPlace::Cache));
    }
    if !options.extent().is_whole() {
        return Err(option_refusal_of(OptionPlace::Images));
    }
    Ok(AnyLosses {
        torn,
        at_most,
        telling: words.telling,
    })
}
