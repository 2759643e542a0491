//! What is asked of a run of a program on one image.

ghost use Rattle.std.specs.Prelude.{◌≡◌, MatchResult, Some};
ghost use Rattle.request.specs.Trials.{AskForTrial, trial_refusal};

use crate::options::is_too_long;
use crate::refusals::option_refusal_of;
use crate::settings::OptionPlace;
use base::limits::Limits;
use base::refusal::Refusal;

/// The most flush entries, and the most marks, that a program is told: a log has no more entries.
const MOST_PASSED: u64 = 65_536;

/// What is asked of a run on one image, as it was written; no check was made of it (docs/COMMANDS.md, Options).
#[derive(Clone, Copy)]
pub struct TrialWords {
    /// How large the image may be: more where `--large` stands there.
    pub limits: Limits,
    /// The number after `--epoch`.
    pub epoch: u64,
    /// The number after `--marks`.
    pub marks: u64,
    /// The number after `--checked`, where that stands there.
    pub checked: Option<u64>,
    /// Whether `--guards` stands there.
    pub guards: bool,
    /// The number after `--trace`.
    pub trace: u64,
}

/// What is asked of a run on one image.
#[derive(Clone, Copy)]
pub struct Trial {
    /// How large the image may be.
    pub limits: Limits,
    /// The number of flush entries that the program is told.
    pub epoch: u32,
    /// The number of marks that it is told.
    pub marks: u32,
    /// The limit of steps, where the verifier isn't asked.
    pub checked: Option<u64>,
    /// Whether the program is accepted with guards, and runs with them.
    pub guards: bool,
    /// How many of the last steps are printed, a line for each.
    pub trace: u64,
}

/// The run on one image that these words ask for.
///
/// # Errors
///
/// 13 at 15, 16 or 5, in this order, where that number is too great; then 13 at 19 for guards beside a limit of steps.
#[tactic(auto, unfolding(crate::specs::Trials::trial_checks))]
pub fn trial_of(words: TrialWords) -> Result<Trial, Refusal>
    ensures { MatchResult result (λ t. AskForTrial words t) (λ r. trial_refusal words ≡ Some r) }
{
    if words.epoch > MOST_PASSED {
        return Err(option_refusal_of(OptionPlace::Epoch));
    }
    if words.marks > MOST_PASSED {
        return Err(option_refusal_of(OptionPlace::Marks));
    }
    if is_too_long(words.checked) {
        return Err(option_refusal_of(OptionPlace::Checked));
    }
    if words.guards && words.checked.is_some() {
        return Err(option_refusal_of(OptionPlace::Guards));
    }
    Ok(Trial {
        limits: words.limits,
        epoch: words.epoch as u32,
        marks: words.marks as u32,
        checked: words.checked,
        guards: words.guards,
        trace: words.trace,
    })
}
