//! The choice of the image that is meant.

ghost use Rattle.std.specs.Prelude.{◌≡◌, ◌≤◌, ◌⊎◌, length, slice_get, Some, IfOk, IfErr, MatchOption};
ghost use Rattle.base.specs.Refusals.{memory_refusal};
ghost use Rattle.choices.specs.Choices.{ranked_choices};
ghost use Rattle.logfmt.specs.Bounds.{IsLog};
ghost use Rattle.request.specs.Settings.{option_refusal};
ghost use Rattle.inspect.specs.Which.{IsMeant, IsOnly, IsPrinted, NoneIs, which_place};

use base::refusal::Refusal;
use choices::{Choice, choice_named, nth};
use epochs::Plan;
use report::choice_text::read_names;
use request::{OptionPlace, Options, Which, option_refusal_of};
use std::alloc::{AllocError, Global};

/// The choice of that number, of a plan that has that many images.
fn choice_numbered(plan: &Plan<'_>, images: u64, options: &Options, number: u64) -> Option<Choice>
    requires count { images ≡ length (ranked_choices plan.now options.now.bound options.now.tears) }
    ensures { MatchOption result (length (ranked_choices plan.now options.now.bound options.now.tears) ≤ number)
        (λ choice. slice_get (ranked_choices plan.now options.now.bound options.now.tears) number ≡ Some choice) }
{
    if number >= images {
        return None;
    }
    Some(nth(plan, options.bound(), options.tears(), number))
}

/// The choice at a cut for which the report prints that text.
fn choice_printed(
    alloc: Global,
    plan: &Plan<'_>,
    options: &Options,
    cut: u64,
    text: &str,
) -> Result<Option<Choice>, AllocError>
    requires by { plan.now.by ≡ options.now.by }
    requires log { IsLog plan.now.log }
    ensures { IfOk result (λ found. MatchOption found (NoneIs (IsPrinted plan.now options.now.bound options.now.tears cut text.now))
        (IsOnly (IsPrinted plan.now options.now.bound options.now.tears cut text.now))) }
{
    let (bound, tears) = (options.bound(), options.tears());
    match read_names(alloc, options.by(), text)? {
        Some(names) => Ok(choice_named(plan, bound, tears, cut, names.as_slice())),
        None => Ok(None),
    }
}

/// The choice that is meant, of a plan that has that many images.
#[tactic(auto, using(crate::proofs::Meant::numbered_meant, crate::proofs::Meant::printed_meant))]
fn choice_of(
    alloc: Global,
    plan: &Plan<'_>,
    images: u64,
    options: &Options,
    which: &Which,
) -> Result<Option<Choice>, AllocError>
    requires count { images ≡ length (ranked_choices plan.now options.now.bound options.now.tears) }
    requires by { plan.now.by ≡ options.now.by }
    requires log { IsLog plan.now.log }
    ensures { IfOk result (λ found. MatchOption found (NoneIs (IsMeant plan.now options.now.bound options.now.tears which.now))
        (IsOnly (IsMeant plan.now options.now.bound options.now.tears which.now))) }
{
    match which {
        Which::Number(number) => Ok(choice_numbered(plan, images, options, *number)),
        Which::Printed {
            cut,
            choice: Some(text),
        } => choice_printed(alloc, plan, options, *cut, text.as_str()),
        Which::Printed {
            cut: _cut,
            choice: None,
        } => Ok(None),
    }
}

/// What a refusal names where no image is meant.
fn place_of(which: &Which) -> OptionPlace
    ensures { result ≡ which_place which.now }
{
    match which {
        Which::Number(_number) => OptionPlace::Image,
        Which::Printed {
            cut: _cut,
            choice: _choice,
        } => OptionPlace::Choice,
    }
}

/// The choice of the image that is meant, of a plan that has that many images.
///
/// # Errors
///
/// 13 at 9 where no image has that number, 13 at 11 where no choice of a wanted cut is printed so; or want of memory.
pub(crate) fn choice_meant(
    alloc: Global,
    plan: &Plan<'_>,
    images: u64,
    options: &Options,
    which: Which,
) -> Result<Choice, Refusal>
    requires count { images ≡ length (ranked_choices plan.now options.now.bound options.now.tears) }
    requires by { plan.now.by ≡ options.now.by }
    requires log { IsLog plan.now.log }
    ensures meant { IfOk result (IsOnly (IsMeant plan.now options.now.bound options.now.tears which)) }
    ensures refused { IfErr result (λ r. (r ≡ memory_refusal) ⊎ ((r ≡ option_refusal (which_place which)) × NoneIs (IsMeant plan.now options.now.bound options.now.tears which))) }
{
    match choice_of(alloc, plan, images, options, &which) {
        Ok(Some(choice)) => Ok(choice),
        Ok(None) => Err(option_refusal_of(place_of(&which))),
        Err(_error) => Err(Refusal::of_memory()),
    }
}
