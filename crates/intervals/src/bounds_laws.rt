//! Laws of the two ranges of a number. The functions do nothing; each contract is a theorem.

ghost use Rattle.intervals.specs.LimitLaws.{Reduces, ReducedAgree, AnySign, LimitResultsCover, LimitResultsFit, LimitResultsAreMonotone, LimitRefinementsCover, LimitRefinementsFit, LimitRefinementsAreMonotone, LimitsHullIsLeast, LimitsRound};

use crate::laws::{results_are_monotone, results_cover, results_fit};

/// Reducing keeps the words, ends at once, and makes of smaller ranges smaller ones.
pub fn reducing_keeps()
    ensures { Reduces }
{}

/// Ranges are reduced where both say the same, or both have numbers of both signs.
pub fn reduced_agree()
    ensures { ReducedAgree }
{}

/// A range of words with all readings is reduced to these words.
pub fn any_sign_is_reduced()
    ensures { AnySign }
{}

/// Words of the operands' bounds lead by the machine's arithmetic to a word of the result's.
pub fn bounds_of_results_cover()
    ensures { LimitResultsCover }
{
    results_cover();
    results_fit();
}

/// The bounds of results are reduced.
pub fn bounds_of_results_fit()
    ensures { LimitResultsFit }
{
    results_fit();
}

/// Smaller bounds have a smaller result.
pub fn bounds_of_results_are_monotone()
    ensures { LimitResultsAreMonotone }
{
    results_are_monotone();
    results_fit();
}

/// Where words pass the machine's test one way, that edge is taken, and leaves them in its bounds.
pub fn refined_bounds_cover()
    ensures { LimitRefinementsCover }
{}

/// Edges leave reduced bounds, none larger than before.
pub fn refined_bounds_fit()
    ensures { LimitRefinementsFit }
{}

/// On an edge smaller bounds leave smaller ones.
pub fn refined_bounds_are_monotone()
    ensures { LimitRefinementsAreMonotone }
{}

/// A hull is the least that holds both, and is reduced.
pub fn hull_of_bounds_is_least()
    ensures { LimitsHullIsLeast }
{}

/// Rounding goes to the nearest ends, loses no word, and keeps the order.
pub fn rounding_of_bounds()
    ensures { LimitsRound }
{}
