//! Laws of the ranges. The functions do nothing; each contract is a theorem.

ghost use Rattle.intervals.specs.Laws.{ResultsCover, ResultsFit, ResultsAreMonotone, ImmediatesAgree, RefinementsCover, RefinementsFit, RefinementsAreMonotone, HullIsLeast, RoundingContains, RoundingIsMonotone};

/// Words of the operands' ranges lead by the machine's arithmetic to a word of the result's.
pub fn results_cover()
    ensures { ResultsCover }
{}

/// The range of an immediate is the word that the machine takes for it.
pub fn immediates_agree()
    ensures { ImmediatesAgree }
{}

/// Where words pass the machine's test one way, that edge is taken, and leaves them in its ranges.
pub fn refinements_cover()
    ensures { RefinementsCover }
{}

/// A hull is the least range that holds both.
pub fn hull_is_least()
    ensures { HullIsLeast }
{}

/// Rounding goes to the nearest ends, and loses no word.
pub fn rounding_contains()
    ensures { RoundingContains }
{}

/// Results are ranges of words.
pub fn results_fit()
    ensures { ResultsFit }
{}

/// Edges leave ranges of words, none larger than before.
pub fn refinements_fit()
    ensures { RefinementsFit }
{}

/// Smaller ranges have a smaller result.
pub fn results_are_monotone()
    ensures { ResultsAreMonotone }
{}

/// On an edge smaller ranges leave smaller ones.
pub fn refinements_are_monotone()
    ensures { RefinementsAreMonotone }
{}

/// A smaller range is rounded to a smaller one.
pub fn rounding_is_monotone()
    ensures { RoundingIsMonotone }
{}
