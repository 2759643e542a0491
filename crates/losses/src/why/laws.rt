//! The laws of the groups. The functions do nothing; each contract is a theorem.

ghost use Rattle.losses.specs.GroupLaws.{EachStandsOnce, AllStand};

/// Each failing image of a cut stands under one group, that of the example in which the same parts are lost and the same parts are
/// torn as in a choice that is a part of its own; their numbers add up. The choice of each example is that of a failing image, and
/// it is smallest: no other failing choice of the cut is a part of it. A group is said to end alike where all its images do.
pub fn each_stands_once()
    ensures { EachStandsOnce }
{}

/// Each failing image stands at one cut: the numbers of the cuts add up.
pub fn all_stand()
    ensures { AllStand }
{}
