//! The laws of groups. The functions do nothing; each contract is a theorem.

ghost use Rattle.losses.specs.FirstPartLaws.{GroupIsSmallest, StandsUnderOne};

/// The first failing choice that is a part of a failing choice is smallest: no other failing choice is a part of it. It is the
/// first of the smallest ones that are a part of that choice.
pub fn group_is_smallest()
    ensures { GroupIsSmallest }
{}

/// A failing choice stands under one example alone.
pub fn stands_under_one()
    ensures { StandsUnderOne }
{}
