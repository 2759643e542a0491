//! Laws of every run. The functions do nothing; each contract is a theorem.

ghost use Rattle.explore_core.specs.May.{UnlessItMay};
ghost use Rattle.explore_core.specs.Sound.{EveryRunIsSound, WholeIsFailing, WholeBeginsWithFirst};

/// An event whose condition fails changes nothing.
pub fn unless_it_may()
    ensures { UnlessItMay }
{}

/// After every list of events each entry of the cache is true; lines handed over are the failing jobs of
/// their block, and what was passed over names a failing image before all of its block; each block that
/// was drawn is in one list or hand, in one piece or lost.
pub fn every_run_is_sound()
    ensures { EveryRunIsSound }
{}

/// Where all blocks are drawn, none is held or lost, and nothing was passed over, the pieces by block
/// are the failing jobs in order.
pub fn whole_is_failing()
    ensures { WholeIsFailing }
{}

/// Where all blocks are drawn and none is held or lost, the pieces by block begin with the lines of the
/// first failing image, whatever was passed over.
pub fn whole_begins_with_first()
    ensures { WholeBeginsWithFirst }
{}
