//! Laws of records. The functions do nothing; each contract is a theorem.

ghost use Rattle.known.specs.Once.{FoundIsOne};
ghost use Rattle.known.specs.Laws.{EachIsInOne, ToldEndSo, NoneTellsOpen, FoundFail, CompleteHasAll, LastCutsHaveAll};
ghost use Rattle.known.specs.Rounds.{RoundsEnd};

/// What is found at a cut is one. Where a search reaches more than some leaves, more are found.
pub fn found_is_one()
    ensures { FoundIsOne }
{}

/// Each choice of a cut is in exactly one case that is told, open, left out or pending.
pub fn each_is_in_one()
    ensures { EachIsInOne }
{}

/// Where the records are true, the program ends on the image of each choice of a told leaf as the leaf says.
pub fn told_end_so()
    ensures { ToldEndSo }
{
    cases::leaves_look_alike();
}

/// No record tells the representative of an open case.
pub fn none_tells_open()
    ensures { NoneTellsOpen }
{}

/// Where the records are true, the program fails on each image of a failing leaf that was found, and ends there as the leaf says.
pub fn found_fail()
    ensures { FoundFail }
{
    cases::leaves_look_alike();
}

/// Where the records are true, and at a cut nothing is open, left out or pending, each choice on whose image the program fails is in a
/// failing leaf that was found.
pub fn complete_has_all()
    ensures { CompleteHasAll }
{
    cases::leaves_look_alike();
}

/// Where the records are true, each last cut was searched, and nothing is open, left out or pending at any searched cut, each image of
/// any cut on which the program fails is one of a failing leaf that was found.
pub fn last_cuts_have_all()
    ensures { LastCutsHaveAll }
{
    cases::leaves_look_alike();
    cases::last_cuts_have_all();
}

/// After records of all that was wanted were appended often enough, nothing is wanted.
pub fn rounds_end()
    ensures { RoundsEnd }
{}
