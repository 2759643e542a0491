//! Laws of cases. The functions do nothing; each contract is a theorem.

ghost use Rattle.cases.specs.Laws.{EachIsInOne, LeavesLookAlike, LeavesEndAlike, LastCutsHaveAll};
ghost use Rattle.cases.specs.Once.{TreeIsOne};

/// Each choice is in exactly one case.
pub fn each_is_in_one()
    ensures { EachIsInOne }
{}

/// The images of the choices of a leaf are the same where the program looks.
pub fn leaves_look_alike()
    ensures { LeavesLookAlike }
{}

/// The program ends on the image of each choice of a leaf as on that of its representative.
pub fn leaves_end_alike()
    ensures { LeavesEndAlike }
{}

/// Each image of a cut of a range is one of a last cut of that range, or of its end.
pub fn last_cuts_have_all()
    ensures { LastCutsHaveAll }
{}

/// Some cases have their leaves in one way, and a search on its way has told of no more than these.
pub fn tree_is_one()
    ensures { TreeIsOne }
{}
