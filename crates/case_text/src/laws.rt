//! Laws of windows. The functions do nothing; each contract is a theorem.

ghost use Rattle.case_text.specs.Laws.{FlushTakesCaseAway, WindowIsTold, CaseIsShown, NothingIsLost};

/// A flush in the window of a case takes all its images away.
pub fn flush_takes_case_away()
    ensures { FlushTakesCaseAway }
{}

/// What is printed as the window of a case begins after the first entry of which a part is lost or torn on each of its images, and ends
/// with the last entry of which something arrived on each, or that is a mark. Where none is printed there is no such entry.
pub fn window_is_told()
    ensures { WindowIsTold }
{}

/// A case without a window is shown by one of its own choices: what was written before the first entry that is gone is whole, and all that
/// was written after it is lost, where no mark stands and nothing that isn't at risk. Where nothing of that entry has to arrive, it is lost
/// too.
pub fn case_is_shown()
    ensures { CaseIsShown }
{}

/// In a case of which each part may be whole nothing may be lost.
pub fn nothing_is_lost()
    ensures { NothingIsLost }
{}
