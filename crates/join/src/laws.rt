//! The laws of joined texts, as functions that do nothing.

ghost use Rattle.join.specs.CaseLaws.{CasesAreJoined, JoinIsCases};
ghost use Rattle.join.specs.Laws.{JoinIsRun, PartsAreJoined};

/// Parts of one run that have each image from A to below B once are joined to the text of these images by definition. Where these are
/// all images, that is the report.
#[tactic(auto)]
pub fn join_is_run()
    ensures { JoinIsRun }
{}

/// Parts as in `join_is_run` are refused for their length or for want of memory alone.
#[tactic(auto)]
pub fn parts_are_joined()
    ensures { PartsAreJoined }
{}

/// Texts of runs of any number of losses over ranges of cuts that follow one another are joined to the text of the run of the whole
/// range. Where these are all cuts of the log, that is the text of the run that was asked for no range.
#[tactic(auto)]
pub fn join_is_cases()
    ensures { JoinIsCases }
{}

/// Texts as in `join_is_cases` are refused for their length, for want of memory, or since the run of the whole range has too many cases.
#[tactic(auto)]
pub fn cases_are_joined()
    ensures { CasesAreJoined }
{}
