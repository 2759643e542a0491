//! The law of what a page takes. The function does nothing; its contract is a theorem.

ghost use Rattle.crash_page.specs.Laws.{FailuresAreOfRun};

/// What `losses::why::failures` answers of images of a run is what a page takes: its cuts are cuts of the log, and the images of its
/// groups are images of the run.
pub fn failures_are_of_run()
    ensures { FailuresAreOfRun }
{}
