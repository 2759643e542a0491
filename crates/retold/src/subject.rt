//! What is told of: the lines of a report, and the run of which they are.

ghost use Rattle.std.specs.Prelude.{◌≡◌};

use choices::Starts;
use epochs::By;
use join::GivenLine;
use logfmt::Log;

/// The lines of a report, the log and the images of which they are.
#[derive(Clone, Copy)]
pub(crate) struct Subject<'x> {
    pub(crate) log: &'x Log<'x>,
    pub(crate) starts: &'x Starts<'x>,
    pub(crate) by: By,
    pub(crate) lines: &'x [GivenLine<'x>],
    /// How many programs the report has.
    pub(crate) programs: usize,
    pub ghost by_is: { by ≡ starts.now.plan.by },
    pub ghost log_is: { starts.now.plan.log ≡ log.now },
}
