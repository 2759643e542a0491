//! A log with its plan.

ghost use Rattle.std.specs.Prelude.{◌≡◌};

use epochs::Plan;
use logfmt::Log;

/// A log with its plan.
#[derive(Clone, Copy)]
pub struct Logged<'a> {
    /// The plan of the log.
    pub plan: &'a Plan<'a>,
    /// The log.
    pub log: &'a Log<'a>,
    pub ghost log_is: { plan.now.log ≡ log.now },
}
