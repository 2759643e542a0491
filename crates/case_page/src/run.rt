//! The run whose cases stand on a page.

ghost use Rattle.std.specs.Prelude.{◌≡◌};

use epochs::{By, Plan};
use logfmt::Log;

/// The run of which cases are: its log, what departs as one, and whether parts may be torn.
#[derive(Clone, Copy)]
pub(crate) struct CaseRun<'a> {
    pub(crate) plan: &'a Plan<'a>,
    pub(crate) log: &'a Log<'a>,
    pub(crate) by: By,
    pub(crate) tears: bool,
    pub(crate) ghost log_is: { plan.now.log ≡ log.now },
}
