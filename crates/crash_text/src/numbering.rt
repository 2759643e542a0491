//! What images are numbered by.

ghost use Rattle.std.specs.Prelude.{◌≡◌};

use epochs::{By, Cuts, Plan};
use logfmt::Log;

/// What the images of a log are numbered by: its wanted cuts, what departs as one, how many parts may depart, and whether they
/// may be torn.
#[derive(Clone, Copy)]
pub struct Numbering<'a> {
    /// The plan of the log.
    pub plan: &'a Plan<'a>,
    /// The log.
    pub log: &'a Log<'a>,
    /// The wanted cuts.
    pub cuts: Cuts,
    /// What departs as one.
    pub by: By,
    /// How many parts may depart.
    pub bound: u8,
    /// Whether parts may be torn.
    pub tears: bool,
    pub ghost log_is: { plan.now.log ≡ log.now },
    pub ghost kind_is: { plan.now.kind ≡ cuts },
    pub ghost by_is: { plan.now.by ≡ by },
}
