//! What is looked through.

ghost use Rattle.std.specs.Prelude.{◌≡◌, ◌≤◌, length};
ghost use Rattle.images.specs.Views.{context_at};

use checker::Checker;
use epochs::{By, Plan};
use helpers::Context;
use logfmt::Log;
use losses::found::Losses;

/// A log with its plan, the checkers, and what is asked.
#[derive(Clone, Copy)]
pub(crate) struct CaseWork<'x> {
    pub(crate) plan: &'x Plan<'x>,
    pub(crate) log: &'x Log<'x>,
    pub(crate) way: By,
    pub(crate) checkers: &'x [Checker<'x>],
    pub(crate) asked: Losses,
    /// Whether the first failing case alone is looked for.
    pub(crate) first: bool,
    pub ghost plan_is: { plan.now.log ≡ log.now },
}

impl<'x> CaseWork<'x> {
    /// The context of a cut.
    pub(crate) fn context(&self, number: u32) -> Context
        requires { number ≤ length self.now.log.now.entries }
        ensures value { result ≡ context_at self.now.log.now number }
        ensures small { (result.epoch ≤ 65536) × (result.marks ≤ 65536) }
    {
        Context {
            sectors: self.log.sectors(),
            epoch: self.plan.epoch(number),
            marks: self.plan.marks(number),
        }
    }
}
