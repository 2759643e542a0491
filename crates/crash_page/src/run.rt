//! The run of which a page is.

ghost use Rattle.std.specs.Prelude.{◌≡◌};

use choices::Starts;
use crash_text::Numbering;
use images::History;
use page_parts::Logged;

/// The run of which a page is: the table of its choices, the images, and what these are numbered by.
#[derive(Clone, Copy)]
pub struct PageRun<'a> {
    /// The choices.
    pub starts: &'a Starts<'a>,
    /// The images.
    pub history: &'a History<'a>,
    /// What they are numbered by.
    pub numbering: Numbering<'a>,
    pub ghost history_is: { history.now ≡ starts.now.plan },
    pub ghost plan_is: { starts.now.plan ≡ numbering.plan.now },
    pub ghost log_is: { starts.now.plan.log ≡ numbering.log.now },
    pub ghost by_is: { starts.now.plan.by ≡ numbering.by },
    pub ghost bound_is: { starts.now.bound ≡ numbering.bound },
    pub ghost tears_are: { starts.now.tears ≡ numbering.tears },
}

/// The log of a run.
pub(crate) fn logged_of<'a>(run: &PageRun<'a>) -> Logged<'a>
    ensures { result.log.now ≡ run.now.numbering.log.now }
{
    Logged {
        plan: run.numbering.plan,
        log: run.numbering.log,
    }
}
