//! What a run judges, and what it finds.

ghost use Rattle.std.specs.Prelude.{◌≡◌, ◌≤◌, length};
ghost use Rattle.std.specs.List.{flat_map};
ghost use Rattle.checker.specs.Checker.{AreFor};
ghost use Rattle.report.specs.LineText.{line_text};
ghost use Rattle.report.specs.Marks.{marks_of};
ghost use Rattle.request.specs.Source.{plan_of, images_of};
ghost use Rattle.runs.specs.Judged.{IsJudged};
ghost use Rattle.runs.specs.Why.{starts_of};

use checker::Checker;
use choices::Starts;
use epochs::Plan;
use images::History;
use logfmt::Log;
use report::Span;
use report::lines::{LineMark, Lines};
use request::Options;
use workers::{AskedRun, Input};

/// What a run judges: the crash images of a log that its options ask for, by checkers.
#[derive(Clone, Copy)]
pub(crate) struct Task<'x> {
    pub(crate) log: &'x Log<'x>,
    pub(crate) plan: &'x Plan<'x>,
    pub(crate) checkers: &'x [Checker<'x>],
    pub(crate) options: &'x Options,
    /// The images that are judged, and how many the run has.
    pub(crate) span: Span,
    pub ghost plan_is: { plan.now ≡ plan_of options.now log.now },
    pub ghost device: { log.now.sectors ≡ options.now.sectors },
    pub ghost judged: { IsJudged options.now.extent (length (images_of options.now log.now)) span },
}

/// What a run finds: its failing lines with their text, and of which image and program each is. The images of the task are had by their
/// number, and what is written at each cut.
#[derive(Clone, Copy)]
pub(crate) struct Findings<'x> {
    pub(crate) task: &'x Task<'x>,
    pub(crate) starts: &'x Starts<'x>,
    pub(crate) history: &'x History<'x>,
    pub(crate) lines: &'x Lines,
    pub(crate) text: &'x str,
    pub(crate) marks: &'x [LineMark],
    pub ghost starts_are: { starts.now ≡ starts_of task.now.options.now task.now.log.now },
    pub ghost history_is: { history.now ≡ task.now.plan.now },
    pub ghost text_is: { text.now ≡ flat_map line_text lines.now },
    pub ghost marks_are: { marks.now ≡ marks_of lines.now },
}

/// What the work on a task is given. With `first` blocks after the first failing image may be passed over.
pub(crate) fn input_of<'x>(
    task: &'x Task<'x>,
    starts: &'x Starts<'x>,
    history: &'x History<'x>,
    first: bool,
) -> Input<'x>
    requires starts { starts.now ≡ starts_of task.now.options.now task.now.log.now }
    requires history { history.now ≡ task.now.plan.now }
    requires checkers { length task.now.checkers.now ≤ 8 }
    requires verified { AreFor task.now.options.now.sectors task.now.checkers.now }
    ensures { result ≡ record { plan = task.now.plan.now; checkers = task.now.checkers.now; bound = task.now.options.now.bound; tears = task.now.options.now.tears; from = task.now.span.from; to = task.now.span.to; first = first } }
{
    let (options, span) = (task.options, task.span);
    let (bound, tears) = (options.bound(), options.tears());
    Input::new(
        task.plan,
        starts,
        history,
        task.checkers,
        options.by(),
        AskedRun {
            bound,
            tears,
            from: span.from,
            to: span.to,
            first,
            workers: options.workers(),
            cache: options.cache(),
        },
    )
}
