//! The run of which a report is to be.

ghost use Rattle.std.specs.Prelude.{◌≡◌, length};
ghost use Rattle.choices.specs.Choices.{ranked_choices};

use choices::Starts;
use epochs::By;

/// The run of which a report is to be.
#[derive(Clone, Copy)]
pub struct ReportRun<'x> {
    /// Its title, with the newline, and, where the report says of what it is, that line.
    pub title: &'x str,
    /// The line of its options, with the newline.
    pub options: &'x str,
    /// Its images by number.
    pub starts: &'x Starts<'x>,
    /// What departs as one.
    pub by: By,
    /// How many images it has.
    pub images: u64,
    pub ghost by_is: { by ≡ starts.now.plan.by },
    pub ghost images_are: { images ≡ length (ranked_choices starts.now.plan starts.now.bound starts.now.tears) },
}
