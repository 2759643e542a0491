//! What is counted of lines.

ghost use Rattle.std.specs.Prelude.{◌≡◌, ◌<◌, ◌+◌, ◌^◌};
ghost use Rattle.join.specs.Order.{follows};
ghost use Rattle.join.specs.Reading.{is_new, none_read, one_more};

use report::Span;
use report::lines::LineMark;

/// What is counted of some lines.
#[derive(Clone, Copy, Drop)]
pub struct Tally {
    /// The last line.
    pub(crate) last: Option<LineMark>,
    /// The image of the first line.
    pub(crate) first: Option<u64>,
    /// How many lines there are.
    pub(crate) lines: u64,
    /// How many lines are of another image than the one before.
    pub(crate) images: u64,
    /// Whether each is of an image of the part, and after the one before it.
    pub(crate) ordered: bool,
}

/// Whether a line stands after the last one, if there is one: by image, and then by program.
fn follows(last: Option<LineMark>, mark: LineMark) -> bool
    ensures { result ≡ follows last mark }
{
    match last {
        Some(last) => {
            last.image < mark.image || (last.image == mark.image && last.program < mark.program)
        }
        None => true,
    }
}

/// Whether a line is of another image than the last one.
fn is_new(last: Option<LineMark>, image: u64) -> bool
    ensures { result ≡ is_new last image }
{
    match last {
        Some(last) => last.image != image,
        None => true,
    }
}

impl Tally {
    /// Returns the tally of no line.
    pub(crate) fn none() -> Tally
        ensures { result ≡ none_read }
    {
        Tally {
            last: None,
            first: None,
            lines: 0,
            images: 0,
            ordered: true,
        }
    }

    /// Returns the tally with one more line.
    pub(crate) fn more(self, span: Span, mark: LineMark) -> Tally
        requires lines { self.lines + 1 < 2 ^ 64 }
        requires images { self.images + 1 < 2 ^ 64 }
        ensures { result ≡ one_more span self mark }
    {
        let new = is_new(self.last, mark.image);
        let beyond = follows(self.last, mark);
        let within = span.from <= mark.image && mark.image < span.to && beyond;
        Tally {
            last: Some(mark),
            first: self.first.or(Some(mark.image)),
            lines: self.lines + 1,
            images: self.images + u64::from(new),
            ordered: self.ordered && within,
        }
    }
}
