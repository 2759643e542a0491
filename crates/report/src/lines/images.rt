//! The images of lines.

ghost use Rattle.std.specs.Prelude.{◌≡◌, ◌+◌, ◌-◌, ◌<◌, ◌^◌, ◌++◌, ◌∷◌, [], if◌then◌else◌, List};
ghost use Rattle.report.specs.Line.{FailingLine};
ghost use Rattle.report.specs.Images.{is_same};
ghost use Rattle.report.specs.Kept.{AreOf, leads_on, if_any};

/// The images of some lines in a row.
#[derive(Clone, Copy, Drop)]
pub(crate) struct Images {
    /// The image of the first line, and 0 where there is none.
    pub(crate) first: u64,
    /// The image of the last line, and 0 where there is none.
    pub(crate) last: u64,
    /// How many lines are of another image than the line before. The first line is one of them.
    pub(crate) count: usize,
}

/// Whether there are two images and they are the same.
fn is_same(last: Option<u64>, first: Option<u64>) -> bool
    ensures { result ≡ is_same last first }
{
    match (last, first) {
        (Some(image), Some(other)) => image == other,
        (None, _) => false,
        (Some(_), None) => false,
    }
}

/// That many, but for one of them if two lists join in one image.
fn count_of(count: usize, same: bool) -> usize
    ensures { result ≡ (if same then count - 1 else count) }
{
    if same { count.saturating_sub(1) } else { count }
}

/// An image, where there are that many of them that there is one.
fn if_any(count: usize, image: u64) -> Option<u64>
    ensures { result ≡ if_any count image }
{
    if count == 0 { None } else { Some(image) }
}

impl Images {
    /// Those of no line.
    pub(crate) fn none() -> Images
        ensures { AreOf [] (if_any result.count result.first) (if_any result.count result.last) result.count }
    {
        Images {
            first: 0,
            last: 0,
            count: 0,
        }
    }

    /// That of one line.
    pub(crate) fn of(image: u64) -> Images
        ensures { (l : FailingLine) → l.image ≡ image → AreOf (l ∷ []) (if_any result.count result.first) (if_any result.count result.last) result.count }
    {
        Images {
            first: image,
            last: image,
            count: 1,
        }
    }

    /// The image of the first line.
    pub(crate) fn first(self) -> Option<u64>
        ensures { result ≡ if_any self.count self.first }
    {
        if_any(self.count, self.first)
    }

    /// The image of the last line.
    fn last(self) -> Option<u64>
        ensures { result ≡ if_any self.count self.last }
    {
        if_any(self.count, self.last)
    }

    /// Whether all lines that follow these begin with lines of the image of all of these.
    pub(crate) fn leads_on(self, other: Images) -> bool
        ensures { result ≡ leads_on self.count (if_any self.count self.last) (if_any other.count other.first) }
    {
        self.count == 0 || self.count == 1 && is_same(self.last(), other.first())
    }

    /// Those of these lines, and then of the others.
    pub(crate) fn followed_by(self, other: Images) -> Images
        requires { self.count + other.count < 2 ^ 64 }
        ensures { (ls more : List FailingLine) → AreOf ls (if_any self.count self.first) (if_any self.count self.last) self.count → AreOf more (if_any other.count other.first) (if_any other.count other.last) other.count
            → AreOf (ls ++ more) (if_any result.count result.first) (if_any result.count result.last) result.count }
    {
        if self.count == 0 {
            return other;
        }
        if other.count == 0 {
            return self;
        }
        Images {
            first: self.first,
            last: other.last,
            count: count_of(self.count + other.count, self.last == other.first),
        }
    }
}
