//! How many crash images a run may have, and which of them are meant.

ghost use Rattle.std.specs.Prelude.{◌≡◌};
ghost use Rattle.request.specs.Extents.{most_images, first_meant, end_meant, is_at_once, is_extent, is_whole, has_extent};

/// The most crash images of a run, and of a part of one (docs/CRASH-MODEL.md, Limits).
const MOST_IMAGES: u64 = 16_777_216;

/// The most crash images of a run that isn't judged as a whole.
const MOST_WIDE: u64 = 9_223_372_036_854_775_807;

/// How many crash images a run may have, and which of them are meant.
#[derive(Clone, Copy)]
pub enum Extent {
    /// All images, of a run that has at most 16,777,216.
    Whole,
    /// The images that a command names, of a run that has fewer than 2^63.
    Wide,
    /// The images from one number to below another, of a run that has fewer than 2^63.
    Part { from: u64, to: u64 },
}

impl Extent {
    /// How many images the run may have.
    pub fn most(self) -> u64
        ensures { result ≡ most_images self }
    {
        match self {
            Extent::Whole => MOST_IMAGES,
            Extent::Wide => MOST_WIDE,
            Extent::Part {
                from: _from,
                to: _to,
            } => MOST_WIDE,
        }
    }

    /// The first image that is meant.
    pub fn first(self) -> u64
        ensures { result ≡ first_meant self }
    {
        match self {
            Extent::Whole | Extent::Wide => 0,
            Extent::Part { from, to: _to } => from,
        }
    }

    /// The image after the last that is meant, of a run of that many.
    pub fn end(self, images: u64) -> u64
        ensures { result ≡ end_meant self images }
    {
        match self {
            Extent::Whole | Extent::Wide => images,
            Extent::Part { from: _from, to } => to,
        }
    }

    /// Whether all that are meant can be taken at once: those of a run that may have more than 16,777,216 can't.
    pub fn is_at_once(self) -> bool
        ensures { result ≡ is_at_once self }
    {
        match self {
            Extent::Whole => true,
            Extent::Wide => false,
            Extent::Part {
                from: _from,
                to: _to,
            } => true,
        }
    }

    /// Whether all images are meant, of a run that has at most 16,777,216.
    pub fn is_whole(self) -> bool
        ensures { result ≡ is_whole self }
    {
        match self {
            Extent::Whole => true,
            Extent::Wide => false,
            Extent::Part {
                from: _from,
                to: _to,
            } => false,
        }
    }

    /// Whether it can be asked for: a part has 1 to 16,777,216 images, or is 0..0.
    pub fn is_extent(self) -> bool
        ensures { result ≡ is_extent self }
    {
        match self {
            Extent::Whole | Extent::Wide => true,
            Extent::Part { from, to } => {
                (from < to || (from == 0 && to == 0)) && to - from <= MOST_IMAGES
            }
        }
    }

    /// Whether a run of that many images has those that are meant. 0..0 is the part of a run without images.
    pub fn is_within(self, images: u64) -> bool
        ensures { result ≡ has_extent self images }
    {
        match self {
            Extent::Whole | Extent::Wide => true,
            Extent::Part { from, to } => to <= images && (from < to || images == 0),
        }
    }
}
