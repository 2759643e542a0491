//! Places in the stack.

ghost use Rattle.std.specs.Prelude.{◌≤◌, ◌<◌, ◌+◌};

/// That many bytes from an offset in the stack on, which are written, or of which nothing is known any more.
#[derive(Clone, Copy)]
pub struct Stretch {
    pub at: u64,
    pub n: u64,
    pub are_set: bool,
    pub ghost fits: { at + n ≤ 512 },
}

/// A group of the stack, by its number.
#[derive(Clone, Copy)]
pub struct GroupPlace {
    pub number: usize,
    pub ghost inside: { number < 64 },
}
