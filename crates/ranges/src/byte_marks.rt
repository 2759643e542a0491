//! Which of eight bytes are written.

ghost use Rattle.std.specs.Prelude.{◌≡◌, length};

/// For each of eight bytes whether it is written.
#[derive(Clone, Copy)]
pub struct ByteMarks {
    pub written: [bool; 8],
    pub ghost all: { length written ≡ 8 },
}
