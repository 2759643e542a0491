//! Bytes that a value borrows, seen by contracts as a list of numbers.

ghost use Rattle.std.specs.Prelude.{◌≡◌, length};

use std::marker::Model;

/// A list of bytes that stand elsewhere.
#[derive(Drop)]
pub struct Bytes<'x> {
    items: &'x [u8],
}

impl<'x> Model for Bytes<'x> {
    ghost use Rattle.std.specs.Prelude.{List, ℕ};

    ghost Value = { List ℕ };

    ghost view = { λ b. b.items.now };
}

impl<'x> Bytes<'x> {
    /// These bytes, in this order.
    pub fn of(items: &'x [u8]) -> Bytes<'x>
        ensures { result ≡ items.now }
    {
        Bytes { items }
    }

    /// The bytes.
    pub fn as_slice(&self) -> &'x [u8]
        ensures { result.now ≡ self.now }
    {
        self.items
    }
}
