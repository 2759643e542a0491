//! The entries before which flushes are added.

ghost use Rattle.std.specs.Prelude.{◌≡◌, ◌+◌, ◌<◌, ◌≤◌, ◌++◌, [], ◌∷◌, length};
ghost use Rattle.epochs.specs.Flushes.{places_of};

use crate::flushes::Flushes;

impl Flushes {
    /// The entries in their order.
    pub fn places(&self) -> &[u32]
        ensures value { result.now ≡ places_of self.now }
        ensures few { length result.now ≤ 64 }
    {
        &self.entries[..usize::from(self.count)]
    }

    /// These, and one more after them.
    pub fn with(&self, entry: u32) -> Flushes
        requires { self.now.count < 64 }
        ensures places { places_of result ≡ places_of self.now ++ entry ∷ [] }
        ensures count { result.count ≡ self.now.count + 1 }
    {
        let mut entries = self.entries;
        entries[usize::from(self.count)] = entry;
        Flushes {
            entries,
            count: self.count + 1,
        }
    }
}
