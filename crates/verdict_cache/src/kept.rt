//! What became of an entry that was put into a shard.

/// What became of an entry that was put into a shard (docs/PROVED.md, Threads and the cache).
#[derive(Clone, Copy, Debug)]
pub enum Kept {
    /// Its key is new, and there was room.
    New,
    /// Its key was there.
    Again,
    /// Its key is new, and the entry that was used least recently has left.
    Evicted,
    /// The shard has no room for any entry.
    Off,
    /// Its key is new, and memory for it was refused: the entries are as they were.
    NoMemory,
}
