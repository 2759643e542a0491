//! The events of an exploration.

ghost use Rattle.std.specs.Prelude.{◌≡◌};

use std::marker::Model;

/// Keys of the cache. Contracts see the list.
#[derive(Drop)]
pub struct Keys {
    keys: Vec<u64>,
}

impl Model for Keys {
    ghost use Rattle.std.specs.Prelude.{List, ℕ};

    ghost Value = { List ℕ };

    ghost view = { λ k. k.keys.items };
}

impl Keys {
    /// Those keys.
    pub fn of(keys: Vec<u64>) -> Keys
        ensures { result ≡ keys.items }
    {
        Keys { keys }
    }

    /// The keys as a slice.
    pub fn as_slice(&self) -> &[u64]
        ensures { result.now ≡ self.now }
    {
        self.keys.as_slice()
    }
}

/// One atomic step of a worker (docs/PROVED.md, Threads and the cache).
#[derive(Drop)]
pub enum Event {
    /// The worker draws the next block into its list, or draws no more where none is left.
    Draw(u8),
    /// The idle worker takes, out of the list of the second, which may be itself, that block.
    Take(u8, u8, usize),
    /// The worker judges the next job of its block: by the cache, or else by itself.
    Look(u8),
    /// The worker puts what it judged last into the cache, which then loses the keys.
    Put(u8, Keys),
    /// The worker posts the first failing image that it has in hand.
    Post(u8),
    /// The worker passes over its block, where that lies wholly after the least image posted.
    Pass(u8),
    /// The worker hands over the failing jobs of its block, all judged.
    Done(u8),
    /// The worker ends, and the block in its hand is lost. Its list stays.
    Quit(u8),
}
