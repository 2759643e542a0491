//! The cache of a run, as its workers ask it.

ghost use Rattle.std.specs.Prelude.{◌≡◌, ◌<◌, IfSome, length};
ghost use Rattle.interp.specs.Ending.{ending_of};
ghost use Rattle.images.specs.Keys.{shard_of};
ghost use Rattle.verdict_cache.specs.Endings.{IsEndingOf};

use images::Key;
use interp::Outcome;
use std::alloc::Global;
use std::marker::Model;
use std::sync::{Mutex, Wait};
use verdict_cache::{Run, Shard};

/// The sixteen shards of the cache of a run, and where memory is taken.
#[derive(Drop)]
pub(crate) struct Shards<'b, 'a, J: Run> {
    alloc: Global,
    locks: &'b [Mutex<Shard<'a, J>>],
}

impl<'b, 'a, J: Run> Model for Shards<'b, 'a, J> {
    ghost use Rattle.std.specs.Prelude.{◌≡◌, length};

    ghost Value = { Unit {0} };

    ghost view = { λ _. tt };

    ghost invariant = { λ s. length s.locks.now ≡ 16 };
}

/// A shard, with its number among the sixteen.
#[derive(Drop)]
pub(crate) struct Numbered<'b, 'a, J: Run> {
    number: u8,
    shard: &'b Mutex<Shard<'a, J>>,
}

impl<'b, 'a, J: Run> Shards<'b, 'a, J> {
    /// The shards, by their numbers.
    pub(crate) fn new(alloc: Global, locks: &'b [Mutex<Shard<'a, J>>]) -> Shards<'b, 'a, J>
        requires { length locks.now ≡ 16 }
    {
        Shards { alloc, locks }
    }

    /// Where memory is taken.
    pub(crate) fn alloc(&self) -> Global {
        self.alloc
    }

    /// The shard of that number.
    fn numbered_shard(&self, number: u8) -> Numbered<'b, 'a, J>
        requires { number < 16 }
        ensures { result.number ≡ number }
    {
        Numbered {
            number,
            shard: &self.locks[usize::from(number)],
        }
    }

    /// The shard that a key belongs to.
    pub(crate) fn of_key(&self, key: &Key<'_>) -> Numbered<'b, 'a, J>
        ensures { result.number ≡ shard_of key.now }
    {
        self.numbered_shard(key.shard())
    }

    /// How many looks have found an entry, in all shards, at most 2^64 - 1.
    pub(crate) fn hits<R: Wait>(&self, rt: &R) -> u64 {
        let mut hits = 0u64;
        for shard in self.locks {
            hits = hits.saturating_add(shard.lock(rt).hits());
        }
        hits
    }
}

impl<'b, 'a, J: Run> Numbered<'b, 'a, J> {
    /// What the shard has for a key of its own.
    pub(crate) fn look<R: Wait>(&self, rt: &R, key: &Key<'a>) -> Option<Outcome>
        requires { self.now.number ≡ shard_of key.now }
        ensures { IfSome result (λ outcome. IsEndingOf J.plan J.checkers key.now (ending_of outcome)) }
    {
        self.shard.lock(rt).look(key)
    }

    /// Lists an outcome for a key of its own, if there is memory for that.
    pub(crate) fn put<R: Wait>(&self, rt: &R, key: Key<'a>, outcome: Outcome)
        requires own { self.now.number ≡ shard_of key }
        requires ending { IsEndingOf J.plan J.checkers key (ending_of outcome) }
    {
        let _kept = self.shard.lock(rt).put(key, outcome);
    }
}
