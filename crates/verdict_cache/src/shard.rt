//! A shard: outcomes by key.

ghost use Rattle.std.specs.Prelude.{◌≡◌, ◌<◌, IfOk, IfSome, IfNone};
ghost use Rattle.interp.specs.Ending.{ending_of};
ghost use Rattle.lru.specs.LruCache.{lru_cache};
ghost use Rattle.images.specs.Equal.{same_key};
ghost use Rattle.verdict_cache.specs.Endings.{IsEndingOf};
ghost use Rattle.verdict_cache.specs.Shard.{listed_outcome, to_front, after_look};
ghost use Rattle.verdict_cache.specs.Puts.{Answers, entries_after, after_put};
ghost use Rattle.verdict_cache.specs.Sizes.{share_of, empty_shard};

use crate::kept::Kept;
use crate::run::Run;
use images::Key;
use interp::Outcome;
use lru::LruCache;
use std::alloc::{AllocError, Global};
use std::marker::{Model, PhantomData};
use std::num::NonZeroUsize;

/// Among how many shards the entries of a cache are spread.
pub(crate) const SHARDS: u32 = 16;

/// A shard of the verdict cache of a run: outcomes by key, at most that many, the most recently used
/// first (docs/PROVED.md, Threads and the cache). Each is what its key ends in, in that run.
///
/// Contracts see its number among the shards of the run, from 0, its entries, its capacity, and how many
/// looks have found an entry.
#[derive(Drop)]
pub struct Shard<'a, J: Run> {
    number: u32,
    /// The entries; there is no map where the capacity is 0.
    cache: Option<LruCache<Key<'a>, Outcome>>,
    hits: u64,
    run: PhantomData<J>,
}

impl<'a, J: Run> Model for Shard<'a, J> {
    ghost use Rattle.std.specs.Prelude.{◌≡◌};
    ghost use Rattle.verdict_cache.specs.Endings.{AreTrue};
    ghost use Rattle.verdict_cache.specs.Shard.{ShardValue, entries_of, capacity_of, shard_value};
    ghost use Rattle.verdict_cache.specs.Sizes.{share_of};

    ghost Value = { ShardValue };

    ghost view = { λ s. shard_value s.number s.cache s.hits };

    ghost invariant = { λ s. AreTrue J.plan J.checkers (entries_of s.cache) × (capacity_of s.cache ≡ share_of J.size s.number) };
}

impl<'a, J: Run> Shard<'a, J> {
    /// The shard of that number, without entries, in a cache of at most that many entries. Memory for
    /// entries is taken as they come.
    ///
    /// # Errors
    ///
    /// Memory was refused.
    pub fn new(alloc: Global, size: u32, number: u32) -> Result<Shard<'a, J>, AllocError>
        requires { size ≡ J.size }
        ensures { IfOk result (λ shard. shard ≡ empty_shard size number) }
    {
        let cache = match NonZeroUsize::new(share_of(size, number) as usize) {
            Some(capacity) => Some(LruCache::sparse(alloc, capacity)?),
            None => None,
        };
        Ok(Shard {
            number,
            cache,
            hits: 0,
            run: PhantomData,
        })
    }

    /// The outcome that is listed for a key. Its entry becomes the most recently used.
    pub fn look(&mut self, key: &Key<'a>) -> Option<Outcome>
        ensures answer { result ≡ listed_outcome self.old.entries key.now }
        ensures found { IfSome result (λ outcome. self.new ≡ after_look self.old key.now outcome) }
        ensures missing { IfNone result (self.new ≡ self.old) }
        ensures share { self.old.capacity ≡ share_of J.size self.old.number }
        ensures told { IfSome result (λ outcome. IsEndingOf J.plan J.checkers key.now (ending_of outcome)) }
    {
        let Some(cache) = &mut self.cache else {
            return None;
        };
        let outcome = look_up(cache, key)?;
        self.hits = self.hits.saturating_add(1);
        Some(outcome)
    }

    /// Lists an outcome for a key, as the most recently used entry.
    pub fn put(&mut self, key: Key<'a>, outcome: Outcome) -> Kept
        requires { IsEndingOf J.plan J.checkers key (ending_of outcome) }
        ensures answer { Answers result self.old.entries self.old.capacity key.entry }
        ensures share { self.old.capacity ≡ share_of J.size self.old.number }
        ensures kept { self.new ≡ after_put result self.old key.entry outcome }
    {
        match &mut self.cache {
            Some(cache) => put_in(cache, key, outcome),
            None => Kept::Off,
        }
    }

    /// Its number among the shards of the run, from 0.
    pub fn number(&self) -> u32
        ensures { result ≡ self.now.number }
    {
        self.number
    }

    /// How many entries there may be: the part of the cache's size that is for the shard's number.
    pub fn capacity(&self) -> usize
        ensures capacity { result ≡ self.now.capacity }
        ensures share { self.now.capacity ≡ share_of J.size self.now.number }
    {
        match &self.cache {
            Some(cache) => cache.cap().get(),
            None => 0,
        }
    }

    /// How many looks have found an entry, at most 2^64 - 1.
    pub fn hits(&self) -> u64
        ensures { result ≡ self.now.hits }
    {
        self.hits
    }
}

/// How many entries a shard may have, by its number, in a cache of at most that many entries.
fn share_of(size: u32, number: u32) -> u32
    ensures { result ≡ share_of size number }
{
    size / SHARDS + u32::from(number < size % SHARDS)
}

/// The outcome of a key, whose entry becomes the most recently used.
#[tactic(auto, using(crate::proofs::Listed::promoted_is))]
fn look_up<'a>(cache: &mut LruCache<Key<'a>, Outcome>, key: &Key<'a>) -> Option<Outcome>
    ensures answer { result ≡ listed_outcome cache.old.entries key.now }
    ensures found { IfSome result (λ outcome. cache.new ≡ lru_cache (to_front cache.old.entries key.now outcome) cache.old.cap) }
    ensures missing { IfNone result (cache.new ≡ cache.old) }
{
    let outcome = match cache.peek(key) {
        Some(outcome) => outcome.copy(),
        None => return None,
    };
    cache.promote(key);
    Some(outcome)
}

/// Puts an entry into a map of bounded size.
fn put_in<'a>(cache: &mut LruCache<Key<'a>, Outcome>, key: Key<'a>, outcome: Outcome) -> Kept
    ensures answer { Answers result cache.old.entries cache.old.cap key.entry }
    ensures kept { cache.new ≡ lru_cache (entries_after result cache.old.entries cache.old.cap key.entry outcome) cache.old.cap }
    ensures some { 0 < cache.old.cap }
{
    let was_there = cache.contains(&key);
    let is_full = cache.len() == cache.cap().get();
    if cache.put(key, outcome).is_err() {
        return Kept::NoMemory;
    }
    if was_there {
        return Kept::Again;
    }
    if is_full {
        return Kept::Evicted;
    }
    Kept::New
}
