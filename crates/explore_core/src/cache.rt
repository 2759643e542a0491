//! The cache: outcomes by key.

ghost use Rattle.std.specs.Prelude.{◌≡◌, ◌==◌, ◌++◌, ◌∷◌, [], not, OnOk, OnErr};
ghost use Rattle.std.specs.List.{list_any};
ghost use Rattle.explore_core.specs.Cache.{cache_outcome, without};

use std::alloc::AllocError;

/// An entry of the cache.
#[derive(Clone, Copy)]
pub struct CacheEntry {
    pub key: u64,
    pub outcome: u64,
}

/// The outcome that the cache has for a key.
pub(crate) fn cache_outcome(cache: &[CacheEntry], key: u64) -> Option<u64>
    ensures { result ≡ cache_outcome cache.now key }
{
    for entry in cache {
        if entry.key == key {
            return Some(entry.outcome);
        }
    }
    None
}

/// Puts an entry in, and then takes the entries of those keys out. Where memory is wanting, nothing changes.
pub(crate) fn put_entry(
    cache: &mut Vec<CacheEntry>,
    entry: CacheEntry,
    gone: &[u64],
) -> Result<(), AllocError>
    ensures put { OnOk result (cache.new.items ≡ without gone.now (cache.old.items ++ entry ∷ [])) }
    ensures kept { OnErr result (cache.new.items ≡ cache.old.items) }
{
    cache.push(entry)?;
    cache.retain(
        |entry: &CacheEntry| -> bool
            ensures { result ≡ not (list_any (λ key. key == entry.now.key) gone.entry.now) }
        { !gone.contains(&entry.key) },
    );
    Ok(())
}
