//! The shards of a run.

ghost use Rattle.std.specs.Prelude.{◌≡◌, ◌<◌, ◌≤◌, length, IfOk};
ghost use Rattle.verdict_cache.specs.Sizes.{first_shards};

use crate::run::Run;
use crate::shard::{SHARDS, Shard};
use checker::Checker;
use images::History;
use std::alloc::{AllocError, Global};
use std::sync::Mutex;

/// The sixteen shards of a run in the order of their numbers, each after a lock, for a cache of at
/// most that many entries: 0 to 65,536. All are empty. The history, the checkers and the size are those
/// of the run.
///
/// What lies after a lock no contract names; that each shard has its part of the size is a property of
/// its type, which `Shard::capacity`, `look` and `put` tell whoever holds the lock.
///
/// # Errors
///
/// Memory was refused.
pub fn shards<'a, J: Run>(
    alloc: Global,
    history: &'a History<'_>,
    checkers: &[Checker<'_>],
    size: u32,
) -> Result<Vec<Mutex<Shard<'a, J>>>, AllocError>
    requires history { history.now ≡ J.plan }
    requires checkers { checkers.now ≡ J.checkers }
    requires size { (size ≡ J.size) × (size ≤ 65536) }
    ensures { IfOk result (λ shards. length shards.items ≡ 16) }
{
    // The contract alone says which run they are of.
    let (_history, _checkers) = (history, checkers);
    lock_each(alloc, empty_shards(alloc, size)?)
}

/// The shards of an empty cache of at most that many entries.
fn empty_shards<'a, J: Run>(alloc: Global, size: u32) -> Result<Vec<Shard<'a, J>>, AllocError>
    requires { size ≡ J.size }
    ensures shards { IfOk result (λ shards. shards.items ≡ first_shards size 16) }
    ensures count { IfOk result (λ shards. length shards.items ≡ 16) }
{
    let mut shards = Vec::new(alloc);
    for number in 0..SHARDS {
        shards.push(Shard::new(alloc, size, number)?)?;
    }
    Ok(shards)
}

/// Each of them after a lock, in their order.
fn lock_each<T: Drop>(alloc: Global, values: Vec<T>) -> Result<Vec<Mutex<T>>, AllocError>
    ensures { IfOk result (λ locks. length locks.items ≡ length values.items) }
{
    let mut locks = Vec::new(alloc);
    for value in values {
        locks.push(Mutex::new(value))?;
    }
    Ok(locks)
}
