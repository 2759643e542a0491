//! The workers' lists of drawn blocks.

ghost use Rattle.std.specs.Prelude.{◌≡◌, not};
ghost use Rattle.explore_core.specs.Lists.{is_under, listed_under, lists_without};

/// A drawn block that nobody has in hand, and the worker in whose list it is.
#[derive(Clone, Copy)]
pub struct Drawn {
    pub worker: usize,
    pub block: usize,
}

/// Whether a block is in the list of a worker.
pub(crate) fn listed_under(lists: &[Drawn], worker: usize, block: usize) -> bool
    ensures { result ≡ listed_under worker block lists.now }
{
    for drawn in lists {
        if drawn.worker == worker && drawn.block == block {
            return true;
        }
    }
    false
}

/// Takes a block out of the list of a worker.
pub(crate) fn unlist(lists: &mut Vec<Drawn>, worker: usize, block: usize)
    ensures { lists.new.items ≡ lists_without worker block lists.old.items }
{
    lists.retain(
        |drawn: &Drawn| -> bool
            ensures { result ≡ not (is_under worker block drawn.now) }
        { !(drawn.worker == worker && drawn.block == block) },
    );
}
