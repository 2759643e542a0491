//! What a worker judges with.

ghost use Rattle.workers.specs.Input.{IsRunOf};

use crate::cache::Shards;
use crate::gate::Gate;
use crate::input::Input;
use verdict_cache::Run;

/// A worker: what is judged, the shards of the run's cache, the gate that it tells of its blocks, and its number.
#[derive(Drop)]
pub(crate) struct Worker<'b, 'a, J: Run, G: Gate> {
    pub(crate) input: &'b Input<'a>,
    pub(crate) shards: &'b Shards<'b, 'a, J>,
    pub(crate) gate: &'b G,
    pub(crate) number: u8,
    pub ghost run_is: { IsRunOf J.plan J.checkers input.now },
}
