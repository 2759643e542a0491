//! What a worker has for itself.

ghost use Rattle.std.specs.Prelude.{IfOk};
ghost use Rattle.workers.specs.Local.{IsLocal};

use crate::input::Input;
use crate::reuse::Reuse;
use checker::RunMemory;
use images::Changes;
use std::alloc::{AllocError, Global};
use std::marker::Model;

/// What a worker keeps from one image to the next: the sectors that the cut has changed, for keys, what it knows by
/// footprints, and the memory of programs with guards. Contracts see the log of the changes, what is known, and whether the memory is there.
#[derive(Drop)]
pub(crate) struct Local<'a> {
    pub(crate) changes: Changes<'a>,
    pub(crate) reuse: Reuse,
    pub(crate) memory: RunMemory,
}

impl<'a> Model for Local<'a> {
    ghost use Rattle.workers.specs.Local.{LocalValue};

    ghost Value = { LocalValue };

    ghost view = { λ l. record { log = l.changes; reuse = l.reuse; memory = l.memory } };
}

impl<'a> Local<'a> {
    /// Returns what a worker begins with: nothing is known.
    pub(crate) fn new(alloc: Global, input: &Input<'a>) -> Result<Local<'a>, AllocError>
        ensures { IfOk result (IsLocal input.now) }
    {
        let memory = RunMemory::new(alloc, input.checkers())?;
        Ok(Local {
            changes: Changes::new(alloc, input.history()),
            reuse: Reuse::new(alloc),
            memory,
        })
    }
}
