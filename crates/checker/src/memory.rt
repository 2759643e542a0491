//! The memory with which checkers are run.

ghost use Rattle.std.specs.Prelude.{◌≡◌, is_some, IfOk};
ghost use Rattle.std.specs.List.{list_any};
ghost use Rattle.checker.specs.Memory.{IsServed, AreServed};

use crate::checker::Checker;
use plain::OwnMemory;
use std::alloc::{AllocError, Global};
use std::marker::Model;

/// The memory of programs, for runs of checkers one after the other. A program with guards has some of its own (docs/MACHINE.md, Memory), so it
/// is there where a checker has guards. Contracts see whether it is there.
#[derive(Drop)]
pub struct RunMemory {
    pub(crate) own: Option<OwnMemory>,
}

impl Model for RunMemory {
    ghost use Rattle.std.specs.Prelude.{Bool, is_some};

    ghost Value = { Bool };

    ghost view = { λ m. is_some m.own };
}

/// Whether one of those checkers has guards.
fn some_guards(checkers: &[Checker<'_>]) -> bool
    ensures { result ≡ list_any (λ c. is_some c.guards) checkers.now }
{
    checkers.iter().any(|checker| checker.has_guards())
}

/// The memory, where it is wanted.
fn memory_if(alloc: Global, wanted: bool) -> Result<RunMemory, AllocError>
    ensures { IfOk result (λ memory. memory ≡ wanted) }
{
    if !wanted {
        return Ok(RunMemory { own: None });
    }
    let own = OwnMemory::new(alloc)?;
    Ok(RunMemory { own: Some(own) })
}

impl RunMemory {
    /// Returns memory for runs of some checkers. Some is taken where one of them has guards.
    ///
    /// # Errors
    ///
    /// Memory was refused.
    pub fn new(alloc: Global, checkers: &[Checker<'_>]) -> Result<RunMemory, AllocError>
        ensures { IfOk result (λ memory. AreServed memory checkers.now) }
    {
        memory_if(alloc, some_guards(checkers))
    }

    /// Returns memory for runs of one checker.
    ///
    /// # Errors
    ///
    /// Memory was refused.
    pub fn of(alloc: Global, checker: &Checker<'_>) -> Result<RunMemory, AllocError>
        ensures { IfOk result (λ memory. IsServed memory checker.now.guards) }
    {
        memory_if(alloc, checker.has_guards())
    }
}
