//! What is inferred of a program, accepted or not.

ghost use Rattle.std.specs.Prelude.{◌≡◌, OnOk, IfOk, IfSome, Some};
ghost use Rattle.bpf_isa.specs.Program.{IsProgram};
ghost use Rattle.verifier.specs.Inferred.{IsFound};
ghost use Rattle.verifier.specs.Sought.{IsSought};
ghost use Rattle.verifier.specs.Tables.{rule_with};

use crate::check::check_good;
use crate::climbing::climb;
use crate::rounds::{make_rounds, make_rounds_within};
use crate::scene::Scene;
use crate::table::Table;
use bpf_shape::Fault;
use std::alloc::{AllocError, Global};

/// How many visits of slots the rounds are given to name a breach.
const MOST_VISITS: u64 = 500_000;

/// What is inferred where the search found no good table, by the table at which it ended and the breach that it met.
fn infer_refused(
    alloc: Global,
    scene: &Scene,
    table: Table,
    met: Option<Fault>,
) -> Result<(Table, Option<Fault>), AllocError>
    requires sought { IsSought scene.now.guards scene.now.program.now scene.now.sectors table }
    requires met { IfSome met (λ f. rule_with scene.now.guards scene.now.program.now table f.slot ≡ Some f.code) }
    ensures found { IfOk result (λ it. IsFound scene.now.guards scene.now.program.now scene.now.sectors it.0 it.1) }
    ensures program { OnOk result (IsProgram scene.now.program.now) }
{
    let Some(fault) = met else {
        let settled = make_rounds(alloc, scene)?;
        return Ok((settled, None));
    };
    match make_rounds_within(alloc, scene, MOST_VISITS)? {
        Some(settled) => Ok((settled, None)),
        None => Ok((table, Some(fault))),
    }
}

/// The table at which the rounds end. A good one is found without them: where the search ends in a good table, that is
/// the least, and the rounds would end there too. Where no table is good only they tell what is known. Where they need
/// too many visits, it is the table at which the search ends, with the breach that it met.
pub(crate) fn infer(alloc: Global, scene: &Scene) -> Result<(Table, Option<Fault>), AllocError>
    ensures found { IfOk result (λ it. IsFound scene.now.guards scene.now.program.now scene.now.sectors it.0 it.1) }
    ensures program { OnOk result (IsProgram scene.now.program.now) }
{
    let (table, met) = climb(alloc, scene)?;
    match check_good(scene, &table) {
        Ok(()) => Ok((table, None)),
        Err(_) => infer_refused(alloc, scene, table, met),
    }
}
