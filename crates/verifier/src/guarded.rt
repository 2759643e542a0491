//! Which slots of an accepted program are guarded.

ghost use Rattle.std.specs.Prelude.{◌≡◌, ◌<◌, IfOk};
ghost use Rattle.verifier.specs.Guards.{is_guarded_at, guarded_slots};

use crate::verified::Verified;
use ranges::is_guarded;
use std::alloc::{AllocError, Global};

/// Whether a slot of an accepted program is guarded: the place of its access isn't proved.
#[tactic(auto, unfolding(crate::specs::Guards::is_guarded_at))]
pub fn is_guarded_at(verified: &Verified<'_>, slot: usize) -> bool
    ensures { result ≡ is_guarded_at verified.now.program verified.now.table slot }
{
    match (verified.program().at(slot), verified.table().state(slot)) {
        (Some(instr), Some(state)) => is_guarded(&instr, state),
        _ => false,
    }
}

/// The guarded slots of an accepted program, in rising order. A program that is accepted without guards has none. An error
/// is want of memory.
#[tactic(auto, unfolding(crate::specs::Guards::guarded_slots))]
pub fn guarded_slots(alloc: Global, verified: &Verified<'_>) -> Result<Vec<usize>, AllocError>
    ensures { IfOk result (λ slots. slots.items ≡ guarded_slots verified.now.program verified.now.table) }
{
    let mut slots = Vec::new(alloc);
    for slot in 0..verified.program().slots() {
        if is_guarded_at(verified, slot) {
            slots.push(slot)?;
        }
    }
    Ok(slots)
}
