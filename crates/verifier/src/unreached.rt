//! What no run of an accepted program reaches.

ghost use Rattle.std.specs.Prelude.{◌≡◌, ◌<◌, ◌≤◌, ◌+◌, IfSome};
ghost use Rattle.std.specs.Option.{option_map};
ghost use Rattle.verifier.specs.Reach.{is_unreached, unreached_slots, count_and_first, and_slot};

use crate::verified::Verified;

/// Instructions that no run reaches: how many there are, and the slot of the first.
#[derive(Clone, Copy)]
pub struct Unreached {
    pub count: usize,
    pub first: usize,
}

/// Whether an instruction begins at a slot, and no path leads there.
fn is_unreached(verified: &Verified<'_>, slot: usize) -> bool
    ensures { result ≡ is_unreached verified.now slot }
{
    verified.program().at(slot).is_some() && verified.table().state(slot).is_none()
}

/// These, and the instruction at a slot after them.
fn and_slot(found: Option<Unreached>, slot: usize) -> Unreached
    requires slot { slot < 4096 }
    requires few { IfSome found (λ u. u.count ≤ slot) }
    ensures counted { Some (result.count, result.first) ≡ and_slot (option_map (λ u. (u.count, u.first)) found) slot }
    ensures few { result.count ≤ slot + 1 }
{
    match found {
        Some(Unreached { count, first }) => Unreached {
            count: count + 1,
            first,
        },
        None => Unreached {
            count: 1,
            first: slot,
        },
    }
}

/// Which instructions of an accepted program no run reaches, if there are any.
pub fn unreached_of(verified: &Verified<'_>) -> Option<Unreached>
    ensures { option_map (λ u. (u.count, u.first)) result ≡ count_and_first (unreached_slots verified.now) }
{
    let mut found = None;
    for slot in 0..verified.program().slots() {
        if is_unreached(verified, slot) {
            found = Some(and_slot(found, slot));
        }
    }
    found
}
