//! A state is led on in place: it is large, so it is copied once for each edge along which it is passed on.

ghost use Rattle.std.specs.Prelude.{◌≡◌};
ghost use Rattle.ranges.specs.After.{after_answer};
ghost use Rattle.ranges.specs.Changing.{after_change, left_of};
ghost use Rattle.ranges.specs.Moving.{reach};
ghost use Rattle.ranges.specs.Passing.{entry_state};
ghost use Rattle.ranges.specs.Seen.{kind_of};
ghost use Rattle.ranges.specs.SeenStates.{state_of};

use crate::change::{Change, Effect};
use crate::edges::entry;
use crate::state::State;
use crate::value::Value;
use crate::writes::write;

/// A call answers: r1 to r5 are unset.
fn answer(state: &mut State, value: Value)
    ensures { state_of state.new ≡ after_answer (state_of state.old) (kind_of value) }
{
    state.set_at(0, value);
    state.set_at(1, Value::Unset);
    state.set_at(2, Value::Unset);
    state.set_at(3, Value::Unset);
    state.set_at(4, Value::Unset);
    state.set_at(5, Value::Unset);
}

/// Makes a change in a state.
fn make(change: &Change, state: &mut State)
    ensures { state_of state.new ≡ after_change (state_of state.old) change.now }
{
    match change {
        Change::Stays => {}
        Change::Register(r, value) => state.set_value(*r, *value),
        Change::Registers(r, value, q, other) => {
            state.set_value(*r, *value);
            state.set_value(*q, *other);
        }
        Change::Answer(value) => answer(state, *value),
        Change::Group(n, group) => state.set_group(n.number, *group),
        Change::Bytes(bytes) => write(state, *bytes),
        Change::Copied(bytes, value) => {
            write(state, *bytes);
            answer(state, *value);
        }
    }
}

/// Leads a state to the entry of a local function, as `entry` does.
// The new state makes its frame large.
#[inline(never)]
fn enter(state: &mut State)
    ensures { state_of state.new ≡ entry_state (state_of state.old) }
{
    *state = entry(state);
}

/// Makes of a state what comes of it. Whether something does; if nothing does, the state stays.
pub fn lead(effect: &Effect, state: &mut State) -> bool
    ensures { left_of (state_of state.old) effect.now ≡ reach result (state_of state.new) }
{
    match effect {
        Effect::Nothing => return false,
        Effect::Changed(change) => make(change, state),
        Effect::Entered => enter(state),
    }
    true
}
