//! The frames above the first (docs/MACHINE.md, Local calls, exit, helper calls).

ghost use Rattle.std.specs.Prelude.{◌≡◌, ◌≤◌, ◌<◌, ◌+◌, ◌-◌, ◌∷◌, ◌++◌, [], ℕ, List, Option, Some, None, length, map, take, nat_lt, if◌then◌else◌, IfNone, slice_get, unwrap_or};
ghost use Rattle.std.specs.Option.{option_map};
ghost use Rattle.machine.specs.State.{unset_stack};
ghost use Rattle.machine.specs.Step.{caller_of};
ghost use Rattle.machine.specs.Guards.{filled_frame};
ghost use Rattle.machine.specs.Memory.{change_at};
ghost use Rattle.interp.specs.Cells.{filled_stack, stack_with};
ghost use Rattle.interp.specs.Frames.{called_frame, caller_value, AreLong};

use crate::called_stack::CalledStack;
use crate::caller::CheckedCaller;
use std::marker::Model;

/// The most frames above the first.
const MOST_CALLED: usize = 3;

/// What stands in a place for a frame that was not entered yet.
const NO_CALLER: CheckedCaller = CheckedCaller {
    slot: 0,
    r6: None,
    r7: None,
    r8: None,
    r9: None,
    r10: None,
};

/// Places for the frames above the first, of which the first that many are open. A frame that is entered
/// again finds the bytes of its stack as they were, and none of them is set.
#[derive(Drop)]
pub(crate) struct Frames {
    stacks: [CalledStack; 3],
    callers: [CheckedCaller; 3],
    count: usize,
}

impl Model for Frames {
    ghost use Rattle.std.specs.Prelude.{List, take};
    ghost use Rattle.machine.specs.State.{Frame};
    ghost use Rattle.interp.specs.Frames.{called_all, AreFrames};

    ghost Value = { List Frame };

    ghost view = { λ f. take f.count (called_all f.stacks f.callers) };

    ghost invariant = { λ f. AreFrames f.stacks f.callers f.count };
}

impl Frames {
    /// No open frame.
    pub(crate) fn new() -> Frames
        ensures { result ≡ [] }
    {
        Frames {
            stacks: [CalledStack::new(), CalledStack::new(), CalledStack::new()],
            callers: [NO_CALLER; 3],
            count: 0,
        }
    }

    /// How many are open.
    pub(crate) fn count(&self) -> usize
        ensures count { result ≡ length self.now }
        ensures few { result ≤ 3 }
        ensures long { AreLong self.now }
    {
        self.count
    }

    /// Opens a frame with an unset stack, and answers its number, 1 to 3, if there is a place for it.
    pub(crate) fn enter(&mut self, caller: CheckedCaller) -> Option<usize>
        ensures number { result ≡ (if nat_lt (length self.old) 3 then Some (length self.old + 1) else None) }
        ensures entered { self.new ≡ (if nat_lt (length self.old) 3 then self.old ++ called_frame unset_stack caller ∷ [] else self.old) }
    {
        if self.count == MOST_CALLED {
            return None;
        }
        self.stacks[self.count].clear();
        self.callers[self.count] = caller;
        self.count += 1;
        Some(self.count)
    }

    /// Closes the last frame, if one is open, and answers what its call saved.
    pub(crate) fn leave(&mut self) -> Option<CheckedCaller>
        ensures caller { option_map caller_value result ≡ caller_of self.old }
        ensures left { self.new ≡ take (length self.old - 1) self.old }
        ensures none { IfNone result (self.new ≡ self.old) }
    {
        if self.count == 0 {
            return None;
        }
        self.count -= 1;
        Some(self.callers[self.count])
    }

    /// The stack of an open frame.
    pub(crate) fn stack(&self, number: usize) -> &CalledStack
        requires number { number < length self.now }
        requires few { number < 3 }
        ensures { option_map (λ f. f.stack) (slice_get self.now number) ≡ Some result.now }
    {
        &self.stacks[number]
    }

    /// Its bytes, where an unset byte is 0.
    pub(crate) fn known(&self, number: usize) -> [u8; 512]
        requires number { number < length self.now }
        requires few { number < 3 }
        ensures known { option_map (λ f. map (λ c. unwrap_or c 0) f.stack) (slice_get self.now number) ≡ Some result }
        ensures long { length result ≡ 512 }
    {
        self.stack(number).known()
    }

    /// Writes bytes from a place of the stack of an open frame on.
    #[inline(never)]
    pub(crate) fn write(&mut self, number: usize, place: usize, bytes: &[u8])
        requires number { number < length self.old }
        requires few { number < 3 }
        requires fits { place + length bytes.now ≤ 512 }
        ensures { self.new ≡ change_at number (λ f. record f { stack = stack_with f.stack place bytes.now }) self.old }
    {
        self.stacks[number].write(place, bytes);
    }

    /// Sets each unset byte of a stack to 0.
    pub(crate) fn fill(&mut self)
        ensures { self.new ≡ map filled_frame self.old }
    {
        fill_all(&mut self.stacks);
    }
}

/// Sets each unset byte of these stacks to 0.
fn fill_all(stacks: &mut [CalledStack])
    ensures filled { stacks.new ≡ map filled_stack stacks.old }
{
    for frame in 0..stacks.len() {
        stacks[frame].fill();
    }
}
