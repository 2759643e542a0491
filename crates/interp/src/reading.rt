//! At which sectors a step looks (docs/MACHINE.md, Footprint), whether its checks pass or not.

ghost use Rattle.std.specs.Prelude.{◌≡◌};
ghost use Rattle.helpers.specs.Footprint.{footprint_after};
ghost use Rattle.interp.specs.Looks.{reads_by};

use crate::state::CheckedMachine;
use arithmetic::{bytes_of, look_of};
use bpf_isa::ready::Ready;
use helpers::{Device, Footprint, Helper};
use machine::Look;

impl<const COUNTS: usize, const FRAMES: usize> CheckedMachine<COUNTS, FRAMES> {
    /// Notes at which sectors the step of a record looks. Without room it does nothing.
    #[inline(always)]
    #[tactic(auto, using(helpers::proofs::CallerLemmas::nothing_noted))]
    pub(crate) fn note<D: Device, const ROOM: usize>(
        &self,
        looked: &mut Footprint<ROOM>,
        device: &D,
        ready: &Ready,
    )
        ensures { looked.new ≡ footprint_after looked.old (reads_by (D.content device.now) self.now ready.now) }
    {
        if looked.keeps() {
            self.note_record(looked, device, ready);
        }
    }

    /// Notes what the instruction of a record reads.
    #[inline(never)]
    #[tactic(auto, unfolding(machine::specs::Looks::machine_looks))]
    fn note_record<D: Device, const ROOM: usize>(
        &self,
        looked: &mut Footprint<ROOM>,
        device: &D,
        ready: &Ready,
    )
        ensures { looked.new ≡ footprint_after looked.old (reads_by (D.content device.now) self.now ready.now) }
    {
        match look_of(ready.code) {
            Look::Nothing => {}
            Look::Load(size) => {
                let address = self.address(ready.src, ready.offset);
                looked.look_from(device, address, bytes_of(size));
            }
            Look::Call => {
                if let Some(helper) = Helper::of((ready.immediate % 0x1_0000_0000) as u32) {
                    let (first, second, third) = (self.word(1), self.word(2), self.word(3));
                    looked.look_with(device, helper, first, second, third);
                }
            }
        }
    }
}
