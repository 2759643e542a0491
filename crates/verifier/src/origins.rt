//! Where the groups of a slot's stack come from, and on which edges they need not be told at once.
//!
//! Where two ways meet they mostly bring the same groups: those that no instruction changed since the ways parted. Then
//! one of the ways is enough, and while a search hurries on the other waits. The way that is told is the one that comes
//! first in the order: the shorter one, where one of them leads around some slots.
//!
//! Nothing that is proved rests on it: a table that is found with it is tested.

ghost use Rattle.std.specs.Prelude.{◌<◌};

use crate::order::SlotOrder;
use crate::parts::{Parts, changed_by};
use crate::passing::Edge;
use crate::scene::Scene;
use bpf_isa::instr::Instr;
use bpf_shape::edges_of;
use std::alloc::{AllocError, Global};

/// How many groups a stack has.
const GROUPS: usize = 64;

/// After the numbers of the slots: what the instruction at slot 0 makes. A slot's instruction makes this and its slot.
const MADE: u16 = 4096;

/// On which edges something was passed on.
#[derive(Drop)]
pub(crate) struct Gone {
    nexts: Vec<bool>,
    targets: Vec<bool>,
}

/// Whether a slot that passes something on does so for the first time.
fn is_first(passed: &mut Vec<bool>, slot: usize) -> bool {
    if passed.len() <= slot || passed[slot] {
        return false;
    }
    passed[slot] = true;
    true
}

/// No slot of that many has passed something on.
fn none_passed(alloc: Global, slots: usize) -> Result<Vec<bool>, AllocError> {
    let mut passed = Vec::new(alloc);
    passed.resize(slots, false)?;
    Ok(passed)
}

impl Gone {
    /// No slot of that many has passed something on.
    pub(crate) fn new(alloc: Global, slots: usize) -> Result<Gone, AllocError> {
        Ok(Gone {
            nexts: none_passed(alloc, slots)?,
            targets: none_passed(alloc, slots)?,
        })
    }

    /// Whether a slot passed something on along an edge.
    pub(crate) fn has(&self, edge: Edge, slot: usize) -> bool {
        let passed = match edge {
            Edge::Next => self.nexts.get(slot),
            Edge::Target => self.targets.get(slot),
        };
        passed.copied().unwrap_or(true)
    }

    /// Whether a slot that passes something on along an edge does so for the first time.
    pub(crate) fn is_first(&mut self, edge: Edge, slot: usize) -> bool {
        match edge {
            Edge::Next => is_first(&mut self.nexts, slot),
            Edge::Target => is_first(&mut self.targets, slot),
        }
    }
}

/// For each group the slot from which it comes, or after these the one whose instruction made it.
#[derive(Clone, Copy)]
struct Origin {
    is_known: bool,
    groups: [u16; GROUPS],
}

/// Of a slot the groups that need not be told on its edges.
#[derive(Clone, Copy)]
struct Spared {
    next: Parts,
    target: Parts,
}

/// Where the groups of each slot come from, and which need not be told; none where that isn't asked.
#[derive(Drop)]
pub(crate) struct Origins {
    slots: Vec<Origin>,
    spared: Vec<Spared>,
}

impl Origin {
    /// What comes from a slot whose instruction makes some groups.
    fn beyond(self, slot: usize, made: Parts) -> Origin
        requires { slot < 4096 }
    {
        let mut origin = self;
        for n in 0..GROUPS {
            if made.has_group(n) {
                origin.groups[n] = MADE + slot as u16;
            }
        }
        origin
    }

    /// One more way leads to a slot. The groups that it brings from where they came before; the others come from the slot
    /// itself.
    fn meet(&mut self, slot: usize, other: &Origin) -> Parts
        requires { slot < 4096 }
    {
        let mut same = Parts::NONE;
        for n in 0..GROUPS {
            if self.groups[n] == other.groups[n] {
                same.add_group(n);
            } else {
                self.groups[n] = slot as u16;
            }
        }
        same
    }
}

/// The groups that an instruction makes for the slots after it.
fn made_by(instr: &Instr) -> Parts {
    match instr {
        Instr::CallLocal { .. } => Parts::NONE,
        _ => changed_by(instr).stack(),
    }
}

impl Origins {
    /// Nothing is asked.
    pub(crate) fn new(alloc: Global) -> Origins {
        Origins {
            slots: Vec::new(alloc),
            spared: Vec::new(alloc),
        }
    }

    /// The groups of which a slot need not tell on an edge.
    #[inline(always)]
    pub(crate) fn spared(&self, slot: usize, edge: Edge) -> Parts {
        match self.spared.get(slot) {
            Some(spared) => match edge {
                Edge::Next => spared.next,
                Edge::Target => spared.target,
            },
            None => Parts::NONE,
        }
    }

    /// All is told on each edge.
    pub(crate) fn forget(&mut self) {
        self.spared.clear();
    }

    /// Makes room for the slots. Where memory is wanting there is none.
    fn begin(&mut self, slots: usize) -> Result<(), AllocError> {
        self.slots.clear();
        self.spared.clear();
        let unknown = Origin {
            is_known: false,
            groups: [0; GROUPS],
        };
        self.slots.resize(slots, unknown)?;
        let none = Spared {
            next: Parts::NONE,
            target: Parts::NONE,
        };
        self.spared.resize(slots, none)?;
        Ok(())
    }

    /// Where the groups of each slot come from, by the edges on which something was passed on.
    pub(crate) fn find(&mut self, scene: &Scene, order: &SlotOrder, gone: &Gone) {
        if self.begin(scene.program.slots()).is_err() {
            self.spared.clear();
            return;
        }
        for place in 0..scene.program.slots() {
            self.find_after(scene, gone, order.slot(place));
        }
    }

    /// Where the groups of a slot come from, if that isn't known yet: from itself.
    fn origin_at(&self, scene: &Scene, slot: usize) -> Option<Origin>
        requires { slot < 4096 }
    {
        match self.slots.get(slot) {
            Some(origin) => Some(if origin.is_known && !scene.shape.is_head(slot) {
                *origin
            } else {
                Origin {
                    is_known: true,
                    groups: [slot as u16; GROUPS],
                }
            }),
            None => None,
        }
    }

    /// Goes along the edges of a slot.
    fn find_after(&mut self, scene: &Scene, gone: &Gone, slot: usize) {
        if 4096 <= slot {
            return;
        }
        let Some(instr) = scene.program.at(slot) else {
            return;
        };
        let Some(origin) = self.origin_at(scene, slot) else {
            return;
        };
        let brought = origin.beyond(slot, made_by(&instr));
        let edges = edges_of(slot, &instr);
        let mut spared = Spared {
            next: Parts::NONE,
            target: Parts::NONE,
        };
        if gone.has(Edge::Next, slot) {
            spared.next = self.arrive(scene, edges.next, &brought);
        }
        if gone.has(Edge::Target, slot) {
            spared.target = self.arrive(scene, edges.target, &brought);
        }
        if slot < self.spared.len() {
            self.spared[slot] = spared;
        }
    }

    /// One way leads to a slot, if there is one. The groups that a way before it brought there too, which need not be told on it.
    fn arrive(&mut self, scene: &Scene, slot: Option<usize>, brought: &Origin) -> Parts {
        let Some(slot) = slot else {
            return Parts::NONE;
        };
        if 4096 <= slot || self.slots.len() <= slot || scene.shape.is_head(slot) {
            return Parts::NONE;
        }
        if self.slots[slot].is_known {
            return self.slots[slot].meet(slot, brought);
        }
        self.slots[slot] = *brought;
        Parts::NONE
    }
}
