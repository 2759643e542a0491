//! The order of the ways: in it each slot stands before those to which it leads, again edges aside, and the slots of a
//! function before those of the functions that it calls.
//!
//! Nothing that is proved rests on it: a table that is found along it is tested.

ghost use Rattle.std.specs.Prelude.{◌<◌, ◌≤◌};

use crate::worklist::Worklist;
use bpf_isa::instr::{Condition, Instr};
use bpf_isa::program::Program;
use bpf_isa::ready::AGAIN_NUMBER;
use bpf_shape::{Edges, callee, control};
use std::alloc::{AllocError, Global};

/// The slots of a program in their order, and the place of each slot.
#[derive(Drop)]
pub(crate) struct SlotOrder {
    slots: Vec<usize>,
    places: Vec<usize>,
}

/// How many ways are still to be gone to each slot, and the slots to which none are. Those that only calls lead to
/// wait until nothing else is left.
#[derive(Drop)]
struct Ways {
    waits: Vec<u32>,
    ready: Worklist,
    entries: Worklist,
}

impl Ways {
    /// One way more leads to a slot, if there is one.
    fn add(&mut self, slot: Option<usize>) {
        if let Some(slot) = slot
            && slot < self.waits.len()
        {
            self.waits[slot] = self.waits[slot].saturating_add(1);
        }
    }

    /// A slot to which no way leads is ready.
    fn start(&mut self, slot: usize)
        requires { slot < 4096 }
    {
        if slot < self.waits.len() && self.waits[slot] == 0 {
            self.ready.put(slot);
        }
    }

    /// One of the ways to a slot is gone. Whether it was the last.
    fn go(&mut self, slot: usize) -> bool {
        if self.waits.len() <= slot {
            return false;
        }
        self.waits[slot] = self.waits[slot].saturating_sub(1);
        self.waits[slot] == 0
    }

    /// A control edge is gone.
    fn follow(&mut self, slot: Option<usize>) {
        if let Some(slot) = slot
            && slot < 4096
            && self.go(slot)
        {
            self.ready.put(slot);
        }
    }

    /// A call is gone.
    fn enter(&mut self, slot: Option<usize>) {
        if let Some(slot) = slot
            && slot < 4096
            && self.go(slot)
        {
            self.entries.put(slot);
        }
    }

    /// The next slot, the lowest of those that are ready.
    fn next(&mut self) -> Option<usize> {
        match self.ready.take() {
            Some(slot) => Some(slot),
            None => self.entries.take(),
        }
    }
}

/// Whether a slot is the test after a call of `again`.
fn tests_again(program: &Program, slot: usize) -> bool {
    if slot == 0 {
        return false;
    }
    match program.at(slot - 1) {
        Some(Instr::CallHelper { number }) => number.cast_unsigned() == AGAIN_NUMBER,
        _ => false,
    }
}

/// The control edges of a slot without its again edge.
fn plain_edges(program: &Program, slot: usize) -> Edges {
    let edges = control(program, slot);
    if !tests_again(program, slot) {
        return edges;
    }
    match program.at(slot) {
        Some(
            Instr::Branch {
                condition: Condition::Eq,
                ..
            },
        ) => Edges {
            next: None,
            target: edges.target,
        },
        _ => Edges {
            next: edges.next,
            target: None,
        },
    }
}

/// The ways to each slot.
fn ways_of(alloc: Global, program: &Program) -> Result<Ways, AllocError> {
    let mut waits = Vec::new(alloc);
    waits.resize(program.slots(), 0)?;
    let mut ways = Ways {
        waits,
        ready: Worklist::new(),
        entries: Worklist::new(),
    };
    for slot in 0..program.slots() {
        let edges = plain_edges(program, slot);
        ways.add(edges.next);
        ways.add(edges.target);
        ways.add(callee(program, slot));
    }
    for slot in 0..program.slots() {
        ways.start(slot);
    }
    Ok(ways)
}

impl SlotOrder {
    /// The order of a program's slots: the lowest slot first to which all ways are gone.
    pub(crate) fn of(alloc: Global, program: &Program) -> Result<SlotOrder, AllocError> {
        let mut ways = ways_of(alloc, program)?;
        let mut slots = Vec::new(alloc);
        slots.resize(program.slots(), 0)?;
        let mut places = Vec::new(alloc);
        places.resize(program.slots(), 0)?;
        let mut order = SlotOrder { slots, places };
        for place in 0..program.slots() {
            if let Some(slot) = ways.next() {
                order.put(place, slot);
                let edges = plain_edges(program, slot);
                ways.follow(edges.next);
                ways.follow(edges.target);
                ways.enter(callee(program, slot));
            }
        }
        Ok(order)
    }

    /// Puts a slot into a place.
    fn put(&mut self, place: usize, slot: usize) {
        if place < self.slots.len() && slot < self.places.len() {
            self.slots[place] = slot;
            self.places[slot] = place;
        }
    }

    /// The slot in a place.
    pub(crate) fn slot(&self, place: usize) -> usize {
        if place < self.slots.len() {
            self.slots[place]
        } else {
            0
        }
    }

    /// The place of a slot.
    pub(crate) fn place(&self, slot: usize) -> usize {
        if slot < self.places.len() {
            self.places[slot]
        } else {
            0
        }
    }
}
