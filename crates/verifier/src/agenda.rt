//! The slots that are still to pass on what they learned, in the order of the ways.
//!
//! Nothing that is proved rests on it: a table that is found with it is tested.

use crate::news::News;
use crate::order::SlotOrder;
use crate::origins::Gone;
use crate::parts::{Parts, looked_at};
use crate::passing::Edge;
use crate::scene::Scene;
use crate::worklist::Worklist;
use bpf_isa::instr::Instr;
use bpf_isa::program::Program;
use std::alloc::{AllocError, Global};

/// Of that many steps the first half takes the first slot each time. The other half goes forward, so that where many
/// loops share a body it isn't gone through for each of them alone.
const TURN: u64 = 1 << 21;

/// Which slots have something to pass on at once, by their places in the order, and what each is still to tell.
#[derive(Drop)]
pub(crate) struct Agenda {
    order: SlotOrder,
    places: Worklist,
    news: News,
    /// On which edges something was passed on.
    gone: Gone,
    /// How many steps were taken, the place of the last one and its slot, of what parts it tells, and whether its
    /// instruction looks at one of them.
    steps: u64,
    place: usize,
    turn: usize,
    told: Parts,
    is_seen: bool,
}

impl Agenda {
    /// The agenda of a program, on which no slot stands.
    pub(crate) fn new(alloc: Global, program: &Program) -> Result<Agenda, AllocError> {
        Ok(Agenda {
            order: SlotOrder::of(alloc, program)?,
            places: Worklist::new(),
            news: News::new(alloc, program.slots())?,
            gone: Gone::new(alloc, program.slots())?,
            steps: 0,
            place: 0,
            turn: 0,
            told: Parts::NONE,
            is_seen: true,
        })
    }

    /// A slot learned something of these parts.
    pub(crate) fn put(&mut self, slot: usize, learned: Parts) {
        let place = self.order.place(slot);
        if self.news.put(slot, learned) && place < 4096 {
            self.places.put(place);
        }
    }

    /// Takes the first place that is on the agenda; in each other turn the next one, if there is one after the last.
    fn take_place(&mut self) -> Option<usize> {
        if self.steps % TURN < TURN / 2 || 4096 <= self.place {
            return self.places.take();
        }
        match self.places.take_from(self.place) {
            Some(place) => Some(place),
            None => self.places.take(),
        }
    }

    /// Puts each slot on the agenda that has something to pass on at once, and takes off the others.
    fn put_all(&mut self) {
        self.places = Worklist::new();
        for slot in 0..self.news.slots() {
            let place = self.order.place(slot);
            if self.news.is_urgent(slot) && place < 4096 {
                self.places.put(place);
            }
        }
    }

    /// Says anew what is passed on at once, where it is time.
    #[inline(never)]
    fn turn_over(&mut self, scene: &Scene) {
        self.news
            .turn_over(scene, &self.order, &self.gone, self.steps);
        self.put_all();
    }

    /// Takes a place from the agenda, or where none is left there, of what waited.
    fn take_some(&mut self, scene: &Scene) -> Option<usize> {
        self.steps = self.steps.wrapping_add(1);
        if self.news.is_due(self.steps) {
            self.turn_over(scene);
        }
        match self.take_place() {
            Some(place) => Some(place),
            None => {
                if !self.news.has_waiting() {
                    return None;
                }
                self.turn_over(scene);
                self.take_place()
            }
        }
    }

    /// Takes a slot from the agenda. It is to tell of the parts of which it learned something.
    pub(crate) fn take(&mut self, scene: &Scene) -> Option<usize> {
        self.place = self.take_some(scene)?;
        let slot = self.order.slot(self.place);
        self.turn = slot;
        self.told = self.news.take(slot)?;
        Some(slot)
    }

    /// Whether the slot whose turn it is told something on an edge before.
    pub(crate) fn has_told(&self, edge: Edge) -> bool {
        self.gone.has(edge, self.turn)
    }

    /// Whether the instruction at the slot whose turn it is looks at something that the slot tells of. Else it breaks
    /// no other rule than before, and changes nothing in another way.
    pub(crate) fn is_seen_by(&mut self, instr: &Instr) -> bool {
        self.is_seen = self.told.meets(looked_at(instr));
        self.is_seen
    }

    /// Whether the function that an instruction calls learns nothing: only arguments pass to it, and it was told the others.
    pub(crate) fn keeps_from_target(&self, instr: &Instr) -> bool {
        match instr {
            Instr::CallLocal { .. } => !self.is_seen && self.has_told(Edge::Target),
            _ => false,
        }
    }

    /// Of what parts the slot tells, where these changed.
    fn told_with(&self, changed: Parts) -> Parts {
        if self.is_seen {
            self.told.and(changed)
        } else {
            self.told
        }
    }

    /// Of what parts the slot whose turn it is tells another one on an edge, where these changed: of all, the first time
    /// that something is passed.
    pub(crate) fn told(&mut self, edge: Edge, to: usize, changed: Parts) -> Parts {
        if self.gone.is_first(edge, self.turn) {
            return Parts::ALL;
        }
        let told = self.told_with(changed);
        self.news.tell(self.turn, edge, to, told)
    }
}
