//! What the slots learned and are still to pass on: some parts at once, and in a long search others later.
//!
//! A loop is settled by what its heads learn. A sum of numbers that widen changes with each of their steps, in all
//! slots to which it goes, and mostly no head learns of it. So a long search makes a sample now and then: a lap in
//! which all is told, and what each slot learns is taken down. After it only those parts are told at once on which
//! hangs what a head learned in the sample. The others wait for many laps, and are told once for all of them.
//!
//! Nothing that is proved rests on it: a table that is found with it is tested.

use crate::order::SlotOrder;
use crate::origins::{Gone, Origins};
use crate::parts::{Parts, needed_before};
use crate::passing::{Edge, target_of};
use crate::scene::Scene;
use bpf_shape::edges_of;
use std::alloc::{AllocError, Global};

/// How many steps are made before the first sample.
const FIRST: u64 = 1 << 16;

/// How many steps are made at most after a sample.
const NARROW: u64 = 1 << 18;

/// What is told at once.
#[derive(Clone, Copy)]
enum NewsPhase {
    /// All is, so that what waited arrives.
    Wide,
    /// All is, and what is learned is taken down.
    Sample,
    /// That on which hangs what a head learned in the sample.
    Narrow,
}

/// Of a slot the parts that it tells at once, those of which it learned something since the last sample began, and those
/// that it told on some of its edges alone.
#[derive(Clone, Copy)]
struct NewsRule {
    urgent: Parts,
    learned: Parts,
    owed: Parts,
}

/// The parts that each slot is still to tell; the rules of the slots, none in a short search; where their groups come
/// from; and the phase, with the step at which it ends.
#[derive(Drop)]
pub(crate) struct News {
    pending: Vec<Parts>,
    rules: Vec<NewsRule>,
    origins: Origins,
    phase: NewsPhase,
    due: u64,
}

impl News {
    /// No slot has something to tell.
    pub(crate) fn new(alloc: Global, slots: usize) -> Result<News, AllocError> {
        let mut pending = Vec::new(alloc);
        pending.resize(slots, Parts::NONE)?;
        Ok(News {
            pending,
            rules: Vec::new(alloc),
            origins: Origins::new(alloc),
            phase: NewsPhase::Wide,
            due: FIRST,
        })
    }

    /// How many slots there are.
    pub(crate) fn slots(&self) -> usize {
        self.pending.len()
    }

    /// A slot learned something of these parts. Whether it is to tell some of them at once.
    pub(crate) fn put(&mut self, slot: usize, learned: Parts) -> bool {
        if self.pending.len() <= slot {
            return false;
        }
        self.pending[slot] = self.pending[slot].and(learned);
        if self.rules.len() <= slot {
            return true;
        }
        let rule = self.rules[slot];
        self.rules[slot].learned = rule.learned.and(learned);
        learned.meets(rule.urgent)
    }

    /// The parts that a slot tells at once, if it learned something of them.
    fn urgent(&self, slot: usize) -> Parts {
        match self.rules.get(slot) {
            Some(rule) => rule.urgent,
            None => Parts::ALL,
        }
    }

    /// Takes what a slot is to tell at once.
    pub(crate) fn take(&mut self, slot: usize) -> Option<Parts> {
        if self.pending.len() <= slot {
            return None;
        }
        let pending = self.pending[slot];
        self.pending[slot] = Parts::NONE;
        if self.rules.is_empty() {
            return Some(pending);
        }
        let told = pending.common(self.urgent(slot));
        self.pending[slot] = pending.without(told);
        Some(told)
    }

    /// Of these parts those that a slot tells another one at once, along one of its edges. Of the others it tells later.
    #[inline(always)]
    pub(crate) fn tell(&mut self, from: usize, edge: Edge, to: usize, told: Parts) -> Parts {
        if self.rules.len() <= from {
            return told;
        }
        let now = told
            .common(self.urgent(to))
            .without(self.origins.spared(from, edge));
        let owed = self.rules[from].owed;
        self.rules[from].owed = owed.and(told.without(now));
        now
    }

    /// Whether a slot has something to tell at once.
    pub(crate) fn is_urgent(&self, slot: usize) -> bool {
        match self.pending.get(slot) {
            Some(pending) => pending.meets(self.urgent(slot)),
            None => false,
        }
    }

    /// Whether a slot told some parts on some of its edges alone.
    fn has_owed(&self) -> bool {
        for rule in self.rules.as_slice() {
            if rule.owed.is_some() {
                return true;
            }
        }
        false
    }

    /// Whether a slot has something to tell, where none has something to tell at once.
    pub(crate) fn has_waiting(&self) -> bool {
        if self.rules.is_empty() {
            return false;
        }
        for pending in self.pending.as_slice() {
            if pending.is_some() {
                return true;
            }
        }
        self.has_owed()
    }

    /// Whether the phase is to end.
    pub(crate) fn is_due(&self, steps: u64) -> bool {
        self.due <= steps
    }

    /// Begins the next phase. A turn through all slots goes before a sample, and one more is the sample. Where memory
    /// is wanting the search stays wide.
    pub(crate) fn turn_over(&mut self, scene: &Scene, order: &SlotOrder, gone: &Gone, steps: u64) {
        let length = match self.phase {
            NewsPhase::Wide => self.begin_sample(),
            NewsPhase::Sample => self.begin_narrow(scene, order, gone),
            NewsPhase::Narrow => self.begin_wide(),
        };
        self.due = steps.saturating_add(length);
    }

    /// All is told at once, and nothing is taken down yet. How many steps that takes.
    fn begin_sample(&mut self) -> u64 {
        self.rules.clear();
        let rule = NewsRule {
            urgent: Parts::ALL,
            learned: Parts::NONE,
            owed: Parts::NONE,
        };
        match self.rules.resize(self.pending.len(), rule) {
            Ok(()) => {
                self.phase = NewsPhase::Sample;
                self.pending.len() as u64
            }
            Err(_) => u64::MAX,
        }
    }

    /// Each slot tells those parts at once on which hangs what a head learned. The last slot comes first.
    fn begin_narrow(&mut self, scene: &Scene, order: &SlotOrder, gone: &Gone) -> u64 {
        self.phase = NewsPhase::Narrow;
        self.origins.find(scene, order, gone);
        let slots = self.rules.len();
        for turn in 0..slots {
            let slot = order.slot(slots - 1 - turn);
            let urgent = self.needed_at(scene, slot);
            self.put_urgent(slot, urgent);
        }
        NARROW
    }

    /// Each slot tells all at once.
    fn begin_wide(&mut self) -> u64 {
        self.phase = NewsPhase::Wide;
        self.origins.forget();
        for slot in 0..self.rules.len() {
            self.put_urgent(slot, Parts::ALL);
            self.put_owed(slot);
        }
        self.pending.len() as u64
    }

    /// A slot is to tell what it told on some of its edges alone.
    fn put_owed(&mut self, slot: usize) {
        if slot < self.rules.len() && slot < self.pending.len() {
            self.pending[slot] = self.pending[slot].and(self.rules[slot].owed);
            self.rules[slot].owed = Parts::NONE;
        }
    }

    /// A slot tells these parts at once.
    fn put_urgent(&mut self, slot: usize, urgent: Parts) {
        if slot < self.rules.len() {
            self.rules[slot].urgent = urgent;
        }
    }

    /// The parts at a slot on which hangs what a head learned.
    fn needed_at(&self, scene: &Scene, slot: usize) -> Parts {
        if 4096 <= slot {
            return Parts::NONE;
        }
        match scene.program.at(slot) {
            Some(instr) => {
                let next = self.needed_after(scene, edges_of(slot, &instr).next);
                let target = self.needed_after(scene, target_of(slot, &instr));
                let next = next.without(self.origins.spared(slot, Edge::Next));
                let target = target.without(self.origins.spared(slot, Edge::Target));
                needed_before(&instr, next.and(target))
            }
            None => Parts::NONE,
        }
    }

    /// The parts that arrive at a slot, of which it learned something, and on which hangs what a head learned.
    fn needed_after(&self, scene: &Scene, slot: Option<usize>) -> Parts {
        let Some(slot) = slot else {
            return Parts::NONE;
        };
        match self.rules.get(slot) {
            Some(rule) => if scene.shape.is_head(slot) {
                rule.learned
            } else {
                rule.learned.common(rule.urgent)
            },
            None => Parts::NONE,
        }
    }
}
