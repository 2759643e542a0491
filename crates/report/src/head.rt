//! What the report says before its lines.

use epochs::{By, Cuts};
use std::marker::Model;

/// What the report says of a program at its head.
#[derive(Clone, Copy, Drop)]
pub struct ProgramHead {
    pub slots: u32,
    /// The most steps of a run: the limit that was asked for, or the budget of a verified program.
    pub limit: u64,
    /// Whether the verifier accepted the program.
    pub verified: bool,
    /// How many of its slots are guarded, where it was accepted with guards.
    pub guards: Option<u32>,
}

/// What the report says at its head, and how many images there are.
#[derive(Drop)]
pub struct Head {
    /// The number of sectors of the device.
    pub sectors: u32,
    /// The number of entries of the log.
    pub entries: u32,
    /// The wanted cuts.
    pub cuts: Cuts,
    /// How many parts may depart.
    pub bound: u8,
    /// Whether parts may be torn.
    pub tears: bool,
    /// What departs as one.
    pub by: By,
    /// Whether the report holds the first failing image alone.
    pub first: bool,
    /// The programs in order.
    pub programs: Vec<ProgramHead>,
    /// The number of images.
    pub images: u64,
    /// The number of what the device held before entry 0, where that is given.
    pub base: Option<u64>,
}

impl Model for Head {
    ghost use Rattle.report.specs.Report.{HeadValue};

    ghost Value = { HeadValue };

    ghost view = { λ h. record { sectors = h.sectors; entries = h.entries; cuts = h.cuts; bound = h.bound; tears = h.tears; by = h.by; first = h.first; programs = h.programs.items; images = h.images; base = h.base } };
}
