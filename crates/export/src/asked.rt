//! The images that are asked for.

ghost use Rattle.std.specs.Prelude.{◌≡◌, ◌+◌, ◌<◌, ◌≤◌, ◌^◌, length};
ghost use Rattle.choices.specs.Choices.{ranked_choices};

use epochs::{By, Plan};
use logfmt::Log;
use std::marker::Model;

/// How the images of a plan are numbered, and which of them are wanted.
#[derive(Clone, Copy)]
pub struct WantedImages {
    /// What is lost or torn as one, as the plan has it.
    pub by: By,
    /// How many parts may depart.
    pub bound: u8,
    /// Whether parts may be torn.
    pub tears: bool,
    /// The number of the first image.
    pub from: u64,
    /// The number after that of the last.
    pub to: u64,
}

/// The images of a plan from one number to before another, at most 16,777,216.
///
/// Contracts see the plan, and how its images are numbered.
#[derive(Drop)]
pub struct PlannedImages<'a> {
    log: &'a Log<'a>,
    plan: &'a Plan<'a>,
    wanted: WantedImages,
}

impl<'a> Model for PlannedImages<'a> {
    ghost use Rattle.std.specs.Prelude.{◌≡◌};
    ghost use Rattle.export.specs.Export.{AskedValue};
    ghost use Rattle.export.specs.Kept.{IsAsked};

    ghost Value = { AskedValue };

    ghost view = { λ a. record { plan = a.plan.now; bound = a.wanted.bound; tears = a.wanted.tears; from = a.wanted.from; to = a.wanted.to } };

    ghost invariant = { λ a. (a.plan.now.log ≡ a.log.now) × (a.wanted.by ≡ a.plan.now.by)
        × IsAsked (record { plan = a.plan.now; bound = a.wanted.bound; tears = a.wanted.tears; from = a.wanted.from; to = a.wanted.to }) };
}

impl<'a> PlannedImages<'a> {
    ghost use Rattle.export.specs.Kept.{IsAsked};

    /// The images of a plan of a log that are wanted.
    pub fn of(log: &'a Log<'a>, plan: &'a Plan<'a>, wanted: WantedImages) -> PlannedImages<'a>
        requires log { plan.now.log ≡ log.now }
        requires by { wanted.by ≡ plan.now.by }
        requires bound { wanted.bound ≤ 3 }
        requires counted { length (ranked_choices plan.now wanted.bound wanted.tears) < 2 ^ 63 }
        requires rising { wanted.from ≤ wanted.to }
        requires within { wanted.to ≤ length (ranked_choices plan.now wanted.bound wanted.tears) }
        requires few { wanted.to ≤ wanted.from + 16777216 }
        ensures { result ≡ record { plan = plan.now; bound = wanted.bound; tears = wanted.tears; from = wanted.from; to = wanted.to } }
    {
        PlannedImages { log, plan, wanted }
    }

    /// The log.
    pub(crate) fn log(&self) -> &'a Log<'a>
        ensures { result.now ≡ self.now.plan.log }
    {
        self.log
    }

    /// The plan.
    pub(crate) fn plan(&self) -> &'a Plan<'a>
        ensures value { result.now ≡ self.now.plan }
        ensures asked { IsAsked self.now }
    {
        self.plan
    }

    /// What is lost or torn as one.
    pub(crate) fn by(&self) -> By
        ensures { result ≡ self.now.plan.by }
    {
        self.wanted.by
    }

    /// How many parts may depart.
    pub(crate) fn bound(&self) -> u8
        ensures { result ≡ self.now.bound }
    {
        self.wanted.bound
    }

    /// Whether parts may be torn.
    pub(crate) fn tears(&self) -> bool
        ensures { result ≡ self.now.tears }
    {
        self.wanted.tears
    }

    /// The number of the first image.
    pub(crate) fn from(&self) -> u64
        ensures value { result ≡ self.now.from }
        ensures asked { IsAsked self.now }
    {
        self.wanted.from
    }

    /// How many images there are.
    pub(crate) fn count(&self) -> u32
        ensures { self.now.from + result ≡ self.now.to }
    {
        (self.wanted.to - self.wanted.from) as u32
    }
}
