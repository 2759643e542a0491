//! The options of a run.

ghost use Rattle.std.specs.Prelude.{◌≡◌, ◌≤◌, MatchResult, IfOk, None, Some, not, nat_le, true};
ghost use Rattle.std.specs.Option.{option_map_or};
ghost use Rattle.request.specs.Extents.{is_extent};
ghost use Rattle.request.specs.Settings.{settings_refusal, is_one_kind, is_ordered, IsAsked};

use crate::extent::Extent;
use crate::refusals::option_refusal_of;
use crate::settings::{OptionPlace, Settings};
use base::limits::Limits;
use base::refusal::Refusal;
use epochs::{By, Cuts};
use std::marker::Model;

/// The most programs of a run.
pub const MOST_PROGRAMS: u8 = 8;

/// The most parts that may depart.
const MOST_PARTS: u64 = 3;

/// The most workers.
const MOST_WORKERS: u64 = 64;

/// The most entries of the cache.
const MOST_KEPT: u64 = 65_536;

/// The greatest limit of steps.
const MOST_CHECKED_STEPS: u64 = 1_000_000_000;

/// The options of a run that were found good (docs/COMMANDS.md, Options).
#[derive(Drop)]
pub struct Options {
    settings: Settings,
}

impl Model for Options {
    ghost use Rattle.request.specs.declared.settings.Settings.{Settings};
    ghost use Rattle.request.specs.Settings.{IsAsked};

    ghost Value = { Settings };

    ghost view = { λ o. o.settings };

    ghost invariant = { λ o. IsAsked o.settings };
}

/// Whether there is a limit of steps that is too great.
pub(crate) fn is_too_long(checked: Option<u64>) -> bool
    ensures { result ≡ not (option_map_or (λ limit. nat_le limit 1000000000) checked true) }
{
    match checked {
        Some(limit) => limit > MOST_CHECKED_STEPS,
        None => false,
    }
}

/// Whether the first cut is after the last, where both are given.
fn is_reversed(cuts: &Cuts) -> bool
    ensures { result ≡ not (is_ordered cuts.now) }
{
    match (cuts.from, cuts.to) {
        (Some(first), Some(last)) => first > last,
        _ => false,
    }
}

impl Options {
    /// The options of a run that is asked this.
    ///
    /// # Errors
    ///
    /// The first option that is out of its range, by its place; then guards beside a limit of steps.
    #[tactic(auto, unfolding(crate::specs::Settings::option_checks))]
    pub fn new(settings: &Settings) -> Result<Options, Refusal>
        ensures made { IfOk result (λ o. o ≡ settings.now) }
        ensures refused { MatchResult result (λ o. settings_refusal settings.now ≡ None) (λ r. settings_refusal settings.now ≡ Some r) }
    {
        let most = u64::from(settings.limits.sectors());
        if settings.sectors < 1 || settings.sectors > most {
            return Err(option_refusal_of(OptionPlace::Sectors));
        }
        if settings.bound > MOST_PARTS {
            return Err(option_refusal_of(OptionPlace::Bound));
        }
        if settings.workers < 1 || settings.workers > MOST_WORKERS {
            return Err(option_refusal_of(OptionPlace::Workers));
        }
        if settings.cache > MOST_KEPT {
            return Err(option_refusal_of(OptionPlace::Cache));
        }
        if is_too_long(settings.checked) {
            return Err(option_refusal_of(OptionPlace::Checked));
        }
        if is_reversed(&settings.cuts) {
            return Err(option_refusal_of(OptionPlace::Range));
        }
        if !settings.extent.is_extent() {
            return Err(option_refusal_of(OptionPlace::Images));
        }
        if settings.guards && settings.checked.is_some() {
            return Err(option_refusal_of(OptionPlace::Guards));
        }
        Ok(Options {
            settings: *settings,
        })
    }

    /// The number of sectors of the device, from 1 to what the limits allow.
    pub fn sectors(&self) -> u32
        ensures value { result ≡ self.now.sectors }
        ensures asked { IsAsked self.now }
    {
        self.settings.sectors as u32
    }

    /// How large the log and its device may be.
    pub fn limits(&self) -> Limits
        ensures { result ≡ self.now.limits }
    {
        self.settings.limits
    }

    /// The wanted cuts, and the flushes that are added to the log.
    pub fn cuts(&self) -> Cuts
        ensures { result ≡ self.now.cuts }
    {
        self.settings.cuts
    }

    /// How many parts may depart, 0 to 3.
    pub fn bound(&self) -> u8
        ensures value { result ≡ self.now.bound }
        ensures few { result ≤ 3 }
    {
        self.settings.bound as u8
    }

    /// Whether parts may be torn.
    pub fn tears(&self) -> bool
        ensures { result ≡ self.now.tears }
    {
        self.settings.tears
    }

    /// What departs as one.
    pub fn by(&self) -> By
        ensures { result ≡ self.now.by }
    {
        self.settings.by
    }

    /// How many workers judge, 1 to 64.
    pub fn workers(&self) -> u8
        ensures { (1 ≤ result) × (result ≤ 64) }
    {
        self.settings.workers as u8
    }

    /// How many entries the cache has at most, up to 65,536.
    pub fn cache(&self) -> u32
        ensures value { result ≡ self.now.cache }
        ensures few { result ≤ 65536 }
    {
        self.settings.cache as u32
    }

    /// Whether the report is to hold the first failing image alone.
    pub fn first(&self) -> bool
        ensures { result ≡ self.now.first }
    {
        self.settings.first
    }

    /// How many images the run may have, and which of them are meant.
    pub fn extent(&self) -> Extent
        ensures value { result ≡ self.now.extent }
        ensures good { is_extent result ≡ true }
    {
        self.settings.extent
    }

    /// The limit of steps of a program, where there is one.
    pub fn step_limit(&self) -> Option<u64>
        ensures { result ≡ self.now.checked }
    {
        self.settings.checked
    }

    /// Whether programs are accepted with guards. Then there is no limit of steps.
    pub fn guards(&self) -> bool
        ensures value { result ≡ self.now.guards }
        ensures alone { is_one_kind result self.now.checked ≡ true }
    {
        self.settings.guards
    }
}
