//! What a run is asked, and the places by which a refusal names it.

ghost use Rattle.std.specs.Prelude.{◌≡◌};
ghost use Rattle.request.specs.Places.{place_number};

use crate::extent::Extent;
use base::limits::Limits;
use epochs::{By, Cuts};

/// What a run is asked (docs/COMMANDS.md, Options).
#[derive(Clone, Copy)]
pub struct Settings {
    /// The number of sectors of the device.
    pub sectors: u64,
    /// How large the log and its device may be.
    pub limits: Limits,
    /// The cuts that are wanted, and the flushes that are added to the log.
    pub cuts: Cuts,
    /// How many parts may depart.
    pub bound: u64,
    /// Whether parts may be torn.
    pub tears: bool,
    /// What departs as one.
    pub by: By,
    /// The number of workers.
    pub workers: u64,
    /// How many judgements may be kept.
    pub cache: u64,
    /// The limit of steps, for programs that no verifier is asked about.
    pub checked: Option<u64>,
    /// Whether programs are accepted with guards. It doesn't go with a limit of steps.
    pub guards: bool,
    /// Whether the first failing image is all that is asked for.
    pub first: bool,
    /// How many images the run may have, and which of them are meant.
    pub extent: Extent,
}

impl Settings {
    /// What a run is asked on a device of 16,384 sectors where nothing else is written.
    pub const USUAL: Settings = Settings {
        sectors: 16_384,
        limits: Limits::Usual,
        cuts: Cuts::ALL,
        bound: 1,
        tears: false,
        by: By::Sector,
        workers: 1,
        cache: 0,
        checked: None,
        guards: false,
        first: false,
        extent: Extent::Whole,
    };
}

/// What a run is to tell of the failing images.
#[derive(Clone, Copy)]
pub enum Telling {
    /// Each of them: the report.
    Report,
    /// Why the programs fail on them.
    Causes,
    /// Where the programs fail, as a page.
    Page,
}

/// What is to be printed about the failing cases of any number of losses.
#[derive(Clone, Copy)]
pub enum CaseTelling {
    /// Each of them.
    Cases,
    /// Why the programs fail on them.
    Causes,
    /// Where they fail, as a page for a browser.
    Page,
}

/// What is to be printed about a report that is given in place of programs.
#[derive(Clone, Copy)]
pub enum Retelling {
    /// Why its programs fail.
    Causes,
    /// Where they fail, as a page for a browser.
    Page,
    /// Where flushes are missing.
    Places,
}

/// What is to be printed about what records of a program tell.
#[derive(Clone, Copy)]
pub enum KnownTelling {
    /// Each failing case.
    Cases,
    /// The images that are wanted: those of the open cases.
    Wanted,
}

/// What a refusal of the command line names, each by the number of its place (docs/COMMANDS.md, Options).
#[derive(Clone, Copy)]
pub enum OptionPlace {
    Sectors = 1,
    Bound = 2,
    Workers = 3,
    Cache = 4,
    Checked = 5,
    /// The number of programs.
    Programs = 6,
    Cuts = 7,
    /// The number of an image.
    Image = 9,
    /// What departs as one.
    By = 10,
    /// The cut and the choice of an image.
    Choice = 11,
    /// The entries before which a flush is added.
    Flush = 12,
    /// The first and the last of the cuts.
    Range = 13,
    /// What the device held before entry 0.
    Base = 14,
    /// The number of flush entries that a program is told of an image.
    Epoch = 15,
    /// The number of marks that it is told.
    Marks = 16,
    /// The images of a run that are meant.
    Images = 17,
    /// The number of parts in which a run is to be laid out.
    Parts = 18,
    /// Guards beside a limit of steps.
    Guards = 19,
    /// How many parts may be torn, of any number of losses.
    Torn = 20,
    /// How many parts may be lost or torn, of any number of losses.
    AtMost = 21,
    /// Records of a program, without any number of losses.
    Known = 22,
    /// After how many cases the search of a cut ends.
    Cases = 23,
}

impl OptionPlace {
    /// The place that a refusal prints.
    pub fn number(self) -> u64
        ensures { result ≡ place_number self }
    {
        self as u64
    }
}
