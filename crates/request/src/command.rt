//! What a command line asks for, and the options that its words stand for.

ghost use Rattle.std.specs.Prelude.{◌≡◌, Some, MatchResult};
ghost use Rattle.request.specs.OptionWords.{AskFor, words_refusal};

use crate::any_losses::LossWords;
use crate::known::KnownWords;
use crate::options::Options;
use crate::refusals::option_refusal_of;
use crate::settings::{OptionPlace, Retelling, Settings};
use crate::trials::TrialWords;
use arrayvec::ArrayString;
use base::limits::Limits;
use base::refusal::Refusal;

/// What the options of a command line ask for, before any check of it (docs/COMMANDS.md, Options).
#[derive(Clone, Copy)]
pub struct OptionWords {
    /// What is asked for. Where a word names nothing, what stands here is asked for without it.
    pub settings: Settings,
    /// The first word that names nothing: the one after `--cuts` that is no kind of cut, after `--by` no kind of part, after `--flush` no
    /// list of entries, or after `--images` no images.
    pub unnamed: Option<OptionPlace>,
}

/// The image that is meant.
#[derive(Clone, Copy)]
pub enum Which {
    /// The image of that number.
    Number(u64),
    /// The image of that cut and of the choice that the report prints so; none where the text has more than 96 bytes, as
    /// no choice's has.
    Printed {
        cut: u64,
        choice: Option<ArrayString<96>>,
    },
}

/// What the command line asks for.
#[derive(Clone, Copy)]
pub enum Request {
    /// No word: the run that the program holds itself.
    StoredRun,
    /// `explore LOG PROGRAM..`
    Explore(OptionWords),
    /// `explore LOG PROGRAM.. --inputs`, whose report says of what it is.
    Marked(OptionWords),
    /// `explore LOG PROGRAM..` or `why LOG PROGRAM..` with any number of losses: `--bound any`, `--torn` or `--at-most` stands there.
    Cases(OptionWords, LossWords),
    /// `why LOG PROGRAM..`
    Why(OptionWords),
    /// `cure LOG PROGRAM..`, which takes no `--first`.
    Cure(OptionWords),
    /// `cure LOG PROGRAM..` with any number of losses.
    CureCases(OptionWords, LossWords),
    /// `page LOG PROGRAM..`
    Page(OptionWords),
    /// `why LOG --report REPORT`, or `page` or `cure` so.
    Retold(OptionWords, Retelling),
    /// `explore LOG --known RECORDS` or `export LOG --known RECORDS`, with any number of losses.
    Known(OptionWords, KnownWords),
    /// `images LOG`, with the number after `--parts`, where that stands there.
    Images(OptionWords, Option<u64>),
    /// `images LOG` with any number of losses, with the number after `--parts`, where that stands there.
    Cuts(OptionWords, LossWords, Option<u64>),
    /// `export LOG`.
    Export(OptionWords),
    /// `log LOG`, of which the number of sectors counts.
    Log(OptionWords),
    /// `image LOG N`, or with `--cut` and `--choice` in place of the number.
    Image(OptionWords, Which),
    /// `show LOG N`, or the same.
    Show(OptionWords, Which),
    /// `image LOG` with `--bound any`, `--cut` and `--choice`, or `show LOG`, which tells the image in words: any number of parts may
    /// be lost. The text of the choice stands beside the request.
    AnyImage {
        words: OptionWords,
        cut: u64,
        in_words: bool,
    },
    /// `import RAW`
    Import(Limits),
    /// `verify PROGRAM`, of which the number of sectors and the guards count; with each guarded slot or without.
    Verify {
        words: OptionWords,
        listed: bool,
    },
    /// `check PROGRAM IMAGE`
    Check(TrialWords),
    /// `asm SOURCE`
    Asm,
    /// `join PART..`, of all parts of a run, or of some of them: texts of images, or of cases.
    Join {
        part: bool,
    },
    /// `list PROGRAM`, with the slots or without.
    List {
        numbered: bool,
    },
}

/// The options that these words ask for.
///
/// # Errors
///
/// 13 at the place of the first word that names nothing: at 7 after `--cuts`, at 10 after `--by`, at 12 after `--flush`, at 17 after
/// `--images`. Then those of `Options::new`.
pub fn options_of(words: OptionWords) -> Result<Options, Refusal>
    ensures { MatchResult result (λ o. AskFor words o) (λ r. words_refusal words ≡ Some r) }
{
    match words.unnamed {
        Some(place) => Err(option_refusal_of(place)),
        None => Options::new(&words.settings),
    }
}
