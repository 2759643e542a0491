//! What is asked for on a device that has the size of what it held before.

ghost use Rattle.std.specs.Prelude.{◌≡◌};
ghost use Rattle.command_line.specs.Sized.{SizedIsNumbered};
ghost use Rattle.command_line.specs.Words.{options_on, request_on};

use request::{OptionWords, Request, Settings};

/// The options on a device of that many sectors.
fn options_on(words: &OptionWords, sectors: u64) -> OptionWords
    ensures { result ≡ options_on words.now sectors }
{
    OptionWords {
        settings: Settings {
            sectors,
            ..words.settings
        },
        unnamed: words.unnamed,
    }
}

/// What is asked for on a device of that many sectors.
pub(crate) fn request_on(request: &Request, sectors: u64) -> Request
    ensures { result ≡ request_on request.now sectors }
{
    match request {
        Request::Explore(words) => Request::Explore(options_on(words, sectors)),
        Request::Marked(words) => Request::Marked(options_on(words, sectors)),
        Request::Cases(words, losses) => Request::Cases(options_on(words, sectors), *losses),
        Request::Why(words) => Request::Why(options_on(words, sectors)),
        Request::Cure(words) => Request::Cure(options_on(words, sectors)),
        Request::CureCases(words, losses) => Request::CureCases(
            options_on(words, sectors),
            *losses,
        ),
        Request::Page(words) => Request::Page(options_on(words, sectors)),
        Request::Retold(words, telling) => Request::Retold(options_on(words, sectors), *telling),
        Request::Known(words, known) => Request::Known(options_on(words, sectors), *known),
        Request::Images(words, parts) => Request::Images(options_on(words, sectors), *parts),
        Request::Cuts(words, losses, parts) => Request::Cuts(
            options_on(words, sectors),
            *losses,
            *parts,
        ),
        Request::Export(words) => Request::Export(options_on(words, sectors)),
        Request::Log(words) => Request::Log(options_on(words, sectors)),
        Request::Image(words, which) => Request::Image(options_on(words, sectors), *which),
        Request::Show(words, which) => Request::Show(options_on(words, sectors), *which),
        Request::AnyImage {
            words,
            cut,
            in_words,
        } => Request::AnyImage {
            words: options_on(words, sectors),
            cut: *cut,
            in_words: *in_words,
        },
        Request::Verify { words, listed } => Request::Verify {
            words: options_on(words, sectors),
            listed: *listed,
        },
        Request::StoredRun => Request::StoredRun,
        Request::Import(limits) => Request::Import(*limits),
        Request::Check(trial) => Request::Check(*trial),
        Request::Asm => Request::Asm,
        Request::List { numbered } => Request::List {
            numbered: *numbered,
        },
        Request::Join { part } => Request::Join { part: *part },
    }
}

/// What the words ask for on a device of some sectors is what they ask for with that number after `--sectors`. The function does
/// nothing; its contract is a theorem.
pub fn sized_is_numbered()
    ensures { SizedIsNumbered }
{}
