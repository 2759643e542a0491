//! How large a report may get.

ghost use Rattle.std.specs.Prelude.{◌≡◌, ◌-◌, ◌^◌, min};
ghost use Rattle.commands.specs.Largest.{most_bytes};

use command_line::Words;
use request::Request;

/// The most bytes of a line of the report.
const LINE: u64 = 528;

/// How many bytes are said beforehand where a report may have more: 1 GiB.
pub(crate) const LARGE: u64 = 1 << 30;

/// How many lines a report may have for each image, by what the command line asks for: one for each program. None, 0, where no report
/// of all failing images is asked for.
pub fn lines_of_image(words: &Words) -> u64 {
    match words.request() {
        Request::Explore(options) | Request::Marked(options) if !options.settings.first => words
            .files()
            .len()
            .saturating_sub(1) as u64,
        _ => 0,
    }
}

/// How many bytes the lines of that many images may have, with that many for each; 2^64 - 1 where they are more than that.
pub(crate) fn most_bytes(images: u64, lines: u64) -> u64
    ensures { result ≡ min (most_bytes images lines) (2 ^ 64 - 1) }
{
    images.saturating_mul(lines).saturating_mul(LINE)
}
