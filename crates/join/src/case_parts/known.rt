//! The words of a line after `choice`.

ghost use Rattle.std.specs.Prelude.{◌≡◌};
ghost use Rattle.join.specs.Heads.{IsWord};
ghost use Rattle.join.specs.CaseReading.{ReadsKnown, ReadsNamed, ReadsWindow, known_said};

use crate::words::next_word;
use losses::flushes::Window;
use report::printed::{cut, small_number};

/// The words of a line after `choice`, as far as something is said by them.
#[derive(Clone, Copy, Drop)]
pub struct KnownWords<'t> {
    /// What the representative loses and tears.
    pub(crate) lost: &'t str,
    /// The parts that are whole.
    pub(crate) kept: &'t str,
    /// The parts of which two fates or more are possible; nothing where there is none.
    pub(crate) mixed: &'t str,
    /// How many parts may have any fate.
    pub(crate) free: &'t str,
    pub(crate) window: &'t str,
}

/// The word after a name, where a line begins with that, and what stands after it; else the line as it is.
#[tactic(auto, using(crate::proofs::CaseWords::named_lacking, crate::proofs::CaseWords::named_found))]
fn named_said<'t>(name: &str, line: &'t str) -> (&'t str, &'t str)
    requires { IsWord name.now }
    ensures { ReadsNamed name.now line.now result.0.now result.1.now }
{
    let (word, value) = next_word(line);
    if word == name {
        return next_word(value);
    }
    ("", line)
}

/// The words of a line after `choice`, and some where it has none.
#[tactic(auto, using(crate::proofs::CaseWords::known_read))]
pub(crate) fn known_words<'t>(line: &'t str) -> KnownWords<'t>
    ensures { ReadsKnown line.now (known_said result) }
{
    let (lost, line) = next_word(line);
    let (_kept, line) = next_word(line);
    let (kept, line) = next_word(line);
    let (mixed, line) = named_said("among", line);
    let (_free, line) = next_word(line);
    let (free, line) = next_word(line);
    let (_flush, line) = next_word(line);
    let (window, _rest) = next_word(line);
    KnownWords {
        lost,
        kept,
        mixed,
        free,
        window,
    }
}

/// The window that a word says.
#[tactic(auto, using(crate::proofs::CaseWords::no_window_read, crate::proofs::CaseWords::window_read))]
pub(crate) fn window_said(word: &str) -> Option<Window>
    ensures { ReadsWindow word.now result }
{
    if word == "none" {
        return None;
    }
    let (start, after) = cut(word, '.');
    let (_point, end) = cut(after, '.');
    Some(Window {
        start: small_number(start),
        end: small_number(end),
    })
}
