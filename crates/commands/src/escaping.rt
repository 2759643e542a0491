//! Words of the command line, as a fault of it shows them.

ghost use Rattle.std.specs.Prelude.{◌≡◌, IfOk, map, string_bytes};
ghost use Rattle.crash_text.specs.Escaped.{escaped_text};

use crash_text::put_escaped;
use std::alloc::{AllocError, Global};

/// A word, as `log` shows the text of a mark.
fn escaped_word(alloc: Global, word: &str) -> Result<String, AllocError>
    ensures { IfOk result (λ shown. string_bytes shown ≡ escaped_text word.now) }
{
    let mut shown = String::new(alloc);
    put_escaped(&mut shown, word.as_bytes())?;
    Ok(shown)
}

/// The words, each as `log` shows the text of a mark: by printable ASCII characters, none of which ends a line or is a sign to a
/// terminal. Words that aren't taken aren't taken so either, since no command and no option has a `\`, and no number.
///
/// # Errors
///
/// Want of memory.
pub fn escaped_words(alloc: Global, words: &[String]) -> Result<Vec<String>, AllocError>
    ensures { IfOk result (λ shown. map string_bytes shown.items ≡ map (λ word. escaped_text (string_bytes word)) words.now) }
{
    let mut shown = Vec::new(alloc);
    for word in words {
        shown.push(escaped_word(alloc, word.as_str())?)?;
    }
    Ok(shown)
}
