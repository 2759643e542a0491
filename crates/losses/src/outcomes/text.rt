//! The text of failing lines.

ghost use Rattle.std.specs.Prelude.{◌≡◌, IfOk, string_bytes};
ghost use Rattle.std.specs.List.{flat_map};
ghost use Rattle.report.specs.LineText.{line_text};

use report::lines::Lines;
use std::alloc::{AllocError, Global};

/// The text of failing lines, as the report prints them.
///
/// It takes room for all of them.
///
/// # Errors
///
/// Memory was refused.
pub fn printed_text(alloc: Global, lines: &Lines) -> Result<String, AllocError>
    ensures { IfOk result (λ text. string_bytes text ≡ flat_map line_text lines.now) }
{
    let mut bytes = Vec::new(alloc);
    bytes.reserve_exact(lines.text_len())?;
    lines.put(&mut bytes)?;
    match String::from_utf8(bytes) {
        Ok(text) => Ok(text),
        Err(_error) => unreachable!(),
    }
}
