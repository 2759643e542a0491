//! A failing line as it is printed, found among all of them.

ghost use Rattle.std.specs.Prelude.{◌≡◌, ◌≤◌, ◌++◌, ◌∷◌, [], ℕ, List, true, length, drop, codes, slice_get, Some, IfOk, OnOk, MatchOption};
ghost use Rattle.std.specs.List.{flat_map};
ghost use Rattle.report.specs.Line.{FailingLine};
ghost use Rattle.report.specs.LineText.{line_text};
ghost use Rattle.losses.specs.Printed.{EndsLine, IsAfter, IsPrinted};
ghost use Rattle.losses.specs.CureText.{uncured_at, uncured_text};

use crate::cure::failure::Failure;
use report::lines::Lines;
use std::alloc::{AllocError, Global};

/// How many bytes the first line of a text has, with its newline.
fn line_len(text: &[u8]) -> usize
    ensures within { result ≤ length text.now }
    ensures line { EndsLine text.now result }
{
    for (place, byte) in text.iter().enumerate() {
        if *byte == b'\n' {
            return place + 1;
        }
    }
    text.len()
}

/// Returns what stands after the first `count` lines of a text.
fn after_lines(text: &[u8], count: usize) -> &[u8]
    ensures { IsAfter text.now count result.now }
{
    let mut rest = text;
    for _line in 0..count {
        rest = &rest[line_len(rest)..];
    }
    rest
}

/// The line of that number.
fn line_at(text: &[u8], number: usize) -> &[u8]
    ensures { IsPrinted text.now number result.now }
{
    let rest = after_lines(text, number);
    &rest[..line_len(rest)]
}

/// The number of the first failure without a window.
fn first_uncured(failures: &[Failure]) -> Option<usize>
    ensures { result ≡ uncured_at failures.now }
{
    failures.iter().position(|failure| failure.window.is_none())
}

/// The line that names the first failure without a window, or nothing where there is none.
///
/// It takes room for the lines of the report, where there is one.
///
/// # Errors
///
/// Memory was refused.
pub fn uncured_line(
    alloc: Global,
    lines: &Lines,
    failures: &[Failure],
) -> Result<Vec<u8>, AllocError>
    requires { length failures.now ≡ length lines.now }
    ensures { IfOk result (λ bytes. bytes.items ≡ uncured_text lines.now failures.now) }
{
    let mut out = Vec::new(alloc);
    if let Some(number) = first_uncured(failures) {
        let mut printed = Vec::new(alloc);
        lines.put(&mut printed)?;
        out.extend_from_slice("no flush cures ".as_bytes())?;
        out.extend_from_slice(line_at(printed.as_slice(), number))?;
    }
    Ok(out)
}
