//! The line of C from which each slot of a program comes, as `crashbpf-cc` writes it (docs/CHECKERS.md, CHECK.lines).

ghost use Rattle.std.specs.Prelude.{◌≡◌, ◌<◌, ◌⊎◌, ◌++◌, ◌∷◌, [], None, length, bytes_eq, option_map, string_bytes, IfOk, MatchOption, OnOk};
ghost use Rattle.std.specs.Char.{is_ascii_digit, is_ascii_graphic};
ghost use Rattle.std.specs.List.{after_first, before_first, find, list_all, slice_split};
ghost use Rattle.notes.specs.SourceLines.{all_said, is_blank, is_name, is_newline, is_positive, is_slot, is_zero, line_of, onto, said, source_text, value_of, values_of, AreLines, NoLines};

use std::alloc::{AllocError, Global};

/// The most bytes of such a text: 1 MiB.
const MOST_BYTES: usize = 1_048_576;

/// The most lines of it.
const MOST_LINES: usize = 65_536;

/// A line of such a text: a slot, and a line of a file of C, each as it is written.
#[derive(Clone, Copy)]
pub struct SourceLine<'x> {
    pub slot: &'x str,
    pub file: &'x str,
    pub number: &'x str,
}

/// Whether each byte is a decimal digit.
fn are_digits(word: &[u8]) -> bool
    ensures { result ≡ list_all is_ascii_digit word.now }
{
    word.iter().all(|byte| byte.is_ascii_digit())
}

/// Whether each byte is a printable ASCII character and no blank.
fn are_graphic(word: &[u8]) -> bool
    ensures { result ≡ list_all is_ascii_graphic word.now }
{
    word.iter().all(|byte| byte.is_ascii_graphic())
}

/// Whether a word is a number from 1 on.
fn is_positive(word: &[u8]) -> bool
    ensures { result ≡ is_positive word.now }
{
    1 <= word.len() && word.len() <= 10 && word[0] != b'0' && are_digits(word)
}

/// Whether a word is the number 0.
fn is_zero(word: &[u8]) -> bool
    ensures { result ≡ is_zero word.now }
{
    word.len() == 1 && word[0] == b'0'
}

/// Whether a word is the number of a slot.
fn is_slot(word: &[u8]) -> bool
    ensures { result ≡ is_slot word.now }
{
    is_zero(word) || is_positive(word)
}

/// Whether a word is the name of a file.
fn is_name(word: &[u8]) -> bool
    ensures { result ≡ is_name word.now }
{
    0 < word.len() && are_graphic(word)
}

/// What stands before and after the first blank of a text, if there is one.
#[tactic(auto, using(crate::proofs::LinesOfC::cut_is))]
fn parts(text: &str) -> Option<(&str, &str)>
    ensures { MatchOption result ((before_first is_blank text.now ≡ text.now) × (after_first is_blank text.now ≡ []))
        (λ x. (x.0.now ≡ before_first is_blank text.now) × (x.1.now ≡ after_first is_blank text.now)) }
{
    text.split_once(' ')
}

/// What stands before and after the first blank of a text; of one without a blank all of it, and nothing.
fn cut(text: &str) -> (&str, &str)
    ensures first { result.0.now ≡ before_first is_blank text.now }
    ensures beyond { result.1.now ≡ after_first is_blank text.now }
{
    match parts(text) {
        Some(found) => found,
        None => (text, ""),
    }
}

/// The first line of a text, and the text after it, if a newline stands there.
fn first_line(text: &str) -> Option<(&str, &str)>
    ensures { MatchOption result (slice_split is_newline text.now ≡ text.now ∷ [])
        (λ x. (slice_split is_newline text.now ≡ x.0.now ∷ slice_split is_newline x.1.now) × (length x.1.now < length text.now)) }
{
    text.split_once('\n')
}

/// What three words say.
fn said<'x>(slot: &'x str, file: &'x str, number: &'x str) -> Option<SourceLine<'x>>
    ensures { option_map value_of result ≡ said slot.now file.now number.now }
{
    if is_slot(slot.as_bytes()) && is_name(file.as_bytes()) && is_positive(number.as_bytes()) {
        Some(SourceLine { slot, file, number })
    } else {
        None
    }
}

/// What a line says.
fn line_in(line: &str) -> Option<SourceLine<'_>>
    ensures { option_map value_of result ≡ line_of line.now }
{
    let (slot, place) = cut(line);
    let (file, number) = cut(place);
    said(slot, file, number)
}

/// What the lines say with which a text begins, up to the first that says nothing, and that line with all after it.
fn front_of(alloc: Global, text: &str) -> Result<(Vec<SourceLine<'_>>, &str), AllocError>
    ensures front { IfOk result (λ x. all_said (slice_split is_newline text.now) ≡ onto (values_of x.0.items) (all_said (slice_split is_newline x.1.now))) }
    ensures end { IfOk result (λ x. (x.1.now ≡ []) ⊎ (all_said (slice_split is_newline x.1.now) ≡ None)) }
{
    let mut lines = Vec::new(alloc);
    let mut rest = text;
    while let Some((line, beyond)) = first_line(rest) {
        let Some(found) = line_in(line) else {
            return Ok((lines, rest));
        };
        lines.push(found)?;
        rest = beyond;
    }
    Ok((lines, rest))
}

/// The lines of a text, if bytes are one that says at which line of C each slot comes.
///
/// # Errors
///
/// Memory was refused.
pub fn source_lines(alloc: Global, bytes: &[u8]) -> Result<Option<Vec<SourceLine<'_>>>, AllocError>
    ensures { IfOk result (λ found. MatchOption found (NoLines bytes.now) (λ lines. AreLines bytes.now (values_of lines.items))) }
{
    let Ok(text) = str::from_utf8(bytes) else {
        return Ok(None);
    };
    if text.len() > MOST_BYTES {
        return Ok(None);
    }
    let (lines, rest) = front_of(alloc, text)?;
    if 0 < rest.len() {
        return Ok(None);
    }
    if lines.len() > MOST_LINES {
        return Ok(None);
    }
    Ok(Some(lines))
}

/// The number of the first line that says nothing, from 1 on; none where there are too many bytes, or where too many lines are all that
/// is wrong.
pub(crate) fn first_bad_line(alloc: Global, bytes: &[u8]) -> Result<Option<usize>, AllocError> {
    if bytes.len() > MOST_BYTES {
        return Ok(None);
    }
    let text = match str::from_utf8(bytes) {
        Ok(text) => text,
        Err(error) => str::from_utf8(&bytes[..error.valid_up_to()]).unwrap_or(""),
    };
    let (lines, rest) = front_of(alloc, text)?;
    if rest.is_empty() && text.len() == bytes.len() {
        Ok(None)
    } else {
        Ok(Some(lines.len() + 1))
    }
}

/// The first line of a slot, which is written so.
fn line_at<'t, 'x>(lines: &'t [SourceLine<'x>], slot: &str) -> Option<&'t SourceLine<'x>>
    ensures { option_map (λ l. l.now) result ≡ find (λ l. bytes_eq l.slot.now slot.now) lines.now }
{
    lines.iter().find(|line| line.slot == slot)
}

/// Appends the place in C of a slot, where a line says it.
///
/// # Errors
///
/// Memory was refused.
#[tactic(auto, unfolding(crate::specs::SourceLines::source_text))]
pub fn put_source(
    alloc: Global,
    out: &mut String,
    lines: &[SourceLine<'_>],
    slot: u32,
) -> Result<(), AllocError>
    ensures { OnOk result (string_bytes out.new ≡ string_bytes out.old ++ source_text (values_of lines.now) slot) }
{
    if lines.is_empty() {
        return Ok(());
    }
    let word = format!(in alloc; "{slot}")?;
    match line_at(lines, word.as_str()) {
        Some(line) => write!(out, " # {}:{}", line.file, line.number),
        None => Ok(()),
    }
}
