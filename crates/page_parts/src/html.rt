//! Text on a page.

ghost use Rattle.std.specs.Prelude.{◌≡◌, ◌<◌, ◌++◌, chars, OnOk, IfOk, string_bytes};
ghost use Rattle.std.specs.List.{flat_map};
ghost use Rattle.crash_text.specs.Escaped.{escaped_text};
ghost use Rattle.page_parts.specs.Html.{plain_byte, html_byte, html, is_odd, low_char, mark_char, mark_label, side_text, begin_text, end_text, sided_byte, side_by_side};

use crate::pieces::{PagePart, put};
use crash_text::put_escaped;
use std::alloc::{AllocError, Global};

/// Appends a byte for which no name stands.
fn put_plain(out: &mut String, byte: u8) -> Result<(), AllocError>
    ensures { OnOk result (string_bytes out.new ≡ string_bytes out.old ++ plain_byte byte) }
{
    if byte < 128 {
        out.push(byte as char)
    } else {
        out.push_str("&#65533;")
    }
}

/// Appends a byte of a text, so that it is no markup.
fn put_byte(out: &mut String, byte: u8) -> Result<(), AllocError>
    ensures { OnOk result (string_bytes out.new ≡ string_bytes out.old ++ html_byte byte) }
{
    match byte {
        b'&' => out.push_str("&amp;"),
        b'<' => out.push_str("&lt;"),
        b'>' => out.push_str("&gt;"),
        b'"' => out.push_str("&quot;"),
        b'\'' => out.push_str("&#39;"),
        _ => put_plain(out, byte),
    }
}

/// Appends a text, so that nothing in it is markup: `&`, `<`, `>`, `"` and `'` by their names or numbers, and U+FFFD for each
/// byte that is no ASCII character.
///
/// # Errors
///
/// Memory was refused.
pub fn put_html(out: &mut String, bytes: &[u8]) -> Result<(), AllocError>
    ensures { OnOk result (string_bytes out.new ≡ string_bytes out.old ++ html bytes.now) }
{
    for byte in bytes {
        put_byte(out, *byte)?;
    }
    Ok(())
}

/// Bytes of a foreign text, printable.
fn printable(alloc: Global, bytes: &[u8]) -> Result<String, AllocError>
    ensures { IfOk result (λ text. string_bytes text ≡ escaped_text bytes.now) }
{
    let mut text = String::new(alloc);
    put_escaped(&mut text, bytes)?;
    Ok(text)
}

/// Appends bytes as `log` shows them.
fn put_printable(alloc: Global, out: &mut String, bytes: &[u8]) -> Result<(), AllocError>
    ensures { OnOk result (string_bytes out.new ≡ string_bytes out.old ++ html (escaped_text bytes.now)) }
{
    let text = printable(alloc, bytes)?;
    put_html(out, text.as_bytes())
}

/// Whether a character is a control character or `\`.
fn is_odd(character: char) -> bool
    ensures { result ≡ is_odd character }
{
    character.is_control() || character == '\\'
}

/// Appends a character below 160 of the text of a mark.
fn put_low_char(alloc: Global, out: &mut String, character: char) -> Result<(), AllocError>
    requires { character < 160 }
    ensures { OnOk result (string_bytes out.new ≡ string_bytes out.old ++ low_char character) }
{
    let byte = character as u8;
    if is_odd(character) {
        put_printable(alloc, out, &[byte])
    } else {
        put_byte(out, byte)
    }
}

/// Appends a character of the text of a mark.
fn put_mark_char(alloc: Global, out: &mut String, character: char) -> Result<(), AllocError>
    ensures { OnOk result (string_bytes out.new ≡ string_bytes out.old ++ mark_char character) }
{
    if (character as u32) < 160 {
        put_low_char(alloc, out, character)
    } else {
        out.push(character)
    }
}

/// Appends the characters of the text of a mark.
fn put_mark_chars(alloc: Global, out: &mut String, text: &str) -> Result<(), AllocError>
    ensures { OnOk result (string_bytes out.new ≡ string_bytes out.old ++ flat_map mark_char (chars text.now)) }
{
    for character in text.chars() {
        put_mark_char(alloc, out, character)?;
    }
    Ok(())
}

/// Appends the text of a mark: its characters where it is UTF-8, control characters and `\` by their numbers; else each byte that
/// isn't printable ASCII by its number.
pub(crate) fn put_mark_label(alloc: Global, out: &mut String, text: &[u8]) -> Result<(), AllocError>
    ensures { OnOk result (string_bytes out.new ≡ string_bytes out.old ++ mark_label text.now) }
{
    match str::from_utf8(text) {
        Ok(characters) => put_mark_chars(alloc, out, characters),
        Err(_error) => put_printable(alloc, out, text),
    }
}

/// Appends what begins a line of a text, by the byte that it begins with.
fn put_side(out: &mut String, byte: u8) -> Result<(), AllocError>
    ensures { OnOk result (string_bytes out.new ≡ string_bytes out.old ++ side_text byte) }
{
    match byte {
        b'<' => put(out, PagePart::WholeSide),
        b'>' => put(out, PagePart::WrongSide),
        _ => put(out, PagePart::NoSide),
    }
}

/// Appends what begins a line, where one begins.
fn put_begin(out: &mut String, begins: bool, byte: u8) -> Result<(), AllocError>
    ensures { OnOk result (string_bytes out.new ≡ string_bytes out.old ++ begin_text begins byte) }
{
    if begins { put_side(out, byte) } else { Ok(()) }
}

/// Appends what ends a line, after its newline.
fn put_end(out: &mut String, byte: u8) -> Result<(), AllocError>
    ensures { OnOk result (string_bytes out.new ≡ string_bytes out.old ++ end_text byte) }
{
    if byte == b'\n' {
        put(out, PagePart::SideClose)
    } else {
        Ok(())
    }
}

/// Appends a byte of a text of lines, of which each is marked by its side.
#[tactic(auto, unfolding(crate::specs::Html::sided_byte))]
fn put_sided_byte(out: &mut String, begins: bool, byte: u8) -> Result<(), AllocError>
    ensures { OnOk result (string_bytes out.new ≡ string_bytes out.old ++ sided_byte begins byte) }
{
    put_begin(out, begins, byte)?;
    put_byte(out, byte)?;
    put_end(out, byte)
}

/// Appends a text of lines as `put_html` does, each line marked as one of the image where nothing departs (`<`), of this image
/// (`>`), or neither.
///
/// # Errors
///
/// Memory was refused.
#[tactic(auto, using(crate::proofs::Rows::sided_more, crate::proofs::Rows::sided_end))]
pub fn put_sided(out: &mut String, bytes: &[u8]) -> Result<(), AllocError>
    ensures { OnOk result (string_bytes out.new ≡ string_bytes out.old ++ side_by_side bytes.now) }
{
    let mut begins = true;
    for byte in bytes {
        put_sided_byte(out, begins, *byte)?;
        begins = *byte == b'\n';
    }
    Ok(())
}
