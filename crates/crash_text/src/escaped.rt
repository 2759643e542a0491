//! Bytes of foreign texts.

ghost use Rattle.std.specs.Prelude.{◌≡◌, ◌++◌, OnOk, string_bytes};
ghost use Rattle.std.specs.List.{flat_map};
ghost use Rattle.crash_text.specs.Escaped.{is_plain, escaped_byte, escaped_text};

use std::alloc::AllocError;

/// Whether a byte is shown as it is.
fn is_plain(byte: u8) -> bool
    ensures { result ≡ is_plain byte }
{
    byte >= b' ' && byte <= b'~' && byte != b'"' && byte != b'\\'
}

/// Appends a byte, escaped where it needs it.
fn put_byte(out: &mut String, byte: u8) -> Result<(), AllocError>
    ensures { OnOk result (string_bytes out.new ≡ string_bytes out.old ++ escaped_byte byte) }
{
    if is_plain(byte) {
        out.push(byte as char)
    } else {
        write!(out, "\\x{{{byte:x}}}")
    }
}

/// Appends bytes, each printable ASCII character but `"` and `\` as it is, any other as `\x{0}` to `\x{ff}`.
///
/// # Errors
///
/// Memory was refused.
pub fn put_escaped(out: &mut String, bytes: &[u8]) -> Result<(), AllocError>
    ensures { OnOk result (string_bytes out.new ≡ string_bytes out.old ++ escaped_text bytes.now) }
{
    for byte in bytes {
        put_byte(out, *byte)?;
    }
    Ok(())
}
