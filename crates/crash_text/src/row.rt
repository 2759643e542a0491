//! Rows of 16 bytes.

ghost use Rattle.std.specs.Prelude.{ℕ, [], ◌∷◌, ◌≡◌, ◌+◌, ◌*◌, ◌<◌, ◌≤◌, ◌++◌, OnOk, string_bytes, slice_index};
ghost use Rattle.base.specs.Sizes.{most_sectors};
ghost use Rattle.crash_text.specs.Rows.{hex_digit, hex_byte, high_text, address_text, pair_text, character_of, pairs_text, characters_text, row_text};

use std::alloc::AllocError;

/// The digit of a number below 16.
fn hex_digit(number: u8) -> u8
    requires { number < 16 }
    ensures value { result ≡ hex_digit number }
    ensures ascii { result < 128 }
{
    if number < 10 {
        b'0' + number
    } else {
        b'a' - 10 + number
    }
}

/// Appends a byte in two digits.
fn put_byte(out: &mut String, byte: u8) -> Result<(), AllocError>
    ensures { OnOk result (string_bytes out.new ≡ string_bytes out.old ++ hex_byte byte) }
{
    let high = hex_digit(byte / 16);
    let low = hex_digit(byte % 16);
    out.push(high as char)?;
    out.push(low as char)
}

/// Appends the digit before the last eight, where it is no zero.
fn put_high(out: &mut String, high: u64) -> Result<(), AllocError>
    requires { high < 16 }
    ensures { OnOk result (string_bytes out.new ≡ string_bytes out.old ++ high_text high) }
{
    if high == 0 {
        return Ok(());
    }
    out.push(hex_digit(high as u8) as char)
}

/// Appends the number of a byte of the device, in eight digits, or in nine where it needs them.
#[tactic(auto, unfolding(crate::specs::Rows::address_text))]
fn put_address(out: &mut String, address: u64) -> Result<(), AllocError>
    requires { address < 68719476736 }
    ensures { OnOk result (string_bytes out.new ≡ string_bytes out.old ++ address_text address) }
{
    put_high(out, address / 4294967296)?;
    put_byte(out, (address / 16777216 % 256) as u8)?;
    put_byte(out, (address / 65536 % 256) as u8)?;
    put_byte(out, (address / 256 % 256) as u8)?;
    put_byte(out, (address % 256) as u8)
}

/// Appends two bytes of a sector.
#[tactic(auto, unfolding(crate::specs::Rows::pair_text))]
fn put_pair(out: &mut String, bytes: &[u8; 512], place: usize) -> Result<(), AllocError>
    requires { place + 1 < 512 }
    ensures { OnOk result (string_bytes out.new ≡ string_bytes out.old ++ pair_text bytes.now place) }
{
    out.push_str(" ")?;
    put_byte(out, bytes[place])?;
    put_byte(out, bytes[place + 1])
}

/// Appends the bytes of a row, in pairs.
#[tactic(auto, using(crate::proofs::Steps::text_next), unfolding(crate::specs::Rows::pairs_text))]
fn put_pairs(out: &mut String, bytes: &[u8; 512], row: usize) -> Result<(), AllocError>
    requires { row < 32 }
    ensures { OnOk result (string_bytes out.new ≡ string_bytes out.old ++ pairs_text bytes.now row) }
{
    for pair in 0..8 {
        put_pair(out, bytes, 16 * row + 2 * pair)?;
    }
    Ok(())
}

/// The character that stands for a byte.
fn character_of(byte: u8) -> u8
    ensures value { result ∷ [] ≡ character_of byte }
    ensures ascii { result < 128 }
{
    if byte >= b' ' && byte <= b'~' {
        byte
    } else {
        b'.'
    }
}

/// Appends the character that stands for a byte.
fn put_character(out: &mut String, byte: u8) -> Result<(), AllocError>
    ensures { OnOk result (string_bytes out.new ≡ string_bytes out.old ++ character_of byte) }
{
    let character = character_of(byte);
    out.push(character as char)
}

/// Appends the bytes of a row, as characters.
#[tactic(auto, using(crate::proofs::Steps::text_next), unfolding(crate::specs::Rows::characters_text))]
fn put_characters(out: &mut String, bytes: &[u8; 512], row: usize) -> Result<(), AllocError>
    requires { row < 32 }
    ensures { OnOk result (string_bytes out.new ≡ string_bytes out.old ++ characters_text bytes.now row) }
{
    for place in 0..16 {
        put_character(out, bytes[16 * row + place])?;
    }
    Ok(())
}

/// Appends a row of a sector of the device, as `xxd` prints it.
#[tactic(auto, unfolding(crate::specs::Rows::row_text))]
pub(crate) fn put_row(
    out: &mut String,
    sector: u32,
    bytes: &[u8; 512],
    row: usize,
) -> Result<(), AllocError>
    requires sector { sector < most_sectors }
    requires row { row < 32 }
    ensures { OnOk result (string_bytes out.new ≡ string_bytes out.old ++ row_text sector bytes.now row) }
{
    put_address(out, 512 * u64::from(sector) + 16 * row as u64)?;
    out.push_str(":")?;
    put_pairs(out, bytes, row)?;
    out.push_str("  ")?;
    put_characters(out, bytes, row)?;
    out.push_str("\n")
}
