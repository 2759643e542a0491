//! Numbers of a text.

ghost use Rattle.std.specs.Prelude.{ℕ, ◌≡◌, ◌<◌, ◌≤◌, ◌^◌, ◌+◌, ◌*◌, true, false, option_map, if◌then◌else◌};
ghost use Rattle.bpf_asm.specs.Words.{digit, numeral, number_of, in_64_bits, is_hexadecimal, in_range, in_wide_range};

/// A number with its sign, before it is known which range it has to keep.
#[derive(Clone, Copy)]
pub(crate) struct Number {
    pub negative: bool,
    /// None from 2^64 on, which is in no range.
    pub magnitude: Option<u64>,
}

impl Number {
    /// The number as an immediate, if it is in its range.
    pub(crate) fn immediate(self) -> Option<i32>
        ensures { result ≡ in_range 0x8000_0000 self }
    {
        let magnitude = self.magnitude?;
        if self.negative {
            if magnitude <= 0x8000_0000 {
                Some((-(magnitude as i64)) as i32)
            } else {
                None
            }
        } else if magnitude < 0x8000_0000 {
            Some(magnitude as i32)
        } else {
            None
        }
    }

    /// The number as an offset, if it is in its range.
    pub(crate) fn offset(self) -> Option<i16>
        ensures { result ≡ in_range 0x8000 self }
    {
        let magnitude = self.magnitude?;
        if self.negative {
            if magnitude <= 0x8000 {
                Some((-(magnitude as i64)) as i16)
            } else {
                None
            }
        } else if magnitude < 0x8000 {
            Some(magnitude as i16)
        } else {
            None
        }
    }

    /// The number as a 64-bit immediate, which takes no minus.
    pub(crate) fn wide(self) -> Option<u64>
        ensures { result ≡ in_wide_range self }
    {
        if self.negative { None } else { self.magnitude }
    }
}

/// The value of a digit in either case; 16 for a character that is none.
#[tactic(auto, unfolding(crate::specs::Words::digit))]
fn digit(c: u8) -> u64
    ensures value { result ≡ digit c }
    ensures small { result ≤ 16 }
{
    match c {
        b'0'..=b'9' => (c - b'0') as u64,
        b'a'..=b'f' => (c - b'a') as u64 + 10,
        b'A'..=b'F' => (c - b'A') as u64 + 10,
        _ => 16,
    }
}

/// A magnitude with one digit more.
fn with_digit(magnitude: Option<u64>, base: u64, digit: u64) -> Option<u64>
    requires base { 0 < base }
    requires small { base ≤ 16 }
    requires digit { digit ≤ 16 }
    ensures { (n : ℕ) → magnitude ≡ in_64_bits n → result ≡ in_64_bits (base * n + digit) }
{
    let Some(magnitude) = magnitude else {
        return None;
    };
    if magnitude > (u64::MAX - digit) / base {
        return None;
    }
    Some(base * magnitude + digit)
}

/// The magnitude that digits of this base make; None where there is no digit, or another character.
fn numeral(digits: &[u8], base: u64) -> Option<Option<u64>>
    requires base { 0 < base }
    requires small { base ≤ 16 }
    ensures { result ≡ option_map in_64_bits (numeral base digits.now) }
{
    if digits.is_empty() {
        return None;
    }
    let mut magnitude = Some(0);
    for c in digits {
        let digit = digit(*c);
        if digit >= base {
            return None;
        }
        magnitude = with_digit(magnitude, base, digit);
    }
    Some(magnitude)
}

/// Whether the word begins with `0x`.
fn is_hexadecimal(word: &[u8]) -> bool
    ensures { result ≡ is_hexadecimal word.now }
{
    word.len() >= 2 && word[0] == b'0' && word[1] == b'x'
}

/// The magnitude of the number that a word is, if it is one.
#[tactic(auto, unfolding(crate::specs::Words::number_of))]
pub(crate) fn magnitude(word: &[u8]) -> Option<Option<u64>>
    ensures { result ≡ option_map in_64_bits (number_of word.now) }
{
    if is_hexadecimal(word) {
        numeral(word.split_at(2).1, 16)
    } else {
        numeral(word, 10)
    }
}
