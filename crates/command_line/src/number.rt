//! Numbers, as words of the command line say them.

ghost use Rattle.std.specs.Prelude.{◌≡◌, ◌↔◌, IsTrue, MatchOption};
ghost use Rattle.command_line.specs.Number.{IsNumber, IsPlain, NoNumber};

/// The greatest number of 32 bits.
const MOST_SMALL: u64 = 0xFFFF_FFFF;

/// Whether a word may be that of a number: it has a byte, no sign before the digits, and no zero in front of others.
fn is_plain(word: &[u8]) -> bool
    ensures { IsTrue result ↔ IsPlain word.now }
{
    if word.is_empty() {
        return false;
    }
    let first = word[0];
    first != b'+' && (first != b'0' || word.len() == 1)
}

/// The number that a word says.
#[tactic(auto, using(crate::proofs::Numbers::not_plain))]
pub(crate) fn number_in(word: &str) -> Option<u64>
    ensures { MatchOption result (NoNumber 64 word.now) (IsNumber 64 word.now) }
{
    if !is_plain(word.as_bytes()) {
        return None;
    }
    match word.parse() {
        Ok(number) => Some(number),
        Err(_) => None,
    }
}

/// The number of 32 bits that a word says.
pub(crate) fn small_number_in(word: &str) -> Option<u32>
    ensures { MatchOption result (NoNumber 32 word.now) (IsNumber 32 word.now) }
{
    let number = number_in(word)?;
    if number > MOST_SMALL {
        return None;
    }
    Some(number as u32)
}
