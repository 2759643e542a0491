//! Sets of numbers below 16 in the bits of a word.

ghost use Rattle.std.specs.Prelude.{◌≡◌, ◌<◌, ◌==◌, ◌&&◌, ◌||◌, ℕ, not, [], ◌∷◌, List};
ghost use Rattle.cases.specs.Sets.{has, numbers_in};

/// Whether a number is in a set.
#[inline(always)]
pub(crate) fn has(bits: u16, number: u8) -> bool
    requires { number < 16 }
    ensures { result ≡ has bits number }
{
    bits >> number & 1 == 1
}

/// A set with one more number.
#[inline(always)]
pub(crate) fn with(bits: u16, number: u8) -> u16
    requires { number < 16 }
    ensures { (i : ℕ) → has result i ≡ (has bits i || (i == number)) }
{
    bits | 1 << number
}

/// A set with one more number, if it is to have that.
#[inline(always)]
pub(crate) fn with_if(bits: u16, number: u8, is: bool) -> u16
    requires { number < 16 }
    ensures { (i : ℕ) → has result i ≡ (has bits i || (is && (i == number))) }
{
    if is { with(bits, number) } else { bits }
}

/// What of a set isn't in another.
#[inline(always)]
pub(crate) fn without(bits: u16, other: u16) -> u16
    ensures { (i : ℕ) → i < 16 → has result i ≡ (has bits i && not (has other i)) }
{
    bits & !other
}

/// What of a set is in another too.
#[inline(always)]
pub(crate) fn both(bits: u16, other: u16) -> u16
    ensures { (i : ℕ) → has result i ≡ (has bits i && has other i) }
{
    bits & other
}

/// The least number of a set that isn't empty.
#[inline(always)]
pub(crate) fn least(bits: u16) -> u8
    requires { 0 < bits }
    ensures bound { result < 16 }
    ensures first { (rest : List ℕ) × (numbers_in 16 bits ≡ result ∷ rest) }
{
    bits.trailing_zeros() as u8
}
