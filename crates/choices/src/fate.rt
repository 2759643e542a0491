//! What becomes of a part that is not whole.

ghost use Rattle.std.specs.Prelude.{◌≡◌, ◌<◌, ◌≤◌};
ghost use Rattle.choices.specs.Picks.{fates_of, most_fates};
ghost use Rattle.choices.specs.Choices.{fate_of};

use std::marker::Model;

/// How many eighths of a torn write reach the device, 1 to 7. Contracts see the number.
#[derive(Clone, Copy, Debug, PartialEq, Eq)]
pub struct Eighths {
    count: u8,
}

impl Model for Eighths {
    ghost use Rattle.std.specs.Prelude.{ℕ, ◌≤◌, ◌<◌};

    ghost Value = { ℕ };

    ghost view = { λ e. e.count };

    ghost invariant = { λ e. (1 ≤ e.count) × (e.count < 8) };

    ghost inverse = { λ n. record { count = n } };
}

impl Eighths {
    /// That many eighths.
    pub fn new(count: u8) -> Eighths
        requires low { 1 ≤ count }
        requires high { count < 8 }
        ensures { result ≡ count }
    {
        Eighths { count }
    }

    /// How many.
    pub fn count(self) -> u8
        ensures value { result ≡ self }
        ensures low { 1 ≤ result }
        ensures high { result < 8 }
    {
        self.count
    }
}

/// What becomes of a part that is not whole (docs/CRASH-MODEL.md, Fates and choices).
#[derive(Clone, Copy, Debug, PartialEq, Eq)]
pub enum Fate {
    /// Nothing of it reaches the device.
    Drop,
    /// Its first eighths reach the device, and nothing else of it.
    Head(Eighths),
    /// Its last eighths reach the device, and nothing else of it.
    Tail(Eighths),
}

/// In how many places a part may be torn: after 1 to 7 of its eighths.
pub(crate) const TEARS_OF_PART: u8 = 7;

impl Fate {
    /// The fate of a number: the drop, then the heads, rising, then the tails, rising.
    pub(crate) fn of(number: u8) -> Fate
        requires { number < most_fates }
        ensures { result ≡ fate_of number }
    {
        if number == 0 {
            Fate::Drop
        } else if number <= TEARS_OF_PART {
            Fate::Head(Eighths::new(number))
        } else {
            Fate::Tail(Eighths::new(number - TEARS_OF_PART))
        }
    }
}

/// The drop, and a head and a tail for each place of a tear.
const WITH_TEARS: u8 = 1 + 2 * TEARS_OF_PART;

/// The drop.
const WITHOUT_TEARS: u8 = 1;

/// How many fates a part may have beside whole, with torn writes or without.
pub(crate) fn fates_of(tears: bool) -> u8
    ensures value { result ≡ fates_of tears }
    ensures low { 1 ≤ result }
    ensures high { result ≤ most_fates }
{
    if tears { WITH_TEARS } else { WITHOUT_TEARS }
}
