//! The helpers by their numbers, and what they answer.

ghost use Rattle.std.specs.Prelude.{◌≡◌};
ghost use Rattle.helpers.specs.Helper.{answer_of, asked_of, helper_of};
ghost use Rattle.helpers.specs.Queries.{arity_of, query_for, query_kind, query_of};

use crate::sums::Checksum;
use checksums::Polynomial;

/// A helper that a program may call (docs/MACHINE.md, Helpers).
#[derive(Clone, Copy, Debug, PartialEq, Eq)]
pub enum Helper {
    /// Number 2: copies bytes of the device to a pointer.
    Copy,
    /// Number 3: 1 as often as its argument says, then 0; each loop has a call of it.
    Again,
    /// Number 4: keeps a code for the verdict.
    Report,
    /// One that asks the device, and changes nothing.
    Query(Query),
}

/// A helper that computes its answer of the device and of up to three numbers, and changes nothing.
#[derive(Clone, Copy, Debug, PartialEq, Eq)]
pub enum Query {
    /// Number 1: the address of a sector.
    Sector,
    /// Number 5: whether a sector is all zeros.
    Zero,
    /// Number 6: the mix of a sector.
    Mix,
    /// Number 7: whether two sectors have the same content.
    Same,
    /// Number 8, of programs with guards: the CRC32C of bytes of the device.
    Crc32c,
    /// Number 9, of programs with guards: their CRC-32.
    Crc32,
}

/// How many numbers a helper takes, in the registers from 1 on.
#[derive(Clone, Copy, Debug, PartialEq, Eq)]
pub enum Arity {
    /// That in register 1.
    One,
    /// Those in the registers 1 and 2.
    Two,
    /// Those in the registers 1, 2 and 3.
    Three,
}

/// What a helper may answer.
#[derive(Clone, Copy, Debug, PartialEq, Eq)]
pub enum Answer {
    /// 0, or the address of a sector.
    Address,
    /// A number up to this one.
    UpTo(u64),
}

impl Query {
    /// The query of this number, if every program may ask it.
    pub fn of(number: u32) -> Option<Query>
        ensures { result ≡ query_of number }
    {
        match number {
            1 => Some(Query::Sector),
            5 => Some(Query::Zero),
            6 => Some(Query::Mix),
            7 => Some(Query::Same),
            _ => None,
        }
    }

    /// The checksum of bytes of the device by a polynomial.
    pub fn summing(polynomial: Polynomial) -> Query
        ensures { result ≡ query_for polynomial }
    {
        match polynomial {
            Polynomial::Castagnoli => Query::Crc32c,
            Polynomial::Iso3309 => Query::Crc32,
        }
    }

    /// How many numbers it takes.
    #[inline(always)]
    pub fn arity(self) -> Arity
        ensures { result ≡ arity_of self }
    {
        match self {
            Query::Same => Arity::Two,
            Query::Crc32c => Arity::Three,
            Query::Crc32 => Arity::Three,
            _ => Arity::One,
        }
    }

    /// What it may answer.
    pub fn kind(self) -> Answer
        ensures { result ≡ query_kind self }
    {
        match self {
            Query::Sector => Answer::Address,
            Query::Mix => Answer::UpTo(u64::MAX),
            Query::Crc32c => Answer::UpTo(0xFFFF_FFFF),
            Query::Crc32 => Answer::UpTo(0xFFFF_FFFF),
            _ => Answer::UpTo(2),
        }
    }
}

impl Helper {
    /// The helper of this number, if there is one.
    pub fn of(number: u32) -> Option<Helper>
        ensures { result ≡ helper_of number }
    {
        match number {
            2 => Some(Helper::Copy),
            3 => Some(Helper::Again),
            4 => Some(Helper::Report),
            _ => match Query::of(number) {
                Some(query) => Some(Helper::Query(query)),
                None => None,
            },
        }
    }

    /// What a program with guards asks for by this number, if it may: a checksum of its own bytes is that of the device, by its
    /// arguments and what it may answer.
    pub fn asked(number: u32) -> Option<Helper>
        ensures { result ≡ asked_of number }
    {
        match Helper::of(number) {
            Some(helper) => Some(helper),
            None => match Checksum::of(number) {
                Some(checksum) => Some(Helper::Query(Query::summing(checksum.polynomial()))),
                None => None,
            },
        }
    }

    /// What it may answer.
    pub fn answer(self) -> Answer
        ensures { result ≡ answer_of self }
    {
        match self {
            Helper::Query(query) => query.kind(),
            _ => Answer::UpTo(1),
        }
    }
}
