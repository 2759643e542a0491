//! The registers of the machine.

ghost use Rattle.std.specs.Prelude.{◌≡◌, ◌<◌, nat_lt, if◌then◌else◌};

use std::marker::Model;

/// A register: r0 to r10 (RFC 9669, section 2.1).
#[derive(Clone, Copy, Debug, PartialEq, Eq)]
pub struct Register {
    number: u8,
}

impl Model for Register {
    ghost use Rattle.std.specs.Prelude.{ℕ, ◌<◌};

    ghost Value = { ℕ };

    ghost view = { λ r. r.number };

    ghost invariant = { λ r. r.number < 11 };

    ghost inverse = { λ n. record { number = n } };
}

impl Register {
    /// r0, in which a helper and the program answer.
    pub const FIRST: Register = Register { number: 0 };

    /// r10, the end of the stack of the running frame, which no instruction may write.
    pub const FRAME_POINTER: Register = Register { number: 10 };

    /// The register of this number, if there is one.
    pub fn new(number: u8) -> Option<Register>
        ensures { result ≡ (if nat_lt number 11 then Some number else None) }
    {
        if number < 11 {
            Some(Register { number })
        } else {
            None
        }
    }

    /// Its number.
    pub fn number(self) -> usize
        ensures value { result ≡ self }
        ensures bound { result < 11 }
    {
        self.number as usize
    }
}
