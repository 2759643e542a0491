//! A device in which each byte is the same.

ghost use Rattle.std.specs.Prelude.{◌≡◌};

use crate::device::Device;
use std::marker::Model;

/// A device of that many sectors with the same byte everywhere, as one on which nothing was written.
#[derive(Drop)]
pub struct Filled {
    count: u32,
    byte: u8,
    sector: [u8; 512],
}

impl Model for Filled {
    ghost use Rattle.std.specs.Prelude.{◌≡◌};
    ghost use Rattle.helpers.specs.Filled.{FilledWith, filled_sector};

    ghost Value = { FilledWith };

    ghost view = { λ d. record { count = d.count; byte = d.byte } };

    ghost invariant = { λ d. d.sector ≡ filled_sector d.byte };
}

impl Filled {
    /// That many sectors of this byte.
    #[tactic(auto, unfolding(crate::specs::Filled::filled_sector))]
    pub fn new(count: u32, byte: u8) -> Filled
        ensures { result ≡ record { count = count; byte = byte } }
    {
        Filled {
            count,
            byte,
            sector: [byte; 512],
        }
    }
}

impl Device for Filled {
    ghost use Rattle.helpers.specs.Filled.{filled_device, whole_filled};

    ghost content = { λ d. filled_device d.count d.byte };

    fn sectors(&self) -> u32 {
        self.count
    }

    fn sector(&self, n: u32) -> Option<&[u8; 512]> {
        if n < self.count {
            Some(&self.sector)
        } else {
            None
        }
    }

    ghost whole = { λ d n s h. whole_filled d.count d.byte n s h };
}
