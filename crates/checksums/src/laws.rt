//! Laws of the definitions. Nothing here is called.

ghost use Rattle.std.specs.Prelude.{◌≡◌, replicate};
ghost use Rattle.std.specs.List.{range_with_len};
ghost use Rattle.checksums.specs.Checksum.{coefficients};
ghost use Rattle.checksums.specs.Laws.{IsOfOneNumber, inverted};

use crate::polynomial::Polynomial;

/// The checksum of some bytes is that of one number.
pub fn one_number()
    ensures { IsOfOneNumber }
{}

/// The check values of both, of the bytes '123456789', and those that RFC 3720 works out (section B.4). A register is inverted
/// before and after.
#[tactic(auto, unfolding(crate::specs::Checksum::checksum, crate::specs::Checksum::after_byte, crate::specs::Checksum::after_bits))]
pub fn worked_checksums()
    ensures castagnoli { inverted (coefficients Polynomial.Castagnoli) (range_with_len 0x31 9) ≡ 0xE3069283 }
    ensures iso3309 { inverted (coefficients Polynomial.Iso3309) (range_with_len 0x31 9) ≡ 0xCBF43926 }
    ensures zeros { inverted (coefficients Polynomial.Castagnoli) (replicate 32 0) ≡ 0x8A9136AA }
    ensures ones { inverted (coefficients Polynomial.Castagnoli) (replicate 32 0xFF) ≡ 0x62A8AB43 }
    ensures rising { inverted (coefficients Polynomial.Castagnoli) (range_with_len 0 32) ≡ 0x46DD794E }
{}
