//! The tables by which bytes are taken, sixteen at a time.

ghost use Rattle.std.specs.Prelude.{◌≡◌, ◌≤◌, ◌+◌, ◌*◌, true};
ghost use Rattle.checksums.specs.Checksum.{after_bits, after_byte, coefficients};
ghost use Rattle.checksums.specs.Tables.{is_table};

use crate::castagnoli::CASTAGNOLI;
use crate::iso3309::ISO_3309;
use crate::polynomial::Polynomial;

/// The rows of a table.
pub(crate) type Rows = [[u32; 256]; 16];

/// The table of CRC32C.
#[tactic(auto, unfolding(crate::specs::Tables::is_table, crate::specs::Checksum::after_bits))]
fn castagnoli() -> &'static Rows
    ensures { is_table (coefficients Polynomial.Castagnoli) result.now ≡ true }
{
    &CASTAGNOLI
}

/// That of CRC-32.
#[tactic(auto, unfolding(crate::specs::Tables::is_table, crate::specs::Checksum::after_bits))]
fn iso3309() -> &'static Rows
    ensures { is_table (coefficients Polynomial.Iso3309) result.now ≡ true }
{
    &ISO_3309
}

/// The table of a polynomial.
pub(crate) fn rows_of(polynomial: Polynomial) -> &'static Rows
    ensures { is_table (coefficients polynomial) result.now ≡ true }
{
    match polynomial {
        Polynomial::Castagnoli => castagnoli(),
        Polynomial::Iso3309 => iso3309(),
    }
}

/// The register after a byte.
#[inline(always)]
pub(crate) fn take_byte(polynomial: Polynomial, rows: &Rows, register: u32, byte: u8) -> u32
    requires { is_table (coefficients polynomial) rows.now ≡ true }
    ensures { result ≡ after_byte (coefficients polynomial) register byte }
{
    let _polynomial = polynomial;
    let [low, ..] = (register ^ u32::from(byte)).to_le_bytes();
    rows[0][usize::from(low)] ^ register >> 8
}

/// The register after its four bytes and that many zero bytes more.
#[inline(always)]
pub(crate) fn take_word(polynomial: Polynomial, rows: &Rows, more: usize, register: u32) -> u32
    requires table { is_table (coefficients polynomial) rows.now ≡ true }
    requires few { more ≤ 12 }
    ensures { result ≡ after_bits (coefficients polynomial) (8 * (more + 4)) register }
{
    let _polynomial = polynomial;
    let [a, b, c, d] = register.to_le_bytes();
    rows[more + 3][usize::from(a)]
        ^ rows[more + 2][usize::from(b)]
        ^ rows[more + 1][usize::from(c)]
        ^ rows[more][usize::from(d)]
}
