//! The polynomials.

/// A polynomial of which the 32nd power is the highest.
#[derive(Clone, Copy, Debug, PartialEq, Eq)]
pub enum Polynomial {
    /// That of CRC32C (RFC 3720, section 12.1), 0x1EDC6F41 below the 32nd power.
    Castagnoli,
    /// That of CRC-32 (ISO 3309), 0x04C11DB7 below the 32nd power.
    Iso3309,
}
