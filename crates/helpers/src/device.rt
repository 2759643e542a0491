//! The device and the context of a crash image.

ghost use Rattle.std.specs.Prelude.{◌≡◌, ℕ, List, length, slice_get, Some};
ghost use Rattle.std.specs.Option.{option_map};

/// A device of sectors of 512 bytes, as a checker sees it.
pub trait Device {
    /// The sectors in order.
    ghost content: { Self → List (List ℕ) };

    /// The number of sectors.
    fn sectors(&self) -> u32
        ensures { result ≡ length (content self.now) };

    /// Sector `n`, or none past the end.
    fn sector(&self, n: u32) -> Option<&[u8; 512]>
        ensures { option_map (λ s. s.now) result ≡ slice_get (content self.now) n };

    /// Each sector has 512 bytes.
    ghost whole: { (d : Self) (n : ℕ) (s : List ℕ) → slice_get (content d) n ≡ Some s → length s ≡ 512 };
}

/// The sector of this number, or none past the device.
pub(crate) fn sector_of<D: Device>(device: &D, number: u64) -> Option<&[u8; 512]>
    ensures { option_map (λ s. s.now) result ≡ slice_get (D.content device.now) number }
{
    if number >= u64::from(device.sectors()) {
        return None;
    }
    device.sector(number as u32)
}

/// What a checker is told of the crash image that it judges (docs/MACHINE.md, Address space).
#[derive(Clone, Copy, Debug, PartialEq, Eq)]
pub struct Context {
    /// The number of sectors of the device.
    pub sectors: u32,
    /// The number of flush entries before the cut.
    pub epoch: u32,
    /// The number of marks before the cut.
    pub marks: u32,
}
