//! An image that a file holds, as a device.

ghost use Rattle.std.specs.Prelude.{◌≡◌, ◌≤◌, ◌*◌, length, IsTrue};
ghost use Rattle.base.specs.Sizes.{most_sectors};
ghost use Rattle.inspect.specs.TrialImage.{is_image, sectors_of};

use base::limits::Limits;
use helpers::Device;
use logfmt::InitialContent;
use std::marker::Model;

/// Whether bytes are an image: whole sectors, no fewer than 1 and no more than the limits allow.
pub(crate) fn is_image(bytes: &[u8], limits: Limits) -> bool
    ensures value { result ≡ is_image limits bytes.now }
    ensures some { IsTrue result → 512 ≤ length bytes.now }
    ensures few { IsTrue result → length bytes.now ≤ 512 * most_sectors }
{
    let most = 512 * limits.sectors() as usize;
    bytes.len() % 512 == 0 && 512 <= bytes.len() && bytes.len() <= most
}

/// How many sectors an image has.
pub(crate) fn sectors_of(bytes: &[u8]) -> u32
    requires some { 512 ≤ length bytes.now }
    requires few { length bytes.now ≤ 512 * most_sectors }
    ensures value { result ≡ sectors_of bytes.now }
    ensures some { 1 ≤ result }
    ensures device { result ≤ most_sectors }
{
    (bytes.len() / 512) as u32
}

/// The device that the first bytes of an image are.
///
/// Contracts see the bytes and the number of sectors.
#[derive(Drop)]
pub(crate) struct GivenImage<'x> {
    content: InitialContent<'x>,
    count: u32,
}

impl<'x> Model for GivenImage<'x> {
    ghost use Rattle.inspect.specs.TrialImage.{ImageValue};

    ghost Value = { ImageValue };

    ghost view = { λ image. record { bytes = image.content; sectors = image.count } };
}

impl<'x> GivenImage<'x> {
    /// The device of that many sectors.
    pub(crate) fn of(bytes: &'x [u8], count: u32) -> GivenImage<'x>
        ensures { result ≡ record { bytes = bytes.now; sectors = count } }
    {
        let content = InitialContent::of(bytes);
        GivenImage { content, count }
    }
}

impl<'x> Device for GivenImage<'x> {
    ghost use Rattle.inspect.specs.TrialImage.{device_of, whole_device};

    ghost content = { λ image. device_of image.bytes image.sectors };

    fn sectors(&self) -> u32 {
        self.count
    }

    fn sector(&self, n: u32) -> Option<&[u8; 512]> {
        if n < self.count {
            Some(self.content.sector(n))
        } else {
            None
        }
    }

    ghost whole = { λ image n s h. whole_device image.bytes image.sectors n s h };
}
