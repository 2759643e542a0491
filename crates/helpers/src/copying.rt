//! The bytes of a device, from any position on, and what `copy` gives of them.

ghost use Rattle.std.specs.Prelude.{◌≡◌, ◌+◌, ◌*◌, ◌<◌, ◌≤◌, length, replicate, take, drop};
ghost use Rattle.helpers.specs.Answers.{device_bytes, copy_answer};
ghost use Rattle.helpers.specs.Sums.{sector_or_zeros};

use crate::device::{Device, sector_of};

/// A sector of zeros, as past the end of a device.
static ZEROS: [u8; 512] = [0; 512];

fn zeros() -> &'static [u8; 512]
    ensures { result.now ≡ replicate 512 0 }
{
    &ZEROS
}

/// The sector of this number, or zeros past the device.
fn sector_or_zeros<D: Device>(device: &D, number: u64) -> &[u8; 512]
    ensures { result.now ≡ sector_or_zeros (D.content device.now) number }
{
    match sector_of(device, number) {
        Some(sector) => sector,
        None => zeros(),
    }
}

/// The bytes of a sector from a place on, and at most that many.
fn part(sector: &[u8; 512], start: u64, left: u64) -> &[u8]
    requires inside { start < 512 }
    requires some { 0 < left }
    ensures some { 0 < length result.now }
    ensures within { length result.now ≤ left }
    ensures inside { start + length result.now ≤ 512 }
    ensures bytes { result.now ≡ take (length result.now) (drop start sector.now) }
{
    let count = left.min(512 - start);
    &sector[start as usize..(start + count) as usize]
}

/// The bytes of the device at a distance after a position, up to the end of their sector, and at most that many.
pub(crate) fn bytes_from<D: Device>(device: &D, position: u64, distance: u64, left: u64) -> &[u8]
    requires near { distance < 4096 }
    requires some { 0 < left }
    ensures some { 0 < length result.now }
    ensures within { length result.now ≤ left }
    ensures bytes { result.now ≡ device_bytes (D.content device.now) (position + distance) (length result.now) }
{
    let place = position % 512 + distance;
    let sector = sector_or_zeros(device, position / 512 + place / 512);
    part(sector, place % 512, left)
}

/// Fills the window with the bytes of the device from this position on, sector by sector, and answers 1 where one of
/// them is past the device, else 0.
pub fn copy<D: Device>(device: &D, position: u64, window: &mut [u8]) -> u64
    requires { length window.old ≤ 512 }
    ensures filled { window.new ≡ device_bytes (D.content device.now) position (length window.old) }
    ensures answer { result ≡ copy_answer (D.content device.now) position (length window.old) }
{
    let mut done = 0;
    'pieces: while done < window.len() {
        let left = window.len() - done;
        let bytes = bytes_from(device, position, done as u64, left as u64);
        window[done..done + bytes.len()].copy_from_slice(bytes);
        done += bytes.len();
    }
    past(device, position, window.len() as u64)
}

/// 1 where one of that many bytes from this position on is past the device, else 0.
#[tactic(auto, unfolding(crate::specs::Answers::copy_answer))]
fn past<D: Device>(device: &D, position: u64, count: u64) -> u64
    requires { count ≤ 512 }
    ensures { result ≡ copy_answer (D.content device.now) position count }
{
    let size = 512 * u64::from(device.sectors());
    if position <= size && position + count <= size {
        return 0;
    }
    1
}
