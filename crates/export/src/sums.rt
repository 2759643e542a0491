//! The sum of an image, by which equal images are found.

ghost use Rattle.std.specs.Prelude.{◌≡◌, ◌<◌, ◌≤◌, ◌^◌, ℕ, length, slice_get, Some, sum_by};
ghost use Rattle.images.specs.Views.{sectors_of};
ghost use Rattle.export.specs.Kept.{spread, weight, weight_at, sum_of, key_by};

use crate::image::ExportedImage;

/// The factor by which numbers are spread: odd, and near 2^64 by the golden ratio.
const FACTOR: u64 = 0x9e37_79b9_7f4a_7c15;

/// How many bits of a sector's weight are left away, so that no sum wraps.
const SPARE: u32 = 26;

/// A number in which each bit depends on many of another's.
#[tactic(auto, unfolding(crate::specs::Kept::spread))]
fn spread(number: u64) -> u64
    ensures { result ≡ spread number }
{
    (number ^ (number >> 32)).wrapping_mul(FACTOR)
}

/// What a sector adds to the sum of an image. It isn't linear in the mix, so that images with few bytes seldom have one sum.
#[tactic(auto, unfolding(crate::specs::Kept::weight))]
fn weight(number: u32, sector: &[u8; 512]) -> u64
    ensures { result ≡ weight number sector.now }
{
    let own = FACTOR.wrapping_mul(u64::from(number));
    spread(spread(lanes::mix(sector).wrapping_add(own))) >> SPARE
}

/// What some sectors add to the sum of an image.
pub(crate) fn sum_over(image: &ExportedImage<'_>, numbers: &[u32]) -> u64
    requires few { length numbers.now ≤ image.now.log.sectors }
    requires inside { (i n : ℕ) → slice_get numbers.now i ≡ Some n → n < image.now.log.sectors }
    ensures { result ≡ sum_by (weight_at (sectors_of image.now)) numbers.now }
{
    let _sectors = image.log().sectors();
    let mut sum = 0;
    for number in numbers {
        sum += weight(*number, image.sector(*number));
    }
    sum
}

/// What all sectors add up to.
pub(crate) fn sum_of(image: &ExportedImage<'_>) -> u64
    ensures { result ≡ sum_of (sectors_of image.now) }
{
    let mut sum = 0;
    for number in 0..image.log().sectors() {
        sum += weight(number, image.sector(number));
    }
    sum
}

/// The key of an image by its sum and how many marks stand before its cut.
#[tactic(auto, unfolding(crate::specs::Kept::key_by))]
pub(crate) fn key_of(sum: u64, marks: u32) -> u64
    ensures { result ≡ key_by sum marks }
{
    FACTOR.wrapping_mul(u64::from(marks)).wrapping_add(sum)
}
