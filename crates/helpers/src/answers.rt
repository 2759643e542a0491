//! What each helper answers on a device (docs/MACHINE.md, Helpers).

ghost use Rattle.std.specs.Prelude.{◌≡◌, ◌+◌, ◌*◌, ◌<◌, ◌≤◌, nat_eq, length, slice_get};
ghost use Rattle.std.specs.List.{list_all};
ghost use Rattle.std.specs.Option.{option_map};
ghost use Rattle.helpers.specs.Answers.{sector_answer, device_byte, device_bytes, copy_answer, zero_answer, mix_answer, same_answer};
ghost use Rattle.helpers.specs.Queries.{query_answer};

use crate::device::{Device, sector_of};
use crate::helper::Query;
use crate::sums;
use checksums::Polynomial;

/// The address at which sector 0 begins in the memory of a checker. Sectors begin 1,024 apart.
pub const SECTOR_START: u64 = 0x3_0000_0000;

/// The address of sector `number`, or 0 past the device.
#[tactic(auto, unfolding(crate::specs::Answers::sector_answer))]
pub fn sector<D: Device>(device: &D, number: u64) -> u64
    ensures { result ≡ sector_answer (D.content device.now) number }
{
    if number >= u64::from(device.sectors()) {
        return 0;
    }
    SECTOR_START + 1024 * number
}

/// Whether each byte of the sector is 0.
fn has_zeros_alone(sector: &[u8; 512]) -> bool
    ensures { result ≡ list_all (λ byte. nat_eq byte 0) sector.now }
{
    lanes::is_zero(sector)
}

/// 1 where each byte of sector `number` is 0, else 0; 2 past the device.
#[tactic(auto, unfolding(crate::specs::Answers::zero_answer))]
pub fn zero<D: Device>(device: &D, number: u64) -> u64
    ensures { result ≡ zero_answer (D.content device.now) number }
{
    match sector_of(device, number) {
        Some(sector) => u64::from(has_zeros_alone(sector)),
        None => 2,
    }
}

/// The mix of sector `number`; 0 past the device.
#[tactic(auto, unfolding(crate::specs::Answers::mix_answer))]
pub fn mix<D: Device>(device: &D, number: u64) -> u64
    ensures { result ≡ mix_answer (D.content device.now) number }
{
    match sector_of(device, number) {
        Some(sector) => lanes::mix(sector),
        None => 0,
    }
}

/// 1 where the sectors `left` and `right` have the same bytes, else 0; 2 where one is past the device.
#[tactic(auto, unfolding(crate::specs::Answers::same_answer), using(lanes::proofs::CallerLemmas::same_test))]
pub fn same<D: Device>(device: &D, left: u64, right: u64) -> u64
    ensures { result ≡ same_answer (D.content device.now) left right }
{
    match (sector_of(device, left), sector_of(device, right)) {
        (Some(left), Some(right)) => u64::from(lanes::same(left, right)),
        _ => 2,
    }
}

/// What a query answers of the numbers in registers 1 to 3.
#[inline(always)]
#[tactic(auto, unfolding(crate::specs::Queries::query_answer))]
pub fn answer<D: Device>(device: &D, query: Query, first: u64, second: u64, third: u64) -> u64
    ensures { result ≡ query_answer (D.content device.now) query first second third }
{
    match query {
        Query::Sector => sector(device, first),
        Query::Zero => zero(device, first),
        Query::Mix => mix(device, first),
        Query::Same => same(device, first, second),
        Query::Crc32c => sums::of_device(device, Polynomial::Castagnoli, first, second, third),
        Query::Crc32 => sums::of_device(device, Polynomial::Iso3309, first, second, third),
    }
}
