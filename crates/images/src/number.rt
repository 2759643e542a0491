//! The number by which a report tells what a device held before entry 0.

ghost use Rattle.std.specs.Prelude.{◌≡◌, ◌%◌, ◌^◌};
ghost use Rattle.lanes.specs.Sector.{horner};
ghost use Rattle.images.specs.Number.{initial_mix, initial_number};

use logfmt::Log;

/// By which the mixes of sectors count.
const JOIN_FACTOR: u64 = 16_777_619;

/// The mixes of all sectors, joined into one number, sector 0 first.
fn joined_mixes(log: &Log) -> u64
    ensures { result ≡ horner (initial_mix log.now) log.now.sectors % 2 ^ 64 }
{
    let initial = log.initial();
    let mut mixed: u64 = 0;
    for number in 0..log.sectors() {
        let sector = lanes::mix(initial.sector(number));
        mixed = mixed.wrapping_mul(JOIN_FACTOR).wrapping_add(sector);
    }
    mixed
}

/// The number of a log's initial content (docs/OUTPUT.md); `None` where none is given. It is the same for the same content of
/// the device, with whatever zeros at the end it was given.
#[tactic(auto, unfolding(crate::specs::Number::initial_number))]
pub fn initial_number(log: &Log) -> Option<u64>
    ensures { result ≡ initial_number log.now }
{
    if log.initial().len() == 0 {
        return None;
    }
    Some(joined_mixes(log))
}
