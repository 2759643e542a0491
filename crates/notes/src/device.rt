//! The device of a log.

ghost use Rattle.std.specs.Prelude.{◌≡◌, ◌++◌, ◌≤◌, ◌<◌, ◌+◌, ◌⊎◌, OnOk, string_bytes};
ghost use Rattle.base.specs.Sizes.{most_sectors};
ghost use Rattle.notes.specs.Device.{end_of, IsLeastDevice, size_note, SaysLeast};

use logfmt::{Entry, Log};
use std::alloc::AllocError;

/// The sector after the last one that an entry covers; 0 where it covers none.
fn end_of(entry: &Entry) -> u64
    requires { 0 < entry.now.count → entry.now.sector + entry.now.count ≤ most_sectors }
    ensures { result ≡ end_of entry.now }
{
    if entry.count == 0 {
        return 0;
    }
    entry.sector + entry.count
}

/// The greater one of two sizes.
fn greater(one: u64, other: u64) -> u64
    ensures one { one ≤ result }
    ensures other { other ≤ result }
    ensures either { (result ≡ one) ⊎ (result ≡ other) }
{
    if other > one { other } else { one }
}

/// How many sectors the least device has on which each entry of a log lies, at least 1.
fn least_device(log: &Log) -> u64
    ensures { IsLeastDevice log.now.entries result }
{
    let mut least = 1;
    for entry in log.entries() {
        least = greater(least, end_of(entry));
    }
    least
}

/// Appends a note with a size.
fn put_size(out: &mut String, sectors: u64) -> Result<(), AllocError>
    ensures { OnOk result (string_bytes out.new ≡ string_bytes out.old ++ size_note sectors) }
{
    write!(
        out,
        "note: --sectors {sectors} is the least that holds this log\n"
    )
}

/// Appends a note with the size of the least device that holds a log.
///
/// # Errors
///
/// Memory was refused.
pub fn put_least(out: &mut String, log: &Log) -> Result<(), AllocError>
    ensures { OnOk result (SaysLeast log.now.entries (string_bytes out.old) (string_bytes out.new)) }
{
    put_size(out, least_device(log))
}
