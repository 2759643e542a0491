//! The line of a text at which a record stands.

ghost use Rattle.std.specs.Prelude.{◌≡◌, ◌==◌, ◌&&◌, ◌+◌, ◌<◌, ◌^◌, if◌then◌else◌};
ghost use Rattle.known_runs.specs.Lines.{has_byte, begins_line, begins_record, record_line};
ghost use Rattle.known_runs.specs.Told.{contradiction_fault};

use crate::asked::KnownRunFault;
use known::Contradiction;

/// Whether a byte of a text is that one.
fn has_byte(bytes: &[u8], place: usize, byte: u8) -> bool
    ensures { result ≡ has_byte bytes.now place byte }
{
    match bytes.get(place) {
        Some(own) => *own == byte,
        None => false,
    }
}

/// Whether a byte of a text is the first of its line.
fn begins_line(bytes: &[u8], place: usize) -> bool
    ensures { result ≡ begins_line bytes.now place }
{
    if place == 0 {
        true
    } else {
        has_byte(bytes, place - 1, b'\n')
    }
}

/// Whether a byte of a text is the first of the line of a record.
fn begins_record(bytes: &[u8], place: usize) -> bool
    ensures { result ≡ begins_record bytes.now place }
{
    let line = begins_line(bytes, place);
    let record = has_byte(bytes, place, b'r');
    line && record
}

/// A number with one more, if that is to be counted.
pub(crate) fn with(count: u64, is: bool) -> u64
    requires { count + 1 < 2 ^ 64 }
    ensures { result ≡ count + (if is then 1 else 0) }
{
    if is { count + 1 } else { count }
}

/// Whether a record begins, and as many begin before it.
fn is_that(begins: bool, before: u64, place: u64) -> bool
    ensures { result ≡ (begins && (before == place)) }
{
    begins && before == place
}

/// The number of the line at which the record at a place stands.
fn record_line(bytes: &[u8], place: u64) -> u64
    ensures { result ≡ record_line bytes.now place }
{
    let mut line = 1;
    let mut before = 0;
    for at in 0..bytes.len() {
        let begins = begins_record(bytes, at);
        let found = is_that(begins, before, place);
        if found {
            return line;
        }
        before = with(before, begins);
        let ends = has_byte(bytes, at, b'\n');
        line = with(line, ends);
    }
    line
}

/// Where two records contradict each other, by the lines at which they stand.
pub(crate) fn contradiction_of(bytes: &[u8], found: Contradiction) -> KnownRunFault
    ensures { result ≡ contradiction_fault bytes.now found }
{
    KnownRunFault::Contradiction {
        earlier: record_line(bytes, found.earlier as u64),
        later: record_line(bytes, found.later as u64),
    }
}
