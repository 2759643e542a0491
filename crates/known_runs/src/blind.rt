//! Records of a program that looked at nothing that a log writes.

ghost use Rattle.std.specs.Prelude.{◌≡◌};
ghost use Rattle.std.specs.List.{list_any};
ghost use Rattle.known_runs.specs.Blind.{covers, is_covered, looks, sees, are_blind};

use known::KnownRun;
use logfmt::Entry;

/// Whether an entry covers a sector.
fn covers(sector: u64, entry: &Entry) -> bool
    ensures { result ≡ covers sector entry.now }
{
    if sector < entry.sector {
        return false;
    }
    sector - entry.sector < entry.count
}

/// Whether one of some entries does.
fn is_covered(entries: &[Entry], sector: u32) -> bool
    ensures { result ≡ is_covered entries.now sector }
{
    for entry in entries {
        if covers(u64::from(sector), entry) {
            return true;
        }
    }
    false
}

/// Whether a program looked at a sector that one of some entries covers.
fn looks(entries: &[Entry], looked: &[u32]) -> bool
    ensures { result ≡ looks entries.now looked.now }
{
    for sector in looked {
        if is_covered(entries, *sector) {
            return true;
        }
    }
    false
}

/// Whether it did so in one of some records.
fn sees(entries: &[Entry], runs: &[KnownRun]) -> bool
    ensures { result ≡ list_any (sees entries.now) runs.now }
{
    for run in runs {
        if looks(entries, run.looked.as_slice()) {
            return true;
        }
    }
    false
}

/// Whether there are records, and in none of them the program looked at a sector that an entry covers.
pub(crate) fn are_blind(entries: &[Entry], runs: &[KnownRun]) -> bool
    ensures { result ≡ are_blind entries.now runs.now }
{
    let seeing = sees(entries, runs);
    runs.len() > 0 && !seeing
}
