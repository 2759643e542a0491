//! The cuts of a log that are explored.

ghost use Rattle.std.specs.Prelude.{◌≡◌, ◌≤◌, length, IfOk};
ghost use Rattle.epochs.specs.Cuts.{is_of_kind, is_after_first, is_before_last, is_wanted, cuts_of};

use crate::flushes::Flushes;
use logfmt::Entry;
use std::alloc::{AllocError, Global};

/// A kind of cuts (docs/CRASH-MODEL.md, Which cuts are explored). Cut k of a log is the moment at which its first k entries
/// have been logged.
#[derive(Clone, Copy)]
pub enum CutKind {
    /// Each cut, from 0 to the number of entries.
    All,
    /// Each cut right before a flush entry, and the last cut.
    BeforeFlush,
    /// Each cut right after a mark.
    AfterMark,
}

/// Which cuts of a log are wanted (docs/CRASH-MODEL.md, Which cuts are explored), and of which log: what a run is told of
/// them, and tells of them.
#[derive(Clone, Copy)]
pub struct Cuts {
    /// The kind of the cuts.
    pub kind: CutKind,
    /// The first cut that is wanted, where one is given.
    pub from: Option<u64>,
    /// The last cut that is wanted, where one is given.
    pub to: Option<u64>,
    /// The flushes that were added to the log. They stand in its entries already, as flush entries, and are told.
    pub flushes: Flushes,
}

impl CutKind {
    /// Whether that cut is of this kind.
    fn has(self, entries: &[Entry], cut: u32) -> bool
        requires { cut ≤ length entries.now }
        ensures { result ≡ is_of_kind self entries.now cut }
    {
        match self {
            CutKind::All => true,
            CutKind::BeforeFlush => match entries.get(cut as usize) {
                Some(entry) => entry.flags.flush,
                None => true,
            },
            CutKind::AfterMark => cut > 0 && entries[cut as usize - 1].flags.mark,
        }
    }
}

/// Whether a cut isn't before the first that is wanted.
fn is_after_first(first: Option<u64>, cut: u32) -> bool
    ensures { result ≡ is_after_first first cut }
{
    if let Some(first) = first {
        first <= u64::from(cut)
    } else {
        true
    }
}

/// Whether a cut isn't after the last that is wanted.
fn is_before_last(last: Option<u64>, cut: u32) -> bool
    ensures { result ≡ is_before_last last cut }
{
    if let Some(last) = last {
        u64::from(cut) <= last
    } else {
        true
    }
}

impl Cuts {
    /// All cuts of a log as it is.
    pub const ALL: Cuts = Cuts {
        kind: CutKind::All,
        from: None,
        to: None,
        flushes: Flushes::NONE,
    };

    /// Whether that cut is one of these.
    fn wants(&self, entries: &[Entry], cut: u32) -> bool
        requires { cut ≤ length entries.now }
        ensures { result ≡ is_wanted self.now entries.now cut }
    {
        let of_kind = self.kind.has(entries, cut);
        let beyond = is_after_first(self.from, cut);
        let before = is_before_last(self.to, cut);
        of_kind && beyond && before
    }

    /// These cuts of a log, rising.
    pub(crate) fn of(&self, alloc: Global, entries: &[Entry]) -> Result<Vec<u32>, AllocError>
        requires { length entries.now ≤ 65536 }
        ensures { IfOk result (λ cuts. cuts.items ≡ cuts_of self.now entries.now) }
    {
        let mut cuts = Vec::new(alloc);
        let count = entries.len() as u32;
        for cut in 0..count + 1 {
            if self.wants(entries, cut) {
                cuts.push(cut)?;
            }
        }
        Ok(cuts)
    }
}
