//! A log as a value: its device, and its entries in order.

ghost use Rattle.std.specs.Prelude.{◌≡◌, ◌*◌, ◌≤◌, length};
ghost use Rattle.logfmt.specs.Bounds.{IsLog};
ghost use Rattle.logfmt.specs.Initial.{over};

use crate::flags::Flags;
use crate::initial::InitialContent;
use base::bytes::Bytes;
use std::marker::Model;

/// The length of a sector, in bytes.
pub const SECTOR: usize = 512;

/// How many bytes of text fit the header of a mark.
pub(crate) const MAX_TEXT: usize = 480;

/// An entry of a log (docs/LOG-FORMAT.md, Entry header).
#[derive(Drop)]
pub struct Entry<'x> {
    /// The first sector of the device that the entry covers.
    pub sector: u64,
    /// How many sectors it covers.
    pub count: u64,
    /// What the entry asks of the device, and whether it is a mark.
    pub flags: Flags,
    /// The text of a mark; empty for any other entry.
    pub text: Bytes<'x>,
    /// The data, `count` sectors of 512 bytes; empty for a discard and a mark.
    pub content: Bytes<'x>,
}

/// A log within the limits. Only `read` makes one, of a device that held zeros; `over` says what it held instead.
#[derive(Drop)]
pub struct Log<'x> {
    sectors: u32,
    entries: Vec<Entry<'x>>,
    initial: InitialContent<'x>,
}

impl<'x> Model for Log<'x> {
    ghost use Rattle.logfmt.specs.Bounds.{LogValue, IsLog};

    ghost Value = { LogValue };

    ghost view = { λ l. record { sectors = l.sectors; entries = l.entries.items; initial = l.initial } };

    ghost invariant = { λ l. IsLog (record { sectors = l.sectors; entries = l.entries.items; initial = l.initial }) };
}

impl<'x> Log<'x> {
    /// The log of these entries, over this initial content.
    pub(crate) fn of(sectors: u32, entries: Vec<Entry<'x>>, initial: InitialContent<'x>) -> Log<'x>
        requires { IsLog (record { sectors = sectors; entries = entries.items; initial = initial }) }
        ensures { result ≡ record { sectors = sectors; entries = entries.entry.items; initial = initial.entry } }
    {
        Log {
            sectors,
            entries,
            initial,
        }
    }

    /// Its entries and its initial content, taken out of it.
    pub(crate) fn into_parts(self) -> (Vec<Entry<'x>>, InitialContent<'x>)
        ensures entries { result.0.items ≡ self.entry.entries }
        ensures initial { result.1 ≡ self.entry.initial }
        ensures bounds { IsLog self.entry }
    {
        (self.entries, self.initial)
    }

    /// The log over what its device held before entry 0 (docs/CRASH-MODEL.md, Terms), in place of what it had. It takes no
    /// memory.
    pub fn over(self, initial: InitialContent<'x>) -> Log<'x>
        requires { length initial ≤ 512 * self.sectors }
        ensures { result ≡ over initial.entry self.entry }
    {
        let sectors = self.sectors();
        let (entries, _old) = self.into_parts();
        let _count = initial.len();
        Log::of(sectors, entries, initial)
    }

    /// The number of sectors of the device.
    pub fn sectors(&self) -> u32
        ensures value { result ≡ self.now.sectors }
        ensures bounds { IsLog self.now }
    {
        self.sectors
    }

    /// The entries in order.
    pub fn entries(&self) -> &[Entry<'x>]
        ensures value { result.now ≡ self.now.entries }
        ensures bounds { IsLog self.now }
    {
        self.entries.as_slice()
    }

    /// What the device held before entry 0.
    #[inline]
    pub fn initial(&self) -> &InitialContent<'x>
        ensures value { result.now ≡ self.now.initial }
        ensures bounds { IsLog self.now }
    {
        &self.initial
    }
}
