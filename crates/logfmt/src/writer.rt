//! From a log to its canonical text.

ghost use Rattle.std.specs.Prelude.{◌≡◌, ◌≤◌, ◌++◌, length, IfOk, OnOk};
ghost use Rattle.logfmt.specs.LogText.{super_sector, header_sector, entry_sectors, canonical_text};

use crate::entry::{Entry, Log, MAX_TEXT};
use crate::{MAGIC, VERSION};
use base::numbers::{put_u32, put_u64, put_zeros};
use std::alloc::{AllocError, Global};

/// How many bytes of the super block no field uses.
const UNUSED_IN_SUPER: usize = 484;

/// Appends the super block of a log of `count` entries.
#[tactic(auto, unfolding(crate::specs::LogText::super_sector))]
fn put_super(out: &mut Vec<u8>, count: u64) -> Result<(), AllocError>
    ensures { OnOk result (out.new.items ≡ out.old.items ++ super_sector count) }
{
    put_u64(out, MAGIC)?;
    put_u64(out, VERSION)?;
    put_u64(out, count)?;
    put_u32(out, 512)?;
    put_zeros(out, UNUSED_IN_SUPER)
}

/// Appends the header of an entry.
#[tactic(auto, unfolding(crate::specs::LogText::header_sector))]
fn put_header(out: &mut Vec<u8>, entry: &Entry) -> Result<(), AllocError>
    requires { length entry.now.text ≤ 480 }
    ensures { OnOk result (out.new.items ≡ out.old.items ++ header_sector entry.now) }
{
    let text = entry.text.as_slice();
    put_u64(out, entry.sector)?;
    put_u64(out, entry.count)?;
    put_u64(out, entry.flags.word())?;
    put_u64(out, text.len() as u64)?;
    out.extend_from_slice(text)?;
    put_zeros(out, MAX_TEXT - text.len())
}

/// Appends the header of an entry and its data.
fn put_entry(out: &mut Vec<u8>, entry: &Entry) -> Result<(), AllocError>
    requires { length entry.now.text ≤ 480 }
    ensures { OnOk result (out.new.items ≡ out.old.items ++ entry_sectors entry.now) }
{
    put_header(out, entry)?;
    out.extend_from_slice(entry.content.as_slice())
}

/// The canonical text of a log: zeros in all unused places, nothing after the last entry.
pub fn write(alloc: Global, log: &Log) -> Result<Vec<u8>, AllocError>
    ensures { IfOk result (λ bytes. bytes.items ≡ canonical_text log.now.entries) }
{
    let entries = log.entries();
    let mut out = Vec::new(alloc);
    put_super(&mut out, entries.len() as u64)?;
    for entry in entries {
        put_entry(&mut out, entry)?;
    }
    Ok(out)
}
