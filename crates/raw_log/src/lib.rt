//! Import of a raw log: from a log with sectors of 512 or 4,096 bytes to a log of the profile.
//!
//! Linux's `dm-log-writes` takes the sectors of a log from the device that it watches, and writes the log to a device that is
//! mostly longer than it. `logfmt` reads logs with sectors of 512 bytes, within limits. Between the two stands one call:
//!
//! | Call | Answer |
//! |---|---|
//! | `import(alloc, raw, sectors, limits)` | the canonical text of the log of the raw log's entries, for a device of that many sectors of 512 bytes, or the first fault |
//!
//! Each sector of 4,096 bytes becomes eight of 512. So the fields sector and nr_sectors are multiplied, and all else stays: the data,
//! the flags, the texts of marks, the order. The data stand at the same places of the device.
//!
//! # Place
//!
//! Beside `epochs`, on `base` and `logfmt`: the entries are those of `logfmt`, and what comes out is its canonical text. Which files
//! hold a raw log, and how much of them is read, is not known here.
//!
//! # What is proved
//!
//! - `RawText k bytes es` says by an equation of positions where each field of each entry stands in a raw log whose sectors have
//!   512 * k bytes. `imported_log k sectors es` is the log of these entries in sectors of 512 bytes. Where `import` is `Ok`, the bytes are
//!   a raw log of some entries, these can be imported, and the result is the canonical text of their log (`IsImported`).
//! - `IsImportable k sectors limits es` has the bounds: what comes out is a log within these limits, and so are the bytes of
//!   the raw log that the entries need. What stands after them is not looked at.
//! - `FirstRawFault bytes sectors limits code at` says which check of docs/LOG-FORMAT.md is the first to fail. It speaks of the
//!   bytes alone. Where `import` is `Err`, that is its fault, or memory ran out. Where it is `Ok`, no check fails.
//! - Laws (`specs/Laws.antt`) stand above these. Bytes are a raw log of at most one list of entries (`raw_of_one_log`). What is
//!   imported is a log text of the log of these entries over no initial content (`imported_is_text`), so `logfmt::read` gives
//!   that log, and one text is imported of bytes (`one_import`). The logs of `logfmt` within limits are the raw logs with sectors
//!   of 512 bytes (`log_is_raw`, `raw_is_log`), and importing one gives a text of the same log (`log_is_kept`). No raw log that
//!   can be imported has a fault (`raw_has_no_fault`, `imported_has_no_fault`), and bytes have at most one first fault
//!   (`one_raw_fault`).
//!
//! # How it is written
//!
//! `importer` goes over the bytes once, header by header. `header` makes the checks of the super block and of an entry, in their order,
//! and answers the header in sectors of 512 bytes. Only then the entry's text and data are taken, and `writer` appends them.
//!
//! # Example
//!
//! ```
//! use base::limits::Limits;
//! use logfmt::read;
//! use raw_log::import;
//!
//! // `raw` has sectors of 4,096 bytes: the super block, and one entry that writes sector 1 of the device
//! let text = import(alloc, raw, 16, Limits::Usual)?;
//! let log = read(alloc, text.as_slice(), 16, Limits::Usual)?;
//! // log.entries()[0].sector is 8, its count is 8, and its content has 4,096 bytes
//! let fault = import(alloc, raw, 8, Limits::Usual).err();
//! // the entry lies after a device of 8 sectors: Some(LogFault { code: LogCause::Device, at: 0 })
//! ```
//!
//! # Choices
//!
//! - `import` reads 192 MiB of a raw log, where 64 MiB may come out: one of headers alone comes out an eighth as long. With `--large`
//!   both are 1 GiB.
#![tactic(auto)]

mod header;
mod importer;
mod laws;
mod writer;

pub use importer::import;
pub use laws::{
    imported_has_no_fault, imported_is_text, log_is_kept, log_is_raw, one_import, one_raw_fault,
    raw_has_no_fault, raw_is_log, raw_of_one_log,
};
