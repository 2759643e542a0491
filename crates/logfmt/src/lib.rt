//! The log codec: from the bytes of a log to its entries, and back.
//!
//! A log is a sequence of sectors of 512 bytes, a profile of what Linux's `dm-log-writes` target
//! writes: a super block, then for each entry a header and the data that was written. Two calls
//! lead back and forth:
//!
//! | Call | Answer |
//! |---|---|
//! | `read(alloc, bytes, sectors, limits)` | the log that the bytes are, for a device of that many sectors, or the first fault |
//! | `write(alloc, log)` | the canonical text of a log |
//!
//! A log's bytes don't say what the device held before entry 0. That is its initial content, zeros where
//! nothing is said of it:
//!
//! | Call | Answer |
//! |---|---|
//! | `InitialContent::of(bytes)` | these bytes from sector 0 on, and zeros after them |
//! | `log.over(initial)` | the log over that initial content |
//! | `log.initial().sector(n)` | what a sector held, borrowed |
//!
//! A `Log` is a value that only `read` makes, so it keeps every bound of docs/LOG-FORMAT.md: each
//! entry lies on the device, each content has its length, a mark has nothing but its text, and the
//! counts of bytes, entries and units are within the limits, those of `--large` where it was asked for.
//! `Log::sectors` and `Log::entries` give it to the layers above, each `Entry` with its place on the
//! device, its `Flags`, the text of a mark and its data. Its initial content is no longer than the device.
//!
//! A log borrows texts, data and initial content from the bytes that it was read of. So it takes memory for its entries alone,
//! however much they write.
//!
//! # Place
//!
//! On `base`, whose numbers in bytes, `LogCause` and `Limits` it takes. `epochs` makes
//! units and cuts of a log's entries, and `images` takes their contents and the initial content. What the
//! entries do to a device is not known here (docs/CRASH-MODEL.md).
//!
//! # What is proved
//!
//! - `LogText bytes log` says by an equation of positions where each field of each entry stands, and
//!   which bounds hold. Where `read` is `Ok`, the bytes are a log text of its result.
//! - The data of each entry of a `Log` are bytes (`IsEntry`), so layers above know of each number that it is
//!   below 256.
//! - `FirstFault bytes sectors limits code at` says which check of docs/LOG-FORMAT.md is the first to fail.
//!   It speaks of the bytes and the limits alone. Where `read` is `Err`, that is its fault, or memory ran out. Where
//!   it is `Ok`, no check fails.
//! - `write` gives `canonical_text`: zeros in all unused places, nothing after the last entry.
//! - Five laws stand above these (`specs/Laws.antt`): a text is the log text of at most one log for a
//!   device and its initial content (`text_of_one_log`), the canonical text of a log is a log text of it
//!   (`canonical_is_text`), so what is written reads back (`canonical_reads_back`), no log text within the
//!   limits has a fault (`text_has_no_fault`), so `read` refuses none but for want of memory,
//!   and bytes have at most one first fault for a device (`one_fault`).
//!
//! # How it is written
//!
//! `reader` goes over the bytes once, header by header. `header` makes the checks of an entry, in
//! their order, on the numbers of its header; only then the entry's text and data are borrowed. Bytes of data, bytes that no field
//! uses, and bytes after the last entry, are not looked at.
//! `writer` appends each field to one list.
//!
//! # Example
//!
//! ```
//! use base::limits::Limits;
//! use logfmt::{read, write};
//!
//! // `bytes` holds the super block and one entry that writes device sector 0
//! let log = read(alloc, bytes, 4, Limits::Usual)?;
//! // log.sectors() is 4; log.entries()[0].count is 1 and its content has 512 bytes
//! let text = write(alloc, &log)?;
//! // read(alloc, text.as_slice(), 4, Limits::Usual) gives the same log again
//! let fault = read(alloc, &bytes[..1535], 4, Limits::Usual).err();
//! // the data of entry 0 is cut short: Some(LogFault { code: LogCause::CutShort, at: 0 })
//! ```
//!
//! # More that is promised
//!
//! - The initial content is the bytes that were given, and zeros after them. Flushes are added where they are asked
//!   for: `Log::with_flushes`.
//!
//! # Choices
//!
//! - What a device held before entry 0 is called its initial content: 'base' means what the last flush made durable.
//! - Of the initial content contracts see exactly the bytes that were given. The sector that the last of them begin but don't
//!   fill is kept beside them, with zeros after them (`InitialContent`), so that each sector can be lent whole.
//! - Entries, units, images and all else are the same with `--large`: these bound the memory and the time of a run.
//!   1 GiB has room for nearly all units as writes.
//!
//! # How it is proved
//!
//! - Where the first fault speaks of bytes and the accepted value of a record, both give the same numbers. These are
//!   the places of headers by entries (`place`) and by bytes (`header`), and the data of an entry (`data_of`) and of
//!   a header (`data_sectors`). The loop keeps both in its record, and one lemma (`same_data`) leads from one to the
//!   other. With it `text_has_no_fault` is proved: no check fails at bytes that are a log text, so the two
//!   definitions agree.
//! - The header's checks stand in a list by their order: `checked_header` makes seven of them, and needs no answer by
//!   hand.
//! - Bits of a word of flags: open `flag_word` and `has_bit` and answer `grind (arith, nat_tests)`
//!   (`logfmt/proofs/FlagBits.antt`). A test such as `nat_le a b ≡ true` goes the same way, with the facts after.
//! - Two records are the same where their fields are: `λ i. record { sector = sector i; .. }`
//!   (`logfmt/proofs/Unique.antt`).
#![tactic(auto)]

mod entry;
mod fault;
mod flags;
mod flushes;
mod header;
mod initial;
mod laws;
mod reader;
mod writer;

pub use entry::{Entry, Log, SECTOR};
pub use fault::LogFault;
pub use flags::Flags;
pub use initial::InitialContent;
pub use laws::{
    canonical_is_text, canonical_reads_back, one_fault, text_has_no_fault, text_of_one_log,
};
pub use reader::read;
pub use writer::write;

/// The bytes `rhswfsj` and a zero.
const MAGIC: u64 = 0x006a_7366_7773_6872;

/// The only version of the format.
const VERSION: u64 = 1;
