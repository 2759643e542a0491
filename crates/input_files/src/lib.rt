//! input_files, the files of a command: which is what, and no more of each than a command can use.
//!
//! A file may have no end, as a device or a pipe that is written for ever, and a regular file may be larger than all
//! memory. What a command answers depends on a few of the bytes of such a file, and so no more of them are kept.
//!
//! # Place
//!
//! On `base`, and on the definitions of `logfmt`, `raw_log`, `bpf_isa` and `join`, below the program. `commands` says what a command
//! answers on what its files hold; this crate reads them.
//!
//! # What is read
//!
//! | File | Is read to | What is longer |
//! |---|---|---|
//! | a log | 64 MiB and a byte; with `--large` 1 GiB and a byte | has the refusal of what is read, 10 at 0, whatever it holds |
//! | a raw log | where its last entry ends, as its headers tell, at most 192 MiB; with `--large` 1 GiB | changes no answer |
//! | a program | 4,097 slots, 32,776 bytes | stands for itself by a prefix of more than 4,096 slots which cuts a slot as it does |
//! | an assembly text | 16 MiB and a byte | can't be read |
//! | what a device held before | the device's size and a byte | is refused, 13 at 14 |
//! | an image | 8 MiB and a byte; with `--large` 512 MiB and a byte | is refused, 14 at 1 |
//! | parts | 1 GiB and a byte of all together; one that doesn't begin as the text of a part, or of cases, to its first 13 bytes | are refused, 65 at the part with which they pass it; is refused, 61 |
//!
//! How long a program is tells a regular file's length; of any other file what follows the first 32,776 bytes is read and
//! counted, but not kept, and one that doesn't end within 64 MiB counts as one of too many whole slots. Of more than 4,096 parts
//! none is read, and after a part that can't be read no other.
//!
//! # What is proved
//!
//! `FileKind::of` says what a file is taken for, `left_beyond` how many bytes are left for parts after one of them,
//! `standing_length` how many bytes stand for a program, and
//! `refusal_of_whole` what the refusal of these bytes says of the whole file. Laws (`laws`) tie them to what `logfmt` and
//! `bpf_isa` say of a first fault. A log that isn't too long is read whole, and a longer one is refused for its length, as is
//! what is read of it. A program that isn't too long stands for itself; what stands for a longer one has a fault; and that is
//! the first fault of the longer one, at the place that `refusal_of_whole` makes of it. What is imported of the bytes that are
//! read of a raw log is imported of all of it, and their first fault is its first fault; of one that can be imported no more
//! is read than its entries need, and of none more than 192 MiB, with `--large` 1 GiB. A file that is read no further than its first bytes as a part isn't the
//! text of one, and neither are these bytes (`part_is_read_alike`).
//!
//! `Inputs::read` reads the files in their order, each from the file that was opened by its name, as its kind and within the limits of
//! its device (`specs/Reads.antt`). Of a file whose bytes are known it keeps what `specs/Contents.antt` says, and tells its length. One
//! that can't be read is told as such, and is never empty. Parts are counted together. What a device held before is read from the file
//! that is named for it, to the device's size and a byte. Where it is to say that size itself it is read to the largest
//! device's and a byte, and `base_sectors` tells it: so all of a file of whole sectors is read, as for a device of its size
//! (`base_is_read_alike`). Whatever a program's file is said to have, a program that isn't too long is
//! kept whole, and what is kept of a longer one has a fault (`short_is_kept_whole`, `long_is_never_run`). How far a raw log is to be read
//! is worked out header by header (`reach`). What opens files by their names is a `Source`, as the system is. What a file of the system
//! holds, and how long it says it is, no contract can say: runs of the built program show that it is read so
//! (tests/rows/surroundings.py, tests/rows/raw_logs.py).
//!
//! # Example
//!
//! ```
//! use input_files::{DeviceSize, Inputs};
//!
//! // `words` are those of `crashbpf explore disk.log check.bpf --sectors 64`
//! let size = DeviceSize { sectors: words.sectors(), limits: words.limits() };
//! let inputs = Inputs::read(rt, "explore", words.files(), words.base(), &size)?;
//! let contents = inputs.contents();           // of each file its bytes, or that it can't be read
//! let whole = inputs.refusal(refusal);        // the refusal of the whole files, where `contents` were refused
//! ```
//!
//! # More that is promised
//!
//! - **Files are read as far as they matter.** They are read in their order, each as its kind and within its limits.
//!   A file that can't be read is told as such. A log that isn't too long is read whole: `FileKind::most_read`,
//!   `short_log_is_read`.
//! - What is read of a long log, program, raw log or part has the answer of the whole file. A long log and a long
//!   program are refused alike, at the place in the whole file. A raw log is imported or refused alike, and at most
//!   192 MiB of it are read, with `--large` 1 GiB. A text of which only its first bytes are read is no part. A program is never cut and
//!   run: `no_more_is_read`, `read_raw_is_short`, `short_stands_for_itself`, `long_is_refused`,
//!   `long_is_refused_alike`.
//!
//! # Choices
//!
//! - Of a program that is no regular file 64 MiB are counted, and one that doesn't end there is refused 21 at 0: 20
//!   at the slot that is cut would need its end, and there may be none.
//! - An assembly text has at most 16 MiB, and a longer one can't be read (14, with a note): the limits of the text
//!   itself are on what it says, 4,096 slots, and comments may go on for ever.
#![tactic(auto)]

mod cut;
mod inputs;
mod kind;
mod laws;
mod reach;
mod reading;
mod source;

pub use cut::{refusal_of_whole, standing_length};
pub use inputs::{DeviceSize, Inputs};
pub use kind::FileKind;
pub use laws::{
    base_is_read_alike, long_is_never_run, long_is_refused, long_is_refused_alike,
    long_log_is_refused_alike, no_more_is_read, part_is_read_alike, raw_is_imported_alike,
    raw_is_refused_alike, read_raw_is_short, short_is_kept_whole, short_log_is_read,
    short_stands_for_itself,
};
pub use source::FileSource;
