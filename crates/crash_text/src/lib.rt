//! Logs and crash images in words: a log as a table (docs/OUTPUT.md, The text of `log`), and of a crash image what stands at its cut,
//! what departed, and what in it differs from the image of the same cut where nothing departed (The text of `show`).
//!
//! # Place
//!
//! On `epochs` and `choices`, whose plan and choice it puts into words, on `report` for the text of the choice, and on `helpers`,
//! whose trait `Device` the images are read by. It forms no image and finds no choice: `commands` hands them over.
//!
//! | Call | Appends |
//! |---|---|
//! | `put_shown(out, numbering, choice, whole, image)` | all of the below, after a line of what images are numbered by |
//! | `put_choice(out, numbering, choice)` | the cut and the choice in a line, and a line for each departure |
//! | `put_cut(out, numbering, cut)` | what is volatile at a cut, the last entries before it, its last flush and its last mark |
//! | `put_differences(out, whole, image)` | each sector in which two devices differ: how many bytes, the first of them, and rows of both |
//! | `put_any_head(out, numbering, cut, departures)` | of a choice that may lose any number of parts, all that stands before the sectors that differ, and which entry is in flight |
//! | `put_sector(out, number, left, right)` | a sector of two devices, where it differs |
//! | `log_table(alloc, log)` | answers the entries of a log, one a line, by the numbers that the report names |
//! | `put_entry_line(out, number, epoch, entry)`, `put_what(out, entry)` | a line of the table, what stands in it after the epoch |
//! | `put_entry(alloc, out, log, number)` | a note with an entry, as in the table |
//! | `put_escaped(out, bytes)` | bytes of a foreign text, so that they stay on their line |
//!
//! # What is proved
//!
//! Each call appends exactly the text of its definition (`specs/`) over the plan, the choice and the sectors of
//! both devices, as their contracts tell them. So nothing shown is made up: a number in the text is one of the
//! log, of the choice, or of a byte that the images have.
//!
//! # Example
//!
//! ```
//! use crash_text::{Numbering, put_shown};
//! use epochs::{By, Cuts};
//!
//! // `plan` has all cuts of `log`; `choice` is 1.0:tail1 at cut 2, `view` its image, and `whole` the image of that cut without losses
//! let numbering = Numbering { plan: &plan, log: &log, cuts: Cuts::ALL, by: By::Sector, bound: 1, tears: true };
//! let mut out = String::new(alloc);
//! put_shown(&mut out, &numbering, &choice, &whole, &view)?;
//! ```
//!
//! This appends:
//!
//! ```text
//! sectors 4 entries 2 cuts all bound 1 tears yes by sector
//! cut 2 epoch 0 marks 0 choice 1.0:tail1
//! departed: entry 1, sector 0: only its last 64 bytes arrived
//! volatile parts: 2
//! volatile: entry 0, sector 0
//! volatile: entry 1, sector 0
//! before the cut: entry 0 epoch 0 write sector 0 count 1
//! before the cut: entry 1 epoch 0 write sector 0 count 1
//! last flush: none
//! last mark: none
//! sector 0: 448 of 512 bytes differ, the first is byte 0
//! < 00000000: 2222 2222 2222 2222 2222 2222 2222 2222  """"""""""""""""
//! > 00000000: 1111 1111 1111 1111 1111 1111 1111 1111  ................
//! ..
//! ```
//!
//! # How it is proved
//!
//! - `using(crash_text::proofs::Steps::text_more)` names a lemma of a crate below. `All P xs` is `(k : ℕ) (d : A) → k
//!   < length xs → P (get_or xs k d)`, and a loop over `xs` knows it of its element.
#![tactic(auto)]

mod cut;
mod escaped;
mod numbering;
mod row;
mod sector;
mod shown;
mod table;

pub use cut::{is_in_flight, put_cut};
pub use escaped::put_escaped;
pub use numbering::Numbering;
pub use sector::{put_differences, put_sector};
pub use shown::{put_any_head, put_choice, put_shown};
pub use table::{is_write, log_table, put_entry, put_entry_line, put_what, put_word};
