//! What each cut of a log leaves open: its volatile parts, its epoch, its marks, and which cuts are
//! wanted.
//!
//! Cut k of a log is the moment at which exactly its first k entries have been logged. A unit is one
//! sector of a write or a discard. A part is what departs as one: by sector each unit, by write all
//! units of an entry. At a cut a part is volatile where its entry isn't forced (FUA) and no flush
//! entry stands between that entry and the cut: a crash may lose it. A flush entry makes
//! durable what stands before it, and not its own data, which comes after the flush.
//!
//! A `Plan` is a log together with a kind of cuts, and what departs as one (`By`):
//!
//! | Call | Answer |
//! |---|---|
//! | `Plan::new(alloc, log, cuts, by)` | the plan of a log; the only call that takes memory |
//! | `plan.cuts()` | the wanted cuts, rising |
//! | `plan.epoch(k)` | how many flush entries stand before cut k |
//! | `plan.marks(k)` | how many marks stand before cut k |
//! | `plan.volatile(k)` | how many volatile parts cut k has |
//! | `plan.part(k, i)` | the volatile part of cut k with number i, in their order |
//! | `last_flush(entries, k)` | the last flush entry before cut k, or 0 where there is none |
//! | `plan.put_touching(numbers, k, sectors, most)` | appends the numbers of the volatile parts of cut k that cover one of some sectors, if they are few |
//!
//! # Place
//!
//! On `logfmt`, whose `Log` a plan borrows. `choices` numbers the sets of volatile
//! parts that may depart, and `images` forms what a crash leaves of them. Here no byte of a log's data
//! is looked at. The rules are those of docs/CRASH-MODEL.md.
//!
//! # What is proved
//!
//! A contract sees a plan as its log, its kind of cuts and its kind of parts, and nothing else, so each
//! call is a function of these three:
//!
//! - `volatile_parts by entries k` is the list of all parts before cut k, by entry and then by sector,
//!   without those that are forced or stand before a flush. `volatile(k)` is its length, and
//!   `part(k, i)` its element i, with the first device sector that it covers. Both kinds of parts are
//!   one definition: how many sectors a part has (`part_size`), and how many parts an entry has
//!   (`part_count`).
//! - `touching by entries k sectors` (`specs/Touching.antt`) are the places in that list at which a part covers one of the
//!   sectors. `put_touching` appends exactly these, or none where they are more than it may.
//! - `epoch(k)` and `marks(k)` count the flush entries and the marks among the first k entries.
//! - `cuts()` is exactly the list of the wanted cuts, `cuts_of kind entries`.
//!
//! `specs/Units.antt`, `specs/Parts.antt` and `specs/Cuts.antt` have these definitions, and `unit_content`, the 512 bytes
//! of a unit, for the layers above. Four laws stand over them (`specs/Laws.antt`): the list has
//! exactly the parts that are volatile, in order (`volatile_is_set`), it is one run of the parts that
//! are not forced (`volatile_is_run`), a unit has 512 bytes (`unit_is_sector`), and the wanted cuts are
//! exactly those of their kind, rising (`cuts_are_set`).
//!
//! # How it is written
//!
//! `table` has a row of four numbers for each cut: how many parts before it are not forced, how many
//! of these are durable, the epoch and the marks. The volatile parts of a cut are the others, one run,
//! so their number is a difference, and a part is found by a search by halves in the rows. A plan
//! takes 16 bytes for each cut, and 4 to 8 for each wanted cut, and none for a part. Which parts cover a
//! sector is found entry by entry, from that of the first volatile part on.
//!
//! # Example
//!
//! ```
//! use epochs::{By, Cuts, Part, Plan};
//!
//! // `log` has a write of sector 0, a flush, and another write of sector 0
//! let plan = Plan::new(alloc, &log, Cuts::ALL, By::Sector)?;
//! // plan.cuts() is [0, 1, 2, 3]; plan.volatile(k) is 0, 1, 0, 1 and plan.epoch(k) is 0, 0, 1, 1
//! let part = plan.part(3, 0);
//! // the second write: Part { entry: 2, place: 0, count: 1, sector: 0 }
//! ```
//!
//! # Choices
//!
//! - What is lost or torn is a part, some sectors of an entry in a row, and a plan says whether it is a sector or a
//!   whole write: the crash model is stated once; choices and their order count parts, and only the forming of an
//!   image looks at the sectors of one.
//! - The flushes that were added are a part of the record of the wanted cuts (`Cuts`), beside kind and range:
//!   everything that hands on and tells the cuts (the head of the report, what `show` and the page number images by)
//!   tells them too. The log that a plan borrows has them in its entries already.
//!
//! # How it is proved
//!
//! - `partition_point` stands in a free function that requires `IsNonDecreasingBy` and says what is before and after
//!   its answer (`rows_up_to` in `epochs/src/table.rt`).
//! - A table is stated by rows: `IsRow es k row` says what one row holds, `next_is_row` leads to the next, and the
//!   invariant says it of each row so far (`epochs/proofs/Rows.antt`). A private `row(cut)` with clauses then makes
//!   the public calls auto.
#![tactic(auto)]

mod cuts;
mod flushed;
mod flushes;
mod laws;
mod part;
mod places;
mod plan;
mod table;
mod unit;

pub use cuts::{CutKind, Cuts};
pub use flushed::last_flush;
pub use flushes::Flushes;
pub use laws::{cuts_are_set, unit_is_sector, volatile_is_run, volatile_is_set};
pub use part::{By, Part};
pub use plan::Plan;
pub use unit::Unit;
