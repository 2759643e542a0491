//! Crash images: what a crash leaves on the device, as devices that a checker can read, and keys by
//! which equal images are known.
//!
//! A crash image is what the device holds after a crash at a cut of a log, where a choice says which
//! of the last writes were lost or torn. Each byte of it is that of the last unit before the cut which
//! covers the sector and of which the byte reached the device, and where there is none what the device
//! held before entry 0, the initial content of the log:
//!
//! | A unit that is | leaves on its sector |
//! |---|---|
//! | whole | its 512 bytes |
//! | dropped | what the units before it left |
//! | torn, the first t eighths arrived | its first 64 t bytes, and then what the units before it left |
//! | torn, the last t eighths arrived | what the units before it left, and then its last 64 t bytes |
//!
//! A discard is a write of zeros, and can be dropped and torn as a write can. So the rest of a torn
//! sector comes from an earlier write that reached the device, and that may be a torn one too, or from
//! the initial content.
//!
//! A key stands for an image together with the program that is run on it: it has the number of the
//! program, the epoch of the cut and the marks before it, and the sectors of the image that differ from
//! the base of the cut. The base is what the last flush before the cut has made durable: the image of
//! all units of entries before that flush entry, the initial content where there is none. An image of which more than
//! 64 sectors differ has no key.
//!
//! | Call | Answer |
//! |---|---|
//! | `History::new(alloc, plan, log)` | the crash images of a log, of which a plan says the cuts |
//! | `history.view(alloc, choice)` | the crash image of a choice |
//! | `view.context()` | the number of sectors, the epoch of the cut, the marks before it |
//! | `view.sectors()`, `view.sector(n)` | the image as a `helpers::Device` |
//! | `view.key(alloc, program)` | the key of the image and a program, or `None` |
//! | `Changes::new(alloc, history)`, `changes.key(alloc, view)` | the keys of many images, each of program 0 |
//! | `key.set_program(program)`, `key.copy(alloc)` | the key of the image and another program; the same key |
//! | `key.program()`, `key.epoch()`, `key.marks()`, `key.changed_sectors()` | the parts of a key |
//! | `key.shard()` | which of 16 shards has the key |
//! | `initial_number(log)` | the number by which a report tells the initial content of a log, or `None` |
//!
//! # Place
//!
//! It stands on `epochs` and `choices`, whose plan and choices it takes, on `logfmt`
//! for the contents of the units, on `lanes` to form torn sectors and to compare sectors, and on
//! `helpers`, whose trait `Device` a view implements. Programs are run on views, and a cache of their
//! outcomes goes by keys. The rules are those of docs/CRASH-MODEL.md, 'Fates and choices', 'Crash
//! image', 'Context of an image' and 'Keys of images'.
//!
//! # What is proved
//!
//! Contracts see a history as its plan, and a view as a log, a cut and the departures; what either
//! keeps in memory is its own matter.
//!
//! - The sectors of a view are `crash_image` of the log, the cut and the departures
//!   (`specs/Images.antt`): byte i of sector s is byte i of the last of the units before the cut that
//!   write it, `filter (writes ..) (units_before ..)`, and that of the initial content where no unit does.
//!   The definition is a filter of a list of units, byte by byte; the code finds a unit and borrows its
//!   sector.
//! - `History::view` answers the view of exactly its choice, which has to be one of the plan
//!   (`IsMember`, `specs/Views.antt`): such as `choices::nth` and `choices::next` give.
//! - `View::context` is that of the cut: the log's number of sectors, its flush entries and its marks
//!   before the cut, each at most 65,536.
//! - `View::key` is `key_of` of the view and the program (`specs/Keys.antt`), which is none exactly where
//!   more than 64 sectors differ from the base, and so is `Changes::key`, of program 0, whatever it was
//!   asked for before. `Key::set_program` leads from it to that of another program (`told`), and
//!   `Key::shard` is `shard_of`.
//! - `==` of keys is `same_key` and a hash is fed `key_input` (`specs/Equal.antt`). Sectors are compared
//!   byte by byte, and hashed by their mixes.
//!
//! These laws stand over the definitions (`specs/Laws.antt`):
//!
//! - A byte is that of its last writer (`last_writer_shows`), and what one more unit changes is the table
//!   above (`fates_show`).
//! - Cuts of one epoch have one base, and in epoch 0 it is the initial content (`epoch_has_base`).
//! - Two keys of one log are the same exactly where program, context and image are (`keys_tell`).
//! - `==` answers whether two keys are the same (`equal_keys_are_same`), so a map finds a key exactly
//!   where it has that key.
//! - What an image has in a sector hangs on those departures alone whose parts cover it (`covering_tells`,
//!   `specs/Covering.antt`). So two choices of a cut, of which one has the other's departures and beside them none whose part
//!   covers one of some sectors, have the same bytes in these (`touching_tells`).
//! - A crash image is a device of the log's size, of sectors of 512 bytes, and the numbers of its context
//!   are at most 65,536 (`images_are_devices`).
//!
//! `view` and `Changes::new` take no memory, and `view` always answers `Ok`. Where memory is refused
//! `History::new`, `key` and `copy` answer `AllocError`. Nothing else is refused.
//!
//! # How it is written
//!
//! A history keeps a version table (`table`): all units of the log by the sectors that they cover, and those of one sector in their
//! order (`specs/Table.antt`). It has no content, and is sorted once; a word for every 64 sectors says where they begin.
//! So a large device costs little but what is written to it. Searches by halves find the units of a sector, and those of them before a
//! cut.
//!
//! A view borrows the table. A sector of it is the content of the last of those units that is not
//! dropped, where it lies in the log, or that of the initial content, which the log keeps, or a sector of
//! zeros (`borrow_sector`). No image and no worker has a copy of it. A part that departs has a
//! fate over all of its bytes; `share_of` in `image` says what that makes of one of its sectors: the
//! sector is whole, dropped, or torn as a part of one sector is. Where the unit that shows is torn the
//! view owns the sector: `torn_sector` forms these when the view is made, one for each departure that tears its
//! part, so at most three, by `lanes::splice` of the unit's content and of what the units before it
//! leave, back to the last whole one (`form_sector` in `image`). An image in which no part is torn owns none.
//!
//! `changes` makes keys. It keeps the sectors in which the image where nothing departs differs from the
//! base, and carries this list to a later cut by adding what the entries between the two write; after
//! a further flush, or at an earlier cut, it begins anew at the flush entry (`specs/Changes.antt`). The
//! key of an image is this list, but for the sectors of the parts that depart, which are compared with
//! the base. `listing` keeps such a list in order: one search by halves for each sector.
//!
//! A changed sector (`changed`) borrows its bytes from the log and keeps their mix, so a key with
//! n sectors has 32 n bytes beside its own 48. Where a torn unit shows it owns its 512 bytes
//! (`content`), in at most three sectors. `key` has the type, its shard, and how it is compared.
//!
//! # Example
//!
//! ```
//! use choices::nth;
//! use helpers::Device;
//! use images::{Changes, History};
//!
//! // `log` writes sector 0 twice, first 0x11 and then 0x22, and `plan` has all of its cuts
//! let history = History::new(alloc, &plan, &log)?;
//! let view = history.view(alloc, &nth(&plan, 1, true, 34))?;
//! // the cut after both, of the second write only the first eighth arrived: bytes 0 to 63 of
//! // view.sector(0) are 0x22, and bytes 64 to 511 are 0x11
//! let mut changes = Changes::new(alloc, &history);
//! let key = changes.key(alloc, &view)?;
//! // there is no flush, so the base is zeros, and the key has one changed sector
//! ```
//!
//! # Choices
//!
//! - The definition of a crash image takes a log, where it took a number of sectors and a list of entries: it stands
//!   once, reads shorter, and no caller can pair the entries of one log with the device of another.
//! - A view borrows sectors of the initial content from the log. Where nothing of a unit shows in a sector, it asks
//!   whether the sector's first byte lies before the end of what is kept: no image, worker or key has a copy. A log
//!   without initial content keeps nothing, so that one comparison is all that it costs, and no sector in which a
//!   unit shows makes it.
//! - `Changes` carries the changed sectors from cut to cut, as a list without a limit: a key has 64, but a sector
//!   that is written back to its base leaves the list again. The list has at most a record of 32 bytes for each
//!   sector of the device.
//! - The shard of a key is defined by a sum that doesn't wrap, taken modulo 16: 16 divides 2^64, so the code's
//!   wrapping sum gives the same, which is proved.
//!
//! # How it is proved
//!
//! - A law that a device's `content` needs can't stand in proofs/. Cure: put it in specs/
//!   (`images/specs/Whole.antt`).
//! - Define the state after any list of units (`device_after es us ds` in `images`), and let the step ensure it for
//!   every list: `(us : List ..) → old ≡ .. us → new ≡ .. (us ++ unit ∷ [])`. Each loop's answer is then one line.
//! - What is lost or torn is a map from units to fates: `DepartOnce` says that each unit is lost or torn at most
//!   once, `fate_at` looks its fate up (`images/src/image.rt`). One lemma (`fated_survives`) leads to the definition,
//!   which goes by all of them. A new fate is then one arm (`lay_over`), stated byte by byte by `keeps`. Where a part
//!   has several sectors, `share` says what the part's fate makes of one of them: none where it takes nothing of it,
//!   else a fate of a part of one sector. One lemma (`keeps_by_share`) leads from the part's bytes to that, for bytes
//!   below 512, and no law above it knows of parts. Products such as `t * n` stay one variable for `omega`. While
//!   every fate was a head, a unit's fates could be taken as the minimum of what each keeps. That was shorter, and
//!   had nothing to say of a tail.
//! - **A list kept in order under single changes** is stated by a recursion over the places (`changes base image a k`
//!   in `images/specs/Changes.antt`), over functions from places to contents. One lemma splits it at a place. Then
//!   replacing, inserting and removing are one lemma more (`relisted_is` in `images/proofs/Listed.antt`), and
//!   `changes_alike` leads from one description of the image to another.
//! - A loop that changes an image place after place keeps 'some image that is the wanted one, but at places that are
//!   still to come' (`Towards` in `images/proofs/Departing.antt`). Then the same place may come twice.
//! - Prove `Decides (eq a b) (a ≡ b)` once in specs/. Then the laws of `Eq` take four lines and `respects_eq` of
//!   `Hash` is one `ap` (`images/specs/Equal.antt`). `eq` and `hash` over `unfoldable` words are auto with
//!   `unfolding(..)` on the method, the generic hasher included.
//! - **A table is stated by what is read of it.** `IsTable log units` says of each sector, however large, that its units in the table
//!   are those of the log, in order, which is what a stable sort promises; and that the table rises, which a search needs.
#![tactic(auto)]

mod changed;
mod changes;
mod content;
mod history;
mod image;
mod key;
mod laws;
mod listing;
mod number;
mod table;
mod torn;
mod versions;
mod view;

pub use changed::ChangedSector;
pub use changes::Changes;
pub use history::History;
pub use key::Key;
pub use laws::{
    covering_tells, epoch_has_base, equal_keys_are_same, fates_show, images_are_devices, keys_tell,
    last_writer_shows, touching_tells,
};
pub use number::initial_number;
pub use view::View;
