//! The crash images of a plan as a text, for programs that judge them outside: each image by what differs from the last that was
//! new.
//!
//! Most crash images of a log have the bytes of another. Whoever runs a recovery on all of them needs each such image once. So the
//! text says of each image that it is new, with the sectors in which it differs, or which earlier one it is the same as:
//!
//! ```text
//! image 1 cut 1 epoch 0 marks 0 choice - new 1
//! image 2 cut 1 epoch 0 marks 0 choice 0.0:drop same 0
//! ```
//!
//! After a line with `new R` stand R records, each the number of a sector in 8 bytes and its 512 bytes. docs/OUTPUT.md, 'The text
//! of `export`', has the grammar, and what a reader does.
//!
//! | Call | Answer |
//! |---|---|
//! | `PlannedImages::of(log, plan, wanted)` | the images of a plan that are wanted: from a number to before another, by a bound, with tears or without |
//! | `export(alloc, head, &asked, output)` | writes a head, and then their text, as it is made |
//! | `Output::new(writer)`, `emit(&mut output, bytes)` | a writer that is asked no more once a write has failed, and writing all of some bytes to it |
//!
//! # Place
//!
//! Above `images`, whose crash images it tells of, `choices`, which numbers them, and `report`, which prints a choice. `inspect`
//! prints the text for the command `export`. It counts the images of its plan, makes `PlannedImages` of the options, and says why a
//! text is cut off; `StreamFault::Memory` is then its refusal for want of memory. Each `requires` of `PlannedImages::of` is a fact that it has
//! then: the bound of its options, the number that was counted, and a part of at most 16,777,216 images that lies within it.
//!
//! # What is proved
//!
//! `export` writes its head and then `export_text` (`specs/Export.antt`), to the byte. Where memory is refused or the writer takes no more, the
//! first bytes of it were written, and not all (`TakesPart`, `specs/Streaming.antt`): so the last line is then missing or cut. An
//! image is called `same` exactly where an earlier one has the same bytes and as many marks before its cut, and the first of
//! these is named. Of a new one the records are exactly the sectors whose bytes differ from those of the last new image before
//! it; the first begins at what the device held before entry 0.
//!
//! `exports_are_images` is the law above it, whatever the plan and the range (`ReadersHaveImages`, `specs/Laws.antt`). After the
//! line and the records of a new image the device of whoever writes the records is that image. The image that `same` names is an
//! earlier one, was new, and is what the device was then; it has the same bytes and as many marks, and none before it has. None
//! before a new image has.
//!
//! # How it is written
//!
//! `walk` goes from image to image. Each has a sum over its sectors (`sums`), in which a sector counts by its number and its mix
//! (`lanes`); it comes from the sum of the image before it, by the sectors in which the two differ. A map has each new image under a
//! key, made of its sum and the marks before it; where a key is taken by another image, the next free one after it stands for it.
//! So equal images are among those that a search from the key meets, and each one met is compared byte by byte (`IsIndex`, `IsFree`,
//! `specs/Kept.antt`): the sums only say where to look. With a new image stands the place of the last that is the same (`IsHeld`).
//! That one is compared, since it is near in the log.
//!
//! Two images of a log can differ in those sectors alone that a departure of one of them has, or that an entry between their cuts
//! writes (`agree`, `proofs/Elsewhere.antt`). These are compared, and those that differ are listed in order (`differing`). So an
//! image costs what departs and what is written between it and the image before it, and the last that is the same, or, where it is
//! new, the last new one; the size of the device costs nothing. Only the sum of the initial content goes over all sectors, once.
//! What is put goes to a `Stream`: it waits until there is a piece of 64 KiB, and is then written. The walk puts bytes and asks
//! only between images whether the stream is closed. What was put before and what is written and waits agree at each moment
//! (`Puts`): so one lemma says that some bytes and then more are all of them (`puts_more`). `writing` has `emit` and `Output`.
//! `image` holds a view with its cut and departures. It stands too for what the device held before entry 0, which no view shows.
//!
//! # Example
//!
//! ```
//! use choices::count;
//! use epochs::{By, Cuts, Plan};
//! use export::{Output, PlannedImages, WantedImages, export};
//!
//! // `log` writes sector 0 twice, first 0x11 and then 0x22
//! let plan = Plan::new(alloc, &log, Cuts::ALL, By::Sector)?;
//! let images = count(&plan, 1, false)?;
//! let wanted = WantedImages { by: By::Sector, bound: 1, tears: false, from: 0, to: images };
//! let output = Output::new(Vec::new(alloc));
//! let (written, output) = export(alloc, &[], &PlannedImages::of(&log, &plan, wanted), output);
//! // written: Ok(()); output.into_writer() begins with the line 'image 0 cut 0 epoch 0 marks 0 choice - new 0',
//! // and ends with 'total 6 new 3'
//! ```
//!
//! # Choices
//!
//! - Numbers of images in `export` are those of the run, and `same` names an image of the text: a line can be pasted
//!   to `image` and `show`; who reads a range needs nothing before it.
//! - `export` writes its text as it is made, a piece of some 64 KiB at a time, and its last line says that it is
//!   whole: a text may be longer than memory. One that is cut off lacks its last line, and the status is 2.
#![tactic(auto)]

mod asked;
mod differing;
mod image;
mod laws;
mod stream;
mod sums;
mod text;
mod walk;
mod writing;

pub use asked::{PlannedImages, WantedImages};
pub use laws::exports_are_images;
pub use stream::StreamFault;
pub use walk::export;
pub use writing::{Output, emit};
