//! The work of a run: it judges crash images of a plan by checkers, all of them or a range, and collects the failing lines.
//!
//! The images of a run are numbered from 0, and there may be any number of them below 2^63. Those from one on to before
//! another are judged, at most 16,777,216; the whole run is from 0 to the number of its images. They fall into blocks of
//! 64 in a row, of which the last may be shorter. A block is judged as one piece of work: each of its images by each
//! checker. A checker that does not answer 0 on an image makes a line, which has the image's own number.
//!
//! | Type or call | What it is |
//! |---|---|
//! | `Input::new(plan, starts, history, checkers, by, asked)` | what is judged |
//! | `AskedRun` | what is asked of a run, by names: bound and tears, the first failing image or all, how many workers, how large a cache, and which images |
//! | `judge_block(rt, alloc, input, shards, block)` | the piece of a block: its lines, by image and then by checker |
//! | `Piece::passed(block, image)` | the piece of a block that was passed over after a failing image, less the first one that is judged |
//! | `collect(alloc, pieces, from, blocks)` | all lines, of pieces in any order; refused where a block has two pieces or none |
//! | `explore_all(rt, alloc, gate, input)` | the work as a whole: the failing lines, in order |
//! | `Gate` | is told how many images are judged, and of each block before and after it is taken |
//!
//! Workers share the board of `shares`, from which each takes blocks by its hand until there is none left,
//! and the shards of `verdict_cache`. The caller is worker 0, each other one has a thread of its own where one can
//! be made. Before a checker is run, the shard of the image's key (`cache.rt`) is asked for what it ends in; where it
//! has nothing, the checker is run and the outcome put there. An image without a key is judged without
//! the cache, and without a cache no key is made.
//!
//! What a checker can't tell apart is judged once. Where a cut has 64 images and more, and there is no cache, a
//! worker keeps for each checker what it ends in on some images of the cut, and which parts its run could tell
//! there (`entries`, by footprints). Images whose outcome follows from that are not judged: where all checkers
//! find them good they are passed over by their number (`reuse`).
//!
//! A worker posts the first failing image of each block. What is posted is a number below 16,777,216: the image's, less the
//! first one that is judged. With `first` a run looks for the first failing image alone: a block whose images all lie after
//! a failing image that was posted is then passed over. None of its images is formed, and its piece names what was posted.
//!
//! # Place
//!
//! It stands on `choices` and `images`, which number and form the images, on `checker`, which judges them, on
//! `interp`, which has what a run ends in, on `soundness` for its law alone, on `shares` and `verdict_cache`, which the workers
//! share, on `report`, which keeps failing lines (`lines`), and on `base`, which has the type of a refusal. `runs` calls it.
//!
//! # What is proved
//!
//! `failing_lines` (`specs/Failing.antt`) says what a run finds: the lines of each image that is judged with each
//! checker whose ending there, by the definition of the machine on the definition of the image, is not a
//! verdict with answer 0. A law stands above it (`lines_are_set`): it has exactly these lines, by image
//! and then by checker, each once. A second law (`accepted_checkers_run_safely`, `specs/Safe.antt`): a checker
//! that the verifier accepts for the device of the log meets no fault on any image and ends in a verdict within
//! its budget, so each of its lines is that of a verdict; one that is accepted with guards may also stray at a guarded
//! slot. It rests on `soundness`, and on `images_are_devices`.
//!
//! - `judge_block` gives exactly the block's part of it, whatever other workers do to the shards: what a
//!   shard has is true by its type. What a worker knows by footprints is true of the run and of the cut at hand
//!   (`IsTrueOf` in `specs/Local.antt`), and the lines of images that are passed over are none.
//! - `collect` gives the lines of the pieces by block. It is refused at the lowest block with two pieces,
//!   or else at the lowest without one. A passed piece counts as none where the image that it names is
//!   not before all of its block, or precedes every failing image of the full pieces. Full pieces of a
//!   run, one of each block, have its failing lines (`collection_is_failing`); where some were passed,
//!   what is collected is all lines of the first failing image, and then some of the others
//!   (`collection_begins_with_first`).
//! - `explore_all` gives all failing lines, or with `first` all those of the first failing image and
//!   some of the others, for every number of workers and every size of the cache. It is refused for want
//!   of memory alone: no block is lost or counted twice, however the workers run.
//!
//! The last rests on what a worker comes back with (`HasTaken` in `specs/Taking.antt`). Its pieces are of the
//! run; an image in a passed piece was found posted; and of what it posted each image fails in one of its
//! full pieces (`HandsOver`). The blocks of its pieces, with those that it pushed and those in its list, are
//! together, each as often, those that it drew, popped or stole. Two workers together hand over what both
//! have (`both` in `proofs/HandingOver.antt`).
//!
//! When all are back, `blocks_left` of `shares` takes their hands and answers what is left in them. Summed up
//! over all workers (`AreBack` in `specs/Crew.antt`), the blocks of the pieces and the blocks left are, each as
//! often, those that the seats drew. `gather` says that each block was drawn once, and that what was found was
//! posted. So no block was lost. The caller judges what is left (`with_left`), no piece is thrown away, and of
//! each block one piece is collected. In fact nothing is left, which is tested.
//!
//! Only tests show that more than one thread works, that workers steal, and that the cache is asked.
//!
//! # How it is written
//!
//! `row` finds the first choice of a block by its number, and then goes on from choice to choice: at cuts where
//! footprints may tell something by its picks alone (`judge_next`), and else as choices (`judge_cut`). `judging`
//! judges one image, by runs, with the cache, or with what is known by footprints.
//!
//! `local` is what a worker keeps from one image to the next: the changes of the cut at hand, for keys, and a `Reuse`.
//! `reuse` has for each checker its `Entries` of that cut, and the picks with which the next block begins. It answers how
//! many images in a row all checkers find good, or else which checker isn't known to, and what that one ends in
//! where that is known (`look`). `entries` has what one checker ends in on some choices of the cut, and which of its
//! volatile parts a run there could tell. It finds the entry that holds for an image, and where a choice has none
//! yet, it runs the checker there. `told` has the searches of `entries` in lists of parts and of departures.
//!
//! `worker` has what a worker judges with, the input, the shards and the gate.
//! `block_lines` keeps the least image beside the lines of a block, and takes room only where there is a line.
//! `taking` is one worker, and `crew` sends
//! them out and waits for them; `settling` judges the blocks that are left in their hands. `collecting` puts
//! the pieces into a table with a row for each block, and notes the lowest block that comes twice and the
//! least failing image. `exploring` puts all together; there a
//! run gets its name, a type parameter that only contracts read, so that its shards are its own.
//!
//! # How it is proved
//!
//! - A table that is filled in any order: one record over plain variables (`AreRows` in `workers/specs/Table.antt`) says each row by how
//!   often its block came. Two lemmas say what one more piece does (`put_more`, `put_new`).
//! - A law 'sound, complete, in order' over `flat_map` and `filter_map` of ranges: carry `Each P` and `Ordered` by cases through both
//!   (`of_image`, `of_images` in `workers/proofs/Sets.antt`). Find a member by `in_options` and `in_lists`.
//! - Where several threads have a share of one result, state what one hands over as a record over lists (`HandsOver` in
//!   `workers/specs/Taking.antt`). It wants a lemma for one more piece, one for a step that changes nothing of it, and one that joins two
//!   shares (`both`). The whole is then an induction over the workers, and only the last step (`whole_run`) looks at the board.
//! - Where what a structure gave out is to be known when its users are back, its rule has a right to know the whole, in parts
//!   (`DequeRule` in `shares`). Each port has a part, one that ends gives it back (`absorb`), and a port without a part has got nothing.
//!   Who has every part has all in its own view.
//! - `thread::map_vec` with a closure that repeats what the called function requires, and a word for what it ensures (`IsDone`), needs no
//!   answer. Nor does a function that locks a shard, looks, runs and puts (`outcome_of`).
//! - **Where `X: Send` of a `map_vec` isn't found**, prove `IsSend T.the_row` as closed lemmas, one for each type from the inside out
//!   (`Part-send`, `Seat-send`, `Piece-send`, `Done-send` in `proofs/Crossing.antt` of `report`, `shares`, `workers`). Then answer
//!   `search (Done-send, sendable) depth 40`. A search in the answer tries hundreds of fields of `c`; a closed lemma has none, and its
//!   message names the type that stops it. The `Send` of a type of a library with a lemma of its own is
//!   `Rattle.LIB.proofs.MOD.Type.TheSendSync.{the_send}`. Where the type has a parameter, a search in the answer comes to its limit, and
//!   the answer is a term: `param_send 2 _ (arg_send _ no _ (Done-send _ g.H.Deal c.type_bounds.send-H))`. The goal's row is `arg`, with
//!   the layout and `denote.Exit.no`, of the type's own row. `Done-send` takes the row of `H`, its ghosts and its `Send`.
//! - **What is known by footprints.** A worker's `Local` has a `Reuse` beside its changes: for each checker the `Entries` of the cut at
//!   hand, their place, and the picks with which the next image begins. An entry has a revealed choice by its picks, what the checker
//!   ends in there, and the numbers of the volatile parts that cover a sector of the footprint, rising; or 'all'. What is proved of it is
//!   `IsKnown`: it holds of every choice of its cut that has its picks and no told part beside them. So `judge_image` and `judge_block`
//!   keep their contracts.
//! - Entries are appended, at most 1,024, and their parts stand in one list of about 65,536 numbers. An index of 4,096 places finds an
//!   entry by a hash of its picks. What it finds is compared, so nothing is said of the index, and it is never cleared. At another cut
//!   two lengths become 0.
//! - A Mutex is `Unit` in contracts. Make the list of unlocked values in a function of its own with an exact clause, and lock them in a
//!   second loop. `impl Run for Brand` stands beside the trait; a test picks by `ghosts-F g a = record { plan = a.plan.now; checkers =
//!   a.checkers.now }`.
//! - What changes goes beside a record of parts that go together, as a parameter of its own. A record with a Model that is passed as
//!   `&mut` and promises `new ≡ old` costs a `rw` in every caller's proof (`Worker` in `workers`). It may be generic, with a `pub ghost`
//!   clause over its type parameter. In a method take a field that is a reference out first, `let input = self.input;`, where a call
//!   borrows through it.
//!
//! # Example
//!
//! ```
//! use epochs::By;
//! use std::marker::Brand;
//! use std::sync::Mutex;
//! use verdict_cache::{Shard, shards};
//! use workers::{AskedRun, Input, OpenGate, Piece, collect, explore_all, judge_block};
//!
//! // `plan` has 200 images, `starts` is its table of choices, and the checker answers 1 on image 150 alone
//! let asked = AskedRun { bound: 1, tears: false, from: 0, to: 200, first: false, workers: 2, cache: 0 };
//! let whole = Input::new(&plan, &starts, &history, checkers, By::Sector, asked);
//! let blocks = whole.block_count();                           // 4: the last block has 8 images
//! let work = explore_all(rt, alloc, &OpenGate, &whole)?;      // `work.lines` has one line, of image 150
//! // the same by hand, of the images from 100 on
//! let asked = AskedRun { bound: 1, tears: false, from: 100, to: 200, first: false, workers: 2, cache: 0 };
//! let part = Input::new(&plan, &starts, &history, checkers, By::Sector, asked);
//! let blocks = part.block_count();                            // 2: of images 100 to 163, and 164 to 199
//! let shards: Vec<Mutex<Shard<'_, Brand>>> = shards(alloc, &history, checkers, 0)?;
//! let piece = judge_block(rt, alloc, &part, shards.as_slice(), 0)?;
//! let least = piece.least_image();                            // Some(150)
//! // all of block 1 lies after image 100 + 50, so it may be passed over
//! let pieces = vec![in alloc; Piece::passed(1, 50), piece]?;
//! let lines = collect(alloc, pieces, 100, blocks)?;           // the same line
//! ```
//!
//! # Choices
//!
//! - The type parameter that names a run stands in shards alone, and is picked inside `workers`: what a piece has is
//!   told by the contracts of the calls that lead to it, so `Input` and `Piece` need none.
//! - A piece has no type parameter for its run; `collect` speaks of the pieces' values, and a law says what pieces of
//!   a run collect to: a piece is a value that its maker hands over with what it is, so no type has to carry it.
//!   Shards do have the parameter, since a lock tells nothing but a type.
//! - A worker posts the first failing image of each block also without `--first`: one atomic step for a failing block
//!   costs nothing beside its images, and one rule serves both.
//! - A worker that finds no memory comes back with its seat and without its pieces, and the others go on: the answer
//!   is then 72, before the board is asked; no worker waits for another.
//! - A gate is told of a passed block too, before and after: every block that is drawn passes through the gate,
//!   whatever becomes of it.
//! - What is kept is of one cut, and by its place in the plan: the context and the parts that may be lost are the
//!   cut's own, and a worker goes from cut to cut.
//! - A choice with as many departures as the bound allows is run and not kept: no other choice would ask for it.
#![tactic(auto)]

mod block_lines;
mod cache;
mod collecting;
mod crew;
mod entries;
mod exploring;
mod found;
mod gate;
mod input;
mod judging;
mod laws;
mod local;
mod look;
mod piece;
mod reuse;
mod row;
mod settling;
mod taking;
mod told;
mod worker;

pub use collecting::collect;
pub use exploring::{Work, explore_all};
pub use gate::{Gate, OpenGate};
pub use input::{AskedRun, Input};
pub use laws::{
    accepted_checkers_run_safely, collection_begins_with_first, collection_is_failing,
    lines_are_set,
};
pub use piece::{BLOCK, Piece};
pub use row::judge_block;
