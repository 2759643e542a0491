//! A model beside the product, on which no contract of the product rests: the exploration of a run as a list of events, without
//! threads.
//!
//! Workers draw blocks of jobs into their lists, take them out of their own or another's, judge them by a
//! shared cache of outcomes, and hand over what they found.
//! Here the whole of it is a plain state, and each atomic step of a worker is an event. A schedule of
//! threads is then a list of events, and what holds after every list holds under every schedule
//! (docs/PROVED.md, Threads and the cache).
//!
//! | Type or call | What it is |
//! |---|---|
//! | `Job` | an image with a checker: the image's number, a key, the outcome, and whether it fails |
//! | `Jobs::new(blocks)` | jobs in blocks; none exactly where an image falls, or equal keys have unequal outcomes |
//! | `Event` | `Draw`, `Take`, `Look`, `Put`, `Post`, `Pass`, `Done`, `Quit`, each of a worker |
//! | `Explore::new(alloc, jobs, workers, first)` | the state at its start: all workers are idle |
//! | `step(alloc, explore, event)` | one event; unchanged where memory is wanting |
//! | `run(alloc, jobs, workers, first, events)` | the state after a list of events |
//! | `next()`, `least()`, `pieces()` | how often a block was asked for, the least image posted, what was handed over |
//!
//! # Place
//!
//! It stands on `base` alone and has no thread, lock or device. The layers with threads answer to it: a
//! draw of the board of `shares` is one `Draw`, what a hand there takes one `Take`, a post one `Post`, the
//! load of the least image that in `Pass`, and a look or a put on a locked shard of the cache is one `Look` or `Put`. That the images and
//! checkers of a run are jobs, as they are meant here, is a law of `run_jobs`, which stands on both.
//!
//! # What is proved
//!
//! `after` (`specs/State.antt`) says by cases what each event makes of the state. `step` gives it, `run`
//! gives it after a whole list, and where an event's condition fails, as where there is no such worker,
//! nothing changes (`unless_it_may`). After every list of events (`IsSound` in `specs/Sound.antt`):
//!
//! - every entry of the cache is true: jobs with its key have its outcome;
//! - the least image posted is that of a failing job;
//! - lines handed over are the failing jobs of their block, and a piece that was passed over names a
//!   failing image before all of its block;
//! - each block that was drawn is in one list or hand, in one piece or lost by one worker that quit.
//!
//! A block in a list counts as held. Where all blocks are drawn and none is held or lost, the pieces by block are all failing jobs in order
//! (`whole_is_failing`), or, where some were passed over, begin with the lines of the first failing image
//! (`whole_begins_with_first`).
//!
//! # How it is written
//!
//! `explore` has a method for each event. It looks at the worker's hand first, and asks for memory before it changes anything.
//! What it looks for in hands, and what it changes there, are calls of `hands`, over the hands alone; `lists` has the lists of
//! all workers in one. `job` tests jobs without memory, each against all.
//!
//! # Example
//!
//! ```
//! use explore_core::{Event, Explore, Jobs, step};
//!
//! // `blocks` has two blocks of jobs, whose images never fall
//! if let Some(jobs) = Jobs::new(blocks) {
//!     let mut explore = Explore::new(alloc, &jobs, 2, false)?;
//!     step(alloc, &mut explore, &Event::Draw(0))?;            // block 0 is in the list of worker 0
//!     step(alloc, &mut explore, &Event::Take(1, 0, 0))?;      // worker 1 has it in hand
//!     step(alloc, &mut explore, &Event::Done(1))?;            // nothing changes: its jobs aren't judged yet
//! }
//! ```
//!
//! # Choices
//!
//! - In the exploration as a list of events a line is a job with the outcome that was taken; whether it fails is the
//!   job's own: equal keys promise equal outcomes, and nothing else.
//! - In the exploration as a list of events the workers' lists stand in one list of pairs, of a worker and a block,
//!   and a worker that found no block left is no hand `Ended`: only Quit ends a worker: a block is in one list at
//!   most, by the count of its pairs; such a worker may still take.
//!
//! # How it is proved
//!
//! - One lemma for each event over `(hand : Option WorkerHand) → slice_get hands w ≡ hand → ..`, with the cases of the hand
//!   inside, is 30 to 40 lines and proves at once (`explore_core/proofs/Sound.antt`).
#![tactic(auto)]

mod cache;
mod event;
mod explore;
mod hand;
mod hands;
mod job;
mod laws;
mod lists;
mod piece;

pub use event::{Event, Keys};
pub use explore::{Explore, run, step};
pub use hand::WorkerHand;
pub use job::{Job, JobList, Jobs};
pub use laws::{every_run_is_sound, unless_it_may, whole_begins_with_first, whole_is_failing};
pub use lists::Drawn;
pub use piece::{BlockFindings, HandedBlock};
