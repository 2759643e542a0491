//! The verdict cache: what checkers ended in, by the keys of images, in sixteen shards.
//!
//! Crash images of one log often show a checker the same: another choice, or another cut, leaves the
//! same bytes after, with the same epoch and the same marks. Such images have one key (`images`), and
//! a checker ends on all of them in the same. So a worker that is to judge an image looks for its key
//! first, and runs the checker only where no one has judged that key lately.
//!
//! | Call | Does |
//! |---|---|
//! | `shards(alloc, history, checkers, size)` | makes the shards of a run, empty, each after a lock |
//! | `shard.look(key)` | answers the outcome that is listed for a key, which becomes the most recently used |
//! | `shard.put(key, outcome)` | lists an outcome for a key, and says what became of it (`Kept`) |
//! | `shard.number()`, `shard.capacity()` | answer which shard it is, and how many entries there may be |
//! | `shard.hits()` | answers how many looks have found an entry |
//!
//! # Place
//!
//! It stands on `images`, whose keys it goes by, on `interp`, whose outcomes it keeps, and on the library
//! `lru`, a map of bounded size. Those who judge images stand above it: a key belongs to the shard with
//! the number `key.shard()`, and a shard is used while its lock is held. An image without a key is
//! judged without the cache. The rules are those of docs/PROVED.md, 'Threads and the cache', and
//! docs/CRASH-MODEL.md, 'Keys of images'.
//!
//! # What is proved
//!
//! Contracts see a shard as a number, a list of entries, the most recently used first, a capacity, and a
//! count of hits (`specs/Shard.antt`).
//!
//! - Each entry is true: its outcome is what the checker ends in on every image of the run that has the
//!   key together with that checker (`IsEndingOf`, `specs/Endings.antt`). A shard's type keeps that, so
//!   whoever gets the lock finds it so, whatever other threads have done, and may take what `look`
//!   answers for the outcome of his own image. `put` asks for it; by the law `one_image_tells` whoever
//!   has judged one image has it.
//! - `look` answers the listed outcome, brings its entry to the front and counts one hit more, or answers
//!   `None` and changes nothing. It takes no memory.
//! - `put` brings the entry to the front. Its answer is determined by the entries, the capacity and the
//!   key (`Answers`, `specs/Puts.antt`), but that memory for a new key may be refused; the entries after
//!   it are `entries_after` that answer.
//! - The shard of number i has the capacity `size / 16`, and one more where i is below `size % 16`
//!   (`share_of`, `specs/Sizes.antt`). A shard's type keeps that too, so `look`, `put` and `capacity` say
//!   so to whoever holds the lock.
//! - `shards` answers sixteen. That they are those of the numbers 0 to 15 in this order, without entries,
//!   is the contract of the private function that makes them (`first_shards`); another puts each after
//!   a lock, and no contract can name what lies there.
//!
//! # Memory
//!
//! An entry's key borrows the sectors of the log, so the shards of a run live no longer than its
//! history. An entry takes some 300 bytes, and 32 for each changed sector; where a torn unit shows in a
//! sector, 512 more. So 65,536 entries of at most 16 changed sectors, none torn, stay below 64 MiB. At
//! worst each key has 64 changed sectors, three of them torn: some 250 MiB.
//!
//! Keys are hashed by the mixes of their sectors, and the mix is linear. A log can be made so that all
//! keys of a shard are hashed alike; then a look compares one entry after the other. It makes a shard
//! slow, and never wrong.
//!
//! A trait, `Run`, names the plan, the checkers and the size in the types of the shards. Only contracts
//! read it.
//!
//! # Example
//!
//! ```
//! use checker::RunMemory;
//! use images::Changes;
//! use std::marker::Brand;
//! use verdict_cache::shards;
//!
//! // once a run, whose name a type has
//! let shards = shards::<Brand>(alloc, &history, checkers, 1_000)?;
//! // once a worker
//! let mut changes = Changes::new(alloc, &history);
//! let mut memory = RunMemory::new(alloc, checkers)?;
//! // once an image
//! if let Some(mut key) = changes.key(alloc, &view)? {
//!     // once a checker
//!     key.set_program(0);
//!     let shard = &shards[usize::from(key.shard())];
//!     let kept = shard.lock(rt).look(&key);
//!     if kept.is_none() {
//!         let outcome = checkers[0].judge(&mut memory, &view.context(), &view);
//!         shard.lock(rt).put(key, outcome.copy());     // the next look for that key answers the outcome
//!     }
//! }
//! ```
//!
//! # Choices
//!
//! - `Shard` needs the plan and the checkers of the run alone in its parameter (`Run`); a caller picks them at one
//!   call: what a shard keeps speaks of nothing else.
//!
//! # How it is proved
//!
//! - `lru`: `peek`, then `promote`; `put(..).is_err()` after the tests `contains` and `len`. State an invariant of
//!   all entries over `Contains entries (key, value)`, of which its caller lemmas speak.
#![tactic(auto)]

mod kept;
mod laws;
mod making;
mod run;
mod shard;

pub use kept::Kept;
pub use laws::one_image_tells;
pub use making::shards;
pub use run::Run;
pub use shard::Shard;
