//! The notes of a command: what stands on standard error after a refusal, or beside an answer (docs/REFUSALS.md, Notes).
//!
//! `after.rt` and `beside.rt` have the two, `held.rt` what files hold, `refused.rt` where a program is refused, `headers.rt` the header of an entry that is refused for it, `breach.rt` the
//! instruction at which a program is refused, `unreached.rt` the instructions that no path reaches, `blind.rt` the programs that look
//! at nothing of what a log writes, `promises.rt` the marks that promise what nothing made durable, `large.rt` the entries that no
//! image loses as a whole, `forced.rt` those with FUA, `left_out.rt` the cases that a clean run left out, `untold.rt` what records
//! of a program didn't tell, and `no_cuts.rt` that no cut is wanted.
#![tactic(auto)]

mod after;
mod beside;
mod blind;
mod breach;
mod forced;
mod headers;
mod held;
mod large;
mod left_out;
mod no_cuts;
mod promises;
mod refused;
mod unreached;
mod untold;

pub use after::notes_after;
pub use beside::notes_beside;
