//! What is said of programs and logs beside an answer or a refusal: a listing with its slots, and the parts of notes
//! (docs/REFUSALS.md, Notes).
//!
//! | Module | Has |
//! |---|---|
//! | `command_notes` | which notes stand after a refusal of a command, and beside its answer |
//! | `listing` | a listing with its slots |
//! | `sources` | at which line of C each slot of a program comes, and its place after what is said of the slot |
//! | `known`, `device` | what is known of registers; the least device that holds a log |
//! | `line`, `cures` | a line of a note, and what most likely helps against a refusal |
//!
//! # Place
//!
//! On `logfmt`, whose logs it measures, on `crash_text` for the line of an entry, on `bpf_isa` and `bpf_asm`, whose instructions it
//! writes as the assembler does, and on `ranges`, whose states it puts into words. `command_notes` chooses which notes are said of a command: of its `Words`
//! (`command_line`), what its files hold, and what its run knows (`RunFacts` of `request`). For what is said of a log by itself it is read
//! once more (`log_facts`), and a program that is refused is verified once more (`breach_of`). `commands` hands both calls to the program,
//! whose status and standard output they don't touch. No rule of a log or a program is known here but in words.
//!
//! | Call | Says |
//! |---|---|
//! | `numbered_listing(alloc, program)` | the listing, each line after its slot |
//! | `put_slot(out, slot, instr)` | a line of it |
//! | `put_note(out, text)` | one line of a note |
//! | `put_refused(out, rule, cure)` | what a refusal means, and what helps, if anything is known |
//! | `put_known(out, instr, state)` | what is known of the registers that an instruction reads, and what an access wants |
//! | `put_least(out, log)` | the size of the least device that holds a log |
//! | `source_lines(alloc, bytes)` | the lines of a text that says at which line of C each slot comes; none where it is no such text |
//! | `put_source(alloc, out, lines, slot)` | the place in C of a slot, as ` # check.c:41` |
//! | `log_cure`, `code_cure`, `asm_cure`, `verifier_cure`, `guarded_cure` | what most likely helps against a refusal; what it means is the text of its cause |
//!
//! Of `command_notes`:
//!
//! | Call | Answers |
//! |---|---|
//! | `notes_after(alloc, words, files, refusal)` | what the number of a refusal means there, the instruction, entry, option or file that is meant, and what most likely helps |
//! | `notes_beside(alloc, words, files, facts)` | beside an answer: what no run of a program reaches, which programs pass without looking at what the log writes, which marks promise what nothing made durable, how many writes never depart as a whole, how many entries with FUA aren't torn, that no cut is wanted, and that an image loses at most one part |
//!
//! # What is proved
//!
//! Each call answers or appends exactly the text of its definition over the value that it is given (`specs/`), and
//! `put_least` the least size on which each entry lies. The sentences of `cures` have no clause: tests of the program have
//! a row for each.
//!
//! ## `command_notes`
//!
//! Which notes are said is no part of a contract; the texts of their parts are proved. The note of what no
//! run reaches is exactly that of `specs/Unreached.antt`: how many instructions of an accepted program no run reaches, and
//! the slot of the first, as `unreached_of` of `verifier` answers them. That of programs that look at nothing of what a log writes is
//! that of `specs/Blind.antt`, with the numbers of those of which `runs` found it. Those of marks and of FUA are those of
//! `specs/Promises.antt` and `specs/Forced.antt`, with what `request` found of the log, and that of no wanted cut is that of
//! `specs/NoCuts.antt`. Runs of the built program have a row for each note.
//!
//! # Example
//!
//! ```
//! use notes::numbered_listing;
//!
//! let listing = numbered_listing(alloc, &program)?;
//! // "0: lddw r1, 7\n2: exit\n"
//! ```
//!
//! The notes of a command:
//!
//! ```
//! use notes::command_notes::{notes_after, notes_beside};
//!
//! // the words asked for a bound of 4, which was refused
//! let after = notes_after(alloc, &words, files, &refusal)?;
//! // note: --bound is 0 to 3
//! let beside = notes_beside(alloc, &words, files, &facts)?;
//! // of another run, beside its answer
//! ```
//!
//! # Choices
//!
//! - The note that `--guards` may accept a program stands where what is known at the refusal breaks no rule with
//!   guards: that is so at 51 to 55, at 50 of a register that is set, and at 56 but for the length of `copy`. The
//!   rules are asked at one slot, so it costs nothing.
#![tactic(auto)]

pub mod command_notes;
mod cures;
mod device;
mod known;
mod line;
mod listing;
mod sources;

pub use cures::{asm_cure, code_cure, guarded_cure, log_cure, verifier_cure};
pub use device::put_least;
pub use known::put_known;
pub use line::{put_note, put_refused};
pub use listing::{numbered_listing, put_slot};
pub use sources::{SourceLine, put_source, source_lines};
