//! What is asked: the options of a run, what a command line asks for, what every command reads of its log, and what notes say of logs,
//! programs and runs.
//!
//! | Module | Has |
//! |---|---|
//! | `settings`, `options`, `extent`, `any_losses`, `known`, `trials` | what is asked, with its ranges |
//! | `command` | what a command line asks for |
//! | `source` | a log read, and its plan |
//! | `facts` | what a command is given of a log, and what the notes beside its answer or after its refusal say |
//! | `inputs` | the number of a run's inputs, and the line that says of what a report is |
//! | `refusals` | the line of a refusal |
//!
//! # Place
//!
//! Above `logfmt`, `epochs` and `choices`, by which a log is read, its cuts are found and its crash images counted, above `report`, which
//! prints options, and above `verifier`, which accepts programs. Below those that answer: `runs` and `inspect` take `Options`, read their log here, ask here for its plan, and
//! answer what they know of their programs as `RunFacts`. `command_line` makes a `Request`. `command_notes` of `notes` asks here for what a
//! note says of a log by itself, or of a program that is refused. `commands` puts all of them together. No program is run here.
//!
//! | Call | Does |
//! |---|---|
//! | `Options::new(settings)` | tests what a run is asked, option by option, and keeps it |
//! | `options_of(words)` | the same, of options as the words of a command line have them |
//! | `losses_of(words, options)` | tests what is asked of any number of losses, beside good options |
//! | `known_of(words, options)` | tests what is asked of a search by records of a program, beside good options |
//! | `trial_of(words)` | tests what a run of a program on one image is asked |
//! | `read_recorded(alloc, bytes, initial, options)` | the log that bytes are, for a device of that size, over what it held before |
//! | `read_log(alloc, bytes, initial, options)` | the same with the flushes that are added |
//! | `plan_of(alloc, log, options)` | the plan of a log by the options, with how many crash images it has |
//! | `option_refusal_of(place)`, `unreadable(place)`, `bytes_refusal_of(fault)` | the refusal of an option, of a file, and of a program's bytes |
//! | `number_of_inputs(log, programs)`, `number_of_report(log, options)` | the number of the bytes of a log and of programs, or of a log and of a report's options |
//! | `number_line(alloc, number)`, `inputs_line(alloc, number, programs)` | the line that says of which log and options a text is, and of a report also of how many programs |
//! | `report_options(alloc, log, options, images)` | the line of the options of a report of the log |
//! | `fault_line(alloc, refusal)` | the line that a refusal prints |
//!
//! `Extent` says how many images a run may have and which of them are meant. `Request` has a variant for each command, with the options that the command takes, and `Which` says which crash image is
//! meant. `MOST_PROGRAMS` is a limit that more crates than this one need.
//!
//! Of `facts`:
//!
//! | Call | Does |
//! |---|---|
//! | `Recording::of(log, initial)` | the bytes of a log, with those that the device held before entry 0 |
//! | `recording.log()` | the bytes of the log |
//! | `recording.read(alloc, options)`, `recording.recorded(alloc, options)` | the log, as `read_log` and as `read_recorded` read it |
//! | `log_facts(alloc, recording, options)` | what notes say of the log: how many entries are too large to be lost as a whole, how many have FUA, how many are flush entries, how many cuts are wanted, and which marks promise what nothing made durable |
//! | `fewer_images(alloc, recording, options)` | where the log has too many images, with what there are fewer |
//! | `breach_of(alloc, bytes, sectors, guards)` | the instruction at which the verifier refuses a program, and what is known there |
//!
//! `RunFacts` has what notes say of programs and of a run: `runs` and `inspect` answer it. Of a search by records it has how much these
//! didn't tell (`Untold`).
//!
//! # What is proved
//!
//! `Options::new` answers what it was asked, and refuses exactly the first option that is out of its range, by its place
//! (`specs/Settings.antt`, docs/COMMANDS.md, Options). So whoever has `Options` has numbers in their ranges: 1 to 16,384 sectors,
//! at most 3 parts that depart, 1 to 64 workers, a cache of at most 65,536 outcomes, a limit of at most 10^9 steps, and no limit
//! where programs are accepted with guards.
//! `losses_of` answers how many parts may be torn, at most 3 and none without tears, and how many may be lost or torn, 1 to 64 where that
//! is bounded. It refuses exactly the first number that is out of its range, or option that doesn't go with any number of losses
//! (`specs/AnyLosses.antt`). `known_of` answers that and after how many cases the search of a cut ends, 1 to 16,777,216 where that is
//! asked. It refuses records without any number of losses first, then what `losses_of` refuses, then that number (`specs/Known.antt`).
//! `options_of` refuses the first word that names nothing, of those for cuts, parts, flushes and images, and then what they ask for
//! (`specs/OptionWords.antt`). `trial_of` refuses exactly the first number that is out of its range (`specs/Trials.antt`).
//!
//! Where `read_log` answers a log, the bytes are a text of a log for that device that has all entries and cuts that are named, and
//! the answer is that log over the initial content that is given, with the flushes that are added (`IsLogOf`). Where it refuses
//! them, the initial content is longer than the device, or it names the first fault of the bytes, or the first entry or cut that
//! the log doesn't have. `plan_of` answers the plan of the log with the kinds of cuts and parts that are asked for, and the number of
//! its crash images, at most as many as an `Extent` allows: 16,777,216, or where a part of the run is asked for, fewer than 2^63. It
//! refuses a log that has more, by the first cut with which there are more, and then one that lacks images of the part
//! (`specs/Source.antt`, `specs/Extents.antt`). Memory may run out in both. `fault_line` is `refused`, the number of the cause, its place and, if one
//! is at fault, the program (`specs/FaultLine.antt`).
//!
//! ## `facts`
//!
//! What is found of a log is exactly what the definitions of `specs/LogFacts.antt`, `specs/Fewer.antt` and `specs/Promises.antt` say of it,
//! with these options, and what is found of a refused program what `specs/Breach.antt` says: the rule that it breaks is one for which
//! the verifier refuses it, and there is one alone. Where there is no memory to count, nothing is found.
//!
//! Which marks promise too much is found in the time of one walk over the log: each entry is looked at for one mark alone
//! (`promises.rt`).
//!
//! # Example
//!
//! ```
//! use request::{Options, Settings, fault_line, plan_of, read_log};
//!
//! let mut settings = Settings {
//!     sectors: 1,
//!     cache: 16,
//!     ..Settings::USUAL
//! };
//! let options = Options::new(&settings)?;
//! let log = read_log(alloc, bytes, &[], &options)?;
//! let (plan, images) = plan_of(alloc, &log, &options)?;
//! // a log without entries has one cut, and of it one image
//! settings.sectors = 0;
//! if let Err(refusal) = Options::new(&settings) {
//!     let line = fault_line(alloc, &refusal)?;    // "refused 13 at 1"
//! }
//! ```
//!
//! What notes say of a log:
//!
//! ```
//! use request::facts::{Recording, log_facts};
//!
//! if let Some(facts) = log_facts(alloc, &Recording::of(bytes, &[]), &options) {
//!     let large = facts.large;    // how many entries no image loses as a whole
//! }
//! ```
//!
//! # More that is promised
//!
//! - **Which images.** A whole run has at most 16,777,216 images. One with `--images` has fewer than 2^63, of which
//!   those from A to below B are judged: `Extent::is_extent`, `Extent::is_within`.
//!
//! # Choices
//!
//! - Options are tested in the order of their places: sectors, bound, workers, cache, checked. Another word for cuts,
//!   13 at 7, and then for `--by`, 13 at 10, is tested before all of them, and all of them before the files: it is
//!   the command line alone that can have such words; `Options::new` takes a kind of cut and of part.
//! - A log with too many images is refused before its programs are looked at, and `Input::new` takes the number of
//!   images that was counted then: the order of refusals asks for the first; so images are counted once a run, and
//!   `Input::new` has nothing to refuse.
//! - A file of `--base` that can't be read is refused 14 at the number of the other files: the places of a log and of
//!   programs stay what they are.
//! - Out of memory for the initial content is 11 at 0, as for a log: it is a part of what is known of the log.
//! - A discard with FUA makes the sector of an earlier write durable, as a write with FUA does: in the model it
//!   writes zeros, and what a later entry left for good can't be lost with the earlier one.
#![tactic(auto)]

mod any_losses;
mod command;
mod extent;
pub mod facts;
mod inputs;
mod known;
mod options;
mod refusals;
mod settings;
mod source;
mod trials;

pub use any_losses::{AnyLosses, LossWords, losses_of};
pub use command::{OptionWords, Request, Which, options_of};
pub use extent::Extent;
pub use inputs::{inputs_line, number_line, number_of_inputs, number_of_report, report_options};
pub use known::{KnownSearch, KnownWords, known_of};
pub use options::{MOST_PROGRAMS, Options};
pub use refusals::{bytes_refusal_of, fault_line, option_refusal_of, unreadable};
pub use settings::{CaseTelling, KnownTelling, OptionPlace, Retelling, Settings, Telling};
pub use source::{log_refusal_of, plan_of, read_log, read_recorded};
pub use trials::{Trial, TrialWords, trial_of};
