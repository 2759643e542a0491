//! The words of the command line: the commands of the program with their help, read by `clap`.
//!
//! # Place
//!
//! On `request`, whose `Request` says what is asked for, and on `clap`. Nothing else is known of a command here than its
//! name, its options, the names of its files and its help: `commands` performs it. No option is tested for its range, since
//! that is the work of `options_of` in `request`, which refuses the words by the numbers of docs/REFUSALS.md.
//!
//! | Call | Answers |
//! |---|---|
//! | `parsed.request()`, `parsed.files(alloc)` | what a command asks for of which `clap` read this, and the files that it names |
//! | `Words::of(alloc, words)` | the command line that these words after the program's name are |
//! | `words.files()` | the names of its files: the log, source or program, then the programs of a run |
//! | `words.request()` | what it asks for |
//! | `words.choice()` | the text of the choice of an image |
//! | `words.progress()` | whether it is to be said how far an exploration is |
//! | `words.set_size(sectors)` | nothing: it asks for a device of that many sectors from here on, where `base` stands after `--sectors` |
//!
//! Without a word, the run that the program holds itself is asked for. A word that names no kind of cut or part, or that is no
//! list of entries or no range of images, is kept as none, and the text of a choice that is longer than any choice's likewise:
//! these are refusals of the command, with a number and notes, and no faults of the command line. A word in the place of a number
//! that has a sign or a zero in front is such a fault: `clap` takes it, and `Words::of` doesn't. `--bound` takes `any` too. That asks
//! for any number of losses of `explore`, and of `image` and `show` with `--cut`, and else for a bound that is too great. `--sectors`
//! takes `base`, beside `--base FILE`: that asks for the largest device, so that all of FILE is read, and `set_size` for one of the size
//! that FILE has. Without `--base` it asks for a device of no sectors, which there is none of.
//!
//! The commands stand in a table with their words, options and help (`table.rt`), and `words.rt` makes `clap`'s commands of it.
//! `tools/man_page.py` makes `docs/crashbpf.1` of what the built program prints of them.
//!
//! # What is proved
//!
//! That no word asks for the stored run (`stored` of `Words::of`). Of any others `clap` finds a command and texts after its
//! options; each of these is read under its own name, with its default where it is absent, a number by the digits that are
//! printed of it, and what is asked for is what
//! docs/COMMANDS.md says of them: the command, its options, the image that is meant, the files, and whether `--progress` stands
//! there (`asked`; `specs/Parsed.antt`, `specs/Words.antt`). What `clap` takes, and what it finds, is `clap`'s: runs of the
//! built program show it. What `--sectors base` asks for once the size is known is what the number asks for (`sized_is_numbered`).
//!
//! # Example
//!
//! ```
//! use command_line::Words;
//!
//! // `args` are show, disk.log, 7, --sectors, 64
//! let words = Words::of(alloc, args)?;
//! let request = words.request();      // Request::Show(.., Which::Number(7))
//! let files = words.files();          // disk.log
//! ```
//!
//! # Choices
//!
//! - 13 at 7 and at 1 to 5 come before 14, in every command that has these options; 13 at 6 comes after 14: options
//!   are tested before any file is looked at; 13 at 6 belongs to the call `explore`, which is given what the files
//!   hold.
//! - `--list` without `--guards` is a fault of the command line; the library call lists nothing then: as with
//!   `--choice` without `--cut`. Without guards no slot is guarded.
//! - `--checked 0` is accepted: every program is out of steps on every image: 0 is in the option's range, and the
//!   definition of the outcome gives that answer.
//!
//! # How it is proved
//!
//! - A `match` on a `&str` with literals proves an `if bytes_eq word (codes "all") then .. else if ..` over the same
//!   words without a file, the default arm too (`verb_of` in `command_line/src/parsed.rt`).
//! - `Ok(f(..)?)` at the end of `Words::of` proves by itself what `f(..)` there doesn't: with `?` the clause of `f`
//!   is known of the value, and not of the whole result (`words.rt`).
//! - A test after `clap`'s own parser reads the text once more (`number_of` in `parsed.rt`). So its clause is of the
//!   text that stands there, and asks nothing of what `clap` took for a number.
#![tactic(auto)]

mod extents;
mod flush_list;
mod number;
mod parsed;
mod sized;
mod table;
mod words;

pub use parsed::Parsed;
pub use sized::sized_is_numbered;
pub use words::Words;
