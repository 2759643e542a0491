//! The text of the failing cases of a run, and of why they fail: what `explore` and `why` print with `--bound any`; and what a run of
//! `cure` says of them.
//!
//! A run with a bound prints a line for each image on which a program fails. Without a bound images are judged as cases, each a set of
//! choices that a program can't tell apart (`cases`). A line then is of a case. It tells how the program ends on all its images, and what
//! is known of the parts at risk:
//!
//! ```text
//! crash cases 1
//! sectors 8 entries 7 cuts all bound any tears yes torn 1
//! program 0 slots 18 budget 20
//! cut 6 epoch 1 marks 0 program 0 case 4 answer 1 codes 3 choice 2.0:drop,5.0:head3 kept 3.0,4.0 among 5.0:head3+head4 free 1 flush 3..5
//! cuts 3 cases 21 failing 1 torn beyond 2 lost beyond 0
//! ```
//!
//! | Word | Says |
//! |---|---|
//! | `case` | the case's number among those of its cut and program, in the order of the tree |
//! | `choice` | what is lost and torn on the image on which the program ran: any number of parts |
//! | `kept` | the parts that are whole on each image of the case |
//! | `among` | the parts of which more than one fate is possible, and not all |
//! | `free` | how many parts at risk may have any fate |
//! | `flush` | the window: a flush before any of these entries takes all images of the case away |
//! | `complete` | in the last line, where no case of any cut was left out; `of these cuts` where the run was asked for some of the cuts |
//!
//! `why` says of each case in words what was lost while something later was there, or by which image it is shown where no flush helps:
//!
//! ```text
//! cut 6 program 0 failing 2
//! case 4 lost 2.0 and torn 5.0 while 3.0,4.0 were kept: answer 1 codes 3, flush 3..5
//! case 9 at cut 5, with nothing lost: answer 1 codes 1, flush none
//! ```
//!
//! # Place
//!
//! On `cases`, whose sets of fates it reads, and on `report`, whose words it takes for the head, what a program ends in, and what departs.
//! A failing case is a type of `losses` (`found`), and a window is one of `losses` too, which also picks the flushes that are missing for
//! some windows. It judges nothing: `case_runs` finds the cases, and neither of the two stands on the other.
//!
//! # The calls
//!
//! | Call | Answer |
//! |---|---|
//! | `write_cases(alloc, inputs, head, log, plan, asked, found)` | the bytes of the text |
//! | `has_range(cuts)` | whether a run is of a range of the cuts: then the text tells the number of its inputs |
//! | `write_first(alloc, head, log, plan, asked, first)` | the bytes of the text of the first failing case alone |
//! | `write_why(alloc, head, log, plan, asked, found)` | the bytes of the text of why they fail |
//! | `cure_of_cases(alloc, head, log, plan, asked, found)` | the cases as failures, and how the text of a cure begins and ends |
//! | `is_any_failing(found)` | whether a program fails on some case |
//! | `left_out(found)` | how many cases were left out |
//! | `are_all_cuts(cuts)` | whether a run was asked for each cut of its log |
//! | `put_opening`, `put_options`, `put_place`, `put_number`, `put_fates`, `put_known`, `put_window`, `put_counts`, `put_beyond`, `put_complete` | append one part of these texts, which `join` prints from what it read of a text, and `known_runs` from what records tell |
//!
//! # The definitions
//!
//! - `Known`: what a case says of a part at risk, and of all (`known_of`).
//! - `Window`: which entries stand on each image of a cut, and where a flush takes a case away (`case_window`).
//! - `Text`: the bytes (`cases_bytes`).
//! - `First`: the bytes of the text of the first failing case alone (`first_bytes`).
//! - `Causes`: why a case fails, in words (`cause_text`).
//! - `Why`: the failing cases as failures (`all_failures`), their groups, and the bytes of the text of why they fail (`TellsWhy`).
//! - `Cured`: the lines of the failing cases without a window (`all_uncured`), and how the text of a cure begins (`cure_begin`).
//!
//! # What is proved
//!
//! - `write_cases` gives exactly `cases_bytes` of a number of the inputs, of the head, of what was asked, of the log and of what was found,
//!   byte by byte. The number is told where the head has a range of the cuts. Its one error is want of memory.
//! - `write_first` gives exactly `first_bytes`: the text up to and with its first line of a case, and a last line that names that case.
//! - `write_why` gives exactly the bytes of `TellsWhy`. Its flushes are those that `missing_flushes` of `losses` answers of the windows of all
//!   failing cases: by the law `places_are_fewest` there, no fewer have one in each window.
//! - `cure_of_cases` gives exactly `all_failures`, `cure_begin` and the last line of the text of cases. No window holds a flush entry, so a
//!   flush that is added in one is a new one.
//! - `flush_takes_case_away`: take a choice of a case with a window, and a log with a flush before an entry of the window, and with any
//!   others. What that choice loses and tears is lost by no choice at its cut there. Nor is what it loses and tears up to the end of the
//!   window by one right after that.
//! - `window_is_told`: the window of a case begins after the first entry of which a part is whole on none of its images. It ends with the
//!   last entry of which something is there on each image, or that is a mark. Where no window is printed there is no such entry.
//! - `case_is_shown`: take a case without a window, and the first entry of which a part is whole on none of its images. The case has a
//!   choice in which all that was written before that entry is whole, and all that was written after it is lost; there stands no mark, and
//!   nothing that isn't at risk. Up to that entry it loses and tears what the representative does of the entry alone. Where nothing of the
//!   entry has to arrive it may be lost too. That these choices leave the image of the cut after that entry, or before it, has no law here.
//! - `nothing_is_lost`: in a case that has no such entry nothing may be lost.
//!
//! # How it is written
//!
//! The cases of a cut that end alike and have one window are told by the end of their lines (`ToldFailing`): where two of these are the same bytes.
//!
//! What is known of a case is collected part by part into lists, which are kept from case to case (`KnownParts`). So a case takes no memory but
//! the growth of the text. What is the same for all cases of a cut is found once (`Site`).
//!
//! # Example
//!
//! ```
//! use case_text::{is_any_failing, write_cases};
//! use losses::found::Losses;
//!
//! // `found` is what `find_failing` of `case_runs` answers
//! let asked = Losses { tears: false, torn: 0, lost: None };
//! let bytes = write_cases(alloc, 0, &head, &log, &plan, asked, found)?;
//! let failing = is_any_failing(found);
//! ```
#![tactic(auto)]

mod causes;
mod cured;
mod fates;
mod first;
mod grouped;
mod head;
mod known;
mod laws;
mod lines;
mod said;
mod site;
mod told;
mod totals;
mod why;
mod writer;

pub use cured::{CasesCure, cure_of_cases, window_of};
pub use fates::{Fates, fates_of, is_free, is_kept, is_never_whole, set_at};
pub use first::write_first;
pub use head::{has_range, put_opening, put_options};
pub use known::KnownParts;
pub use laws::{case_is_shown, flush_takes_case_away, nothing_is_lost, window_is_told};
pub use lines::{put_number, put_place};
pub use said::{put_fates, put_known, put_window};
pub use site::Site;
pub use totals::{are_all_cuts, is_any_failing, left_out, put_beyond, put_complete, put_counts};
pub use why::write_why;
pub use writer::write_cases;
