//! What was lost on the images on which a program fails, and where a flush is missing.
//!
//! A report of many failing lines doesn't tell its reader what to fix. Mostly few mistakes make them all: a program that fails where
//! one write is lost fails too where others are lost besides, and one more flush would forbid all of these images. Here the failing
//! lines of a run are read back, put into groups by what is lost and torn, and the flushes are found that take them away.
//!
//! | Module | Has |
//! |---|---|
//! | `groups` | under which smallest failing choice of a cut each of its failing choices stands |
//! | `outcomes` | what programs end in, read back from failing lines |
//! | `why` | how many images of each cut a program fails on, and in which groups they stand, also as a text |
//! | `found` | the failing cases of any number of losses, as `case_runs` finds them |
//! | `flushes` | where a flush takes a failing image away, and the fewest flushes that take away all against which a flush helps |
//! | `cure` | the failures of a run with their windows, the flushes that are missing for them, and what is said of them |
//!
//! # Place
//!
//! On `choices`, which numbers the images of a plan and whose departures it takes, and on `report`, which prints choices, failing lines
//! and the head of a text, and reads back of which image and program each line is. It judges nothing and explores nothing: `runs` makes
//! the runs of `why`, `page` and `cure`, and `crash_page` shows what is answered here. `groups`, `outcomes` and `flushes` stand by
//! themselves. `why` stands on `groups`, and is given what the program ends in on each image (`outcomes`); `cure` stands on `flushes`.
//!
//! Of `groups`:
//!
//! | Call | Answer |
//! |---|---|
//! | `fold(alloc, failing)` | for each failing choice of a cut the place of the example under which it stands |
//! | `groups(alloc, failing)` | for each the place of the first that is a part of it |
//!
//! Of `outcomes`:
//!
//! | Call | Answers |
//! |---|---|
//! | `printed_text(alloc, lines)` | the text of failing lines |
//! | `outcomes_of(alloc, text, marks, program)` | what a program ends in on each image on which it fails, as parts of that text |
//!
//! Of `why`:
//!
//! | Call | Answer |
//! |---|---|
//! | `failures(alloc, starts, failing, outcomes)` | for each wanted cut how many images it has, how many of them fail, and the groups |
//! | `put_causes(alloc, out, by, starts, failing, outcomes, program)` | appends this as a text |
//!
//! Of `flushes`:
//!
//! | Call | Answer |
//! |---|---|
//! | `window_of(by, log, cut, departures)` | the window of an image, if it has one |
//! | `missing_flushes(alloc, windows, entries)` | the fewest places of which each window holds one, and how many windows are counted at each |
//!
//! Of `cure`:
//!
//! | Call | Answers |
//! |---|---|
//! | `failures_of(alloc, by, starts, log, marks)` | of each failing line its program, and its window where it has one |
//! | `windows_of(alloc, failures)`, `missing_of(alloc, log, failures)` | the windows that there are, and the flushes that are missing for them |
//! | `add_missing(alloc, log, windows)` | the flushes that are missing for these windows, and the log with them |
//! | `put_begin(out, head, failures)` | appends title, options, and of each program how many of its failures have no window |
//! | `uncured_line(alloc, lines, failures)` | the line that names the first failure without a window |
//! | `put_round(out, number, flushes)` | appends a line for each flush of a round |
//! | `put_programs(out, programs, failures)` | appends of each program how many of its failures have no window |
//! | `put_flushes(out, programs, failures, flushes)` | appends a line for each program, and for each flush, without a round |
//! | `put_refused(out, at)` | appends that a run has too many images |
//!
//! # What is proved
//!
//! ## `groups`
//!
//! `groups` answers, for each failing choice, the first failing choice that is a part of it (`IsGroup` in
//! `specs/FirstParts.antt`). A law says that this one is smallest, so that no other failing choice is a part
//! of it, and the first of the smallest that are a part (`group_is_smallest` in `specs/FirstPartLaws.antt`).
//!
//! `fold` answers, for each failing choice, the example of that part: of the smallest choices in which the
//! same is lost and the same is torn the first (`AreFolded` in `specs/Folded.antt`). By a law a choice stands
//! under one example alone (`stands_under_one`).
//!
//! ## `outcomes`
//!
//! `outcomes_of` answers exactly what the lines of that program say, in their order (`specs/ProgramOutcomes.antt`).
//!
//! ## `why`
//!
//! `failures` answers one element for each wanted cut (`AreCuts` in `specs/Failures.antt`): the number of its images, the
//! number of those that fail, and the groups. A group has an example, of the smallest failing choices in which the same parts are
//! lost and the same parts are torn the first; the number of failing images that stand under it; and whether the program ends on
//! all of these as on the example. Two laws stand above (`specs/GroupLaws.antt`): each failing image of a cut stands under one group,
//! of a choice that is a part of its own, and the numbers of the groups add up (`each_stands_once`); those of the cuts add up to
//! that of all failing images (`all_stand`). `put_causes` appends the text of `specs/WhyText.antt`: a line for each cut at which
//! something fails, and one for each of its groups. `specs/Causes.antt` says what is told so of all programs, of a run or of a report.
//!
//! ## `flushes`
//!
//! `specs/Windows.antt` says what a window is (`IsWindow`), and where there is none. `specs/Places.antt` says which places are
//! answered (`AreMissing`): each is the end of the first window that holds none of those before it, so each window holds one,
//! and each window is counted at its first place. Laws stand above (`specs/WindowLaws.antt`). No fewer places have one in each window
//! (`places_are_fewest`), and the counts add up to the number of windows (`each_is_counted_once`). A flush in a window takes the
//! image away (`flush_takes_away`), and flushes elsewhere leave it or its like (`flushes_elsewhere_leave`, `same_is_left`). What
//! leaves the same as an image without a window (`nothing_else_is_lost`), no flushes take away (`no_flush_helps`).
//!
//! ## `cure`
//!
//! `failures_of` answers exactly the window of each failing line, and none where it has none (`specs/FailureWindows.antt`). A window
//! holds no flush entry, so `add_missing` leaves fewer entries that are no flush entries: rounds come to an end. Each `put_`
//! appends exactly its part of the text (`specs/CureText.antt`), and `uncured_line` the very line that the report prints.
//!
//! # How it is proved
//!
//! - What `xs[i]` of a vector of numbers tells has the value itself as default, `get_or xs i value`. Inside the list the default makes no
//!   difference (`at_any_default` in `losses/proofs/GroupCounting.antt`).
//! - The index of a slice of arrays has the default `[]` at once, so no `get_or_default`. `n % 2 ^ 64 % 16 ≡ n % 16` is `omega arith`.
//!
//! # Example
//!
//! Groups of failing choices:
//!
//! ```
//! use losses::groups::{fold, groups};
//!
//! // of `choices` the first loses unit 4, the second unit 4 and unit 9, the third unit 7 and unit 9
//! let places = groups(alloc, choices)?;
//! // 0, 0, 2: the second fails since the first does
//! // of `torn` the first has one eighth of unit 4, the second two eighths of it, the third these and lost unit 9
//! let examples = fold(alloc, torn)?;
//! // 0, 0, 0: unit 4 is torn in each
//! ```
//!
//! What programs end in:
//!
//! ```
//! use losses::outcomes::{outcomes_of, printed_text};
//!
//! // `lines` are the lines below
//! let marks = lines.marks(alloc)?;
//! let text = printed_text(alloc, &lines)?;
//! let outcomes = outcomes_of(alloc, text.as_str(), marks.as_slice(), 0)?;
//! // of program 0: answer 1 codes -
//! ```
//!
//! ```text
//! image 3 cut 1 program 0 answer 1 codes - choice 0.0:head1
//! image 3 cut 1 program 1 fault 83 slot 7 choice 0.0:head1
//! ```
//!
//! Why a program fails:
//!
//! ```
//! use epochs::By;
//! use losses::why::put_causes;
//!
//! // two_slots of examples/ fails on images 104 to 118 of its cut 4; its first two are enough here
//! let outcomes = ["answer 1 codes 1", "answer 1 codes 1"];
//! let mut out = String::new(alloc);
//! put_causes(alloc, &mut out, By::Sector, &starts, &[104, 105], &outcomes, 0)?;
//! // cut 4 program 0 images 120 failing 2
//! // group 2.0 lost: 1 image, all answer 1 codes 1, as image 104 choice 2.0:drop
//! // ..
//! ```
//!
//! Where a flush is missing:
//!
//! ```
//! use epochs::By;
//! use losses::flushes::{Window, missing_flushes, window_of};
//!
//! // `choice` is of cut 6; it loses the write of entry 0, and that of entry 5 arrived
//! let window = window_of(By::Sector, &log, choice.cut(), choice.departures());
//! // Some(Window { start: 1, end: 5 }): a flush before any of the entries 1 to 5 takes the image away
//! let windows = [Window { start: 1, end: 5 }, Window { start: 3, end: 8 }];
//! let flushes = missing_flushes(alloc, &windows, 9)?;
//! // one for both: MissingFlush { from: 3, at: 5, failing: 2 }
//! ```
//!
//! A round of a cure:
//!
//! ```
//! use epochs::By;
//! use losses::cure::{add_missing, failures_of, put_round, windows_of};
//!
//! // `lines` are the failing lines of a run of `log`, and `starts` numbers its images
//! let marks = lines.marks(alloc)?;
//! let failures = failures_of(alloc, By::Sector, &starts, &log, marks.as_slice())?;
//! let windows = windows_of(alloc, failures.as_slice())?;
//! let added = add_missing(alloc, log, windows.as_slice())?;
//! let mut out = String::new(alloc);
//! put_round(&mut out, 1, added.flushes.as_slice())?;
//! // round 1 flush before entry 3 from 1 failing 15
//! // the next round is a run of added.log
//! ```
#![tactic(auto)]

pub mod cure;
pub mod flushes;
pub mod found;
pub mod groups;
pub mod outcomes;
pub mod why;
