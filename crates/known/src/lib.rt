//! Records of a program of the user's as a judge of cases: which images it fails on, whatever was lost, as far as records tell.
//!
//! `case_runs` finds cases by running a checker and seeing at which sectors it looks. A program of the user's can't be run here. Who runs
//! it can see at which sectors it looked, and write that down as *records*. A record says how the program ended on one image, and at which
//! sectors it looked there. So it *tells* each image after as many marks that has the same bytes in these sectors.
//!
//! Records and a number of marks are a program of `cases` (`program_of`, `specs/Records.antt`). On an image that a record tells, it ends
//! as the first such record says, and looks at the sectors of that record. On any other image it ends *open*, and looks at nothing. So a
//! case whose representative no record tells isn't split: it is a leaf that is open. `cases` needs no other search for it.
//!
//! # Place
//!
//! On `cases`, whose search it drives, on `case_runs`, whose `CaseImage` is the image that is looked up, and on `losses` for what is asked.
//! It reads no text and prints none.
//!
//! # The calls
//!
//! | Call | Answer |
//! |---|---|
//! | `KnownRecords::new(alloc, log, way, runs)` | some records with the bytes of their sectors, of a log without flushes that are added |
//! | `first_contradiction(records)` | the first record that an earlier one contradicts, with the first that does |
//! | `find_known(alloc, plan, log, way, cuts, records, asked, stops)` | at each cut: how many told leaves there are, those that fail, the open cases, how many cases were left out, and whether the search was stopped. The log may have flushes that were added to that of the records |
//! | `is_complete(found)` | whether nothing is open, left out or pending at a cut |
//! | `is_failing(end)`, `is_same_end(one, other)` | whether a run failed, and whether two ended alike |
//! | `found_is_one()`, `each_is_in_one()`, `told_end_so()`, `none_tells_open()`, `found_fail()`, `complete_has_all()`, `last_cuts_have_all()`, `rounds_end()` | laws |
//!
//! # How it searches
//!
//! Of each record the bytes of its sectors are kept, and in how many of them, from the first one on, it begins as the record before it.
//! To tell an image, the records are tried in turn. For each it is known how many of its sectors are on the image, up to the first that
//! isn't. Where a record begins as the one before it past the sector that wasn't there, it isn't there in this one either, and none of
//! its sectors is looked at. Else the search goes on after what they have in common. Records of one round stand in the order of the search,
//! so most of them have much in common with the one before.
//!
//! Two records are compared alike: at the first place at which their lists differ first, where most have another sector of one number.
//!
//! # What is proved
//!
//! - `find_known` answers, for each cut in order (`IsKnownAt`, `specs/Found.antt`): of the leaves to which the search came, in the order of
//!   the tree, the told ones that fail, by their numbers among the told ones; how many are told; the open ones; how many cases were left
//!   out; and whether cases are pending. The search ends where there are no more cases, or where that is asked: right after the first
//!   told leaf that fails, or after a number of leaves (`has_stopped`, `GoesOn`). It doesn't end before.
//! - It refuses where memory is wanting, or where there are more than 16,777,216 told leaves and open cases, and names the cut with which
//!   there are (`AreTooMany`).
//! - What is found at a cut is one (`found_is_one`, `specs/Once.antt`): the same cases, by whatever sets, and the same counts.
//! - `first_contradiction` answers the first two records, by the later one and then by the earlier one, after as many marks, with
//!   different ends, whose images have the same bytes in each sector that is in both lists; or that there are none.
//! - `each_is_in_one`: each choice of a cut is in exactly one case that is told, open, left out or pending. `none_tells_open`: no record
//!   tells the representative of an open case. Both hold of any records.
//! - Each record is *true* if the program ends as it says on each image that it tells (`TellsTruth`, `specs/Laws.antt`). Where all are, the
//!   program ends on each choice of a told leaf as the leaf says (`told_end_so`), and so it fails on each image of a failing leaf that was
//!   found (`found_fail`). Of a cut that is complete, each choice on which the program fails is in a failing leaf that was found
//!   (`complete_has_all`). Where each last cut is complete, that holds of every image of every cut (`last_cuts_have_all`).
//! - In a *round* a search is made, and records are appended that tell each of its open cases (`IsRound`, `specs/Rounds.antt`). After
//!   `m * p + 1` rounds nothing is open, where no cut has more than `p` parts at risk, and `m` is 15 with tears and 1 without
//!   (`rounds_end`). That holds wherever the searches are to stop, and of any records, true or not.
//!
//! # Example
//!
//! Before a program ran there are no records, and the representative of each first case is open:
//!
//! ```
//! use epochs::By;
//! use known::{KnownRecords, Stops, find_known};
//! use losses::found::Losses;
//!
//! let records = KnownRecords::new(alloc, &log, By::Sector, &[])?;
//! let asked = Losses { tears: true, torn: 1, lost: None };
//! let stops = Stops { at_failing: false, cases: None };
//! let found = find_known(alloc, &plan, &log, By::Sector, &[2], &records, asked, stops)?;
//! let wanted = found[0].open_cases.len(); // 1
//! let failing = found[0].failing.len(); // 0
//! ```
#![tactic(auto)]

mod contradict;
mod found;
mod judge;
mod laws;
mod leaves;
mod records;
mod run;
mod walk;

pub use contradict::{Contradiction, first_contradiction};
pub use found::{KnownAt, KnownFailing, OpenCase, Stops, is_complete};
pub use laws::{
    complete_has_all, each_is_in_one, found_fail, found_is_one, last_cuts_have_all,
    none_tells_open, rounds_end, told_end_so,
};
pub use records::KnownRecords;
pub use run::{KnownRun, RunEnd, is_failing, is_same_end};
pub use walk::find_known;
