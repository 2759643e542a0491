//! Checkers as judges of cases: which images a checker fails on, whatever was lost.
//!
//! A case is a set of crash images of a cut that a checker can't tell apart, with any number of parts lost (docs/CRASH-MODEL.md, Any
//! number of losses). `cases` defines them, and finds the leaves of a cut for any judge. Here a checker is that judge. It is run once for
//! each case that is met, on the image of the case's representative. What is kept of a cut is the leaves on which the checker fails.
//!
//! # Place
//!
//! On `cases`, whose search it drives, on `checker`, which runs a program with every check or without any, on `epochs`, whose plan
//! tells of the context of a cut, and on `losses` for the types of what is found. `runs` stands above it. `case_text` and `case_page`
//! tell what is found by these types alone.
//!
//! # The calls
//!
//! | Call | Answer |
//! |---|---|
//! | `case_cuts(alloc, plan, log, cuts, at_most)` | the cuts at which cases are looked for: the last ones of the range and its end, or with `at_most` or fewer than all cuts each that is wanted |
//! | `find_failing(rt, alloc, gate, plan, log, way, cuts, checkers, asked, workers)` | at each cut, with each checker: the leaves that fail, each with its number among the leaves, what the checker ends in, and its sets; how many leaves there are; how many cases were left out |
//! | `find_first(alloc, gate, plan, log, way, cuts, checkers, asked)` | the first leaf that fails, by cut, by checker and in the order of the tree; or what `find_failing` answers, where none does |
//! | `CaseGate` | is called at each run of a checker and at each leaf, for the line of progress |
//! | `CaseJudge::new(alloc, checker, context)` | a checker as a `Judge` of `cases`, for one cut |
//! | `CaseImage` | the image of a case's representative, as a `Device` |
//! | `checkers_tell()`, `losses_are_found()`, `found_cuts_are_wanted()`, `finding_is_one()`, `first_is_one()`, `their_images_fail()` | laws |
//!
//! # How it runs
//!
//! A sector of the image is lent from the log, or from what the device held before entry 0, unless a torn part covers it. The sectors of
//! torn parts are formed once for each case, in a list that the next case uses again. So a case takes no memory once the lists have
//! grown, but for those that fail, which are kept. A judge has memory for the program of a checker with guards. To look up a sector takes the few steps of its row, if that is known from the cases
//! before (`KnownRows` of `cases`). Else it takes a walk over the entries from the cut down. A torn part by write has all its sectors formed.
//!
//! A run keeps its footprint in a room of 64 sectors, and the judge keeps it for the splits of the case. Where it looks at more, the checker is run again with a room of 1,024, and then of
//! 16,384, which is as many as a device has within the usual limits. On a large device it may look at more still. Then it is taken to look at
//! all sectors of the device, in their order (`looks` in `specs/Judges.antt`). That is a footprint too: it tells what the checker ends in.
//!
//! # Workers
//!
//! Cases are found on a walk from cut to cut and from checker to checker (`walk.rt`). `find_first` goes from leaf to leaf on it, and ends at
//! the first that fails. In `find_failing` one worker explores all choices of each cut with each checker at once. More of them work in
//! rounds before the walk (`rounds.rt`). What was found of a cut with a checker stands as pieces, in the order of the tree: what was found
//! there (`Told`), or a case that is still to be explored (`Open`). At first each cut and checker is one open piece, all choices. In a round
//! the workers draw the open pieces one by one from a pile (`sharing.rt`). A worker explores the tree below a piece, up to 2,048 leaves. Then
//! it brings back what it found, and the cases that are left, which are the open pieces of the next round, in the place of the piece. So a
//! heavy cut falls into subtrees by itself. Where there are few pieces they are cut after 128 leaves, so that there are more soon. A worker
//! keeps its cut, and the rows that it knows, as long as the pieces that it draws are of the same cut and checker. It draws no more in a round
//! after 65,536 leaves, so the first pieces come first.
//!
//! On the walk the pieces are put together in their order (`joining.rt`): there a failing case gets its number, and it is seen with
//! which cut there are too many. An open piece that is left is explored then. That the text is the same for any number of workers rests on
//! this order alone. It doesn't matter which worker drew what: an answer names its piece, and takes no other's place.
//!
//! # What is proved
//!
//! - `CaseImage` shows exactly the crash image of the representative, `image_of` of `cases`, of any number of lost and torn parts.
//! - `CaseJudge` is a judge: the program that it stands for (`program_of`) ends as the checker's `judgement` says in the context of the
//!   cut, and looks at the sectors of the checker's footprint, each once, in the order of the first looks. Verified programs, those with guards,
//!   and others are judged alike.
//! - `find_failing` answers, for each cut and each checker, in order: of exactly the leaves of the definition (`AreCases` of `cases`), in the
//!   order of the tree, those on which the checker fails, with their numbers and what it ends in; how many leaves there are; and how
//!   many cases were left out (`AreFoundIn`, `specs/Found.antt`). No clause names the number of workers.
//! - `case_cuts` has each last cut of the range, and its end, rising, and no other, where these have the images of all cuts.
//! - `checkers_tell`: two devices that agree at these sectors are judged alike, so the laws of `cases` hold of each checker.
//! - `losses_are_found`: take a choice that is asked for: of a wanted cut, with as few torn parts and as few lost ones as is asked. Where a
//!   checker fails on its image, that is the image of a choice in a failing case that was found. So where none of a checker was found, it
//!   fails on none of them. `found_cuts_are_wanted`: the cuts of these cases are wanted ones.
//! - `find_first` answers the first of these leaves that fails, if it is one of the first 16,777,216 leaves: at the cuts before its own,
//!   with the checkers before its own, and at the leaves before it none fails (`IsFirstFailing`, `specs/First.antt`). It looks at no leaf
//!   after it. Where none fails it answers all that was found (`AllPass`). It refuses where memory is wanting, or where the first
//!   16,777,216 leaves pass and there is one more (`PassesMostIn`). By the law `first_is_one` it is the first of those that `find_failing`
//!   finds at its cut.
//! - `their_images_fail`: on each image of a failing case that was found the checker ends as the case says, and so it fails there.
//!
//! `find_failing` refuses where memory is wanting, or where there are more than 16,777,216 cases, and names the cut with which there are
//! (`AreTooMany`). By the law `finding_is_one` it answers one thing, and doesn't refuse for the number of cases what it answers. So what it
//! answers is the same for any number of workers.
//!
//! # Example
//!
//! ```
//! use case_runs::{case_cuts, find_failing};
//! use epochs::{By, Cuts};
//! use losses::found::Losses;
//!
//! let asked = Losses { tears: false, torn: 0, lost: None };
//! let cuts = case_cuts(alloc, &plan, &log, &Cuts::ALL, None)?;
//! let found = find_failing(rt, alloc, &gate, &plan, &log, By::Write, cuts.as_slice(), checkers, asked, 4)?;
//! // found[i].programs[j].failing: the cases of cuts[i] on which checker j fails
//! ```
#![tactic(auto)]

mod cuts;
mod first;
mod found;
mod gate;
mod image;
mod joining;
mod judge;
mod laws;
mod leaves;
mod pieces;
mod rounds;
mod runs;
mod sharing;
mod walk;
mod work;

pub use cuts::{case_cuts, first_wanted, last_wanted};
pub use first::{Sought, find_first};
pub use found::{SearchFault, find_failing};
pub use gate::CaseGate;
pub use image::{CaseImage, Formed};
pub use judge::CaseJudge;
pub use laws::{
    checkers_tell, finding_is_one, first_is_one, found_cuts_are_wanted, losses_are_found,
    their_images_fail,
};
