//! Cases: sets of crash images that a program can't tell apart, of which any number of parts may be lost.
//!
//! A run with a bound makes each image in which at most three parts are lost or torn. Without a bound there are too many images to
//! make: of 60 parts that may be lost, 2^60. But a checker that looks at few sectors can't tell most of them apart. A *case* says of
//! some parts what may become of them, and of the others nothing. All choices of losses and tears in it leave the same bytes where the
//! program looks, so one run judges them all (docs/CRASH-MODEL.md, Any number of losses).
//!
//! # Place
//!
//! On `epochs`, `choices` and `images`, whose parts, fates and crash images it speaks of, and on `machine` for the footprint of a run.
//! It has definitions and laws, and the search for the leaves. `case_runs` stands on it, where checkers are judges.
//!
//! # The definitions
//!
//! - `Risk`: `is_at_risk` says of which entries a crash may take something at a cut. These are the volatile ones, and a write with FUA
//!   that is the last before the cut: it is in flight. `is_last_cut` says which cuts have the images of all.
//! - `Choices`: a `Choice` says what becomes of each part, and `image_at` is its crash image. No bound stands in it.
//! - `Rows`: `row` has the units of a sector, the last one first, and `candidates` what the sector may hold below one of them, and
//!   `shows` which pieces of 64 bytes a part shows with a fate.
//! - `Cases`: a `Case` says for each part what may become of it, `representative` is its first choice, and `first_split` is the first
//!   part of some sectors whose fates in the case show something different there.
//! - `Trees`: `AreLeaves` says which leaves some cases have: a case that no part splits is one, and in the place of any other stand
//!   those of its groups.
//! - `Sets`: what may become of a part, by number, 0 for whole up to 15 for the largest tail; a set of these in the bits of a word
//!   (`fates_in`), and a set of the pieces of a sector in eight of them (`pieces_in`).
//! - `AtCut`: a cut as a value (`CutValue`), the parts at risk there (`parts_of`), a case as a set for each of them (`case_of`), and
//!   when a part by its number and the sets of its groups are the split of a case (`IsFound`).
//! - `Search`: a search as a value, the cases that it has still to explore (`pending`), and when a judge was told of exactly the leaves
//!   of a cut (`FoundCases`).
//! - `Known`: a row as it is kept.
//! - `Once`: that the tree is one.
//!
//! # The calls
//!
//! | Call | Answer |
//! |---|---|
//! | `Cut::new(alloc, log, way, number)` | a cut of a log. It takes memory for each part at risk |
//! | `find_cases(alloc, cut, tears, torn, lost, most, judge)` | tells a judge of all leaves of a cut, and answers how many cases were left out; or `None` where it told of `most` leaves before it had ended |
//! | `Search::new(alloc, cut, tears, torn, lost)` | the same leaf by leaf: a search that hasn't begun |
//! | `search.next(judge)` | goes on to the next leaf, if there is one; `search.sets()` is its case |
//! | `search.torn_beyond()`, `search.lost_beyond()` | how many cases were left out so far |
//! | `is_risky(entries, cut, flush, number)` | whether a crash may take something of an entry at a cut |
//! | `cut.parts()` | the parts at risk, in order, each once |
//! | `cut.first_split(sets, sectors)` | the part that splits a case, the first one of some sectors, with its fates in groups; or none |
//! | `cut.sector(sets, number)` | a sector of the image of a case's representative, however many parts are lost or torn in it |
//! | `cut.lent(sets, number)` | the same, borrowed, where the log has it as it is; none where a torn part covers it |
//! | `cut.sectors()`, `cut.number()` | how many sectors the device has; the number of the cut |
//! | `rows.first_split(sets, sectors)`, `rows.lent(sets, number)` | the same of a `KnownRows`, which keeps the rows of the sectors that were looked for. `rows.cut()` is its cut, `rows.sectors()` the size of the device |
//! | `fate_at(number)` | the fate of a number, `None` for whole |
//! | `is_torn_first(set)` | whether the representative tears a part with that set |
//! | `first_of(set)` | the first fate of a set, which is that of the representative |
//!
//! A `Judge` is a program that is run on the image of a case's representative (`look`). It answers what `first_split` says of the sectors
//! at which the program looked, all of them (`split`), and it is told which cases are leaves. So verified programs and others can be judges.
//!
//! # How it searches
//!
//! A case is a set of fates for each part at risk. The search keeps one, and on a stack the part of each split that led to it, with the
//! set of the part before, and the groups that weren't taken yet. From a case it goes down: the first group of a split becomes the case,
//! until none splits it. Then it takes the next group of the last split that has one, and puts back the sets of those that have none. So
//! a case needs no memory but a place on the stack for each split, which is kept for the next.
//!
//! The first group of a split has the same representative, so the same image. So the program isn't run again on the way down (`narrow`):
//! its last footprint is gone on with, and there is one run for each leaf.
//!
//! `first_split` goes through the rows of the sectors, each from the last unit before the cut down. It finds the next unit by a walk over
//! the entries, down to the last flush entry: what stands before that isn't at risk. A search keeps each row that it has gone through
//! (`KnownRows`): the units at risk, with the numbers of their parts and with the pieces that matter, and the unit below them. So a row is
//! made once for a cut, and a case costs a few instructions for each unit. No call but `Cut::new`, `Search::new`, a new row and the
//! growth of the stack takes memory.
//!
//! # What is proved
//!
//! - `find_cases` tells its judge of the leaves of `AreCases`, in their order, and of no other, each with what the program ends in on the
//!   image of its representative. The cases that were left out are those of the same tree, and it counts them: those that are torn in more
//!   parts than is asked, and the others, which are lost in more. `Search::next` is one step of that. Both hold for each judge whose
//!   answers are those of its program. Where it stops at `most` leaves, these are the first ones.
//! - `Cut::first_split` answers exactly the `first_split` of the definition: its part is the first that tells choices of the case apart
//!   in these sectors, its groups are the `kinds` of its fates, in order, none forgotten and none twice, and where it answers none there
//!   is none.
//! - `Cut::sector` is that sector of `image_of`, the crash image of the definition. So is `Cut::lent`, where it answers one; where it answers
//!   none, a part at risk that covers the sector is torn.
//! - `each_is_in_one`: each choice is in exactly one of the leaves and of the cases that were left out. One with as few torn parts, and
//!   as few lost ones, as is asked is in none that was left out.
//! - `leaves_look_alike`: the image of each choice in a leaf has the bytes of its representative's where the program looked.
//! - `leaves_end_alike`: on the image of each choice in a leaf the program ends as on that of its representative, if its footprint
//!   tells what it ends in. `footprint_tells` of `machine` says that of each program.
//! - `tree_is_one`: some cases have their leaves in one way, and leave out the same cases. Where a search stops on its way, the leaves that
//!   it told of are no more than there are.
//! - `last_cuts_have_all`: each image of a cut of a range is one of a last cut of that range, or of its end, in the same epoch, after as many
//!   marks, with as many torn parts. Of a range that ends with the log it is one of a last cut.
//!
//! So an image of any cut, with any number of losses, fails exactly where the representative of its leaf does.
//!
//! # Example
//!
//! A log of two writes, of sectors 0 and 1, without a flush. A program reads a byte of sector 1, and reads sector 0 only where it is
//! set. At cut 2 the root is split by entry 1: with the first group, where it is whole, the program reads sector 0 too, and entry 0
//! splits that case again. With the second, where entry 1 is lost, the program reads no other sector. So four choices have three leaves:
//!
//! ```text
//! entry 0    entry 1
//! whole      whole
//! lost       whole
//! either     lost
//! ```
#![tactic(auto)]

mod bits;
mod cut;
mod fates;
mod form;
mod known;
mod laws;
mod lend;
mod row;
mod search;
mod split;

pub use cut::{Cut, is_risky};
pub use fates::{fate_at, first_of};
pub use known::KnownRows;
pub use laws::{
    each_is_in_one, last_cuts_have_all, leaves_end_alike, leaves_look_alike, tree_is_one,
};
pub use lend::is_torn_first;
pub use search::{Beyond, Judge, Search, find_cases};
pub use split::Parted;
