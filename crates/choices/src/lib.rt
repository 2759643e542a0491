//! What a crash may leave out: the choices at the cuts of a log, numbered from 0.
//!
//! At a cut of a log a crash may lose each of the volatile parts, in whole or in part. A choice names
//! at most three of them, the departures, each with its fate: the part is dropped, or, where writes
//! may be torn, only its first or only its last eighths reach the device. Every other part is whole. All choices at all
//! wanted cuts of a plan stand in one order, and so each has a number:
//!
//! 1. by cut, rising;
//! 2. by the number of departures, rising;
//! 3. by the departures, rising by part, compared one after the other, first by part and then by fate.
//!
//! | Call | Answer |
//! |---|---|
//! | `count(plan, bound, tears)` | how many choices there are, or the cut with which they are too many |
//! | `count_at(plan, bound, tears, cut)` | the same of one cut alone |
//! | `count_up_to(plan, bound, tears, most)`, `count_at_up_to(.., cut, most)` | both again, where there may be that many |
//! | `nth(plan, bound, tears, number)` | the choice of a number |
//! | `Starts::new(alloc, plan, bound, tears)` | a table by which the choice of a number is found at once |
//! | `starts.nth(number)` | the choice of a number, by the table |
//! | `next(plan, bound, tears, choice)` | goes on to the following choice, if there is one |
//! | `choice_named(plan, bound, tears, cut, names)` | the choice at a cut of which the departures have these names |
//! | `numbers_at(plan, bound, tears, cut, rest)` | the departures of a choice at a cut as numbers that rise in their order |
//! | `starts.range_of(place)` | the numbers of the choices at the wanted cut of a place |
//! | `choice.cut()`, `choice.departures()` | the cut, and the departures with their fates |
//! | `choice.departures_owned()` | the same departures, for what outlives the choice |
//! | `Picked::of(choice)`, `picked.choice(plan)` | a choice by the numbers of its departures alone, and the choice again |
//! | `picked.next(plan, bound, tears)` | goes on to the following choice, as `next` does |
//! | `picked.pass(tears, count)` | goes on over that many choices in which the last departure alone changes |
//! | `picked.only(plan, marks)` | the choice of some of its departures |
//!
//! # Place
//!
//! On `epochs`, whose `Plan` says which cuts are wanted and which parts are volatile
//! there. `images` forms the crash image of a choice. Here no byte of a log is looked at, and no call
//! takes memory but `Starts::new`. The rules are those of docs/CRASH-MODEL.md.
//!
//! # What is proved
//!
//! `ranked_choices plan bound tears` (`specs/Choices.antt`) is the list of all choices, written down in its
//! order by a recursion over the parts (`specs/Picks.antt`), with no count in it. Each call is a
//! function of this list:
//!
//! - `count` is its length. It is refused exactly where that passes 16,777,216, at the first cut with
//!   which it does. `count_up_to` is the same for any greatest number, as for a run of which only a part is judged.
//! - `count_at` is the length of one cut's part.
//! - `nth` is its element of that number, and so is `Starts::nth`.
//! - `next` leads from each element to the one after it, and leaves the last as it is.
//! - `choice_named` answers an element at that cut of which the departures, each by its entry, its place there and its fate,
//!   are the names, exactly where there is one (`specs/Named.antt`).
//!
//! A `Picked` is an element of the list too (`IsRanked`, `specs/Picked.antt`): `choice` answers this element, `next` and `pass`
//! lead to the one that is one or that many after it, and what `only` answers is an element as well.
//!
//! Above the recursion stands a law, so that nobody has to believe it (`ranked_is_model`): the list has
//! exactly the pairs of a wanted cut and an admissible choice there, each once, in the order above.
//! `specs/CrashModel.antt` says in the words of the crash model what an admissible choice is, and which
//! comes first. The list of one cut by numbers has a law of its own, for any number of fates
//! (`list_is_set`). For a log whose entries have at most one sector both ways have the same list
//! (`ways_agree`). All three stand in `specs/Laws.antt`.
//!
//! # How it is written
//!
//! `ways` has closed forms of the numbers of choices of one cut; they have 128 bits, as three departures among
//! 2,097,152 parts have some 2^72. Each number is compared with what is left before it is added, so a sum over cuts stays small. `rank` finds a choice by its
//! number: the number of departures by taking off the smaller ones, then each departure by a search by halves for its part and a
//! division for its fate. `step` changes the last departure that has a next fate or a next part. A choice keeps its departures as
//! numbers too, so `next` needs no search but those of `Plan::part`. A `Picked` keeps the numbers alone, and needs none
//! (`picked`). `nth` walks the wanted cuts up to its own, a few products at each. A `Starts` keeps the sums of these products, 8
//! bytes for each wanted cut, and finds the cut by a search by halves (`starts`). A caller that wants many choices in a row takes
//! `nth` once, and then `next`; one that begins at many places makes a `Starts`.
//!
//! Which fates there are stands in one place: their number (`most_fates`) and what a fate's number
//! means (`fate_of`). All else goes by numbers.
//!
//! # Example
//!
//! ```
//! use choices::{count, next, nth};
//!
//! // `plan` has one wanted cut, and two volatile parts there
//! let total = count(&plan, 2, true)?;
//! // 1 + 2 * 15 + 1 * 225 choices are 256
//! let mut choice = nth(&plan, 2, true, 31);
//! // both parts are dropped
//! let moved = next(&plan, 2, true, &mut choice);
//! // of the second part now only the first eighth arrives; `moved` is true
//! ```
//!
//! # Choices
//!
//! - A choice keeps what is lost or torn by number too, beside units and fates, and the place of its cut among the
//!   wanted cuts: `next` needs no search but that of a unit.
//! - `nth` walks the wanted cuts up to its own; a `Starts` finds the cut by a search by halves: `nth` takes no
//!   memory, and a table of the counts does: 4 bytes for each wanted cut, made once a run.
//!
//! # How it is proved
//!
//! - A search by halves is no harder than a linear loop: with `left = total - number` find the least r with `left ≤
//!   ways r`. The invariant `ways low < left ≤ ways high` needs no monotony, and one lemma drops the first units
//!   (`later`, `choices/proofs/Ranks.antt`).
//! - State `next` as an equation of options: `slice_get xs n ≡ Some d → slice_get xs (suc n) ≡ following d`, where
//!   none is the end. It composes over sizes and cuts with three lemmas (`in_front`, `at_end`, `after_end`).
//! - A law 'sound, complete, ordered' over `slice_get` works with `slice_get_of_append` and a record for the elements
//!   of a row (`OfRow`).
//! - Facts of a listed value: prove the record at `choice_of ..` with plain variables, then `subst` along the
//!   equation. `rw` inside builds motives that are ill typed, since the hypothesis names the value.
//! - `while rest >= own` with a lemma 'not past the end' avoids an answer that can't be reached after a `for`.
//! - **A search's answer is a record, and so is its failure** (`NoneNamed`, `NoPickOf` in
//!   `choices/specs/Seeking.antt`), each lemma over the very facts in scope. Then `using(..)` proves the search
//!   without a file. That a search from left to right misses nothing wants places compared, and no uniqueness.
#![tactic(auto)]

mod choice;
mod fate;
mod laws;
mod name;
mod named;
mod numbers;
mod pick;
mod picked;
mod rank;
mod ranked;
mod starts;
mod step;
mod ways;

pub use choice::{Choice, Departure};
pub use fate::{Eighths, Fate};
pub use laws::{list_is_set, ranked_is_model, ways_agree};
pub use name::Name;
pub use named::choice_named;
pub use numbers::numbers_at;
pub use pick::Pick;
pub use picked::{Picked, fates};
pub use ranked::{TooMany, count, count_at, count_at_up_to, count_up_to, next, nth};
pub use starts::Starts;
