//! page_parts, what the pages of crash images and of failing cases have in common: the look of a page, its head and the list of entries, the
//! row of the log with its cuts and the flushes that are missing, the title of a program, and the line of a cut (docs/OUTPUT.md, The page of
//! `page`).
//!
//! # Place
//!
//! On `losses`, whose missing flushes (`flushes`) it draws, on `crash_text` for the lines of entries, and on `report` for what it says of a
//! program at its head. `crash_page` and `case_page` stand on it, each for its own page. It knows nothing of groups of images, nor of the
//! parts at risk in a case: how much of a cut fails is one type, whether these are images or cases (`CutCount`), so the row is the same of
//! both.
//!
//! | Call | Does |
//! |---|---|
//! | `put`, `put_number`, `put_html`, `put_sided` | append a part that is the same wherever it stands, a number, a text that is no markup, and one of lines with their sides |
//! | `put_head`, `put_about`, `put_list` | append what stands around the programs: the head of the page, a text about the run, the list of entries |
//! | `put_title`, `put_row`, `put_legend`, `put_advice`, `put_unlisted` | append what a program has beside its cuts: its title, the row of the log, what the colours mean, what flushes would do, and how many cuts aren't listed |
//! | `put_begin`, `put_body` | append the line of a cut, and what leads to its groups or cases |
//! | `count_failing`, `uncured_of`, `one_failing`, `shown_of`, `most_of_program` | count: at how many cuts something fails, how many failures no flush takes away, and how much of a page is shown |
//!
//! # What is proved
//!
//! Each call appends exactly the text of its definition (`specs/Frame.antt`, `specs/Cuts.antt` and others), byte by byte. The parts that are
//! the same on each page are constants of `dress`, of which nothing is claimed. Which share of failing images has which colour is one
//! definition (`specs/Shares.antt`), of which the cells and the legend are made. Text that comes from a log or a report stands on the page by
//! `html` or `mark_label` alone: no byte of it is `<`, `>`, `"` or `'` (`text_is_no_markup`).
//!
//! # How it is written
//!
//! Each call appends to the page, piece after piece, as its definition is composed. `entry` has the cells and lines of entries,
//! `lacking` the flushes that are missing, in the row and in words, `strip` the cells of cuts between entries, `share` their colours. Of a
//! large log `block` has the cells and the lines, many entries and cuts a block, so that the page of any log stays small: at most some
//! thousand cells, thousand cuts and five hundred groups or cases a program, and a line for each entry. `frame` has what stands around the
//! programs, `section` what a program has beside its cuts, and `cut` the line of a cut.
//!
//! # How it is proved
//!
//! - **A text with much that is fixed**: one enum of its fixed parts, one `unfoldable` definition of their texts, and one function that
//!   appends a part (`page_parts/src/pieces.rt`). Then each definition is a list of closed words and numbers, and each function that
//!   appends them a list of calls with `?`, proved without a file. Fixed parts of more than some 15 letters between calls leave goals
//!   open, since they are compared letter by letter.
//! - **A text made of the characters of another** is `flat_map f (chars text)`. The loop over `text.chars()` has the invariant `out ≡ old
//!   ++ flat_map f l.yielded`, and its one answer is `YieldsList-end` with `map_self` (`page_parts/proofs/html/put_mark_chars`). Where
//!   the bytes may be no UTF-8 the definition tests `is_utf8`, and two lemmas lead to it from the clause of `from_utf8`
//!   (`page_parts/proofs/Labels.antt`).
//! - **A list text whose elements hand something on** (a place, how many may still be shown) is a recursion. The loop's invariant is
//!   'what is written, and then the text of what is to come, is the whole': `out ++ strip_from .. from (drop n cs) ≡ start ++ strip_from
//!   .. 0 cs` (`page_parts/proofs/Rows.antt`). With a lemma for one more and one for the end in `using`, the loop needs no answer.
//!
//! # Example
//!
//! ```
//! use page_parts::{JudgedKind, Logged, PagePart, put, put_about, put_head, put_list};
//!
//! // `plan` is of `log`
//! let logged = Logged { plan: &plan, log: &log };
//! let mut page = String::new(alloc);
//! put_head(&mut page, JudgedKind::Images, &log)?;
//! put_about(&mut page, "disk.log")?;
//! put_list(alloc, &mut page, &logged)?;
//! put(&mut page, PagePart::Closing)?;
//! // a page without programs: the name of the log, and the list of its entries
//! ```
#![tactic(auto)]

mod block;
mod counts;
mod cut;
mod dress;
mod entry;
mod frame;
mod html;
mod judge;
mod lacking;
mod laws;
mod logged;
mod pieces;
mod section;
mod share;
mod strip;
mod uncured;

pub use block::MOST_CELLS;
pub use counts::{CutCount, JudgedKind, count_failing};
pub use cut::{Showing, one_failing, put_begin, put_body, shown_of};
pub use frame::{put_about, put_head, put_list};
pub use html::{put_html, put_sided};
pub use judge::PageJudge;
pub use lacking::{Lacking, put_advice};
pub use laws::text_is_no_markup;
pub use logged::Logged;
pub use pieces::{PagePart, put, put_number};
pub use section::{most_of_program, put_row, put_title, put_unlisted};
pub use share::put_legend;
pub use uncured::uncured_of;
