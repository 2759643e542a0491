//! case_page, a run of any number of losses as a page for a browser: the log as a row of entries with the cuts between them and the flushes
//! that are missing for the failing cases, and of each cut at which cases fail its first ones, each with a row of the parts at risk, and
//! which of these are lost, kept or either (docs/OUTPUT.md, The page of `page --bound any`).
//!
//! # Place
//!
//! On `page_parts`, which has the row and all else that a page of images has too, and on `case_text`, of which it has what is known of a case.
//! Which flushes are missing it asks of `losses` (`cure`). It judges nothing: `runs` hands it what `case_runs` found. `crash_page`, which has
//! images in place of cases, stands beside it.
//!
//! | Call | Does |
//! |---|---|
//! | `case_page(alloc, head, log, plan, asked, found)` | the bytes of the page of the failing cases of a run |
//!
//! # What is proved
//!
//! `case_page` gives exactly the bytes of its definition (`IsCasePage` in `specs/CaseFlushes.antt`, `case_page_text` in
//! `specs/CasePage.antt`). A case is a row of the parts at risk (`case_row` in `specs/CaseRows.antt`), by its fates and by its window, which
//! are those of the text of cases (`case_text`). The flushes that are missing for a program are those of the windows of its failing cases,
//! by the definition that `why` and `cure` have (`AreMissing` of `losses`). Its one error is want of memory.
//!
//! # How it is written
//!
//! Each call appends to the page, piece after piece, as its definition is composed. `parts`, `case_row` and `case_cut` have the cases of a
//! cut, `case_program` finds the flushes that are missing for those of a program, and `cases_page` has the whole. At most five hundred cases
//! a program are shown, and 32 parts of each colour a case.
//!
//! # Example
//!
//! ```
//! use case_page::case_page;
//! use losses::found::Losses;
//!
//! // `found` is what `find_failing` of `case_runs` answers
//! let asked = Losses { tears: false, torn: 0, lost: None };
//! let bytes = case_page(alloc, &head, &log, &plan, asked, found)?;
//! // a page with the row of the log, and after each cut at which cases fail these
//! ```
#![tactic(auto)]

mod case_cut;
mod case_program;
mod case_row;
mod cases_page;
mod counts;
mod parts;
mod run;

pub use case_program::CaseProgram;
pub use cases_page::case_page;
