//! What a program is, and what is said of it.

ghost use Rattle.std.specs.Prelude.{◌≡◌, ◌++◌, OnOk, string_bytes};
ghost use Rattle.page_parts.specs.Judges.{checker_text, outside_text, judge_text};

use crate::html::put_html;
use report::{ProgramHead, put_steps};
use std::alloc::AllocError;

/// What a program is whose failing images stand on a page.
#[derive(Clone, Copy)]
pub enum PageJudge<'a> {
    /// A checker, with what the report says of it.
    Checker(ProgramHead),
    /// A program that is given images as files, with its words as the report has them.
    Outside(&'a str),
}

/// Appends what the report says of a checker after its number.
#[tactic(auto, unfolding(crate::specs::Judges::checker_text))]
fn put_checker(out: &mut String, head: ProgramHead) -> Result<(), AllocError>
    ensures { OnOk result (string_bytes out.new ≡ string_bytes out.old ++ checker_text head) }
{
    write!(out, "slots {} ", head.slots)?;
    put_steps(out, head)
}

/// Appends what the report says of a program that is given images as files, after its number.
#[tactic(auto, unfolding(crate::specs::Judges::outside_text))]
fn put_outside(out: &mut String, words: &str) -> Result<(), AllocError>
    ensures { OnOk result (string_bytes out.new ≡ string_bytes out.old ++ outside_text words.now) }
{
    out.push_str("outside ")?;
    put_html(out, words.as_bytes())
}

/// Appends what the report says of a program after its number.
pub(crate) fn put_judge(out: &mut String, judge: &PageJudge<'_>) -> Result<(), AllocError>
    ensures { OnOk result (string_bytes out.new ≡ string_bytes out.old ++ judge_text judge.now) }
{
    match judge {
        PageJudge::Checker(head) => put_checker(out, *head),
        PageJudge::Outside(words) => put_outside(out, words),
    }
}
