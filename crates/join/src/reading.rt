//! The lines of a part, read and counted.

ghost use Rattle.std.specs.Prelude.{◌≤◌, ◌^◌, IfOk, length};
ghost use Rattle.join.specs.Printable.{IsLineOfRun};
ghost use Rattle.join.specs.Reading.{AreRead, NoLine};

use crate::line::read_line;
use crate::tally::Tally;
use report::{Head, Span};
use std::alloc::{AllocError, Global};

/// What is counted of the lines of a run with that head with which a text begins, and what stands after them.
#[tactic(auto, using(crate::proofs::LinesRead::none_are_read, crate::proofs::LinesRead::one_is_read))]
pub(crate) fn read_lines<'t>(
    alloc: Global,
    span: Span,
    head: &Head,
    text: &'t str,
) -> Result<(Tally, &'t str), AllocError>
    requires { length text.now ≤ 2 ^ 30 }
    ensures read { IfOk result (λ x. AreRead head.now span text.now x.0 x.1.now) }
    ensures end { IfOk result (λ x. NoLine (IsLineOfRun head.now) x.1.now) }
{
    let mut tally = Tally::none();
    let mut rest = text;
    while let Some((mark, more)) = read_line(alloc, head, rest)? {
        tally = tally.more(span, mark);
        rest = more;
    }
    Ok((tally, rest))
}
