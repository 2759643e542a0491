//! The images after `--images`.

ghost use Rattle.std.specs.Prelude.{ℕ, ◌≡◌, MatchOption};
ghost use Rattle.request.specs.declared.extent.Extent.TheVariants as extent;
ghost use Rattle.command_line.specs.Extents.{HasPoint, IsCutAtPoint, IsRange, NoRange};

use crate::number::number_in;
use request::Extent;

/// What stands before and after the first point of a text.
fn cut(text: &str) -> Option<(&str, &str)>
    ensures { MatchOption result (HasPoint text.now → ⊥) (λ parts. IsCutAtPoint text.now parts.0.now parts.1.now) }
{
    text.split_once('.')
}

/// The images that a text says: two numbers with two points between, that of the first and that of the one after the last.
pub(crate) fn extent_in(text: &str) -> Option<Extent>
    ensures { MatchOption result (NoRange text.now) (λ images. (from : ℕ) × (to : ℕ) × IsRange text.now from to × (images ≡ extent.Part from to)) }
{
    let (first, beyond) = cut(text)?;
    let last = beyond.strip_prefix('.')?;
    let from = number_in(first)?;
    let to = number_in(last)?;
    Some(Extent::Part { from, to })
}
