//! Which images of which run a text is of.

ghost use Rattle.std.specs.Prelude.{◌≡◌, ◌++◌, OnOk, string_bytes};
ghost use Rattle.report.specs.Part.{span_text};

use std::alloc::AllocError;

/// Which images of which run a text is of.
#[derive(Clone, Copy, Drop)]
pub struct Span {
    /// The number of the first image.
    pub from: u64,
    /// The number of the image after the last.
    pub to: u64,
    /// How many images the run has.
    pub images: u64,
    /// A number of the run's inputs.
    pub inputs: u64,
}

/// Appends the two lines with which the text of a part begins.
///
/// # Errors
///
/// Memory was refused.
#[tactic(auto, unfolding(crate::specs::Part::span_text))]
pub fn put_span(out: &mut String, span: Span) -> Result<(), AllocError>
    ensures { OnOk result (string_bytes out.new ≡ string_bytes out.old ++ span_text span) }
{
    write!(
        out,
        "crash part 1\npart {}..{} of {} inputs {}\n",
        span.from, span.to, span.images, span.inputs
    )
}
