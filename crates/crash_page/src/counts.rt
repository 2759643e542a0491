//! How many images of a cut fail.

ghost use Rattle.std.specs.Prelude.{◌≡◌, map, IfOk};
ghost use Rattle.crash_page.specs.Counts.{image_count};

use losses::why::CutFailures;
use page_parts::{CutCount, JudgedKind};
use std::alloc::{AllocError, Global};

/// How many images of a cut fail.
pub(crate) fn image_count(cut: &CutFailures) -> CutCount
    ensures { result ≡ image_count cut.now }
{
    CutCount {
        cut: cut.cut,
        of: JudgedKind::Images,
        all: cut.images,
        failing: cut.failing as u64,
    }
}

/// How many images fail at each of some cuts.
pub(crate) fn image_counts(alloc: Global, cuts: &[CutFailures]) -> Result<Vec<CutCount>, AllocError>
    ensures { IfOk result (λ counts. counts.items ≡ map image_count cuts.now) }
{
    let mut counts = Vec::new(alloc);
    for cut in cuts {
        counts.push(image_count(cut))?;
    }
    Ok(counts)
}
