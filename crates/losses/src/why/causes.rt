//! What fails of a program at each cut, as a text.

ghost use Rattle.std.specs.Prelude.{◌≡◌, length, map, OnOk, string_bytes};
ghost use Rattle.losses.specs.Failures.{AreImages};
ghost use Rattle.losses.specs.Causes.{TellsProgram};

use crate::why::cuts::failures;
use crate::why::text::put_cuts;
use choices::Starts;
use epochs::By;
use std::alloc::{AllocError, Global};

/// Appends what fails of the program of that number at each cut, by the images on which it fails, rising, and what it ends in on the
/// image at the same place. What departs as one is that of the plan.
///
/// # Errors
///
/// Memory was refused.
pub fn put_causes(
    alloc: Global,
    out: &mut String,
    by: By,
    starts: &Starts<'_>,
    images: &[u64],
    outcomes: &[&str],
    program: usize,
) -> Result<(), AllocError>
    requires by { by ≡ starts.now.plan.by }
    requires images { AreImages starts.now images.now }
    requires outcomes { length outcomes.now ≡ length images.now }
    ensures { OnOk result (TellsProgram starts.now images.now (map (λ o. o.now) outcomes.now) program (string_bytes out.old) (string_bytes out.new)) }
{
    let cuts = failures(alloc, starts, images, outcomes)?;
    put_cuts(out, by, starts, outcomes, program, cuts.as_slice())
}
