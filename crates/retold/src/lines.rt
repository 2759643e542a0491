//! The lines of a report, program by program.

ghost use Rattle.std.specs.Prelude.{◌≡◌, ◌++◌, ◌∷◌, [], IfOk, OnOk, map};
ghost use Rattle.join.specs.Given.{line_told, marks_told};
ghost use Rattle.retold.specs.Told.{images_told_of, outcomes_told_of};

use join::GivenLine;
use report::lines::LineMark;
use std::alloc::{AllocError, Global};

/// Returns of which image and which program each line is.
pub(crate) fn marks_of(alloc: Global, lines: &[GivenLine<'_>]) -> Result<Vec<LineMark>, AllocError>
    ensures { IfOk result (λ marks. marks.items ≡ marks_told (map line_told lines.now)) }
{
    let mut marks = Vec::with_capacity(alloc, lines.len())?;
    for line in lines {
        marks.push(line.mark)?;
    }
    Ok(marks)
}

/// Appends the image of a line, if it is of that program.
fn push_image(images: &mut Vec<u64>, program: usize, line: &GivenLine<'_>) -> Result<(), AllocError>
    ensures { OnOk result (images.new.items ≡ images.old.items ++ images_told_of program (line_told line.now ∷ [])) }
{
    if usize::from(line.mark.program) == program {
        images.push(line.mark.image)?;
    }
    Ok(())
}

/// The images on which the program of that number fails.
pub(crate) fn images_of(
    alloc: Global,
    lines: &[GivenLine<'_>],
    program: usize,
) -> Result<Vec<u64>, AllocError>
    ensures { IfOk result (λ images. images.items ≡ images_told_of program (map line_told lines.now)) }
{
    let mut images = Vec::new(alloc);
    for line in lines {
        push_image(&mut images, program, line)?;
    }
    Ok(images)
}

/// Appends what the program of that number ends in, if a line is of it.
fn push_outcome<'t>(
    outcomes: &mut Vec<&'t str>,
    program: usize,
    line: &GivenLine<'t>,
) -> Result<(), AllocError>
    ensures { OnOk result (map (λ o. o.now) outcomes.new.items ≡ map (λ o. o.now) outcomes.old.items ++ outcomes_told_of program (line_told line.now ∷ [])) }
{
    if usize::from(line.mark.program) == program {
        outcomes.push(line.outcome)?;
    }
    Ok(())
}

/// What the program of that number ends in on each image on which it fails.
pub(crate) fn outcomes_of<'t>(
    alloc: Global,
    lines: &[GivenLine<'t>],
    program: usize,
) -> Result<Vec<&'t str>, AllocError>
    ensures { IfOk result (λ outcomes. map (λ o. o.now) outcomes.items ≡ outcomes_told_of program (map line_told lines.now)) }
{
    let mut outcomes = Vec::new(alloc);
    for line in lines {
        push_outcome(&mut outcomes, program, line)?;
    }
    Ok(outcomes)
}
