//! Failing lines, read back from their text.
//!
//! Of a text that is not that of lines nothing is said but that reading it ends.

ghost use Rattle.std.specs.Prelude.{◌-◌, ◌≤◌, OnOk, length};
ghost use Rattle.report.specs.MarkReading.{ReadsLine, ReadsLines};

use crate::lines::marks::LineMark;
use crate::printed::{byte_number, cut, field, number};
use std::alloc::AllocError;

/// The mark of the first line, and the lines after it.
fn read_mark(text: &str) -> (LineMark, &str)
    ensures line { ReadsLine text.now result.0 result.1.now }
    ensures shorter { length result.1.now ≤ length text.now - 1 }
{
    let (image, after_image) = field(text);
    let (_cut, after_cut) = field(after_image);
    let (program, after_program) = field(after_cut);
    let (_said, more) = cut(after_program, '\n');
    let mark = LineMark {
        image: number(image),
        program: byte_number(program),
    };
    (mark, more)
}

/// Appends the marks of the lines of a text.
pub(crate) fn read_marks(marks: &mut Vec<LineMark>, text: &str) -> Result<(), AllocError>
    ensures { OnOk result (ReadsLines text.now marks.old.items marks.new.items) }
{
    let mut rest = text;
    while !rest.is_empty() {
        let (mark, more) = read_mark(rest);
        marks.push(mark)?;
        rest = more;
    }
    Ok(())
}
