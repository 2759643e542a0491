//! The failing lines of a block.

ghost use Rattle.std.specs.Prelude.{◌≡◌, ◌++◌, ◌∷◌, [], OnOk, Some};
ghost use Rattle.report.specs.LineValues.{line_value};
ghost use Rattle.workers.specs.Least.{least_image, lower};

use report::lines::{Line, LinesPart};
use std::alloc::{AllocError, Global};
use std::marker::Model;

/// Lines, and the least image of one of them. Contracts see the lines.
#[derive(Drop)]
struct KeptLines {
    lines: LinesPart,
    least: Option<u64>,
}

impl Model for KeptLines {
    ghost use Rattle.std.specs.Prelude.{◌≡◌, List};
    ghost use Rattle.report.specs.Line.{FailingLine};
    ghost use Rattle.workers.specs.Least.{least_image};

    ghost Value = { List FailingLine };

    ghost view = { λ b. b.lines };

    ghost invariant = { λ b. b.least ≡ least_image b.lines };
}

/// The lower of two images, each of which there may not be.
pub(crate) fn lower(image: Option<u64>, other: Option<u64>) -> Option<u64>
    ensures { result ≡ lower image other }
{
    match (image, other) {
        (Some(image), Some(other)) => Some(image.min(other)),
        (None, other) => other,
        (image, None) => image,
    }
}

impl KeptLines {
    /// No line.
    fn new(alloc: Global) -> KeptLines
        ensures { result ≡ [] }
    {
        KeptLines {
            lines: LinesPart::new(alloc),
            least: None,
        }
    }

    /// Adds a line at the end.
    fn push(&mut self, line: Line) -> Result<(), AllocError>
        ensures { OnOk result (self.new ≡ self.old ++ line_value line ∷ []) }
    {
        let image = line.image;
        self.lines.push(line)?;
        self.least = lower(self.least, Some(image));
        Ok(())
    }

    /// The least image of a line.
    fn least_image(&self) -> Option<u64>
        ensures { result ≡ least_image self.now }
    {
        self.least
    }

    /// Gives back the room that no line takes.
    fn trim(&mut self)
        ensures { self.new ≡ self.old }
    {
        self.lines.trim();
    }

    /// The lines alone.
    fn into_lines(self) -> LinesPart
        ensures { result ≡ self }
    {
        let KeptLines { lines, least: _ } = self;
        lines
    }
}

/// The failing lines of a block. Most blocks have none, and take no room for any. Contracts see the lines.
#[derive(Drop)]
pub(crate) struct BlockLines {
    alloc: Global,
    some: Option<Box<KeptLines>>,
}

impl Model for BlockLines {
    ghost use Rattle.std.specs.Prelude.{List, []};
    ghost use Rattle.std.specs.Option.{option_map_or};
    ghost use Rattle.report.specs.Line.{FailingLine};

    ghost Value = { List FailingLine };

    ghost view = { λ b. option_map_or (λ lines. lines.value) b.some [] };
}

impl BlockLines {
    /// No line.
    pub(crate) fn new(alloc: Global) -> BlockLines
        ensures { result ≡ [] }
    {
        BlockLines { alloc, some: None }
    }

    /// Adds a line at the end.
    pub(crate) fn push(&mut self, line: Line) -> Result<(), AllocError>
        ensures { OnOk result (self.new ≡ self.old ++ line_value line ∷ []) }
    {
        match &mut self.some {
            Some(lines) => lines.push(line),
            None => {
                let mut first = KeptLines::new(self.alloc);
                first.push(line)?;
                self.some = Some(Box::new(self.alloc, first)?);
                Ok(())
            }
        }
    }

    /// The least image of a line.
    pub(crate) fn least_image(&self) -> Option<u64>
        ensures { result ≡ least_image self.now }
    {
        match &self.some {
            Some(lines) => lines.least_image(),
            None => None,
        }
    }

    /// The lines without the room that no line takes.
    pub(crate) fn trim(self) -> BlockLines
        ensures { result ≡ self }
    {
        let BlockLines { alloc, some } = self;
        match some {
            Some(lines) => {
                let mut own = lines;
                own.trim();
                BlockLines {
                    alloc,
                    some: Some(own),
                }
            }
            None => BlockLines { alloc, some: None },
        }
    }

    /// The lines alone.
    pub(crate) fn into_lines(self) -> LinesPart
        ensures { result ≡ self }
    {
        let BlockLines { alloc, some } = self;
        match some {
            Some(lines) => Box::into_inner(lines).into_lines(),
            None => LinesPart::new(alloc),
        }
    }
}
