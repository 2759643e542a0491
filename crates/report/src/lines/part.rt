//! Lines in a row, as they are printed.

ghost use Rattle.std.specs.Prelude.{◌≡◌, ◌↔◌, ◌++◌, ◌∷◌, [], if◌then◌else◌, IsTrue, OnOk, OnErr, string_bytes};
ghost use Rattle.report.specs.LineValues.{line_value, said_by};

use crate::lines::images::Images;
use crate::lines::line::Line;
use crate::lines::text::put_line;
use std::alloc::{AllocError, Global};
use std::marker::Model;
use std::snapshot::Snapshot;

/// Some failing lines in a row, as they are printed: their text, and of which images they are. Contracts
/// see the list of what the lines say.
#[derive(Drop)]
pub struct LinesPart {
    /// The lines as they are printed.
    pub(crate) text: String,
    /// How many bytes of the text are of the first line and those after it of the same image.
    pub(crate) leading_end: usize,
    pub(crate) images: Images,
    /// Where a line is printed before it is added, so that want of memory in the midst of it changes no text.
    pub(crate) printed: String,
    /// What the lines say, for contracts alone: it takes no room.
    pub(crate) said: Vec<Snapshot<Line>>,
}

impl Model for LinesPart {
    ghost use Rattle.std.specs.Prelude.{List, string_bytes};
    ghost use Rattle.report.specs.Line.{FailingLine};

    ghost Value = { List FailingLine };

    ghost use Rattle.report.specs.LineValues.{said_by};
    ghost use Rattle.report.specs.Kept.{IsPart, AreSmall, if_any};

    ghost view = { λ p. said_by p.said.items };

    ghost invariant = { λ p. IsPart (said_by p.said.items) (string_bytes p.text) p.leading_end (if_any p.images.count p.images.first) (if_any p.images.count p.images.last) p.images.count × AreSmall (said_by p.said.items) };
}

/// Adds a line to what is said and to the text. Where memory is wanting, both stay as they were.
fn add(
    text: &mut String,
    said: &mut Vec<Snapshot<Line>>,
    line: &Line,
    printed: &str,
) -> Result<(), AllocError>
    ensures text { OnOk result (string_bytes text.new ≡ string_bytes text.old ++ printed.now) }
    ensures said { OnOk result (said_by said.new.items ≡ said_by said.old.items ++ line_value line.now ∷ []) }
    ensures text_kept { OnErr result (string_bytes text.new ≡ string_bytes text.old) }
    ensures said_kept { OnErr result (said.new.items ≡ said.old.items) }
{
    said.reserve(1)?;
    text.push_str(printed)?;
    said.push(Snapshot::of(line))?;
    Ok(())
}

/// Where the leading lines end: at the end of the text, if the last line is one of them, or as before.
fn end_of(leads: bool, end: usize, before: usize) -> usize
    ensures { result ≡ (if leads then end else before) }
{
    if leads { end } else { before }
}

impl LinesPart {
    /// No line.
    pub fn new(alloc: Global) -> LinesPart
        ensures { result ≡ [] }
    {
        LinesPart {
            text: String::new(alloc),
            leading_end: 0,
            images: Images::none(),
            printed: String::new(alloc),
            said: Vec::new(alloc),
        }
    }

    /// Adds a line at the end. Where memory is wanting, the lines stay as they were.
    ///
    /// # Errors
    ///
    /// Memory was refused.
    pub fn push(&mut self, line: Line) -> Result<(), AllocError>
        ensures added { OnOk result (self.new ≡ self.old ++ line_value line ∷ []) }
        ensures kept { OnErr result (self.new ≡ self.old) }
    {
        self.printed.clear();
        put_line(&mut self.printed, &line)?;
        add(&mut self.text, &mut self.said, &line, self.printed.as_str())?;
        let images = Images::of(line.image);
        let leads = self.images.leads_on(images);
        let _count = self.said.len();
        self.leading_end = end_of(leads, self.text.len(), self.leading_end);
        self.images = self.images.followed_by(images);
        Ok(())
    }

    /// Gives back the room that no line takes.
    pub fn trim(&mut self)
        ensures { self.new ≡ self.old }
    {
        self.text.shrink_to_fit();
        self.printed.clear();
        self.printed.shrink_to_fit();
    }

    /// Whether there is no line.
    pub fn is_empty(&self) -> bool
        ensures { IsTrue result ↔ (self.now ≡ []) }
    {
        self.said.is_empty()
    }
}
