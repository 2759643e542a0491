//! Lines in parts.

ghost use Rattle.std.specs.Prelude.{◌≡◌, ◌≤◌, ◌↔◌, ◌-◌, ◌^◌, ◌++◌, [], if◌then◌else◌, length, min, take, IsTrue, IfOk, OnOk, string_bytes};
ghost use Rattle.std.specs.List.{flat_map};
ghost use Rattle.std.specs.List.Sorted.{IsNonDecreasing};
ghost use Rattle.report.specs.Line.{first_lines};
ghost use Rattle.report.specs.Images.{images_of, failing_images, first_image};
ghost use Rattle.report.specs.LineText.{line_text};
ghost use Rattle.report.specs.Marks.{marks_of};

use crate::lines::images::Images;
use crate::lines::line::Line;
use crate::lines::marks::LineMark;
use crate::lines::part::LinesPart;
use crate::lines::reading::read_marks;
use std::alloc::{AllocError, Global};
use std::marker::Model;
use std::snapshot::Snapshot;

/// Failing lines in their order, as they are printed. Contracts see the list of what the lines say.
#[derive(Drop)]
pub struct Lines {
    /// The texts of the parts.
    texts: Vec<String>,
    /// The text of the first line and of those after it of the same image, once more.
    leading: Vec<u8>,
    images: Images,
    /// What the lines say, for contracts alone: it takes no room.
    said: Vec<Snapshot<Line>>,
}

impl Model for Lines {
    ghost use Rattle.std.specs.Prelude.{List, map, string_bytes};
    ghost use Rattle.std.specs.List.{flat_map};
    ghost use Rattle.report.specs.Line.{FailingLine};

    ghost Value = { List FailingLine };

    ghost use Rattle.report.specs.LineValues.{said_by};
    ghost use Rattle.report.specs.Kept.{AreKept, AreTextsOf, if_any};

    ghost view = { λ l. said_by l.said.items };

    ghost invariant = { λ l. AreKept (said_by l.said.items) (flat_map (λ t. string_bytes t) l.texts.items) l.leading.items (if_any l.images.count l.images.first) (if_any l.images.count l.images.last) l.images.count × AreTextsOf (map (λ t. string_bytes t) l.texts.items) (said_by l.said.items) };
}

impl Lines {
    /// No line.
    pub fn new(alloc: Global) -> Lines
        ensures { result ≡ [] }
    {
        Lines {
            texts: Vec::new(alloc),
            leading: Vec::new(alloc),
            images: Images::none(),
            said: Vec::new(alloc),
        }
    }

    /// These lines, and then those of the part.
    ///
    /// # Errors
    ///
    /// Memory was refused.
    pub fn followed_by(self, part: LinesPart) -> Result<Lines, AllocError>
        ensures { IfOk result (λ lines. lines ≡ self ++ part) }
    {
        if part.is_empty() {
            return Ok(self);
        }
        let Lines {
            mut texts,
            mut leading,
            images,
            mut said,
        } = self;
        let LinesPart {
            text,
            leading_end,
            images: own,
            printed: _,
            said: mut more,
        } = part;
        let leads = images.leads_on(own);
        add_leading(&mut leading, leads, text.as_bytes(), leading_end)?;
        texts.push(text)?;
        said.append(&mut more)?;
        let _count = said.len();
        Ok(Lines {
            texts,
            leading,
            images: images.followed_by(own),
            said,
        })
    }

    /// Appends the lines as they are printed.
    ///
    /// # Errors
    ///
    /// Memory was refused.
    pub fn put(&self, out: &mut Vec<u8>) -> Result<(), AllocError>
        ensures { OnOk result (out.new.items ≡ out.old.items ++ flat_map line_text self.now) }
    {
        put_texts(out, self.texts.as_slice())
    }

    /// Appends the lines of the first image as they are printed. The lines are in the order of their images.
    ///
    /// # Errors
    ///
    /// Memory was refused.
    pub fn put_first(&self, out: &mut Vec<u8>) -> Result<(), AllocError>
        requires { IsNonDecreasing (images_of self.now) }
        ensures { OnOk result (out.new.items ≡ out.old.items ++ flat_map line_text (first_lines self.now)) }
    {
        out.extend_from_slice(self.leading.as_slice())?;
        Ok(())
    }

    /// How many bytes `put` appends, at most 2^64 - 1.
    pub fn text_len(&self) -> usize
        ensures { result ≡ min (length (flat_map line_text self.now)) (2 ^ 64 - 1) }
    {
        length_of(self.texts.as_slice())
    }

    /// How many bytes `put_first` appends.
    pub fn first_len(&self) -> usize
        requires { IsNonDecreasing (images_of self.now) }
        ensures { result ≡ length (flat_map line_text (first_lines self.now)) }
    {
        self.leading.len()
    }

    /// The image and the program of each line, read back from the text.
    ///
    /// # Errors
    ///
    /// Want of memory.
    pub fn marks(&self, alloc: Global) -> Result<Vec<LineMark>, AllocError>
        ensures { IfOk result (λ marks. marks.items ≡ marks_of self.now) }
    {
        let mut marks = Vec::new(alloc);
        marks.reserve_exact(self.said.len())?;
        for text in self.texts.as_slice() {
            read_marks(&mut marks, text.as_str())?;
        }
        Ok(marks)
    }

    /// How many lines there are.
    pub fn len(&self) -> usize
        ensures { result ≡ length self.now }
    {
        self.said.len()
    }

    /// How many images they are of. The lines are in the order of their images.
    pub fn image_count(&self) -> usize
        requires { IsNonDecreasing (images_of self.now) }
        ensures { result ≡ failing_images self.now }
    {
        self.images.count
    }

    /// The image of the first line.
    pub fn first_image(&self) -> Option<u64>
        ensures value { result ≡ first_image self.now }
        ensures alike { result ≡ first_image (first_lines self.now) }
    {
        self.images.first()
    }

    /// Whether there is no line.
    pub fn is_empty(&self) -> bool
        ensures { IsTrue result ↔ (self.now ≡ []) }
    {
        self.said.is_empty()
    }
}

/// Appends the text up to that end, if its lines lead on.
fn add_leading(
    leading: &mut Vec<u8>,
    leads: bool,
    text: &[u8],
    end: usize,
) -> Result<(), AllocError>
    requires { end ≤ length text.now }
    ensures { OnOk result (leading.new.items ≡ leading.old.items ++ (if leads then take end text.now else [])) }
{
    if leads {
        leading.extend_from_slice(&text[..end])?;
    }
    Ok(())
}

/// Appends the texts one after the other.
fn put_texts(out: &mut Vec<u8>, texts: &[String]) -> Result<(), AllocError>
    ensures { OnOk result (out.new.items ≡ out.old.items ++ flat_map (λ t. string_bytes t) texts.now) }
{
    for text in texts {
        out.extend_from_slice(text.as_bytes())?;
    }
    Ok(())
}

/// How many bytes the texts take, at most 2^64 - 1.
fn length_of(texts: &[String]) -> usize
    ensures { result ≡ min (length (flat_map (λ t. string_bytes t) texts.now)) (2 ^ 64 - 1) }
{
    let mut bytes = 0usize;
    for text in texts {
        bytes = bytes.saturating_add(text.len());
    }
    bytes
}
