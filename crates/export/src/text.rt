//! The text of an image.

ghost use Rattle.std.specs.Prelude.{◌≡◌, ◌++◌, ◌+◌, ◌<◌, ◌≤◌, ℕ, length, map, slice_get, Some, OnOk, IfOk, codes, string_bytes};
ghost use Rattle.base.specs.Numbers.{number_bytes};
ghost use Rattle.std.specs.Fmt.{decimal};
ghost use Rattle.std.specs.List.{flat_map};
ghost use Rattle.images.specs.Keys.{ChangedValue, with_content};
ghost use Rattle.images.specs.Views.{sectors_of};
ghost use Rattle.export.specs.Export.{head_text, record_text, total_text};
ghost use Rattle.export.specs.Kept.{place_text, same_text};
ghost use Rattle.export.specs.Streaming.{stream_of, Puts};

use crate::asked::PlannedImages;
use crate::image::ExportedImage;
use crate::stream::Stream;
use byteorder::{ByteOrder, LittleEndian};
use choices::Choice;
use report::choice_text::put_departures;
use std::alloc::{AllocError, Global};
use std::io::Write;

/// Appends which image it is: its number, its cut, the epoch of the cut and the marks before it.
fn put_place(
    out: &mut String,
    number: u64,
    cut: u32,
    epoch: u32,
    marks: u32,
) -> Result<(), AllocError>
    ensures { OnOk result (string_bytes out.new ≡ string_bytes out.old ++ place_text number cut epoch marks) }
{
    write!(
        out,
        "image {number} cut {cut} epoch {epoch} marks {marks} choice "
    )
}

/// Appends which image it is, and its choice.
pub(crate) fn put_head(
    out: &mut String,
    asked: &PlannedImages<'_>,
    place: u32,
    choice: &Choice,
) -> Result<(), AllocError>
    requires place { asked.now.from + place < asked.now.to }
    requires cut { choice.now.cut ≤ length asked.now.plan.log.entries }
    ensures { OnOk result (string_bytes out.new ≡ string_bytes out.old ++ head_text asked.now place choice.now) }
{
    let cut = choice.cut();
    let plan = asked.plan();
    let number = asked.from() + u64::from(place);
    let epoch = plan.epoch(cut);
    let marks = plan.marks(cut);
    put_place(out, number, cut, epoch, marks)?;
    let by = asked.by();
    let departures = choice.departures();
    put_departures(out, by, departures)?;
    Ok(())
}

/// The eight bytes of a number.
#[tactic(auto, unfolding(base::specs::Numbers::number_bytes))]
fn bytes_of(number: u64) -> [u8; 8]
    ensures { result ≡ number_bytes 8 number }
{
    let mut bytes = [0u8; 8];
    LittleEndian::write_u64(&mut bytes, number);
    bytes
}

/// Puts a sector: its number, and its bytes.
fn put_record<W: Write>(out: &mut Stream<W>, image: &ExportedImage<'_>, number: u32)
    requires { number < image.now.log.sectors }
    ensures { Puts (stream_of (W.contents out.old.output.writer) out.old.waiting.items out.old.output.has_failed) (stream_of (W.contents out.new.output.writer) out.new.waiting.items out.new.output.has_failed) (record_text (with_content (sectors_of image.now) number)) }
{
    let bytes = bytes_of(u64::from(number));
    out.put(&bytes);
    out.put(image.sector(number).as_slice());
}

/// Puts sectors of an image.
pub(crate) fn put_records<W: Write>(out: &mut Stream<W>, image: &ExportedImage<'_>, numbers: &[u32])
    requires { (i n : ℕ) → slice_get numbers.now i ≡ Some n → n < image.now.log.sectors }
    ensures { Puts (stream_of (W.contents out.old.output.writer) out.old.waiting.items out.old.output.has_failed) (stream_of (W.contents out.new.output.writer) out.new.waiting.items out.new.output.has_failed) (flat_map record_text (map (with_content (sectors_of image.now)) numbers.now)) }
{
    for number in numbers {
        put_record(out, image, *number);
    }
}

/// Puts the line of a new image, and its records.
pub(crate) fn put_new<W: Write>(
    out: &mut Stream<W>,
    line: &[u8],
    image: &ExportedImage<'_>,
    numbers: &[u32],
)
    requires { (i n : ℕ) → slice_get numbers.now i ≡ Some n → n < image.now.log.sectors }
    ensures { Puts (stream_of (W.contents out.old.output.writer) out.old.waiting.items out.old.output.has_failed) (stream_of (W.contents out.new.output.writer) out.new.waiting.items out.new.output.has_failed) (line.now ++ flat_map record_text (map (with_content (sectors_of image.now)) numbers.now)) }
{
    out.put(line);
    put_records(out, image, numbers);
}

/// Appends to the head of a new image how many sectors it differs in.
pub(crate) fn end_new(line: &mut String, count: usize) -> Result<(), AllocError>
    ensures { OnOk result (string_bytes line.new ≡ string_bytes line.old ++ (codes " new " ++ decimal count ++ codes "\n")) }
{
    write!(line, " new {count}\n")
}

/// Appends to the head of an image the number of that which is the same.
pub(crate) fn end_same(line: &mut String, number: u64) -> Result<(), AllocError>
    ensures { OnOk result (string_bytes line.new ≡ string_bytes line.old ++ same_text number) }
{
    write!(line, " same {number}\n")
}

/// The last line.
#[tactic(auto, unfolding(crate::specs::Export::total_text))]
pub(crate) fn total_line(alloc: Global, images: u64, new: u64) -> Result<String, AllocError>
    ensures { IfOk result (λ line. string_bytes line ≡ total_text images new) }
{
    let mut line = String::new(alloc);
    write!(line, "total {images} new {new}\n")?;
    Ok(line)
}
