//! How a run is laid out in parts.

ghost use Rattle.std.specs.Prelude.{◌≡◌, ◌≤◌, ◌<◌, ◌++◌, OnOk, string_bytes};
ghost use Rattle.inspect.specs.Layout.{most_parts, part_count, part_start, part_line, layout_text, is_layout};

use std::alloc::AllocError;

/// The most parts in which a run is laid out.
pub(crate) const MOST_PARTS: u64 = 1_048_576;

/// The most images of a part.
const MOST_IMAGES: u64 = 16_777_216;

/// How many parts there are of a run of that many images, where that many are wanted: no more than images, and at least one.
fn part_count(images: u64, parts: u64) -> u64
    ensures value { result ≡ part_count images parts }
    ensures some { 1 ≤ result }
    ensures few { parts ≤ most_parts → result ≤ most_parts }
{
    parts.min(images).max(1)
}

/// Whether a run of that many images can be laid out in that many parts.
pub(crate) fn is_layout(images: u64, parts: u64) -> bool
    ensures { result ≡ is_layout images parts }
{
    parts >= 1 && parts <= MOST_PARTS && images <= part_count(images, parts) * MOST_IMAGES
}

/// The number of the first image of a part, of that many parts of a run of that many images.
#[tactic(auto, using(crate::proofs::EvenParts::start_within))]
fn part_start(images: u64, count: u64, part: u64) -> u64
    requires some { 1 ≤ count }
    requires part { part ≤ count }
    ensures value { result ≡ part_start images count part }
    ensures within { result ≤ images }
{
    part * (images / count) + part.min(images % count)
}

/// Appends the images of a part.
#[tactic(auto, unfolding(crate::specs::Layout::part_line))]
fn put_part(out: &mut String, images: u64, count: u64, part: u64) -> Result<(), AllocError>
    requires { part < count }
    ensures { OnOk result (string_bytes out.new ≡ string_bytes out.old ++ part_line images count part) }
{
    let from = part_start(images, count, part);
    let to = part_start(images, count, part + 1);
    write!(out, "part {from}..{to}\n")
}

/// Appends the images of each part of a run of that many images.
#[tactic(auto, unfolding(crate::specs::Layout::layout_text), using(crash_text::proofs::Steps::text_next))]
pub(crate) fn put_layout(out: &mut String, images: u64, parts: u64) -> Result<(), AllocError>
    ensures { OnOk result (string_bytes out.new ≡ string_bytes out.old ++ layout_text images parts) }
{
    let count = part_count(images, parts);
    for part in 0..count {
        put_part(out, images, count, part)?;
    }
    Ok(())
}
