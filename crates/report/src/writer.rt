//! The report of a run, line by line (docs/OUTPUT.md).

ghost use Rattle.std.specs.Prelude.{◌≡◌, ◌≤◌, ◌+◌, ◌-◌, ◌^◌, ◌++◌, Bool, length, map, min, OnOk, IfOk, string_bytes};
ghost use Rattle.std.specs.List.{flat_map};
ghost use Rattle.std.specs.List.Sorted.{IsNonDecreasing};
ghost use Rattle.report.specs.Line.{first_lines};
ghost use Rattle.report.specs.LineText.{line_text};
ghost use Rattle.report.specs.Text.{yes_or_no, cuts_word, by_words};
ghost use Rattle.report.specs.Report.{device_text, choices_text, given_text, base_words, steps_word, guards_words, steps_text, program_line, program_lines, totals_line, image_text, first_line, last_line, shown_lines, options_text, head_text, findings_text, report_bytes};
ghost use Rattle.report.specs.Part.{span_text, span_report};

use crate::choice_text::put_cuts_words;
use crate::head::{Head, ProgramHead};
use crate::lines::Lines;
use crate::span::{Span, put_span};
use epochs::{By, CutKind};
use std::alloc::{AllocError, Global};

/// Whether something is so, in a word.
pub fn yes_or_no_word(b: bool) -> &'static str
    ensures { result.now ≡ yes_or_no b }
{
    if b { "yes" } else { "no" }
}

/// What a kind of cuts is called.
pub fn word_of_cuts(kind: CutKind) -> &'static str
    ensures { result.now ≡ cuts_word kind }
{
    match kind {
        CutKind::All => "all",
        CutKind::BeforeFlush => "flush",
        CutKind::AfterMark => "mark",
    }
}

/// What departs as one, where it isn't a sector.
fn words_of_by(by: By) -> &'static str
    ensures { result.now ≡ by_words by }
{
    match by {
        By::Sector => "",
        By::Write => " by write",
    }
}

/// What the most steps of a run are called.
fn word_of_steps(verified: bool) -> &'static str
    ensures { result.now ≡ steps_word verified }
{
    if verified { "budget" } else { "limit" }
}

/// Appends the device, the length of the log and the cuts.
///
/// # Errors
///
/// Memory was refused.
#[tactic(auto, unfolding(crate::specs::Report::device_text))]
pub fn put_device(out: &mut String, head: &Head) -> Result<(), AllocError>
    ensures { OnOk result (string_bytes out.new ≡ string_bytes out.old ++ device_text head.now) }
{
    let cuts = word_of_cuts(head.cuts.kind);
    write!(
        out,
        "sectors {} entries {} cuts {cuts}",
        head.sectors, head.entries
    )
}

/// Appends the number of what the device held before entry 0, where that is given.
fn put_base(out: &mut String, base: Option<u64>) -> Result<(), AllocError>
    ensures { OnOk result (string_bytes out.new ≡ string_bytes out.old ++ base_words base) }
{
    match base {
        Some(number) => write!(out, " base {number}"),
        None => Ok(()),
    }
}

/// Appends the bound, the tears and whether the first failing image is asked for.
#[tactic(auto, unfolding(crate::specs::Report::choices_text))]
fn put_choices(out: &mut String, head: &Head) -> Result<(), AllocError>
    ensures { OnOk result (string_bytes out.new ≡ string_bytes out.old ++ choices_text head.now) }
{
    let tears = yes_or_no_word(head.tears);
    let first = yes_or_no_word(head.first);
    write!(out, " bound {} tears {tears} first {first}", head.bound)
}

/// Appends what departs as one where it isn't a sector, the flushes that were added, the range of the cuts, and the number of what
/// the device held before entry 0.
///
/// # Errors
///
/// Memory was refused.
#[tactic(auto, unfolding(crate::specs::Report::given_text))]
pub fn put_given(out: &mut String, head: &Head) -> Result<(), AllocError>
    ensures { OnOk result (string_bytes out.new ≡ string_bytes out.old ++ given_text head.now) }
{
    let by = words_of_by(head.by);
    write!(out, "{by}")?;
    put_cuts_words(out, &head.cuts)?;
    put_base(out, head.base)?;
    write!(out, "\n")
}

/// Appends how many slots are guarded, where the program was accepted with guards.
fn put_guards(out: &mut String, guards: Option<u32>) -> Result<(), AllocError>
    ensures { OnOk result (string_bytes out.new ≡ string_bytes out.old ++ guards_words guards) }
{
    match guards {
        Some(number) => write!(out, " guards {number}"),
        None => Ok(()),
    }
}

/// Appends the most steps of a run of a program, and how many of its slots are guarded where it was accepted with guards.
///
/// # Errors
///
/// Memory was refused.
pub fn put_steps(out: &mut String, program: ProgramHead) -> Result<(), AllocError>
    ensures { OnOk result (string_bytes out.new ≡ string_bytes out.old ++ steps_text program) }
{
    let steps = word_of_steps(program.verified);
    write!(out, "{steps} {}", program.limit)?;
    put_guards(out, program.guards)
}

/// Appends the line of a program.
#[tactic(auto, unfolding(crate::specs::Report::program_line))]
fn put_program(out: &mut String, number: usize, program: ProgramHead) -> Result<(), AllocError>
    ensures { OnOk result (string_bytes out.new ≡ string_bytes out.old ++ program_line number program) }
{
    write!(out, "program {number} slots {} ", program.slots)?;
    put_steps(out, program)?;
    write!(out, "\n")
}

/// Appends the lines of the programs.
///
/// # Errors
///
/// Memory was refused.
pub fn put_programs(out: &mut String, programs: &[ProgramHead]) -> Result<(), AllocError>
    ensures { OnOk result (string_bytes out.new ≡ string_bytes out.old ++ program_lines 0 programs.now) }
{
    for (number, program) in programs.iter().enumerate() {
        put_program(out, number, *program)?;
    }
    Ok(())
}

/// Appends the totals.
///
/// # Errors
///
/// Memory was refused.
#[tactic(auto, unfolding(crate::specs::Report::totals_line))]
pub fn put_totals(out: &mut String, images: u64, lines: &Lines) -> Result<(), AllocError>
    requires { IsNonDecreasing (map (λ l. l.image) lines.now) }
    ensures { OnOk result (string_bytes out.new ≡ string_bytes out.old ++ totals_line images lines.now) }
{
    let failing = lines.image_count();
    write!(
        out,
        "images {images} failing {failing} lines {}\n",
        lines.len()
    )
}

/// Appends an image, or that there is none.
///
/// # Errors
///
/// Memory was refused.
pub fn put_image(out: &mut String, image: Option<u64>) -> Result<(), AllocError>
    ensures { OnOk result (string_bytes out.new ≡ string_bytes out.old ++ image_text image) }
{
    match image {
        Some(image) => write!(out, "{image}"),
        None => write!(out, "none"),
    }
}

/// Appends the number of the first failing image.
#[tactic(auto, unfolding(crate::specs::Report::first_line))]
fn put_first_line(out: &mut String, images: u64, lines: &Lines) -> Result<(), AllocError>
    ensures { OnOk result (string_bytes out.new ≡ string_bytes out.old ++ first_line images (first_lines lines.now)) }
{
    write!(out, "images {images} first ")?;
    put_image(out, lines.first_image())?;
    write!(out, "\n")
}

/// Appends the last line of a text of that many images.
fn put_last_line(
    out: &mut String,
    first: bool,
    images: u64,
    lines: &Lines,
) -> Result<(), AllocError>
    requires { IsNonDecreasing (map (λ l. l.image) lines.now) }
    ensures { OnOk result (string_bytes out.new ≡ string_bytes out.old ++ last_line first images lines.now) }
{
    if first {
        put_first_line(out, images, lines)
    } else {
        put_totals(out, images, lines)
    }
}

/// The last line of a text of that many images.
fn last_line(alloc: Global, first: bool, images: u64, lines: &Lines) -> Result<String, AllocError>
    requires { IsNonDecreasing (map (λ l. l.image) lines.now) }
    ensures { IfOk result (λ out. string_bytes out ≡ last_line first images lines.now) }
{
    let mut out = String::new(alloc);
    put_last_line(&mut out, first, images, lines)?;
    Ok(out)
}

/// Appends the failing lines: all of them, or those of the first failing image where it alone was asked for.
fn put_lines(out: &mut Vec<u8>, first: bool, lines: &Lines) -> Result<(), AllocError>
    requires { IsNonDecreasing (map (λ l. l.image) lines.now) }
    ensures { OnOk result (out.new.items ≡ out.old.items ++ flat_map line_text (shown_lines first lines.now)) }
{
    if first {
        lines.put_first(out)
    } else {
        lines.put(out)
    }
}

/// How many bytes the failing lines take: all of them, or those of the first failing image where it alone was asked for. At most
/// 2^64 - 1.
fn lines_len(first: bool, lines: &Lines) -> usize
    requires { IsNonDecreasing (map (λ l. l.image) lines.now) }
    ensures { result ≡ min (length (flat_map line_text (shown_lines first lines.now))) (2 ^ 64 - 1) }
{
    if first {
        lines.first_len()
    } else {
        lines.text_len()
    }
}

/// How many bytes the failing lines and the last line take, at most 2^64 - 1.
fn findings_len(first: bool, lines: &Lines, last: &str) -> usize
    requires { IsNonDecreasing (map (λ l. l.image) lines.now) }
    ensures { result ≡ min (length (flat_map line_text (shown_lines first lines.now)) + length last.now) (2 ^ 64 - 1) }
{
    lines_len(first, lines).saturating_add(last.len())
}

/// Appends the options and the programs.
///
/// # Errors
///
/// Memory was refused.
pub fn put_options(out: &mut String, head: &Head) -> Result<(), AllocError>
    ensures { OnOk result (string_bytes out.new ≡ string_bytes out.old ++ options_text head.now) }
{
    put_device(out, head)?;
    put_choices(out, head)?;
    put_given(out, head)?;
    put_programs(out, head.programs.as_slice())
}

/// What stands before the lines.
fn head_text(alloc: Global, head: &Head) -> Result<String, AllocError>
    ensures { IfOk result (λ out. string_bytes out ≡ head_text head.now) }
{
    let mut out = String::new(alloc);
    write!(out, "crash report 2\n")?;
    put_options(&mut out, head)?;
    Ok(out)
}

/// Appends the failing lines of that many images, and the last line.
fn with_findings(
    alloc: Global,
    begun: String,
    first: bool,
    images: u64,
    lines: &Lines,
) -> Result<Vec<u8>, AllocError>
    requires { IsNonDecreasing (map (λ l. l.image) lines.now) }
    ensures { IfOk result (λ bytes. bytes.items ≡ string_bytes begun ++ findings_text first images lines.now) }
{
    let last = last_line(alloc, first, images, lines)?;
    let mut out = begun.into_bytes();
    out.reserve_exact(findings_len(first, lines, last.as_str()))?;
    put_lines(&mut out, first, lines)?;
    out.extend_from_slice(last.as_bytes())?;
    Ok(out)
}

/// The bytes of the report (docs/OUTPUT.md). The lines are in the order of their images. Where the first
/// failing image alone was asked for, lines of other images are left out.
///
/// It takes room for the report once, beside the lines.
///
/// # Errors
///
/// Memory was refused.
#[tactic(auto, unfolding(crate::specs::Report::report_bytes))]
pub fn write_report(alloc: Global, head: &Head, lines: &Lines) -> Result<Vec<u8>, AllocError>
    requires { IsNonDecreasing (map (λ l. l.image) lines.now) }
    ensures { IfOk result (λ bytes. bytes.items ≡ report_bytes head.now lines.now) }
{
    let begun = head_text(alloc, head)?;
    with_findings(alloc, begun, head.first, head.images, lines)
}

/// What stands before the lines of a part.
fn part_head_text(alloc: Global, head: &Head, span: Span) -> Result<String, AllocError>
    ensures { IfOk result (λ out. string_bytes out ≡ span_text span ++ options_text head.now) }
{
    let mut out = String::new(alloc);
    put_span(&mut out, span)?;
    put_options(&mut out, head)?;
    Ok(out)
}

/// The bytes of a part of a run (docs/OUTPUT.md, The text of a part): of the images of the span. The lines are theirs, in their
/// order. The totals are those of the part; of the head's number of images nothing is printed.
///
/// # Errors
///
/// Memory was refused.
pub fn write_part(
    alloc: Global,
    head: &Head,
    span: Span,
    lines: &Lines,
) -> Result<Vec<u8>, AllocError>
    requires span { span.from ≤ span.to }
    requires order { IsNonDecreasing (map (λ l. l.image) lines.now) }
    ensures { IfOk result (λ bytes. bytes.items ≡ span_report head.now span lines.now) }
{
    let begun = part_head_text(alloc, head, span)?;
    with_findings(alloc, begun, head.first, span.to - span.from, lines)
}
