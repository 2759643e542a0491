//! A report as a whole, read and tested.

ghost use Rattle.std.specs.Prelude.{◌≡◌, ◌≤◌, ◌^◌, ◌++◌, IfOk, MatchOption, length};
ghost use Rattle.std.specs.Str.{IsUtf8};
ghost use Rattle.join.specs.Given.{NoReport, IsReportRead};
ghost use Rattle.join.specs.GivenReading.{given_told};

use crate::ending::without;
use crate::given::judges::judges_said;
use crate::given::lines::lines_said;
use crate::given::run::ReportRun;
use crate::given::told::GivenLine;
use crate::part::is_last;
use crate::words::beyond;
use report::{ProgramHead, Span};
use std::alloc::{AllocError, Global};
use std::str;

/// What is read of a report.
#[derive(Drop)]
pub struct Given<'t> {
    /// The lines of its options and its programs.
    pub head: &'t str,
    /// Whether its program is one that is given images as files.
    pub outside: bool,
    /// What is said of each program that is a checker.
    pub programs: Vec<ProgramHead>,
    /// What its lines say.
    pub lines: Vec<GivenLine<'t>>,
    /// Its last line.
    pub last: &'t str,
}

/// How many newlines a text has.
fn newlines(text: &[u8]) -> u64 {
    let mut count: u64 = 0;
    for byte in text {
        if *byte == b'\n' {
            count = count.saturating_add(1);
        }
    }
    count
}

/// How many newlines stand before the last bytes of a text, which it may end in.
fn newlines_before(text: &str, rest: &str) -> u64 {
    let end = text.len().saturating_sub(rest.len());
    match text.as_bytes().get(..end) {
        Some(front) => newlines(front),
        None => 0,
    }
}

/// What a report says after its title, by the text after its options, which goes on with the programs; none where it is none of the run.
/// `line` becomes the line at which that shows, from that of the programs on.
#[tactic(auto, using(crate::proofs::JudgesRead::few_judges))]
fn rest_said<'t>(
    alloc: Global,
    run: &ReportRun<'_>,
    whole: &'t str,
    titled: &'t str,
    text: &'t str,
    line: &mut u64,
) -> Result<Option<Given<'t>>, AllocError>
    requires short { length whole.now ≤ 2 ^ 30 }
    requires utf8 { IsUtf8 whole.now }
    requires titled { whole.now ≡ run.now.title.now ++ titled.now }
    requires given { titled.now ≡ run.now.options.now ++ text.now }
    ensures { IfOk result (λ found. MatchOption found (NoReport run.now.title.now run.now.options.now run.now.starts.now run.now.images whole.now) (λ g. IsReportRead run.now.title.now run.now.options.now run.now.starts.now run.now.images whole.now (given_told g))) }
{
    *line = newlines_before(whole, text).saturating_add(1);
    let Some((judges, lines)) = judges_said(alloc, text)? else {
        return Ok(None);
    };
    let begun = newlines_before(whole, lines);
    let (outside, count) = (judges.outside, judges.count());
    let span = Span {
        from: 0,
        to: run.images,
        images: run.images,
        inputs: 0,
    };
    let said = lines_said(alloc, run, span, outside, count, lines)?;
    *line = begun.saturating_add(said.ordered).saturating_add(1);
    if !said.tally.ordered {
        return Ok(None);
    }
    if !is_last(alloc, false, run.images, said.tally, said.rest)? {
        return Ok(None);
    }
    let Some(head) = without(titled, lines) else {
        return Ok(None);
    };
    Ok(Some(Given {
        head,
        outside,
        programs: judges.programs,
        lines: said.lines,
        last: said.rest,
    }))
}

/// What a report says; none where the text is no report of the run. `line` becomes the line at which that shows.
#[tactic(auto, using(crate::proofs::GivenWhole::no_title_no_report, crate::proofs::GivenWhole::no_options_no_report))]
fn text_said<'t>(
    alloc: Global,
    run: &ReportRun<'_>,
    text: &'t str,
    line: &mut u64,
) -> Result<Option<Given<'t>>, AllocError>
    requires short { length text.now ≤ 2 ^ 30 }
    requires utf8 { IsUtf8 text.now }
    ensures { IfOk result (λ found. MatchOption found (NoReport run.now.title.now run.now.options.now run.now.starts.now run.now.images text.now) (λ g. IsReportRead run.now.title.now run.now.options.now run.now.starts.now run.now.images text.now (given_told g))) }
{
    *line = 1;
    let Some(titled) = beyond(run.title, text) else {
        return Ok(None);
    };
    *line = newlines_before(text, titled).saturating_add(1);
    let Some(judged) = beyond(run.options, titled) else {
        return Ok(None);
    };
    rest_said(alloc, run, text, titled, judged, line)
}

/// Returns the line at which the first byte stands that isn't ASCII.
fn line_of_foreign(bytes: &[u8]) -> u64 {
    let mut line: u64 = 1;
    for byte in bytes {
        if *byte >= 128 {
            return line;
        }
        if *byte == b'\n' {
            line = line.saturating_add(1);
        }
    }
    line
}

/// What the report of a run says, to the byte; none where the bytes are the report of no such run. Then `line` becomes the line at which
/// that shows: the first that doesn't go on as such a report does, that of the first program for any line of the programs, or that after the last one where it is
/// cut off.
///
/// # Errors
///
/// Memory was refused.
#[tactic(auto, using(crate::proofs::GivenWhole::no_text_no_report))]
pub fn read_report<'t>(
    alloc: Global,
    run: &ReportRun<'_>,
    bytes: &'t [u8],
    line: &mut u64,
) -> Result<Option<Given<'t>>, AllocError>
    requires short { length bytes.now ≤ 2 ^ 30 }
    ensures { IfOk result (λ found. MatchOption found (NoReport run.now.title.now run.now.options.now run.now.starts.now run.now.images bytes.now) (λ g. IsReportRead run.now.title.now run.now.options.now run.now.starts.now run.now.images bytes.now (given_told g))) }
{
    match str::from_utf8(bytes) {
        Ok(text) => text_said(alloc, run, text, line),
        Err(_error) => {
            *line = line_of_foreign(bytes);
            Ok(None)
        }
    }
}
