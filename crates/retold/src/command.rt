//! What a command answers on a log and a report.

ghost use Rattle.std.specs.Prelude.{◌≡◌, ◌≢◌, ◌<◌, ◌≤◌, ◌^◌, ◌↔◌, [], IfOk, IfErr, IsTrue, MatchOption, length, map};
ghost use Rattle.request.specs.Source.{plan_of, images_of};
ghost use Rattle.request.specs.Inputs.{options_given};
ghost use Rattle.retold.specs.Retold.{IsGiven, IsGivenAs, IsRetold, IsRetoldOf, NoneAs, NoneIsGiven, NoneUpTo, RefusesReport, RefusesRetold, Retells, is_counted, starts_given, title_given};
ghost use Rattle.join.specs.GivenReading.{given_told};
ghost use Rattle.join.specs.Given.{line_told};
ghost use Rattle.retold.specs.Told.{AreOfRun, HasHead, TellsPage, count_of};

use crate::page::page_text;
use crate::places::places_text;
use crate::subject::Subject;
use crate::why::why_text;
use base::refusal::Refusal;
use choices::Starts;
use epochs::Plan;
use join::{Given, ReportRun, read_report};
use logfmt::Log;
use request::facts::Recording;
use request::{
    Extent, OptionPlace, Options, Retelling, inputs_line, number_of_report, option_refusal_of,
    plan_of, report_options,
};
use std::alloc::{AllocError, Global};

/// The first line of a report.
const TITLE: &str = "crash report 2\n";

/// How many bytes a report has at most: 1 GiB.
pub const MOST_OF_REPORT: usize = 1_073_741_824;

/// Why nothing is told.
#[derive(Clone, Copy)]
pub enum RetellFault {
    /// The options, the log or the number of its images are refused, or memory was.
    Refused(Refusal),
    /// The report is none of the log with these options, which shows at this line.
    Report(u64),
}

/// The run of which a report is to be.
#[derive(Clone, Copy)]
struct ReportBasis<'x> {
    /// The bytes of the log's file.
    file: &'x [u8],
    log: &'x Log<'x>,
    starts: &'x Starts<'x>,
    options: &'x Options,
    images: u64,
    pub ghost by_is: { options.now.by ≡ starts.now.plan.by },
    pub ghost log_is: { starts.now.plan.log ≡ log.now },
    pub ghost starts_are: { starts.now ≡ starts_given options.now log.now },
    pub ghost images_are: { images ≡ length (images_of options.now log.now) },
}

/// What is answered.
#[derive(Drop)]
pub struct Retold {
    /// The text.
    pub bytes: Vec<u8>,
    /// Whether the report has a failing line.
    pub failing: bool,
}

/// How many programs a report has.
fn count_of(given: &Given<'_>) -> usize
    ensures { result ≡ count_of (given_told given.now) }
{
    if given.outside {
        1
    } else {
        given.programs.len()
    }
}

/// The page of a report that was read.
fn page_of(
    alloc: Global,
    basis: &ReportBasis<'_>,
    subject: &Subject<'_>,
    given: &Given<'_>,
) -> Result<Vec<u8>, AllocError>
    requires starts { subject.now.starts.now ≡ basis.now.starts.now }
    requires lines { map line_told subject.now.lines.now ≡ (given_told given.now).lines }
    requires of_run { AreOfRun subject.now.starts.now (map line_told subject.now.lines.now) }
    requires head { HasHead (options_given basis.now.options.now basis.now.log.now) (given_told given.now) }
    requires programs { subject.now.programs ≡ count_of (given_told given.now) }
    ensures { IfOk result (λ bytes. TellsPage (options_given basis.now.options.now basis.now.log.now) subject.now.starts.now (given_told given.now) bytes.items) }
{
    let options = basis.options;
    let line = report_options(alloc, basis.log, options, basis.images)?;
    page_text(alloc, subject, options.cuts(), line.as_str(), given)
}

/// What is told of a report that was read.
fn told(
    alloc: Global,
    telling: Retelling,
    basis: &ReportBasis<'_>,
    report: &[u8],
    given: &Given<'_>,
) -> Result<Vec<u8>, AllocError>
    requires { IsGiven basis.now.file.now basis.now.options.now basis.now.log.now report.now (given_told given.now) }
    ensures { IfOk result (λ bytes. Retells telling basis.now.options.now basis.now.log.now (given_told given.now) bytes.items) }
{
    let _report = report;
    let (log, starts, options) = (basis.log, basis.starts, basis.options);
    let subject = Subject {
        log,
        starts,
        by: options.by(),
        lines: given.lines.as_slice(),
        programs: count_of(given),
    };
    match telling {
        Retelling::Causes => why_text(alloc, &subject, given),
        Retelling::Page => page_of(alloc, basis, &subject, given),
        Retelling::Places => places_text(alloc, &subject, &options.cuts(), given),
    }
}

/// How a report of the run begins: with its title, after which stands, where it says of what it is, how many programs it says to have;
/// and with the line of its options.
#[derive(Clone, Copy)]
struct Opening<'x> {
    title: &'x str,
    /// How many programs it says to have, and 0 where it doesn't say that.
    programs: u64,
    options: &'x str,
}

/// Whether a report has as many programs as it says, where it says how many.
fn is_counted(programs: u64, given: &Given<'_>) -> bool
    ensures { result ≡ is_counted programs (given_told given.now) }
{
    programs == 0 || programs == count_of(given) as u64
}

/// What a report says, where it is one of the run that begins so. `line` becomes the line at which it shows that it is none, if that is a
/// later one.
#[tactic(auto, using(crate::proofs::Bases::none_as, crate::proofs::Bases::given_as, crate::proofs::Bases::uncounted))]
fn read_as<'t>(
    alloc: Global,
    basis: &ReportBasis<'_>,
    opening: &Opening<'_>,
    report: &'t [u8],
    line: &mut u64,
) -> Result<Option<Given<'t>>, AllocError>
    requires short { length report.now ≤ 2 ^ 30 }
    requires title { opening.now.title.now ≡ title_given basis.now.file.now basis.now.options.now basis.now.log.now opening.now.programs }
    requires options { opening.now.options.now ≡ options_given basis.now.options.now basis.now.log.now }
    ensures { IfOk result (λ found. MatchOption found (NoneAs basis.now.file.now basis.now.options.now basis.now.log.now report.now opening.now.programs) (λ g. IsGivenAs basis.now.file.now basis.now.options.now basis.now.log.now report.now opening.now.programs (given_told g))) }
{
    let run = ReportRun {
        title: opening.title,
        options: opening.options,
        starts: basis.starts,
        by: basis.options.by(),
        images: basis.images,
    };
    let mut at = 0;
    let found = read_report(alloc, &run, report, &mut at)?;
    *line = (*line).max(at);
    let Some(given) = found else {
        return Ok(None);
    };
    if is_counted(opening.programs, &given) {
        Ok(Some(given))
    } else {
        // After the title, the inputs, the options and its programs.
        *line = (count_of(&given) as u64).saturating_add(4);
        Ok(None)
    }
}

/// What a report says, where it is one of the run and says of what it is. `line` becomes the line at which it shows that it is none, if
/// that is a later one.
#[tactic(auto, using(crate::proofs::Bases::title_more, crate::proofs::Bases::given_so, crate::proofs::Bases::none_next))]
fn read_marked<'t>(
    alloc: Global,
    basis: &ReportBasis<'_>,
    options: &str,
    report: &'t [u8],
    line: &mut u64,
) -> Result<Option<Given<'t>>, AllocError>
    requires short { length report.now ≤ 2 ^ 30 }
    requires options { options.now ≡ options_given basis.now.options.now basis.now.log.now }
    ensures { IfOk result (λ found. MatchOption found (NoneUpTo basis.now.file.now basis.now.options.now basis.now.log.now report.now 8) (λ g. IsGiven basis.now.file.now basis.now.options.now basis.now.log.now report.now (given_told g))) }
{
    let number = number_of_report(basis.file, options.as_bytes());
    for fewer in 0..8 {
        let inputs = inputs_line(alloc, number, fewer + 1)?;
        let mut title = String::new(alloc);
        title.push_str(TITLE)?;
        title.push_str(inputs.as_str())?;
        let opening = Opening {
            title: title.as_str(),
            programs: fewer + 1,
            options,
        };
        if let Some(given) = read_as(alloc, basis, &opening, report, line)? {
            return Ok(Some(given));
        }
    }
    Ok(None)
}

/// What a report says, where it is one of the run. Most say nothing of what they are, and so need no number.
#[tactic(auto, using(crate::proofs::Bases::given_so, crate::proofs::Bases::none_given))]
fn read_any<'t>(
    alloc: Global,
    basis: &ReportBasis<'_>,
    report: &'t [u8],
    line: &mut u64,
) -> Result<Option<Given<'t>>, AllocError>
    requires short { length report.now ≤ 2 ^ 30 }
    ensures { IfOk result (λ found. MatchOption found (NoneIsGiven basis.now.file.now basis.now.options.now basis.now.log.now report.now) (λ g. IsGiven basis.now.file.now basis.now.options.now basis.now.log.now report.now (given_told g))) }
{
    let options = report_options(alloc, basis.log, basis.options, basis.images)?;
    let opening = Opening {
        title: TITLE,
        programs: 0,
        options: options.as_str(),
    };
    match read_as(alloc, basis, &opening, report, line)? {
        Some(given) => Ok(Some(given)),
        None => read_marked(alloc, basis, options.as_str(), report, line),
    }
}

/// What a report says, where it is one of the run.
fn given_of<'t>(
    alloc: Global,
    basis: &ReportBasis<'_>,
    report: &'t [u8],
) -> Result<Given<'t>, RetellFault>
    requires { length report.now ≤ 2 ^ 30 }
    ensures given { IfOk result (λ g. IsGiven basis.now.file.now basis.now.options.now basis.now.log.now report.now (given_told g)) }
    ensures refused { IfErr result (RefusesReport basis.now.file.now basis.now.options.now basis.now.log.now report.now) }
{
    let mut at = 0;
    let Ok(found) = read_any(alloc, basis, report, &mut at) else {
        return Err(RetellFault::Refused(Refusal::of_memory()));
    };
    match found {
        Some(given) => Ok(given),
        None => Err(RetellFault::Report(at)),
    }
}

/// Whether a report has a failing line.
fn is_failing(given: &Given<'_>) -> bool
    ensures { IsTrue result ↔ ((given_told given.now).lines ≢ []) }
{
    !given.lines.is_empty()
}

/// What is told of a report of that many images, which the table numbers.
fn told_of(
    alloc: Global,
    telling: Retelling,
    basis: &ReportBasis<'_>,
    report: &[u8],
) -> Result<Retold, RetellFault>
    requires { length report.now ≤ 2 ^ 30 }
    ensures told { IfOk result (λ r. IsRetoldOf telling basis.now.file.now basis.now.options.now basis.now.log.now report.now r.bytes.items r.failing) }
    ensures refused { IfErr result (RefusesReport basis.now.file.now basis.now.options.now basis.now.log.now report.now) }
{
    match given_of(alloc, basis, report) {
        Ok(given) => match told(alloc, telling, basis, report, &given) {
            Ok(bytes) => Ok(Retold {
                bytes,
                failing: is_failing(&given),
            }),
            Err(_error) => Err(RetellFault::Refused(Refusal::of_memory())),
        },
        Err(fault) => Err(fault),
    }
}

/// What is told of a report of the images of a log, as its plan has them.
fn told_by(
    alloc: Global,
    telling: Retelling,
    file: &[u8],
    log: &Log<'_>,
    plan: &Plan<'_>,
    images: u64,
    report: &[u8],
    options: &Options,
) -> Result<Retold, RetellFault>
    requires plan { plan.now ≡ plan_of options.now log.now }
    requires count { images ≡ length (images_of options.now log.now) }
    requires few { images < 2 ^ 63 }
    requires short { length report.now ≤ 2 ^ 30 }
    ensures told { IfOk result (λ r. IsRetoldOf telling file.now options.now log.now report.now r.bytes.items r.failing) }
    ensures refused { IfErr result (RefusesReport file.now options.now log.now report.now) }
{
    let Ok(starts) = Starts::new(alloc, plan, options.bound(), options.tears()) else {
        return Err(RetellFault::Refused(Refusal::of_memory()));
    };
    let basis = ReportBasis {
        file,
        log,
        starts: &starts,
        options,
        images,
    };
    told_of(alloc, telling, &basis, report)
}

/// What is told of a report, of the log that a recording is. Where the bytes are no report of it with these options, it is said at which
/// line that shows: at the first that doesn't go on as such a report does, at the first of the programs for any of their lines, after the
/// last where it is cut off, and at 0 where it has more than 1 GiB. A report that says of what it is has to be of this log with these
/// options, and to have as many programs as it says.
///
/// # Errors
///
/// 13 at 17 where the options mean a part of a run; those of the log and of the number of its images; that the bytes are no such report;
/// or want of memory.
pub fn retell(
    alloc: Global,
    telling: Retelling,
    recording: &Recording<'_>,
    report: &[u8],
    options: &Options,
) -> Result<Retold, RetellFault>
    ensures told { IfOk result (λ r. IsRetold telling recording.now report.now options.now r.bytes.items r.failing) }
    ensures refused { IfErr result (RefusesRetold recording.now report.now options.now) }
{
    match options.extent() {
        Extent::Whole => {}
        _ => return Err(RetellFault::Refused(option_refusal_of(OptionPlace::Images))),
    }
    if report.len() > MOST_OF_REPORT {
        return Err(RetellFault::Report(0));
    }
    let log = match recording.read(alloc, options) {
        Ok(log) => log,
        Err(refusal) => return Err(RetellFault::Refused(refusal)),
    };
    let (plan, images) = match plan_of(alloc, &log, options) {
        Ok(found) => found,
        Err(refusal) => return Err(RetellFault::Refused(refusal)),
    };
    let file = recording.log();
    told_by(alloc, telling, file, &log, &plan, images, report, options)
}
