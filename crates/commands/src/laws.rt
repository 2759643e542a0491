//! Laws of reports and refusals. The functions do nothing else than call the laws of lower layers; each
//! contract is a theorem.

ghost use Rattle.commands.specs.CaseParts.{CasesAreText, JoinIsExploreOfCases, JoinIsExploreOfCasesByOwn, LaidOutRangesAreParts, RangesOfRunAreJoined};
ghost use Rattle.commands.specs.Differences.{ShowNamesDifferences};
ghost use Rattle.commands.specs.Largest.{ReportsAreBounded};
ghost use Rattle.commands.specs.Laws.{OneReport, ReportOrRefusal};
ghost use Rattle.commands.specs.OneAnswer.{OneAnswer, AnswerOrRefusal, WorkChangesNothing};
ghost use Rattle.commands.specs.Once.{EachImageStandsOnce};
ghost use Rattle.commands.specs.OfReport.{PageOfReportIsPage, WhyOfReportIsWhy};
ghost use Rattle.commands.specs.OtherWork.{JoinIsExploreByOwn};
ghost use Rattle.commands.specs.Records.{RecordsTellTruth};
ghost use Rattle.commands.specs.Parts.{JoinIsExplore, JoinedPartsAreRun, PartsOfRunAreJoined};

use bpf_isa::laws::{no_fault_in_spelled, one_program};
use case_runs::{finding_is_one, first_is_one};
use cases::last_cuts_have_all;
use choices::list_is_set;
use inspect::looks::cut_parts_are_run;
use known::{complete_has_all, found_fail, found_is_one};
use logfmt::{text_has_no_fault, text_of_one_log};
use losses::why::{all_stand, each_stands_once};
use verifier::laws::one_verdict;
use workers::lines_are_set;

/// There is at most one report for given bytes of a log and of programs and given options.
pub fn one_report()
    ensures { OneReport }
{
    text_of_one_log();
    one_program();
    one_verdict();
}

/// For every request, given what the files hold, two answers have the same bytes and the same status.
pub fn one_answer()
    ensures { OneAnswer }
{
    text_of_one_log();
    one_program();
    one_verdict();
    bpf_asm::laws::one_program();
    finding_is_one();
    first_is_one();
    found_is_one();
}

/// Where there is an answer to a request, a refusal is for want of memory alone.
pub fn answer_or_refusal()
    ensures { AnswerOrRefusal }
{
    text_of_one_log();
    text_has_no_fault();
    one_program();
    no_fault_in_spelled();
    one_verdict();
    finding_is_one();
    first_is_one();
    found_is_one();
}

/// Two command lines that differ in the number of workers, the size of the cache and the line of progress alone have the same
/// answer.
pub fn work_changes_nothing()
    ensures { WorkChangesNothing }
{
    one_answer();
}

/// `show` names each sector in which an image differs from the image of the same cut where nothing departs. Where it names none,
/// the image is that one. So two images of one cut of which it names none are the same.
pub fn show_names_differences()
    ensures { ShowNamesDifferences }
{
    text_of_one_log();
}

/// A report and a refusal for another cause than memory exclude each other.
pub fn report_or_refusal()
    ensures { ReportOrRefusal }
{
    text_of_one_log();
    text_has_no_fault();
    one_program();
    no_fault_in_spelled();
    one_verdict();
}

/// Each image on which a program fails, by the lines of the report, stands once in what `why` says of it: at one cut, and there
/// under one group, that of the example in which the same parts are lost and the same parts are torn as in a failing choice that is a
/// part of its own. The example is smallest: no other failing choice of the cut is a part of it.
pub fn each_image_stands_once()
    ensures { EachImageStandsOnce }
{
    lines_are_set();
    list_is_set();
    each_stands_once();
    all_stand();
}

/// The texts that `explore --images` answers for parts of a run, joined, are what the run answers for these images, where each of them
/// is in one part and no other image is in any: the report of all images, or the text of the part that they make. Whether an image
/// fails is told alike.
pub fn joined_parts_are_run()
    ensures { JoinedPartsAreRun }
{
    text_of_one_log();
    one_program();
    one_verdict();
}

/// `join` refuses such texts for their length or for want of memory alone, where they are all parts of the run, or with `--part`.
pub fn parts_of_run_are_joined()
    ensures { PartsOfRunAreJoined }
{
    text_of_one_log();
    one_program();
    one_verdict();
}

/// Given files with what `explore --images` prints for parts of a run, which have each of its images once, `join` prints what
/// `explore` prints of the whole run, with the same status, and so does `join --part`.
pub fn join_is_explore()
    ensures { JoinIsExplore }
{
    text_of_one_log();
    one_program();
    one_verdict();
}

/// The join of parts is the run as well where other numbers of workers, and caches of other sizes, made them than the whole
/// run.
pub fn join_is_explore_by_own()
    ensures { JoinIsExploreByOwn }
{
    join_is_explore();
}

/// What `explore --bound any` prints of all failing cases is a text of cases, as `join` reads it.
pub fn cases_are_text()
    ensures { CasesAreText }
{}

/// The ranges in which `images --bound any --parts` lays a run out follow one another, and together they have its cuts.
pub fn laid_out_ranges_are_parts()
    ensures { LaidOutRangesAreParts }
{
    cut_parts_are_run();
}

/// Given files with what `explore --bound any` prints of ranges of cuts that follow one another, and that together have the cuts of a
/// run, `join` prints what `explore --bound any` prints of the whole range, with the same status, and so does `join --part`.
pub fn join_is_explore_of_cases()
    ensures { JoinIsExploreOfCases }
{
    text_of_one_log();
    one_program();
    one_verdict();
}

/// `join` refuses such texts for their length, for want of memory, or since they have more cases than a run may have, alone, where they
/// have all cuts of the log, or with `--part`.
pub fn ranges_of_run_are_joined()
    ensures { RangesOfRunAreJoined }
{
    text_of_one_log();
    one_program();
    one_verdict();
}

/// The join of ranges of cuts is the run as well where other numbers of workers made them than the whole run.
pub fn join_is_explore_of_cases_by_own()
    ensures { JoinIsExploreOfCasesByOwn }
{
    join_is_explore_of_cases();
}

/// Given the report that `explore` prints of a run, `why --report` says what `why` says of its programs, with the same status. No
/// command refuses it as no report but where it has more than 1 GiB.
pub fn why_of_report_is_why()
    ensures { WhyOfReportIsWhy }
{
    text_of_one_log();
    one_program();
    one_verdict();
}

/// Given the report that `explore` prints of a run, `page --report` prints the page that `page` prints of its programs, with the same
/// status.
pub fn page_of_report_is_page()
    ensures { PageOfReportIsPage }
{
    text_of_one_log();
    one_program();
    one_verdict();
}

/// The failing lines of a report have no more bytes than are said beforehand: as many as the longest line, for each image that is judged
/// and each program.
pub fn reports_are_bounded()
    ensures { ReportsAreBounded }
{}

/// What `explore` prints of records is the text of what is found by them. Where each record is true of a program, so is what is told of
/// it: it fails on each image of a failing case, and at a cut of which nothing is open, left out or pending on no other. The text ends in
/// ` complete` or ` of these cuts` exactly where that holds of each cut that was searched. Then each image of any cut that was asked for
/// on which the program fails is one of a failing case, and with ` complete` every cut of the log was asked for. With status 0 it fails on
/// no image of any cut that was asked for.
pub fn records_tell_truth()
    ensures { RecordsTellTruth }
{
    found_fail();
    complete_has_all();
    last_cuts_have_all();
}
