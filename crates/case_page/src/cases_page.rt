//! The page of a run of any number of losses.

ghost use Rattle.std.specs.Prelude.{◌≡◌, ◌≤◌, ◌<◌, ◌==◌, ◌++◌, if◌then◌else◌, All, length, map, IfOk, OnOk, string_bytes};
ghost use Rattle.losses.specs.declared.found.CutFound.{CutFound as FoundValue};
ghost use Rattle.case_text.specs.Text.{options_text, count_torn_beyond, count_lost_beyond};
ghost use Rattle.page_parts.specs.declared.counts.CutCount.{CutCount as CountValue};
ghost use Rattle.page_parts.specs.declared.counts.JudgedKind.TheVariants as kind;
ghost use Rattle.case_page.specs.CaseFlushes.{IsCasePage};
ghost use Rattle.page_parts.specs.Counts.{count_fails};
ghost use Rattle.case_page.specs.Counts.{all_in, failing_in, case_count, has_all};
ghost use Rattle.case_page.specs.CasePage.{run_of, bad_text, good_text, open_text, passing_text, judged_text, verdict_text, counts_of, said_text, summary_text, shown_cuts, program_text, programs_text, is_complete, left_counts, left_text, run_text, parts_text};

use crate::case_cut::put_cuts;
use crate::case_program::{CaseProgram, case_programs};
use crate::counts::{all_in, case_counts, failing_in, has_all};
use crate::run::CaseRun;
use case_text::{left_out, put_options};
use epochs::Plan;
use logfmt::Log;
use losses::found::{CutFound, Losses};
use page_parts::{
    CutCount, JudgedKind, Lacking, Logged, MOST_CELLS, PageJudge, PagePart, count_failing,
    most_of_program, put, put_about, put_advice, put_head, put_legend, put_list, put_number,
    put_row, put_title, put_unlisted,
};
use report::Head;
use std::alloc::{AllocError, Global};

/// Appends how many cases fail, at how many cuts.
#[tactic(auto, unfolding(crate::specs::CasePage::bad_text))]
fn put_bad(out: &mut String, cuts: &[CutCount]) -> Result<(), AllocError>
    ensures { OnOk result (string_bytes out.new ≡ string_bytes out.old ++ bad_text cuts.now) }
{
    put(out, PagePart::BadOpen)?;
    put_number(out, failing_in(cuts))?;
    put(out, PagePart::Of)?;
    put_number(out, all_in(cuts))?;
    put(out, PagePart::BadCases)?;
    put_number(out, count_failing(cuts) as u64)?;
    put(out, PagePart::Of)
}

/// Appends that no case fails.
#[tactic(auto, unfolding(crate::specs::CasePage::good_text))]
fn put_good(out: &mut String, cuts: &[CutCount]) -> Result<(), AllocError>
    ensures { OnOk result (string_bytes out.new ≡ string_bytes out.old ++ good_text cuts.now) }
{
    put(out, PagePart::GoodCases)?;
    put_number(out, all_in(cuts))?;
    put(out, PagePart::AtCuts)
}

/// Appends that cases were left out, and that no other one fails.
#[tactic(auto, unfolding(crate::specs::CasePage::open_text))]
fn put_open(out: &mut String, cuts: &[CutCount]) -> Result<(), AllocError>
    ensures { OnOk result (string_bytes out.new ≡ string_bytes out.old ++ open_text cuts.now) }
{
    put(out, PagePart::OpenCases)?;
    put_number(out, all_in(cuts))?;
    put(out, PagePart::AtCuts)
}

/// Appends that no case fails, of all or of those that weren't left out.
fn put_passing(out: &mut String, complete: bool, cuts: &[CutCount]) -> Result<(), AllocError>
    ensures { OnOk result (string_bytes out.new ≡ string_bytes out.old ++ passing_text complete cuts.now) }
{
    if complete {
        put_good(out, cuts)
    } else {
        put_open(out, cuts)
    }
}

/// Appends whether cases fail.
fn put_failing(out: &mut String, complete: bool, cuts: &[CutCount]) -> Result<(), AllocError>
    ensures { OnOk result (string_bytes out.new ≡ string_bytes out.old ++ (if failing_in cuts.now == 0 then passing_text complete cuts.now else bad_text cuts.now)) }
{
    if failing_in(cuts) == 0 {
        put_passing(out, complete, cuts)
    } else {
        put_bad(out, cuts)
    }
}

/// Appends at how many of these cuts a program fails.
#[tactic(auto, unfolding(crate::specs::CasePage::judged_text))]
fn put_judged(out: &mut String, complete: bool, cuts: &[CutCount]) -> Result<(), AllocError>
    ensures { OnOk result (string_bytes out.new ≡ string_bytes out.old ++ judged_text complete cuts.now) }
{
    put_failing(out, complete, cuts)?;
    put_number(out, cuts.len() as u64)?;
    put(out, PagePart::GoodClose)
}

/// Appends at how many of these cuts a program fails, or that nothing was judged.
fn put_verdict(out: &mut String, complete: bool, cuts: &[CutCount]) -> Result<(), AllocError>
    ensures { OnOk result (string_bytes out.new ≡ string_bytes out.old ++ verdict_text complete cuts.now) }
{
    if cuts.is_empty() {
        put(out, PagePart::NoCaseCuts)
    } else {
        put_judged(out, complete, cuts)
    }
}

/// The flushes that are missing for a program.
fn lacking_of(number: usize, program: &CaseProgram) -> Lacking<'_>
    ensures of { result.of ≡ kind.Cases }
    ensures program { result.program ≡ number }
    ensures flushes { result.flushes.now ≡ program.now.missing.items }
{
    Lacking {
        of: JudgedKind::Cases,
        program: number,
        flushes: program.missing.as_slice(),
    }
}

/// Appends at how many of its cuts a program fails, by whether cases were left out for it, and what flushes would do.
#[tactic(auto, unfolding(crate::specs::CasePage::said_text))]
fn put_said(
    out: &mut String,
    complete: bool,
    number: usize,
    program: &CaseProgram,
    cuts: &[CutCount],
) -> Result<(), AllocError>
    ensures { OnOk result (string_bytes out.new ≡ string_bytes out.old ++ said_text complete number program.now cuts.now) }
{
    let lacking = lacking_of(number, program);
    put_title(out, number, &PageJudge::Checker(program.head))?;
    put_verdict(out, complete, cuts)?;
    put_advice(out, &lacking, program.uncured)
}

/// Appends what `put_said` does, and the log with its cuts and the flushes that are missing.
#[tactic(auto, unfolding(crate::specs::CasePage::summary_text))]
fn put_summary(
    alloc: Global,
    out: &mut String,
    run: &CaseRun<'_>,
    complete: bool,
    number: usize,
    program: &CaseProgram,
    cuts: &[CutCount],
) -> Result<(), AllocError>
    requires cuts { All (λ (c : CountValue). c.cut ≤ length run.now.log.now.entries) cuts.now }
    ensures { OnOk result (string_bytes out.new ≡ string_bytes out.old ++ summary_text (run_of run.now) complete number program.now cuts.now) }
{
    let logged = Logged {
        plan: run.plan,
        log: run.log,
    };
    let lacking = lacking_of(number, program);
    put_said(out, complete, number, program, cuts)?;
    put_row(alloc, out, &logged, &lacking, cuts)?;
    put_legend(out, JudgedKind::Cases)?;
    put(out, PagePart::CaseKeys)
}

/// Appends the first cuts at which cases fail, and how many more there are.
#[tactic(auto, unfolding(crate::specs::CasePage::shown_cuts))]
fn put_shown_cuts(
    alloc: Global,
    out: &mut String,
    run: &CaseRun<'_>,
    program: usize,
    found: &[CutFound],
    counts: &[CutCount],
) -> Result<(), AllocError>
    requires cuts { All (λ (c : FoundValue). c.cut ≤ length run.now.log.now.entries) found.now }
    requires counts { counts.now ≡ counts_of program found.now }
    ensures { OnOk result (string_bytes out.new ≡ string_bytes out.old ++ shown_cuts (run_of run.now) program found.now) }
{
    let most = most_of_program(run.log);
    let count = count_failing(counts).saturating_sub(MOST_CELLS);
    put_cuts(alloc, out, run, program, most, found)?;
    put_unlisted(out, JudgedKind::Cases, program, count)
}

/// Appends a program.
#[tactic(auto, using(crate::proofs::CaseTexts::counts_within), unfolding(crate::specs::CasePage::program_text))]
fn put_program(
    alloc: Global,
    out: &mut String,
    run: &CaseRun<'_>,
    found: &[CutFound],
    number: usize,
    program: &CaseProgram,
) -> Result<(), AllocError>
    requires cuts { All (λ (c : FoundValue). c.cut ≤ length run.now.log.now.entries) found.now }
    ensures { OnOk result (string_bytes out.new ≡ string_bytes out.old ++ program_text (run_of run.now) found.now number program.now) }
{
    let counts = case_counts(alloc, number, found)?;
    let complete = has_all(number, found);
    put_summary(
        alloc,
        out,
        run,
        complete,
        number,
        program,
        counts.as_slice(),
    )?;
    put_shown_cuts(alloc, out, run, number, found, counts.as_slice())?;
    put(out, PagePart::SectionClose)
}

/// Appends programs, by their numbers from 0 on.
#[tactic(auto, using(crate::proofs::CaseTexts::programs_more, crate::proofs::CaseTexts::programs_end))]
fn put_programs(
    alloc: Global,
    out: &mut String,
    run: &CaseRun<'_>,
    found: &[CutFound],
    programs: &[CaseProgram],
) -> Result<(), AllocError>
    requires cuts { All (λ (c : FoundValue). c.cut ≤ length run.now.log.now.entries) found.now }
    ensures { OnOk result (string_bytes out.new ≡ string_bytes out.old ++ programs_text (run_of run.now) found.now 0 programs.now) }
{
    for (number, program) in programs.iter().enumerate() {
        put_program(alloc, out, run, found, number, program)?;
    }
    Ok(())
}

/// Whether no case was left out.
fn is_complete(torn: u64, lost: u64) -> bool
    ensures { result ≡ is_complete torn lost }
{
    torn == 0 && lost == 0
}

/// Appends how many cases were left out.
#[tactic(auto, unfolding(crate::specs::CasePage::left_counts))]
fn put_counts(out: &mut String, torn: u64, lost: u64) -> Result<(), AllocError>
    ensures { OnOk result (string_bytes out.new ≡ string_bytes out.old ++ left_counts torn lost) }
{
    put(out, PagePart::TornBeyond)?;
    put_number(out, torn)?;
    put(out, PagePart::LostBeyond)?;
    put_number(out, lost)
}

/// Appends a line with how many cases were left out, where some were.
fn put_left(out: &mut String, torn: u64, lost: u64) -> Result<(), AllocError>
    ensures { OnOk result (string_bytes out.new ≡ string_bytes out.old ++ left_text torn lost) }
{
    if is_complete(torn, lost) {
        return Ok(());
    }
    put_counts(out, torn, lost)?;
    out.push_str("\n")
}

/// The options and the programs, as the text of cases has them, and how many cases were left out.
fn about_run(
    alloc: Global,
    head: &Head,
    asked: Losses,
    found: &[CutFound],
) -> Result<String, AllocError>
    ensures { IfOk result (λ text. string_bytes text ≡ run_text head.now asked found.now) }
{
    let (torn, lost) = left_out(found);
    let mut text = String::new(alloc);
    put_options(&mut text, head, asked)?;
    put_left(&mut text, torn, lost)?;
    Ok(text)
}

/// Appends the page, with a text about the run.
#[tactic(auto, unfolding(crate::specs::CasePage::parts_text))]
fn put_page(
    alloc: Global,
    out: &mut String,
    run: &CaseRun<'_>,
    about: &str,
    programs: &[CaseProgram],
    found: &[CutFound],
) -> Result<(), AllocError>
    requires cuts { All (λ (c : FoundValue). c.cut ≤ length run.now.log.now.entries) found.now }
    ensures { OnOk result (string_bytes out.new ≡ string_bytes out.old ++ parts_text (run_of run.now) about.now programs.now found.now) }
{
    let logged = Logged {
        plan: run.plan,
        log: run.log,
    };
    put_head(out, JudgedKind::Cases, run.log)?;
    put_about(out, about)?;
    put_programs(alloc, out, run, found, programs)?;
    put_list(alloc, out, &logged)?;
    put(out, PagePart::Closing)
}

/// The page of the failing cases of a run (docs/OUTPUT.md, The page of `page --bound any`): the options and the programs, what was found
/// with each program and which flushes are missing for it, and the entries of the log. The plan is that of the log; of the head's bound, tears, `first` and number of images
/// nothing is printed.
///
/// It takes time and memory for each entry, each cut and each failing case of each program, and for the parts at risk at each cut at which
/// cases fail.
///
/// # Errors
///
/// Memory was refused.
pub fn case_page(
    alloc: Global,
    head: &Head,
    log: &Log,
    plan: &Plan<'_>,
    asked: Losses,
    found: &[CutFound],
) -> Result<Vec<u8>, AllocError>
    requires plan { plan.now.log ≡ log.now }
    requires cuts { All (λ (c : FoundValue). c.cut ≤ length log.now.entries) found.now }
    ensures { IfOk result (λ bytes. IsCasePage head.now asked log.now found.now bytes.items) }
{
    let run = CaseRun {
        plan,
        log,
        by: head.by,
        tears: asked.tears,
    };
    let about = about_run(alloc, head, asked, found)?;
    let programs = case_programs(alloc, &run, found, head.programs.as_slice())?;
    let mut out = String::new(alloc);
    put_page(
        alloc,
        &mut out,
        &run,
        about.as_str(),
        programs.as_slice(),
        found,
    )?;
    Ok(out.into_bytes())
}
