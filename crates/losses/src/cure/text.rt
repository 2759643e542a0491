//! What is said of failures and of rounds (the page of `cure`, The text).

ghost use Rattle.std.specs.Prelude.{◌≡◌, ◌++◌, ◌≤◌, ◌<◌, ℕ, length, filter, map, OnOk, string_bytes};
ghost use Rattle.std.specs.List.{flat_map, range_with_len};
ghost use Rattle.losses.specs.CureText.{is_of, is_uncured, program_line, programs_text, begin_text, missing_place, missing_line, missing_text, flush_line, refused_line};

use crate::cure::failure::Failure;
use crate::flushes::MissingFlush;
use report::{Head, put_options};
use std::alloc::AllocError;

/// How many failures are of the program of that number.
fn failing(failures: &[Failure], program: usize) -> u64
    ensures value { result ≡ length (filter (is_of program) failures.now) }
{
    let mut count = 0;
    for failure in failures {
        count += u64::from(is_of(*failure, program));
    }
    count
}

/// Whether a failure is of the program of that number.
fn is_of(failure: Failure, program: usize) -> bool
    ensures { result ≡ is_of program failure }
{
    usize::from(failure.program) == program
}

/// Whether a failure is of the program of that number, and has no window.
fn is_uncured(failure: Failure, program: usize) -> bool
    ensures { result ≡ is_uncured program failure }
{
    is_of(failure, program) && failure.window.is_none()
}

/// How many failures of the program of that number have no window.
fn count_uncured(failures: &[Failure], program: usize) -> u64
    ensures value { result ≡ length (filter (is_uncured program) failures.now) }
{
    let mut count = 0;
    for failure in failures {
        count += u64::from(is_uncured(*failure, program));
    }
    count
}

/// Appends on how many images a program fails, and on how many of these no flush helps.
#[tactic(auto, unfolding(crate::specs::CureText::program_line))]
fn put_program(out: &mut String, program: usize, failures: &[Failure]) -> Result<(), AllocError>
    ensures { OnOk result (string_bytes out.new ≡ string_bytes out.old ++ program_line failures.now program) }
{
    let failing = failing(failures, program);
    write!(out, "program {program} failing {failing}")?;
    let uncured = count_uncured(failures, program);
    write!(out, " uncured {uncured}\n")
}

/// Appends a line for each program: on how many images it fails, and on how many of these no flush helps.
///
/// # Errors
///
/// Memory was refused.
pub fn put_programs(
    out: &mut String,
    programs: usize,
    failures: &[Failure],
) -> Result<(), AllocError>
    ensures { OnOk result (string_bytes out.new ≡ string_bytes out.old ++ programs_text programs failures.now) }
{
    for program in 0..programs {
        put_program(out, program, failures)?;
    }
    Ok(())
}

/// Appends title, options and programs of a run, and of each program on how many images it fails, and on how many of these no
/// flush helps.
///
/// # Errors
///
/// Memory was refused.
#[tactic(auto, unfolding(crate::specs::CureText::begin_text))]
pub fn put_begin(out: &mut String, head: &Head, failures: &[Failure]) -> Result<(), AllocError>
    ensures { OnOk result (string_bytes out.new ≡ string_bytes out.old ++ begin_text head.now failures.now) }
{
    write!(out, "crash cure 1\n")?;
    put_options(out, head)?;
    put_programs(out, head.programs.len(), failures)
}

/// Appends where a flush is missing.
#[tactic(auto, unfolding(crate::specs::CureText::missing_place))]
fn put_place(out: &mut String, flush: MissingFlush) -> Result<(), AllocError>
    ensures { OnOk result (string_bytes out.new ≡ string_bytes out.old ++ missing_place flush) }
{
    write!(out, "flush before {} from {}", flush.at, flush.from)
}

/// Appends the line of a flush that is missing.
#[tactic(auto, unfolding(crate::specs::CureText::missing_line))]
fn put_missing_flush(out: &mut String, flush: MissingFlush) -> Result<(), AllocError>
    ensures { OnOk result (string_bytes out.new ≡ string_bytes out.old ++ missing_line flush) }
{
    put_place(out, flush)?;
    write!(out, " failing {}\n", flush.failing)
}

/// Appends a line for each flush that is missing.
fn put_missing(out: &mut String, flushes: &[MissingFlush]) -> Result<(), AllocError>
    ensures { OnOk result (string_bytes out.new ≡ string_bytes out.old ++ flat_map missing_line flushes.now) }
{
    for flush in flushes {
        put_missing_flush(out, *flush)?;
    }
    Ok(())
}

/// Appends for each program how many of its failures have no window, and the flushes that are missing.
///
/// # Errors
///
/// Memory was refused.
#[tactic(auto, unfolding(crate::specs::CureText::missing_text))]
pub fn put_flushes(
    out: &mut String,
    programs: usize,
    failures: &[Failure],
    flushes: &[MissingFlush],
) -> Result<(), AllocError>
    ensures { OnOk result (string_bytes out.new ≡ string_bytes out.old ++ missing_text programs failures.now flushes.now) }
{
    put_programs(out, programs, failures)?;
    put_missing(out, flushes)
}

/// Appends the line of a flush of a round.
#[tactic(auto, unfolding(crate::specs::CureText::flush_line))]
fn put_flush(out: &mut String, round: u64, flush: MissingFlush) -> Result<(), AllocError>
    ensures { OnOk result (string_bytes out.new ≡ string_bytes out.old ++ flush_line round flush) }
{
    write!(out, "round {round} ")?;
    put_missing_flush(out, flush)
}

/// Appends a line for each flush of the round of that number.
///
/// # Errors
///
/// Memory was refused.
pub fn put_round(out: &mut String, round: u64, flushes: &[MissingFlush]) -> Result<(), AllocError>
    ensures { OnOk result (string_bytes out.new ≡ string_bytes out.old ++ flat_map (flush_line round) flushes.now) }
{
    for flush in flushes {
        put_flush(out, round, *flush)?;
    }
    Ok(())
}

/// Appends that a run has too many images, by the cut with which their number passes the limit.
///
/// # Errors
///
/// Memory was refused.
#[tactic(auto, unfolding(crate::specs::CureText::refused_line))]
pub fn put_refused(out: &mut String, at: u64) -> Result<(), AllocError>
    ensures { OnOk result (string_bytes out.new ≡ string_bytes out.old ++ refused_line at) }
{
    write!(out, "refused 12 at {at}\n")
}
