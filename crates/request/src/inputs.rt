//! The number of a run's inputs (docs/OUTPUT.md, The text of a part), and what says of which log a report is (The inputs of a report).

ghost use Rattle.std.specs.Prelude.{◌≡◌, IfOk, length, map, string_bytes};
ghost use Rattle.std.specs.List.{fold};
ghost use Rattle.request.specs.Inputs.{with_byte, file_bytes, inputs_line, inputs_number, number_line, options_given, report_number};
ghost use Rattle.request.specs.Source.{images_of};

use crate::options::Options;
use images::initial_number;
use logfmt::Log;
use report::{Head, put_options};
use std::alloc::{AllocError, Global};

/// The factor by which the bytes of the inputs are joined to one number.
const INPUT_FACTOR: u64 = 1_099_511_628_211;

/// A number with one more byte.
fn with_byte(number: u64, byte: u8) -> u64
    ensures { result ≡ with_byte number byte }
{
    number
        .wrapping_mul(INPUT_FACTOR)
        .wrapping_add(u64::from(byte) + 1)
}

/// A number with more bytes.
#[tactic(auto, using(crate::proofs::Numbers::byte_more))]
fn with_bytes(number: u64, bytes: &[u8]) -> u64
    ensures { result ≡ fold with_byte number bytes.now }
{
    let mut joined = number;
    for byte in bytes {
        joined = with_byte(joined, *byte);
    }
    joined
}

/// A number with the bytes of a file, and those of its length.
#[tactic(auto, using(crate::proofs::Numbers::file_told))]
fn with_file(number: u64, file: &[u8]) -> u64
    ensures { result ≡ fold with_byte number (file_bytes file.now) }
{
    let long = (file.len() as u64).to_le_bytes();
    with_bytes(with_bytes(number, file), &long)
}

/// The number of the bytes of a log and of programs.
#[tactic(auto, using(crate::proofs::Numbers::no_program, crate::proofs::Numbers::program_more, crate::proofs::Numbers::all_programs))]
pub fn number_of_inputs(log: &[u8], programs: &[Vec<u8>]) -> u64
    ensures { result ≡ inputs_number log.now (map (λ f. f.items) programs.now) }
{
    let mut number = with_file(0, log);
    for program in programs {
        number = with_file(number, program.as_slice());
    }
    number
}

/// The number of a report, by the bytes of its log and by the line of its options, with the newline.
#[tactic(auto, using(crate::proofs::Numbers::report_told))]
pub fn number_of_report(log: &[u8], options: &[u8]) -> u64
    ensures { result ≡ report_number log.now options.now }
{
    with_file(with_file(0, log), options)
}

/// The line that says of which log and options a text is, by their number.
///
/// # Errors
///
/// Memory was refused.
#[tactic(auto, unfolding(crate::specs::Inputs::number_line))]
pub fn number_line(alloc: Global, number: u64) -> Result<String, AllocError>
    ensures { IfOk result (λ line. string_bytes line ≡ number_line number) }
{
    let mut line = String::new(alloc);
    write!(line, "inputs {number}\n")?;
    Ok(line)
}

/// The line that says of which log and options a report is, by their number, and of how many programs.
///
/// # Errors
///
/// Memory was refused.
#[tactic(auto, unfolding(crate::specs::Inputs::inputs_line))]
pub fn inputs_line(alloc: Global, number: u64, programs: u64) -> Result<String, AllocError>
    ensures { IfOk result (λ line. string_bytes line ≡ inputs_line number programs) }
{
    let mut line = String::new(alloc);
    write!(line, "inputs {number} programs {programs}\n")?;
    Ok(line)
}

/// The line of the options of a report of the log, with the newline.
///
/// # Errors
///
/// Memory was refused.
#[tactic(auto, unfolding(crate::specs::Inputs::head_given))]
pub fn report_options(
    alloc: Global,
    log: &Log,
    options: &Options,
    images: u64,
) -> Result<String, AllocError>
    requires { images ≡ length (images_of options.now log.now) }
    ensures { IfOk result (λ line. string_bytes line ≡ options_given options.now log.now) }
{
    let head = Head {
        sectors: options.sectors(),
        entries: log.entries().len() as u32,
        cuts: options.cuts(),
        bound: options.bound(),
        tears: options.tears(),
        by: options.by(),
        first: false,
        programs: Vec::new(alloc),
        images,
        base: initial_number(log),
    };
    let mut line = String::new(alloc);
    put_options(&mut line, &head)?;
    Ok(line)
}
