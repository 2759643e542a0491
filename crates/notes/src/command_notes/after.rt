//! The notes after a refusal.

use crate::command_notes::breach::put_breach;
use crate::command_notes::headers::{put_end, put_header};
use crate::command_notes::held::{bytes_of, recording_of};
use crate::command_notes::refused::breach_in;
use crate::sources::first_bad_line;
use crate::{
    asm_cure, code_cure, guarded_cure, log_cure, put_least, put_note, put_refused, verifier_cure,
};
use base::causes::{CodeCause, JoinCause, LogCause, RequestCause, VerifierCause};
use base::limits::Limits;
use base::refusal::{Cause, Refusal};
use command_line::Words;
use crash_text::{put_entry, put_escaped};
use epochs::{By, CutKind};
use logfmt::read;
use ranges::broken_rule;
use request::facts::{Breach, Fewer, Smaller, fewer_images};
use request::{Extent, LossWords, OptionWords, Request, options_of};
use std::alloc::{AllocError, Global};
use std::fmt::Display;

/// The bytes at which a log begins.
const LOG_MAGIC: &[u8] = b"rhswfsj\0";

/// The bytes at which an object file begins.
const OBJECT_MAGIC: &[u8] = b"\x7fELF";

/// What the limits of a large log are.
const LARGE_LIMIT: &str =
    "with --large a log has at most 1073741824 bytes, 65536 entries, and 2097152 sectors written or discarded (docs/LOG-FORMAT.md, Limits)";

/// What is said of a log that passes the usual limits, and not those of a large one.
const LARGE_TAKES: &str = "with --large the log is within the limits (docs/LOG-FORMAT.md, Limits)";

/// What helps where a raw log passes the limits.
const RAW_CURE: &str = "record less at once; make file systems without discards";

/// What helps where a log passes those of a large one.
const LARGE_CURE: &str =
    "copy the first 1 GiB of the log device alone; make file systems without discards";

/// What may accept a program as it is.
const GUARDS_MAY: &str =
    "--guards may accept the program as it is: its runs then test the places that aren't proved, and an image on which one is outside fails (docs/CHECKERS.md, With guards)";

/// What may accept a program as it is, for a command that doesn't take the option.
const GUARDS_ELSEWHERE: &str =
    "'crashbpf explore --guards' may accept the program as it is (docs/CHECKERS.md, With guards); here --checked N runs it without the verifier";

/// What a program breaks with guards that calls a helper which there isn't.
const NO_GUARDED_HELPER: &str =
    "there is no helper of that number, with --guards only 1 to 11 (docs/MACHINE.md, Helpers)";

/// Appends what a cause means, and what most likely helps, where that isn't empty.
fn put_cause<C: Display>(
    alloc: Global,
    out: &mut String,
    cause: &C,
    cure: &str,
) -> Result<(), AllocError> {
    let rule = format!(in alloc; "{cause}")?;
    put_refused(out, rule.as_str(), cure)
}

/// The name of the file at a place: of one that the command names by itself, or after these of the one after `--base`.
fn name_at(words: &Words, place: usize) -> Option<&str> {
    match words.files().get(place) {
        Some(name) => Some(name.as_str()),
        None => words.base(),
    }
}

/// Appends a note with the name of a file.
fn put_name(out: &mut String, words: &Words, place: usize, what: &str) -> Result<(), AllocError> {
    out.push_str("note: ")?;
    if let Some(name) = name_at(words, place) {
        put_escaped(out, name.as_bytes())?;
    }
    write!(out, " {what}\n")
}

/// Appends a note where a file that is meant to hold a program is of another kind.
fn put_kind(
    out: &mut String,
    words: &Words,
    files: &[Option<Vec<u8>>],
    place: usize,
) -> Result<(), AllocError> {
    let Some(bytes) = bytes_of(files, place) else {
        return Ok(());
    };
    if bytes.starts_with(LOG_MAGIC) {
        return put_name(out, words, place, "begins as a log does");
    }
    if bytes.starts_with(OBJECT_MAGIC) {
        return put_name(
            out,
            words,
            place,
            "is an object file: crashbpf-cc makes a program of its source",
        );
    }
    Ok(())
}

/// What is said of a log that not even the largest device holds.
const PAST_LARGEST: &str = "no device of at most 33554432 sectors holds this log";

/// What is said of a log that no usual device holds. A larger one is named only where it does.
fn past_usual(alloc: Global, bytes: &[u8]) -> &'static str {
    match read(alloc, bytes, Limits::Large.sectors(), Limits::Large) {
        Ok(_log) => {
            "no device of at most 16384 sectors holds this log; with --large one may have 33554432"
        }
        Err(fault) if matches!(fault.code, LogCause::Device) => PAST_LARGEST,
        Err(_fault) => "no device of at most 16384 sectors holds this log",
    }
}

/// What is said of a log that no device within the limits holds.
fn no_device(alloc: Global, bytes: &[u8], limits: Limits) -> &'static str {
    match limits {
        Limits::Usual => past_usual(alloc, bytes),
        Limits::Large => PAST_LARGEST,
    }
}

/// Appends the entry that goes past the device, and the size of a device that holds the log, where one does.
fn put_device(
    alloc: Global,
    out: &mut String,
    bytes: &[u8],
    at: usize,
    limits: Limits,
) -> Result<(), AllocError> {
    match read(alloc, bytes, limits.sectors(), limits) {
        Ok(log) => {
            put_entry(alloc, out, &log, at)?;
            put_least(out, &log)
        }
        Err(fault) if matches!(fault.code, LogCause::Device) => {
            put_note(out, no_device(alloc, bytes, limits))
        }
        Err(_fault) => Ok(()),
    }
}

/// Appends the header of an entry that is refused for it, and where it ends, if the file ends before.
fn put_broken_entry(
    out: &mut String,
    files: &[Option<Vec<u8>>],
    cause: LogCause,
    at: usize,
) -> Result<(), AllocError> {
    let Some(bytes) = bytes_of(files, 0) else {
        return Ok(());
    };
    match cause {
        LogCause::Flags | LogCause::DataLength | LogCause::MarkForm => put_header(out, bytes, at),
        LogCause::CutShort => {
            put_header(out, bytes, at)?;
            put_end(out, bytes, at)
        }
        _ => Ok(()),
    }
}

/// What most likely helps against what a log breaks. `import` reads no more of a raw log than it keeps.
fn cure_of(request: Request, cause: LogCause) -> &'static str {
    match (request, cause) {
        (Request::Import(_), LogCause::Limit) => RAW_CURE,
        _ => log_cure(cause),
    }
}

/// What most likely helps where a log passes the limits of a large one.
fn large_cure(request: Request) -> &'static str {
    match request {
        Request::Import(_) => RAW_CURE,
        _ => LARGE_CURE,
    }
}

/// Appends, where a log has other sectors, that there is a command for such logs.
fn put_import(out: &mut String, request: Request) -> Result<(), AllocError> {
    match request {
        Request::Import(_) => Ok(()),
        _ => put_note(
            out,
            "'crashbpf import' makes a log of one with sectors of 4096 bytes",
        ),
    }
}

/// What is said of a log that passes the usual limits, where it may be within those of a large one. Of a longer file no more was
/// read than shows that it is too long.
fn large_note(alloc: Global, bytes: &[u8]) -> Option<&'static str> {
    match read(alloc, bytes, Limits::Large.sectors(), Limits::Large) {
        Ok(_log) if bytes.len() <= Limits::Usual.bytes() => Some(LARGE_TAKES),
        Ok(_log) => Some(LARGE_LIMIT),
        Err(fault) if matches!(fault.code, LogCause::CutShort) => {
            if bytes.len() > Limits::Usual.bytes() {
                Some(LARGE_LIMIT)
            } else {
                None
            }
        }
        Err(_fault) => None,
    }
}

/// Appends, where a log passes the usual limits, that it may be within those of a large one. Of a raw log nothing is said.
fn put_large_takes(
    alloc: Global,
    out: &mut String,
    words: &Words,
    bytes: &[u8],
) -> Result<(), AllocError> {
    match (words.limits(), words.request()) {
        (Limits::Large, _) | (_, Request::Import(_)) => Ok(()),
        _ => match large_note(alloc, bytes) {
            Some(text) => put_note(out, text),
            None => Ok(()),
        },
    }
}

/// Appends what the cause of a log's refusal means, within the limits, and what most likely helps.
fn put_log_cause(
    alloc: Global,
    out: &mut String,
    words: &Words,
    cause: LogCause,
) -> Result<(), AllocError> {
    match (cause, words.limits()) {
        (LogCause::Limit, Limits::Large) => put_refused(
            out,
            LARGE_LIMIT,
            large_cure(words.request()),
        ),
        _ => put_cause(alloc, out, &cause, cure_of(words.request(), cause)),
    }
}

/// Appends what is wrong with a log.
fn put_log_notes(
    alloc: Global,
    out: &mut String,
    words: &Words,
    files: &[Option<Vec<u8>>],
    cause: LogCause,
    at: usize,
) -> Result<(), AllocError> {
    put_log_cause(alloc, out, words, cause)?;
    match cause {
        LogCause::Device => match bytes_of(files, 0) {
            Some(bytes) => put_device(alloc, out, bytes, at, words.limits()),
            None => Ok(()),
        },
        LogCause::Short | LogCause::Magic => put_kind(out, words, files, 1),
        LogCause::SectorSize => put_import(out, words.request()),
        LogCause::Limit => match bytes_of(files, 0) {
            Some(bytes) => put_large_takes(alloc, out, words, bytes),
            None => Ok(()),
        },
        _ => put_broken_entry(out, files, cause, at),
    }
}

/// The place among the files of a refused program.
fn place_of(program: Option<u8>) -> usize {
    match program {
        Some(number) => usize::from(number) + 1,
        None => 0,
    }
}

/// Appends what is wrong with the bytes of a program.
fn put_code_notes(
    alloc: Global,
    out: &mut String,
    words: &Words,
    files: &[Option<Vec<u8>>],
    cause: CodeCause,
    program: Option<u8>,
) -> Result<(), AllocError> {
    put_cause(alloc, out, &cause, code_cure(cause))?;
    put_kind(out, words, files, place_of(program))
}

/// Whether the place of a refusal is that of an instruction.
fn names_instruction(cause: VerifierCause) -> bool {
    !matches!(
        cause,
        VerifierCause::Budget | VerifierCause::Unsettled | VerifierCause::Memory
    )
}

/// The options that a command takes, where it takes some of a log.
pub(crate) fn log_options(request: Request) -> Option<OptionWords> {
    match request {
        Request::Images(words, _) | Request::Image(words, _) => Some(words),
        Request::Show(words, _) | Request::Export(words) => Some(words),
        Request::AnyImage { words, .. } | Request::Cuts(words, _, _) => Some(words),
        Request::Cases(words, _) | Request::CureCases(words, _) => Some(words),
        Request::Retold(words, _) | Request::Known(words, _) => Some(words),
        _ => run_options(request),
    }
}

/// The options that a command takes, where it shares crash images out to workers.
fn run_options(request: Request) -> Option<OptionWords> {
    match request {
        Request::Explore(words) | Request::Why(words) => Some(words),
        Request::Cure(words) | Request::Page(words) => Some(words),
        Request::Marked(words) => Some(words),
        _ => None,
    }
}

/// Whether what is known where a program is refused breaks no rule with guards.
fn is_weakened(breach: &Option<Breach>) -> bool {
    match breach {
        Some(
            Breach {
                instr: Some(instr),
                state: Some(state),
            },
        ) => broken_rule(true, instr, state).is_none(),
        _ => false,
    }
}

/// Whether a command that verifies programs was asked for guards.
fn asks_for_guards(request: &Request) -> bool {
    match request {
        Request::Verify { words, .. } => words.settings.guards,
        Request::Explore(words) | Request::Cases(words, _) => words.settings.guards,
        Request::Why(words) | Request::CureCases(words, _) => words.settings.guards,
        Request::Cure(words) | Request::Page(words) => words.settings.guards,
        Request::Marked(words) => words.settings.guards,
        Request::Check(words) => words.guards,
        _ => false,
    }
}

/// What a command that verifies programs says where guards may help.
fn guards_note(request: Request) -> Option<&'static str> {
    match request {
        Request::Verify { .. } | Request::Explore(_) => Some(GUARDS_MAY),
        Request::Cases(_, _) | Request::Why(_) => Some(GUARDS_MAY),
        Request::Cure(_) | Request::CureCases(_, _) => Some(GUARDS_MAY),
        Request::Page(_) | Request::Marked(_) => Some(GUARDS_MAY),
        Request::Check(_) => Some(GUARDS_ELSEWHERE),
        _ => None,
    }
}

/// Appends that guards may help, where none of their rules is broken. With guards a refusal breaks one of them.
fn put_guards(
    out: &mut String,
    request: Request,
    breach: &Option<Breach>,
) -> Result<(), AllocError> {
    match guards_note(request) {
        Some(text) if is_weakened(breach) => put_note(out, text),
        _ => Ok(()),
    }
}

/// What most likely helps a command whose program is refused.
fn program_cure(request: &Request, cause: VerifierCause) -> &'static str {
    if asks_for_guards(request) {
        guarded_cure(cause)
    } else {
        verifier_cure(cause)
    }
}

/// Appends which rule a program breaks, and what most likely helps. With guards there are more helpers.
fn put_rule(
    alloc: Global,
    out: &mut String,
    request: &Request,
    cause: VerifierCause,
) -> Result<(), AllocError> {
    let cure = program_cure(request, cause);
    if matches!(cause, VerifierCause::UnknownHelper) && asks_for_guards(request) {
        return put_refused(out, NO_GUARDED_HELPER, cure);
    }
    put_cause(alloc, out, &cause, cure)
}

/// Appends which rule a program breaks, the instruction that does, and what is known there.
fn put_verifier_notes(
    alloc: Global,
    out: &mut String,
    request: Request,
    cause: VerifierCause,
    slot: u64,
    breach: &Option<Breach>,
) -> Result<(), AllocError> {
    if names_instruction(cause) {
        put_breach(out, slot, breach)?;
    }
    put_rule(alloc, out, &request, cause)?;
    put_guards(out, request, breach)
}

/// Appends how many images a log has with other cuts, where it has some, and not too many.
fn put_cuts(out: &mut String, name: &str, images: Option<u64>) -> Result<(), AllocError> {
    match images {
        Some(images) if images > 0 => write!(out, "note: with --cuts {name} there are {images}\n"),
        _ => Ok(()),
    }
}

/// Appends with which cuts in place of all, and with how small a bound, a log hasn't too many images.
fn put_fewer(out: &mut String, kind: CutKind, fewer: &Fewer) -> Result<(), AllocError> {
    if matches!(kind, CutKind::All) {
        put_cuts(out, "flush", fewer.flush)?;
        put_cuts(out, "mark", fewer.mark)?;
    }
    match fewer.smaller {
        Some(Smaller { bound, images }) => {
            write!(out, "note: with --bound {bound} there are {images}\n")
        }
        None => put_note(out, "there are too many with --bound 0 as well"),
    }
}

/// The options with which there are fewer images than with parts of that kind.
fn with_fewer_images(by: By) -> &'static str {
    match by {
        By::Write => "take fewer cuts (--cuts flush), a smaller --bound, or no --tears",
        By::Sector => {
            "take fewer cuts (--cuts flush), a smaller --bound, --by write, or no --tears"
        }
    }
}

/// Returns the words that there are too many images.
fn too_many_images(images: Extent) -> &'static str {
    match images {
        Extent::Wide | Extent::Part { .. } => {
            "with this cut there are 2^63 images or more (docs/CRASH-MODEL.md, Limits)"
        }
        Extent::Whole => {
            "with this cut there are more than 16777216 images (docs/CRASH-MODEL.md, Limits)"
        }
    }
}

/// The options with which there are fewer cases than with parts of that kind.
fn with_fewer_cases(by: By) -> &'static str {
    match by {
        By::Write => "take a small --at-most, fewer cuts (--from, --to), or no --tears",
        By::Sector => {
            "take --by write, a small --at-most, fewer cuts (--from, --to), or no --tears"
        }
    }
}

/// Appends that there are too many cases, and with what there are fewer.
fn put_cases_notes(out: &mut String, options: OptionWords) -> Result<(), AllocError> {
    put_refused(
        out,
        "with this cut there are more than 16777216 cases (docs/CRASH-MODEL.md, Limits)",
        with_fewer_cases(options.settings.by),
    )
}

/// Returns the options with which the log that the first file holds has fewer images than with these.
fn fewer_of(alloc: Global, options: OptionWords, files: &[Option<Vec<u8>>]) -> Option<Fewer> {
    let options = options_of(options).ok()?;
    let recording = recording_of(files)?;
    fewer_images(alloc, &recording, &options)
}

/// Appends that there are too many images, and with what there are fewer.
fn put_images_notes(
    alloc: Global,
    out: &mut String,
    options: OptionWords,
    files: &[Option<Vec<u8>>],
) -> Result<(), AllocError> {
    put_refused(
        out,
        too_many_images(options.settings.extent),
        with_fewer_images(options.settings.by),
    )?;
    match fewer_of(alloc, options, files) {
        Some(fewer) => put_fewer(out, options.settings.cuts.kind, &fewer),
        None => Ok(()),
    }
}

/// Appends that texts have too many cases together, and the name of the file with which they have.
fn put_many_joined(out: &mut String, words: &Words, place: usize) -> Result<(), AllocError> {
    put_note(
        out,
        "with this file there are more than 16777216 cases (docs/CRASH-MODEL.md, Limits)",
    )?;
    put_name(out, words, place, "is the file that is meant")
}

/// Appends that there are too many images or cases, and with what there are fewer.
fn put_many_notes(
    alloc: Global,
    out: &mut String,
    words: &Words,
    files: &[Option<Vec<u8>>],
    place: usize,
) -> Result<(), AllocError> {
    let request = words.request();
    match (request, log_options(request)) {
        (Request::Join { .. }, _) => put_many_joined(out, words, place),
        (Request::Cases(options, _) | Request::CureCases(options, _), _) => put_cases_notes(
            out, options,
        ),
        (Request::Known(options, _), _) => put_cases_notes(out, options),
        (_, Some(options)) => put_images_notes(alloc, out, options, files),
        _ => Ok(()),
    }
}

/// What an entry or a cut has to be that is named.
const NOT_IN_LOG: &str =
    "the log doesn't have it: of --flush each is an entry of the log, and --from and --to are at most the number of entries (docs/COMMANDS.md, Options); 'crashbpf log' lists the entries";

/// What a report has to be.
const NOT_REPORT: &str =
    "the file of --report isn't the report of this log with these options, or is cut off: the number says at which line that shows; at line 2 the options, the base or the log that it says are others, or it is of the first failing image alone (docs/OUTPUT.md, The report)";

/// What a text of records has to be.
const NOT_RECORDS: &str =
    "the file of --known isn't the text of records of this log with these --sectors, --base and --by, or is cut off: the number says at which line that shows (docs/OUTPUT.md, Records of a program of yours)";

/// What the file has to be that is given in place of programs.
fn report_rule(request: Request) -> &'static str {
    match request {
        Request::Known(_, _) => NOT_RECORDS,
        _ => NOT_REPORT,
    }
}

/// What the option or the number at a place has to be.
fn option_rule(place: u64) -> &'static str {
    match place {
        1 => "--sectors is 1 to 16384, with --large to 33554432",
        2 => "--bound is 0 to 3",
        3 => "--workers is 1 to 64",
        4 => "--cache is 0 to 65536",
        5 => "--checked is 0 to 1000000000",
        6 => "a run has 1 to 8 programs",
        7 => "--cuts is all, flush or mark",
        10 => "--by is sector or write",
        11 => "no image of that cut has that choice, as the report prints it with the same options",
        12 => "--flush is 1 to 64 numbers of entries, with commas between",
        13 => "--from isn't above --to",
        14 =>
            "the file of --base has no more bytes than the device: --sectors is at least a 512th of its bytes",
        15 => "--epoch is 0 to 65536",
        16 => "--marks is 0 to 65536",
        17 =>
            "--images is A..B, two numbers with A below B, at most 16777216 images, and B at most the number of all images",
        18 =>
            "--parts is 1 to 1048576, and at least as many as leave none with more than 16777216 images",
        19 => "--guards doesn't stand beside --checked",
        20 => "--torn is 1 to 3, beside --bound any and --tears",
        21 => "--at-most is 1 to 64, beside --bound any",
        22 => "--known stands beside --bound any",
        23 => "--cases is 1 to 16777216",
        _ => {
            "the log has no image of that number with these --cuts, --by, --bound and --tears; 'crashbpf images' tells how many it has"
        },
    }
}

/// What an option has to be, within these limits.
fn rule_within(place: u64, limits: Limits) -> &'static str {
    match (place, limits) {
        (1, Limits::Large) => "with --large --sectors is 1 to 33554432",
        _ => option_rule(place),
    }
}

/// What the bound of one image has to be. The greatest number stands for `any`, which a number of an image doesn't go with.
fn bound_rule(options: OptionWords) -> &'static str {
    if options.settings.bound == u64::MAX {
        "image and show take --bound any beside --cut and --choice alone"
    } else {
        option_rule(2)
    }
}

/// What the bound has to be of a report that is told again: it has images, and `any` has cases.
fn report_bound_rule(options: OptionWords) -> &'static str {
    if options.settings.bound == u64::MAX {
        "--report doesn't stand beside --bound any: a report has images, and with --bound any there are cases"
    } else {
        option_rule(2)
    }
}

/// What the bound has to be of a report that says of which log it is: it has images, and `any` has cases.
fn marked_bound_rule(options: OptionWords) -> &'static str {
    if options.settings.bound == u64::MAX {
        "--inputs doesn't stand beside --bound any: it is a line of the report, and with --bound any there are cases"
    } else {
        option_rule(2)
    }
}

/// What the file has to be by which a device has its size.
fn sized_rule(words: &Words) -> &'static str {
    match (words.base(), words.limits()) {
        (None, _) => "--sectors base takes the size from the file of --base, and there is none",
        (Some(_name), Limits::Usual) => {
            "with --sectors base the file of --base has 1 to 16384 whole sectors of 512 bytes, with --large to 33554432"
        }
        (Some(_name), Limits::Large) => {
            "with --sectors base and --large the file of --base has 1 to 33554432 whole sectors of 512 bytes"
        }
    }
}

/// What an option of a command has to be, within its limits: some options don't go with any number of losses.
fn rule_of(words: &Words, place: u64) -> &'static str {
    match (place, words.request()) {
        (4, Request::Cases(_, LossWords { any: true, .. }))
        | (4, Request::CureCases(_, LossWords { any: true, .. })) => {
            "--cache doesn't stand beside --bound any"
        }
        (17, Request::Cases(_, LossWords { any: true, .. }))
        | (17, Request::CureCases(_, LossWords { any: true, .. })) => {
            "--images doesn't stand beside --bound any"
        }
        (17, Request::Cuts(_, LossWords { any: true, .. }, _)) => {
            "--images doesn't stand beside --bound any"
        }
        (18, Request::Cuts(_, LossWords { any: true, .. }, _)) => "--parts is 1 to 1048576",
        (17, Request::AnyImage { .. }) => "--images doesn't stand beside --bound any",
        (11, Request::AnyImage { .. }) => {
            "no image of that cut has that choice, as 'explore --bound any' prints it with the same --cuts, --by and --tears"
        }
        (1 | 14, Request::Verify { .. }) if words.is_sized() => {
            "verify takes a number for --sectors: it has no --base, by which 'base' would be one"
        }
        (1 | 14, _) if words.is_sized() => sized_rule(words),
        (2, Request::Retold(options, _)) => report_bound_rule(options),
        (2, Request::Marked(options)) => marked_bound_rule(options),
        (2, Request::Image(options, _)) => bound_rule(options),
        (2, Request::Show(options, _)) => bound_rule(options),
        _ => rule_within(place, words.limits()),
    }
}

/// What an image has to be within these limits.
fn image_rule(limits: Limits) -> &'static str {
    match limits {
        Limits::Usual =>
            "an image has 1 to 16384 whole sectors of 512 bytes, with --large to 33554432 (docs/COMMANDS.md, Commands)",
        Limits::Large => {
            "with --large an image has 1 to 33554432 whole sectors of 512 bytes (docs/COMMANDS.md, Commands)"
        }
    }
}

/// Appends that a file is no image, how many bytes it has, and how many one has.
fn put_image_notes(
    out: &mut String,
    words: &Words,
    place: usize,
    bytes: usize,
) -> Result<(), AllocError> {
    put_name(out, words, place, "is no image")?;
    let limits = words.limits();
    let most = 512 * limits.sectors() as usize;
    if bytes > most {
        write!(out, "note: it has more than {most} bytes\n")?;
    } else {
        write!(out, "note: it has {bytes} bytes\n")?;
    }
    put_note(out, image_rule(limits))
}

/// Appends that a file is not a list of lines of C, and which of its lines is the first that is none.
fn put_lines_notes(
    alloc: Global,
    out: &mut String,
    words: &Words,
    place: usize,
    bytes: &[u8],
) -> Result<(), AllocError> {
    put_name(out, words, place, "is not a list of lines of C")?;
    match first_bad_line(alloc, bytes)? {
        Some(number) => write!(
            out,
            "note: line {number} is not 'SLOT FILE LINE' (docs/CHECKERS.md, CHECK.lines)\n"
        ),
        None => put_note(
            out,
            "it has at most 1048576 bytes and 65536 lines (docs/CHECKERS.md, CHECK.lines)",
        ),
    }
}

/// Appends which file can't be read, is no text, is no image, or is not a list of lines of C.
fn put_file_notes(
    alloc: Global,
    out: &mut String,
    words: &Words,
    files: &[Option<Vec<u8>>],
    place: usize,
) -> Result<(), AllocError> {
    match (bytes_of(files, place), words.request()) {
        (Some(bytes), Request::Check(_)) if place == 2 => {
            put_lines_notes(alloc, out, words, place, bytes)
        }
        (Some(bytes), Request::Check(_)) => put_image_notes(out, words, place, bytes.len()),
        (Some(_bytes), _) => put_name(out, words, place, "is no text in UTF-8"),
        (None, _) => put_name(out, words, place, "can't be read"),
    }
}

/// What is said of images that are missing after all parts.
const LACKS_LAST: &str =
    "the images after those of all parts are missing; with --part the answer is the text of a part";

/// The line with which the text of cases begins.
const CASES_LINE: &[u8] = b"crash cases 1\n";

/// What is said of a file that isn't the text of cases, where the first one is.
const BESIDE_CASES: &str =
    "the first file is the text of cases, so each is to be what 'explore --bound any' prints (docs/OUTPUT.md, The text of cases)";

/// Whether a file begins as the text of cases does.
fn has_cases(files: &[Option<Vec<u8>>], place: usize) -> bool {
    match bytes_of(files, place) {
        Some(bytes) => bytes.starts_with(CASES_LINE),
        None => false,
    }
}

/// Appends which file isn't the text of a part, and of what it would have to be the text.
fn put_no_part(
    out: &mut String,
    words: &Words,
    files: &[Option<Vec<u8>>],
    place: usize,
) -> Result<(), AllocError> {
    put_name(out, words, place, "is the file that is meant")?;
    if has_cases(files, 0) {
        return put_note(out, BESIDE_CASES);
    }
    if has_cases(files, place) {
        return put_name(out, words, place, "has cases, and the first file has none");
    }
    Ok(())
}

/// Appends why texts of parts aren't joined, and the name of the file that is at fault, or that it would be one more.
fn put_join_notes(
    alloc: Global,
    out: &mut String,
    words: &Words,
    files: &[Option<Vec<u8>>],
    cause: JoinCause,
    place: usize,
) -> Result<(), AllocError> {
    put_cause(alloc, out, &cause, "")?;
    match cause {
        JoinCause::Memory => Ok(()),
        JoinCause::NotPart => put_no_part(out, words, files, place),
        JoinCause::Gap if place >= words.files().len() => put_note(out, LACKS_LAST),
        _ => put_name(out, words, place, "is the file that is meant"),
    }
}

/// Appends that there is no memory for the work, and of a run by several workers what takes less.
fn put_work_notes(out: &mut String, words: &Words) -> Result<(), AllocError> {
    put_note(out, "there is no memory for the work")?;
    match run_options(words.request()) {
        Some(options) if options.settings.workers > 1 => {
            put_note(
                out,
                "fewer workers take less memory, and --workers 1 the least",
            )
        }
        _ => Ok(()),
    }
}

/// The notes after the line of a refusal: what its number means there, the instruction, entry, option or file that is
/// meant, and what most likely helps, where that is known; of a program that the verifier refuses also what it knew there. Each
/// line begins with `note: ` (docs/REFUSALS.md, Notes). A program that is refused is verified once more for them, and images are counted
/// once more where there are too many; where there is no memory for that, it isn't said.
///
/// # Errors
///
/// Memory was refused.
pub fn notes_after(
    alloc: Global,
    words: &Words,
    files: &[Option<Vec<u8>>],
    refusal: &Refusal,
) -> Result<String, AllocError> {
    let mut out = String::new(alloc);
    let at = refusal.at as usize;
    match refusal.code {
        Cause::Log(cause) => put_log_notes(alloc, &mut out, words, files, cause, at)?,
        Cause::Code(cause) => put_code_notes(
            alloc,
            &mut out,
            words,
            files,
            cause,
            refusal.program,
        )?,
        Cause::Asm(cause) => put_cause(alloc, &mut out, &cause, asm_cure(cause))?,
        Cause::Verifier(cause) => put_verifier_notes(
            alloc,
            &mut out,
            words.request(),
            cause,
            refusal.at,
            &breach_in(alloc, words.request(), files, place_of(refusal.program)),
        )?,
        Cause::Request(RequestCause::TooManyImages) => {
            put_many_notes(alloc, &mut out, words, files, at)?
        }
        Cause::Request(RequestCause::Option) => { put_note(&mut out, rule_of(words, refusal.at))? },
        Cause::Request(RequestCause::NotInLog) => put_note(&mut out, NOT_IN_LOG)?,
        Cause::Request(RequestCause::NotReport) => put_note(
            &mut out,
            report_rule(words.request()),
        )?,
        Cause::Request(RequestCause::File) => put_file_notes(alloc, &mut out, words, files, at)?,
        Cause::Join(cause) => put_join_notes(alloc, &mut out, words, files, cause, at)?,
        Cause::Work(_cause) => put_work_notes(&mut out, words)?,
    }
    Ok(out)
}
