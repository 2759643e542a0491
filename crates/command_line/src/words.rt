//! The words of the command line, and what they ask for.

ghost use Rattle.std.specs.Prelude.{◌≡◌, ◌≢◌, [], IfOk, IsOkAnd, map, option_map, string_bytes};
ghost use Rattle.command_line.specs.Words.{limits_asked, sectors_asked, sized_by, stored_run, AreAsked, AreFound, AreTaken};

use crate::parsed::{NoNumber, Parsed};
use crate::sized::request_on;
use crate::table::{
    ASM_ROW, CHECK_ROW, CURE_ROW, EXPLORE_ROW, EXPORT_ROW, IMAGE_ROW, IMAGES_ROW, IMPORT_ROW, Item,
    JOIN_ROW, LIST_ROW, LOG_ROW, OF_LOG, OF_RUN, PAGE_ROW, Row, SHOW_ROW, Shares, Takes,
    VERIFY_ROW, WHY_ROW,
};
use base::limits::Limits;
use clap::builder::ValueParser;
use clap::error::ErrorKind;
use clap::{Arg, ArgAction, ArgMatches, Command, Error};
use request::Request;
use std::alloc::{AllocError, Global};
use std::marker::Model;

/// The words after the program's name (docs/COMMANDS.md, Commands).
#[derive(Drop)]
pub struct Words {
    request: Request,
    files: Vec<String>,
    base: Option<String>,
    choice: String,
    progress: bool,
    is_sized: bool,
}

impl Model for Words {
    ghost use Rattle.std.specs.Prelude.{map, option_map, string_bytes};
    ghost use Rattle.command_line.specs.Words.{WordsValue};

    ghost Value = { WordsValue };

    ghost view = { λ w. record { request = w.request; files = map string_bytes w.files.items; base = option_map string_bytes w.base; choice = string_bytes w.choice; progress = w.progress; is_sized = w.is_sized } };
}

/// The version of the program, and the kit that it is written for. A build doesn't know whether it was proved.
const VERSION: &str = "0.1.0 (rattle-kit-13f logic dac8208d650f15bf)";

/// What the program is for.
const ABOUT: &str =
    "Judges every disk image that a power cut may leave, from a log of block writes.";

/// What stands after the help of the program.
const AFTER: &str = "Without a word the program explores an empty log with a program of its own.

A log has at most 64 MiB, 65,536 entries and 262,144 written or discarded
sectors; a device 16,384 sectors of 512 bytes; a program 4,096 slots; a run 8
programs and 16,777,216 images, and in parts more. With --large a log has at
most 1 GiB, and 2,097,152 such sectors, and a device 33,554,432 sectors.

Exit status: 0 where the command succeeded and no image fails, 1 where an image
fails, 2 for a refusal (a line on standard error, as 'refused 12 at 3'), a fault
of the command line, or a standard output that can't be written.";

/// The words that are taken where mostly a number stands. Where one is, `clap` takes each word there.
#[derive(Clone, Copy)]
struct Taken {
    /// `any` after `--bound`.
    any: bool,
    /// `base` after `--sectors`.
    base: bool,
}

impl Taken {
    /// Numbers alone are taken.
    const NUMBERS: Taken = Taken {
        any: false,
        base: false,
    };
}

/// What takes a number, or where a word is taken too each word.
fn number_or_word<'a>(word: bool) -> ValueParser<'a> {
    if word {
        ValueParser::String
    } else {
        ValueParser::Unsigned(0, u64::MAX)
    }
}

/// An argument that takes what an item does.
fn taking<'a>(arg: Arg<'a>, takes: Takes, taken: &Taken) -> Arg<'a> {
    match takes {
        Takes::Nothing => arg.action(ArgAction::SetTrue),
        Takes::Text => arg,
        Takes::Texts => arg.num_args(1..),
        Takes::Number => arg.value_parser(number_or_word(false)),
        Takes::Bound => arg.value_parser(number_or_word(taken.any)),
        Takes::Size => arg.value_parser(number_or_word(taken.base)),
    }
}

/// An argument under the name of an option, where it has one.
fn named<'a>(arg: Arg<'a>, option: Option<&'a str>) -> Arg<'a> {
    match option {
        Some(name) => arg.long(name),
        None => arg,
    }
}

/// The word or option of an item.
fn arg_of<'a>(alloc: Global, item: &'a Item, taken: &Taken) -> Result<Arg<'a>, AllocError> {
    taking(
        named(Arg::new(alloc, item.id), item.option),
        item.takes,
        taken,
    )
    .value_names(item.called)
    .help(item.help)
    .required(item.is_required)
    .allow_hyphen_values(item.may_have_hyphen)
    .required_unless_present_any(item.in_place_of)?
    .conflicts_with_all(item.excludes)?
    .requires_all(item.needs)
}

/// A command with one more word or option.
fn with_arg<'a>(
    command: Command<'a>,
    arg: Result<Arg<'a>, AllocError>,
) -> Result<Command<'a>, AllocError> {
    command.arg(arg?)
}

/// A command with the words and options of these items.
fn with_items<'a>(
    alloc: Global,
    command: Command<'a>,
    items: &'a [Item],
    taken: &Taken,
) -> Result<Command<'a>, AllocError> {
    let mut command = command;
    for item in items {
        command = with_arg(command, arg_of(alloc, item, taken))?;
    }
    Ok(command)
}

/// The words and options of a command on a log.
fn log_items() -> &'static [Item] {
    &OF_LOG
}

/// The options of a command that runs programs.
fn run_items() -> &'static [Item] {
    &OF_RUN
}

/// A command with the words and options that it shares with others.
fn with_shared<'a>(
    alloc: Global,
    command: Command<'a>,
    shares: Shares,
    taken: &Taken,
) -> Result<Command<'a>, AllocError> {
    match shares {
        Shares::Nothing => Ok(command),
        Shares::OfLog => with_items(alloc, command, log_items(), taken),
        Shares::OfRun => {
            let command = with_items(alloc, command, log_items(), taken)?;
            with_items(alloc, command, run_items(), taken)
        }
    }
}

/// The command of a row.
fn command_of<'a>(alloc: Global, row: &'a Row, taken: &Taken) -> Result<Command<'a>, AllocError> {
    let command = Command::new(alloc, row.name)
        .about(row.about)
        .after_help(row.after);
    let command = with_shared(alloc, command, row.shares, taken)?;
    with_items(alloc, command, row.own, taken)
}

/// The command `explore`.
fn explore_command<'a>(alloc: Global, taken: &Taken) -> Result<Command<'a>, AllocError> {
    command_of(alloc, &EXPLORE_ROW, taken)
}

/// The command `why`.
fn why_command<'a>(alloc: Global, taken: &Taken) -> Result<Command<'a>, AllocError> {
    command_of(alloc, &WHY_ROW, taken)
}

/// The command `cure`.
fn cure_command<'a>(alloc: Global, taken: &Taken) -> Result<Command<'a>, AllocError> {
    command_of(alloc, &CURE_ROW, taken)
}

/// The command `page`.
fn page_command<'a>(alloc: Global, taken: &Taken) -> Result<Command<'a>, AllocError> {
    command_of(alloc, &PAGE_ROW, taken)
}

/// The command `images`.
fn images_command<'a>(alloc: Global, taken: &Taken) -> Result<Command<'a>, AllocError> {
    command_of(alloc, &IMAGES_ROW, taken)
}

/// The command `export`.
fn export_command<'a>(alloc: Global, taken: &Taken) -> Result<Command<'a>, AllocError> {
    command_of(alloc, &EXPORT_ROW, taken)
}

/// The command `image`.
fn image_command<'a>(alloc: Global, taken: &Taken) -> Result<Command<'a>, AllocError> {
    command_of(alloc, &IMAGE_ROW, taken)
}

/// The command `show`.
fn show_command<'a>(alloc: Global, taken: &Taken) -> Result<Command<'a>, AllocError> {
    command_of(alloc, &SHOW_ROW, taken)
}

/// The command `log`.
fn log_command<'a>(alloc: Global, taken: &Taken) -> Result<Command<'a>, AllocError> {
    command_of(alloc, &LOG_ROW, taken)
}

/// The command `import`.
fn import_command<'a>(alloc: Global, taken: &Taken) -> Result<Command<'a>, AllocError> {
    command_of(alloc, &IMPORT_ROW, taken)
}

/// The command `verify`.
fn verify_command<'a>(alloc: Global, taken: &Taken) -> Result<Command<'a>, AllocError> {
    command_of(alloc, &VERIFY_ROW, taken)
}

/// The command `check`.
fn check_command<'a>(alloc: Global, taken: &Taken) -> Result<Command<'a>, AllocError> {
    command_of(alloc, &CHECK_ROW, taken)
}

/// The command `asm`.
fn asm_command<'a>(alloc: Global, taken: &Taken) -> Result<Command<'a>, AllocError> {
    command_of(alloc, &ASM_ROW, taken)
}

/// The command `list`.
fn list_command<'a>(alloc: Global, taken: &Taken) -> Result<Command<'a>, AllocError> {
    command_of(alloc, &LIST_ROW, taken)
}

/// The command `join`.
fn join_command<'a>(alloc: Global, taken: &Taken) -> Result<Command<'a>, AllocError> {
    command_of(alloc, &JOIN_ROW, taken)
}

/// A command with one more below it.
fn with_command<'a>(
    command: Command<'a>,
    below: Result<Command<'a>, AllocError>,
) -> Result<Command<'a>, AllocError> {
    command.subcommand(below?)
}

/// Returns all commands.
fn commands<'a>(alloc: Global, taken: Taken) -> Result<Command<'a>, AllocError> {
    let command = Command::new(alloc, "crashbpf")
        .bin_name("crashbpf")?
        .about(ABOUT)
        .after_help(AFTER)
        .version(VERSION)
        .no_binary_name(true)
        .subcommand_required(true);
    let command = with_command(command, explore_command(alloc, &taken))?;
    let command = with_command(command, why_command(alloc, &taken))?;
    let command = with_command(command, cure_command(alloc, &taken))?;
    let command = with_command(command, page_command(alloc, &taken))?;
    let command = with_command(command, images_command(alloc, &taken))?;
    let command = with_command(command, export_command(alloc, &taken))?;
    let command = with_command(command, image_command(alloc, &taken))?;
    let command = with_command(command, show_command(alloc, &taken))?;
    let command = with_command(command, log_command(alloc, &taken))?;
    let command = with_command(command, import_command(alloc, &taken))?;
    let command = with_command(command, verify_command(alloc, &taken))?;
    let command = with_command(command, check_command(alloc, &taken))?;
    let command = with_command(command, asm_command(alloc, &taken))?;
    let command = with_command(command, list_command(alloc, &taken))?;
    with_command(command, join_command(alloc, &taken))
}

/// The fault of a word in the place of a number that is none, in the form of `clap`'s. `clap` takes it as a number, so it has a sign
/// or a zero in front.
fn number_fault(alloc: Global, no: &NoNumber<'_>) -> Result<Error, AllocError> {
    let (option, word) = (no.option, no.word);
    let mut message = String::new(alloc);
    write!(
        message,
        "invalid value '{word}' for '{option}': a number has no sign and no zero in front"
    )?;
    let mut command = commands(alloc, Taken::NUMBERS)?;
    command.error(ErrorKind::ValueValidation, message.as_str())
}

/// Whether a word stands after an option, as the next word or after `=`.
fn stands_after(words: &[String], option: &str, wanted: &str, joined: &str) -> bool {
    let mut is_next = false;
    for word in words {
        let word = word.as_str();
        if word == "--" {
            return false;
        }
        if word == joined || (is_next && word == wanted) {
            return true;
        }
        is_next = word == option;
    }
    false
}

/// Returns which words stand in the place of a number. Without them options take numbers alone, and `clap` says what is wrong with
/// others.
fn taken_of(words: &[String]) -> Taken {
    Taken {
        any: stands_after(words, "--bound", "any", "--bound=any"),
        base: stands_after(words, "--sectors", "base", "--sectors=base"),
    }
}

impl Words {
    /// The stored run.
    fn of_stored_run(alloc: Global) -> Words
        ensures { result ≡ stored_run }
    {
        Words {
            request: Request::StoredRun,
            files: Vec::new(alloc),
            base: None,
            choice: String::new(alloc),
            progress: false,
            is_sized: false,
        }
    }

    /// What `clap` read, as what is asked for.
    fn of_parsed(alloc: Global, parsed: &Parsed<'_>) -> Result<Words, AllocError>
        ensures { IfOk result (AreAsked parsed.now) }
    {
        Ok(Words {
            request: parsed.request(),
            files: parsed.files(alloc)?,
            base: parsed.base_file(alloc)?,
            choice: parsed.choice_text(alloc)?,
            progress: parsed.progress,
            is_sized: parsed.is_sized,
        })
    }

    /// What `clap` found, as what is asked for.
    ///
    /// # Errors
    ///
    /// A word in the place of a number is none, or want of memory.
    fn of_matches(alloc: Global, matches: &ArgMatches<'_>) -> Result<Words, Error>
        ensures { IfOk result (AreFound matches.now) }
    {
        let Some((name, beyond)) = matches.subcommand() else {
            return Ok(Words::of_stored_run(alloc));
        };
        match Parsed::of(name, beyond) {
            Ok(parsed) => Ok(Words::of_parsed(alloc, &parsed)?),
            Err(word) => Err(number_fault(alloc, &word)?),
        }
    }

    /// Reads the words after the program's name. No word at all asks for the stored run.
    ///
    /// # Errors
    ///
    /// A fault of the command line, or its help, in `clap`'s own text.
    pub fn of(alloc: Global, words: &[String]) -> Result<Words, Error>
        ensures stored { words.now ≡ [] → IsOkAnd result (λ w. w ≡ stored_run) }
        ensures asked { words.now ≢ [] → IfOk result (AreTaken (map string_bytes words.now)) }
    {
        if words.is_empty() {
            return Ok(Words::of_stored_run(alloc));
        }
        let matches = commands(alloc, taken_of(words))?.try_get_matches_from(words)?;
        Ok(Words::of_matches(alloc, &matches)?)
    }

    /// The files of the command, in order: the log, then the programs.
    pub fn files(&self) -> &[String]
        ensures { map string_bytes result.now ≡ self.now.files }
    {
        self.files.as_slice()
    }

    /// The file that holds what the device held before entry 0, where one is named.
    pub fn base(&self) -> Option<&str>
        ensures { option_map (λ b. b.now) result ≡ self.now.base }
    {
        match &self.base {
            Some(name) => Some(name.as_str()),
            None => None,
        }
    }

    /// The text of the choice of an image, none of it where no choice is named.
    pub fn choice(&self) -> &str
        ensures { result.now ≡ self.now.choice }
    {
        self.choice.as_str()
    }

    /// The number of sectors of the device that is asked for; 0 where the command takes none.
    pub fn sectors(&self) -> u64
        ensures { result ≡ sectors_asked self.now.request }
    {
        match self.request {
            Request::Explore(words) | Request::Cases(words, _) => words.settings.sectors,
            Request::Why(words) | Request::CureCases(words, _) => words.settings.sectors,
            Request::Cure(words) | Request::Page(words) => words.settings.sectors,
            Request::Retold(words, _) | Request::Known(words, _) => words.settings.sectors,
            Request::Images(words, _) | Request::Cuts(words, _, _) => words.settings.sectors,
            Request::Log(words) | Request::Marked(words) => words.settings.sectors,
            Request::Export(words) => words.settings.sectors,
            Request::Image(words, _) | Request::Show(words, _) => words.settings.sectors,
            Request::AnyImage { words, .. } => words.settings.sectors,
            Request::Verify { words, .. } => words.settings.sectors,
            Request::Check(_) => 0,
            Request::StoredRun | Request::Import(_) => 0,
            Request::Asm | Request::List { .. } => 0,
            Request::Join { .. } => 0,
        }
    }

    /// How large the log and its device may be that is asked for.
    pub fn limits(&self) -> Limits
        ensures { result ≡ limits_asked self.now.request }
    {
        match self.request {
            Request::Explore(words) | Request::Cases(words, _) => words.settings.limits,
            Request::Why(words) | Request::CureCases(words, _) => words.settings.limits,
            Request::Cure(words) | Request::Page(words) => words.settings.limits,
            Request::Retold(words, _) | Request::Known(words, _) => words.settings.limits,
            Request::Images(words, _) | Request::Cuts(words, _, _) => words.settings.limits,
            Request::Log(words) | Request::Marked(words) => words.settings.limits,
            Request::Export(words) => words.settings.limits,
            Request::Image(words, _) | Request::Show(words, _) => words.settings.limits,
            Request::AnyImage { words, .. } => words.settings.limits,
            Request::Verify { words, .. } => words.settings.limits,
            Request::Check(words) => words.limits,
            Request::Import(limits) => limits,
            Request::StoredRun | Request::Join { .. } => Limits::Usual,
            Request::Asm | Request::List { .. } => Limits::Usual,
        }
    }

    /// Whether the device has the size of what it held before: `base` stands after `--sectors`.
    pub fn is_sized(&self) -> bool
        ensures { result ≡ self.now.is_sized }
    {
        self.is_sized
    }

    /// Asks for a device of `sectors` sectors from here on, where it is to have the size of what it held before and that is known.
    pub fn set_size(&mut self, sectors: Option<u64>)
        ensures { self.new ≡ sized_by self.old sectors }
    {
        if let Some(sectors) = sectors {
            if self.is_sized {
                self.request = request_on(&self.request, sectors);
            }
        }
    }

    /// Whether an exploration is to say how far it is.
    pub fn progress(&self) -> bool
        ensures { result ≡ self.now.progress }
    {
        self.progress
    }

    /// What is asked for.
    pub fn request(&self) -> Request
        ensures { result ≡ self.now.request }
    {
        self.request
    }
}
