//! What `clap` read of the words, and what that asks for.

ghost use Rattle.std.specs.Prelude.{◌≡◌, ◌<◌, ◌++◌, codes, length, map, option_map, unwrap_or, is_some, string_bytes, Some, IfOk, MatchOption, MatchResult, OnOk};
ghost use Rattle.clap.specs.Words.{first_value, found_of};
ghost use Rattle.command_line.specs.Number.{NoNumber as NoNumberText};
ghost use Rattle.request.specs.declared.settings.Retelling.TheVariants as retelling;
ghost use Rattle.command_line.specs.Parsed.{Asks, AsksBounded, AsksExport, AsksImage, AsksReport, AsksTold, AreFlushes, AreOptions, AreOptionsWith, IsBoundOf, IsExtent, any_named, asks_losses, base_named, bound_named, choice_named, command_named, counted, cured, cuts_named, explained, explored, files_named, first_file, program_files, limits_named, losses_named, no_flushes, paged, parts_named, recorded, sectors_named, settings_named, trial_asked, unnamed_in, word_bytes, IsFlagOf, IsNumberOf, IsRead, IsSizeOf, IsWhich};

use crate::extents::extent_in;
use crate::flush_list::flushes_in;
use crate::number::number_in;
use arrayvec::ArrayString;
use base::limits::Limits;
use clap::ArgMatches;
use epochs::{By, CutKind, Cuts, Flushes};
use request::{
    CaseTelling, Extent, KnownTelling, KnownWords, LossWords, OptionPlace, OptionWords, Request,
    Retelling, Settings, TrialWords, Which,
};
use std::alloc::{AllocError, Global};

/// The bound that stands for `any` where a command takes none: it is too great.
const NO_BOUND: u64 = 18_446_744_073_709_551_615;

/// What `clap` read after the program's name: the name of the command, and what stands after each of its words and options,
/// none where nothing does (docs/COMMANDS.md, Commands and Options).
#[derive(Clone, Copy)]
pub struct Parsed<'a> {
    /// The name of the command.
    pub command: &'a str,
    /// Its first file: a log, a source text or a program.
    pub file: Option<&'a str>,
    /// The image on which a program is run.
    pub image: Option<&'a str>,
    /// The name after `--lines`.
    pub lines: Option<&'a str>,
    /// The programs of a run.
    pub programs: Option<&'a [&'a str]>,
    /// The name after `--report`.
    pub report: Option<&'a str>,
    /// The name after `--known`.
    pub known: Option<&'a str>,
    /// Whether `base` stands after `--sectors`.
    pub is_sized: bool,
    /// The number after `--sectors`.
    pub sectors: Option<u64>,
    /// Whether `--large` stands there.
    pub large: bool,
    /// The word after `--flush`.
    pub flush: Option<&'a str>,
    /// The name after `--base`.
    pub base: Option<&'a str>,
    /// The word after `--cuts`.
    pub cuts: Option<&'a str>,
    /// The number after `--from`.
    pub from: Option<u64>,
    /// The number after `--to`.
    pub to: Option<u64>,
    /// Whether `any` stands after `--bound`.
    pub any: bool,
    /// The number after `--bound`.
    pub bound: Option<u64>,
    /// Whether `--tears` stands there.
    pub tears: bool,
    /// The number after `--torn`.
    pub torn: Option<u64>,
    /// The number after `--at-most`.
    pub at_most: Option<u64>,
    /// Whether `--stop-at-failing` stands there.
    pub at_failing: bool,
    /// The number after `--cases`.
    pub cases: Option<u64>,
    /// The word after `--by`.
    pub by: Option<&'a str>,
    /// The number after `--workers`.
    pub workers: Option<u64>,
    /// The number after `--cache`.
    pub cache: Option<u64>,
    /// The number after `--checked`.
    pub checked: Option<u64>,
    /// Whether `--guards` stands there.
    pub guards: bool,
    /// Whether `--first` stands there.
    pub first: bool,
    /// Whether `--inputs` stands there.
    pub inputs: bool,
    /// Whether `--progress` stands there.
    pub progress: bool,
    /// The number of an image.
    pub number: Option<u64>,
    /// The number after `--cut`.
    pub cut: Option<u64>,
    /// The text after `--choice`.
    pub choice: Option<&'a str>,
    /// Whether `--slots` stands there.
    pub slots: bool,
    /// Whether `--list` stands there.
    pub list: bool,
    /// The number after `--epoch`.
    pub epoch: Option<u64>,
    /// The number after `--marks`.
    pub marks: Option<u64>,
    /// The number after `--trace`.
    pub trace: Option<u64>,
    /// The word after `--images`, of `explore`.
    pub images: Option<&'a str>,
    /// Whether `--images` stands there, of the commands that take no word after it.
    pub wide: bool,
    /// The number after `--parts`.
    pub parts: Option<u64>,
    /// Whether `--part` stands there.
    pub part: bool,
    /// The texts of parts.
    pub texts: Option<&'a [&'a str]>,
}

/// The commands of the program (docs/COMMANDS.md, Commands).
#[derive(Clone, Copy)]
pub(crate) enum Verb {
    Explore,
    Why,
    Cure,
    Page,
    Images,
    Export,
    Image,
    Show,
    Log,
    Import,
    Verify,
    Check,
    Asm,
    List,
    Join,
}

/// The command of that name.
fn verb_of(name: &str) -> Option<Verb>
    ensures { result ≡ command_named name.now }
{
    match name {
        "explore" => Some(Verb::Explore),
        "why" => Some(Verb::Why),
        "cure" => Some(Verb::Cure),
        "page" => Some(Verb::Page),
        "images" => Some(Verb::Images),
        "export" => Some(Verb::Export),
        "image" => Some(Verb::Image),
        "show" => Some(Verb::Show),
        "log" => Some(Verb::Log),
        "import" => Some(Verb::Import),
        "verify" => Some(Verb::Verify),
        "check" => Some(Verb::Check),
        "asm" => Some(Verb::Asm),
        "list" => Some(Verb::List),
        "join" => Some(Verb::Join),
        _ => None,
    }
}

/// How large a log and its device may be, by whether `--large` stands there.
fn limits_of(large: bool) -> Limits
    ensures { result ≡ limits_named large }
{
    if large { Limits::Large } else { Limits::Usual }
}

/// The kind of cut that a word names: all cuts where there is no word.
fn cuts_of(word: Option<&str>) -> Option<CutKind>
    ensures { result ≡ cuts_named (option_map (λ w. w.now) word.entry) }
{
    match word {
        None | Some("all") => Some(CutKind::All),
        Some("flush") => Some(CutKind::BeforeFlush),
        Some("mark") => Some(CutKind::AfterMark),
        Some(_) => None,
    }
}

/// The kind of part that a word names: sectors where there is no word.
fn by_of(word: Option<&str>) -> Option<By>
    ensures { result ≡ parts_named (option_map (λ w. w.now) word.entry) }
{
    match word {
        None | Some("sector") => Some(By::Sector),
        Some("write") => Some(By::Write),
        Some(_) => None,
    }
}

/// Whether the word after `--bound` is `any`.
fn any_of(word: Option<&str>) -> bool
    ensures { result ≡ any_named (option_map (λ w. w.now) word.entry) }
{
    match word {
        Some("any") => true,
        _ => false,
    }
}

/// Whether the word after `--sectors` is `base`.
fn base_of(word: Option<&str>) -> bool
    ensures { result ≡ base_named (option_map (λ w. w.now) word.entry) }
{
    match word {
        Some("base") => true,
        _ => false,
    }
}

/// The flushes that a word says: none of them where there is no word.
fn flushes_of(word: Option<&str>) -> Option<Flushes>
    ensures { AreFlushes (option_map (λ w. w.now) word.entry) result }
{
    match word {
        Some(word) => flushes_in(word),
        None => Some(Flushes::NONE),
    }
}

/// Returns these flushes, and none where a word named no list of entries.
fn or_no_flushes(flushes: Option<Flushes>) -> Flushes
    ensures { result ≡ unwrap_or flushes no_flushes }
{
    flushes.unwrap_or(Flushes::NONE)
}

/// The images that are meant: those that a word says, or else all, of a run with as many images as there can be or not.
fn extent_of(word: Option<&str>, wide: bool) -> Option<Extent>
    ensures { IsExtent (option_map (λ w. w.now) word.entry) wide result }
{
    match word {
        Some(word) => extent_in(word),
        None if wide => Some(Extent::Wide),
        None => Some(Extent::Whole),
    }
}

/// The text of a choice, if it isn't longer than any choice's.
fn choice_word(word: &str) -> Option<ArrayString<96>>
    ensures { MatchOption result (96 < length word.now) (λ text. text.bytes ≡ word.now) }
{
    match ArrayString::from(word) {
        Ok(choice) => Some(choice),
        Err(_error) => None,
    }
}

/// Appends the names of files.
fn put_names(alloc: Global, files: &mut Vec<String>, names: &[&str]) -> Result<(), AllocError>
    ensures { OnOk result (map string_bytes files.new.items ≡ map string_bytes files.old.items ++ map (λ w. w.now) names.now) }
{
    for name in names {
        files.push(name.to_string(alloc)?)?;
    }
    Ok(())
}

/// Appends the name of a file, where one is named.
fn put_name(alloc: Global, files: &mut Vec<String>, name: Option<&str>) -> Result<(), AllocError>
    ensures { OnOk result (map string_bytes files.new.items ≡ map string_bytes files.old.items ++ first_file (word_bytes name.entry)) }
{
    if let Some(name) = name {
        files.push(name.to_string(alloc)?)?;
    }
    Ok(())
}

/// Appends the names of files, where some are named.
fn put_if_named(
    alloc: Global,
    files: &mut Vec<String>,
    names: Option<&[&str]>,
) -> Result<(), AllocError>
    ensures { OnOk result (map string_bytes files.new.items ≡ map string_bytes files.old.items ++ program_files names.entry) }
{
    match names {
        Some(names) => put_names(alloc, files, names),
        None => Ok(()),
    }
}

/// A word that stands in the place of a number and is none, and which option or word it is.
#[derive(Clone, Copy)]
pub(crate) struct NoNumber<'a> {
    pub(crate) option: &'a str,
    pub(crate) word: &'a str,
}

/// The number after an option, if there is one.
///
/// # Errors
///
/// What stands there is no number.
fn number_of<'a>(matches: &'a ArgMatches<'_>, option: &'a str) -> Result<Option<u64>, NoNumber<'a>>
    ensures { MatchResult result (IsNumberOf (found_of matches.entry.now) option.entry.now)
        (λ no. (no.option ≡ option.entry) × (first_value (found_of matches.entry.now) option.entry.now ≡ Some no.word.now) × NoNumberText 64 no.word.now) }
{
    let Some(word) = matches.get_str(option) else {
        return Ok(None);
    };
    match number_in(word) {
        Some(number) => Ok(Some(number)),
        None => Err(NoNumber { option, word }),
    }
}

/// The number after `--bound`, if there is one: none where `any` stands there.
///
/// # Errors
///
/// What stands there is neither.
fn bound_of<'a>(matches: &'a ArgMatches<'_>) -> Result<Option<u64>, NoNumber<'a>>
    ensures { IfOk result (IsBoundOf (found_of matches.entry.now) (any_named (first_value (found_of matches.entry.now) (codes "bound")))) }
{
    if any_of(matches.get_str("bound")) {
        return Ok(None);
    }
    number_of(matches, "bound")
}

/// The number after `--sectors`, if there is one: none where `base` stands there.
///
/// # Errors
///
/// What stands there is neither.
fn sectors_of<'a>(matches: &'a ArgMatches<'_>) -> Result<Option<u64>, NoNumber<'a>>
    ensures { IfOk result (IsSizeOf (found_of matches.entry.now) (base_named (first_value (found_of matches.entry.now) (codes "sectors")))) }
{
    if base_of(matches.get_str("sectors")) {
        return Ok(None);
    }
    number_of(matches, "sectors")
}

/// Whether a flag stands there.
fn flag_of(matches: &ArgMatches<'_>, option: &str) -> bool
    ensures { IsFlagOf (found_of matches.now) option.now result }
{
    matches.get_flag(option)
}

impl<'a> Parsed<'a> {
    /// What `clap` read of the command of that name.
    ///
    /// # Errors
    ///
    /// The first word in the place of a number that is none.
    pub(crate) fn of(
        command: &'a str,
        matches: &'a ArgMatches<'_>,
    ) -> Result<Parsed<'a>, NoNumber<'a>>
        ensures command { IfOk result (λ parsed. parsed.command ≡ command.entry) }
        ensures read { IfOk result (IsRead (found_of matches.now)) }
    {
        Ok(Parsed {
            command,
            file: matches.get_str("file"),
            image: matches.get_str("image"),
            lines: matches.get_str("lines"),
            programs: matches.get_strs("programs"),
            report: matches.get_str("report"),
            known: matches.get_str("known"),
            is_sized: base_of(matches.get_str("sectors")),
            sectors: sectors_of(matches)?,
            large: flag_of(matches, "large"),
            flush: matches.get_str("flush"),
            base: matches.get_str("base"),
            cuts: matches.get_str("cuts"),
            from: number_of(matches, "from")?,
            to: number_of(matches, "to")?,
            any: any_of(matches.get_str("bound")),
            bound: bound_of(matches)?,
            tears: flag_of(matches, "tears"),
            torn: number_of(matches, "torn")?,
            at_most: number_of(matches, "at-most")?,
            at_failing: flag_of(matches, "stop-at-failing"),
            cases: number_of(matches, "cases")?,
            by: matches.get_str("by"),
            workers: number_of(matches, "workers")?,
            cache: number_of(matches, "cache")?,
            checked: number_of(matches, "checked")?,
            guards: flag_of(matches, "guards"),
            first: flag_of(matches, "first"),
            inputs: flag_of(matches, "inputs"),
            progress: flag_of(matches, "progress"),
            number: number_of(matches, "number")?,
            cut: number_of(matches, "cut")?,
            choice: matches.get_str("choice"),
            slots: flag_of(matches, "slots"),
            list: flag_of(matches, "list"),
            epoch: number_of(matches, "epoch")?,
            marks: number_of(matches, "marks")?,
            trace: number_of(matches, "trace")?,
            images: matches.get_str("images"),
            wide: flag_of(matches, "wide"),
            parts: number_of(matches, "parts")?,
            part: flag_of(matches, "part"),
            texts: matches.get_strs("texts"),
        })
    }

    /// The bound: 1 where none was written, and where `any` was, that number.
    fn bound(&self, any: u64) -> u64
        ensures { result ≡ bound_named self.now any }
    {
        if self.any {
            return any;
        }
        self.bound.unwrap_or(1)
    }

    /// The number of sectors that is asked for: without a number that of the largest device, and of a size that no file says 0.
    fn sectors(&self) -> u64
        ensures { result ≡ sectors_named self.now }
    {
        if self.is_sized && self.base.is_none() {
            return 0;
        }
        let most = limits_of(self.large).sectors();
        self.sectors.unwrap_or(u64::from(most))
    }

    /// What is asked for, with that bound for `any`, and these flushes and images. What isn't written has its default, and so has a word
    /// that names nothing.
    fn settings(&self, any: u64, flushes: Option<Flushes>, images: Option<Extent>) -> Settings
        ensures { result ≡ settings_named self.now any flushes images }
    {
        let limits = limits_of(self.large);
        Settings {
            sectors: self.sectors(),
            limits,
            cuts: Cuts {
                kind: cuts_of(self.cuts).unwrap_or(CutKind::All),
                from: self.from,
                to: self.to,
                flushes: or_no_flushes(flushes),
            },
            bound: self.bound(any),
            tears: self.tears,
            by: by_of(self.by).unwrap_or(By::Sector),
            workers: self.workers.unwrap_or(1),
            cache: self.cache.unwrap_or(0),
            checked: self.checked,
            guards: self.guards,
            first: self.first,
            extent: images.unwrap_or(Extent::Whole),
        }
    }

    /// The first word that names nothing, where those after `--flush` and `--images` name these.
    fn unnamed(&self, flushes: Option<Flushes>, images: Option<Extent>) -> Option<OptionPlace>
        ensures { result ≡ unnamed_in self.now flushes images }
    {
        if cuts_of(self.cuts).is_none() {
            return Some(OptionPlace::Cuts);
        }
        if by_of(self.by).is_none() {
            return Some(OptionPlace::By);
        }
        if flushes.is_none() {
            return Some(OptionPlace::Flush);
        }
        if images.is_none() {
            return Some(OptionPlace::Images);
        }
        None
    }

    /// The options that were written, with that bound for `any`.
    #[tactic(auto, unfolding(crate::specs::Parsed::AreOptionsWith))]
    fn options_by(&self, any: u64) -> OptionWords
        ensures { AreOptionsWith any self.now result }
    {
        let flushes = flushes_of(self.flush);
        let images = extent_of(self.images, self.wide);
        OptionWords {
            settings: self.settings(any, flushes, images),
            unnamed: self.unnamed(flushes, images),
        }
    }

    /// The options that were written, of a command that takes no `any`.
    fn options(&self) -> OptionWords
        ensures { AreOptions self.now result }
    {
        self.options_by(NO_BOUND)
    }

    /// Whether any number of losses is asked for, or a word stands there that is about them.
    fn asks_losses(&self) -> bool
        ensures { result ≡ asks_losses self.now }
    {
        self.any || self.torn.is_some() || self.at_most.is_some()
    }

    /// What is asked of any number of losses, and what is to be printed about the failing cases.
    fn losses(&self, telling: CaseTelling) -> LossWords
        ensures { result ≡ losses_named self.now telling }
    {
        LossWords {
            any: self.any,
            torn: self.torn,
            at_most: self.at_most,
            telling,
        }
    }

    /// What is asked of a search by records, and what is to be printed about what it finds.
    fn recorded(&self, telling: KnownTelling) -> KnownWords
        ensures { result ≡ recorded self.now telling }
    {
        KnownWords {
            losses: self.losses(CaseTelling::Cases),
            at_failing: self.at_failing,
            cases: self.cases,
            telling,
        }
    }

    /// What `explore` asks for, with these options.
    fn explored(&self, options: OptionWords) -> Request
        ensures { result ≡ explored self.now options }
    {
        if self.known.is_some() {
            Request::Known(options, self.recorded(KnownTelling::Cases))
        } else if self.asks_losses() {
            Request::Cases(options, self.losses(CaseTelling::Cases))
        } else {
            Request::Explore(options)
        }
    }

    /// What `explore` asks for. A report that says of what it is is of a number of losses: with `any` the bound has none.
    fn explore(&self) -> Request
        ensures { AsksReport self.now self.now.inputs result }
    {
        if self.inputs {
            Request::Marked(self.options())
        } else {
            self.explored(self.options_by(0))
        }
    }

    /// What `export` asks for: where records are named, the images that they leave open.
    fn exported(&self) -> Request
        ensures { AsksExport self.now (is_some self.now.known) result }
    {
        match self.known {
            Some(_name) => Request::Known(self.options_by(0), self.recorded(KnownTelling::Wanted)),
            None => Request::Export(self.options()),
        }
    }

    /// What `why` asks for, with these options, of programs.
    fn explained(&self, options: OptionWords) -> Request
        ensures { result ≡ explained self.now options }
    {
        if self.asks_losses() {
            Request::Cases(options, self.losses(CaseTelling::Causes))
        } else {
            Request::Why(options)
        }
    }

    /// What `images` asks for, with these options.
    fn counted(&self, options: OptionWords) -> Request
        ensures { result ≡ counted self.now options }
    {
        if self.asks_losses() {
            Request::Cuts(options, self.losses(CaseTelling::Cases), self.parts)
        } else {
            Request::Images(options, self.parts)
        }
    }

    /// What `why` asks for.
    fn why(&self) -> Request
        ensures { AsksTold self.now retelling.Causes (explained self.now) (is_some self.now.report) result }
    {
        match self.report {
            Some(_name) => Request::Retold(self.options(), Retelling::Causes),
            None => self.explained(self.options_by(0)),
        }
    }

    /// What `cure` asks for, with these options, of programs.
    fn cured(&self, options: OptionWords) -> Request
        ensures { result ≡ cured self.now options }
    {
        if self.asks_losses() {
            Request::CureCases(options, self.losses(CaseTelling::Cases))
        } else {
            Request::Cure(options)
        }
    }

    /// What `cure` asks for.
    fn cure(&self) -> Request
        ensures { AsksTold self.now retelling.Places (cured self.now) (is_some self.now.report) result }
    {
        match self.report {
            Some(_name) => Request::Retold(self.options(), Retelling::Places),
            None => self.cured(self.options_by(0)),
        }
    }

    /// What `page` asks for, with these options, of programs.
    fn paged(&self, options: OptionWords) -> Request
        ensures { result ≡ paged self.now options }
    {
        if self.asks_losses() {
            Request::Cases(options, self.losses(CaseTelling::Page))
        } else {
            Request::Page(options)
        }
    }

    /// What `page` asks for.
    fn page(&self) -> Request
        ensures { AsksTold self.now retelling.Page (paged self.now) (is_some self.now.report) result }
    {
        match self.report {
            Some(_name) => Request::Retold(self.options(), Retelling::Page),
            None => self.paged(self.options_by(0)),
        }
    }

    /// Returns which image is meant: by its cut and its choice, or else by its number.
    fn which(&self) -> Which
        ensures { IsWhich self.now result }
    {
        match self.cut {
            Some(cut) => Which::Printed {
                cut,
                choice: choice_word(self.choice.unwrap_or("")),
            },
            None => Which::Number(self.number.unwrap_or(0)),
        }
    }

    /// What `image` asks for, or `show`, which tells the image in words. With `--cut` and `any` the bound has no number, and the text of
    /// the choice stands beside the request.
    fn imaged(&self, in_words: bool) -> Request
        ensures { AsksImage self.now in_words result }
    {
        match self.cut {
            Some(cut) if self.any => Request::AnyImage {
                words: self.options_by(0),
                cut,
                in_words,
            },
            _ => self.bounded(in_words),
        }
    }

    /// What is asked for with a bound.
    fn bounded(&self, in_words: bool) -> Request
        ensures { AsksBounded self.now in_words result }
    {
        if in_words {
            Request::Show(self.options(), self.which())
        } else {
            Request::Image(self.options(), self.which())
        }
    }

    /// The text after `--choice`, none of it without that.
    ///
    /// # Errors
    ///
    /// Want of memory.
    pub fn choice_text(&self, alloc: Global) -> Result<String, AllocError>
        ensures { IfOk result (λ text. string_bytes text ≡ choice_named self.now) }
    {
        self.choice.unwrap_or("").to_string(alloc)
    }

    /// What is asked of a run on one image, each number that wasn't written by its default.
    fn trial(&self) -> TrialWords
        ensures { result ≡ trial_asked self.now }
    {
        TrialWords {
            limits: limits_of(self.large),
            epoch: self.epoch.unwrap_or(0),
            marks: self.marks.unwrap_or(0),
            checked: self.checked,
            guards: self.guards,
            trace: self.trace.unwrap_or(0),
        }
    }

    /// What is asked for. A name that is no command's asks for nothing, and so for the stored run; `clap` takes no such name.
    pub fn request(&self) -> Request
        ensures { Asks self.now (command_named self.now.command.now) result }
    {
        match verb_of(self.command) {
            Some(Verb::Explore) => self.explore(),
            Some(Verb::Why) => self.why(),
            Some(Verb::Cure) => self.cure(),
            Some(Verb::Page) => self.page(),
            Some(Verb::Images) => self.counted(self.options_by(0)),
            Some(Verb::Export) => self.exported(),
            Some(Verb::Image) => self.imaged(false),
            Some(Verb::Show) => self.imaged(true),
            Some(Verb::Log) => Request::Log(self.options()),
            Some(Verb::Import) => Request::Import(limits_of(self.large)),
            Some(Verb::Verify) => Request::Verify {
                words: self.options(),
                listed: self.list,
            },
            Some(Verb::Check) => Request::Check(self.trial()),
            Some(Verb::Asm) => Request::Asm,
            Some(Verb::List) => Request::List {
                numbered: self.slots,
            },
            Some(Verb::Join) => Request::Join { part: self.part },
            None => Request::StoredRun,
        }
    }

    /// The files that are named: a log, a source text or a program, then the image of a program and its lines of C, then the programs
    /// of a run, or a report or records in their place, or the texts of parts.
    ///
    /// # Errors
    ///
    /// Want of memory.
    pub fn files(&self, alloc: Global) -> Result<Vec<String>, AllocError>
        ensures { IfOk result (λ files. map string_bytes files.items ≡ files_named self.now) }
    {
        let mut files = Vec::new(alloc);
        put_name(alloc, &mut files, self.file)?;
        put_name(alloc, &mut files, self.image)?;
        put_name(alloc, &mut files, self.lines)?;
        put_if_named(alloc, &mut files, self.programs)?;
        put_name(alloc, &mut files, self.report)?;
        put_name(alloc, &mut files, self.known)?;
        put_if_named(alloc, &mut files, self.texts)?;
        Ok(files)
    }

    /// The file after `--base`, where that stands there.
    ///
    /// # Errors
    ///
    /// Want of memory.
    pub fn base_file(&self, alloc: Global) -> Result<Option<String>, AllocError>
        ensures { IfOk result (λ file. option_map string_bytes file ≡ word_bytes self.now.base) }
    {
        match self.base {
            Some(name) => Ok(Some(name.to_string(alloc)?)),
            None => Ok(None),
        }
    }
}
