//! The line of the options of a part, read word by word.

ghost use Rattle.std.specs.Prelude.{ℕ, ◌≡◌, ◌+◌, ◌<◌, ◌≤◌, ◌^◌, Bool, All, Option};
ghost use Rattle.epochs.specs.declared.cuts.CutKind.{CutKind};
ghost use Rattle.epochs.specs.Flushes.{places_of};
ghost use Rattle.report.specs.Text.{cuts_word, yes_or_no};
ghost use Rattle.join.specs.Heads.{AreEntries, IsFewOption, IsProgramHead, IsSmallGiven, IsSmallHead, IsSmallOption, IsWord, ReadsBy, ReadsChoices, ReadsDevice, ReadsEntries, ReadsFlushes, ReadsGiven, ReadsOption, ReadsOptions};

use crate::words::{next_word, parts};
use epochs::{By, CutKind, Cuts, Flushes};
use report::printed::{byte_number, number, small_number};
use report::{Head, ProgramHead};

/// How many flushes can be added.
const MOST_FLUSHES: u8 = 64;

/// The options that stand in the line only where they are given.
#[derive(Clone, Copy)]
pub struct GivenOptions {
    /// What departs as one.
    pub(crate) by: By,
    /// The flushes that were added.
    pub(crate) flushes: Flushes,
    /// The first cut that is wanted.
    pub(crate) from: Option<u64>,
    /// The last cut that is wanted.
    pub(crate) to: Option<u64>,
    /// The number of what the device held before entry 0.
    pub(crate) base: Option<u64>,
}

/// The kind of cuts that a word says.
fn kind_said(word: &str) -> CutKind
    ensures { (kind : CutKind) → word.now ≡ cuts_word kind → result ≡ kind }
{
    match word {
        "flush" => CutKind::BeforeFlush,
        "mark" => CutKind::AfterMark,
        _ => CutKind::All,
    }
}

/// Whether a word is `yes`.
pub(crate) fn is_yes(word: &str) -> bool
    ensures { (is : Bool) → word.now ≡ yes_or_no is → result ≡ is }
{
    word == "yes"
}

/// What a line says of the device, of the log and of the kind of cuts, and what stands after that.
pub(crate) fn device_said(line: &str) -> (u32, u32, CutKind, &str)
    ensures { ReadsDevice line.now result.0 result.1 result.2 result.3.now }
{
    let (_sectors, line) = next_word(line);
    let (sectors, line) = next_word(line);
    let (_entries, line) = next_word(line);
    let (entries, line) = next_word(line);
    let (_cuts, line) = next_word(line);
    let (kind, line) = next_word(line);
    (
        small_number(sectors),
        small_number(entries),
        kind_said(kind),
        line,
    )
}

/// The bound that a line says, whether there are tears, whether the first failing image alone is shown, and what stands after that.
fn choices_said(line: &str) -> (u8, bool, bool, &str)
    ensures { ReadsChoices line.now result.0 result.1 result.2 result.3.now }
{
    let (_bound, line) = next_word(line);
    let (bound, line) = next_word(line);
    let (_tears, line) = next_word(line);
    let (tears, line) = next_word(line);
    let (_first, line) = next_word(line);
    let (first, line) = next_word(line);
    (byte_number(bound), is_yes(tears), is_yes(first), line)
}

/// What departs as one, by the first words of a line, and what stands after these.
#[tactic(auto, using(crate::proofs::WordsRead::by_sector, crate::proofs::WordsRead::by_write))]
fn by_said(line: &str) -> (By, &str)
    ensures { ReadsBy line.now result.0 result.1.now }
{
    let (word, value) = next_word(line);
    if word == "by" {
        let (_write, rest) = next_word(value);
        return (By::Write, rest);
    }
    (By::Sector, line)
}

/// Flushes, and after them those of a list of entries, at most `left`.
#[tactic(auto, using(crate::proofs::FlushesRead::none_left, crate::proofs::FlushesRead::last_entry, crate::proofs::FlushesRead::more_entries, crate::proofs::FlushesRead::entries_push))]
fn flushes_with(found: &Flushes, left: u8, text: &str) -> Flushes
    requires { found.now.count + left ≤ 64 }
    ensures read { ReadsEntries (places_of found.now) left text.now result }
    ensures small { AreEntries (places_of found.now) → AreEntries (places_of result) }
{
    if left == 0 {
        return *found;
    }
    match parts(text, ',') {
        Some((entry, more)) => flushes_with(&found.with(small_number(entry)), left - 1, more),
        None => found.with(small_number(text)),
    }
}

/// The flushes that were added, by the first words of a line, and what stands after these.
#[tactic(auto, using(crate::proofs::FlushesRead::no_flush, crate::proofs::FlushesRead::some_flush))]
fn flushes_said(line: &str) -> (Flushes, &str)
    ensures read { ReadsFlushes line.now result.0 result.1.now }
    ensures small { AreEntries (places_of result.0) }
{
    let (word, list) = next_word(line);
    if word == "flush" {
        let (entries, rest) = next_word(list);
        return (flushes_with(&Flushes::NONE, MOST_FLUSHES, entries), rest);
    }
    (Flushes::NONE, line)
}

/// The number after an option, where a line begins with its name, and what stands after that; else the line as it is.
#[tactic(auto, using(crate::proofs::WordsRead::option_lacking, crate::proofs::WordsRead::option_found))]
pub(crate) fn option_said<'t>(name: &str, line: &'t str) -> (Option<u64>, &'t str)
    requires { IsWord name.now }
    ensures read { ReadsOption name.now line.now result.0 result.1.now }
    ensures small { IsSmallOption result.0 }
{
    let (word, value) = next_word(line);
    if word == name {
        let (said, rest) = next_word(value);
        return (Some(number(said)), rest);
    }
    (None, line)
}

/// A number that is below 2^32, and 0 where it isn't.
pub(crate) fn few(number: Option<u64>) -> Option<u32>
    ensures same { (n : Option ℕ) → IsFewOption n → number ≡ n → result ≡ n }
    ensures small { IsFewOption result }
{
    match number {
        Some(number) if number < 4_294_967_296 => Some(number as u32),
        Some(_) => Some(0),
        None => None,
    }
}

/// The options of a line that stand there only where they are given.
#[tactic(auto, using(crate::proofs::HeadsRead::given_read))]
pub(crate) fn given_said(line: &str) -> GivenOptions
    ensures read { ReadsGiven line.now result }
    ensures small { IsSmallGiven result }
{
    let (by, line) = by_said(line);
    let (flushes, line) = flushes_said(line);
    let (from, line) = option_said("from", line);
    let (to, line) = option_said("to", line);
    let (base, _rest) = option_said("base", line);
    GivenOptions {
        by,
        flushes,
        from,
        to,
        base,
    }
}

/// What the line of the options says, with these programs.
#[tactic(auto, using(crate::proofs::HeadsRead::options_read))]
pub(crate) fn options_said(line: &str, programs: Vec<ProgramHead>) -> Head
    requires { All IsProgramHead programs.items }
    ensures read { ReadsOptions line.now result }
    ensures programs { result.programs ≡ programs.items }
    ensures small { IsSmallHead result }
{
    let (sectors, entries, kind, line) = device_said(line);
    let (bound, tears, first, line) = choices_said(line);
    let given = given_said(line);
    Head {
        sectors,
        entries,
        cuts: Cuts {
            kind,
            from: given.from,
            to: given.to,
            flushes: given.flushes,
        },
        bound,
        tears,
        by: given.by,
        first,
        programs,
        images: 0,
        base: given.base,
    }
}
