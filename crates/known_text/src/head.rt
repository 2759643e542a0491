//! The lines of a head.

ghost use Rattle.std.specs.Prelude.{ℕ, ◌≡◌, ◌≢◌, ◌+◌, ◌<◌, ◌≤◌, ◌^◌, ◌&&◌, ◌↔◌, ◌++◌, ◌∷◌, [], true, List, IfErr, IfOk, IsTrue, MatchOption, MatchResult, length, string_bytes};
ghost use Rattle.std.specs.Fmt.{decimal};
ghost use Rattle.std.specs.List.{list_all};
ghost use Rattle.known_text.specs.Texts.{AreWordsOfProgram, HasForm, IsDecimal, IsSumWord, front_of, is_graphic, is_printed, line_of};
ghost use Rattle.known_text.specs.Pieces.{AnyFault, HasWord, NoWord, WordFault, other_at};

use crate::fault::{KnownFault, MEMORY, other, unread};
use crate::words::{beyond, first_line};
use report::printed::number;
use std::alloc::{AllocError, Global};
use std::str;

/// A line of a head after its title.
#[derive(Clone, Copy, Drop)]
pub enum HeadLine {
    /// The number of the inputs.
    Inputs,
    /// The words of the program.
    Program,
    /// What who judges made of the program.
    Sum,
}

/// The head of a text of records: the words of the program, and what who judges made of it, both as they stand there.
#[derive(Clone, Copy, Drop)]
pub struct KnownHead<'t> {
    pub words: &'t [u8],
    pub sum: &'t [u8],
}

/// What stands after the words with which such a line begins, if bytes begin with these.
fn beyond_front<'t>(kind: HeadLine, bytes: &'t [u8]) -> Option<&'t [u8]>
    ensures { MatchOption result ((rest : List ℕ) → bytes.now ≢ front_of kind ++ rest) (λ rest. bytes.now ≡ front_of kind ++ rest.now) }
{
    match kind {
        HeadLine::Inputs => beyond("inputs ", bytes),
        HeadLine::Program => beyond("program 0 outside ", bytes),
        HeadLine::Sum => beyond("sum ", bytes),
    }
}

/// Whether a text is that of a number.
#[tactic(auto, using(crate::proofs::Heads::no_decimal, crate::proofs::Heads::some_decimal))]
fn is_number(alloc: Global, text: &str) -> Result<bool, AllocError>
    ensures { IfOk result (λ is. IsTrue is ↔ IsDecimal text.now) }
{
    let said = number(text);
    let mut printed = String::new(alloc);
    write!(printed, "{said}")?;
    if printed.as_str() == text {
        Ok(true)
    } else {
        Ok(false)
    }
}

/// Whether a word is that of a number.
#[tactic(auto, using(crate::proofs::Heads::no_text))]
fn is_decimal(alloc: Global, word: &[u8]) -> Result<bool, AllocError>
    ensures { IfOk result (λ is. IsTrue is ↔ IsDecimal word.now) }
{
    match str::from_utf8(word) {
        Ok(text) => is_number(alloc, text),
        Err(_error) => Ok(false),
    }
}

/// Whether each byte is printable ASCII.
fn are_printed(words: &[u8]) -> bool
    ensures { result ≡ list_all is_printed words.now }
{
    for byte in words {
        if !(*byte >= 32 && *byte <= 126) {
            return false;
        }
    }
    true
}

/// Whether each byte is printable ASCII, and no blank.
fn are_graphic(word: &[u8]) -> bool
    ensures { result ≡ list_all is_graphic word.now }
{
    for byte in word {
        if !(*byte >= 33 && *byte <= 126) {
            return false;
        }
    }
    true
}

/// Whether these can be the words of a program.
fn are_words(words: &[u8]) -> bool
    ensures { IsTrue result ↔ AreWordsOfProgram words.now }
{
    words.len() > 0 && are_printed(words)
}

/// Whether this can be a sum.
fn is_sum(word: &[u8]) -> bool
    ensures { IsTrue result ↔ IsSumWord word.now }
{
    word.len() > 0 && word.len() <= 128 && are_graphic(word)
}

/// Whether a word has the form of that of such a line.
fn has_form(alloc: Global, kind: HeadLine, word: &[u8]) -> Result<bool, AllocError>
    ensures { IfOk result (λ is. IsTrue is ↔ HasForm kind word.now) }
{
    match kind {
        HeadLine::Inputs => is_decimal(alloc, word),
        HeadLine::Program => Ok(are_words(word)),
        HeadLine::Sum => Ok(is_sum(word)),
    }
}

/// The word of a line with which bytes begin, and what stands after the line, if it is such a line in its form.
#[tactic(auto, using(crate::proofs::Heads::other_front, crate::proofs::Heads::cut_off, crate::proofs::Heads::other_form, crate::proofs::Heads::word_found))]
pub(crate) fn word_said<'t>(
    alloc: Global,
    kind: HeadLine,
    bytes: &'t [u8],
) -> Result<Option<(&'t [u8], &'t [u8])>, AllocError>
    ensures { IfOk result (λ found. MatchOption found (NoWord kind bytes.now) (λ x. HasWord kind bytes.now x.0.now x.1.now)) }
{
    let Some(begun) = beyond_front(kind, bytes) else {
        return Ok(None);
    };
    let Some((word, rest)) = first_line(begun) else {
        return Ok(None);
    };
    if has_form(alloc, kind, word)? {
        Ok(Some((word, rest)))
    } else {
        Ok(None)
    }
}

/// The word of the line of that number, and what stands after it, if it is such a line in its form.
pub(crate) fn any_word<'t>(
    alloc: Global,
    kind: HeadLine,
    bytes: &'t [u8],
    line: u32,
) -> Result<(&'t [u8], &'t [u8]), KnownFault>
    ensures word { IfOk result (λ x. HasWord kind bytes.now x.0.now x.1.now) }
    ensures refused { IfErr result (λ f. AnyFault kind bytes.now line f) }
{
    match word_said(alloc, kind, bytes) {
        Ok(Some(found)) => Ok(found),
        Ok(None) => Err(unread(line)),
        Err(_error) => Err(MEMORY),
    }
}

/// What stands after a line of that number, if the word that it has is that one.
fn if_same<'t>(said: &[u8], word: &[u8], rest: &'t [u8], line: u32) -> Result<&'t [u8], KnownFault>
    ensures { MatchResult result (λ own. (own.now ≡ rest.now) × (said.now ≡ word.now)) (λ f. (f ≡ other_at line) × (said.now ≢ word.now)) }
{
    if said == word {
        Ok(rest)
    } else {
        Err(other(line))
    }
}

/// What stands after the line of that number, if it is such a line with that word.
#[tactic(auto, using(crate::proofs::Heads::own_found, crate::proofs::Heads::other_word))]
pub(crate) fn own_word<'t>(
    alloc: Global,
    kind: HeadLine,
    word: &[u8],
    bytes: &'t [u8],
    line: u32,
) -> Result<&'t [u8], KnownFault>
    requires { HasForm kind word.now }
    ensures rest { IfOk result (λ rest. bytes.now ≡ line_of kind word.now ++ 10 ∷ rest.now) }
    ensures refused { IfErr result (λ f. WordFault kind word.now bytes.now line f) }
{
    match any_word(alloc, kind, bytes, line) {
        Ok((said, rest)) => if_same(said, word, rest, line),
        Err(fault) => Err(fault),
    }
}
