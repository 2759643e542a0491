//! The parts of a line, taken from its front one by one.

ghost use Rattle.std.specs.Prelude.{◌≡◌, ◌++◌, ◌≤◌, false, [], drop, take, length, option_map};
ghost use Rattle.bpf_asm.specs.Parts.{is_word_character, is_blank, parts, first_word, first_mark, is_none_left, IsFront, IsWord, goes_on};

/// Whether words are made of this character.
#[tactic(auto, unfolding(crate::specs::Parts::is_word_character))]
fn is_word_character(c: u8) -> bool
    ensures { result ≡ is_word_character c }
{
    c.is_ascii_alphanumeric() || c == b'_'
}

/// Whether it is a space or a tab.
fn is_blank(c: u8) -> bool
    ensures { result ≡ is_blank c }
{
    c == b' ' || c == b'\t'
}

/// The line from its first character on that is neither a space nor a tab.
fn skip_blanks(line: &[u8]) -> &[u8]
    ensures same { parts result.now ≡ parts line.now }
    ensures front { IsFront result.now }
{
    for (i, c) in line.iter().enumerate() {
        if !is_blank(*c) {
            return line.split_at(i).1;
        }
    }
    &[]
}

/// How many characters of a word stand in front.
fn word_length(line: &[u8]) -> usize
    ensures within { result ≤ length line.now }
    ensures word { IsWord (take result line.now) }
    ensures end { goes_on (drop result line.now) ≡ false }
{
    for (i, c) in line.iter().enumerate() {
        if !is_word_character(*c) {
            return i;
        }
    }
    line.len()
}

/// The word with which a line begins, and the line after it.
pub(crate) fn word(line: &[u8]) -> Option<(&[u8], &[u8])>
    ensures { option_map (λ x. (x.0.now, parts x.1.now)) result ≡ first_word (parts line.now) }
{
    let line = skip_blanks(line);
    let length = word_length(line);
    if length == 0 {
        return None;
    }
    Some(line.split_at(length))
}

/// The mark with which a line begins, and the line after it.
pub(crate) fn mark(line: &[u8]) -> Option<(u8, &[u8])>
    ensures { option_map (λ x. (x.0, parts x.1.now)) result ≡ first_mark (parts line.now) }
{
    let line = skip_blanks(line);
    if line.is_empty() || line[0] == b';' || is_word_character(line[0]) {
        return None;
    }
    Some((line[0], line.split_at(1).1))
}

/// Whether no part is left.
pub(crate) fn is_end(line: &[u8]) -> bool
    ensures { result ≡ is_none_left (parts line.now) }
{
    let line = skip_blanks(line);
    line.is_empty() || line[0] == b';'
}
