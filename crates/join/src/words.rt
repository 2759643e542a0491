//! Words of a text.

ghost use Rattle.std.specs.Prelude.{ℕ, ◌≡◌, ◌≢◌, ◌<◌, ◌++◌, List, MatchOption};
ghost use Rattle.join.specs.Heads.{ReadsWord};
ghost use Rattle.join.specs.Reading.{HasFront, IsCut, NoCut};

/// What stands before and after the first such character, if there is one.
pub(crate) fn parts(text: &str, at: char) -> Option<(&str, &str)>
    requires { at < 128 }
    ensures { MatchOption result (NoCut at text.now) (λ x. IsCut at text.now x.0.now x.1.now) }
{
    text.split_once(at)
}

/// The first word of a line, and what stands after its blank.
#[tactic(auto, using(crate::proofs::WordsRead::word_cut, crate::proofs::WordsRead::word_last))]
pub(crate) fn next_word(line: &str) -> (&str, &str)
    ensures { ReadsWord line.now result.0.now result.1.now }
{
    match parts(line, ' ') {
        Some(found) => found,
        None => (line, ""),
    }
}

/// What stands after these words, if a text begins with them.
pub(crate) fn beyond<'t>(front: &str, text: &'t str) -> Option<&'t str>
    ensures { MatchOption result ((rest : List ℕ) → text.now ≢ front.now ++ rest) (λ rest. text.now ≡ front.now ++ rest.now) }
{
    text.strip_prefix(front)
}

/// The bytes of a text that stand before some of its last ones.
pub(crate) fn before<'t>(text: &'t str, rest: &str) -> &'t [u8]
    requires { HasFront text.now rest.now }
    ensures { (front : List ℕ) → text.now ≡ front ++ rest.now → result.now ≡ front }
{
    &text.as_bytes()[..text.len() - rest.len()]
}
