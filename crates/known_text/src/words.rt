//! Words of a text, and lines of bytes.

ghost use Rattle.std.specs.Prelude.{ℕ, ◌≡◌, ◌≢◌, ◌<◌, ◌==◌, ◌++◌, List, IfSome, MatchOption, length, position};
ghost use Rattle.known_text.specs.Reading.{IsCut, NoCut};

/// What stands before and after the first such character, if there is one.
pub(crate) fn parts(text: &str, at: char) -> Option<(&str, &str)>
    requires { at < 128 }
    ensures { MatchOption result (NoCut at text.now) (λ x. IsCut at text.now x.0.now x.1.now) }
{
    text.split_once(at)
}

/// The place of the first newline of some bytes.
fn newline_in(bytes: &[u8]) -> Option<usize>
    ensures place { result ≡ position (λ (byte : ℕ). byte == 10) bytes.now }
    ensures within { IfSome result (λ place. place < length bytes.now) }
{
    bytes.iter().position(|byte| *byte == b'\n')
}

/// The first line of some bytes, without its newline, and what stands after it, if there is one.
#[tactic(auto, using(crate::proofs::Texts::line_found, crate::proofs::Texts::no_line))]
pub(crate) fn first_line(bytes: &[u8]) -> Option<(&[u8], &[u8])>
    ensures { MatchOption result (NoCut 10 bytes.now) (λ x. IsCut 10 bytes.now x.0.now x.1.now) }
{
    match newline_in(bytes) {
        Some(place) => Some((&bytes[..place], &bytes[place + 1..])),
        None => None,
    }
}

/// What stands after a text, if bytes begin with it.
pub(crate) fn beyond<'t>(front: &str, bytes: &'t [u8]) -> Option<&'t [u8]>
    ensures { MatchOption result ((rest : List ℕ) → bytes.now ≢ front.now ++ rest) (λ rest. bytes.now ≡ front.now ++ rest.now) }
{
    bytes.strip_prefix(front.as_bytes())
}
