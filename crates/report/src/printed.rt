//! Words of a text that was printed, taken apart again. Of a text that wasn't printed so nothing is said but that it is taken apart.

ghost use Rattle.std.specs.Prelude.{ℕ, ◌≡◌, ◌-◌, ◌<◌, ◌≤◌, ◌^◌, length};
ghost use Rattle.std.specs.Fmt.{decimal};
ghost use Rattle.report.specs.MarkReading.{IsCutAt, ReadsField};

/// What stands before and after the first such character.
pub fn cut(text: &str, at: char) -> (&str, &str)
    requires { at < 128 }
    ensures parts { IsCutAt at text.now result.0.now result.1.now }
    ensures shorter { length result.1.now ≤ length text.now - 1 }
{
    match text.split_once(at) {
        Some(parts) => parts,
        None => ("", ""),
    }
}

/// The word after the first one, and what stands after it.
pub fn field(text: &str) -> (&str, &str)
    ensures field { ReadsField text.now result.0.now result.1.now }
    ensures shorter { length result.1.now ≤ length text.now - 1 }
{
    let (_name, named) = cut(text, ' ');
    cut(named, ' ')
}

/// The number that a word says, and some number where it says none.
pub fn number(word: &str) -> u64
    ensures { (n : ℕ) → n < 2 ^ 64 → word.now ≡ decimal n → result ≡ n }
{
    match word.parse() {
        Ok(number) => number,
        Err(_) => 0,
    }
}

/// The number of 32 bits that a word says, and some number where it says none.
pub fn small_number(word: &str) -> u32
    ensures { (n : ℕ) → n < 2 ^ 32 → word.now ≡ decimal n → result ≡ n }
{
    match word.parse() {
        Ok(number) => number,
        Err(_) => 0,
    }
}

/// The number of a byte that a word says, and some number where it says none.
pub fn byte_number(word: &str) -> u8
    ensures { (n : ℕ) → n < 2 ^ 8 → word.now ≡ decimal n → result ≡ n }
{
    match word.parse() {
        Ok(number) => number,
        Err(_) => 0,
    }
}
