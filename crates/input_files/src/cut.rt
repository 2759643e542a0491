//! A long program, and the shorter text that stands for it.

ghost use Rattle.std.specs.Prelude.{◌≡◌, ◌≤◌};
ghost use Rattle.input_files.specs.Standing.{standing, place_in_whole};

use base::causes::CodeCause;
use base::refusal::{Cause, Refusal};

/// How many bytes stand for a program of that many: all of one that isn't too long; of a longer one the first that are
/// more than 4,096 slots and cut a slot as it does.
pub fn standing_length(length: u64) -> usize
    ensures { result ≡ standing length }
{
    if length <= 32_768 {
        return length as usize;
    }
    match length % 8 {
        0 => 32_776,
        rest => 32_768 + rest as usize,
    }
}

/// The refusal of a file of that many bytes, made of that of the text that stands for it: only the slot that is cut is
/// another one.
pub fn refusal_of_whole(refusal: Refusal, length: u64) -> Refusal
    ensures code { result.code ≡ refusal.code }
    ensures program { result.program ≡ refusal.program }
    ensures place { result.at ≡ place_in_whole refusal.code refusal.at length }
{
    match refusal.code {
        Cause::Code(CodeCause::Length) => Refusal {
            at: length / 8,
            ..refusal
        },
        _ => refusal,
    }
}
