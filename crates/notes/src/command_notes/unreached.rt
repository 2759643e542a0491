//! What no run reaches.

ghost use Rattle.std.specs.Prelude.{◌≡◌, ◌++◌, OnOk, string_bytes};
ghost use Rattle.std.specs.Option.{option_map};
ghost use Rattle.notes.specs.Unreached.{head_text, count_text, first_text, question, found_text, unreached_text};

use std::alloc::AllocError;
use verifier::Unreached;

/// Appends of which program it is said, where that is one of several.
#[tactic(auto, unfolding(crate::specs::Unreached::head_text))]
fn put_head(out: &mut String, whose: Option<u8>) -> Result<(), AllocError>
    ensures { OnOk result (string_bytes out.new ≡ string_bytes out.old ++ head_text whose) }
{
    match whose {
        Some(program) => write!(out, "note: program {program}: "),
        None => out.push_str("note: "),
    }
}

/// Appends how many instructions are meant.
#[tactic(auto, unfolding(crate::specs::Unreached::count_text))]
fn put_count(out: &mut String, count: usize) -> Result<(), AllocError>
    ensures { OnOk result (string_bytes out.new ≡ string_bytes out.old ++ count_text count) }
{
    write!(out, "instructions that no run reaches: {count}")
}

/// Appends the slot of the first one.
#[tactic(auto, unfolding(crate::specs::Unreached::first_text))]
fn put_first(out: &mut String, slot: usize) -> Result<(), AllocError>
    ensures { OnOk result (string_bytes out.new ≡ string_bytes out.old ++ first_text slot) }
{
    write!(out, ", the first at slot {slot}")
}

/// Appends what that mostly means.
#[tactic(auto, unfolding(crate::specs::Unreached::question))]
fn put_question(out: &mut String) -> Result<(), AllocError>
    ensures { OnOk result (string_bytes out.new ≡ string_bytes out.old ++ question) }
{
    out.push_str(
        "; a loop that crashbpf-cc bounds may leave some, else is the checker the first function of its file?\n",
    )
}

/// Appends how many there are, the first, and what that mostly means.
fn put_found(out: &mut String, count: usize, first: usize) -> Result<(), AllocError>
    ensures { OnOk result (string_bytes out.new ≡ string_bytes out.old ++ found_text count first) }
{
    put_count(out, count)?;
    put_first(out, first)?;
    put_question(out)
}

/// Appends a note where an accepted program has instructions that no run reaches: how many, and the first. Of a program
/// that is one of several it says which one.
pub(crate) fn put_unreached(
    out: &mut String,
    whose: Option<u8>,
    found: Option<Unreached>,
) -> Result<(), AllocError>
    ensures { OnOk result (string_bytes out.new ≡ string_bytes out.old ++ unreached_text whose (option_map (λ u. (u.count, u.first)) found)) }
{
    match found {
        Some(Unreached { count, first }) => {
            put_head(out, whose)?;
            put_found(out, count, first)
        }
        None => Ok(()),
    }
}
