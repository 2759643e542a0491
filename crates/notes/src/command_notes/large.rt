//! Entries of more sectors than may be lost together.

ghost use Rattle.std.specs.Prelude.{◌≡◌, ◌++◌, OnOk, string_bytes};
ghost use Rattle.notes.specs.Large.{bound_text, number_text, count_text};

use std::alloc::AllocError;

/// Appends which entries are meant.
#[tactic(auto, unfolding(crate::specs::Large::bound_text))]
fn put_bound(out: &mut String, bound: u64) -> Result<(), AllocError>
    ensures { OnOk result (string_bytes out.new ≡ string_bytes out.old ++ bound_text bound) }
{
    write!(out, "note: entries with more than {bound}")
}

/// Appends how many there are.
#[tactic(auto, unfolding(crate::specs::Large::number_text))]
fn put_number(out: &mut String, count: usize) -> Result<(), AllocError>
    ensures { OnOk result (string_bytes out.new ≡ string_bytes out.old ++ number_text count) }
{
    write!(out, " sectors: {count}; none is ever dropped as a whole\n")
}

/// Appends a note with the number of entries that no image loses as a whole: with more sectors than the bound.
pub(crate) fn put_large(out: &mut String, bound: u64, count: usize) -> Result<(), AllocError>
    ensures { OnOk result (string_bytes out.new ≡ string_bytes out.old ++ count_text bound count) }
{
    put_bound(out, bound)?;
    put_number(out, count)
}
