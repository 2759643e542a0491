//! The groups of the failing cases of a program at a cut: below the first stand those that are alike.

ghost use Rattle.std.specs.Prelude.{◌≡◌, ◌++◌, ◌+◌, ◌<◌, ◌≤◌, ℕ, length, map, take, drop, OnOk, string_bytes};
ghost use Rattle.std.specs.List.{flat_map, list_any};
ghost use Rattle.case_text.specs.Collected.{told_value, alike_told};
ghost use Rattle.case_text.specs.Why.{own_text, first_line, also_line, also_if, group_at, groups_text};

use crate::told::ToldFailing;
use std::alloc::AllocError;

/// Whether two cases have the same outcome and the same window.
fn is_alike(one: &ToldFailing, other: &ToldFailing) -> bool
    ensures { result ≡ alike_told one.now other.now }
{
    one.tail.as_str() == other.tail.as_str()
}

/// Whether one of some cases is alike. It begins at the last, as those that are alike mostly follow one another.
fn has_alike(told: &[ToldFailing], one: &ToldFailing) -> bool
    ensures { result ≡ list_any (alike_told one.now) told.now }
{
    let mut left = told.len();
    while left > 0 {
        left -= 1;
        if is_alike(one, &told[left]) {
            return true;
        }
    }
    false
}

/// Appends a case, and why it fails.
#[tactic(auto, unfolding(crate::specs::Why::own_text))]
fn put_own(out: &mut String, one: &ToldFailing) -> Result<(), AllocError>
    ensures { OnOk result (string_bytes out.new ≡ string_bytes out.old ++ own_text (told_value one.now)) }
{
    write!(out, "case {} ", one.number)?;
    out.push_str(one.cause.as_str())
}

/// Appends the line of the first case of a group.
#[tactic(auto, unfolding(crate::specs::Why::first_line))]
fn put_first(out: &mut String, one: &ToldFailing) -> Result<(), AllocError>
    ensures { OnOk result (string_bytes out.new ≡ string_bytes out.old ++ first_line (told_value one.now)) }
{
    put_own(out, one)?;
    write!(out, ": ")?;
    out.push_str(one.tail.as_str())?;
    write!(out, "\n")
}

/// Appends the line of another case of a group.
#[tactic(auto, unfolding(crate::specs::Why::also_line))]
fn put_other(out: &mut String, one: &ToldFailing) -> Result<(), AllocError>
    ensures { OnOk result (string_bytes out.new ≡ string_bytes out.old ++ also_line (told_value one.now)) }
{
    write!(out, "also ")?;
    put_own(out, one)?;
    write!(out, "\n")
}

/// Appends the line of another case, if it is alike.
fn put_if_alike(out: &mut String, one: &ToldFailing, other: &ToldFailing) -> Result<(), AllocError>
    ensures { OnOk result (string_bytes out.new ≡ string_bytes out.old ++ also_if (told_value one.now) (told_value other.now)) }
{
    if is_alike(one, other) {
        put_other(out, other)?;
    }
    Ok(())
}

/// Appends those of some cases that are alike.
fn put_alike(out: &mut String, one: &ToldFailing, others: &[ToldFailing]) -> Result<(), AllocError>
    ensures { OnOk result (string_bytes out.new ≡ string_bytes out.old ++ flat_map (also_if (told_value one.now)) (map told_value others.now)) }
{
    for other in others {
        put_if_alike(out, one, other)?;
    }
    Ok(())
}

/// Appends the group of which the case at a place is the first, if it is.
fn put_group(out: &mut String, told: &[ToldFailing], place: usize) -> Result<(), AllocError>
    requires { place < length told.now }
    ensures { OnOk result (string_bytes out.new ≡ string_bytes out.old ++ group_at (map told_value told.now) place) }
{
    let one = &told[place];
    if has_alike(&told[..place], one) {
        return Ok(());
    }
    put_first(out, one)?;
    put_alike(out, one, &told[place + 1..])?;
    Ok(())
}

/// Appends the groups of some cases.
pub(crate) fn put_groups(out: &mut String, told: &[ToldFailing]) -> Result<(), AllocError>
    ensures { OnOk result (string_bytes out.new ≡ string_bytes out.old ++ groups_text (map told_value told.now)) }
{
    for place in 0..told.len() {
        put_group(out, told, place)?;
    }
    Ok(())
}
