//! What records of a program didn't tell.

ghost use Rattle.std.specs.Prelude.{◌≡◌, ◌++◌, OnOk, string_bytes};
ghost use Rattle.notes.specs.Untold.{open_note, stopped_note, untold_notes};

use request::facts::Untold;
use std::alloc::AllocError;

/// Appends how many cases are open, where some are.
#[tactic(auto, unfolding(crate::specs::Untold::open_text))]
fn put_open(out: &mut String, cases: u64) -> Result<(), AllocError>
    ensures { OnOk result (string_bytes out.new ≡ string_bytes out.old ++ open_note cases) }
{
    if cases == 0 {
        return Ok(());
    }
    write!(
        out,
        "note: open cases, which no record tells: {cases}; 'crashbpf export' with the same options writes their images\n"
    )
}

/// Appends at how many cuts the search was stopped, where it was.
#[tactic(auto, unfolding(crate::specs::Untold::stopped_text))]
fn put_stopped(out: &mut String, stopped: u64) -> Result<(), AllocError>
    ensures { OnOk result (string_bytes out.new ≡ string_bytes out.old ++ stopped_note stopped) }
{
    if stopped == 0 {
        return Ok(());
    }
    write!(
        out,
        "note: cuts at which the search was stopped before all cases: {stopped}\n"
    )
}

/// Appends how much records of a program didn't tell.
pub(crate) fn put_untold(out: &mut String, untold: &Untold) -> Result<(), AllocError>
    ensures { OnOk result (string_bytes out.new ≡ string_bytes out.old ++ untold_notes untold.now) }
{
    put_open(out, untold.cases)?;
    put_stopped(out, untold.stopped)
}
