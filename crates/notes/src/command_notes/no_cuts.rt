//! A log of which no cut is wanted.

ghost use Rattle.std.specs.Prelude.{◌≡◌, ◌++◌, OnOk, string_bytes};
ghost use Rattle.notes.specs.NoCuts.{no_cut_words, ask_words, no_cut_text};

use std::alloc::AllocError;

/// Appends that no cut is wanted.
#[tactic(auto, unfolding(crate::specs::NoCuts::no_cut_words))]
fn put_words(out: &mut String) -> Result<(), AllocError>
    ensures { OnOk result (string_bytes out.new ≡ string_bytes out.old ++ no_cut_words) }
{
    out.push_str("note: no cut is asked for: no image was judged; ")
}

/// Appends which cuts to ask for.
#[tactic(auto, unfolding(crate::specs::NoCuts::ask_words))]
fn put_ask(out: &mut String, ranged: bool) -> Result<(), AllocError>
    ensures { OnOk result (string_bytes out.new ≡ string_bytes out.old ++ ask_words ranged) }
{
    if ranged {
        out.push_str("take a wider --from and --to, or ask without --cuts\n")
    } else {
        out.push_str("the log has no mark, so --cuts mark has no cut; ask without --cuts\n")
    }
}

/// Appends a note that no cut is wanted, and which cuts to ask for: of those of a range, or of a whole log.
pub(crate) fn put_no_cuts(out: &mut String, ranged: bool) -> Result<(), AllocError>
    ensures { OnOk result (string_bytes out.new ≡ string_bytes out.old ++ no_cut_text ranged) }
{
    put_words(out)?;
    put_ask(out, ranged)
}
