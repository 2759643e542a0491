//! How much of a cut fails: of its images, or of its cases.

ghost use Rattle.std.specs.Prelude.{◌≡◌, ◌≤◌, ◌++◌, ◌∷◌, [], length, filter, OnOk, string_bytes};
ghost use Rattle.page_parts.specs.Counts.{kind_word, single_word, fails, count_fails};

use std::alloc::AllocError;

/// What is judged at a cut.
#[derive(Clone, Copy)]
pub enum JudgedKind {
    /// The images of a cut.
    Images,
    /// Its cases.
    Cases,
}

/// How much there is at a cut, and how much of it fails.
#[derive(Clone, Copy, Drop)]
pub struct CutCount {
    /// The number of the cut.
    pub cut: u32,
    /// What is judged.
    pub of: JudgedKind,
    /// How much there is.
    pub all: u64,
    /// How much of it fails.
    pub failing: u64,
}

/// Appends what is judged, by its name.
#[tactic(auto, unfolding(crate::specs::Counts::kind_word))]
pub(crate) fn put_kind(out: &mut String, of: JudgedKind) -> Result<(), AllocError>
    ensures { OnOk result (string_bytes out.new ≡ string_bytes out.old ++ kind_word of) }
{
    match of {
        JudgedKind::Images => out.push_str("images"),
        JudgedKind::Cases => out.push_str("cases"),
    }
}

/// Appends one of what is judged, by its name.
#[tactic(auto, unfolding(crate::specs::Counts::single_word))]
pub(crate) fn put_single(out: &mut String, of: JudgedKind) -> Result<(), AllocError>
    ensures { OnOk result (string_bytes out.new ≡ string_bytes out.old ++ single_word of) }
{
    match of {
        JudgedKind::Images => out.push_str("image"),
        JudgedKind::Cases => out.push_str("case"),
    }
}

/// One where something fails at a cut, else none.
fn count_one(cut: &CutCount) -> usize
    ensures value { result ≡ length (filter fails (cut.now ∷ [])) }
    ensures bound { result ≤ 1 }
{
    if cut.failing == 0 { 0 } else { 1 }
}

/// Returns at how many cuts something fails.
pub fn count_failing(cuts: &[CutCount]) -> usize
    ensures value { result ≡ count_fails cuts.now }
    ensures bound { result ≤ length cuts.now }
{
    let mut count = 0;
    for cut in cuts {
        count += count_one(cut);
    }
    count
}
