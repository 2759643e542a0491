//! Parts in the order of their images.

ghost use Rattle.std.specs.Prelude.{◌≡◌, ◌≢◌, ◌<◌, ◌≤◌, ◌↔◌, ◌++◌, ◌∷◌, [], ℕ, IfOk, IsTrue, MatchOption, OnOk, OnErr, length, map};
ghost use Rattle.std.specs.List.Sorted.{IsPermutation, IsNonDecreasingBy, IsStableByKey};
ghost use Rattle.std.specs.Ordering.{nat_cmp};
ghost use Rattle.base.specs.declared.causes.JoinCause.TheVariants as cause;
ghost use Rattle.join.specs.Joining.{IsOfRun};
ghost use Rattle.join.specs.Rows.{IsStrangeAt, NoneIsStrange, IsApart, IsApartAt, NoneIsApart, IsRow, IsRowShort, IsRowWhole, WhyNoRow};

use crate::fault::JoinFault;
use crate::part::RunPart;
use base::causes::JoinCause;
use std::alloc::AllocError;

/// Whether two parts are of one run.
fn is_of_run(run: &RunPart<'_>, part: &RunPart<'_>) -> bool
    ensures { IsTrue result ↔ IsOfRun run.now part.now }
{
    part.head == run.head
        && part.first == run.first
        && part.span.images == run.span.images
        && part.span.inputs == run.span.inputs
}

/// The place of the first part that is of another run than the first.
#[tactic(auto, using(crate::proofs::Joins::none_alike, crate::proofs::Joins::alike_more, crate::proofs::Joins::all_alike, crate::proofs::Joins::there))]
pub(crate) fn first_strange(parts: &[RunPart<'_>]) -> Option<usize>
    requires { 0 < length parts.now }
    ensures { MatchOption result (NoneIsStrange parts.now) (λ place. IsStrangeAt parts.now place) }
{
    for place in 0..parts.len() {
        if !is_of_run(&parts[0], &parts[place]) {
            return Some(place);
        }
    }
    None
}

/// Puts parts into the order of their first images. Those that begin alike keep their order.
pub(crate) fn put_in_order(parts: &mut Vec<RunPart<'_>>) -> Result<(), AllocError>
    ensures order { IsPermutation parts.old.items parts.new.items }
    ensures rising { OnOk result (IsNonDecreasingBy (λ r. r.span.from) parts.new.items) }
    ensures stable { OnOk result (IsStableByKey (λ r. r.span.from) nat_cmp parts.old.items parts.new.items) }
{
    parts.sort_by_key(|part| part.span.from)?;
    Ok(())
}

/// The refusal of a text as of a file of this number, that doesn't begin where the one before it ends.
pub(crate) fn apart(end: u64, start: u64, file: u32) -> JoinFault
    requires { end ≢ start }
    ensures file { result.file ≡ file }
    ensures kind { IsApart end start result.cause }
{
    let cause = if end < start {
        JoinCause::Gap
    } else {
        JoinCause::Overlap
    };
    JoinFault { cause, file }
}

/// The first part in a row that doesn't begin where the one before it ends, as its refusal.
#[tactic(auto, using(crate::proofs::Joins::none_joined, crate::proofs::Joins::joined_more, crate::proofs::Joins::all_joined, crate::proofs::Joins::there))]
pub(crate) fn first_apart(parts: &[RunPart<'_>]) -> Option<JoinFault>
    ensures { MatchOption result (NoneIsApart parts.now) (λ fault. IsApartAt parts.now fault) }
{
    for place in 1..parts.len() {
        let left = &parts[place - 1];
        let right = &parts[place];
        if left.span.to != right.span.from {
            return Some(apart(left.span.to, right.span.from, right.file));
        }
    }
    None
}

/// Why parts in a row haven't all images of their run, as a refusal: of the first of them where images are missing before it, and else
/// of a file after all others.
#[tactic(auto, using(crate::proofs::Joins::starts_late, crate::proofs::Joins::ends_early, crate::proofs::Joins::row_whole, crate::proofs::Joins::there))]
fn lacking(parts: &[RunPart<'_>]) -> Option<JoinFault>
    requires some { 0 < length parts.now }
    requires few { length parts.now ≤ 4096 }
    ensures { MatchOption result (IsRowWhole parts.now) (λ fault. IsRowShort parts.now fault) }
{
    let first = &parts[0];
    let last = &parts[parts.len() - 1];
    if first.span.from > 0 {
        return Some(JoinFault {
            cause: JoinCause::Gap,
            file: first.file,
        });
    }
    if last.span.to != first.span.images {
        return Some(JoinFault {
            cause: JoinCause::Gap,
            file: parts.len() as u32,
        });
    }
    None
}

/// Why parts in the order of their images aren't joined, as a refusal: the first that doesn't begin where the one before it ends, or that
/// they haven't all images of their run, unless they may be a part of it.
#[tactic(auto, using(crate::proofs::Joins::row_breaks, crate::proofs::Joins::row_lacks, crate::proofs::Joins::row_joined))]
pub(crate) fn row_fault(part: bool, parts: &[RunPart<'_>]) -> Option<JoinFault>
    requires some { 0 < length parts.now }
    requires few { length parts.now ≤ 4096 }
    ensures { MatchOption result (IsRow part parts.now) (λ fault. WhyNoRow part parts.now fault) }
{
    if let Some(fault) = first_apart(parts) {
        return Some(fault);
    }
    if part {
        return None;
    }
    lacking(parts)
}
