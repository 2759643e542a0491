//! How a run of any number of losses is laid out in parts: each has some of the cuts.

ghost use Rattle.std.specs.Prelude.{◌≡◌, ◌≤◌, ◌<◌, ◌+◌, ◌-◌, ◌++◌, length, drop, sum_by, OnOk, string_bytes};
ghost use Rattle.inspect.specs.CutLayout.{is_cut_layout, weight, weight_of, share_of, needed, part_cuts, cut_at, cut_ranges, cut_part_count, range_text, cut_layout_text};

use crate::looks::layout::MOST_PARTS;
use crate::looks::risks::CutRisk;
use std::alloc::AllocError;

/// The cuts of a part.
#[derive(Clone, Copy)]
pub struct CutRange {
    /// The first of them.
    pub from: u64,
    /// The last.
    pub to: u64,
}

/// Whether a run can be laid out in that many parts.
pub(crate) fn is_cut_layout(parts: u64) -> bool
    ensures { result ≡ is_cut_layout parts }
{
    parts >= 1 && parts <= MOST_PARTS
}

/// How much work a cut is taken for.
fn weight(risk: &CutRisk) -> u64
    ensures value { result ≡ weight risk.now }
    ensures small { result ≤ 4294967296 }
{
    u64::from(risk.at_risk) + 1
}

/// How much some cuts are taken for.
fn weight_of(risks: &[CutRisk]) -> u64
    requires { length risks.now ≤ 65537 }
    ensures value { result ≡ weight_of risks.now }
    ensures small { result ≤ 281479271743488 }
{
    let mut sum = 0;
    for risk in risks {
        sum += weight(risk);
    }
    sum
}

/// The share of one of some parts.
fn share_of(parts: usize, risks: &[CutRisk]) -> u64
    requires few { length risks.now ≤ 65537 }
    requires parts { 1 ≤ parts }
    ensures { result ≡ share_of parts risks.now }
{
    weight_of(risks).div_ceil(parts as u64)
}

/// How many of some cuts, from the first on, weigh so much together.
fn needed(goal: u64, risks: &[CutRisk]) -> usize
    ensures { result ≡ needed goal risks.now }
{
    let mut left = goal;
    for (count, risk) in risks.iter().enumerate() {
        if left == 0 {
            return count;
        }
        left = left.saturating_sub(weight(risk));
    }
    risks.len()
}

/// How many of the cuts that are left the first of the parts that are left has.
fn part_cuts(parts: usize, risks: &[CutRisk]) -> usize
    requires few { length risks.now ≤ 65537 }
    requires parts { 1 < parts }
    requires enough { parts ≤ length risks.now }
    ensures value { result ≡ part_cuts parts risks.now }
    ensures some { 1 ≤ result }
    ensures rest { result + parts ≤ length risks.now + 1 }
{
    let share = share_of(parts, risks);
    needed(share, risks).min(risks.len() + 1 - parts).max(1)
}

/// Appends a part.
#[tactic(auto, unfolding(crate::specs::CutLayout::range_text))]
fn put_range(out: &mut String, from: u64, to: u64) -> Result<(), AllocError>
    ensures { OnOk result (string_bytes out.new ≡ string_bytes out.old ++ range_text (record { from = from; to = to })) }
{
    write!(out, "part --from {from} --to {to}\n")
}

/// The last of the first cuts.
fn last_of(risks: &[CutRisk], count: usize) -> u64
    requires some { 1 ≤ count }
    requires within { count ≤ length risks.now }
    ensures value { result ≡ cut_at risks.now (count - 1) }
    ensures small { result ≤ 4294967295 }
{
    u64::from(risks[count - 1].cut)
}

/// The cuts that are left after the first ones.
fn after(risks: &[CutRisk], count: usize) -> &[CutRisk]
    requires { count ≤ length risks.now }
    ensures { result.now ≡ drop count risks.now }
{
    &risks[count..]
}

/// How many parts there are where that many are wanted: no more than cuts, and at least one.
fn part_count(risks: &[CutRisk], parts: u64) -> usize
    ensures value { result ≡ cut_part_count risks.now parts }
    ensures enough { 1 < result → result ≤ length risks.now }
    ensures some { 1 ≤ result }
{
    parts.min(risks.len() as u64).max(1) as usize
}

/// Appends each part of a run of cuts from the first to the last.
#[tactic(auto, unfolding(crate::specs::CutLayout::cut_layout_text))]
pub(crate) fn put_cut_layout(
    out: &mut String,
    first: u64,
    last: u64,
    risks: &[CutRisk],
    parts: u64,
) -> Result<(), AllocError>
    requires { length risks.now ≤ 65537 }
    ensures { OnOk result (string_bytes out.new ≡ string_bytes out.old ++ cut_layout_text first last risks.now parts) }
{
    let mut from = first;
    let mut rest = risks;
    let mut left = part_count(risks, parts);
    while left > 1 {
        let count = part_cuts(left, rest);
        let to = last_of(rest, count);
        put_range(out, from, to)?;
        from = to + 1;
        rest = after(rest, count);
        left -= 1;
    }
    put_range(out, from, last)
}
