//! The share of a cut's images that fails, with its colour, and the legend.

ghost use Rattle.std.specs.Prelude.{◌≡◌, ◌≤◌, ◌++◌, OnOk, string_bytes};
ghost use Rattle.page_parts.specs.Shares.{one_in, is_within, share_of, share_class, none_words, share_words, key_text, keys_open, legend_text};

use crate::counts::{JudgedKind, put_kind};
use crate::pieces::{PagePart, put};
use std::alloc::AllocError;

/// The share of a cut's images that fails: none, at most a hundredth, a tenth or half of them, more, or all.
#[derive(Clone, Copy)]
pub(crate) enum Share {
    No,
    Hundredth,
    Tenth,
    Half,
    More,
    All,
}

/// Returns the number of images of which at most one fails, in a share with a bound.
fn one_in(share: Share) -> u64
    ensures value { result ≡ one_in share }
    ensures some { 1 ≤ result }
{
    match share {
        Share::Hundredth => 100,
        Share::Tenth => 10,
        Share::Half => 2,
        _ => 1,
    }
}

/// Whether `failing` of a cut's `images` images are within the bound of a share.
fn is_within(images: u64, failing: u64, share: Share) -> bool
    ensures { result ≡ is_within images failing share }
{
    failing <= images / one_in(share)
}

/// Returns the share that `failing` of a cut's `images` images are.
pub(crate) fn share_of(images: u64, failing: u64) -> Share
    ensures { result ≡ share_of images failing }
{
    if failing == 0 {
        Share::No
    } else if images <= failing {
        Share::All
    } else if is_within(images, failing, Share::Hundredth) {
        Share::Hundredth
    } else if is_within(images, failing, Share::Tenth) {
        Share::Tenth
    } else if is_within(images, failing, Share::Half) {
        Share::Half
    } else {
        Share::More
    }
}

/// The class of a share.
#[tactic(auto, unfolding(crate::specs::Shares::share_class))]
fn class_of(share: Share) -> &'static str
    ensures { result.now ≡ share_class share }
{
    match share {
        Share::No => "s0",
        Share::Hundredth => "s1",
        Share::Tenth => "s2",
        Share::Half => "s3",
        Share::More => "s4",
        Share::All => "s5",
    }
}

/// Appends the class of a share.
pub(crate) fn put_class(out: &mut String, share: Share) -> Result<(), AllocError>
    ensures { OnOk result (string_bytes out.new ≡ string_bytes out.old ++ share_class share) }
{
    out.push_str(class_of(share))
}

/// Appends that nothing fails.
fn put_none(out: &mut String, of: JudgedKind) -> Result<(), AllocError>
    ensures { OnOk result (string_bytes out.new ≡ string_bytes out.old ++ none_words of) }
{
    match of {
        JudgedKind::Images => out.push_str("no image fails"),
        JudgedKind::Cases => out.push_str("no case fails"),
    }
}

/// Appends the words of a share.
#[tactic(auto, unfolding(crate::specs::Shares::share_words))]
fn put_words(out: &mut String, of: JudgedKind, share: Share) -> Result<(), AllocError>
    ensures { OnOk result (string_bytes out.new ≡ string_bytes out.old ++ share_words of share) }
{
    match share {
        Share::No => put_none(out, of),
        Share::More => out.push_str("more"),
        Share::All => out.push_str("all of them"),
        _ => write!(out, "up to 1 in {}", one_in(share)),
    }
}

/// Appends a share to the legend.
#[tactic(auto, unfolding(crate::specs::Shares::key_text))]
fn put_key(out: &mut String, of: JudgedKind, share: Share) -> Result<(), AllocError>
    ensures { OnOk result (string_bytes out.new ≡ string_bytes out.old ++ key_text of share) }
{
    put(out, PagePart::KeyOpen)?;
    put_class(out, share)?;
    put(out, PagePart::KeyColour)?;
    put_words(out, of, share)?;
    put(out, PagePart::KeyClose)
}

/// Appends what the colours and lines of entries mean, and of what those of cuts tell.
#[tactic(auto, unfolding(crate::specs::Shares::keys_open))]
fn put_keys_open(out: &mut String, of: JudgedKind) -> Result<(), AllocError>
    ensures { OnOk result (string_bytes out.new ≡ string_bytes out.old ++ keys_open of) }
{
    put(out, PagePart::Legend)?;
    put(out, PagePart::LegendRest)?;
    put(out, PagePart::KeysOpen)?;
    put_kind(out, of)?;
    put(out, PagePart::KeysClose)
}

/// Appends what the colours and lines in a row of entries mean.
///
/// # Errors
///
/// Memory was refused.
#[tactic(auto, unfolding(crate::specs::Shares::legend_text))]
pub fn put_legend(out: &mut String, of: JudgedKind) -> Result<(), AllocError>
    ensures { OnOk result (string_bytes out.new ≡ string_bytes out.old ++ legend_text of) }
{
    put_keys_open(out, of)?;
    put_key(out, of, Share::No)?;
    put_key(out, of, Share::Hundredth)?;
    put_key(out, of, Share::Tenth)?;
    put_key(out, of, Share::Half)?;
    put_key(out, of, Share::More)?;
    put_key(out, of, Share::All)?;
    put(out, PagePart::LegendClose)
}
