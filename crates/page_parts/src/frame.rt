//! What stands on a page around its programs: its head, a text about the run, and the list of entries.

ghost use Rattle.std.specs.Prelude.{◌≡◌, ◌++◌, OnOk, string_bytes};
ghost use Rattle.page_parts.specs.Frame.{log_name, own_style, style_text, head_text, about_text, small_list, list_text};

use crate::block::{is_large, put_large_list};
use crate::counts::JudgedKind;
use crate::entry::put_rows;
use crate::html::put_html;
use crate::logged::Logged;
use crate::pieces::{PagePart, put};
use logfmt::Log;
use std::alloc::{AllocError, Global};

/// Appends what names the log: how many entries it has, and of how many sectors its device is.
#[tactic(auto, unfolding(crate::specs::Frame::log_name))]
fn put_log_name(out: &mut String, log: &Log) -> Result<(), AllocError>
    ensures { OnOk result (string_bytes out.new ≡ string_bytes out.old ++ log_name log.now) }
{
    let (entries, sectors) = (log.entries().len(), log.sectors());
    write!(out, "entries {entries}, sectors {sectors}")
}

/// Appends the style of cases, where these stand on the page.
fn put_own_style(out: &mut String, of: JudgedKind) -> Result<(), AllocError>
    ensures { OnOk result (string_bytes out.new ≡ string_bytes out.old ++ own_style of) }
{
    match of {
        JudgedKind::Images => Ok(()),
        JudgedKind::Cases => put(out, PagePart::CaseStyle),
    }
}

/// Appends the style.
#[tactic(auto, unfolding(crate::specs::Frame::style_text))]
fn put_style(out: &mut String, of: JudgedKind) -> Result<(), AllocError>
    ensures { OnOk result (string_bytes out.new ≡ string_bytes out.old ++ style_text of) }
{
    put(out, PagePart::Style)?;
    put_own_style(out, of)?;
    put(out, PagePart::StyleEnd)
}

/// Appends the head of the page.
///
/// # Errors
///
/// Memory was refused.
#[tactic(auto, unfolding(crate::specs::Frame::head_text))]
pub fn put_head(out: &mut String, of: JudgedKind, log: &Log) -> Result<(), AllocError>
    ensures { OnOk result (string_bytes out.new ≡ string_bytes out.old ++ head_text of log.now) }
{
    put(out, PagePart::Opening)?;
    put_log_name(out, log)?;
    put_style(out, of)?;
    put_log_name(out, log)?;
    put(out, PagePart::HeadClose)
}

/// Appends the text about the run.
///
/// # Errors
///
/// Memory was refused.
#[tactic(auto, unfolding(crate::specs::Frame::about_text))]
pub fn put_about(out: &mut String, about: &str) -> Result<(), AllocError>
    ensures { OnOk result (string_bytes out.new ≡ string_bytes out.old ++ about_text about.now) }
{
    put(out, PagePart::AboutOpen)?;
    put_html(out, about.as_bytes())?;
    put(out, PagePart::AboutClose)
}

/// Appends the list of the entries of a log that isn't large.
#[tactic(auto, unfolding(crate::specs::Frame::small_list))]
fn put_small_list(alloc: Global, out: &mut String, logged: &Logged<'_>) -> Result<(), AllocError>
    ensures { OnOk result (string_bytes out.new ≡ string_bytes out.old ++ small_list logged.now.log.now.entries) }
{
    put(out, PagePart::ListOpen)?;
    put_rows(alloc, out, logged.plan, logged.log)?;
    put(out, PagePart::ListClose)
}

/// Appends the list of entries.
///
/// # Errors
///
/// Memory was refused.
pub fn put_list(alloc: Global, out: &mut String, logged: &Logged<'_>) -> Result<(), AllocError>
    ensures { OnOk result (string_bytes out.new ≡ string_bytes out.old ++ list_text logged.now.log.now.entries) }
{
    if is_large(logged.log) {
        put_large_list(alloc, out, logged.plan, logged.log)
    } else {
        put_small_list(alloc, out, logged)
    }
}
