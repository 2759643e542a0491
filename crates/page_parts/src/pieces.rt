//! The parts of a page that are the same wherever they stand.

ghost use Rattle.std.specs.Prelude.{ℕ, ◌≡◌, ◌++◌, OnOk, string_bytes};
ghost use Rattle.std.specs.Fmt.{decimal};
ghost use Rattle.page_parts.specs.Pieces.{piece_text};

use crate::dress::{CASE_KEYS, CASE_STYLE, CLOSING, LEGEND, OPENING, STYLE, STYLE_END};
use std::alloc::AllocError;

/// A part of a page.
#[derive(Clone, Copy)]
pub enum PagePart {
    Opening,
    Style,
    CaseStyle,
    StyleEnd,
    Legend,
    LegendRest,
    CaseKeys,
    Closing,
    AboutOpen,
    AboutClose,
    HeadClose,
    TextOpen,
    TextClose,
    ProgramOpen,
    ProgramId,
    ProgramName,
    ProgramClose,
    NoCuts,
    NoCaseCuts,
    GoodOpen,
    GoodCases,
    OpenCases,
    TornBeyond,
    LostBeyond,
    AtCuts,
    GoodClose,
    BadOpen,
    BadCuts,
    BadCases,
    Of,
    CureEntry,
    CureEntries,
    CureEvery,
    CureClose,
    NamedOpen,
    NamedClose,
    UncuredOpen,
    UncuredOf,
    UncuredClose,
    StripOpen,
    OpenEnd,
    StripClose,
    CellOpen,
    CellLink,
    LinkEnd,
    CellClose,
    LackOpen,
    LackTitle,
    LackFrom,
    LackOn,
    LackFailing,
    LackClose,
    PassingOpen,
    PassingClose,
    FailingOpen,
    FailingLink,
    FailingTitle,
    FailingClose,
    KeysOpen,
    KeysClose,
    KeyOpen,
    KeyColour,
    KeyClose,
    LegendClose,
    CutOpen,
    CutLine,
    CutOpened,
    CutNumber,
    CutEpoch,
    CutMarks,
    CutMarksEnd,
    BarOpen,
    BarMost,
    BarValue,
    BarClose,
    FirstOpen,
    FirstOf,
    FirstClose,
    CutBody,
    CutClose,
    GroupOpen,
    GroupOpened,
    GroupImage,
    GroupSize,
    GroupAll,
    GroupSome,
    GroupLineEnd,
    Sides,
    WholeSide,
    WrongSide,
    NoSide,
    SideClose,
    GroupClose,
    LongOpen,
    LongClose,
    RestOpen,
    RestClose,
    RestCases,
    CaseOpen,
    NoFlushHelps,
    FlushHelps,
    OneFlushHelps,
    HelpsClose,
    CaseParts,
    PartOpen,
    PartTitle,
    PartClose,
    PartsOpen,
    PartsClose,
    CaseClose,
    SectionClose,
    ListOpen,
    RowOpen,
    RowClose,
    ListClose,
    BlocksOpen,
    BlockOpen,
    BlockName,
    BlockLines,
    BlockClose,
    BlockCuts,
    BlockFailing,
    WidthOpen,
    WidthClose,
    WidthEnd,
    MoreOpen,
    MoreCuts,
    MoreClose,
}

/// The text of a part.
#[tactic(auto, unfolding(crate::specs::Pieces::piece_text))]
fn text_of(piece: PagePart) -> &'static str
    ensures { result.now ≡ piece_text piece }
{
    match piece {
        PagePart::Opening => OPENING,
        PagePart::Style => STYLE,
        PagePart::CaseStyle => CASE_STYLE,
        PagePart::StyleEnd => STYLE_END,
        PagePart::Legend => LEGEND,
        PagePart::LegendRest => {
            "<span><b class='lack'></b>flush missing</span><span><b class='mark'></b>mark</span><span><b class='even'></b><b class='odd'></b>epochs in turn</span>"
        }
        PagePart::CaseKeys => CASE_KEYS,
        PagePart::Closing => CLOSING,
        PagePart::AboutOpen => "<pre class='about'>",
        PagePart::AboutClose => "</pre>\n</header>\n<main>\n",
        PagePart::HeadClose => "</h1>\n",
        PagePart::TextOpen => "<pre>",
        PagePart::TextClose => "</pre>\n",
        PagePart::ProgramOpen => "<section aria-labelledby='p",
        PagePart::ProgramId => "'>\n<h2 id='p",
        PagePart::ProgramName => "'>Program ",
        PagePart::ProgramClose => "</h2>\n",
        PagePart::NoCuts => "<p class='none'>The log has no wanted cut: no image was judged.</p>\n",
        PagePart::NoCaseCuts =>
            "<p class='none'>The log has no wanted cut: no case was judged.</p>\n",
        PagePart::GoodOpen => "<p class='good'>No image fails, at ",
        PagePart::GoodCases => "<p class='good'>No case fails, of ",
        PagePart::OpenCases =>
            "<p class='none'>Cases were left out, and nothing is said of them. No other fails, of ",
        PagePart::TornBeyond => "torn beyond ",
        PagePart::LostBeyond => " lost beyond ",
        PagePart::AtCuts => " at ",
        PagePart::GoodClose => " cuts.</p>\n",
        PagePart::BadOpen => "<p class='bad'>",
        PagePart::BadCuts => " images fail, at ",
        PagePart::BadCases => " cases fail, at ",
        PagePart::Of => " of ",
        PagePart::CureEntry => "<p class='cure'>A flush right before entry ",
        PagePart::CureEntries => "<p class='cure'>A flush right before each of the entries ",
        PagePart::CureEvery => " takes every failing ",
        PagePart::CureClose => {
            " away against which a flush helps. This isn't tried here: crashbpf cure tries flushes where it runs programs; with --report it only names them.</p>\n"
        }
        PagePart::NamedOpen => "<a href='#",
        PagePart::NamedClose => "</a>",
        PagePart::UncuredOpen => "<p class='order'>Against ",
        PagePart::UncuredOf => " of the failing ",
        PagePart::UncuredClose => {
            " no flush helps: the order of the writes is wrong there, or a write that may arrive in part is taken for whole.</p>\n"
        }
        PagePart::StripOpen => {
            "<div tabindex='0' role='group' aria-label='The log: arrow keys move' class='log"
        }
        PagePart::OpenEnd => "'>\n",
        PagePart::StripClose => "</div>\n",
        PagePart::CellOpen => "<a tabindex='-1' class='e",
        PagePart::CellLink => "' href='#e",
        PagePart::LinkEnd => "'>",
        PagePart::CellClose => "</a>\n",
        PagePart::LackOpen => "<a tabindex='-1' class='lack' id='",
        PagePart::LackTitle => "' title='a flush is missing before entry ",
        PagePart::LackFrom => ", or any from ",
        PagePart::LackOn => " on",
        PagePart::LackFailing => "; failing ",
        PagePart::LackClose => "'>flush missing</a>\n",
        PagePart::PassingOpen => "<i class='c ",
        PagePart::PassingClose => "'></i>\n",
        PagePart::FailingOpen => "<a tabindex='-1' class='c ",
        PagePart::FailingLink => "' href='#",
        PagePart::FailingTitle => "' title='cut ",
        PagePart::FailingClose => "'></a>\n",
        PagePart::KeysOpen => "<span>",
        PagePart::KeysClose => " of a cut that fail:</span>",
        PagePart::KeyOpen => "<span><b class='",
        PagePart::KeyColour => "'></b>",
        PagePart::KeyClose => "</span>",
        PagePart::LegendClose => "</p>\n",
        PagePart::CutOpen => "<details class='cut ",
        PagePart::CutLine => "'><summary>",
        PagePart::CutOpened => "' open><summary>",
        PagePart::CutNumber => "<b>cut ",
        PagePart::CutEpoch => "</b> <span>epoch ",
        PagePart::CutMarks => ", marks ",
        PagePart::CutMarksEnd => "</span> ",
        PagePart::BarOpen => "<span>",
        PagePart::BarMost => "</span> <progress max='",
        PagePart::BarValue => "' value='",
        PagePart::BarClose => "'></progress> ",
        PagePart::FirstOpen => "<code>",
        PagePart::FirstOf => "</code> <small>first of ",
        PagePart::FirstClose => "</small>",
        PagePart::CutBody => "</summary>\n<div id='",
        PagePart::CutClose => "</div></details>\n",
        PagePart::GroupOpen => "<details><summary><code>",
        PagePart::GroupOpened => "<details open><summary><code>",
        PagePart::GroupImage => "</code> <small>image ",
        PagePart::GroupSize => ", group of ",
        PagePart::GroupAll => ", all: ",
        PagePart::GroupSome => ", some: ",
        PagePart::GroupLineEnd => "</small></summary>\n",
        PagePart::Sides => {
            "<p class='sides'><span class='whole'>&lt; where nothing is lost</span> <span class='wrong'>&gt; this image, which fails</span></p>\n"
        }
        PagePart::WholeSide => "<span class='whole'>",
        PagePart::WrongSide => "<span class='wrong'>",
        PagePart::NoSide => "<span>",
        PagePart::SideClose => "</span>",
        PagePart::GroupClose => "</details>\n",
        PagePart::LongOpen => "<p class='about'>Its text has ",
        PagePart::LongClose => " bytes: crashbpf show prints it.</p>\n",
        PagePart::RestOpen => "<p class='about'>",
        PagePart::RestClose => " more groups of this cut: crashbpf why lists them.</p>\n",
        PagePart::RestCases => " more cases of this cut: crashbpf why lists them.</p>\n",
        PagePart::CaseOpen => "<div class='case'>case ",
        PagePart::NoFlushHelps => "no flush takes it away",
        PagePart::FlushHelps => "a flush before any of the entries ",
        PagePart::OneFlushHelps => "a flush before entry ",
        PagePart::HelpsClose => " takes it away",
        PagePart::CaseParts => "\n<div class='log'>\n",
        PagePart::PartOpen => "<b class='p ",
        PagePart::PartTitle => "' title='",
        PagePart::PartClose => "</b>\n",
        PagePart::PartsOpen => "<small>",
        PagePart::PartsClose => " more parts</small>\n",
        PagePart::CaseClose => "</div></div>\n",
        PagePart::SectionClose => "</section>\n",
        PagePart::ListOpen => {
            "<section aria-labelledby='entries'>\n<h2 id='entries'>Entries</h2>\n<ol>\n"
        }
        PagePart::RowOpen => "<li id='e",
        PagePart::RowClose => "</li>\n",
        PagePart::ListClose => "</ol>\n</section>\n",
        PagePart::BlocksOpen => {
            "<section aria-labelledby='entries'>\n<h2 id='entries'>Entries</h2>\n<p class='about'>Each by its number, its epoch and what it asks of the device.</p>\n"
        }
        PagePart::BlockOpen => "<details id='e",
        PagePart::BlockName => "'><summary>entries ",
        PagePart::BlockLines => "</summary>\n<pre>",
        PagePart::BlockClose => "</pre></details>\n",
        PagePart::BlockCuts => "; of cuts ",
        PagePart::BlockFailing => " fail: ",
        PagePart::WidthOpen => "<p class='about'>A cell stands for up to ",
        PagePart::WidthClose => {
            " entries, and the one before it for as many cuts, in the colour of the first at which "
        }
        PagePart::WidthEnd => " fail.</p>\n",
        PagePart::MoreOpen => "<p class='about' id='",
        PagePart::MoreCuts => " more cuts at which ",
        PagePart::MoreClose => " fail: crashbpf why lists them.</p>\n",
    }
}

/// Appends a part.
///
/// # Errors
///
/// Memory was refused.
pub fn put(out: &mut String, piece: PagePart) -> Result<(), AllocError>
    ensures { OnOk result (string_bytes out.new ≡ string_bytes out.old ++ piece_text piece) }
{
    out.push_str(text_of(piece))
}

/// Appends a number.
///
/// # Errors
///
/// Memory was refused.
pub fn put_number(out: &mut String, number: u64) -> Result<(), AllocError>
    ensures { OnOk result (string_bytes out.new ≡ string_bytes out.old ++ decimal number) }
{
    write!(out, "{number}")
}
