//! The law of texts on a page. The function does nothing; its contract is a theorem.

ghost use Rattle.page_parts.specs.Laws.{TextIsNoMarkup};

/// No byte of a text on a page is `<`, `>`, `"` or `'`, whatever the text is.
pub fn text_is_no_markup()
    ensures { TextIsNoMarkup }
{}
