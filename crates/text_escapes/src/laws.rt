//! The laws of texts in messages: each is a theorem, and does nothing.
ghost use Rattle.text_escapes.specs.Laws.{EscapedTextsAreOneLine, PlainTextsAreOneLine, PlainTextsStay, TextsStayApart, WorkedTexts};

/// No line feed, no carriage return and no other control character stands in a text that is written out.
pub fn escaped_texts_are_one_line()
    ensures { EscapedTextsAreOneLine }
{}

/// A text in which no control character stands is one line.
pub fn plain_texts_are_one_line()
    ensures { PlainTextsAreOneLine }
{}

/// A text in which no control character stands is written as it is.
pub fn plain_texts_stay()
    ensures { PlainTextsStay }
{}

/// Two texts are written in the same way only if they are the same, or if a backslash stands in one of them, as in a text that has `\u000a` where
/// the other has a line feed.
pub fn texts_stay_apart()
    ensures { TextsStayApart }
{}

/// Texts, and how they are written.
pub fn worked_texts()
    ensures { WorkedTexts }
{}
