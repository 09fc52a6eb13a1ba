//! What holds of every escaped text, and of what an `Html` writes.
ghost use Rattle.html_text.specs.Escaped.{EscapedTextsAreInert, EscapedTextsAreUtf8};
ghost use Rattle.html_text.specs.Nesting.{PagesNest};

/// Whatever a text is, what stands for it holds none of `<`, `>`, `"` and `'`, so it ends no text and no attribute's
/// value, and begins no element. It is UTF-8 where the text is.
///
/// Source: HTML Living Standard 13.1.2.3 (Attributes), 13.1.3 (Text).
pub fn escaped_texts_are_inert()
    ensures inert { EscapedTextsAreInert }
    ensures utf8 { EscapedTextsAreUtf8 }
{}

/// Whatever an `Html` was made to write behind `doctype`, once each element that was begun has ended it is elements that
/// nest, texts that are escaped, numbers and void elements: no text that was written, whoever it comes from, begins or
/// ends an element.
///
/// Source: HTML Living Standard 13.1.2 (Elements).
pub fn pages_nest()
    ensures { PagesNest }
{}
