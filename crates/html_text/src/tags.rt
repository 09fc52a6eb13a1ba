//! The elements of a page, and how the tags of each are written.
ghost use Rattle.std.specs.Prelude.{◌≡◌};
ghost use Rattle.html_text.specs.Html.{extras, name};

/// An element of a page.
///
/// Source: HTML Living Standard 4 (The elements of HTML); SVG 2 for `Svg` to `Text`.
#[derive(Clone, Copy, PartialEq, Eq)]
pub enum Tag {
    /// The whole page.
    Html,
    /// What is said of the page.
    Head,
    /// The title of the page, or what a pointer that rests on a shape is told.
    Title,
    /// How the page looks.
    Style,
    /// What is shown.
    Body,
    /// The page's heading.
    H1,
    /// A section's heading.
    H2,
    /// A paragraph.
    P,
    /// A part of a text.
    Span,
    /// A section.
    Section,
    /// A list.
    Ul,
    /// An entry of a list.
    Li,
    /// A table.
    Table,
    /// A table's heading.
    Caption,
    /// The rows of a table's head.
    Thead,
    /// The rows of a table.
    Tbody,
    /// A row.
    Tr,
    /// A cell that names a column.
    Th,
    /// A cell.
    Td,
    /// What is shown once it is opened.
    Details,
    /// What is shown of it before.
    Summary,
    /// A drawing, which those who listen to the page aren't read.
    Svg,
    /// Shapes of it.
    G,
    /// A rectangle of it.
    Rect,
    /// A text of it.
    Text,
}

/// The element's name.
pub fn name(tag: Tag) -> &'static str
    ensures { result.now ≡ name tag }
{
    match tag {
        Tag::Html => "html",
        Tag::Head => "head",
        Tag::Title => "title",
        Tag::Style => "style",
        Tag::Body => "body",
        Tag::H1 => "h1",
        Tag::H2 => "h2",
        Tag::P => "p",
        Tag::Span => "span",
        Tag::Section => "section",
        Tag::Ul => "ul",
        Tag::Li => "li",
        Tag::Table => "table",
        Tag::Caption => "caption",
        Tag::Thead => "thead",
        Tag::Tbody => "tbody",
        Tag::Tr => "tr",
        Tag::Th => "th",
        Tag::Td => "td",
        Tag::Details => "details",
        Tag::Summary => "summary",
        Tag::Svg => "svg",
        Tag::G => "g",
        Tag::Rect => "rect",
        Tag::Text => "text",
    }
}

/// The attributes that each element of this name has.
pub fn extras(tag: Tag) -> &'static str
    ensures { result.now ≡ extras tag }
{
    match tag {
        Tag::Html => " lang=\"en\"",
        Tag::Th => " scope=\"col\"",
        Tag::Svg => " aria-hidden=\"true\" width=\"100%\"",
        _ => "",
    }
}
