//! HTML that is made part by part, and whose elements nest.
ghost use Rattle.std.specs.Prelude.{◌≡◌, ◌++◌, IsUtf8, OnOk, codes, decimal, string_bytes};
ghost use Rattle.html_text.specs.Escaped.{escaped};
ghost use Rattle.html_text.specs.Html.{as_high, at_corner, at_spot, attribute, begun, begun_with, class_where, corner_text};
ghost use Rattle.html_text.specs.Html.{doctype, end_tag, ended, extras, high, meta, name, nothing_written, plain};
ghost use Rattle.html_text.specs.Html.{share_of, spot_text, start_tag, with_more};

use crate::escaping::escaped;
use crate::tags::{Tag, extras, name};
use itoa::Buffer;
use std::alloc::{AllocError, Global};
use std::marker::Model;
use vnfm_base::Bytes;

/// Where a rectangle of a drawing stands, in hundredths of a per cent of the drawing's width and height.
#[derive(Clone, Copy)]
pub struct Spot {
    /// How far its left side is from the drawing's.
    pub x: u32,
    /// How far its top is from the drawing's.
    pub y: u32,
    /// How wide it is.
    pub width: u32,
    /// How high it is.
    pub height: u32,
}

/// HTML as far as it is made. What it writes besides tags and numbers is escaped: there is no call that writes a text as
/// it is, so no text begins or ends an element, whoever it comes from. Where there is no memory for a part, the HTML is of
/// no further use.
///
/// A contract sees what is written, and the elements that are open.
///
/// Source: HTML Living Standard 13.1 (Writing HTML documents).
pub struct Html {
    text: String,
    open_tags: Vec<Tag>,
}

impl Drop for Html {
    // Written out, so that the proof of a caller calls it and doesn't take the HTML apart at each of its ends.
    fn drop(self) {
        let Html {
            text: _,
            open_tags: _,
        } = self;
    }
}

impl Model for Html {
    ghost use Rattle.std.specs.String.{string_bytes};
    ghost use Rattle.html_text.specs.Html.{HtmlSoFar};

    ghost Value = { HtmlSoFar };

    ghost view = { λ h. record { text = string_bytes h.text; open_tags = h.open_tags.items } };
}

impl Html {
    /// Nothing is written; takes no memory.
    pub fn new(alloc: Global) -> Html
        ensures { result ≡ nothing_written }
    {
        Html {
            text: String::new(alloc),
            open_tags: Vec::new(alloc),
        }
    }

    /// Writes that a page of HTML begins.
    ///
    /// Source: HTML Living Standard 13.1.1 (The DOCTYPE).
    #[tactic(auto, unfolding(crate::specs::Html::doctype))]
    pub fn doctype(&mut self) -> Result<(), AllocError>
        ensures { OnOk result (self.new ≡ with_more doctype self.old) }
    {
        self.text.push_str("<!doctype html>\n")
    }

    /// Writes how the page is encoded, and that it is as wide as what shows it.
    ///
    /// Source: HTML Living Standard 4.2.5 (The meta element).
    #[tactic(auto, unfolding(crate::specs::Html::meta))]
    pub fn meta(&mut self) -> Result<(), AllocError>
        ensures { OnOk result (self.new ≡ with_more meta self.old) }
    {
        self.text.push_str(
            "<meta charset=\"utf-8\"><meta name=\"viewport\" content=\"width=device-width\">",
        )
    }

    /// Begins an element of this class, or of none where it is empty. What is in it is written next, and then its end.
    ///
    /// Source: HTML Living Standard 13.1.2 (Elements).
    pub fn begin(&mut self, alloc: Global, tag: Tag, class: &str) -> Result<(), AllocError>
        ensures { OnOk result (self.new ≡ begun tag class.now plain self.old) }
    {
        self.begin_with(alloc, tag, class, "")
    }

    /// Begins a drawing that is as wide as what it stands in, and so many pixels high.
    ///
    /// Source: SVG 2, 5.1 (The svg element).
    pub fn begin_drawing(
        &mut self,
        alloc: Global,
        class: &str,
        height: u32,
    ) -> Result<(), AllocError>
        ensures { OnOk result (self.new ≡ begun Tag.Svg class.now (as_high height) self.old) }
    {
        let mut attributes = String::new(alloc);
        push_height(&mut attributes, height)?;
        self.begin_with(alloc, Tag::Svg, class, attributes.as_str())
    }

    /// Begins a rectangle of a drawing.
    ///
    /// Source: SVG 2, 10.2 (The rect element).
    pub fn begin_rect(&mut self, alloc: Global, class: &str, spot: Spot) -> Result<(), AllocError>
        ensures { OnOk result (self.new ≡ begun Tag.Rect class.now (at_spot spot) self.old) }
    {
        let mut attributes = String::new(alloc);
        push_spot(&mut attributes, spot)?;
        self.begin_with(alloc, Tag::Rect, class, attributes.as_str())
    }

    /// Begins a text of a drawing, whose middle stands at so many hundredths of a per cent of the drawing's width, and
    /// whose line at so many of its height.
    ///
    /// Source: SVG 2, 11.2 (The text element).
    pub fn begin_label(
        &mut self,
        alloc: Global,
        class: &str,
        x: u32,
        y: u32,
    ) -> Result<(), AllocError>
        ensures { OnOk result (self.new ≡ begun Tag.Text class.now (at_corner x y) self.old) }
    {
        let mut attributes = String::new(alloc);
        push_corner(&mut attributes, x, y)?;
        self.begin_with(alloc, Tag::Text, class, attributes.as_str())
    }

    /// Begins an element of this class with these attributes.
    fn begin_with(
        &mut self,
        alloc: Global,
        tag: Tag,
        class: &str,
        attributes: &str,
    ) -> Result<(), AllocError>
        ensures { OnOk result (self.new ≡ begun_with tag class.now attributes.now self.old) }
    {
        push_start(&mut self.text, alloc, tag, class, attributes)?;
        self.open_tags.push(tag)?;
        Ok(())
    }

    /// Ends the innermost element, where one is open.
    ///
    /// Source: HTML Living Standard 13.1.2 (Elements).
    pub fn end(&mut self) -> Result<(), AllocError>
        ensures { OnOk result (self.new ≡ ended self.old) }
    {
        match self.open_tags.pop() {
            Some(tag) => push_end(&mut self.text, tag),
            None => Ok(()),
        }
    }

    /// Writes a text, escaped. The time is linear in it.
    ///
    /// Source: HTML Living Standard 13.1.3 (Text).
    pub fn text(&mut self, alloc: Global, text: &str) -> Result<(), AllocError>
        ensures { OnOk result (self.new ≡ with_more (escaped text.now) self.old) }
    {
        let part = escaped(alloc, text)?;
        self.text.push_str(part.as_str())
    }

    /// Writes a number.
    pub fn number(&mut self, number: u64) -> Result<(), AllocError>
        ensures { OnOk result (self.new ≡ with_more (decimal number) self.old) }
    {
        push_number(&mut self.text, number)
    }

    /// What was written, moved and not copied.
    pub fn into_bytes(self) -> Bytes
        ensures text { result ≡ self.text }
        ensures utf8 { IsUtf8 result }
    {
        let Html { text, open_tags: _ } = self;
        Bytes::of_vec(text.into_bytes())
    }
}

/// Puts the tag that begins an element of this class with these attributes last.
#[tactic(auto, unfolding(crate::specs::Html::start_tag))]
fn push_start(
    text: &mut String,
    alloc: Global,
    tag: Tag,
    class: &str,
    attributes: &str,
) -> Result<(), AllocError>
    ensures { OnOk result (string_bytes text.new ≡ string_bytes text.old ++ start_tag tag class.now attributes.now) }
{
    text.push_str("<")?;
    text.push_str(name(tag))?;
    text.push_str(extras(tag))?;
    push_class(text, alloc, class)?;
    text.push_str(attributes)?;
    text.push_str(">")
}

/// Puts the tag that ends an element last.
#[tactic(auto, unfolding(crate::specs::Html::end_tag))]
fn push_end(text: &mut String, tag: Tag) -> Result<(), AllocError>
    ensures { OnOk result (string_bytes text.new ≡ string_bytes text.old ++ end_tag tag) }
{
    text.push_str("</")?;
    text.push_str(name(tag))?;
    text.push_str(">")
}

/// Puts a class last, where there is one.
fn push_class(text: &mut String, alloc: Global, class: &str) -> Result<(), AllocError>
    ensures { OnOk result (string_bytes text.new ≡ string_bytes text.old ++ class_where class.now) }
{
    if class.is_empty() {
        return Ok(());
    }
    let class = escaped(alloc, class)?;
    push_attribute(text, "class", class.as_str())
}

/// Puts an attribute last, whose value is escaped already.
fn push_attribute(text: &mut String, key: &str, value: &str) -> Result<(), AllocError>
    ensures { OnOk result (string_bytes text.new ≡ string_bytes text.old ++ attribute key.now value.now) }
{
    text.push_str(" ")?;
    text.push_str(key)?;
    text.push_str("=\"")?;
    text.push_str(value)?;
    text.push_str("\"")
}

/// Puts how high a drawing is last.
fn push_height(text: &mut String, height: u32) -> Result<(), AllocError>
    ensures { OnOk result (string_bytes text.new ≡ string_bytes text.old ++ high height) }
{
    text.push_str(" height=\"")?;
    push_number(text, u64::from(height))?;
    text.push_str("\"")
}

/// Puts where a rectangle stands last.
fn push_spot(text: &mut String, spot: Spot) -> Result<(), AllocError>
    ensures { OnOk result (string_bytes text.new ≡ string_bytes text.old ++ spot_text spot) }
{
    push_corner(text, spot.x, spot.y)?;
    push_share(text, " width=\"", spot.width)?;
    push_share(text, " height=\"", spot.height)
}

/// Puts where a shape begins last.
fn push_corner(text: &mut String, x: u32, y: u32) -> Result<(), AllocError>
    ensures { OnOk result (string_bytes text.new ≡ string_bytes text.old ++ corner_text x y) }
{
    push_share(text, " x=\"", x)?;
    push_share(text, " y=\"", y)
}

/// Puts so many hundredths of a per cent last, as an attribute's value behind this beginning.
fn push_share(text: &mut String, front: &'static str, share: u32) -> Result<(), AllocError>
    ensures { OnOk result (string_bytes text.new ≡ string_bytes text.old ++ share_of front.now share) }
{
    text.push_str(front)?;
    push_number(text, u64::from(share / 100))?;
    text.push_str(".")?;
    push_number(text, u64::from(share / 10 % 10))?;
    push_number(text, u64::from(share % 10))?;
    text.push_str("%\"")
}

/// Puts a number last.
fn push_number(text: &mut String, number: u64) -> Result<(), AllocError>
    ensures { OnOk result (string_bytes text.new ≡ string_bytes text.old ++ decimal number) }
{
    let mut digits = Buffer::new();
    text.push_str(digits.format(number))
}
