//! The page as a whole: its head, its heading, what the colours mean, and the instances.
ghost use Rattle.std.specs.Prelude.{IfOk, IsUtf8};

use crate::drawing::write_line;
use crate::following::HistoryPage;
use crate::scale::Span;
use crate::shown::{
    Setting, write_element, write_instance, write_length, write_moment, write_units,
};
use crate::stories::InstanceStory;
use crate::style::STYLE;
use crate::table::write_table;
use html_text::{Html, Tag};
use std::alloc::{AllocError, Global};
use vnfm_base::{Bytes, Moment};

impl HistoryPage {
    /// The page, in UTF-8. The time is linear in what was handed in.
    ///
    /// Source: HTML Living Standard, SVG 2; own rule.
    pub fn written(&self, alloc: Global) -> Result<Bytes, AllocError>
        ensures { IfOk result (λ page. IsUtf8 page) }
    {
        let mut html = Html::new(alloc);
        let setting = self.setting(alloc);
        html.doctype()?;
        html.begin(alloc, Tag::Html, "")?;
        write_head(&mut html, &setting)?;
        self.write_body(&mut html, &setting)?;
        html.end()?;
        Ok(html.into_bytes())
    }

    /// Whose page it is, and what its lines show.
    fn setting(&self, alloc: Global) -> Setting {
        let span = match &self.span {
            Some(span) => *span,
            None => Span { from: 0, to: 0 },
        };
        Setting {
            alloc,
            manager: self.manager,
            span,
        }
    }

    /// Writes what is shown.
    fn write_body(&self, html: &mut Html, setting: &Setting) -> Result<(), AllocError> {
        html.begin(setting.alloc, Tag::Body, "")?;
        self.write_heading(html, setting)?;
        write_legend(html, setting.alloc)?;
        for story in &self.instances {
            write_story(html, setting, story)?;
        }
        html.end()
    }

    /// Writes the heading and what the page covers.
    fn write_heading(&self, html: &mut Html, setting: &Setting) -> Result<(), AllocError> {
        let alloc = setting.alloc;
        html.begin(alloc, Tag::H1, "")?;
        write_title(html, setting)?;
        html.end()?;
        html.begin(alloc, Tag::P, "time")?;
        self.write_span(html, setting)?;
        html.end()?;
        html.begin(alloc, Tag::P, "")?;
        write_units(html, alloc, self.instances.len() as u64, " instances, ")?;
        write_units(html, alloc, self.operations(), " operations, ")?;
        write_units(html, alloc, self.events, " events. All times are UTC.")?;
        html.end()
    }

    /// Writes the span of time.
    fn write_span(&self, html: &mut Html, setting: &Setting) -> Result<(), AllocError> {
        let alloc = setting.alloc;
        if self.span.is_none() {
            return html.text(alloc, "No event was chosen.");
        }
        write_moment(html, alloc, Moment::of(setting.span.from))?;
        html.text(alloc, " to ")?;
        write_moment(html, alloc, Moment::of(setting.span.to))?;
        html.text(alloc, " (")?;
        write_length(html, alloc, setting.span.length())?;
        html.text(alloc, ")")
    }

    /// How many operations there are.
    fn operations(&self) -> u64 {
        let mut count = 0u64;
        for story in &self.instances {
            count = count.saturating_add(story.operations.len() as u64);
        }
        count
    }
}

/// Writes what is said of the page.
fn write_head(html: &mut Html, setting: &Setting) -> Result<(), AllocError> {
    let alloc = setting.alloc;
    html.begin(alloc, Tag::Head, "")?;
    html.meta()?;
    html.begin(alloc, Tag::Title, "")?;
    write_title(html, setting)?;
    html.end()?;
    write_element(html, alloc, Tag::Style, "", STYLE)?;
    html.end()
}

/// Writes the page's title.
fn write_title(html: &mut Html, setting: &Setting) -> Result<(), AllocError> {
    html.text(setting.alloc, "History of VNF manager ")?;
    html.number(u64::from(setting.manager))
}

/// What the colours of the operations mean.
const OPERATION_KEYS: [(&str, &str); 5] = [
    ("key completed", "COMPLETED"),
    ("key standing", "FAILED_TEMP, waits for a decision"),
    ("key failed", "FAILED"),
    ("key rolledback", "ROLLED_BACK"),
    ("key going", "still going on"),
];

/// What the colours of the attempts mean.
const ATTEMPT_KEYS: [(&str, &str); 6] = [
    ("key small done", "done"),
    ("key small broken", "broken"),
    ("key small aborted", "aborted"),
    ("key small notbegun", "not begun"),
    ("key small callfailed", "call failed"),
    ("key small open", "still open"),
];

/// Writes what the colours mean.
fn write_legend(html: &mut Html, alloc: Global) -> Result<(), AllocError> {
    html.begin(alloc, Tag::Ul, "legend")?;
    write_element(html, alloc, Tag::Li, "what", "Operations:")?;
    for key in OPERATION_KEYS.iter() {
        write_key(html, alloc, key.0, key.1)?;
    }
    html.end()?;
    html.begin(alloc, Tag::Ul, "legend")?;
    write_element(html, alloc, Tag::Li, "what", "Attempts:")?;
    for key in ATTEMPT_KEYS.iter() {
        write_key(html, alloc, key.0, key.1)?;
    }
    html.end()
}

/// Writes what a colour means.
fn write_key(html: &mut Html, alloc: Global, class: &str, text: &str) -> Result<(), AllocError> {
    html.begin(alloc, Tag::Li, "")?;
    write_element(html, alloc, Tag::Span, class, "")?;
    html.text(alloc, text)?;
    html.end()
}

/// Writes an instance: its line of time, and the table of its operations.
fn write_story(
    html: &mut Html,
    setting: &Setting,
    story: &InstanceStory,
) -> Result<(), AllocError> {
    let alloc = setting.alloc;
    html.begin(alloc, Tag::Section, "")?;
    write_names(html, setting, story)?;
    write_times(html, alloc, story)?;
    write_line(html, setting, story)?;
    if story.operations.is_empty() {
        write_element(html, alloc, Tag::P, "", "No operation.")?;
    } else {
        write_table(html, setting, story)?;
    }
    html.end()
}

/// Writes its name, or else its identifier, as a heading.
fn write_names(
    html: &mut Html,
    setting: &Setting,
    story: &InstanceStory,
) -> Result<(), AllocError> {
    let alloc = setting.alloc;
    html.begin(alloc, Tag::H2, "")?;
    if story.name.is_empty() {
        html.text(alloc, "Instance without a name")?;
    } else {
        html.text(alloc, story.name.as_str())?;
    }
    html.end()?;
    html.begin(alloc, Tag::P, "id")?;
    write_instance(html, setting, story.number)?;
    if !story.vnfd.is_empty() {
        html.text(alloc, " of ")?;
        html.text(alloc, story.vnfd.as_str())?;
    }
    html.end()
}

/// Writes when it was created and deleted.
fn write_times(html: &mut Html, alloc: Global, story: &InstanceStory) -> Result<(), AllocError> {
    html.begin(alloc, Tag::P, "time")?;
    match story.created {
        Some(moment) => {
            html.text(alloc, "Created ")?;
            write_moment(html, alloc, moment)?;
        }
        None => html.text(alloc, "Created before what is shown")?,
    }
    match story.deleted {
        Some(moment) => {
            html.text(alloc, ", deleted ")?;
            write_moment(html, alloc, moment)?;
        }
        None => html.text(alloc, ", not deleted")?,
    }
    html.end()
}
