//! What happened within an operation: its own line of time, and what it is opened for.

use crate::drawing::{write_change, write_own_line};
use crate::scale::between;
use crate::shown::{
    Setting, stage_word, write_element, write_fate, write_length, write_occurrence, write_time,
    write_units,
};
use crate::stories::{Attempt, Fate, OperationStory};
use html_text::{Html, Tag};
use std::alloc::{AllocError, Global};

/// How many attempts of an operation stand in each way.
#[derive(Clone, Copy)]
struct Counts {
    done: u64,
    broken: u64,
    aborted: u64,
    not_begun: u64,
    call_failed: u64,
    open: u64,
}

/// Writes the line of an operation, and behind it, once it is opened, its steps and attempts.
pub fn write_story_within(
    html: &mut Html,
    setting: &Setting,
    story: &OperationStory,
) -> Result<(), AllocError> {
    let alloc = setting.alloc;
    html.begin(alloc, Tag::Details, "")?;
    html.begin(alloc, Tag::Summary, "")?;
    html.begin(alloc, Tag::Span, "count")?;
    write_summary(html, alloc, story.attempts.as_slice())?;
    html.end()?;
    write_own_line(html, setting, story)?;
    html.end()?;
    write_steps(html, setting, story)?;
    if !story.attempts.is_empty() {
        write_attempts(html, alloc, story)?;
    }
    html.end()
}

/// Writes how the attempts went in short.
fn write_summary(html: &mut Html, alloc: Global, attempts: &[Attempt]) -> Result<(), AllocError> {
    if attempts.is_empty() {
        return html.text(alloc, "no attempt");
    }
    write_counts(html, alloc, count(attempts))
}

/// How many attempts stand in each way.
fn count(attempts: &[Attempt]) -> Counts {
    let mut counts = Counts {
        done: 0,
        broken: 0,
        aborted: 0,
        not_begun: 0,
        call_failed: 0,
        open: 0,
    };
    for attempt in attempts {
        counts = counts.with(attempt.fate);
    }
    counts
}

impl Counts {
    /// With one more that stands so.
    fn with(self, fate: Fate) -> Counts {
        let mut counts = self;
        match fate {
            Fate::Done => counts.done = counts.done.saturating_add(1),
            Fate::Broken(_) => counts.broken = counts.broken.saturating_add(1),
            Fate::Aborted => counts.aborted = counts.aborted.saturating_add(1),
            Fate::NotBegun => counts.not_begun = counts.not_begun.saturating_add(1),
            Fate::CallFailed => counts.call_failed = counts.call_failed.saturating_add(1),
            Fate::Open => counts.open = counts.open.saturating_add(1),
        }
        counts
    }
}

/// Writes how many attempts stand in each way.
fn write_counts(html: &mut Html, alloc: Global, counts: Counts) -> Result<(), AllocError> {
    write_units(html, alloc, counts.done, " done")?;
    write_count(html, alloc, counts.broken, " broken")?;
    write_count(html, alloc, counts.aborted, " aborted")?;
    write_count(html, alloc, counts.not_begun, " not begun")?;
    write_count(html, alloc, counts.call_failed, " call failed")?;
    write_count(html, alloc, counts.open, " still open")
}

/// Writes a count that isn't 0.
fn write_count(html: &mut Html, alloc: Global, number: u64, unit: &str) -> Result<(), AllocError> {
    if number == 0 {
        return Ok(());
    }
    html.text(alloc, ", ")?;
    write_units(html, alloc, number, unit)
}

/// Writes what happened to an operation besides attempts.
fn write_steps(
    html: &mut Html,
    setting: &Setting,
    story: &OperationStory,
) -> Result<(), AllocError> {
    let alloc = setting.alloc;
    html.begin(alloc, Tag::Ul, "")?;
    html.begin(alloc, Tag::Li, "id")?;
    html.text(alloc, "occurrence ")?;
    write_occurrence(html, setting, story.occ)?;
    html.end()?;
    for step in &story.steps {
        html.begin(alloc, Tag::Li, "time")?;
        write_time(html, alloc, step.moment)?;
        html.text(alloc, " ")?;
        html.text(alloc, stage_word(step.stage))?;
        html.text(alloc, " (event ")?;
        html.number(step.place)?;
        html.text(alloc, ")")?;
        html.end()?;
    }
    html.end()
}

/// What the columns of the attempts are.
const COLUMNS: [&str; 4] = ["Change", "Begun", "Took", "How"];

/// Writes the table of an operation's attempts.
fn write_attempts(
    html: &mut Html,
    alloc: Global,
    story: &OperationStory,
) -> Result<(), AllocError> {
    html.begin(alloc, Tag::Table, "")?;
    write_columns(html, alloc)?;
    html.begin(alloc, Tag::Tbody, "")?;
    for attempt in &story.attempts {
        write_attempt(html, alloc, attempt)?;
    }
    html.end()?;
    html.end()
}

/// Writes the head of that table.
fn write_columns(html: &mut Html, alloc: Global) -> Result<(), AllocError> {
    html.begin(alloc, Tag::Thead, "")?;
    html.begin(alloc, Tag::Tr, "")?;
    for column in COLUMNS.iter() {
        write_element(html, alloc, Tag::Th, "", *column)?;
    }
    html.end()?;
    html.end()
}

/// Writes the row of an attempt.
fn write_attempt(html: &mut Html, alloc: Global, attempt: &Attempt) -> Result<(), AllocError> {
    html.begin(alloc, Tag::Tr, "")?;
    html.begin(alloc, Tag::Td, "")?;
    html.number(u64::from(attempt.change))?;
    html.text(alloc, ": ")?;
    write_change(html, alloc, attempt)?;
    html.end()?;
    write_when(html, alloc, attempt)?;
    html.begin(alloc, Tag::Td, "")?;
    write_fate(html, alloc, attempt.fate)?;
    html.end()?;
    html.end()
}

/// Writes when an attempt began, and how long it took.
fn write_when(html: &mut Html, alloc: Global, attempt: &Attempt) -> Result<(), AllocError> {
    html.begin(alloc, Tag::Td, "time")?;
    write_time(html, alloc, attempt.begun)?;
    html.end()?;
    html.begin(alloc, Tag::Td, "took")?;
    match attempt.fate {
        Fate::Open | Fate::CallFailed => {}
        Fate::Done | Fate::Broken(_) | Fate::Aborted | Fate::NotBegun => {
            write_length(html, alloc, between(attempt.begun, attempt.ended))?;
        }
    }
    html.end()
}
