//! The table of an instance's operations.

use crate::attempts::write_story_within;
use crate::scale::between;
use crate::shown::{
    Setting, is_over, operation_word, role_word, write_element, write_length, write_moment,
};
use crate::stories::{InstanceStory, OperationStory};
use html_text::{Html, Tag};
use json_views::state_word;
use lcm_events::OpState;
use occ_table::Cause;
use std::alloc::{AllocError, Global};

/// How wide each column of the table is, and what it is.
const COLUMNS: [(&str, &str); 7] = [
    ("col-time", "Started"),
    ("col-time", "Ended"),
    ("col-took", "Took"),
    ("col-what", "Operation"),
    ("col-state", "State"),
    ("col-why", "Why"),
    ("col-tries", "Attempts, at the operation\u{2019}s own scale"),
];

/// Writes the table.
pub fn write_table(
    html: &mut Html,
    setting: &Setting,
    story: &InstanceStory,
) -> Result<(), AllocError> {
    let alloc = setting.alloc;
    html.begin(alloc, Tag::Table, "operations")?;
    write_element(html, alloc, Tag::Caption, "", "Operations")?;
    write_columns(html, alloc)?;
    html.begin(alloc, Tag::Tbody, "")?;
    for operation in &story.operations {
        write_row(html, setting, operation)?;
    }
    html.end()?;
    html.end()
}

/// Writes the table's head.
fn write_columns(html: &mut Html, alloc: Global) -> Result<(), AllocError> {
    html.begin(alloc, Tag::Thead, "")?;
    html.begin(alloc, Tag::Tr, "")?;
    for column in COLUMNS.iter() {
        write_element(html, alloc, Tag::Th, column.0, column.1)?;
    }
    html.end()?;
    html.end()
}

/// How a row is marked: those of operations that failed are.
fn row_class(state: OpState) -> &'static str {
    match state {
        OpState::FailedTemp | OpState::Failed | OpState::RollingBack | OpState::RolledBack => "bad",
        OpState::Starting | OpState::Processing | OpState::Completed => "",
    }
}

/// Writes the row of an operation.
fn write_row(html: &mut Html, setting: &Setting, story: &OperationStory) -> Result<(), AllocError> {
    let alloc = setting.alloc;
    html.begin(alloc, Tag::Tr, row_class(story.state))?;
    write_times(html, alloc, story)?;
    write_what(html, alloc, story)?;
    html.begin(alloc, Tag::Td, "why")?;
    write_why(html, alloc, story)?;
    html.end()?;
    html.begin(alloc, Tag::Td, "tries")?;
    write_story_within(html, setting, story)?;
    html.end()?;
    html.end()
}

/// Writes when the operation started and ended, and how long it took.
fn write_times(html: &mut Html, alloc: Global, story: &OperationStory) -> Result<(), AllocError> {
    html.begin(alloc, Tag::Td, "time first")?;
    write_moment(html, alloc, story.asked)?;
    html.end()?;
    html.begin(alloc, Tag::Td, "time")?;
    write_ending(html, alloc, story)?;
    html.end()?;
    html.begin(alloc, Tag::Td, "took")?;
    if is_over(story.state) {
        write_length(html, alloc, between(story.asked, story.entered))?;
    }
    html.end()
}

/// Writes when it ended, or that it hasn't.
fn write_ending(html: &mut Html, alloc: Global, story: &OperationStory) -> Result<(), AllocError> {
    if is_over(story.state) {
        return write_moment(html, alloc, story.entered);
    }
    match story.state {
        OpState::FailedTemp => html.text(alloc, "waits for a decision"),
        _ => html.text(alloc, "still going on"),
    }
}

/// Writes what was asked for, by whom, and the state.
fn write_what(html: &mut Html, alloc: Global, story: &OperationStory) -> Result<(), AllocError> {
    html.begin(alloc, Tag::Td, "")?;
    html.text(alloc, operation_word(story))?;
    html.text(alloc, " ")?;
    html.begin(alloc, Tag::Span, "asker")?;
    html.text(alloc, "by ")?;
    html.text(alloc, role_word(story.role))?;
    html.end()?;
    html.end()?;
    html.begin(alloc, Tag::Td, "")?;
    write_element(
        html,
        alloc,
        Tag::Span,
        badge_class(story.state),
        state_word(story.state),
    )?;
    html.end()
}

/// How a state's word is marked.
fn badge_class(state: OpState) -> &'static str {
    match state {
        OpState::Completed => "state completed",
        OpState::FailedTemp => "state standing",
        OpState::Failed => "state failed",
        OpState::RolledBack => "state rolledback",
        OpState::Starting | OpState::Processing | OpState::RollingBack => "state going",
    }
}

/// Whether the state shows why work stopped.
fn shows_cause(state: OpState) -> bool {
    !matches!(state, OpState::Starting | OpState::Completed)
}

/// Writes why the operation's work stopped, where it did and the state shows it.
fn write_why(html: &mut Html, alloc: Global, story: &OperationStory) -> Result<(), AllocError> {
    if !shows_cause(story.state) {
        return Ok(());
    }
    match story.cause {
        Some(cause) => write_cause(html, alloc, story, cause),
        None => Ok(()),
    }
}

/// Writes a cause.
fn write_cause(
    html: &mut Html,
    alloc: Global,
    story: &OperationStory,
    cause: Cause,
) -> Result<(), AllocError> {
    match cause {
        Cause::Denied => html.text(alloc, "grant denied"),
        Cause::NotCovering => html.text(alloc, "grant does not cover the request"),
        Cause::NoGrant => html.text(alloc, "no grant after five tries"),
        Cause::Broken { change, code } => {
            write_stopped(html, alloc, story, change, ": broken ")?;
            html.number(u64::from(code))
        }
        Cause::Aborted { change } => write_stopped(html, alloc, story, change, ": aborted"),
        Cause::CallFailed { change } => write_stopped(html, alloc, story, change, ": call failed"),
        Cause::Cancelled => html.text(alloc, "cancelled"),
    }
}

/// Writes which change stopped the work, and how.
fn write_stopped(
    html: &mut Html,
    alloc: Global,
    story: &OperationStory,
    change: u16,
    how: &str,
) -> Result<(), AllocError> {
    html.text(alloc, "change ")?;
    html.number(u64::from(change))?;
    html.text(alloc, " (")?;
    html.text(alloc, story.what_of(change))?;
    html.text(alloc, ")")?;
    html.text(alloc, how)
}

impl OperationStory {
    /// A change in words, empty where there was no attempt at it.
    fn what_of(&self, change: u16) -> &str {
        let Some(latest) = self.latest.get(usize::from(change)) else {
            return "";
        };
        match self.attempts.get(*latest) {
            Some(attempt) if attempt.change == change => attempt.what.as_str(),
            _ => "",
        }
    }
}
