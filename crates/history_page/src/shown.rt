//! What the parts of a page are written with: words, moments, lengths of time and identifiers.

use crate::scale::Span;
use crate::stories::{Fate, OperationStory, Stage};
use html_text::{Html, Tag};
use json_views::{instance_id, kind_word, occurrence_id, state_word};
use lcm_events::{CancelMode, OpState, Role};
use std::alloc::{AllocError, Global};
use std::str;
use vnfm_base::{Moment, moment_text};

/// Whose page it is, and the span of time that it shows.
#[derive(Clone, Copy)]
pub struct Setting {
    /// Where memory comes from.
    pub alloc: Global,
    /// The manager's number.
    pub manager: u32,
    /// The span that the lines of the instances show.
    pub span: Span,
}

/// Writes an element that has a text alone.
pub fn write_element(
    html: &mut Html,
    alloc: Global,
    tag: Tag,
    class: &str,
    text: &str,
) -> Result<(), AllocError> {
    html.begin(alloc, tag, class)?;
    html.text(alloc, text)?;
    html.end()
}

/// Writes a moment in UTC, as `2023-11-14 22:13:20.000`.
pub fn write_moment(html: &mut Html, alloc: Global, moment: Moment) -> Result<(), AllocError> {
    let text = moment_text(moment);
    write_bytes(html, alloc, &text[..10])?;
    html.text(alloc, " ")?;
    write_bytes(html, alloc, &text[11..23])
}

/// Writes the time of its day, as `22:13:20.000`.
pub fn write_time(html: &mut Html, alloc: Global, moment: Moment) -> Result<(), AllocError> {
    let text = moment_text(moment);
    write_bytes(html, alloc, &text[11..23])
}

/// Writes what a mark says of its moment: the day, the minute or the millisecond, by the step between the marks.
pub fn write_mark(
    html: &mut Html,
    alloc: Global,
    moment: Moment,
    step: u64,
) -> Result<(), AllocError> {
    let text = moment_text(moment);
    if step >= 86_400_000 {
        return write_bytes(html, alloc, &text[..10]);
    }
    if step >= 60_000 {
        return write_bytes(html, alloc, &text[11..16]);
    }
    if step >= 1_000 {
        return write_bytes(html, alloc, &text[11..19]);
    }
    write_bytes(html, alloc, &text[11..23])
}

/// Writes bytes that are a text; nothing where they are none.
fn write_bytes(html: &mut Html, alloc: Global, bytes: &[u8]) -> Result<(), AllocError> {
    match str::from_utf8(bytes) {
        Ok(text) => html.text(alloc, text),
        Err(_) => Ok(()),
    }
}

/// Writes so many milliseconds, as `850 ms`, `2.4 s`, `3 min 5 s`, `8 h 20 min` or `2 d 5 h`.
pub fn write_length(html: &mut Html, alloc: Global, length: u64) -> Result<(), AllocError> {
    if length < 1_000 {
        return write_units(html, alloc, length, " ms");
    }
    if length < 60_000 {
        html.number(length / 1_000)?;
        html.text(alloc, ".")?;
        return write_units(html, alloc, length % 1_000 / 100, " s");
    }
    if length < 3_600_000 {
        return write_two(html, alloc, length / 1_000, 60, " min ", " s");
    }
    if length < 86_400_000 {
        return write_two(html, alloc, length / 60_000, 60, " h ", " min");
    }
    write_two(html, alloc, length / 3_600_000, 24, " d ", " h")
}

/// Writes a number and its unit.
pub fn write_units(
    html: &mut Html,
    alloc: Global,
    number: u64,
    unit: &str,
) -> Result<(), AllocError> {
    html.number(number)?;
    html.text(alloc, unit)
}

/// Writes a number in two units, of which the greater is so many of the lesser.
fn write_two(
    html: &mut Html,
    alloc: Global,
    number: u64,
    base: u64,
    greater: &str,
    lesser: &str,
) -> Result<(), AllocError> {
    if base == 0 {
        return Ok(());
    }
    write_units(html, alloc, number / base, greater)?;
    write_units(html, alloc, number % base, lesser)
}

/// The greatest number that an identifier can carry.
const GREATEST: u64 = (1 << 62) - 1;

/// Writes the identifier of an instance; its number where no identifier can carry that.
pub fn write_instance(html: &mut Html, setting: &Setting, number: u64) -> Result<(), AllocError> {
    if number == 0 || number > GREATEST {
        return html.number(number);
    }
    let id = instance_id(setting.alloc, setting.manager, number)?;
    html.text(setting.alloc, id.as_str())
}

/// Writes the identifier of an occurrence; its number where no identifier can carry that.
pub fn write_occurrence(html: &mut Html, setting: &Setting, number: u64) -> Result<(), AllocError> {
    if number == 0 || number > GREATEST {
        return html.number(number);
    }
    let id = occurrence_id(setting.alloc, setting.manager, number)?;
    html.text(setting.alloc, id.as_str())
}

/// The word for what was asked for.
pub fn operation_word(story: &OperationStory) -> &'static str {
    kind_word(story.kind)
}

/// Who asked.
pub fn role_word(role: Role) -> &'static str {
    match role {
        Role::Orchestrator => "NFVO",
        Role::Element => "EM",
    }
}

/// How the page marks an operation in this state.
pub fn state_class(state: OpState) -> &'static str {
    match state {
        OpState::Completed => "completed",
        OpState::FailedTemp => "standing",
        OpState::Failed => "failed",
        OpState::RolledBack => "rolledback",
        OpState::Starting | OpState::Processing | OpState::RollingBack => "going",
    }
}

/// Whether nothing more happens to an operation in this state.
pub fn is_over(state: OpState) -> bool {
    match state {
        OpState::Completed | OpState::Failed | OpState::RolledBack => true,
        OpState::Starting | OpState::Processing | OpState::FailedTemp | OpState::RollingBack =>
            false,
    }
}

/// How the page marks an attempt that stands so.
pub fn fate_class(fate: Fate) -> &'static str {
    match fate {
        Fate::Open => "open",
        Fate::Done => "done",
        Fate::Broken(_) => "broken",
        Fate::Aborted => "aborted",
        Fate::NotBegun => "notbegun",
        Fate::CallFailed => "callfailed",
    }
}

/// The word for it.
pub fn fate_word(fate: Fate) -> &'static str {
    match fate {
        Fate::Open => "still open",
        Fate::Done => "done",
        Fate::Broken(_) => "broken",
        Fate::Aborted => "aborted",
        Fate::NotBegun => "not begun",
        Fate::CallFailed => "call failed",
    }
}

/// Writes how an attempt stands, with the infrastructure's code where it broke.
pub fn write_fate(html: &mut Html, alloc: Global, fate: Fate) -> Result<(), AllocError> {
    html.text(alloc, fate_word(fate))?;
    match fate {
        Fate::Broken(code) => {
            html.text(alloc, " ")?;
            html.number(u64::from(code))
        }
        _ => Ok(()),
    }
}

/// The word for what happened to an operation.
pub fn stage_word(stage: Stage) -> &'static str {
    match stage {
        Stage::Moved(state) => state_word(state),
        Stage::GrantLater => "grant comes later",
        Stage::GrantTrouble => "no answer to the grant request that can be read",
        Stage::GrantNotCovering => "grant does not cover the request",
        Stage::Granted => "granted",
        Stage::Denied => "grant denied",
        Stage::CancelAsked(CancelMode::Graceful) => "GRACEFUL cancel asked for",
        Stage::CancelAsked(CancelMode::Forceful) => "FORCEFUL cancel asked for",
    }
}
