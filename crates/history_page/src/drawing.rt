//! The lines of time: an instance's with its operations, and an operation's with its attempts.

use crate::scale::{Span, WHOLE, step_for};
use crate::shown::{
    Setting, fate_class, operation_word, role_word, stage_word, state_class, write_fate,
    write_mark, write_occurrence, write_time, write_units,
};
use crate::stories::{Attempt, Fate, InstanceStory, OperationStory};
use html_text::{Html, Spot, Tag};
use json_views::state_word;
use lcm_events::{OpState, Way};
use std::alloc::{AllocError, Global};
use vnfm_base::Moment;

/// How high an instance's line is, in pixels.
const LINE_HEIGHT: u32 = 74;

/// Where its bars begin, and how high they are, in hundredths of a per cent of it.
const BARS: (u32, u32) = (2_900, 6_800);

/// The same of the attempts within a bar.
const ATTEMPTS: (u32, u32) = (6_000, 3_000);

/// How wide a bar is at least, in hundredths of a per cent of the line.
const LEAST: u32 = 45;

/// How wide a bar has to be before its attempts are drawn in it.
const ROOMY: u32 = 150;

/// Writes the line of an instance.
pub fn write_line(
    html: &mut Html,
    setting: &Setting,
    story: &InstanceStory,
) -> Result<(), AllocError> {
    html.begin_drawing(setting.alloc, "line", LINE_HEIGHT)?;
    write_life(html, setting, story)?;
    write_marks(html, setting)?;
    for operation in &story.operations {
        write_operation(html, setting, operation)?;
    }
    html.end()
}

/// Writes a rectangle without a text.
fn write_rect(html: &mut Html, alloc: Global, class: &str, spot: Spot) -> Result<(), AllocError> {
    html.begin_rect(alloc, class, spot)?;
    html.end()
}

/// Writes from when to when the instance was there.
fn write_life(html: &mut Html, setting: &Setting, story: &InstanceStory) -> Result<(), AllocError> {
    let times = Span {
        from: moment_or(&story.created, setting.span.from),
        to: moment_or(&story.deleted, setting.span.to),
    };
    let spot = setting.span.bar(&times, LEAST, BARS.0, BARS.1);
    write_rect(html, setting.alloc, "life", spot)
}

/// The milliseconds of a moment, where there is one, else these.
fn moment_or(moment: &Option<Moment>, other: u64) -> u64 {
    match moment {
        Some(moment) => moment.milliseconds(),
        None => other,
    }
}

/// Writes the marks of a line.
fn write_marks(html: &mut Html, setting: &Setting) -> Result<(), AllocError> {
    let step = step_for(setting.span.length());
    let first = first_mark(setting.span.from, step);
    for number in 0..10u64 {
        let at = first.saturating_add(number.saturating_mul(step));
        if at <= setting.span.to {
            write_mark_at(html, setting, at, step)?;
        }
    }
    Ok(())
}

/// The first multiple of the step that isn't before this.
fn first_mark(from: u64, step: u64) -> u64 {
    if step == 0 {
        return from;
    }
    let rest = from % step;
    if rest == 0 {
        from
    } else {
        from.saturating_add(step - rest)
    }
}

/// Writes one mark.
fn write_mark_at(html: &mut Html, setting: &Setting, at: u64, step: u64) -> Result<(), AllocError> {
    let alloc = setting.alloc;
    let x = setting.span.share(at);
    let spot = Spot {
        x,
        y: 2_000,
        width: 8,
        height: 8_000,
    };
    write_rect(html, alloc, "grid", spot)?;
    html.begin_label(alloc, "", x, 1_500)?;
    write_mark(html, alloc, Moment::of(at), step)?;
    html.end()
}

/// From when to when an operation is shown: to where it came into its last state, or to the end of the line where it goes
/// on.
fn times_of(setting: &Setting, story: &OperationStory) -> Span {
    let from = story.asked.milliseconds();
    match story.state {
        OpState::Completed | OpState::Failed | OpState::RolledBack | OpState::FailedTemp => Span {
            from,
            to: story.entered.milliseconds(),
        },
        OpState::Starting | OpState::Processing | OpState::RollingBack => Span {
            from,
            to: setting.span.to,
        },
    }
}

/// Writes the bar of an operation.
fn write_operation(
    html: &mut Html,
    setting: &Setting,
    story: &OperationStory,
) -> Result<(), AllocError> {
    let alloc = setting.alloc;
    write_waiting(html, setting, story)?;
    let times = times_of(setting, story);
    let spot = setting.span.bar(&times, LEAST, BARS.0, BARS.1);
    html.begin(alloc, Tag::G, "operation")?;
    html.begin_rect(alloc, state_class(story.state), spot)?;
    write_hint(html, setting, story)?;
    html.end()?;
    html.end()?;
    if spot.width >= ROOMY {
        write_within(html, setting, story)?;
    }
    Ok(())
}

/// Writes how long an operation has waited for a decision, where it does.
fn write_waiting(
    html: &mut Html,
    setting: &Setting,
    story: &OperationStory,
) -> Result<(), AllocError> {
    match story.state {
        OpState::FailedTemp => {
            let times = Span {
                from: story.entered.milliseconds(),
                to: setting.span.to,
            };
            let spot = setting.span.bar(&times, LEAST, BARS.0, BARS.1);
            write_rect(html, setting.alloc, "waits", spot)
        }
        _ => Ok(()),
    }
}

/// Writes the attempts of an operation into its bar.
fn write_within(
    html: &mut Html,
    setting: &Setting,
    story: &OperationStory,
) -> Result<(), AllocError> {
    let alloc = setting.alloc;
    html.begin(alloc, Tag::G, "within")?;
    for attempt in &story.attempts {
        let times = attempt_times(setting.span.to, attempt);
        let spot = setting.span.bar(&times, 15, ATTEMPTS.0, ATTEMPTS.1);
        write_attempt(html, alloc, attempt, spot)?;
    }
    html.end()
}

/// From when to when an attempt is shown: to its end, or to this moment where it is open.
fn attempt_times(last: u64, attempt: &Attempt) -> Span {
    let from = attempt.begun.milliseconds();
    match attempt.fate {
        Fate::Open | Fate::CallFailed => Span { from, to: last },
        Fate::Done | Fate::Broken(_) | Fate::Aborted | Fate::NotBegun => Span {
            from,
            to: attempt.ended.milliseconds(),
        },
    }
}

/// Writes the bar of an attempt.
fn write_attempt(
    html: &mut Html,
    alloc: Global,
    attempt: &Attempt,
    spot: Spot,
) -> Result<(), AllocError> {
    html.begin_rect(alloc, fate_class(attempt.fate), spot)?;
    html.begin(alloc, Tag::Title, "")?;
    write_change(html, alloc, attempt)?;
    html.text(alloc, ": ")?;
    write_fate(html, alloc, attempt.fate)?;
    html.text(alloc, "\nbegun ")?;
    write_time(html, alloc, attempt.begun)?;
    write_end_told(html, alloc, attempt)?;
    html.end()?;
    html.end()
}

/// Writes when an attempt ended, where it did.
fn write_end_told(html: &mut Html, alloc: Global, attempt: &Attempt) -> Result<(), AllocError> {
    match attempt.fate {
        Fate::Open | Fate::CallFailed => Ok(()),
        Fate::Done | Fate::Broken(_) | Fate::Aborted | Fate::NotBegun => {
            html.text(alloc, ", ended ")?;
            write_time(html, alloc, attempt.ended)
        }
    }
}

/// Writes what an attempt does.
pub fn write_change(html: &mut Html, alloc: Global, attempt: &Attempt) -> Result<(), AllocError> {
    match attempt.way {
        Way::Forward => {}
        Way::Undo => html.text(alloc, "undo ")?,
    }
    html.text(alloc, attempt.what.as_str())
}

/// Writes what a pointer is told that rests on an operation's bar.
fn write_hint(
    html: &mut Html,
    setting: &Setting,
    story: &OperationStory,
) -> Result<(), AllocError> {
    let alloc = setting.alloc;
    html.begin(alloc, Tag::Title, "")?;
    html.text(alloc, operation_word(story))?;
    html.text(alloc, " ")?;
    html.text(alloc, state_word(story.state))?;
    html.text(alloc, "\noccurrence ")?;
    write_occurrence(html, setting, story.occ)?;
    html.text(alloc, "\nasked for by ")?;
    html.text(alloc, role_word(story.role))?;
    write_steps_told(html, alloc, story)?;
    html.text(alloc, "\n")?;
    write_units(html, alloc, story.attempts.len() as u64, " attempts")?;
    html.end()
}

/// Writes a line for each thing that happened to an operation.
fn write_steps_told(
    html: &mut Html,
    alloc: Global,
    story: &OperationStory,
) -> Result<(), AllocError> {
    for step in &story.steps {
        html.text(alloc, "\n")?;
        write_time(html, alloc, step.moment)?;
        html.text(alloc, " ")?;
        html.text(alloc, stage_word(step.stage))?;
    }
    Ok(())
}

/// How high a row of an operation's own line is, in pixels.
const LANE: u32 = 8;

/// How high an operation's own line is at most, in pixels.
const LANES: u32 = 96;

/// Writes the line of an operation at its own scale, with a row for each attempt.
pub fn write_own_line(
    html: &mut Html,
    setting: &Setting,
    story: &OperationStory,
) -> Result<(), AllocError> {
    let alloc = setting.alloc;
    let count = story.attempts.len();
    let height = own_height(count);
    html.begin_drawing(alloc, "within-line", height)?;
    let whole = Spot {
        x: 0,
        y: 0,
        width: WHOLE,
        height: WHOLE,
    };
    write_rect(html, alloc, "life", whole)?;
    let span = times_of(setting, story);
    for (number, attempt) in story.attempts.as_slice().iter().enumerate() {
        let row = lane(number as u64, count as u64);
        let times = attempt_times(span.to, attempt);
        let spot = span.bar(&times, 100, row.0, row.1);
        write_attempt(html, alloc, attempt, spot)?;
    }
    html.end()
}

/// How high the line of so many attempts is, in pixels.
fn own_height(count: usize) -> u32 {
    let rows = (count as u64).clamp(1, 64) as u32;
    rows.saturating_mul(LANE).min(LANES)
}

/// Where the row of this number begins among so many, and how high it is, in hundredths of a per cent of the line.
fn lane(number: u64, count: u64) -> (u32, u32) {
    if count == 0 {
        return (0, WHOLE);
    }
    let whole = u64::from(WHOLE);
    let top = (number.saturating_mul(whole) / count).min(whole) as u32;
    let height = (whole / count).max(40).min(whole) as u32;
    (top, height)
}
