//! The steps of an operation, as runs spell them.
//!
//! A step is a word or an array: `asked`, `granted`, a state, which it moved to, `graceful` and `forceful`;
//! `[WAY, CHANGE, ATTEMPT, AT]`, where WAY is `forward` or `undo`, and AT is `intent`, `call failed`, `done` with its
//! job behind it, `broken` with its code, `aborted` or `not begun`. Several stand for the same attempt at each of the
//! changes from FROM to before TO, in turn forward, and the last of them first where they are undone: `["intents", WAY,
//! FROM, TO, ATTEMPT]`, their intents; `["done", WAY, FROM, TO, ATTEMPT, JOB]`, that they are done, by that job and
//! those behind it;
//! `["in turn", WAY, FROM, TO, ATTEMPT, JOB, AHEAD]`, the same, and behind each the intent of the change so many ahead.

use crate::records::{At, Step};
use crate::words::{CaseFault, code, entries, small, word};
use lcm_events::{CancelMode, OpState, Way};
use serde_json::Value;
use std::alloc::Global;

/// The step of this word.
fn named(word: &str) -> Option<Step> {
    Some(match word {
        "asked" => Step::Asked,
        "granted" => Step::Granted,
        "graceful" => Step::Cancelled(CancelMode::Graceful),
        "forceful" => Step::Cancelled(CancelMode::Forceful),
        "PROCESSING" => Step::Moved(OpState::Processing),
        "COMPLETED" => Step::Moved(OpState::Completed),
        "FAILED_TEMP" => Step::Moved(OpState::FailedTemp),
        "FAILED" => Step::Moved(OpState::Failed),
        "ROLLING_BACK" => Step::Moved(OpState::RollingBack),
        "ROLLED_BACK" => Step::Moved(OpState::RolledBack),
        _ => return None,
    })
}

/// What is recorded of an attempt, as it stands from the fourth place of a step on.
fn at(step: &[Value]) -> Result<At, CaseFault> {
    Ok(match word(step, 3)? {
        "intent" => At::Intent,
        "call failed" => At::CallFailed,
        "done" => At::Done(small(step, 4)?),
        "broken" => At::Broken(code(step, 4)?),
        "aborted" => At::Aborted,
        "not begun" => At::NotBegun,
        _ => return Err(CaseFault::Spelling),
    })
}

/// The same attempt at each of several changes: from this one to before that one.
#[derive(Clone, Copy)]
struct Attempts {
    way: Way,
    from: u16,
    to: u16,
    attempt: u32,
}

/// The way of the word at this place.
fn way_at(step: &[Value], place: usize) -> Result<Way, CaseFault> {
    match word(step, place)? {
        "forward" => Ok(Way::Forward),
        "undo" => Ok(Way::Undo),
        _ => Err(CaseFault::Spelling),
    }
}

/// The attempts that a step spells from its second place on.
fn attempts_of(step: &[Value]) -> Result<Attempts, CaseFault> {
    Ok(Attempts {
        way: way_at(step, 1)?,
        from: small(step, 2)?,
        to: small(step, 3)?,
        attempt: code(step, 4)?,
    })
}

/// The change of this number of these attempts, from 0, in their order.
fn change_of(attempts: Attempts, number: u16) -> u16 {
    match attempts.way {
        Way::Forward => attempts.from.saturating_add(number),
        Way::Undo => attempts.to.saturating_sub(number).saturating_sub(1),
    }
}

/// What is recorded of an attempt at this change.
fn step_of(way: Way, change: u16, attempt: u32, at: At) -> Step {
    match way {
        Way::Forward => Step::Forward(change, attempt, at),
        Way::Undo => Step::Undo(change, attempt, at),
    }
}

/// Puts a step.
fn put(steps: &mut Vec<Step>, step: Step) -> Result<(), CaseFault> {
    steps.push(step)?;
    Ok(())
}

/// Puts what is recorded of the same attempt at this change.
fn put_step_of(
    steps: &mut Vec<Step>,
    attempts: Attempts,
    change: u16,
    at: At,
) -> Result<(), CaseFault> {
    put(steps, step_of(attempts.way, change, attempts.attempt, at))
}

/// Puts the intent of each of these attempts.
fn put_intents(steps: &mut Vec<Step>, attempts: Attempts) -> Result<(), CaseFault> {
    for number in 0..attempts.to.saturating_sub(attempts.from) {
        put_step_of(steps, attempts, change_of(attempts, number), At::Intent)?;
    }
    Ok(())
}

/// Puts that each of these attempts is done, by this job and those behind it.
fn put_done(steps: &mut Vec<Step>, attempts: Attempts, first: u16) -> Result<(), CaseFault> {
    for number in 0..attempts.to.saturating_sub(attempts.from) {
        let done = At::Done(first.saturating_add(number));
        put_step_of(steps, attempts, change_of(attempts, number), done)?;
    }
    Ok(())
}

/// The change that is so many ahead of this one in this way.
fn ahead_of(way: Way, change: u16, ahead: u16) -> u16 {
    match way {
        Way::Forward => change.saturating_add(ahead),
        Way::Undo => change.saturating_sub(ahead),
    }
}

/// Puts that each of these attempts is done, by this job and those behind it, and behind each the intent of the same
/// attempt at the change that is so many ahead.
fn put_in_turn(
    steps: &mut Vec<Step>,
    attempts: Attempts,
    first: u16,
    ahead: u16,
) -> Result<(), CaseFault> {
    for number in 0..attempts.to.saturating_sub(attempts.from) {
        let change = change_of(attempts, number);
        let done = At::Done(first.saturating_add(number));
        put_step_of(steps, attempts, change, done)?;
        let next = ahead_of(attempts.way, change, ahead);
        put_step_of(steps, attempts, next, At::Intent)?;
    }
    Ok(())
}

/// The step of an attempt that a list spells.
fn attempt_of(step: &[Value]) -> Result<Step, CaseFault> {
    let way = way_at(step, 0)?;
    Ok(step_of(way, small(step, 1)?, code(step, 2)?, at(step)?))
}

/// Puts the step or the steps of this list.
fn put_listed(steps: &mut Vec<Step>, step: &[Value]) -> Result<(), CaseFault> {
    match word(step, 0)? {
        "intents" => put_intents(steps, attempts_of(step)?),
        "done" => put_done(steps, attempts_of(step)?, small(step, 5)?),
        "in turn" => put_in_turn(steps, attempts_of(step)?, small(step, 5)?, small(step, 6)?),
        _ => put(steps, attempt_of(step)?),
    }
}

/// Puts the step of this word, or those of this list.
fn put_step(steps: &mut Vec<Step>, value: &Value) -> Result<(), CaseFault> {
    let Some(word) = value.as_str() else {
        return put_listed(steps, entries(value)?);
    };
    match named(word) {
        Some(step) => put(steps, step),
        None => Err(CaseFault::Spelling),
    }
}

/// The steps that are spelled so.
pub fn steps_of(alloc: Global, values: &[Value]) -> Result<Vec<Step>, CaseFault> {
    let mut steps = Vec::new(alloc);
    for value in values {
        put_step(&mut steps, value)?;
    }
    Ok(steps)
}
