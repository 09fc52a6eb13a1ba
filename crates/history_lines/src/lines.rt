//! The line of an event.
ghost use Rattle.std.specs.Prelude.{◌≡◌, ◌++◌, OnOk, codes, option_copied};
ghost use Rattle.history_lines.specs.Lines.{asked_words, ended_words, line, name_words, posted_words, tried_words, words};
ghost use Rattle.history_lines.specs.Words.{attempt_words, instance_words, role_word, subscription_words};

use crate::attempts::push_attempt;
use crate::words::{
    cancel_word, operation_word, push, push_instance, push_moment, push_number, push_occurrence,
    push_subscription, role_word,
};
use json_views::state_word;
use lcm_events::{Event, EventKind, GrantTry, Operation, Outcome, PostOutcome, Role, Tag, Vnfd};
use occ_table::OccRow;
use std::alloc::AllocError;
use vnfm_base::{Line, Name};

/// Adds the line of event `n` of a journal of this manager, with its line feed: its number, its moment, what happened,
/// and what it is about. Of an attempt it tells also what it does and to which resource, by the row of its occurrence
/// and by the descriptor of its instance, where these are given.
///
/// Out of memory, the text is of no further use. The time is linear in the line.
/// Source: SOL 003 5.5.4 (the words of states and modes); own format, docs/FORMATS.md.
#[tactic(auto, unfolding(crate::specs::Lines::line))]
pub fn push_line(
    text: &mut Vec<u8>,
    manager: u32,
    n: u64,
    event: &Event,
    row: Option<&OccRow>,
    vnfd: Option<&Vnfd>,
) -> Result<(), AllocError>
    ensures { OnOk result (text.new.items ≡ text.old.items
        ++ line manager n event.now (option_copied row.entry) (option_copied vnfd.entry)) }
{
    push_number(text, n)?;
    push(text, b" ")?;
    push_moment(text, event.moment)?;
    push(text, b" ")?;
    push_words(text, manager, &event.kind, row, vnfd)?;
    push(text, b"\n")
}

/// Adds what happened, and what it is about.
fn push_words(
    text: &mut Vec<u8>,
    manager: u32,
    kind: &EventKind,
    row: Option<&OccRow>,
    vnfd: Option<&Vnfd>,
) -> Result<(), AllocError>
    ensures { OnOk result (text.new.items ≡ text.old.items
        ++ words manager kind.now (option_copied row.entry) (option_copied vnfd.entry)) }
{
    match kind {
        EventKind::Onboarded(vnfd) => {
            push(text, b"ONBOARDED vnfdId ")?;
            push(text, vnfd.descriptor_id.as_bytes())?;
        }
        EventKind::Created {
            instance,
            vnfd,
            name,
            ..
        } => push_created(text, manager, *instance, vnfd, name)?,
        EventKind::Deleted { instance } => {
            push(text, b"DELETED")?;
            push_instance(text, manager, *instance)?;
        }
        EventKind::Asked(operation) => push_asked(text, manager, operation)?,
        EventKind::GrantTried { occ, answer } => push_tried(text, manager, *occ, answer)?,
        EventKind::Granted { occ, grant, .. } => {
            push(text, b"GRANTED")?;
            push_occurrence(text, manager, *occ)?;
            push(text, b" grantId ")?;
            push(text, grant.as_bytes())?;
        }
        EventKind::Denied { occ } => {
            push(text, b"GRANT_DENIED")?;
            push_occurrence(text, manager, *occ)?;
        }
        EventKind::Intent(tag) => {
            push(text, b"BEGIN")?;
            push_attempt(text, manager, tag, row, vnfd)?;
        }
        EventKind::CallFailed(tag) => {
            push(text, b"CALL_FAILED")?;
            push_attempt(text, manager, tag, row, vnfd)?;
        }
        EventKind::Settled { tag, outcome } => {
            push_ended(text, manager, tag, outcome, row, vnfd)?;
        }
        EventKind::Moved { occ, to } => {
            push(text, state_word(*to).as_bytes())?;
            push_occurrence(text, manager, *occ)?;
        }
        EventKind::CancelAsked { occ, mode } => {
            push(text, b"CANCEL")?;
            push_occurrence(text, manager, *occ)?;
            push(text, b" cancelMode ")?;
            push(text, cancel_word(*mode).as_bytes())?;
        }
        EventKind::Subscribed {
            subscription,
            role,
            callback,
            ..
        } => push_subscribed(text, manager, *subscription, *role, callback)?,
        EventKind::Unsubscribed { subscription } => {
            push(text, b"UNSUBSCRIBED")?;
            push_subscription(text, manager, *subscription)?;
        }
        EventKind::Posted {
            subscription,
            place,
            outcome,
        } => push_posted(text, manager, *subscription, *place, *outcome)?,
    }
    Ok(())
}

/// Adds that an instance was created.
fn push_created(
    text: &mut Vec<u8>,
    manager: u32,
    instance: u64,
    vnfd: &Name,
    name: &Option<Name>,
) -> Result<(), AllocError>
    ensures { OnOk result (text.new.items ≡ text.old.items ++ (codes "CREATED" ++ instance_words manager instance
        ++ codes " vnfdId " ++ vnfd.now ++ name_words name.now)) }
{
    push(text, b"CREATED")?;
    push_instance(text, manager, instance)?;
    push(text, b" vnfdId ")?;
    push(text, vnfd.as_bytes())?;
    push_name(text, name)
}

/// Adds the name of an instance, where it has one.
fn push_name(text: &mut Vec<u8>, name: &Option<Name>) -> Result<(), AllocError>
    ensures { OnOk result (text.new.items ≡ text.old.items ++ name_words name.now) }
{
    match name {
        Some(name) => {
            push(text, b" vnfInstanceName ")?;
            push(text, name.as_bytes())?;
            Ok(())
        }
        None => Ok(()),
    }
}

/// Adds that an operation was asked for.
#[tactic(auto, unfolding(crate::specs::Lines::asked_words))]
fn push_asked(text: &mut Vec<u8>, manager: u32, operation: &Operation) -> Result<(), AllocError>
    ensures { OnOk result (text.new.items ≡ text.old.items ++ asked_words manager operation.now) }
{
    push(text, b"STARTING")?;
    push_occurrence(text, manager, operation.occ)?;
    push_instance(text, manager, operation.instance)?;
    push(text, b" operation ")?;
    push(text, operation_word(&operation.ask).as_bytes())?;
    push(text, b" changes ")?;
    push_number(text, operation.changes.len() as u64)?;
    push(text, b" by ")?;
    push(text, role_word(operation.role).as_bytes())
}

/// Adds an answer to a grant request that is no grant.
fn push_tried(
    text: &mut Vec<u8>,
    manager: u32,
    occ: u64,
    answer: &GrantTry,
) -> Result<(), AllocError>
    ensures { OnOk result (text.new.items ≡ text.old.items ++ tried_words manager occ answer.now) }
{
    match answer {
        GrantTry::Later(location) => {
            push(text, b"GRANT_LATER")?;
            push_occurrence(text, manager, occ)?;
            push(text, b" at ")?;
            push(text, location.as_bytes())?;
        }
        GrantTry::Trouble => {
            push(text, b"GRANT_TROUBLE")?;
            push_occurrence(text, manager, occ)?;
        }
        GrantTry::NotCovering => {
            push(text, b"GRANT_NOT_COVERING")?;
            push_occurrence(text, manager, occ)?;
        }
    }
    Ok(())
}

/// Adds how an attempt ended.
fn push_ended(
    text: &mut Vec<u8>,
    manager: u32,
    tag: &Tag,
    outcome: &Outcome,
    row: Option<&OccRow>,
    vnfd: Option<&Vnfd>,
) -> Result<(), AllocError>
    ensures { OnOk result (text.new.items ≡ text.old.items
        ++ ended_words manager tag.now outcome.now (option_copied row.entry) (option_copied vnfd.entry)) }
{
    match outcome {
        Outcome::Done(resource) => push_done(text, manager, tag, resource, row, vnfd)?,
        Outcome::Broken(code) => {
            push(text, b"BROKEN")?;
            push_attempt(text, manager, tag, row, vnfd)?;
            push(text, b" code ")?;
            push_number(text, u64::from(*code))?;
        }
        Outcome::Aborted => {
            push(text, b"ABORTED")?;
            push_attempt(text, manager, tag, row, vnfd)?;
        }
        Outcome::NotBegun => {
            push(text, b"NOT_BEGUN")?;
            push_attempt(text, manager, tag, row, vnfd)?;
        }
    }
    Ok(())
}

/// Adds an attempt that was done, with its resource.
fn push_done(
    text: &mut Vec<u8>,
    manager: u32,
    tag: &Tag,
    resource: &Name,
    row: Option<&OccRow>,
    vnfd: Option<&Vnfd>,
) -> Result<(), AllocError>
    ensures { OnOk result (text.new.items ≡ text.old.items ++ (codes "DONE"
        ++ attempt_words manager tag.now (option_copied row.entry) (option_copied vnfd.entry)
        ++ codes " resourceId " ++ resource.now)) }
{
    push(text, b"DONE")?;
    push_attempt(text, manager, tag, row, vnfd)?;
    push(text, b" resourceId ")?;
    push(text, resource.as_bytes())?;
    Ok(())
}

/// Adds that a subscription was made.
fn push_subscribed(
    text: &mut Vec<u8>,
    manager: u32,
    subscription: u64,
    role: Role,
    callback: &Line,
) -> Result<(), AllocError>
    ensures { OnOk result (text.new.items ≡ text.old.items ++ (codes "SUBSCRIBED"
        ++ subscription_words manager subscription ++ codes " by " ++ role_word role ++ codes " callbackUri "
        ++ callback.now)) }
{
    push(text, b"SUBSCRIBED")?;
    push_subscription(text, manager, subscription)?;
    push(text, b" by ")?;
    push(text, role_word(role).as_bytes())?;
    push(text, b" callbackUri ")?;
    push(text, callback.as_bytes())?;
    Ok(())
}

/// Adds a post of the notice of the event at this place.
fn push_posted(
    text: &mut Vec<u8>,
    manager: u32,
    subscription: u64,
    place: u64,
    outcome: PostOutcome,
) -> Result<(), AllocError>
    ensures { OnOk result (text.new.items ≡ text.old.items ++ posted_words manager subscription place outcome) }
{
    match outcome {
        PostOutcome::Delivered => push(text, b"NOTICE_TAKEN")?,
        PostOutcome::NotTaken => push(text, b"NOTICE_NOT_TAKEN")?,
    }
    push_subscription(text, manager, subscription)?;
    push(text, b" event ")?;
    push_number(text, place)
}
