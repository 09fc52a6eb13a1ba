//! Events and their parts, which are handed over as the bytes of events.

use crate::jobs::tag_text;
use crate::words::{CaseFault, word};
use event_codec::{DecodeFault, decode};
use lcm_events::{
    Ask, CancelMode, Event, EventKind, GrantTry, OpState, Operation, Outcome, PostOutcome, Tag,
    Vnfd,
};
use serde_json::Value;
use std::alloc::{AllocError, Global};
use vnfm_base::Name;

/// The event of which these are the bytes.
pub fn event_of(alloc: Global, bytes: &[u8]) -> Result<Event, CaseFault> {
    match decode(alloc, bytes) {
        Ok(event) => Ok(event),
        Err(DecodeFault::NotEvent) => Err(CaseFault::Spelling),
        Err(DecodeFault::Memory) => Err(CaseFault::Memory),
    }
}

/// The operation that an event says was asked for.
pub fn operation(event: &Event) -> Result<&Operation, CaseFault> {
    match &event.kind {
        EventKind::Asked(operation) => Ok(operation),
        _ => Err(CaseFault::Spelling),
    }
}

/// The descriptor that an event says was onboarded.
pub fn descriptor(event: &Event) -> Result<&Vnfd, CaseFault> {
    match &event.kind {
        EventKind::Onboarded(vnfd) => Ok(vnfd),
        _ => Err(CaseFault::Spelling),
    }
}

/// The name at this place of an act.
pub fn name(act: &[Value], place: usize) -> Result<Name, CaseFault> {
    match Name::of(word(act, place)?.as_bytes()) {
        Some(name) => Ok(name),
        None => Err(CaseFault::Spelling),
    }
}

/// The word for what an event says that happened, and the number of what it happened to: of an instance, an occurrence
/// or a subscription; 0 for a descriptor.
pub fn about(event: &Event) -> (&'static str, u64) {
    match &event.kind {
        EventKind::Onboarded(_) => ("onboarded", 0),
        EventKind::Created { instance, .. } => ("created", *instance),
        EventKind::Deleted { instance } => ("deleted", *instance),
        EventKind::Asked(operation) => ("asked", operation.occ),
        EventKind::GrantTried { occ, .. } => ("grant tried", *occ),
        EventKind::Granted { occ, .. } => ("granted", *occ),
        EventKind::Denied { occ } => ("denied", *occ),
        EventKind::Intent(tag) => ("intent", tag.occ),
        EventKind::CallFailed(tag) => ("call failed", tag.occ),
        EventKind::Settled { tag, .. } => ("settled", tag.occ),
        EventKind::Moved { occ, .. } => ("moved", *occ),
        EventKind::CancelAsked { occ, .. } => ("cancel asked", *occ),
        EventKind::Subscribed { subscription, .. } => ("subscribed", *subscription),
        EventKind::Unsubscribed { subscription } => ("unsubscribed", *subscription),
        EventKind::Posted { subscription, .. } => ("posted", *subscription),
    }
}

/// An event by its kind and its fields: what happened, to the one of which number, when, and what else is said of it.
/// Of lists only the lengths are told.
pub fn event_text(alloc: Global, event: &Event) -> Result<String, AllocError> {
    let (word, number) = about(event);
    let moment = event.moment.milliseconds();
    let fields = fields_text(alloc, &event.kind)?;
    format!(in alloc; "{word} {number} at {moment}{fields}")
}

/// The fields of an event behind its number, each behind a comma.
fn fields_text(alloc: Global, kind: &EventKind) -> Result<String, AllocError> {
    match kind {
        EventKind::Onboarded(vnfd) => vnfd_text(alloc, vnfd),
        EventKind::Created {
            instance: _,
            vnfd,
            name,
            text,
        } => created_text(alloc, vnfd, name, text.is_some()),
        EventKind::Asked(operation) => operation_text(alloc, operation),
        EventKind::GrantTried { occ: _, answer } => tried_text(alloc, answer),
        EventKind::Granted {
            occ: _,
            grant,
            places,
            spots,
        } => format!(in alloc;
            ", {grant:?}, {} places of {} changes",
            places.len(),
            spots.len()
        ),
        EventKind::Intent(tag) | EventKind::CallFailed(tag) => behind_comma(alloc, *tag),
        EventKind::Settled { tag, outcome } => settled_text(alloc, *tag, *outcome),
        EventKind::Moved { occ: _, to } => format!(in alloc; ", to {}", state_word(*to)),
        EventKind::CancelAsked { occ: _, mode } => format!(in alloc; ", {}", mode_word(*mode)),
        EventKind::Subscribed {
            subscription: _,
            role: _,
            callback,
            filter: _,
        } => { format!(in alloc; ", to {}", callback.as_str()) }
        EventKind::Posted {
            subscription: _,
            place,
            outcome,
        } => { format!(in alloc; ", of event {place}, {}", post_word(*outcome)) }
        _ => Ok(String::new(alloc)),
    }
}

/// A descriptor by its name and how much it has.
fn vnfd_text(alloc: Global, vnfd: &Vnfd) -> Result<String, AllocError> {
    let (name, vdus) = (vnfd.descriptor_id, vnfd.vdus.len());
    let (aspects, levels) = (vnfd.aspects.len(), vnfd.levels.len());
    format!(in alloc; ", {name:?}, {vdus} vdus, {aspects} aspects, {levels} levels")
}

/// What an instance was created of, its name where it has one, and whether it is described.
fn created_text(
    alloc: Global,
    vnfd: &Name,
    name: &Option<Name>,
    is_described: bool,
) -> Result<String, AllocError> {
    let behind = if is_described { ", described" } else { "" };
    match name {
        Some(name) => format!(in alloc; ", of {vnfd:?}, named {name:?}{behind}"),
        None => format!(in alloc; ", of {vnfd:?}{behind}"),
    }
}

/// What was asked for, of which instance, and how many changes that takes.
fn operation_text(alloc: Global, operation: &Operation) -> Result<String, AllocError> {
    let (instance, word) = (operation.instance, ask_word(&operation.ask));
    let changes = operation.changes.len();
    format!(in alloc; ", of instance {instance}, {word}, {changes} changes")
}

/// The word of what was asked for.
fn ask_word(ask: &Ask) -> &'static str {
    match ask {
        Ask::Instantiate { .. } => "INSTANTIATE",
        Ask::Scale { .. } => "SCALE",
        Ask::ScaleToLevel(_) => "SCALE_TO_LEVEL",
        Ask::Heal { .. } => "HEAL",
        Ask::Operate { .. } => "OPERATE",
        Ask::Terminate { .. } => "TERMINATE",
    }
}

/// What came of a grant request that led to no grant.
fn tried_text(alloc: Global, answer: &GrantTry) -> Result<String, AllocError> {
    match answer {
        GrantTry::Later(location) => format!(in alloc; ", later at {}", location.as_str()),
        GrantTry::Trouble => String::from_str(alloc, ", trouble"),
        GrantTry::NotCovering => String::from_str(alloc, ", not covering"),
    }
}

/// An attempt behind a comma.
fn behind_comma(alloc: Global, tag: Tag) -> Result<String, AllocError> {
    let tag = tag_text(alloc, tag)?;
    format!(in alloc; ", {tag}")
}

/// An attempt and how it ended.
fn settled_text(alloc: Global, tag: Tag, outcome: Outcome) -> Result<String, AllocError> {
    let tag = tag_text(alloc, tag)?;
    match outcome {
        Outcome::Done(name) => format!(in alloc; ", {tag}, done {}", name.as_str()),
        Outcome::Broken(code) => format!(in alloc; ", {tag}, broken {code}"),
        Outcome::Aborted => format!(in alloc; ", {tag}, aborted"),
        Outcome::NotBegun => format!(in alloc; ", {tag}, not begun"),
    }
}

/// The word of a state.
fn state_word(state: OpState) -> &'static str {
    match state {
        OpState::Starting => "STARTING",
        OpState::Processing => "PROCESSING",
        OpState::Completed => "COMPLETED",
        OpState::FailedTemp => "FAILED_TEMP",
        OpState::Failed => "FAILED",
        OpState::RollingBack => "ROLLING_BACK",
        OpState::RolledBack => "ROLLED_BACK",
    }
}

/// The word of a mode of cancel.
fn mode_word(mode: CancelMode) -> &'static str {
    match mode {
        CancelMode::Graceful => "GRACEFUL",
        CancelMode::Forceful => "FORCEFUL",
    }
}

/// The word for how a post ended.
fn post_word(outcome: PostOutcome) -> &'static str {
    match outcome {
        PostOutcome::Delivered => "delivered",
        PostOutcome::NotTaken => "not taken",
    }
}
