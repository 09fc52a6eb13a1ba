//! An event to its bytes: its one spelling, or how long that is where it is longer than a record.
ghost use Rattle.std.specs.Prelude.{◌≡◌, ◌≤◌, ◌↔◌, IsOk, OnOk, IfErr, length};
ghost use Rattle.event_codec.specs.Numbers as number;
ghost use Rattle.event_codec.specs.Spell.{spelling, kind_number, fields};
ghost use Rattle.event_codec.specs.Typed.{TypedEvent, TypedKind};
ghost use Rattle.event_codec.specs.Valid.{IsEvent};
ghost use Rattle.vnfm_base.specs.declared.limits.TheConstants.{MAX_RECORD};
ghost use Rattle.event_codec.specs.Written.{nothing, put};

use crate::numbers;
use crate::record_buf::RecordBuf;
use crate::write_lists::{few, many, optional};
use crate::write_parts::{filter, grant_try, operation, outcome, tag, vnfd};
use lcm_events::{Event, EventKind};
use thiserror::Error;
use vnfm_base::MAX_RECORD;

/// The event has so many bytes, more than a record holds.
#[derive(Debug, Drop, Error)]
#[error("{0} bytes, more than a record holds")]
pub struct TooLong(pub u64);

/// Puts the event's one spelling into the buffer, in place of what was there. Takes no memory.
///
/// Condition: the event keeps the format's rules on lists, orders and values.
/// Refusal: `TooLong(n)` exactly where the spelling has n bytes, more than 65,536.
/// Source: own format, docs/EVENTS.md.
pub fn encode(event: &Event, buf: &mut RecordBuf) -> Result<(), TooLong>
    requires rules { TypedEvent event.now → IsEvent event.now }
    ensures event { IsEvent event.now }
    ensures ok { OnOk result (buf.new.kept ≡ spelling event.now) }
    ensures fits { IsOk result ↔ (length (spelling event.now) ≤ MAX_RECORD) }
    ensures too_long { IfErr result (λ fault. fault.0 ≡ length (spelling event.now)) }
{
    buf.clear();
    put_event(buf, event);
    let len = buf.put_len();
    if len > MAX_RECORD as u64 {
        return Err(TooLong(len));
    }
    Ok(())
}

/// The number of the kind, the moment and the fields.
#[tactic(auto, using(crate::proofs::Puts::put_twice), unfolding(crate::specs::Spell::spelling))]
fn put_event(out: &mut RecordBuf, event: &Event)
    ensures spelled { out.new ≡ put out.old (spelling event.now) }
    ensures typed { TypedEvent event.now }
{
    out.u8(number_of_kind(&event.kind));
    out.u64(event.moment.milliseconds());
    put_kind(out, &event.kind);
}

fn number_of_kind(kind: &EventKind) -> u8
    ensures { result ≡ kind_number kind.now }
{
    match kind {
        EventKind::Onboarded(_) => 1,
        EventKind::Created { .. } => 2,
        EventKind::Deleted { .. } => 3,
        EventKind::Asked(_) => 4,
        EventKind::GrantTried { .. } => 5,
        EventKind::Granted { .. } => 6,
        EventKind::Denied { .. } => 7,
        EventKind::Intent(_) => 8,
        EventKind::CallFailed(_) => 9,
        EventKind::Settled { .. } => 10,
        EventKind::Moved { .. } => 11,
        EventKind::CancelAsked { .. } => 12,
        EventKind::Subscribed { .. } => 13,
        EventKind::Unsubscribed { .. } => 14,
        EventKind::Posted { .. } => 15,
    }
}

/// The fields of the kind.
#[tactic(auto, using(crate::proofs::Puts::put_twice))]
fn put_kind(out: &mut RecordBuf, kind: &EventKind)
    ensures spelled { out.new ≡ put out.old (fields kind.now) }
    ensures typed { TypedKind kind.now }
{
    match kind {
        EventKind::Onboarded(descriptor) => vnfd(out, descriptor),
        EventKind::Created {
            instance,
            vnfd,
            name,
            text,
        } => {
            out.u64(*instance);
            out.name(vnfd);
            optional(out, name);
            optional(out, text);
        }
        EventKind::Deleted { instance } => out.u64(*instance),
        EventKind::Asked(asked) => operation(out, asked),
        EventKind::GrantTried { occ, answer } => {
            out.u64(*occ);
            grant_try(out, answer);
        }
        EventKind::Granted {
            occ,
            grant,
            places,
            spots,
        } => {
            out.u64(*occ);
            out.name(grant);
            few(out, places);
            many(out, spots);
        }
        EventKind::Denied { occ } => out.u64(*occ),
        EventKind::Intent(attempt) => tag(out, attempt),
        EventKind::CallFailed(attempt) => tag(out, attempt),
        EventKind::Settled {
            tag: attempt,
            outcome: how,
        } => {
            tag(out, attempt);
            outcome(out, how);
        }
        EventKind::Moved { occ, to } => {
            out.u64(*occ);
            out.u8(numbers::op_state(*to));
        }
        EventKind::CancelAsked { occ, mode } => {
            out.u64(*occ);
            out.u8(numbers::cancel_mode(*mode));
        }
        EventKind::Subscribed {
            subscription,
            role,
            callback,
            filter: asked,
        } => {
            out.u64(*subscription);
            out.u8(numbers::role(*role));
            out.line(callback);
            filter(out, asked);
        }
        EventKind::Unsubscribed { subscription } => out.u64(*subscription),
        EventKind::Posted {
            subscription,
            place,
            outcome: how,
        } => {
            out.u64(*subscription);
            out.u64(*place);
            out.u8(numbers::post_outcome(*how));
        }
    }
}
