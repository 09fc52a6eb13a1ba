//! The body of a notice: its event is read back from the journal, and a row of the tables tells what it lacks.
ghost use Rattle.std.specs.Prelude.{◌≡◌, ◌≢◌, ◌↔◌, ◌<◌, ℕ, Err, IfOk, IsTrue, List, Some, false, length};
ghost use Rattle.executor.specs.Managed.{IsReady, Keeps};
ghost use Rattle.executor.specs.Reading.{event_in};
ghost use Rattle.journal_records.specs.declared.limits.TheConstants.{MAX_FILE};
ghost use Rattle.lcm_events.specs.declared.events.Event.{Event};
ghost use Rattle.lcm_model.specs.Allowed.{IsLegal};
ghost use Rattle.notice_table.specs.Queues.{first_waiting};
ghost use Rattle.notice_views.specs.Notice.{IsIdentified};
ghost use Rattle.occ_table.specs.Table.{IsTableOf};
ghost use Rattle.notify_outbox.specs.Dispatches.{body_at, subject_of};
ghost use Rattle.notify_outbox.specs.Reading.{ReadsBody};
ghost use Rattle.site_traits.specs.Counts.{OnlyDiskFails};
ghost use Rattle.vnfm_base.specs.Ident.{IsIdentNumber};

use crate::faults::DeliveryFault;
use executor::Manager;
use lcm_events::{Event, EventKind, OpState};
use lcm_model::op_kind;
use notice_views::{Notice, Subject, notice_body};
use occ_table::OccTable;
use site_traits::Site;
use std::alloc::Global;
use vnfm_base::Bytes;

/// Numbers that an identifier can't carry begin here.
const NUMBERS: u64 = 1 << 62;

/// The body of the notice of the event at this place to a subscription. The event is read back, and is compared with
/// nothing: what it says is what the notice tells.
///
/// Conditions: the manager isn't closed, and its file has its history; the place is that of the first notice that waits
/// for the subscription.
/// Refusals: `BadRecord(place)`, which never comes where the site tells its content; `Disk`, after which the manager is
/// closed; `Memory`. The history and the file are as before, whatever the answer.
pub fn read_body<S: Site>(
    alloc: Global,
    manager: &mut Manager<S>,
    site: &mut S,
    subscription: u64,
    place: u64,
) -> Result<Bytes, DeliveryFault>
    requires waits { (H : List Event) × IsReady S.tells manager.old H (S.state site.old)
        × (first_waiting manager.old.ledger.manager H subscription ≡ Some place) }
    ensures reads { (H : List Event) → IsReady S.tells manager.old H (S.state site.old)
        → first_waiting manager.old.ledger.manager H subscription ≡ Some place
        → ReadsBody S.tells manager.old H subscription place result manager.new (S.state site.old) (S.state site.new) }
    ensures saved { manager.new.ledger.saved ≡ manager.old.ledger.saved }
    ensures disk { OnlyDiskFails (result ≡ Err DeliveryFault.Disk) (S.counts site.old) (S.counts site.new) }
{
    let event = manager.event_at(alloc, site, place)?;
    body_of(alloc, manager, subscription, place, &event)
}

/// The body of the notice of this event.
fn body_of<S: Site>(
    alloc: Global,
    manager: &Manager<S>,
    subscription: u64,
    place: u64,
    event: &Event,
) -> Result<Bytes, DeliveryFault>
    requires usable { manager.now.ledger.closed ≡ false }
    requires waits { (H : List Event) × Keeps manager.now H
        × (first_waiting manager.now.ledger.manager H subscription ≡ Some place) }
    ensures body { (H : List Event) → Keeps manager.now H
        → first_waiting manager.now.ledger.manager H subscription ≡ Some place → event_in H place ≡ Some event.now
        → IfOk result (λ body. body_at manager.now.ledger.manager H subscription place ≡ Some body) }
    ensures good { (H : List Event) → Keeps manager.now H
        → first_waiting manager.now.ledger.manager H subscription ≡ Some place → event_in H place ≡ Some event.now
        → (n : ℕ) → result ≢ Err (DeliveryFault.BadRecord n) }
    ensures bad { (n : ℕ) → result ≡ Err (DeliveryFault.BadRecord n) → n ≡ place }
    ensures disk { result ≢ Err DeliveryFault.Disk }
    ensures full { (end more : ℕ) → result ≢ Err (DeliveryFault.Full end more) }
{
    let Some(subject) = subject_of(manager, &event.kind) else {
        return Err(DeliveryFault::BadRecord(place));
    };
    if !is_identified(subject) {
        return Err(DeliveryFault::BadRecord(place));
    }
    let notice = Notice {
        manager: manager.number(),
        subscription,
        place,
        moment: event.moment,
        subject,
    };
    let body = notice_body(alloc, &notice)?;
    Ok(body)
}

/// What the notice of an event is about; none where it makes none, or is of an occurrence that isn't there.
///
/// Source: SOL 003 5.5.2.17 to 5.5.2.19 (the notifications).
fn subject_of<S: Site>(manager: &Manager<S>, kind: &EventKind) -> Option<Subject>
    requires usable { manager.now.ledger.closed ≡ false }
    ensures subject { (H : List Event) → Keeps manager.now H → result ≡ subject_of H kind.now }
    ensures few { (H : List Event) → Keeps manager.now H → length H < MAX_FILE }
{
    let occurrences = manager.occurrences();
    match kind {
        EventKind::Created { instance, .. } => Some(Subject::Creation {
            instance: *instance,
        }),
        EventKind::Deleted { instance } => Some(Subject::Deletion {
            instance: *instance,
        }),
        EventKind::Asked(operation) => Some(Subject::Occurrence {
            occ: operation.occ,
            instance: operation.instance,
            kind: op_kind(&operation.ask),
            state: OpState::Starting,
        }),
        EventKind::Moved { occ, to } => moved_subject(occurrences, *occ, *to),
        _ => None,
    }
}

/// That an occurrence came into a state; none where it isn't there.
fn moved_subject(occurrences: &OccTable, occ: u64, to: OpState) -> Option<Subject>
    ensures { (m : ℕ) (H : List Event) → IsLegal m H → IsTableOf occurrences.now H
        → result ≡ subject_of H (EventKind.Moved occ to) }
{
    match occurrences.occurrence(occ) {
        Some(row) => Some(Subject::Occurrence {
            occ,
            instance: row.instance,
            kind: row.ask.kind(),
            state: to,
        }),
        None => None,
    }
}

/// Whether identifiers can carry the numbers of a subject.
fn is_identified(subject: Subject) -> bool
    ensures { IsTrue result ↔ IsIdentified subject }
{
    match subject {
        Subject::Creation { instance } => is_number(instance),
        Subject::Deletion { instance } => is_number(instance),
        Subject::Occurrence { occ, instance, .. } => is_number(occ) && is_number(instance),
    }
}

/// Whether an identifier can carry the number.
fn is_number(n: u64) -> bool
    ensures { IsTrue result ↔ IsIdentNumber n }
{
    1 <= n && n < NUMBERS
}
