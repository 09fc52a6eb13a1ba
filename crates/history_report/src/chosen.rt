//! Which events are told of.
ghost use Rattle.std.specs.Prelude.{◌≡◌, List, false, option_copied};
ghost use Rattle.executor.specs.Managed.{Keeps};
ghost use Rattle.lcm_events.specs.declared.events.Event.{Event};
ghost use Rattle.lcm_model.specs.Operations.{occurrence_of};
ghost use Rattle.history_report.specs.Chosen.{instance_of, is_chosen, is_wanted, occurrence_in, row_of, vnfd_of};

use executor::Manager;
use lcm_events::{EventKind, Vnfd};
use occ_table::OccRow;
use site_traits::Site;

/// Which events are told of: those about this instance and this occurrence, or about any where none is named.
#[derive(Clone, Copy)]
pub struct Chosen {
    /// The number of the instance.
    pub instance: Option<u64>,
    /// The number of the occurrence.
    pub occurrence: Option<u64>,
}

impl Chosen {
    /// Whether the events are about what is asked for, by the row of the occurrence that the event is about.
    pub(crate) fn takes(self, row: Option<&OccRow>, kind: &EventKind) -> bool
        ensures { result ≡ is_chosen self (option_copied row.entry) kind.now }
    {
        is_wanted(self.instance, instance_of(row, kind))
            && is_wanted(self.occurrence, occurrence_in(kind))
    }
}

/// Whether nothing is asked for, or what is found is what is asked for.
fn is_wanted(asked: Option<u64>, found: Option<u64>) -> bool
    ensures { result ≡ is_wanted asked found }
{
    match (asked, found) {
        (None, _) => true,
        (Some(_), None) => false,
        (Some(asked), Some(found)) => asked == found,
    }
}

/// The occurrence that an event is about which was asked for before it.
fn occurrence_of(kind: &EventKind) -> Option<u64>
    ensures { result ≡ occurrence_of kind.now }
{
    match kind {
        EventKind::GrantTried { occ, .. }
        | EventKind::Granted { occ, .. }
        | EventKind::Denied { occ }
        | EventKind::Moved { occ, .. }
        | EventKind::CancelAsked { occ, .. } => Some(*occ),
        EventKind::Intent(tag) | EventKind::CallFailed(tag) | EventKind::Settled { tag, .. } => {
            Some(tag.occ)
        }
        EventKind::Onboarded(_)
        | EventKind::Created { .. }
        | EventKind::Deleted { .. }
        | EventKind::Asked(_)
        | EventKind::Subscribed { .. }
        | EventKind::Unsubscribed { .. }
        | EventKind::Posted { .. } => None,
    }
}

/// The occurrence that an event is about, or that it asks for.
fn occurrence_in(kind: &EventKind) -> Option<u64>
    ensures { result ≡ occurrence_in kind.now }
{
    match kind {
        EventKind::Asked(operation) => Some(operation.occ),
        _ => occurrence_of(kind),
    }
}

/// The instance that an event is about, by the row of its occurrence.
fn instance_of(row: Option<&OccRow>, kind: &EventKind) -> Option<u64>
    ensures { result ≡ instance_of (option_copied row.entry) kind.now }
{
    match kind {
        EventKind::Created { instance, .. } | EventKind::Deleted { instance } => Some(*instance),
        EventKind::Asked(operation) => Some(operation.instance),
        EventKind::Onboarded(_)
        | EventKind::GrantTried { .. }
        | EventKind::Granted { .. }
        | EventKind::Denied { .. }
        | EventKind::Intent(_)
        | EventKind::CallFailed(_)
        | EventKind::Settled { .. }
        | EventKind::Moved { .. }
        | EventKind::CancelAsked { .. }
        | EventKind::Subscribed { .. }
        | EventKind::Unsubscribed { .. }
        | EventKind::Posted { .. } => match row {
            Some(row) => Some(row.instance),
            None => None,
        },
    }
}

/// The row of the occurrence that an event is about.
pub(crate) fn row_of<'a, S: Site>(manager: &'a Manager<S>, kind: &EventKind) -> Option<&'a OccRow>
    requires usable { manager.now.ledger.closed ≡ false }
    ensures { (H : List Event) → Keeps manager.now H → option_copied result ≡ row_of H kind.now }
{
    match occurrence_of(kind) {
        Some(occ) => manager.occurrences().occurrence(occ),
        None => None,
    }
}

/// The descriptor of the instance of an occurrence with this row.
pub(crate) fn vnfd_of<'a, S: Site>(
    manager: &'a Manager<S>,
    row: Option<&OccRow>,
) -> Option<&'a Vnfd>
    ensures { (H : List Event) → Keeps manager.now H → option_copied result ≡ vnfd_of H (option_copied row.entry) }
{
    match row {
        Some(row) => manager.vnfd(&row.vnfd.name()),
        None => None,
    }
}

/// The row of the occurrence that an event is about, or asks for.
pub(crate) fn asked_row<'a, S: Site>(
    manager: &'a Manager<S>,
    kind: &EventKind,
) -> Option<&'a OccRow>
    requires usable { manager.now.ledger.closed ≡ false }
{
    match occurrence_in(kind) {
        Some(occ) => manager.occurrences().occurrence(occ),
        None => None,
    }
}

/// Whether an event is about no occurrence, or about one of a greater number than this.
pub(crate) fn is_behind(behind: u64, kind: &EventKind) -> bool {
    match occurrence_in(kind) {
        Some(occ) => behind < occ,
        None => true,
    }
}
