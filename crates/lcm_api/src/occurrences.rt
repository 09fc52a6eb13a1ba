//! Listing and showing occurrences.
ghost use Rattle.std.specs.Prelude.{◌≡◌, List, IfOk, false, option_and_then};
ghost use Rattle.lcm_events.specs.declared.events.Event.{Event};
ghost use Rattle.executor.specs.Managed.{Keeps};
ghost use Rattle.instance_table.specs.Rows.{rows};
ghost use Rattle.json_views.specs.Occurrences.{IsOccurrenceShowable};
ghost use Rattle.lcm_api.specs.Occurrences.{list_occurrences, named_operation, no_occurrence, show_asked};
ghost use Rattle.lcm_api.specs.Occurrences.{show_occurrence, show_row};
ghost use Rattle.lcm_api.specs.Recording.{IsPlanned};
ghost use Rattle.lcm_api.specs.Planning.{told};
ghost use Rattle.lcm_model.specs.Operations.{operation};

use crate::instances::asked_id;
use crate::record::Planned;
use executor::Manager;
use http_wire::Request;
use json_views::{legal_occurrences_can_be_shown, occurrence_view, occurrences_view};
use lcm_replies::{Reply, refusal, shown};
use lcm_routes::asks_filter;
use occ_table::OccRow;
use site_traits::Site;
use std::alloc::{AllocError, Global};
use vnfm_base::{Kind, ident_read};

/// Lists the occurrences of the 10,000 greatest numbers, in the order of their numbers. A filter is refused.
///
/// Source: SOL 003 5.4.12.3.2; the limit is an own rule.
pub fn list<S: Site>(
    alloc: Global,
    manager: &Manager<S>,
    request: &Request,
) -> Result<Planned, AllocError>
    requires usable { manager.now.ledger.closed ≡ false }
    requires kept { (H : List Event) × Keeps manager.now H }
    ensures { (H : List Event) → Keeps manager.now H → IfOk result
        (IsPlanned (list_occurrences manager.now.ledger.manager H request.now) manager.now H) }
{
    legal_occurrences_can_be_shown();
    if asks_filter(request.target.as_str()) {
        return Ok(Planned::Told(refusal(alloc, 400, "filter is not served", request.last)?));
    }
    let body = occurrences_view(
        alloc,
        manager.number(),
        manager.instances(),
        manager.occurrences(),
    )?;
    Ok(Planned::Told(shown(body, request.last)))
}

/// Shows an occurrence.
///
/// Source: SOL 003 5.4.13.3.2.
pub fn show<S: Site>(
    alloc: Global,
    manager: &Manager<S>,
    request: &Request,
) -> Result<Planned, AllocError>
    requires usable { manager.now.ledger.closed ≡ false }
    requires kept { (H : List Event) × Keeps manager.now H }
    ensures { (H : List Event) → Keeps manager.now H → IfOk result
        (IsPlanned (show_occurrence manager.now.ledger.manager H request.now) manager.now H) }
{
    let reply = match named_number(manager, asked_id(request)) {
        Some(n) => show_number(alloc, manager, n, request.last)?,
        None => no_occurrence(alloc, request.last)?,
    };
    Ok(Planned::Told(reply))
}

/// The number of the occurrence that has this identifier, where there is one of that number; none where the identifier
/// is no occurrence's.
pub fn named_number<S: Site>(manager: &Manager<S>, id: &str) -> Option<u64>
    requires usable { manager.now.ledger.closed ≡ false }
    ensures { (H : List Event) → Keeps manager.now H → named_operation manager.now.ledger.manager H id.now
        ≡ option_and_then (operation H) result }
{
    legal_occurrences_can_be_shown();
    let _table = manager.occurrences();
    ident_read(id.as_bytes(), manager.number(), Kind::Occurrence)
}

/// Shows the occurrence of this number, where there is one.
fn show_number<S: Site>(
    alloc: Global,
    manager: &Manager<S>,
    n: u64,
    last: bool,
) -> Result<Reply, AllocError>
    requires usable { manager.now.ledger.closed ≡ false }
    requires kept { (H : List Event) × Keeps manager.now H }
    ensures { (H : List Event) → Keeps manager.now H → IfOk result
        (λ reply. show_asked manager.now.ledger.manager H last (operation H n) ≡ told reply) }
{
    legal_occurrences_can_be_shown();
    match manager.occurrences().occurrence(n) {
        Some(row) => show_row(alloc, manager, n, row, last),
        None => no_occurrence(alloc, last),
    }
}

/// Shows the occurrence of this number, of this row.
pub fn show_row<S: Site>(
    alloc: Global,
    manager: &Manager<S>,
    n: u64,
    row: &OccRow,
    last: bool,
) -> Result<Reply, AllocError>
    requires usable { manager.now.ledger.closed ≡ false }
    requires showable { (H : List Event) × Keeps manager.now H × IsOccurrenceShowable (rows H) n row.now }
    ensures { (H : List Event) → Keeps manager.now H → IsOccurrenceShowable (rows H) n row.now
        → IfOk result (λ reply. show_row manager.now.ledger.manager H last n row.now ≡ told reply) }
{
    let Some(vnfd) = manager.instances().vnfd(&row.vnfd.name()) else {
        unreachable!()
    };
    let body = occurrence_view(alloc, manager.number(), n, row, vnfd)?;
    Ok(shown(body, last))
}

/// The refusal where no occurrence has the identifier.
pub fn no_occurrence(alloc: Global, last: bool) -> Result<Reply, AllocError>
    ensures { IfOk result (λ reply. no_occurrence last ≡ told reply) }
{
    refusal(alloc, 404, "no such occurrence", last)
}
