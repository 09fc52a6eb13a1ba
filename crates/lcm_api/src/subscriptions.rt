//! Listing, showing and ending subscriptions.
ghost use Rattle.std.specs.Prelude.{◌≡◌, List, IfOk, IfSome, false, option_copied, option_map};
ghost use Rattle.lcm_events.specs.declared.events.Event.{Event};
ghost use Rattle.executor.specs.Managed.{Keeps};
ghost use Rattle.instance_table.specs.Rows.{subscription_row};
ghost use Rattle.instance_table.specs.Table.{is_role_of};
ghost use Rattle.lcm_api.specs.Recording.{IsPlanned};
ghost use Rattle.lcm_api.specs.Planning.{told};
ghost use Rattle.lcm_api.specs.Subscriptions.{end_subscription, list_subscriptions, named_subscription};
ghost use Rattle.lcm_api.specs.Subscriptions.{no_subscription, show_subscription, unsubscription};
ghost use Rattle.vnfm_base.specs.Ident.{IsIdentNumber};

use crate::instances::{asked_id, deleted};
use crate::record::Planned;
use executor::Manager;
use http_wire::Request;
use instance_table::SubscriptionRow;
use json_views::{subscription_view, subscriptions_view};
use lcm_events::{Event, EventKind, Role};
use lcm_replies::{Reply, refusal, shown};
use lcm_routes::asks_filter;
use site_traits::Site;
use std::alloc::{AllocError, Global};
use vnfm_base::{Kind, Moment, ident_read};

/// Lists the live subscriptions of the asking role, in the order of their numbers. A filter is refused.
///
/// Source: SOL 003 5.4.18.3.2 (GET on Subscriptions).
pub fn list<S: Site>(
    alloc: Global,
    manager: &Manager<S>,
    role: Role,
    request: &Request,
) -> Result<Planned, AllocError>
    requires usable { manager.now.ledger.closed ≡ false }
    requires kept { (H : List Event) × Keeps manager.now H }
    ensures { (H : List Event) → Keeps manager.now H → IfOk result
        (IsPlanned (list_subscriptions manager.now.ledger.manager H role request.now) manager.now H) }
{
    if asks_filter(request.target.as_str()) {
        return Ok(Planned::Told(refusal(alloc, 400, "filter is not served", request.last)?));
    }
    let rows = manager.instances().subscriptions();
    let body = subscriptions_view(alloc, manager.number(), role, rows)?;
    Ok(Planned::Told(shown(body, request.last)))
}

/// Shows a subscription of the asking role.
///
/// Source: SOL 003 5.4.19.3.2 (GET on an individual subscription).
pub fn show<S: Site>(
    alloc: Global,
    manager: &Manager<S>,
    role: Role,
    request: &Request,
) -> Result<Planned, AllocError>
    requires usable { manager.now.ledger.closed ≡ false }
    requires kept { (H : List Event) × Keeps manager.now H }
    ensures { (H : List Event) → Keeps manager.now H → IfOk result
        (IsPlanned (show_subscription manager.now.ledger.manager H role request.now) manager.now H) }
{
    let Some(row) = named_subscription(manager, role, asked_id(request)) else {
        return Ok(Planned::Told(no_subscription(alloc, request.last)?));
    };
    let number = manager.number();
    let body = subscription_view(alloc, number, row.number, &row.callback, &row.filter)?;
    Ok(Planned::Told(shown(body, request.last)))
}

/// What a request to end a subscription of the asking role comes to, where there is room for its event.
///
/// The one refusal of the request is 404, where the role has no such live subscription. The call's one refusal is want
/// of memory.
/// Source: SOL 003 5.4.19.3.5 (DELETE of an individual subscription).
pub fn end<S: Site>(
    alloc: Global,
    manager: &Manager<S>,
    role: Role,
    request: &Request,
    now: Moment,
) -> Result<Planned, AllocError>
    requires usable { manager.now.ledger.closed ≡ false }
    requires kept { (H : List Event) × Keeps manager.now H }
    ensures { (H : List Event) → Keeps manager.now H → IfOk result
        (IsPlanned (end_subscription manager.now.ledger.manager H now role request.now) manager.now H) }
{
    match named_subscription(manager, role, asked_id(request)) {
        Some(row) => Ok(Planned::Records(
            unsubscription(now, row.number),
            deleted(alloc, request.last),
        )),
        None => Ok(Planned::Told(no_subscription(alloc, request.last)?)),
    }
}

/// The row of the live subscription of this role that has this identifier; none exactly where the role has no such.
fn named_subscription<'a, S: Site>(
    manager: &'a Manager<S>,
    role: Role,
    id: &str,
) -> Option<&'a SubscriptionRow>
    requires usable { manager.now.ledger.closed ≡ false }
    requires kept { (H : List Event) × Keeps manager.now H }
    ensures named { (H : List Event) → Keeps manager.now H → option_copied result
        ≡ option_map (subscription_row H) (named_subscription manager.now.ledger.manager H role id.now) }
    ensures number { IfSome result (λ row. IsIdentNumber row.now.number) }
{
    let table = manager.instances();
    let n = ident_read(id.as_bytes(), manager.number(), Kind::Subscription)?;
    let row = table.subscription(n)?;
    if is_own(row, role) { Some(row) } else { None }
}

/// Whether the subscription of this row is the role's.
fn is_own(row: &SubscriptionRow, role: Role) -> bool
    ensures { result ≡ is_role_of role row.now }
{
    row.role == role
}

/// The refusal where the role has no live subscription of the identifier.
fn no_subscription(alloc: Global, last: bool) -> Result<Reply, AllocError>
    ensures { IfOk result (λ reply. no_subscription last ≡ told reply) }
{
    refusal(alloc, 404, "no such subscription", last)
}

/// The event that a subscription was ended.
fn unsubscription(moment: Moment, subscription: u64) -> Event
    ensures { result ≡ unsubscription moment subscription }
{
    Event {
        moment,
        kind: EventKind::Unsubscribed { subscription },
    }
}
