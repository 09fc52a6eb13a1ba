//! Answering one request: its reply, and at most one event, which is on the disk before the reply is given.
ghost use Rattle.std.specs.Prelude.{◌≡◌, List, IfOk, false};
ghost use Rattle.executor.specs.Managed.{IsReady, Keeps};
ghost use Rattle.executor.specs.Work.{Works};
ghost use Rattle.lcm_api.specs.Answering.{answered};
ghost use Rattle.lcm_api.specs.Outcome.{outcome, routed, served};
ghost use Rattle.lcm_api.specs.Recording.{IsPlanned};
ghost use Rattle.lcm_api.specs.Routes.{routing};
ghost use Rattle.lcm_events.specs.declared.events.Event.{Event};
ghost use Rattle.site_traits.specs.Counts.{OnlyDiskFails};

use crate::create::create;
use crate::record::{Planned, carry_out};
use crate::route::{Route, Routing, not_allowed, route_of};
use crate::{asks, instances, occurrences, subscribing, subscriptions, tasks};
use executor::{Manager, works_add_up};
use http_wire::Request;
use lcm_events::Role;
use lcm_replies::{Reply, refusal};
use lcm_routes::Routes;
use site_traits::Site;
use std::alloc::{AllocError, Global};
use thiserror::Error;
use vnfm_base::Moment;

/// Why a request wasn't answered.
#[derive(Debug, Drop, Error)]
pub enum ApiFault {
    /// A disk call failed: 500 is told. Whether the event is kept is known once the journal is loaded again.
    #[error("journal fault")]
    Disk,
    /// There is no memory: 503 is told. Nothing has changed.
    #[error("no memory")]
    Memory,
}

/// Answers a request of this role, taken at this moment.
///
/// Refusals of the request are replies. Refusals of the call: `Memory`, after which nothing has changed; `Disk`, after
/// which the manager is closed.
/// Source: SOL 003 5.4 (Resources of the VNF Lifecycle Management interface).
pub fn answer<S: Site>(
    alloc: Global,
    manager: &mut Manager<S>,
    site: &mut S,
    routes: &Routes,
    role: Role,
    request: &Request,
    now: Moment,
) -> Result<Reply, ApiFault>
    requires ready { (H : List Event) × IsReady S.tells manager.old H (S.state site.old) }
    ensures reply { (H : List Event) → Keeps manager.old H
        → IfOk result (λ given. given
        ≡ (outcome manager.old.ledger.manager manager.old.ledger.saved H now role request.now).reply) }
    ensures works { (H : List Event) → IsReady S.tells manager.old H (S.state site.old)
        → Works S.tells manager.old.ledger.manager H
        (answered (outcome manager.old.ledger.manager manager.old.ledger.saved H now role request.now) H result)
        manager.new (S.state site.old) (S.state site.new) }
    ensures saved { manager.new.ledger.saved ≡ manager.old.ledger.saved }
    ensures counts { OnlyDiskFails (result ≡ Err ApiFault.Disk) (S.counts site.old) (S.counts site.new) }
{
    works_add_up::<S>();
    let planned = plan(alloc, manager, routes, role, request, now)?;
    carry_out(alloc, manager, site, planned, request.last)
}

/// What a request of this role comes to, taken at this moment, before it is known whether there is room for its event.
fn plan<S: Site>(
    alloc: Global,
    manager: &Manager<S>,
    routes: &Routes,
    role: Role,
    request: &Request,
    now: Moment,
) -> Result<Planned, AllocError>
    requires usable { manager.now.ledger.closed ≡ false }
    requires kept { (H : List Event) × Keeps manager.now H }
    ensures { (H : List Event) → Keeps manager.now H → IfOk result
        (IsPlanned (routed (routing request.now) manager.now.ledger.manager H now role request.now) manager.now H) }
{
    match route_of(routes, request) {
        Routing::Nowhere => {
            Ok(Planned::Told(refusal(alloc, 404, "no such resource", request.last)?))
        }
        Routing::NotAllowed(resource) => {
            Ok(Planned::Told(not_allowed(alloc, resource, request.last)?))
        }
        Routing::Served(route) => plan_on(alloc, manager, route, role, request, now),
    }
}

/// What a request on this route comes to, before it is known whether there is room for its event.
fn plan_on<S: Site>(
    alloc: Global,
    manager: &Manager<S>,
    route: Route,
    role: Role,
    request: &Request,
    now: Moment,
) -> Result<Planned, AllocError>
    requires usable { manager.now.ledger.closed ≡ false }
    requires kept { (H : List Event) × Keeps manager.now H }
    ensures { (H : List Event) → Keeps manager.now H → IfOk result
        (IsPlanned (served route manager.now.ledger.manager H now role request.now) manager.now H) }
{
    match route {
        Route::ListInstances => instances::list(alloc, manager, request),
        Route::CreateInstance => create(alloc, manager, request, now),
        Route::ShowInstance => instances::show(alloc, manager, request),
        Route::DeleteInstance => instances::delete(alloc, manager, request, now),
        Route::InstanceTask(kind) => asks::task(alloc, manager, kind, role, request, now),
        Route::ListOccurrences => occurrences::list(alloc, manager, request),
        Route::ShowOccurrence => occurrences::show(alloc, manager, request),
        Route::OccurrenceTask(task) => tasks::task(alloc, manager, task, request, now),
        Route::ListSubscriptions => subscriptions::list(alloc, manager, role, request),
        Route::CreateSubscription => subscribing::create(alloc, manager, role, request, now),
        Route::ShowSubscription => subscriptions::show(alloc, manager, role, request),
        Route::EndSubscription => subscriptions::end(alloc, manager, role, request, now),
    }
}

impl From<AllocError> for ApiFault {
    ghost use Rattle.lcm_api.specs.declared.answering.ApiFault.TheVariants.{Memory};

    ghost from_gives = { λ _ fault. fault ≡ Memory };

    fn from(_: AllocError) -> ApiFault {
        ApiFault::Memory
    }
}
