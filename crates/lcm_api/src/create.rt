//! Creating an instance: POST on the instances.
ghost use Rattle.std.specs.Prelude.{◌≡◌, List, IfOk, false};
ghost use Rattle.lcm_events.specs.declared.events.Event.{Event};
ghost use Rattle.lcm_events.specs.declared.events.EventKind.TheVariants.{Created};
ghost use Rattle.executor.specs.Managed.{Keeps};
ghost use Rattle.lcm_api.specs.Creating.{create_instance, create_outcome, created};
ghost use Rattle.lcm_api.specs.Judging.{IsCreateVerdict};
ghost use Rattle.lcm_api.specs.Recording.{IsPlanned};
ghost use Rattle.vnfm_base.specs.Ident.{IsIdentNumber};

use crate::bodies::refused_body;
use crate::media::is_json;
use crate::record::Planned;
use executor::Manager;
use http_wire::Request;
use json_bodies::{CreateBody, read_create};
use json_views::{created_view, instance_path};
use lcm_events::{Event, EventKind, Vnfd};
use lcm_model::MAX_INSTANCES;
use lcm_replies::{Reply, location, refusal};
use site_traits::Site;
use std::alloc::{AllocError, Global};
use vnfm_base::{Kind, Moment};

/// What a request that creates an instance comes to, where there is room for its event.
///
/// Refusals of the request are replies, in this order: 415 for its media type, 400 for its body, 422 for a descriptor
/// that wasn't onboarded, 507 for too many instances. The call's one refusal is want of memory.
/// Source: SOL 003 5.4.2.3.1.
pub fn create<S: Site>(
    alloc: Global,
    manager: &Manager<S>,
    request: &Request,
    now: Moment,
) -> Result<Planned, AllocError>
    requires usable { manager.now.ledger.closed ≡ false }
    ensures { (H : List Event) → Keeps manager.now H → IfOk result
        (IsPlanned (create_instance manager.now.ledger.manager H now request.now) manager.now H) }
{
    match judge(alloc, request)? {
        CreateVerdict::Refused(reply) => Ok(Planned::Told(reply)),
        CreateVerdict::Create(body) => create_as(alloc, manager, body, now, request.last),
    }
}

/// What a request to create an instance asks for, as far as it says by itself.
#[derive(Drop)]
enum CreateVerdict {
    /// It is refused with this reply.
    Refused(Reply),
    /// It creates an instance of this body.
    Create(CreateBody),
}

/// Judges a request to create an instance by its media type and its body.
fn judge(alloc: Global, request: &Request) -> Result<CreateVerdict, AllocError>
    ensures { IfOk result (IsCreateVerdict request.now) }
{
    if !is_json(&request.media) {
        let refused = refusal(alloc, 415, "body must be application/json", request.last)?;
        return Ok(CreateVerdict::Refused(refused));
    }
    match read_create(alloc, request.body.as_slice()) {
        Ok(body) => Ok(CreateVerdict::Create(body)),
        Err(fault) => Ok(CreateVerdict::Refused(refused_body(alloc, &fault, request.last)?)),
    }
}

/// What a create request with this body comes to.
fn create_as<S: Site>(
    alloc: Global,
    manager: &Manager<S>,
    body: CreateBody,
    now: Moment,
    last: bool,
) -> Result<Planned, AllocError>
    requires usable { manager.now.ledger.closed ≡ false }
    ensures { (H : List Event) → Keeps manager.now H → IfOk result
        (IsPlanned (create_outcome manager.now.ledger.manager H now body last) manager.now H) }
{
    let Some(vnfd) = manager.vnfd(&body.vnfd) else {
        return Ok(Planned::Told(refusal(alloc, 422, "vnfdId is not onboarded", last)?));
    };
    if manager.live(Kind::Instance) >= MAX_INSTANCES {
        return Ok(Planned::Told(refusal(alloc, 507, "too many instances", last)?));
    }
    let n = manager.next_instance();
    let reply = created(alloc, manager.number(), n, &body, vnfd, last)?;
    Ok(Planned::Records(creation(n, now, body), reply))
}

/// The answer to a create request.
#[tactic(auto, unfolding(crate::specs::Creating::created))]
fn created(
    alloc: Global,
    manager: u32,
    n: u64,
    body: &CreateBody,
    vnfd: &Vnfd,
    last: bool,
) -> Result<Reply, AllocError>
    requires { IsIdentNumber n }
    ensures { IfOk result (λ reply. reply ≡ created manager n body.now vnfd.now last) }
{
    let view = created_view(alloc, manager, n, body, vnfd)?;
    let path = instance_path(alloc, manager, n)?;
    Ok(Reply {
        status: 201,
        location: Some(location(path)),
        allow: None,
        problem: false,
        body: view,
        last,
    })
}

/// The event that an instance was created.
fn creation(instance: u64, moment: Moment, body: CreateBody) -> Event
    ensures { result ≡ record { moment = moment; kind = Created instance body.vnfd body.name body.text } }
{
    Event {
        moment,
        kind: EventKind::Created {
            instance,
            vnfd: body.vnfd,
            name: body.name,
            text: body.text,
        },
    }
}
