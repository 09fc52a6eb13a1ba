//! Making a subscription: POST on the subscriptions.
ghost use Rattle.std.specs.Prelude.{◌≡◌, List, IfOk, Ok, false};
ghost use Rattle.lcm_events.specs.declared.events.Event.{Event};
ghost use Rattle.lcm_events.specs.declared.events.EventKind.TheVariants.{Subscribed};
ghost use Rattle.executor.specs.Managed.{Keeps};
ghost use Rattle.json_bodies.specs.Subscribing.{subscription_of};
ghost use Rattle.lcm_api.specs.Recording.{IsPlanned};
ghost use Rattle.lcm_api.specs.Subscriptions.{IsSubscribeVerdict, content_text, create_subscription, subscribe_as};
ghost use Rattle.lcm_api.specs.Subscriptions.{subscribed};
ghost use Rattle.lcm_replies.specs.Replies.{refusal};
ghost use Rattle.vnfm_base.specs.Ident.{IsIdentNumber};

use crate::bodies::refused_body;
use crate::media::is_json;
use crate::record::Planned;
use executor::Manager;
use http_wire::Request;
use json_bodies::{SubscriptionBody, read_subscription};
use json_views::{subscription_path, subscription_view};
use lcm_events::{Event, EventKind, Role};
use lcm_model::MAX_SUBSCRIPTIONS;
use lcm_replies::{Reply, location, refusal};
use site_traits::Site;
use std::alloc::{AllocError, Global};
use subscription_asks::{
    SubscriptionRefusal, asked_filters_are_small, content_refusal, subscribed_events_fit_records,
};
use vnfm_base::Moment;

/// What a request of this role to subscribe comes to, where there is room for its event.
///
/// Refusals of the request are replies, in this order: 415 for its media type, 400 for its body, 422 for a callback
/// that is no http URI, 422 for `vnfProductsFromProviders`, 507 where 100 subscriptions of the role are live. The
/// call's one refusal is want of memory.
/// Source: SOL 003 5.4.18.3.1 (POST on Subscriptions).
pub fn create<S: Site>(
    alloc: Global,
    manager: &Manager<S>,
    role: Role,
    request: &Request,
    now: Moment,
) -> Result<Planned, AllocError>
    requires usable { manager.now.ledger.closed ≡ false }
    ensures { (H : List Event) → Keeps manager.now H → IfOk result
        (IsPlanned (create_subscription manager.now.ledger.manager H now role request.now) manager.now H) }
{
    match judge(alloc, request)? {
        SubscribeVerdict::Refused(reply) => Ok(Planned::Told(reply)),
        SubscribeVerdict::Subscribes(body) => {
            create_as(alloc, manager, role, body, now, request)
        }
    }
}

/// What a request to subscribe asks for, as far as it says by itself.
#[derive(Drop)]
enum SubscribeVerdict {
    /// It is refused with this reply.
    Refused(Reply),
    /// It subscribes by this body.
    Subscribes(SubscriptionBody),
}

/// Judges a request to subscribe by its media type and its body.
fn judge(alloc: Global, request: &Request) -> Result<SubscribeVerdict, AllocError>
    ensures { IfOk result (IsSubscribeVerdict request.now) }
{
    if !is_json(&request.media) {
        let refused = refusal(alloc, 415, "body must be application/json", request.last)?;
        return Ok(SubscribeVerdict::Refused(refused));
    }
    match read_subscription(alloc, request.body.as_slice()) {
        Ok(body) => Ok(SubscribeVerdict::Subscribes(body)),
        Err(fault) => { Ok(SubscribeVerdict::Refused(refused_body(alloc, &fault, request.last)?)) }
    }
}

/// What a request to subscribe by this body, which is the request's, comes to.
fn create_as<S: Site>(
    alloc: Global,
    manager: &Manager<S>,
    role: Role,
    body: SubscriptionBody,
    now: Moment,
    request: &Request,
) -> Result<Planned, AllocError>
    requires usable { manager.now.ledger.closed ≡ false }
    requires read { subscription_of request.now.body ≡ Ok body }
    ensures { (H : List Event) → Keeps manager.now H → IfOk result (IsPlanned
        (subscribe_as manager.now.ledger.manager H now role body request.now.last) manager.now H) }
{
    asked_filters_are_small();
    subscribed_events_fit_records();
    if let Some(why) = content_refusal(alloc, &body)? {
        return Ok(Planned::Told(refuse_content(alloc, why, request.last)?));
    }
    if manager.instances().live_of(role) >= MAX_SUBSCRIPTIONS {
        return Ok(Planned::Told(refusal(alloc, 507, "too many subscriptions", request.last)?));
    }
    let n = manager.next_subscription();
    let reply = subscribed(alloc, manager.number(), n, &body, request.last)?;
    Ok(Planned::Records(subscription(n, now, role, body), reply))
}

/// The refusal for what a request to subscribe says.
fn refuse_content(alloc: Global, why: SubscriptionRefusal, last: bool) -> Result<Reply, AllocError>
    ensures { IfOk result (λ reply. reply ≡ refusal 422 (content_text why) last) }
{
    refusal(alloc, 422, content_text(why), last)
}

/// Why the content of a request to subscribe is refused, in words.
fn content_text(why: SubscriptionRefusal) -> &'static str
    ensures { result.now ≡ content_text why }
{
    match why {
        SubscriptionRefusal::NotHttpUri => "callbackUri is not an http URI",
        SubscriptionRefusal::ProductsNotServed => "vnfProductsFromProviders is not served",
    }
}

/// The answer to a request to subscribe.
#[tactic(auto, unfolding(crate::specs::Subscriptions::subscribed))]
fn subscribed(
    alloc: Global,
    manager: u32,
    n: u64,
    body: &SubscriptionBody,
    last: bool,
) -> Result<Reply, AllocError>
    requires { IsIdentNumber n }
    ensures { IfOk result (λ reply. reply ≡ subscribed manager n body.now last) }
{
    let view = subscription_view(alloc, manager, n, &body.callback, &body.asked.filter)?;
    let path = subscription_path(alloc, manager, n)?;
    Ok(Reply {
        status: 201,
        location: Some(location(path)),
        allow: None,
        problem: false,
        body: view,
        last,
    })
}

/// The event that a subscription was made.
fn subscription(n: u64, moment: Moment, role: Role, body: SubscriptionBody) -> Event
    ensures { result ≡ record { moment = moment; kind = Subscribed n role body.callback body.asked.filter } }
{
    Event {
        moment,
        kind: EventKind::Subscribed {
            subscription: n,
            role,
            callback: body.callback,
            filter: body.asked.filter,
        },
    }
}
