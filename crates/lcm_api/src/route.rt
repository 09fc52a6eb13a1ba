//! Where a request goes: what it asks of which resource, by its target and its method.
ghost use Rattle.std.specs.Prelude.{◌≡◌, IfOk, Some, true};
ghost use Rattle.lcm_api.specs.Routes.{allow, not_allowed, routing, routing_to};
ghost use Rattle.vnfm_base.specs.Text.{is_label};

use http_wire::Request;
use json_members::problem_view;
use lcm_events::{OpKind, Task};
use lcm_replies::Reply;
use lcm_routes::{Resource, Routes, path_of};
use std::alloc::{AllocError, Global};
use vnfm_base::Name;

/// What a request asks for.
///
/// Source: SOL 003 5.4.2.3 to 5.4.19.3.
#[derive(Clone, Copy, PartialEq, Eq)]
pub enum Route {
    /// It lists the instances.
    ListInstances,
    /// It creates an instance.
    CreateInstance,
    /// It shows an instance.
    ShowInstance,
    /// It deletes an instance.
    DeleteInstance,
    /// It asks for this task of an instance.
    InstanceTask(OpKind),
    /// It lists the occurrences.
    ListOccurrences,
    /// It shows an occurrence.
    ShowOccurrence,
    /// It asks for this task of an occurrence.
    OccurrenceTask(Task),
    /// It lists the subscriptions of the asking role.
    ListSubscriptions,
    /// It subscribes.
    CreateSubscription,
    /// It shows a subscription.
    ShowSubscription,
    /// It ends a subscription.
    EndSubscription,
}

/// Where a request goes.
#[derive(Clone, Copy)]
pub enum Routing {
    /// No resource that is served has its path.
    Nowhere,
    /// The resource has no such method.
    NotAllowed(Resource),
    /// A route serves it.
    Served(Route),
}

/// Where a request goes. It takes no memory.
///
/// Source: SOL 003 5.3 (Resource structure and supported HTTP methods); RFC 9110 9.1.
pub fn route_of(routes: &Routes, request: &Request) -> Routing
    ensures { result ≡ routing request.now }
{
    let found = routes.find(path_of(request.target.as_str()));
    match found {
        Some(resource) => routing_to(resource, request.method.as_str()),
        None => Routing::Nowhere,
    }
}

/// Where a request with this method to a resource goes: the table of routes.
fn routing_to(resource: Resource, method: &str) -> Routing
    ensures { result ≡ routing_to method.now (Some resource) }
{
    match resource {
        Resource::Instances => match method {
            "GET" => Routing::Served(Route::ListInstances),
            "POST" => Routing::Served(Route::CreateInstance),
            _ => Routing::NotAllowed(resource),
        },
        Resource::Instance => match method {
            "DELETE" => Routing::Served(Route::DeleteInstance),
            "GET" => Routing::Served(Route::ShowInstance),
            _ => Routing::NotAllowed(resource),
        },
        Resource::InstanceTask(kind) => match method {
            "POST" => Routing::Served(Route::InstanceTask(kind)),
            _ => Routing::NotAllowed(resource),
        },
        Resource::Occurrences => match method {
            "GET" => Routing::Served(Route::ListOccurrences),
            _ => Routing::NotAllowed(resource),
        },
        Resource::Occurrence => match method {
            "GET" => Routing::Served(Route::ShowOccurrence),
            _ => Routing::NotAllowed(resource),
        },
        Resource::OccurrenceTask(task) => match method {
            "POST" => Routing::Served(Route::OccurrenceTask(task)),
            _ => Routing::NotAllowed(resource),
        },
        Resource::Subscriptions => match method {
            "GET" => Routing::Served(Route::ListSubscriptions),
            "POST" => Routing::Served(Route::CreateSubscription),
            _ => Routing::NotAllowed(resource),
        },
        Resource::Subscription => match method {
            "DELETE" => Routing::Served(Route::EndSubscription),
            "GET" => Routing::Served(Route::ShowSubscription),
            _ => Routing::NotAllowed(resource),
        },
    }
}

/// The methods of a resource, as Allow says them.
fn allow(resource: Resource) -> Name
    ensures { result ≡ allow resource }
{
    match Name::of(allow_text(resource).as_bytes()) {
        Some(name) => name,
        None => unreachable!(),
    }
}

/// The text of the methods of a resource, in byte order.
fn allow_text(resource: Resource) -> &'static str
    ensures text { result.now ≡ allow resource }
    ensures label { is_label result.now ≡ true }
{
    match resource {
        Resource::Instances | Resource::Subscriptions => "GET, POST",
        Resource::Instance | Resource::Subscription => "DELETE, GET",
        Resource::InstanceTask(_) | Resource::OccurrenceTask(_) => "POST",
        Resource::Occurrences | Resource::Occurrence => "GET",
    }
}

/// The refusal of a method that a resource hasn't.
///
/// Source: RFC 9110 15.5.6, 10.2.1.
#[tactic(auto, unfolding(crate::specs::Routes::not_allowed))]
pub fn not_allowed(alloc: Global, resource: Resource, last: bool) -> Result<Reply, AllocError>
    ensures { IfOk result (λ reply. reply ≡ not_allowed resource last) }
{
    let body = problem_view(alloc, 405, "method not allowed")?;
    Ok(Reply {
        status: 405,
        location: None,
        allow: Some(allow(resource)),
        problem: true,
        body,
        last,
    })
}
