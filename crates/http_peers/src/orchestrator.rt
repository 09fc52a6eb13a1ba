//! An orchestrator that is asked over HTTP.
ghost use Rattle.std.specs.Prelude.{◌≡◌, ◌⊎◌, All, [], codes, false, IfOk, IfSome, IsErrOf, IsSomeAnd, IsTrue, None, OnErr};
ghost use Rattle.std.specs.Option.{is_none};
ghost use Rattle.std.specs.Prelude.{OnOk, Some, option_copied, if◌then◌else◌};
ghost use Rattle.http_client.specs.Requests.{request};
ghost use Rattle.net_calls.specs.Network.{offer_of};
ghost use Rattle.url.specs.Parts.{Parts};
ghost use Rattle.site_traits.specs.Counts.{one_more};
ghost use Rattle.site_traits.specs.Peers.{Asks, Polls, CallCause};
ghost use Rattle.http_peers.specs.Kept.{KeptGoesOn, limits_by};
ghost use Rattle.http_peers.specs.Peers.{counted, silent, IsWholeAnswer};
ghost use Rattle.http_peers.specs.Sent.{IsConnected, IsHeardFrom, IsInLimits, IsLostBy, IsOpenFor, IsWhyUnsent};
ghost use Rattle.http_peers.specs.Sent.{Calls, has_come};
ghost use Rattle.http_peers.specs.Targets.{AreGrantsOf, CanBeAskedAt, Finds, IsGrantTarget, IsLocatedTarget};

use crate::faults::CallFault;
use crate::peer::HttpPeer;
use crate::targets::{Target, TargetFault, refused_by, target_of, url_of};
use edge_limits::{ORCHESTRATOR, Pulse};
use http::Method;
use net_calls::{HostNet, Stopwatch};
use peer_exchange::note_asked;
use site_traits::{Call, Heard, Orchestrator};
use std::alloc::{AllocError, Global};
use std::cell::Cell;
use std::mem;
use url::Url;
use vnfm_base::Line;

/// The path of the grants, where the orchestrator's address has none (SOL 003 9.4.1).
const GRANTS: &str = "/grant/v1/grants";

/// The orchestrator at an address. Until it has one, and where that leads nowhere, each call fails and counts.
#[derive(Drop)]
pub struct RealOrchestrator<'a, N: HostNet + Drop, T: Stopwatch + Drop> {
    alloc: Global,
    peer: HttpPeer<'a, N, T>,
    pulse: &'a Cell<Pulse>,
    at: Option<Url>,
}

impl<'a, N: HostNet + Drop, T: Stopwatch + Drop> RealOrchestrator<'a, N, T> {
    /// One that has no address yet. Its one refusal is want of memory.
    pub fn made(
        alloc: Global,
        net: N,
        watch: T,
        pulse: &'a Cell<Pulse>,
    ) -> Result<RealOrchestrator<'a, N, T>, AllocError>
        ensures nowhere { IfOk result (λ o. o.at ≡ None) }
        ensures uncalled { IfOk result (λ o. (o.peer.calls ≡ 0) × (o.peer.faults ≡ 0) × (o.peer.fault ≡ None)) }
        ensures nothing { IfOk result (λ o. (o.peer.caller.opened ≡ None) × (o.peer.caller.log.sent ≡ [])) }
        ensures none_kept { IfOk result (λ o. o.peer.caller.kept.items ≡ []) }
        ensures over { IfOk result (λ o. (o.peer.caller.net ≡ net) × (o.peer.caller.watch ≡ watch)) }
    {
        let peer = HttpPeer::made(alloc, net, watch, pulse)?;
        Ok(RealOrchestrator {
            alloc,
            peer,
            pulse,
            at: None,
        })
    }

    /// Asks at this address from now on: a literal address and port, or a URL of the scheme http with one, whose path
    /// is that of the grants. One that is neither leads nowhere.
    ///
    /// Refusals: `NoTarget` exactly where it leads nowhere, but for want of memory; `Memory`. Behind both it has no
    /// address.
    pub fn to(&mut self, address: &str) -> Result<(), TargetFault>
        ensures peer { self.new.peer ≡ self.old.peer }
        ensures to { OnOk result (IsSomeAnd self.new.at (CanBeAskedAt address.now)) }
        ensures no_target { IsErrOf result TargetFault.NoTarget → (url : Parts) → CanBeAskedAt address.now url → ⊥ }
        ensures nowhere { OnErr result (self.new.at ≡ None) }
    {
        match grants_at(self.alloc, address) {
            Ok(url) => {
                self.at = Some(url);
                Ok(())
            }
            Err(fault) => {
                self.at = None;
                Err(fault)
            }
        }
    }

    /// Opens a connection to the orchestrator where none is open. Whether one to the target of the grants is open then:
    /// where not, none is, one fault is counted, and `fault` tells why.
    pub fn connect(&mut self) -> bool
        ensures calls { self.new.peer.calls ≡ self.old.peer.calls }
        ensures faults { self.new.peer.faults
            ≡ (if result then self.old.peer.faults else one_more self.old.peer.faults) }
        ensures fault { result ≡ is_none self.new.peer.fault }
        ensures opens { IsTrue result → IsOpenFor (IsGrantTarget self.old.at None) self.new.peer.caller.opened }
        ensures none { result ≡ false → self.new.peer.caller.opened ≡ None }
        ensures had { N.tells → IfSome self.new.peer.caller.opened (IsConnected self.old.peer.caller.opened
            (λ a. offer_of (N.peers self.old.peer.caller.net a))) }
        ensures why { N.tells → IfSome self.new.peer.fault (IsWhyUnsent self.old.peer.caller.opened
            (λ a. offer_of (N.peers self.old.peer.caller.net a)) (IsGrantTarget self.old.at None)) }
        ensures sends_nothing { self.new.peer.caller.log ≡ self.old.peer.caller.log }
        ensures at { self.new.at ≡ self.old.at }
    {
        let target = target_at(self.alloc, &self.at, None);
        self.peer.connect(target)
    }

    /// How often a call failed.
    pub fn faults(&self) -> u64
        ensures { result ≡ self.now.peer.faults }
    {
        self.peer.faults
    }

    /// Why the last call, or the last `connect`, failed; none where it didn't.
    pub fn fault(&self) -> Option<CallFault>
        ensures { result ≡ self.now.peer.fault }
    {
        self.peer.fault
    }
}

/// The URL of the grants at this address, for which a request can be made.
fn grants_at(alloc: Global, address: &str) -> Result<Url, TargetFault>
    ensures { Finds (CanBeAskedAt address.now) result }
{
    let grants = grants_of(url_of(alloc, address)?)?;
    target_of(alloc, &grants)?;
    Ok(grants)
}

/// The URL of the grants, by that of an address.
fn grants_of(told: Url) -> Result<Url, TargetFault>
    ensures { Finds (AreGrantsOf told) result }
{
    if told.path() == "/" && told.query().is_none() {
        match told.join(GRANTS) {
            Ok(grants) => Ok(grants),
            Err(refusal) => Err(refused_by(refusal)),
        }
    } else {
        Ok(told)
    }
}

/// The target of a request to the orchestrator: that of the grants, or of this location.
fn target_at(
    alloc: Global,
    at: &Option<Url>,
    location: Option<&Line>,
) -> Result<Target, TargetFault>
    ensures { Finds (IsGrantTarget at.now (option_copied location.entry)) result }
{
    let Some(grants) = at else {
        return Err(TargetFault::NoTarget);
    };
    match location {
        Some(location) => target_beside(alloc, grants, location),
        None => target_of(alloc, grants),
    }
}

/// The target of this location beside the grants, which has to be at the same address.
fn target_beside(alloc: Global, grants: &Url, location: &Line) -> Result<Target, TargetFault>
    ensures { Finds (IsLocatedTarget grants.now location.now) result }
{
    let of_grants = target_of(alloc, grants)?;
    let url = match grants.join(location.as_str()) {
        Ok(url) => url,
        Err(refusal) => return Err(refused_by(refusal)),
    };
    let target = target_of(alloc, &url)?;
    if target.address.as_str() == of_grants.address.as_str() {
        Ok(target)
    } else {
        Err(TargetFault::NoTarget)
    }
}

/// What a call comes to, whose answer is this reply where one came: it is heard.
fn answer(came: bool, reply: &mut Heard, heard: &mut Heard) -> Call
    ensures call { has_come result ≡ came }
    ensures came { IsTrue came → heard.new ≡ reply.old }
    ensures failed { came ≡ false → (heard.new ≡ heard.old) × (reply.new ≡ reply.old) }
{
    if came {
        mem::swap(reply, heard);
        Call::Came
    } else {
        Call::Failed
    }
}

impl<'a, N: HostNet + Drop, T: Stopwatch + Drop> Orchestrator for RealOrchestrator<'a, N, T> {
    ghost use Rattle.http_peers.specs.Peers.{counted, silent};

    ghost tells = { ⊥ };

    ghost state = { λ _. silent };

    ghost counts = { λ o. counted o.peer.calls o.peer.faults };

    fn ask(&mut self, body: &[u8], heard: &mut Heard) -> Call
        ensures told { ⊥ → Asks body.now heard.new result silent silent }
        ensures heard { result ≡ Call.Came
            → IsWholeAnswer self.new.peer.caller.room.bytes.items heard.new }
        ensures kept { result ≡ Call.Failed → heard.new ≡ heard.old }
        ensures fault { has_come result ≡ is_none self.new.peer.fault }
        ensures sends { N.tells → N.Connection.tells → Calls N.Connection.outgoing N.Connection.incoming N.Connection.vain
            self.old.peer.caller.opened (λ a. offer_of (N.peers self.old.peer.caller.net a))
            (IsGrantTarget self.old.at None) (λ host path. request (codes "POST") host path body.now)
            (limits_by self.old.peer.caller.silent.items ORCHESTRATOR) (IsHeardFrom self.new.peer.caller.room.bytes.items heard.new) self.new.peer.fault
            self.old.peer.caller.kept.items self.new.peer.caller.kept.items
            self.old.peer.caller.log.sent self.new.peer.caller.log.sent }
        ensures own { N.Connection.tells → All (KeptGoesOn N.Connection.outgoing N.Connection.incoming)
            self.old.peer.caller.kept.items
            → All (KeptGoesOn N.Connection.outgoing N.Connection.incoming) self.new.peer.caller.kept.items }
        ensures lost { IfSome self.new.peer.fault (IsLostBy self.new.peer.caller.reply.heard
            self.new.peer.caller.room.most self.new.peer.caller.room.bytes.items) }
        ensures in_limits { N.Connection.tells → T.tells
            → (self.new.peer.caller.log.sent ≡ self.old.peer.caller.log.sent)
            ⊎ IsInLimits self.new.peer.caller.room.most (T.shows self.old.peer.caller.watch)
            (T.shown self.new.peer.caller.watch) self.new.peer.fault self.new.peer.caller.log.sent }
        ensures closed { self.new.peer.caller.opened ≡ None }
        ensures at { self.new.at ≡ self.old.at }
        ensures cause { CallCause result (counted self.old.peer.calls self.old.peer.faults)
            (counted self.new.peer.calls self.new.peer.faults) }
    {
        let target = target_at(self.alloc, &self.at, None);
        let came = self.peer.request(&Method::POST, target, body, ORCHESTRATOR);
        answer(came, &mut self.peer.caller.reply.heard, heard)
    }

    fn poll(&mut self, location: &Line, heard: &mut Heard) -> Call
        ensures told { ⊥ → Polls location.now heard.new result silent silent }
        ensures heard { result ≡ Call.Came
            → IsWholeAnswer self.new.peer.caller.room.bytes.items heard.new }
        ensures kept { result ≡ Call.Failed → heard.new ≡ heard.old }
        ensures fault { has_come result ≡ is_none self.new.peer.fault }
        ensures sends { N.tells → N.Connection.tells → Calls N.Connection.outgoing N.Connection.incoming N.Connection.vain
            self.old.peer.caller.opened (λ a. offer_of (N.peers self.old.peer.caller.net a))
            (IsGrantTarget self.old.at (Some location.now)) (λ host path. request (codes "GET") host path [])
            (limits_by self.old.peer.caller.silent.items ORCHESTRATOR) (IsHeardFrom self.new.peer.caller.room.bytes.items heard.new) self.new.peer.fault
            self.old.peer.caller.kept.items self.new.peer.caller.kept.items
            self.old.peer.caller.log.sent self.new.peer.caller.log.sent }
        ensures own { N.Connection.tells → All (KeptGoesOn N.Connection.outgoing N.Connection.incoming)
            self.old.peer.caller.kept.items
            → All (KeptGoesOn N.Connection.outgoing N.Connection.incoming) self.new.peer.caller.kept.items }
        ensures lost { IfSome self.new.peer.fault (IsLostBy self.new.peer.caller.reply.heard
            self.new.peer.caller.room.most self.new.peer.caller.room.bytes.items) }
        ensures in_limits { N.Connection.tells → T.tells
            → (self.new.peer.caller.log.sent ≡ self.old.peer.caller.log.sent)
            ⊎ IsInLimits self.new.peer.caller.room.most (T.shows self.old.peer.caller.watch)
            (T.shown self.new.peer.caller.watch) self.new.peer.fault self.new.peer.caller.log.sent }
        ensures closed { self.new.peer.caller.opened ≡ None }
        ensures at { self.new.at ≡ self.old.at }
        ensures cause { CallCause result (counted self.old.peer.calls self.old.peer.faults)
            (counted self.new.peer.calls self.new.peer.faults) }
    {
        note_asked(self.pulse);
        let target = target_at(self.alloc, &self.at, Some(location));
        let came = self.peer.request(&Method::GET, target, &[], ORCHESTRATOR);
        answer(came, &mut self.peer.caller.reply.heard, heard)
    }
}
