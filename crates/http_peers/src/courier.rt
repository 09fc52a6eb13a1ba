//! A courier that posts over HTTP.
ghost use Rattle.std.specs.Prelude.{◌≡◌, ◌⊎◌, All, ℕ, [], codes, false, true, IfOk, IfSome, IsTrue, None, if◌then◌else◌};
ghost use Rattle.std.specs.Option.{is_none};
ghost use Rattle.http_client.specs.Requests.{request};
ghost use Rattle.net_calls.specs.Network.{offer_of};
ghost use Rattle.site_traits.specs.Counts.{one_more};
ghost use Rattle.site_traits.specs.Peers.{Posts, PostCause};
ghost use Rattle.http_peers.specs.Kept.{KeptGoesOn, limits_by};
ghost use Rattle.http_peers.specs.Peers.{counted, IsWholeAnswer};
ghost use Rattle.http_peers.specs.Sent.{IsConnected, IsHeardFrom, IsInLimits, IsLostBy, IsOpenFor, IsWhyUnsent};
ghost use Rattle.http_peers.specs.Sent.{Calls, was_posted};
ghost use Rattle.http_peers.specs.Targets.{Finds, IsCallbackTarget};

use crate::faults::CallFault;
use crate::peer::HttpPeer;
use crate::targets::{Target, TargetFault, target_of, url_of};
use edge_limits::{POST, Pulse};
use http::Method;
use net_calls::{HostNet, Stopwatch};
use site_traits::{Courier, PostAnswer};
use std::alloc::{AllocError, Global};
use std::cell::Cell;
use vnfm_base::Line;

/// Posts notifications to their callbacks, each of which has a literal address.
#[derive(Drop)]
pub struct RealCourier<'a, N: HostNet + Drop, T: Stopwatch + Drop> {
    alloc: Global,
    peer: HttpPeer<'a, N, T>,
}

impl<'a, N: HostNet + Drop, T: Stopwatch + Drop> RealCourier<'a, N, T> {
    /// One that posted nothing yet. Its one refusal is want of memory.
    pub fn made(
        alloc: Global,
        net: N,
        watch: T,
        pulse: &'a Cell<Pulse>,
    ) -> Result<RealCourier<'a, N, T>, AllocError>
        ensures uncalled { IfOk result (λ c. (c.peer.calls ≡ 0) × (c.peer.faults ≡ 0) × (c.peer.fault ≡ None)) }
        ensures nothing { IfOk result (λ c. (c.peer.caller.opened ≡ None) × (c.peer.caller.log.sent ≡ [])) }
        ensures none_kept { IfOk result (λ c. c.peer.caller.kept.items ≡ []) }
        ensures over { IfOk result (λ c. (c.peer.caller.net ≡ net) × (c.peer.caller.watch ≡ watch)) }
    {
        let peer = HttpPeer::made(alloc, net, watch, pulse)?;
        Ok(RealCourier { alloc, peer })
    }

    /// Opens a connection to this callback's address where none to it is open. Whether one is open then: where not,
    /// none is, one fault is counted, and `fault` tells why.
    pub fn connect(&mut self, uri: &Line) -> bool
        ensures calls { self.new.peer.calls ≡ self.old.peer.calls }
        ensures faults { self.new.peer.faults
            ≡ (if result then self.old.peer.faults else one_more self.old.peer.faults) }
        ensures fault { result ≡ is_none self.new.peer.fault }
        ensures opens { IsTrue result → IsOpenFor (IsCallbackTarget uri.now) self.new.peer.caller.opened }
        ensures none { result ≡ false → self.new.peer.caller.opened ≡ None }
        ensures had { N.tells → IfSome self.new.peer.caller.opened (IsConnected self.old.peer.caller.opened
            (λ a. offer_of (N.peers self.old.peer.caller.net a))) }
        ensures why { N.tells → IfSome self.new.peer.fault (IsWhyUnsent self.old.peer.caller.opened
            (λ a. offer_of (N.peers self.old.peer.caller.net a)) (IsCallbackTarget uri.now)) }
        ensures sends_nothing { self.new.peer.caller.log ≡ self.old.peer.caller.log }
    {
        let target = target_at(self.alloc, uri);
        self.peer.connect(target)
    }

    /// How often a call failed.
    pub fn faults(&self) -> u64
        ensures { result ≡ self.now.peer.faults }
    {
        self.peer.faults
    }

    /// Why the last call, or the last `connect`, failed; none where it didn't.
    pub fn fault(&self) -> Option<CallFault>
        ensures { result ≡ self.now.peer.fault }
    {
        self.peer.fault
    }
}

/// The target of this callback.
fn target_at(alloc: Global, uri: &Line) -> Result<Target, TargetFault>
    ensures { Finds (IsCallbackTarget uri.now) result }
{
    let url = url_of(alloc, uri.as_str())?;
    target_of(alloc, &url)
}

impl<'a, N: HostNet + Drop, T: Stopwatch + Drop> Courier for RealCourier<'a, N, T> {
    ghost use Rattle.std.specs.Prelude.{[]};
    ghost use Rattle.http_peers.specs.Peers.{counted};

    ghost tells = { ⊥ };

    ghost state = { λ _. [] };

    ghost counts = { λ c. counted c.peer.calls c.peer.faults };

    fn post(&mut self, uri: &Line, body: &[u8]) -> PostAnswer
        ensures told { ⊥ → Posts uri.now body.now result [] [] }
        ensures heard { (status : ℕ) → result ≡ PostAnswer.Status status
            → IsWholeAnswer self.new.peer.caller.room.bytes.items self.new.peer.caller.reply.heard
            × (self.new.peer.caller.reply.heard.status ≡ status) }
        ensures fault { was_posted result ≡ is_none self.new.peer.fault }
        ensures sends { N.tells → N.Connection.tells → Calls N.Connection.outgoing N.Connection.incoming N.Connection.vain
            self.old.peer.caller.opened (λ a. offer_of (N.peers self.old.peer.caller.net a))
            (IsCallbackTarget uri.now) (λ host path. request (codes "POST") host path body.now)
            (limits_by self.old.peer.caller.silent.items POST)
            (IsHeardFrom self.new.peer.caller.room.bytes.items self.new.peer.caller.reply.heard)
            self.new.peer.fault self.old.peer.caller.kept.items self.new.peer.caller.kept.items
            self.old.peer.caller.log.sent self.new.peer.caller.log.sent }
        ensures own { N.Connection.tells → All (KeptGoesOn N.Connection.outgoing N.Connection.incoming)
            self.old.peer.caller.kept.items
            → All (KeptGoesOn N.Connection.outgoing N.Connection.incoming) self.new.peer.caller.kept.items }
        ensures lost { IfSome self.new.peer.fault (IsLostBy self.new.peer.caller.reply.heard
            self.new.peer.caller.room.most self.new.peer.caller.room.bytes.items) }
        ensures in_limits { N.Connection.tells → T.tells
            → (self.new.peer.caller.log.sent ≡ self.old.peer.caller.log.sent)
            ⊎ IsInLimits self.new.peer.caller.room.most (T.shows self.old.peer.caller.watch)
            (T.shown self.new.peer.caller.watch) self.new.peer.fault self.new.peer.caller.log.sent }
        ensures closed { self.new.peer.caller.opened ≡ None }
        ensures cause { PostCause result (counted self.old.peer.calls self.old.peer.faults)
            (counted self.new.peer.calls self.new.peer.faults) }
    {
        let target = target_at(self.alloc, uri);
        if self.peer.request(&Method::POST, target, body, POST) {
            PostAnswer::Status(self.peer.caller.reply.heard.status())
        } else {
            PostAnswer::Failed
        }
    }
}
