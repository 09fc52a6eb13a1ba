//! A peer over HTTP: its calls, counted, and why the last one has no answer.
ghost use Rattle.std.specs.Prelude.{◌≡◌, ◌⊎◌, ◌<◌, ◌^◌, [], All, None, IfOk, IfSome, IsTrue, false, if◌then◌else◌};
ghost use Rattle.std.specs.Option.{is_none};
ghost use Rattle.std.specs.Result.{is_ok, result_err};
ghost use Rattle.http_client.specs.Requests.{request};
ghost use Rattle.net_calls.specs.Network.{offer_of};
ghost use Rattle.site_traits.specs.Counts.{one_more};
ghost use Rattle.http_peers.specs.Kept.{KeptGoesOn, limits_by};
ghost use Rattle.http_peers.specs.Peers.{IsWholeAnswer};
ghost use Rattle.http_peers.specs.Sent.{IsConnected, IsHeardFrom, IsInLimits, IsLostBy, IsOpenAt, IsWhyUnopenedAt};
ghost use Rattle.http_peers.specs.Sent.{CallsBy};

use crate::caller::HttpCaller;
use crate::counted::count_one;
use crate::faults::{CallFault, fault_of};
use crate::targets::{Target, TargetFault};
use edge_limits::{Exchange, Pulse};
use http::Method;
use net_calls::{HostNet, Stopwatch};
use peer_exchange::note_failed;
use std::alloc::{AllocError, Global};
use std::cell::Cell;

/// What an orchestrator and a courier have in common.
#[derive(Drop)]
pub struct HttpPeer<'a, N: HostNet + Drop, T: Stopwatch + Drop> {
    alloc: Global,
    pub caller: HttpCaller<N, T>,
    pulse: &'a Cell<Pulse>,
    /// How often it was called.
    pub calls: u64,
    /// How often a call failed.
    pub faults: u64,
    /// Why the last call has no answer.
    pub fault: Option<CallFault>,
}

impl<'a, N: HostNet + Drop, T: Stopwatch + Drop> HttpPeer<'a, N, T> {
    /// One that wasn't called yet. Its one refusal is want of memory.
    pub fn made(
        alloc: Global,
        net: N,
        watch: T,
        pulse: &'a Cell<Pulse>,
    ) -> Result<HttpPeer<'a, N, T>, AllocError>
        ensures uncalled { IfOk result (λ p. (p.calls ≡ 0) × (p.faults ≡ 0) × (p.fault ≡ None)) }
        ensures nothing { IfOk result (λ p. (p.caller.opened ≡ None) × (p.caller.log.sent ≡ [])) }
        ensures none_kept { IfOk result (λ p. p.caller.kept.items ≡ []) }
        ensures over { IfOk result (λ p. (p.caller.net ≡ net) × (p.caller.watch ≡ watch)) }
    {
        let caller = HttpCaller::new(alloc, net, watch)?;
        Ok(HttpPeer {
            alloc,
            caller,
            pulse,
            calls: 0,
            faults: 0,
            fault: None,
        })
    }

    /// Opens a connection to this target where none to it is open. Whether one is open then: where not, none is, one
    /// fault is counted, and why it is stays told.
    pub fn connect(&mut self, target: Result<Target, TargetFault>) -> bool
        ensures calls { self.new.calls ≡ self.old.calls }
        ensures faults { self.new.faults ≡ (if result then self.old.faults else one_more self.old.faults) }
        ensures fault { result ≡ is_none self.new.fault }
        ensures opens { IsTrue result → IsOpenAt target self.new.caller.opened }
        ensures none { result ≡ false → self.new.caller.opened ≡ None }
        ensures had { N.tells → IfSome self.new.caller.opened (IsConnected self.old.caller.opened
            (λ a. offer_of (N.peers self.old.caller.net a))) }
        ensures why { N.tells → IfSome self.new.fault (IsWhyUnopenedAt self.old.caller.opened
            (λ a. offer_of (N.peers self.old.caller.net a)) target) }
        ensures rest { (self.new.caller.log ≡ self.old.caller.log) × (self.new.caller.watch ≡ self.old.caller.watch)
            × (self.new.caller.kept ≡ self.old.caller.kept) }
    {
        let done = match target {
            Ok(target) => self.caller.connect(self.alloc, &target.address),
            Err(fault) => {
                self.caller.close();
                Err(fault_of(fault))
            }
        };
        self.note(done)
    }

    /// Hears the answer to a request of this body to this target, as `HttpCaller::call` does. Whether one came: where not, one fault is counted, and why it is stays told. No connection is open then.
    pub fn request(
        &mut self,
        method: &Method,
        target: Result<Target, TargetFault>,
        body: &[u8],
        limits: Exchange,
    ) -> bool
        requires { limits.silence < 2 ^ 32 }
        ensures calls { self.new.calls ≡ one_more self.old.calls }
        ensures faults { self.new.faults ≡ (if result then self.old.faults else one_more self.old.faults) }
        ensures fault { result ≡ is_none self.new.fault }
        ensures heard { IsTrue result
            → IsWholeAnswer self.new.caller.room.bytes.items self.new.caller.reply.heard }
        ensures sends { N.tells → N.Connection.tells → CallsBy N.Connection.outgoing N.Connection.incoming
            N.Connection.vain self.old.caller.opened (λ a. offer_of (N.peers self.old.caller.net a)) target
            (λ host path. request method.now host path body.now) (limits_by self.old.caller.silent.items limits)
            (IsHeardFrom self.new.caller.room.bytes.items self.new.caller.reply.heard) self.new.fault
            self.old.caller.kept.items self.new.caller.kept.items self.old.caller.log.sent self.new.caller.log.sent }
        ensures own { N.Connection.tells → All (KeptGoesOn N.Connection.outgoing N.Connection.incoming)
            self.old.caller.kept.items
            → All (KeptGoesOn N.Connection.outgoing N.Connection.incoming) self.new.caller.kept.items }
        ensures lost { IfSome self.new.fault (IsLostBy self.new.caller.reply.heard self.new.caller.room.most
            self.new.caller.room.bytes.items) }
        ensures in_limits { N.Connection.tells → T.tells → (self.new.caller.log.sent ≡ self.old.caller.log.sent)
            ⊎ IsInLimits self.new.caller.room.most (T.shows self.old.caller.watch) (T.shown self.new.caller.watch)
            self.new.fault self.new.caller.log.sent }
        ensures closed { self.new.caller.opened ≡ None }
    {
        count_one(&mut self.calls);
        let done = match target {
            Ok(target) => self.caller.call(self.alloc, method, &target, body, limits),
            Err(fault) => {
                self.caller.close();
                Err(fault_of(fault))
            }
        };
        self.note(done)
    }

    /// Tells of a call that went so. Whether it has an answer.
    fn note(&mut self, done: Result<(), CallFault>) -> bool
        ensures fault { self.new.fault ≡ result_err done }
        ensures value { result ≡ is_ok done }
        ensures faults { self.new.faults ≡ (if result then self.old.faults else one_more self.old.faults) }
        ensures rest { self.new ≡ record self.old { faults = self.new.faults; fault = self.new.fault } }
    {
        self.fault = done.err();
        if self.fault.is_some() {
            count_one(&mut self.faults);
            note_failed(self.pulse);
        }
        self.fault.is_none()
    }
}
