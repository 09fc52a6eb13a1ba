//! The one connection to an infrastructure.
ghost use Rattle.std.specs.Prelude.{◌≡◌, ◌≤◌, ◌<◌, ◌^◌, ◌≢◌, [], IsTrue, IfOk, IfSome, OnErr, OnOk, None, Some, true};
ghost use Rattle.std.specs.Prelude.{false, IsErr};
ghost use Rattle.std.specs.Result.{is_ok, result_err};
ghost use Rattle.std.specs.String.{string_bytes};
ghost use Rattle.net_calls.specs.Network.{offer_of};
ghost use Rattle.peer_exchange.specs.Exchanges.{Counts, IsSent, IsTimed, last_look};
ghost use Rattle.vim_peers.specs.Lines.{IsLineOf, IsNoLine};
ghost use Rattle.vim_peers.specs.Links.{EndsBeforeNext, IsFree, IsReady, IsSpent};
ghost use Rattle.vim_peers.specs.Rests.{no_rest, rest_after, rests};
ghost use Rattle.vim_peers.specs.Sent.{ConnectsAtMostOnce, CountsOn, GoesOut, HadShown};

use crate::opened::Opened;
use crate::replies::LineReply;
use crate::resting::Rest;
use edge_limits::{CONNECT, ENDING, INFRASTRUCTURE};
use net_calls::{Connection, HostNet, Stopwatch};
use peer_exchange::{Lost, Room, exchange, look_now};
use std::alloc::{AllocError, Global};
use std::io::ErrorKind;
use vim_wire::{LINE_BYTES, VimReply};

/// Bytes that are dropped by one read.
const DROPPED_BYTES: usize = 4_096;

/// Reads in which a connection is to end.
const READS: u32 = 64;

/// An infrastructure's address, and the one connection to it.
#[derive(Drop)]
pub struct VimLink<N: HostNet + Drop, T: Stopwatch + Drop> {
    net: N,
    watch: T,
    address: String,
    opened: Option<Opened<N::Connection>>,
    rest: Rest,
    pub room: Room,
}

impl<N: HostNet + Drop, T: Stopwatch + Drop> VimLink<N, T> {
    /// A link to nowhere, with the room for every reply. No connection is open, and no silence was met.
    pub fn new(alloc: Global, net: N, watch: T) -> Result<VimLink<N, T>, AllocError>
        ensures { IfOk result (λ link. (link.opened ≡ None) × (link.net ≡ net) × (link.rest ≡ no_rest)) }
    {
        let room = Room::new(alloc, LINE_BYTES)?;
        Ok(VimLink {
            net,
            watch,
            address: String::new(alloc),
            opened: None,
            rest: Rest::none(),
            room,
        })
    }

    /// Calls go to this literal address and port from now on. A connection to another is kept until it has ended.
    pub fn to(&mut self, address: String)
        ensures { self.new ≡ record self.old { address = address } }
    {
        self.address = address;
    }

    /// Forgets what came, so that it isn't taken for a reply again.
    pub fn forget(&mut self)
        ensures nothing { self.new.room.bytes.items ≡ [] }
        ensures rest { self.new ≡ record self.old { room = self.new.room } }
    {
        self.room.bytes.clear();
    }

    /// Opens a connection where none is open, and in place of one that has ended. Whether one is open on which a call
    /// may be made. Where the one that is open failed and hasn't ended, or more than a call asked for came on it, there
    /// is no second one.
    pub fn connect(&mut self) -> bool
        ensures ready { IsTrue result → IsReady self.new.opened }
        ensures spent { result ≡ false → IsSpent self.new.opened }
        ensures room { (self.new.room ≡ self.old.room) × (self.new.rest ≡ self.old.rest) }
        ensures one { N.Connection.tells → EndsBeforeNext N.Connection.incoming self.old.opened self.new.opened }
        ensures sends_nothing { N.tells → N.Connection.tells
            → IfSome self.new.opened (λ o. HadShown N.Connection.outgoing self.old.opened
            (offer_of (N.peers self.old.net (string_bytes self.old.address))) (N.Connection.outgoing o.connection)) }
        ensures once { N.tells → ConnectsAtMostOnce (N.peers self.old.net (string_bytes self.old.address))
            (N.peers self.new.net (string_bytes self.old.address)) }
        ensures address { self.new.address ≡ self.old.address }
        ensures unreached { N.tells → self.new.opened ≡ None
            → offer_of (N.peers self.old.net (string_bytes self.old.address)) ≡ None }
        ensures counts_nothing { N.tells → N.Connection.tells → IsFree N.Connection.quiet self.old.opened
            → IfSome self.new.opened (λ o. HadShown N.Connection.vain self.old.opened
            (offer_of (N.peers self.old.net (string_bytes self.old.address))) (N.Connection.vain o.connection)) }
        ensures at_once { N.Connection.tells → IsFree N.Connection.quiet self.old.opened
            → (self.new.watch ≡ self.old.watch) × (self.new.opened ≢ None → IsTrue result) }
    {
        if let Some(opened) = &mut self.opened {
            if is_ready(opened) {
                return true;
            }
            if !has_ended(opened, &mut self.watch) {
                return false;
            }
        }
        self.opened = None;
        match self.net.connect(&self.address, CONNECT) {
            Ok(connection) => {
                self.opened = Some(Opened {
                    connection,
                    used: false,
                    failed: false,
                });
                true
            }
            Err(_) => false,
        }
    }

    /// The infrastructure has answered, so that no pause runs.
    pub fn wake(&mut self)
        ensures { self.new ≡ record self.old { rest = no_rest } }
    {
        self.rest = Rest::none();
    }

    /// Sends this line, which is of a look or an abort, once, and gives the reply; but while a pause behind a silence
    /// runs nothing is sent and nobody waited on, and there is none.
    pub fn ask(&mut self, line: &[u8]) -> Result<VimReply, Lost>
        ensures said { IfOk result (IsLineOf self.new.room.bytes.items) }
        ensures lost { OnErr result (IsNoLine self.new.room.bytes.items) }
        ensures sends { N.tells → N.Connection.tells → GoesOut N.Connection.outgoing line.now
            (is_ok result) self.old.opened (offer_of (N.peers self.old.net (string_bytes self.old.address)))
            self.new.opened }
        ensures rests { T.tells → IsTrue (rests self.old.rest (T.shows self.old.watch))
            → IsErr result × (self.new ≡ record self.old { watch = self.new.watch; room = self.new.room }) }
        ensures rest { T.tells → rests self.old.rest (T.shows self.old.watch) ≡ false
            → self.new.rest ≡ rest_after self.old.rest (is_ok result) (T.shows self.old.watch)
            (T.shown self.new.watch) }
    {
        self.forget();
        let began = self.watch.millis();
        if self.rest.runs(began) {
            return Err(Lost::Unsent);
        }
        let done = self.call(line);
        let ended = self.watch.millis();
        self.rest = self.rest.after(done.is_ok(), began, ended);
        done
    }

    /// Sends this line once, and gives the reply.
    pub fn call(&mut self, line: &[u8]) -> Result<VimReply, Lost>
        ensures said { IfOk result (IsLineOf self.new.room.bytes.items) }
        ensures lost { OnErr result (IsNoLine self.new.room.bytes.items) }
        ensures spent { OnErr result (IsSpent self.new.opened) }
        ensures one { N.Connection.tells → EndsBeforeNext N.Connection.incoming self.old.opened self.new.opened }
        ensures sends { N.tells → N.Connection.tells → GoesOut N.Connection.outgoing line.now
            (is_ok result) self.old.opened (offer_of (N.peers self.old.net (string_bytes self.old.address)))
            self.new.opened }
        ensures once { N.tells → ConnectsAtMostOnce (N.peers self.old.net (string_bytes self.old.address))
            (N.peers self.new.net (string_bytes self.old.address)) }
        ensures address { self.new.address ≡ self.old.address }
        ensures unreached { N.tells → self.new.opened ≡ None
            → offer_of (N.peers self.old.net (string_bytes self.old.address)) ≡ None }
        ensures rest { self.new.rest ≡ self.old.rest }
        ensures in_limits { N.Connection.tells → T.tells → IsFree N.Connection.quiet self.old.opened
            → IfSome self.new.opened (λ o. IsTimed self.new.room.most
            (last_look INFRASTRUCTURE (T.shows self.old.watch) (T.shown self.new.watch))
            (N.Connection.allowed o.connection) (result_err result)) }
        ensures counts { N.tells → N.Connection.tells → IsFree N.Connection.quiet self.old.opened
            → IfSome self.new.opened (CountsOn N.Connection.vain (result_err result) self.old.opened
            (offer_of (N.peers self.old.net (string_bytes self.old.address)))) }
    {
        self.forget();
        if !self.connect() {
            return Err(Lost::Unsent);
        }
        let Some(opened) = &mut self.opened else {
            return Err(Lost::Unsent);
        };
        call_on(opened, &mut self.watch, &mut self.room, line)
    }
}

/// Sends this line once on this connection, and gives the reply.
fn call_on<C: Connection + Drop, T: Stopwatch>(
    opened: &mut Opened<C>,
    watch: &mut T,
    room: &mut Room,
    line: &[u8],
) -> Result<VimReply, Lost>
    requires { opened.old.failed ≡ false }
    ensures said { IfOk result (IsLineOf room.new.bytes.items) }
    ensures lost { OnErr result (IsNoLine room.new.bytes.items) }
    ensures failed { OnErr result (opened.new.failed ≡ true) }
    ensures sound { OnOk result (opened.new.failed ≡ false) }
    ensures used { opened.new.used ≡ true }
    ensures sends { C.tells → IsSent (result_err result) line.now (C.outgoing opened.old.connection)
        (C.outgoing opened.new.connection) }
    ensures in_limits { C.tells → T.tells → IsTimed room.new.most
        (last_look INFRASTRUCTURE (T.shows watch.old) (T.shown watch.new))
        (C.allowed opened.new.connection) (result_err result) }
    ensures counts { C.tells → Counts (result_err result) (C.vain opened.old.connection)
        (C.vain opened.new.connection) }
{
    opened.used = true;
    let mut reply = LineReply::new();
    let done = exchange(
        &mut opened.connection,
        watch,
        &mut reply,
        line,
        room,
        INFRASTRUCTURE,
    );
    match (done, reply.found) {
        (Ok(_), Some(said)) => Ok(said),
        (Ok(_), None) => {
            opened.failed = true;
            Err(Lost::NoReply)
        }
        (Err(lost), _) => {
            opened.failed = true;
            Err(lost)
        }
    }
}

/// Whether a call may be made on this connection: none failed on it, and it hasn't ended, nor did something come that
/// no call asked for. What comes before the first call isn't looked at: the reply may be there already.
fn is_ready<C: Connection + Drop>(opened: &mut Opened<C>) -> bool
    ensures ready { IsTrue result → opened.new.failed ≡ false }
    ensures kept { (opened.new.used ≡ opened.old.used) × (opened.new.failed ≡ opened.old.failed) }
    ensures bytes { C.tells → C.incoming opened.new.connection ≡ C.incoming opened.old.connection }
    ensures sends_nothing { C.tells → C.outgoing opened.new.connection ≡ C.outgoing opened.old.connection }
    ensures counts_nothing { C.tells → C.vain opened.new.connection ≡ C.vain opened.old.connection }
    ensures free { C.tells → IsFree C.quiet (Some opened.old) → IsTrue result }
{
    !opened.failed && (!opened.used || opened.connection.is_quiet())
}

/// Ends this side of the connection, and reads what has come, without a wait. Whether it came to its end. No call is
/// made on it any more.
fn has_ended<C: Connection + Drop, T: Stopwatch>(opened: &mut Opened<C>, watch: &mut T) -> bool
    ensures failed { opened.new.failed ≡ true }
    ensures used { opened.new.used ≡ opened.old.used }
    ensures bytes { C.tells → (C.incoming opened.new.connection).bytes ≡ (C.incoming opened.old.connection).bytes }
    ensures ended { C.tells → IsTrue result → (C.incoming opened.new.connection).left ≡ [] }
    ensures sends_nothing { C.tells → C.outgoing opened.new.connection ≡ C.outgoing opened.old.connection }
{
    opened.failed = true;
    let _ = opened.connection.finish();
    let Some(began) = watch.millis() else {
        return false;
    };
    let mut dropped = [0u8; DROPPED_BYTES];
    'reads: for _ in 0..READS {
        if opened.connection.is_quiet() {
            return false;
        }
        let Some(look) = look_now(watch, ENDING, began) else {
            return false;
        };
        match opened.connection.read(&mut dropped, look.wait) {
            Ok(0) => return true,
            Ok(_) => {}
            Err(fault) if fault.kind() == ErrorKind::WouldBlock => return false,
            Err(_) => {}
        }
    }
    false
}
