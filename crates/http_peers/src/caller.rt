//! Exchanges over HTTP, each on a connection of its own.
ghost use Rattle.std.specs.Prelude.{◌≡◌, ◌⊎◌, ◌<◌, ◌^◌, [], All, None, IfErr, IfOk, IfSome, OnErr, OnOk};
ghost use Rattle.std.specs.Result.{result_err};
ghost use Rattle.std.specs.String.{string_bytes};
ghost use Rattle.http_client.specs.Requests.{request};
ghost use Rattle.net_calls.specs.Network.{offer_of};
ghost use Rattle.http_peers.specs.Kept.{GoesOn, KeptGoesOn, limits_by};
ghost use Rattle.http_peers.specs.Peers.{IsWholeAnswer};
ghost use Rattle.http_peers.specs.Sent.{Calls, ConnectsAtMostOnce, IsConnected, IsInLimits, IsLostBy, IsOpenTo};
ghost use Rattle.http_peers.specs.Sent.{IsHeardFrom, IsUnopened, IsWhyUnopened};

use crate::faults::CallFault;
use crate::kept::{KEPT_BYTES, Kept, limits_for, note_answer, note_silence, put_in, take_out};
use crate::opened::Opened;
use crate::replies::HttpReply;
use crate::sent_log::SentLog;
use crate::targets::Target;
use edge_limits::{CONNECT, Exchange};
use http::Method;
use http_client::request_bytes;
use net_calls::{HostNet, Stopwatch};
use peer_exchange::{Lost, Progress, Room, exchange, go_on};
use std::alloc::{AllocError, Global};
use std::mem;
use vnfm_base::Bytes;

/// Bytes of the longest answer, with the interim ones in front of it.
const ANSWER_BYTES: usize = 8_650_752;

/// Makes exchanges with peers over HTTP.
#[derive(Drop)]
pub struct HttpCaller<N: HostNet + Drop, T: Stopwatch + Drop> {
    net: N,
    watch: T,
    opened: Option<Opened<N::Connection>>,
    pub kept: Vec<Kept<N::Connection>>,
    pub silent: Vec<String>,
    pub room: Room,
    pub reply: HttpReply,
    pub log: SentLog,
}

impl<N: HostNet + Drop, T: Stopwatch + Drop> HttpCaller<N, T> {
    /// It takes the room for every answer. No connection is open, and nothing went out.
    pub fn new(alloc: Global, net: N, watch: T) -> Result<HttpCaller<N, T>, AllocError>
        ensures nothing { IfOk result (λ c. (c.opened ≡ None) × (c.log.sent ≡ [])) }
        ensures none_kept { IfOk result (λ c. c.kept.items ≡ []) }
        ensures over { IfOk result (λ c. (c.net ≡ net) × (c.watch ≡ watch)) }
    {
        let room = Room::new(alloc, ANSWER_BYTES)?;
        let reply = HttpReply::new(alloc)?;
        Ok(HttpCaller {
            net,
            watch,
            opened: None,
            kept: Vec::new(alloc),
            silent: Vec::new(alloc),
            room,
            reply,
            log: SentLog::new(),
        })
    }

    /// Closes the connection that is open.
    pub fn close(&mut self)
        ensures { self.new ≡ record self.old { opened = None } }
    {
        self.opened = None;
    }

    /// Opens a connection to this address where none to it is open. Where it fails, none is open then.
    ///
    /// Failures: `Unreached` where the network gives none; `Memory`, where none to it was open.
    pub fn connect(&mut self, alloc: Global, address: &str) -> Result<(), CallFault>
        ensures opens { OnOk result (IsOpenTo address.now self.new.opened) }
        ensures none { OnErr result (self.new.opened ≡ None) }
        ensures fault { IfErr result IsUnopened }
        ensures had { N.tells → IfSome self.new.opened (IsConnected self.old.opened
            (λ a. offer_of (N.peers self.old.net a))) }
        ensures why { N.tells → IfErr result (IsWhyUnopened self.old.opened
            (λ a. offer_of (N.peers self.old.net a)) address.now) }
        ensures once { N.tells → ConnectsAtMostOnce (N.peers self.old.net address.now)
            (N.peers self.new.net address.now) }
        ensures rest { self.new ≡ record self.old { net = self.new.net; opened = self.new.opened } }
    {
        if let Some(opened) = &self.opened {
            if opened.address.as_str() == address {
                return Ok(());
            }
        }
        self.opened = None;
        let Ok(kept) = String::from_str(alloc, address) else {
            return Err(CallFault::Memory);
        };
        match self.net.connect(address, CONNECT) {
            Ok(connection) => {
                self.opened = Some(Opened {
                    address: kept,
                    connection,
                });
                Ok(())
            }
            Err(_) => Err(CallFault::Unreached),
        }
    }

    /// Hears the answer to a request of this body to this target: of an exchange of that very request that was kept, or
    /// of one that is begun for it, by sending the request once, on the connection to the target that is open, or on one
    /// that is opened for it. It is waited for within these limits, and behind a silence of that address, until it
    /// answers again, not at all. An exchange that was sent and whose answer isn't whole in its time is kept. No connection is
    /// open then.
    ///
    /// Failures: `Unreached` where the network gives no connection, and `Memory`, behind which nothing was sent; `Lost`
    /// where the exchange was lost, and `Lost(Unread)` too where one that was kept has no answer yet, or won't have one.
    pub fn call(
        &mut self,
        alloc: Global,
        method: &Method,
        target: &Target,
        body: &[u8],
        limits: Exchange,
    ) -> Result<(), CallFault>
        requires { limits.silence < 2 ^ 32 }
        ensures heard { OnOk result (IsWholeAnswer self.new.room.bytes.items self.new.reply.heard) }
        ensures sends { N.tells → N.Connection.tells → Calls N.Connection.outgoing N.Connection.incoming
            N.Connection.vain self.old.opened (λ a. offer_of (N.peers self.old.net a))
            (λ t. t ≡ target.now) (λ host path. request method.now host path body.now) (limits_by self.old.silent.items limits)
            (IsHeardFrom self.new.room.bytes.items self.new.reply.heard) (result_err result)
            self.old.kept.items self.new.kept.items self.old.log.sent self.new.log.sent }
        ensures own { N.Connection.tells → All (KeptGoesOn N.Connection.outgoing N.Connection.incoming)
            self.old.kept.items → All (KeptGoesOn N.Connection.outgoing N.Connection.incoming) self.new.kept.items }
        ensures lost { IfErr result (IsLostBy self.new.reply.heard self.new.room.most self.new.room.bytes.items) }
        ensures in_limits { N.Connection.tells → T.tells → (self.new.log.sent ≡ self.old.log.sent)
            ⊎ IsInLimits self.new.room.most (T.shows self.old.watch) (T.shown self.new.watch) (result_err result)
            self.new.log.sent }
        ensures closed { self.new.opened ≡ None }
    {
        let Ok(bytes) = request_bytes(alloc, method, &target.host, &target.path, body) else {
            self.close();
            return Err(CallFault::Memory);
        };
        let limits = limits_for(&self.silent, &target.address, limits);
        if let Some(kept) = take_out(&mut self.kept, &target.address, bytes.as_slice()) {
            return self.take_up(alloc, kept);
        }
        if let Err(fault) = self.connect(alloc, &target.address) {
            return Err(fault);
        }
        let Some(mut opened) = self.opened.take() else {
            return Err(CallFault::Unreached);
        };
        self.reply.renew();
        let done = exchange(
            &mut opened.connection,
            &mut self.watch,
            &mut self.reply,
            bytes.as_slice(),
            &mut self.room,
            limits,
        );
        let ended = (opened, limits);
        self.log = self.log.with(&ended);
        match done {
            Ok(_) => {
                note_answer(&mut self.silent, &target.address);
                Ok(())
            }
            Err(Lost::Unread) => {
                self.keep(alloc, ended.0, bytes);
                Err(CallFault::Lost(Lost::Unread))
            }
            Err(lost) => Err(CallFault::Lost(lost)),
        }
    }

    /// Keeps the exchange of this request on this connection, whose answer is the one in the room as far as it has come.
    /// Where that is too long already, or there is no memory, the connection is closed.
    fn keep(&mut self, alloc: Global, opened: Opened<N::Connection>, request: Bytes)
        ensures own { N.Connection.tells → GoesOn N.Connection.outgoing N.Connection.incoming opened.connection request
            self.old.room.bytes.items
            → All (KeptGoesOn N.Connection.outgoing N.Connection.incoming) self.old.kept.items
            → All (KeptGoesOn N.Connection.outgoing N.Connection.incoming) self.new.kept.items }
        ensures room { self.new.room.bytes.items ≡ [] }
        ensures most { self.new.room.most ≡ self.old.room.most }
        ensures rest { self.new ≡ record self.old {
          kept = self.new.kept;
          silent = self.new.silent;
          room = self.new.room;
        } }
    {
        note_silence(alloc, &mut self.silent, &opened.address);
        let came = mem::replace(&mut self.room.bytes, Vec::new(alloc));
        if came.len() > KEPT_BYTES {
            return;
        }
        put_in(
            &mut self.kept,
            Kept {
                address: opened.address,
                request,
                connection: opened.connection,
                came,
                looks: 0,
            },
        );
    }

    /// Hears the answer of this exchange, as far as it has come; where it may still come, the exchange is kept.
    fn take_up(&mut self, alloc: Global, kept: Kept<N::Connection>) -> Result<(), CallFault>
        ensures heard { OnOk result (IsWholeAnswer self.new.room.bytes.items self.new.reply.heard) }
        ensures hears { N.Connection.tells → OnOk result ((goes : KeptGoesOn N.Connection.outgoing N.Connection.incoming kept)
            → IsHeardFrom self.new.room.bytes.items self.new.reply.heard (N.Connection.incoming goes.began).left) }
        ensures taken { OnOk result (self.new.kept.items ≡ self.old.kept.items) }
        ensures own { N.Connection.tells → KeptGoesOn N.Connection.outgoing N.Connection.incoming kept
            → All (KeptGoesOn N.Connection.outgoing N.Connection.incoming) self.old.kept.items
            → All (KeptGoesOn N.Connection.outgoing N.Connection.incoming) self.new.kept.items }
        ensures fault { IfErr result (λ fault. fault ≡ CallFault.Lost Lost.Unread) }
        ensures nothing { OnErr result (self.new.room.bytes.items ≡ []) }
        ensures log { self.new.log ≡ self.old.log }
        ensures closed { self.new.opened ≡ None }
    {
        self.close();
        let Kept {
            address,
            request,
            mut connection,
            came,
            looks,
        } = kept;
        self.room.bytes = came;
        self.reply.renew();
        match go_on(&mut connection, &mut self.reply, &mut self.room) {
            Progress::Whole => {
                note_answer(&mut self.silent, &address);
                return Ok(());
            }
            Progress::Part => {
                let came = mem::replace(&mut self.room.bytes, Vec::new(alloc));
                if came.len() <= KEPT_BYTES {
                    put_in(
                        &mut self.kept,
                        Kept {
                            address,
                            request,
                            connection,
                            came,
                            looks: looks.saturating_add(1),
                        },
                    );
                }
            }
            Progress::Lost => self.room.bytes.clear(),
        }
        Err(CallFault::Lost(Lost::Unread))
    }
}
