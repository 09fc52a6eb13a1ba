//! Calls on jobs, each a line.
ghost use Rattle.std.specs.Prelude.{◌≡◌, ◌∷◌, [], false, IfOk, IfSome, IsTrue, None, OnErr, OnOk};
ghost use Rattle.std.specs.String.{string_bytes};
ghost use Rattle.net_calls.specs.Network.{offer_of};
ghost use Rattle.outside_edges.specs.Jobs.{JobCall};
ghost use Rattle.vim_wire.specs.Lines.{call_line};
ghost use Rattle.vim_wire.specs.declared.lines.VimCall.TheVariants as calls;
ghost use Rattle.vim_peers.specs.Links.{IsReady, IsSaid, abort_by, begin_by, look_by};
ghost use Rattle.vim_peers.specs.Rests.{no_rest, rests};
ghost use Rattle.vim_peers.specs.Sent.{GoesOut, HadShown, has_aborted, has_begun, has_looked};

use crate::link::VimLink;
use edge_limits::Pulse;
use lcm_events::{Act, Tag};
use net_calls::{HostNet, Stopwatch};
use outside_edges::{JobLog, Jobs};
use peer_exchange::{note_asked, note_failed};
use site_traits::{AbortAnswer, BeginAnswer, LookAnswer};
use std::alloc::{AllocError, Global};
use std::cell::Cell;
use std::fs::File;
use vim_wire::{VimReply, abort_line, begin_line, look_line};

/// Names in the longest list of a line.
const MOST_NAMES: usize = 128;

/// The infrastructure at an address. Until it has an address, and where that leads nowhere, each call fails.
#[derive(Drop)]
pub struct VimPeer<'a, N: HostNet + Drop, T: Stopwatch + Drop> {
    alloc: Global,
    link: VimLink<N, T>,
    pulse: &'a Cell<Pulse>,
    manager: u32,
    log: JobLog,
}

impl<'a, N: HostNet + Drop, T: Stopwatch + Drop> VimPeer<'a, N, T> {
    /// One that has no address yet, for the manager 0, on which no call was made. Its one refusal is want of memory.
    pub fn made(
        alloc: Global,
        net: N,
        watch: T,
        pulse: &'a Cell<Pulse>,
    ) -> Result<VimPeer<'a, N, T>, AllocError>
        ensures { IfOk result (λ peer. (peer.manager ≡ 0) × (peer.log.calls ≡ []) × (peer.link.opened ≡ None)
            × (peer.link.net ≡ net)) }
    {
        let link = VimLink::new(alloc, net, watch)?;
        Ok(VimPeer {
            alloc,
            link,
            pulse,
            manager: 0,
            log: JobLog::new(),
        })
    }

    /// Calls go to this literal address and port from now on. Its one refusal is want of memory.
    pub fn to(&mut self, address: &str) -> Result<(), AllocError>
        ensures to { OnOk result (self.new ≡ record self.old {
          link =
              record self.old.link { address = self.new.link.address };
        }) }
        ensures address { OnOk result (string_bytes self.new.link.address ≡ address.now) }
        ensures refused { OnErr result (self.new ≡ self.old) }
    {
        let kept = String::from_str(self.alloc, address)?;
        self.link.to(kept);
        Ok(())
    }
}

/// Beside a real file, which tells nothing, it may be reached.
impl<'a, N: HostNet + Drop, T: Stopwatch + Drop> Jobs<File> for VimPeer<'a, N, T> {
    ghost manager = { λ peer. peer.manager };

    ghost calls = { λ peer. peer.log.calls };

    fn of_manager(&mut self, number: u32) {
        self.manager = number;
    }

    fn connect(&mut self) -> bool
        ensures vain { ⊥ → result ≡ false }
        ensures manager { self.new.manager ≡ self.old.manager }
        ensures asks { self.new.log.calls ≡ JobCall.connecting result ∷ self.old.log.calls }
        ensures ready { IsTrue result → IsReady self.new.link.opened }
        ensures sends_nothing { N.tells → N.Connection.tells
            → IfSome self.new.link.opened (λ o. HadShown N.Connection.outgoing self.old.link.opened
            (offer_of (N.peers self.old.link.net (string_bytes self.old.link.address)))
            (N.Connection.outgoing o.connection)) }
    {
        let open = self.link.connect();
        if !open {
            note_failed(self.pulse);
        }
        self.log = self.log.with(&open);
        open
    }

    fn begin(&mut self, tag: &Tag, act: &Act) -> BeginAnswer
        ensures vain { ⊥ → result ≡ BeginAnswer.Failed }
        ensures manager { self.new.manager ≡ self.old.manager }
        ensures asks { self.new.log.calls ≡ JobCall.beginning tag.now act.now result ∷ self.old.log.calls }
        ensures said { IsSaid begin_by BeginAnswer.Failed self.new.link.room.bytes.items result }
        ensures sends { N.tells → N.Connection.tells → GoesOut N.Connection.outgoing
            (call_line (calls.Begin self.old.manager tag.now act.now)) (has_begun result) self.old.link.opened
            (offer_of (N.peers self.old.link.net (string_bytes self.old.link.address))) self.new.link.opened }
    {
        let answer = begun(self.alloc, &mut self.link, self.manager, tag, act);
        if let BeginAnswer::Failed = answer {
            note_failed(self.pulse);
        } else {
            self.link.wake();
        }
        self.log = self.log.with(&(tag, act, answer));
        answer
    }

    fn look(&mut self, tag: &Tag) -> LookAnswer
        ensures vain { ⊥ → result ≡ LookAnswer.Failed }
        ensures manager { self.new.manager ≡ self.old.manager }
        ensures asks { self.new.log.calls ≡ JobCall.looking tag.now result ∷ self.old.log.calls }
        ensures said { IsSaid look_by LookAnswer.Failed self.new.link.room.bytes.items result }
        ensures sends { N.tells → N.Connection.tells → GoesOut N.Connection.outgoing
            (call_line (calls.Look self.old.manager tag.now)) (has_looked result) self.old.link.opened
            (offer_of (N.peers self.old.link.net (string_bytes self.old.link.address))) self.new.link.opened }
        ensures rests { T.tells → IsTrue (rests self.old.link.rest (T.shows self.old.link.watch))
            → (result ≡ LookAnswer.Failed) × (self.new.link.net ≡ self.old.link.net)
            × (self.new.link.opened ≡ self.old.link.opened) }
    {
        note_asked(self.pulse);
        let answer = looked(self.alloc, &mut self.link, self.manager, tag);
        if let LookAnswer::Failed = answer {
            note_failed(self.pulse);
        }
        self.log = self.log.with(&(tag, &answer));
        answer
    }

    fn abort(&mut self, tag: &Tag) -> AbortAnswer
        ensures vain { ⊥ → result ≡ AbortAnswer.Failed }
        ensures manager { self.new.manager ≡ self.old.manager }
        ensures asks { self.new.log.calls ≡ JobCall.aborting tag.now result ∷ self.old.log.calls }
        ensures said { IsSaid abort_by AbortAnswer.Failed self.new.link.room.bytes.items result }
        ensures sends { N.tells → N.Connection.tells → GoesOut N.Connection.outgoing
            (call_line (calls.Abort self.old.manager tag.now)) (has_aborted result) self.old.link.opened
            (offer_of (N.peers self.old.link.net (string_bytes self.old.link.address))) self.new.link.opened }
        ensures rests { T.tells → IsTrue (rests self.old.link.rest (T.shows self.old.link.watch))
            → (result ≡ AbortAnswer.Failed) × (self.new.link.net ≡ self.old.link.net)
            × (self.new.link.opened ≡ self.old.link.opened) }
    {
        let answer = aborted(self.alloc, &mut self.link, self.manager, tag);
        if let AbortAnswer::Failed = answer {
            note_failed(self.pulse);
        }
        self.log = self.log.with(&(tag, &answer));
        answer
    }
}

/// What came of a begin. A reply to another call is a fault.
fn begun<N: HostNet + Drop, T: Stopwatch + Drop>(
    alloc: Global,
    link: &mut VimLink<N, T>,
    manager: u32,
    tag: &Tag,
    act: &Act,
) -> BeginAnswer
    ensures said { IsSaid begin_by BeginAnswer.Failed link.new.room.bytes.items result }
    ensures sends { N.tells → N.Connection.tells → GoesOut N.Connection.outgoing
        (call_line (calls.Begin manager tag.now act.now)) (has_begun result) link.old.opened
        (offer_of (N.peers link.old.net (string_bytes link.old.address))) link.new.opened }
{
    link.forget();
    if act.on.len() > MOST_NAMES {
        return BeginAnswer::Failed;
    }
    let Ok(line) = begin_line(alloc, manager, tag, act) else {
        return BeginAnswer::Failed;
    };
    match link.call(line.as_slice()) {
        Ok(reply) => begin_answer(reply),
        Err(_) => BeginAnswer::Failed,
    }
}

/// What this reply says of a begin.
fn begin_answer(reply: VimReply) -> BeginAnswer
    ensures { result ≡ begin_by reply }
{
    match reply {
        VimReply::Begun => BeginAnswer::Begun,
        VimReply::Refused(code) => BeginAnswer::Refused(code),
        _ => BeginAnswer::Failed,
    }
}

/// What came of a look. A reply to another call is a fault.
fn looked<N: HostNet + Drop, T: Stopwatch + Drop>(
    alloc: Global,
    link: &mut VimLink<N, T>,
    manager: u32,
    tag: &Tag,
) -> LookAnswer
    ensures said { IsSaid look_by LookAnswer.Failed link.new.room.bytes.items result }
    ensures sends { N.tells → N.Connection.tells → GoesOut N.Connection.outgoing
        (call_line (calls.Look manager tag.now)) (has_looked result) link.old.opened
        (offer_of (N.peers link.old.net (string_bytes link.old.address))) link.new.opened }
    ensures rests { T.tells → IsTrue (rests link.old.rest (T.shows link.old.watch))
        → (result ≡ LookAnswer.Failed) × (link.new.net ≡ link.old.net) × (link.new.opened ≡ link.old.opened) }
{
    link.forget();
    let Ok(line) = look_line(alloc, manager, tag) else {
        return LookAnswer::Failed;
    };
    match link.ask(line.as_slice()) {
        Ok(reply) => look_answer(reply),
        Err(_) => LookAnswer::Failed,
    }
}

/// What this reply says of a look.
fn look_answer(reply: VimReply) -> LookAnswer
    ensures { result ≡ look_by reply }
{
    match reply {
        VimReply::Absent => LookAnswer::Absent,
        VimReply::Running => LookAnswer::Running,
        VimReply::Done(name) => LookAnswer::Done(name),
        VimReply::Broken(code) => LookAnswer::Broken(code),
        VimReply::Aborted => LookAnswer::Aborted,
        _ => LookAnswer::Failed,
    }
}

/// What came of an abort. A reply to another call is a fault.
fn aborted<N: HostNet + Drop, T: Stopwatch + Drop>(
    alloc: Global,
    link: &mut VimLink<N, T>,
    manager: u32,
    tag: &Tag,
) -> AbortAnswer
    ensures said { IsSaid abort_by AbortAnswer.Failed link.new.room.bytes.items result }
    ensures sends { N.tells → N.Connection.tells → GoesOut N.Connection.outgoing
        (call_line (calls.Abort manager tag.now)) (has_aborted result) link.old.opened
        (offer_of (N.peers link.old.net (string_bytes link.old.address))) link.new.opened }
    ensures rests { T.tells → IsTrue (rests link.old.rest (T.shows link.old.watch))
        → (result ≡ AbortAnswer.Failed) × (link.new.net ≡ link.old.net) × (link.new.opened ≡ link.old.opened) }
{
    link.forget();
    let Ok(line) = abort_line(alloc, manager, tag) else {
        return AbortAnswer::Failed;
    };
    match link.ask(line.as_slice()) {
        Ok(reply) => abort_answer(reply),
        Err(_) => AbortAnswer::Failed,
    }
}

/// What this reply says of an abort.
fn abort_answer(reply: VimReply) -> AbortAnswer
    ensures { result ≡ abort_by reply }
{
    match reply {
        VimReply::Asked => AbortAnswer::Asked,
        _ => AbortAnswer::Failed,
    }
}
