//! The mouth: a wire, the request in hand, and the one call that writes to the door.
ghost use Rattle.std.specs.Prelude.{◌≡◌, ◌≤◌, ◌<◌, [], ◌∷◌, length, take, IfOk, Some, is_some, true, false};
ghost use Rattle.std.specs.Result.{is_err};
ghost use Rattle.served_account.specs.Beginning.{nothing_yet};
ghost use Rattle.site_traits.specs.Door.{Nexts, HangsUp, NextCause, closed};
ghost use Rattle.http_wire.specs.Wire.{OnlyTakesIn, ReadCounts};
ghost use Rattle.lcm_api.specs.Answering.{IsAcknowledged};
ghost use Rattle.lcm_replies.specs.Failing.{FailsOnce};
ghost use Rattle.lcm_replies.specs.Hearing.{Hears};
ghost use Rattle.lcm_mouth.specs.Account.{once_heard, once_told};
ghost use Rattle.lcm_mouth.specs.Mouth.{Begins, Heard, OnlyAtDoor};
ghost use Rattle.lcm_replies.specs.Response.{text};
ghost use Rattle.lcm_replies.specs.Telling.{AsksWrites, WorldTells, pieces};

use crate::account::last_heard;
use executor::Manager;
use http_wire::{CONNECTION_REQUESTS, Request, Taken, Wire, WireFault};
use lcm_events::Role;
use lcm_replies::{DoorFailed, Outgoing, Reading, Reply, read_to_end, tell_reply};
use lcm_routes::Routes;
use served_account::{Account, JsonBreak};
use site_traits::{Door, NextAnswer, Site};
use std::alloc::{AllocError, Global};
use std::marker::Model;
use told_moments::ToldMoments;

/// The requests of connections, with room for one answer and the paths that requests may name, and the request in hand
/// with the role that it was heard for.
///
/// It owns the wire and with it the door, and `tell` is the one call that writes to the door. Each telling is noted by
/// the moment of the site at which it came, which only proofs read. Beside it keeps account of what was heard and
/// answered, for a person who asks how a run went.
pub struct Mouth<D: Door> {
    wire: Wire<D>,
    outgoing: Outgoing,
    routes: Routes,
    hand: Option<Request>,
    role: Role,
    told: ToldMoments,
    account: Account,
}

impl<D: Door + Drop> Drop for Mouth<D> {
    // Written out, so that the proof of a caller calls it and doesn't take the value apart at each of its ends.
    fn drop(self) {
        let Mouth {
            wire: _,
            outgoing: _,
            routes: _,
            hand: _,
            role: _,
            told: _,
            account: _,
        } = self;
    }
}

impl<D: Door> Model for Mouth<D> {
    ghost use Rattle.lcm_mouth.specs.Mouth.{MouthState};

    ghost Value = { MouthState };

    ghost view = { λ m. record {
      wire = m.wire;
      hand = m.hand;
      role = m.role;
      told = m.told.moments;
      account = m.account;
    } };
}

impl<D: Door> Mouth<D> {
    /// A mouth over this door, for a connection with no request before. Where there is no memory, the door is dropped.
    pub fn new(alloc: Global, door: D) -> Result<Mouth<D>, AllocError>
    where
        D: Drop,
        ensures door { IfOk result (λ m. m.wire.intake.door ≡ D.state door) }
        ensures counts { IfOk result (λ m. m.wire.intake.counts ≡ D.counts door) }
        ensures writes { IfOk result (λ m. m.wire.intake.writes ≡ D.writes door) }
        ensures begins { IfOk result Begins }
        ensures unnoted { IfOk result (λ m. m.told ≡ []) }
        ensures account { IfOk result (λ m. m.account ≡ nothing_yet) }
    {
        let wire = Wire::new(alloc, door)?;
        let outgoing = Outgoing::new(alloc)?;
        let routes = Routes::new(alloc)?;
        Ok(Mouth {
            wire,
            outgoing,
            routes,
            hand: None,
            role: Role::Orchestrator,
            told: ToldMoments::new(),
            account: Account::new(),
        })
    }

    /// The door.
    pub fn door(&self) -> &D
        ensures state { D.state result.now ≡ self.now.wire.intake.door }
        ensures counts { D.counts result.now ≡ self.now.wire.intake.counts }
        ensures writes { D.writes result.now ≡ self.now.wire.intake.writes }
    {
        self.wire.door()
    }

    /// Waits for the next connection. Afterwards the wire is as new and no request is in hand, whether one came or not.
    pub fn next(&mut self) -> NextAnswer
        ensures told { D.tells → Nexts result self.old.wire.intake.door self.new.wire.intake.door }
        ensures cause { NextCause result self.old.wire.intake.counts self.new.wire.intake.counts }
        ensures no_write { self.new.wire.intake.writes ≡ self.old.wire.intake.writes }
        ensures begins { Begins self.new }
        ensures role { self.new.role ≡ self.old.role }
        ensures unnoted { self.new.told ≡ self.old.told }
        ensures account { self.new.account ≡ self.old.account }
    {
        self.hand = None;
        self.wire.renew();
        self.wire.door_mut().next()
    }

    /// Ends the connection. Condition: it is up.
    pub fn hang_up(&mut self)
        requires up { self.old.wire.intake.counts.up ≡ true }
        ensures told { D.tells → HangsUp self.old.wire.intake.door self.new.wire.intake.door }
        ensures cause { self.new.wire.intake.counts ≡ closed self.old.wire.intake.counts }
        ensures no_write { self.new.wire.intake.writes ≡ self.old.wire.intake.writes }
        ensures kept { OnlyAtDoor self.old self.new }
        ensures unnoted { self.new.told ≡ self.old.told }
        ensures account { self.new.account ≡ self.old.account }
    {
        self.wire.door_mut().hang_up();
    }

    /// Reads what is left of the connection at hand to its end, or until the room is full. The wire doesn't see these
    /// bytes.
    ///
    /// Condition: the connection is up.
    /// Where a read failed, the answer says so, and the door's count of faults rose by one; the bytes before it were
    /// read. Else the counts stay.
    pub fn read_to_end(&mut self, room: &mut [u8]) -> Reading
        requires up { self.old.wire.intake.counts.up ≡ true }
        ensures within { result.count ≤ length room.old }
        ensures told { D.tells → Hears (length room.old) (take result.count room.new) result.failed
            self.old.wire.intake.door self.new.wire.intake.door }
        ensures cause { FailsOnce result.failed self.old.wire.intake.counts self.new.wire.intake.counts }
        ensures no_write { self.new.wire.intake.writes ≡ self.old.wire.intake.writes }
        ensures kept { OnlyAtDoor self.old self.new }
        ensures unnoted { self.new.told ≡ self.old.told }
        ensures account { self.new.account ≡ self.old.account }
    {
        read_to_end(self.wire.door_mut(), room)
    }

    /// Takes the next request of the connection in hand, for this role, reading no more than it needs. The answer says
    /// whether there was one: there is none where no byte is left or the request before was the connection's last.
    ///
    /// Condition: the connection is up, unless its last request was taken.
    /// Refusals: those of the wire, `Malformed`, `TooLarge`, `Unfinished`, `Read` and `Memory`. After a refusal, and
    /// where there was none, no request is in hand, and no byte is lost.
    /// Source: RFC 9112 2.1, 6, 9.6; the limits are an own rule.
    pub fn hear(&mut self, alloc: Global, role: Role) -> Result<bool, WireFault>
        requires up { self.old.wire.ended ≡ false → self.old.wire.intake.counts.up ≡ true }
        ensures reads { OnlyTakesIn D.tells self.old.wire.intake self.new.wire.intake }
        ensures behind_the_last { self.old.wire.ended ≡ true → self.new.wire ≡ self.old.wire }
        ensures heard { Heard D.tells result self.old self.new }
        ensures role { self.new.role ≡ role }
        ensures counts { ReadCounts result self.old.wire.intake.counts self.new.wire.intake.counts }
        ensures few { self.new.wire.taken ≤ CONNECTION_REQUESTS }
        ensures unnoted { self.new.told ≡ self.old.told }
        ensures account { self.new.account ≡ once_heard result self.old.account }
    {
        let heard = self.take_in_hand(alloc, role);
        self.account.last = last_heard(&heard);
        heard
    }

    /// Takes the next request of the connection in hand, for this role.
    fn take_in_hand(&mut self, alloc: Global, role: Role) -> Result<bool, WireFault>
        requires up { self.old.wire.ended ≡ false → self.old.wire.intake.counts.up ≡ true }
        ensures reads { OnlyTakesIn D.tells self.old.wire.intake self.new.wire.intake }
        ensures behind_the_last { self.old.wire.ended ≡ true → self.new.wire ≡ self.old.wire }
        ensures heard { Heard D.tells result self.old self.new }
        ensures role { self.new.role ≡ role }
        ensures counts { ReadCounts result self.old.wire.intake.counts self.new.wire.intake.counts }
        ensures few { self.new.wire.taken ≤ CONNECTION_REQUESTS }
        ensures unnoted { self.new.told ≡ self.old.told }
        ensures account { self.new.account ≡ self.old.account }
    {
        self.hand = None;
        self.role = role;
        match self.wire.take_request(alloc)? {
            Taken::Request(request) => {
                self.hand = Some(request);
                Ok(true)
            }
            Taken::End => Ok(false),
        }
    }

    /// Tells a reply to the connection, by one write for a reply of at most 65,536 bytes and two for a longer one, and
    /// one more for each that takes less than it is offered. No other call of the mouth writes.
    ///
    /// Condition: the connection is up. Condition of a reply below 400: the manager is open, the reply is the outcome
    /// of the request in hand for its role, and its events end the manager's history, which every stop leaves.
    /// Refusal: `DoorFailed` where a write failed: the door's count of faults rose by one, and a front of the bytes
    /// went out. Where the reply was told whole the counts stay. Whether it was told whole or not, the site's moment is
    /// noted. Source: RFC 9112 4, 5, 6.2, 9.6.
    pub fn tell<S: Site>(
        &mut self,
        manager: &Manager<S>,
        site: &S,
        reply: &Reply,
    ) -> Result<(), DoorFailed>
        requires up { self.old.wire.intake.counts.up ≡ true }
        requires acknowledged { reply.now.status < 400 → IsAcknowledged S.tells manager.now
            (S.state site.now) self.old.hand self.old.role reply.now }
        ensures told { D.tells → WorldTells (text reply.now) result self.old.wire.intake.door
            self.new.wire.intake.door }
        ensures cause { FailsOnce (is_err result) self.old.wire.intake.counts self.new.wire.intake.counts }
        ensures asks { AsksWrites (pieces (length (text reply.now))) result self.old.wire.intake.writes
            self.new.wire.intake.writes }
        ensures kept { OnlyAtDoor self.old self.new }
        ensures noted { self.new.told ≡ (S.state site.now).moment ∷ self.old.told }
        ensures account { self.new.account ≡ once_told self.old.hand result self.old.account }
    {
        self.told = self.told.with(site);
        let told = tell_reply(self.wire.door_mut(), &mut self.outgoing, reply);
        if told.is_ok() && self.hand.is_some() {
            self.account.answered = self.account.answered.saturating_add(1);
        }
        told
    }

    /// Notes where a document that was read ends being JSON. Nothing else changes.
    ///
    /// Source: own rule.
    pub fn note_break(&mut self, at: Option<JsonBreak>)
        ensures { self.new ≡ record self.old { account = record self.old.account { broken = at } } }
    {
        self.account.broken = at;
    }

    /// What was heard and answered so far.
    ///
    /// Source: own rule.
    pub fn account(&self) -> Account
        ensures { result ≡ self.now.account }
    {
        self.account
    }

    /// The paths that a request may name.
    pub fn routes(&self) -> &Routes {
        &self.routes
    }

    /// Whom the request in hand was heard for.
    pub fn role(&self) -> Role
        ensures { result ≡ self.now.role }
    {
        self.role
    }

    /// The request in hand. Condition: one is in hand.
    pub fn request(&self) -> &Request
        requires { is_some self.now.hand ≡ true }
        ensures { self.now.hand ≡ Some result.now }
    {
        match &self.hand {
            Some(request) => request,
            None => unreachable!(),
        }
    }
}
