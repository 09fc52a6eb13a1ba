//! A connection's requests, one by one.
ghost use Rattle.std.specs.Prelude.{◌≡◌, ◌≤◌, [], IfOk, true, false};
ghost use Rattle.std.specs.Borrow.{Lends, sem};
ghost use Rattle.http_wire.specs.contracts.wire.Wire.{the_row};
ghost use Rattle.http_wire.specs.Exact.{IsExact};
ghost use Rattle.http_wire.specs.Wire.{over_door, bytes_of, TakenIs, OnlyTakesIn, ReadCounts};

use crate::CONNECTION_REQUESTS;
use crate::intake::Intake;
use crate::request::{Taken, WireFault};
use crate::take::take;
use http_frames::FIELD_ROOM;
use httparse::spans::{EMPTY_HEADER_SPAN, HeaderSpan};
use site_traits::Door;
use std::alloc::{AllocError, Global};
use std::marker::Model;

/// A door, and the requests of its connection.
///
/// A contract sees what the door tells, its counts, the bytes that were read and belong to no request yet, the number
/// of requests so far, and whether the last of them was the connection's last.
pub struct Wire<D: Door> {
    intake: Intake<D>,
    room: Vec<HeaderSpan>,
    taken: u32,
    ended: bool,
}

impl<D: Door + Drop> Drop for Wire<D> {
    // Written out, so that the proof of a caller calls it and doesn't take the value apart at each of its ends.
    fn drop(self) {
        let Wire {
            intake: _,
            room: _,
            taken: _,
            ended: _,
        } = self;
    }
}

impl<D: Door> Model for Wire<D> {
    ghost use Rattle.std.specs.Prelude.{◌≡◌, ◌≤◌, ◌<◌, length, false};
    ghost use Rattle.http_frames.specs.declared.TheConstants.{FIELD_ROOM};
    ghost use Rattle.http_wire.specs.declared.TheConstants.{CONNECTION_REQUESTS};
    ghost use Rattle.http_wire.specs.Wire.{WireState};

    ghost Value = { WireState };

    ghost view = { λ w. record { intake = w.intake; taken = w.taken; ended = w.ended } };

    ghost invariant = { λ w. (FIELD_ROOM ≤ length w.room.items) × (w.taken ≤ CONNECTION_REQUESTS)
        × (w.ended ≡ false → w.taken < CONNECTION_REQUESTS) };
}

impl<D: Door> Wire<D> {
    /// A wire over this door, for a connection with no request before.
    ///
    /// After `AllocError` the door is dropped.
    pub fn new(alloc: Global, door: D) -> Result<Wire<D>, AllocError>
    where
        D: Drop,
        ensures door { IfOk result (λ w. w.intake.door ≡ D.state door) }
        ensures counts { IfOk result (λ w. w.intake.counts ≡ D.counts door) }
        ensures writes { IfOk result (λ w. w.intake.writes ≡ D.writes door) }
        ensures held { IfOk result (λ w. w.intake.held ≡ []) }
        ensures taken { IfOk result (λ w. w.taken ≡ 0) }
        ensures ended { IfOk result (λ w. w.ended ≡ false) }
    {
        let intake = Intake::new(alloc, door)?;
        let mut room = Vec::with_capacity(alloc, FIELD_ROOM)?;
        room.resize(FIELD_ROOM, EMPTY_HEADER_SPAN)?;
        Ok(Wire {
            intake,
            room,
            taken: 0,
            ended: false,
        })
    }

    /// The door.
    pub fn door(&self) -> &D
        ensures state { D.state result.now ≡ self.now.intake.door }
        ensures counts { D.counts result.now ≡ self.now.intake.counts }
        ensures writes { D.writes result.now ≡ self.now.intake.writes }
    {
        self.intake.door()
    }

    /// The door, to wait for a connection, to write, or to hang up. What is read from it here is lost to the wire.
    pub fn door_mut(&mut self) -> &mut D
        ensures* writes_back { sem 𝓛 (Lends (the_row D.row D.Door) D.row self.entry result
            (over_door D.state D.counts D.writes self.old)) }
        ensures state { D.state result.now ≡ self.old.intake.door }
        ensures counts { D.counts result.now ≡ self.old.intake.counts }
        ensures writes { D.writes result.now ≡ self.old.intake.writes }
    {
        self.intake.door_mut()
    }

    /// Begins a connection: no byte is held, and no request was taken.
    pub fn renew(&mut self)
        ensures door { self.new.intake.door ≡ self.old.intake.door }
        ensures counts { self.new.intake.counts ≡ self.old.intake.counts }
        ensures writes { self.new.intake.writes ≡ self.old.intake.writes }
        ensures held { self.new.intake.held ≡ [] }
        ensures taken { self.new.taken ≡ 0 }
        ensures ended { self.new.ended ≡ false }
    {
        self.intake.clear();
        self.taken = 0;
        self.ended = false;
    }

    /// Takes the next request of the connection, reading as little as it needs: a read begins only where the bytes that
    /// are held are none, or a part of a request, or stop inside a request target (the condition of `Intake::read_on`,
    /// the one call that reads), and none begins behind the connection's last request.
    ///
    /// Condition: the connection is up, unless its last request was taken.
    pub fn take_request(&mut self, alloc: Global) -> Result<Taken, WireFault>
        requires up { self.old.ended ≡ false → self.old.intake.counts.up ≡ true }
        ensures reads { OnlyTakesIn D.tells self.old.intake self.new.intake }
        ensures behind_the_last { self.old.ended ≡ true → self.new ≡ self.old }
        ensures taken { TakenIs D.tells self.old self.new result }
        ensures counts { ReadCounts result self.old.intake.counts self.new.intake.counts }
        ensures few { self.new.taken ≤ CONNECTION_REQUESTS }
        ensures exact { D.tells → self.old.ended ≡ false → IsExact (bytes_of self.old.intake) result }
    {
        if self.ended {
            return Ok(Taken::End);
        }
        let at_last = self.taken + 1 == CONNECTION_REQUESTS;
        match take(alloc, &mut self.intake, &mut self.room, at_last) {
            Ok(Some(request)) => {
                self.taken += 1;
                self.ended = request.last;
                Ok(Taken::Request(request))
            }
            Ok(None) => Ok(Taken::End),
            Err(fault) => Err(fault),
        }
    }
}
