//! A door that tells a person, between two connections, which peers' calls fail.
ghost use Rattle.std.specs.Prelude.{◌≡◌, ◌≤◌, length, true};
ghost use Rattle.site_traits.specs.Door.{HangsUp, IsAmount, IsTaken, NextCause, Nexts, ReadCause, ReadsIn, WriteCause};
ghost use Rattle.site_traits.specs.Door.{WritesOut, asked_for, closed};
ghost use Rattle.served_edges.specs.Told.{nothing_told};

use crate::faults::{PeerFaults, PeerKind, Told, fault_line};
use net_calls::Stopwatch;
use site_traits::{Door, NextAnswer, ReadAnswer, Sink, WriteAnswer};

/// A door whose calls that fail are counted beside those of the other peers. Each time that it is asked for a connection
/// it puts a line for each kind of peer of which more calls failed than it told of, at most one a second for each kind.
///
/// It tells nothing of connections, which are many. Source: own rule.
#[derive(Drop)]
pub struct ServedDoor<'a, D: Door + Drop, T: Stopwatch + Drop, W: Sink + Drop> {
    door: D,
    watch: T,
    out: W,
    faults: &'a PeerFaults,
    client: Told,
    orchestrator: Told,
    infrastructure: Told,
    subscriber: Told,
}

impl<'a, D: Door + Drop, T: Stopwatch + Drop, W: Sink + Drop> ServedDoor<'a, D, T, W> {
    /// This door, whose lines go to `out` by what is counted there. Nothing was told yet.
    pub fn made(door: D, watch: T, out: W, faults: &'a PeerFaults) -> ServedDoor<'a, D, T, W>
        ensures { (result.door ≡ door) × (result.watch ≡ watch) × (result.out ≡ out) }
    {
        ServedDoor {
            door,
            watch,
            out,
            faults,
            client: Told::nothing(),
            orchestrator: Told::nothing(),
            infrastructure: Told::nothing(),
            subscriber: Told::nothing(),
        }
    }
}

/// Tells of the calls on peers of this kind, so many of which failed, where that is due now.
fn tell<W: Sink>(out: &mut W, told: &mut Told, kind: PeerKind, count: u64, now: u64) {
    if !told.is_due(count, now) {
        return;
    }
    // A line that can't be put is no reason to stop.
    let _ = out.put(fault_line(kind, count).as_str().as_bytes());
    *told = Told {
        count,
        at: Some(now),
    };
}

impl<'a, D: Door + Drop, T: Stopwatch + Drop, W: Sink + Drop> Door for ServedDoor<'a, D, T, W> {
    ghost use Rattle.served_edges.specs.Told.{nothing_told};

    ghost tells = { ⊥ };

    ghost state = { λ _. nothing_told };

    ghost counts = { λ d. D.counts d.door };

    ghost writes = { λ d. D.writes d.door };

    fn next(&mut self) -> NextAnswer
        ensures told { ⊥ → Nexts result nothing_told nothing_told }
        ensures cause { NextCause result (D.counts self.old.door) (D.counts self.new.door) }
        ensures no_write { D.writes self.new.door ≡ D.writes self.old.door }
    {
        let faults = self.faults;
        if let Some(now) = self.watch.millis() {
            let out = &mut self.out;
            let kind = PeerKind::Client;
            tell(out, &mut self.client, kind, faults.get(kind), now);
            let kind = PeerKind::Orchestrator;
            tell(out, &mut self.orchestrator, kind, faults.get(kind), now);
            let kind = PeerKind::Infrastructure;
            tell(out, &mut self.infrastructure, kind, faults.get(kind), now);
            let kind = PeerKind::Subscriber;
            tell(out, &mut self.subscriber, kind, faults.get(kind), now);
        }
        let answer = self.door.next();
        if let NextAnswer::Failed = answer {
            faults.count(PeerKind::Client);
        }
        answer
    }

    fn read(&mut self, into: &mut [u8]) -> ReadAnswer
        requires some { 1 ≤ length into.old }
        requires up { (D.counts self.old.door).up ≡ true }
        ensures amount { IsAmount result (length into.old) }
        ensures told { ⊥ → ReadsIn into.old into.new result nothing_told nothing_told }
        ensures cause { ReadCause result (D.counts self.old.door) (D.counts self.new.door) }
        ensures no_write { D.writes self.new.door ≡ D.writes self.old.door }
    {
        let answer = self.door.read(into);
        if let ReadAnswer::Failed = answer {
            self.faults.count(PeerKind::Client);
        }
        answer
    }

    fn write(&mut self, bytes: &[u8]) -> WriteAnswer
        requires some { 1 ≤ length bytes.now }
        requires up { (D.counts self.old.door).up ≡ true }
        ensures amount { IsTaken result (length bytes.now) }
        ensures told { ⊥ → WritesOut bytes.now result nothing_told nothing_told }
        ensures cause { WriteCause result (D.counts self.old.door) (D.counts self.new.door) }
        ensures one { D.writes self.new.door ≡ asked_for (length bytes.now) result (D.writes self.old.door) }
    {
        let answer = self.door.write(bytes);
        if let WriteAnswer::Failed = answer {
            self.faults.count(PeerKind::Client);
        }
        answer
    }

    fn hang_up(&mut self)
        requires up { (D.counts self.old.door).up ≡ true }
        ensures told { ⊥ → HangsUp nothing_told nothing_told }
        ensures cause { D.counts self.new.door ≡ closed (D.counts self.old.door) }
        ensures no_write { D.writes self.new.door ≡ D.writes self.old.door }
    {
        self.door.hang_up();
    }
}
