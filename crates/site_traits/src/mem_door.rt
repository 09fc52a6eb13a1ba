// A door in memory, which tells all.
ghost use Rattle.std.specs.Prelude.{◌≡◌, ◌≤◌, ◌+◌, ◌↔◌, IfOk, IsTrue, length, true, vec_len, vec_capacity};
ghost use Rattle.site_traits.specs.Counts.{one_more};
ghost use Rattle.site_traits.specs.DoorPlans.{AreReady, IsReady, calls_after};

use crate::door::{Door, NextAnswer, ReadAnswer, WriteAnswer};
use crate::log::{BYTES, CALLS};
use crate::mem_conn::MemConn;
use lcm_events::Role;
use std::alloc::{AllocError, Global};
use std::mem;
use vnfm_base::Bytes;

/// What a door in memory does at one `next`.
#[derive(Drop)]
pub enum DoorPlan {
    /// Nobody comes.
    Nobody,
    /// The call fails.
    NextFails,
    /// A connection comes.
    Conn {
        /// Whose it is.
        role: Role,
        /// Its bytes in. A read gives at most what is left of one piece.
        pieces: Vec<Bytes>,
        /// The number, from 1, of the read on it that fails.
        failing_read: Option<usize>,
        /// The number, from 1, of the write on it that fails.
        failing_write: Option<usize>,
    },
}

// What a door does at one `next`, with the room that it needs.
#[derive(Drop)]
enum Planned {
    Nobody,
    Fails,
    Conn(Role, MemConn),
}

/// A door in memory, which tells all.
///
/// It has room for 1,048,576 calls, and for 64 MiB out, an equal part for each connection; a call past them fails.
///
/// Source: own rule.
pub struct MemDoor {
    plans: Vec<Planned>,
    answers: Vec<NextAnswer>,
    conn: MemConn,
    past: Vec<MemConn>,
    calls: usize,
    faults: u64,
    next_faults: u64,
    writes: u64,
    ghost answered: { vec_len answers ≤ calls },
    ghost answers_fit: { 1048576 ≤ vec_capacity answers },
    ghost past_fits: { vec_len past + vec_len plans ≤ vec_capacity past },
}

impl Drop for MemDoor {
    // Written out, so that the proof of a caller calls it and doesn't take the value apart at each of its ends.
    fn drop(self) {
        let MemDoor {
            plans: _,
            answers: _,
            conn: _,
            past: _,
            calls: _,
            faults: _,
            next_faults: _,
            writes: _,
        } = self;
    }
}

impl MemDoor {
    ghost use Rattle.site_traits.specs.MemDoor.{IsNew};

    /// A door that does these in order, and has ended after them.
    pub fn new(alloc: Global, plans: Vec<DoorPlan>) -> Result<MemDoor, AllocError>
        ensures fresh { IfOk result IsNew }
        ensures plan { IfOk result (λ d. AreReady plans.items d.plans.items) }
    {
        let count = plans.len();
        let ready = make_ready(alloc, plans)?;
        let answers = Vec::with_capacity(alloc, CALLS)?;
        let past = Vec::with_capacity(alloc, count.saturating_add(1))?;
        Ok(MemDoor {
            plans: ready,
            answers,
            conn: MemConn::nobody(alloc),
            past,
            calls: 0,
            faults: 0,
            next_faults: 0,
            writes: 0,
        })
    }

    /// The answers that `next` gave, but the failed ones.
    pub fn answers(&self) -> &[NextAnswer]
        ensures { result.now ≡ self.now.answers.items }
    {
        &self.answers
    }

    /// The connection at hand.
    pub fn conn(&self) -> &MemConn
        ensures { result.now ≡ self.now.conn }
    {
        &self.conn
    }

    /// The connections before it, the oldest first; the very first is the empty one that stood there at the start.
    pub fn past(&self) -> &[MemConn]
        ensures { result.now ≡ self.now.past.items }
    {
        &self.past
    }

    /// How many calls failed.
    pub fn faults(&self) -> u64
        ensures { result ≡ self.now.faults }
    {
        self.faults
    }
}

// Counts a call, and says whether it is past the room.
fn is_spent(calls: &mut usize) -> bool
    ensures spent { IsTrue result ↔ (1048576 ≤ calls.old) }
    ensures counted { calls.new ≡ calls_after calls.old }
{
    if *calls >= CALLS {
        return true;
    }
    *calls += 1;
    false
}

// The plans with the room that they need, the first of them last.
fn make_ready(alloc: Global, plans: Vec<DoorPlan>) -> Result<Vec<Planned>, AllocError>
    ensures { IfOk result (λ ready. AreReady plans.items ready.items) }
{
    let mut plans = plans;
    let mut ready = Vec::new(alloc);
    let room = BYTES / plans.len().max(1);
    while let Some(plan) = plans.pop() {
        ready.push(ready_one(alloc, room, plan)?)?;
    }
    Ok(ready)
}

// One plan with the room that it needs.
fn ready_one(alloc: Global, room: usize, plan: DoorPlan) -> Result<Planned, AllocError>
    ensures { IfOk result (IsReady room plan) }
{
    Ok(match plan {
        DoorPlan::Nobody => Planned::Nobody,
        DoorPlan::NextFails => Planned::Fails,
        DoorPlan::Conn {
            role,
            pieces,
            failing_read,
            failing_write,
        } => Planned::Conn(
            role,
            MemConn::with(alloc, room, pieces, failing_read, failing_write)?,
        ),
    })
}

// Counts one more.
fn count(faults: &mut u64)
    ensures one { faults.new ≡ one_more faults.old }
    ensures later { faults.old ≤ faults.new }
{
    *faults = faults.saturating_add(1);
}

impl Door for MemDoor {
    ghost use Rattle.site_traits.specs.MemDoor.{state_of, counts_of, writes_of, RunsNext, RunsRead, RunsWrite};
    ghost use Rattle.site_traits.specs.MemDoor.{SamePlan};
    ghost use Rattle.site_traits.specs.Door.{Nexts, ReadsIn, WritesOut, HangsUp, IsAmount, IsTaken, NextCause};
    ghost use Rattle.site_traits.specs.Door.{ReadCause, WriteCause, asked_for, closed};

    ghost tells = { Unit {0} };

    ghost state = { state_of };

    ghost counts = { counts_of };

    ghost writes = { writes_of };

    fn next(&mut self) -> NextAnswer
        ensures told { Nexts result (state_of self.old) (state_of self.new) }
        ensures cause { NextCause result (counts_of self.old) (counts_of self.new) }
        ensures no_write { writes_of self.new ≡ writes_of self.old }
        ensures runs { RunsNext result self.old self.new }
    {
        if is_spent(&mut self.calls) {
            count(&mut self.faults);
            count(&mut self.next_faults);
            return NextAnswer::Failed;
        }
        match self.plans.pop() {
            None => {
                self.answers.push_reserved(NextAnswer::Ended);
                NextAnswer::Ended
            }
            Some(Planned::Nobody) => {
                self.answers.push_reserved(NextAnswer::Nobody);
                NextAnswer::Nobody
            }
            Some(Planned::Fails) => {
                count(&mut self.faults);
                count(&mut self.next_faults);
                NextAnswer::Failed
            }
            Some(Planned::Conn(role, conn)) => {
                let before = mem::replace(&mut self.conn, conn.renewed());
                self.past.push_reserved(before);
                self.answers.push_reserved(NextAnswer::Came(role));
                NextAnswer::Came(role)
            }
        }
    }

    fn read(&mut self, into: &mut [u8]) -> ReadAnswer
        requires some { 1 ≤ length into.old }
        requires up { (counts_of self.old).up ≡ true }
        ensures amount { IsAmount result (length into.old) }
        ensures told { ReadsIn into.old into.new result (state_of self.old) (state_of self.new) }
        ensures cause { ReadCause result (counts_of self.old) (counts_of self.new) }
        ensures no_write { writes_of self.new ≡ writes_of self.old }
        ensures runs { RunsRead (length into.old) result self.old self.new }
    {
        if is_spent(&mut self.calls) || self.conn.read_fails() {
            self.conn.break_read();
            count(&mut self.faults);
            return ReadAnswer::Failed;
        }
        match self.conn.read_next(into) {
            Some(amount) => ReadAnswer::Got(amount),
            None => ReadAnswer::End,
        }
    }

    fn write(&mut self, bytes: &[u8]) -> WriteAnswer
        requires some { 1 ≤ length bytes.now }
        requires up { (counts_of self.old).up ≡ true }
        ensures amount { IsTaken result (length bytes.now) }
        ensures told { WritesOut bytes.now result (state_of self.old) (state_of self.new) }
        ensures cause { WriteCause result (counts_of self.old) (counts_of self.new) }
        ensures one { writes_of self.new ≡ asked_for (length bytes.now) result (writes_of self.old) }
        ensures runs { RunsWrite bytes.now result self.old self.new }
    {
        count(&mut self.writes);
        if is_spent(&mut self.calls) || self.conn.write_fails() || !self.conn.put_out(bytes) {
            self.conn.break_write();
            count(&mut self.faults);
            return WriteAnswer::Failed;
        }
        WriteAnswer::Took(bytes.len())
    }

    fn hang_up(&mut self)
        requires up { (counts_of self.old).up ≡ true }
        ensures told { HangsUp (state_of self.old) (state_of self.new) }
        ensures cause { counts_of self.new ≡ closed (counts_of self.old) }
        ensures no_write { writes_of self.new ≡ writes_of self.old }
        ensures same { SamePlan self.old self.new }
        ensures calls { self.new.calls ≡ self.old.calls }
    {
        self.conn.hang_up();
    }
}
