//! Connections in memory, whose bytes come in pieces and with silences.
ghost use Rattle.std.specs.Prelude.{◌≡◌, ◌≤◌, ◌++◌, ◌-◌, [], IfOk, false, length, min, take, drop, slice_get};
ghost use Rattle.host_calls.specs.Streams.{Incoming, Gives, Takes};
ghost use Rattle.net_calls.specs.Connections.{CountsCall, FailedWith, Meets, Vain, in_vain, or_all, place_after};
ghost use Rattle.net_calls.specs.Connections.{read_to};
ghost use Rattle.site_traits.specs.Counts.{one_more};

use crate::connections::Connection;
use std::io;
use std::io::ErrorKind;

/// What a read of a connection in memory meets, and a look at whether it is quiet.
#[derive(Clone, Copy, PartialEq, Eq, Drop)]
pub enum Step {
    /// So many bytes have come: one at least, and no more than are left. A look leaves it for the read.
    Piece(usize),
    /// None comes in the time. A look meets it as a read does.
    Silence,
    /// The peer has given it up: the read fails. A look leaves it for the read.
    Reset,
}

/// A connection whose bytes in are these. Its reads and looks meet these steps, and behind the last a read gets all
/// that is left. A write takes so many bytes at most, and with 0 there is never room.
#[derive(Drop)]
pub struct MemConnection {
    bytes: Vec<u8>,
    at: usize,
    steps: Vec<Step>,
    next: usize,
    room: usize,
    out: Vec<u8>,
    finished: bool,
    silences: u64,
    faults: u64,
    allowed: u32,
    ghost sound: { at ≤ length bytes.items },
}

impl MemConnection {
    /// Of these bytes none was read yet, and none was written; `out` is the room for what will be, and is emptied.
    pub fn of(bytes: Vec<u8>, steps: Vec<Step>, room: usize, mut out: Vec<u8>) -> MemConnection
        ensures bytes { (result.at ≡ 0) × (result.bytes.items ≡ bytes.items) }
        ensures steps { (result.next ≡ 0) × (result.steps.items ≡ steps.items) }
        ensures room { result.room ≡ room }
        ensures out { result.out.items ≡ [] }
        ensures open { result.finished ≡ false }
        ensures counts { (result.silences ≡ 0) × (result.faults ≡ 0) }
        ensures allowed { result.allowed ≡ 0 }
    {
        out.clear();
        MemConnection {
            bytes,
            at: 0,
            steps,
            next: 0,
            room,
            out,
            finished: false,
            silences: 0,
            faults: 0,
            allowed: 0,
        }
    }

    /// The bytes out.
    pub fn out(&self) -> &[u8]
        ensures { result.now ≡ self.now.out.items }
    {
        &self.out
    }

    /// Whether it was said that no byte will follow.
    pub fn is_finished(&self) -> bool
        ensures { result ≡ self.now.finished }
    {
        self.finished
    }

    /// How many milliseconds the last read or write might wait; 0 where there was none.
    pub fn allowed(&self) -> u32
        ensures { result ≡ self.now.allowed }
    {
        self.allowed
    }

    /// The bytes in that weren't read.
    pub fn left(&self) -> &[u8]
        ensures { result.now ≡ drop self.now.at self.now.bytes.items }
    {
        &self.bytes[self.at..]
    }
}

/// The step that the next read meets.
fn next_step(steps: &[Step], next: &mut usize) -> Step
    ensures step { result ≡ or_all (slice_get steps.now next.old) }
    ensures on { next.new ≡ place_after steps.now next.old }
{
    match steps.get(*next) {
        Some(step) => {
            *next = next.saturating_add(1);
            *step
        }
        None => Step::Piece(usize::MAX),
    }
}

/// Gives the first of these bytes, so many of them.
fn give(left: &[u8], into: &mut [u8], count: usize)
    requires left { count ≤ length left.now }
    requires into { count ≤ length into.old }
    ensures { into.new ≡ take count left.now ++ drop count into.old }
{
    into[..count].copy_from_slice(&left[..count]);
}

/// One more. A count stays at its greatest value.
pub(crate) fn count_one(count: &mut u64)
    ensures { count.new ≡ one_more count.old }
{
    *count = count.saturating_add(1);
}

impl Connection for MemConnection {
    ghost use Rattle.std.specs.Prelude.{◌≡◌, ◌≤◌, IfOk, drop, false, length, slice_get};
    ghost use Rattle.host_calls.specs.Streams.{Gives, Takes};
    ghost use Rattle.net_calls.specs.Connections.{CountsCall, FailedWith, Meets, in_vain, is_silence, or_all};
    ghost use Rattle.net_calls.specs.Connections.{place_after, read_to};

    ghost tells = { Unit {0} };

    ghost incoming = { λ c. read_to c.bytes.items c.at };

    ghost outgoing = { λ c. c.out.items };

    ghost quiet = { λ c. is_silence (slice_get c.steps.items c.next) };

    ghost finished = { λ c. c.finished };

    ghost vain = { λ c. in_vain c.silences c.faults };

    ghost allowed = { λ c. c.allowed };

    fn read(&mut self, into: &mut [u8], limit: u32) -> io::Result<usize>
        ensures most { IfOk result (λ n. n ≤ length into.old) }
        ensures told { Unit {0} → Gives into.old into.new result (read_to self.old.bytes.items self.old.at)
            (read_to self.new.bytes.items self.new.at) }
        ensures kept_out { Unit {0} → self.new.out.items ≡ self.old.out.items }
        ensures open { Unit {0} → self.new.finished ≡ self.old.finished }
        ensures counted { Unit {0} → CountsCall result (in_vain self.old.silences self.old.faults)
            (in_vain self.new.silences self.new.faults) }
        ensures allowed { Unit {0} → self.new.allowed ≡ limit }
        ensures step { Meets (or_all (slice_get self.old.steps.items self.old.next))
            (length self.old.bytes.items - self.old.at) (length into.old) result }
        ensures on { self.new.next ≡ place_after self.old.steps.items self.old.next }
        ensures plan { (self.new.steps ≡ self.old.steps) × (self.new.room ≡ self.old.room) }
    {
        self.allowed = limit;
        match next_step(&self.steps, &mut self.next) {
            Step::Piece(most) => {
                let left = &self.bytes[self.at..];
                let count = most.max(1).min(left.len()).min(into.len());
                give(left, into, count);
                self.at += count;
                Ok(count)
            }
            Step::Silence => {
                count_one(&mut self.silences);
                Err(io::Error::from(ErrorKind::WouldBlock))
            }
            Step::Reset => {
                count_one(&mut self.faults);
                Err(io::Error::from(ErrorKind::ConnectionReset))
            }
        }
    }

    fn write(&mut self, bytes: &[u8], limit: u32) -> io::Result<usize>
        ensures most { IfOk result (λ n. n ≤ length bytes.now) }
        ensures some { Unit {0} → 1 ≤ length bytes.now → IfOk result (λ n. 1 ≤ n) }
        ensures told { Unit {0} → Takes bytes.now result self.old.out.items self.new.out.items }
        ensures kept_in { Unit {0} → read_to self.new.bytes.items self.new.at ≡ read_to self.old.bytes.items
            self.old.at }
        ensures open { Unit {0} → self.new.finished ≡ self.old.finished }
        ensures counted { Unit {0} → CountsCall result (in_vain self.old.silences self.old.faults)
            (in_vain self.new.silences self.new.faults) }
        ensures allowed { Unit {0} → self.new.allowed ≡ limit }
        ensures room { IfOk result (λ n. n ≡ min (length bytes.now) self.old.room) }
        ensures none { self.old.room ≡ 0 → FailedWith ErrorKind.WouldBlock result }
        ensures plan { (self.new.steps ≡ self.old.steps) × (self.new.next ≡ self.old.next)
            × (self.new.room ≡ self.old.room) }
    {
        self.allowed = limit;
        if self.room == 0 {
            count_one(&mut self.silences);
            return Err(io::Error::from(ErrorKind::WouldBlock));
        }
        let count = bytes.len().min(self.room);
        if self.out.extend_from_slice(&bytes[..count]).is_err() {
            count_one(&mut self.faults);
            return Err(io::Error::from(ErrorKind::OutOfMemory));
        }
        Ok(count)
    }

    fn is_quiet(&mut self) -> bool {
        if !matches!(self.steps.get(self.next), Some(Step::Silence)) {
            return false;
        }
        self.next = self.next.saturating_add(1);
        true
    }

    fn finish(&mut self) -> io::Result<()> {
        self.finished = true;
        Ok(())
    }
}
