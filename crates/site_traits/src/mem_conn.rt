// A connection of a door in memory.
ghost use Rattle.std.specs.Prelude.{◌≡◌, ◌≤◌, ◌<◌, ◌+◌, ◌⊎◌, ◌↔◌, IfOk, IfSome, IsTrue, true, false, length, drop};
ghost use Rattle.std.specs.Prelude.{get_or, Some, vec_capacity};
ghost use Rattle.site_traits.specs.Counts.{one_more};
ghost use Rattle.site_traits.specs.Pieces.{IsRising, IsLastEnd, ArePassed, IsOfOnePiece};

use std::alloc::{AllocError, Global};
use vnfm_base::Bytes;

/// A connection of a door in memory.
pub struct MemConn {
    bytes: Vec<u8>,
    read: usize,
    out: Vec<u8>,
    read_failed: bool,
    write_failed: bool,
    hung_up: bool,
    ends: Vec<usize>,
    piece: usize,
    reads: usize,
    writes: usize,
    failing_read: Option<usize>,
    failing_write: Option<usize>,
    room: usize,
    ghost within: { read ≤ length bytes.items },
    ghost roomy: { room ≤ vec_capacity out },
    ghost rising: { IsRising ends.items },
    ghost last_end: { IsLastEnd ends.items (length bytes.items) },
    ghost passed: { ArePassed ends.items piece read },
}

impl Drop for MemConn {
    // Written out, so that the proof of a caller calls it and doesn't take the value apart at each of its ends.
    fn drop(self) {
        let MemConn {
            bytes: _,
            read: _,
            out: _,
            read_failed: _,
            write_failed: _,
            hung_up: _,
            ends: _,
            piece: _,
            reads: _,
            writes: _,
            failing_read: _,
            failing_write: _,
            room: _,
        } = self;
    }
}

impl MemConn {
    /// The bytes in that are not read yet.
    pub fn left(&self) -> &[u8]
        ensures { result.now ≡ drop self.now.read self.now.bytes.items }
    {
        &self.bytes[self.read..]
    }

    /// The bytes out.
    pub fn out(&self) -> &[u8]
        ensures { result.now ≡ self.now.out.items }
    {
        &self.out
    }

    /// Whether a read or a write on it failed.
    pub fn failed(&self) -> bool
        ensures { IsTrue result ↔ (IsTrue self.now.read_failed ⊎ IsTrue self.now.write_failed) }
    {
        self.read_failed || self.write_failed
    }

    /// Whether it was hung up.
    pub fn is_hung_up(&self) -> bool
        ensures { result ≡ self.now.hung_up }
    {
        self.hung_up
    }

    ghost use Rattle.site_traits.specs.MemConn.{conn_of, plan_of, KeepsPlan, ReadsNext, SameConn, WroteOut};
    ghost use Rattle.site_traits.specs.MemConn.{IsFreshConn, IsNobody, IsConnOf, IsUncounted};
    ghost use Rattle.site_traits.specs.Door.{read_broke, write_broke, gone};

    // The connection at hand before any has come.
    pub fn nobody(alloc: Global) -> MemConn
        ensures { IsNobody result }
    {
        MemConn {
            bytes: Vec::new(alloc),
            read: 0,
            out: Vec::new(alloc),
            read_failed: false,
            write_failed: false,
            hung_up: true,
            ends: Vec::new(alloc),
            piece: 0,
            reads: 0,
            writes: 0,
            failing_read: None,
            failing_write: None,
            room: 0,
        }
    }

    // A connection with these bytes in, and room for so many out.
    pub fn with(
        alloc: Global,
        room: usize,
        pieces: Vec<Bytes>,
        failing_read: Option<usize>,
        failing_write: Option<usize>,
    ) -> Result<MemConn, AllocError>
        ensures fresh { IfOk result IsFreshConn }
        ensures plan { IfOk result (IsConnOf pieces.items failing_read failing_write room) }
        ensures uncounted { IfOk result IsUncounted }
    {
        let mut bytes = Vec::new(alloc);
        let mut ends = Vec::new(alloc);
        for piece in &pieces {
            bytes.extend_from_slice(piece.as_slice())?;
            ends.push(bytes.len())?;
        }
        let out = Vec::with_capacity(alloc, room)?;
        Ok(MemConn {
            bytes,
            read: 0,
            out,
            read_failed: false,
            write_failed: false,
            hung_up: false,
            ends,
            piece: 0,
            reads: 0,
            writes: 0,
            failing_read,
            failing_write,
            room,
        })
    }

    // Reads the next bytes of the connection, at least one, to the front of a piece that isn't empty; None where none
    // is left.
    pub fn read_next(&mut self, into: &mut [u8]) -> Option<usize>
        requires { 1 ≤ length into.old }
        ensures read { ReadsNext self.old self.new into.old into.new result }
        ensures piece { IfSome result (λ n. IsOfOnePiece self.old.ends.items self.old.read n (length into.old)) }
        ensures keeps { KeepsPlan self.old self.new }
    {
        if self.read == self.bytes.len() {
            return None;
        }
        let piece = self.piece_at_hand();
        let amount = (self.ends[piece] - self.read).min(into.len());
        into[..amount].copy_from_slice(&self.bytes[self.read..self.read + amount]);
        self.piece = piece;
        self.read += amount;
        Some(amount)
    }

    // The number, from 0, of the piece at hand: the first that ends behind what was read.
    fn piece_at_hand(&self) -> usize
        requires { self.now.read < length self.now.bytes.items }
        ensures within { result < length self.now.ends.items }
        ensures end { self.now.read < get_or self.now.ends.items result 0 }
        ensures most { get_or self.now.ends.items result 0 ≤ length self.now.bytes.items }
        ensures passed { ArePassed self.now.ends.items result self.now.read }
    {
        let mut piece = self.piece;
        while piece < self.ends.len() && self.ends[piece] <= self.read {
            piece += 1;
        }
        piece
    }

    // Puts the bytes behind those that went out, where there is room for them.
    pub fn put_out(&mut self, bytes: &[u8]) -> bool
        ensures room { IsTrue result ↔ (length self.old.out.items + length bytes.now ≤ self.old.room) }
        ensures put { IsTrue result → WroteOut bytes.now self.old self.new }
        ensures keeps { KeepsPlan self.old self.new }
        ensures kept { result ≡ false → self.new ≡ self.old }
    {
        let Some(room) = self.room.checked_sub(self.out.len()) else {
            return false;
        };
        bytes.len() <= room && self.out.extend_from_slice(bytes).is_ok()
    }

    /// The connection as it came, with nothing read or written on it.
    pub fn renewed(self) -> MemConn
        ensures fresh { IsFreshConn result }
        ensures plan { plan_of result ≡ plan_of self }
        ensures uncounted { IsUncounted result }
    {
        let mut conn = self;
        conn.read = 0;
        conn.piece = 0;
        conn.reads = 0;
        conn.writes = 0;
        conn.out.clear();
        conn.read_failed = false;
        conn.write_failed = false;
        conn.hung_up = false;
        conn
    }

    /// Counts a read, and says whether it is the one that fails.
    pub fn read_fails(&mut self) -> bool
        ensures named { IsTrue result ↔ (self.old.failing_read ≡ Some (one_more self.old.reads)) }
        ensures counted { self.new ≡ record self.old { reads = one_more self.old.reads } }
    {
        self.reads = self.reads.saturating_add(1);
        self.failing_read == Some(self.reads)
    }

    /// Counts a write, and says whether it is the one that fails.
    pub fn write_fails(&mut self) -> bool
        ensures named { IsTrue result ↔ (self.old.failing_write ≡ Some (one_more self.old.writes)) }
        ensures counted { self.new ≡ record self.old { writes = one_more self.old.writes } }
    {
        self.writes = self.writes.saturating_add(1);
        self.failing_write == Some(self.writes)
    }

    /// A read on it failed.
    pub fn break_read(&mut self)
        ensures told { conn_of self.new ≡ read_broke (conn_of self.old) }
        ensures rest { self.new ≡ record self.old { read_failed = true } }
    {
        self.read_failed = true;
    }

    /// A write on it failed.
    pub fn break_write(&mut self)
        ensures told { conn_of self.new ≡ write_broke (conn_of self.old) }
        ensures rest { self.new ≡ record self.old { write_failed = true } }
    {
        self.write_failed = true;
    }

    /// It was hung up.
    pub fn hang_up(&mut self)
        ensures told { conn_of self.new ≡ gone (conn_of self.old) }
        ensures rest { self.new ≡ record self.old { hung_up = true } }
    {
        self.hung_up = true;
    }
}
