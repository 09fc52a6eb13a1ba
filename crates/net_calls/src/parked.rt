//! Connections of clients, on which no call waits.
ghost use Rattle.std.specs.Prelude.{◌≡◌, ◌≤◌, List, ℕ, length};
ghost use Rattle.host_calls.specs.Streams.{Incoming};
ghost use Rattle.net_calls.specs.Parked.{AreTaken, ArePut, IsSomeTaken, IsSomePut};

use crate::connections::Connection;
use crate::told_connections::MemConnection;
use std::io::{ErrorKind, Read, Write};
use std::net::{Shutdown, TcpStream};

/// What came of taking bytes.
#[derive(Clone, Copy, PartialEq, Eq, Debug)]
pub enum Took {
    /// So many stand at the front of the piece, one at least.
    Some(usize),
    /// None is there yet.
    Nothing,
    /// None will come any more.
    End,
    /// The connection is good for nothing.
    Lost,
}

/// What came of putting bytes.
#[derive(Clone, Copy, PartialEq, Eq, Debug)]
pub enum Put {
    /// So many went out, one at least.
    Some(usize),
    /// There is no room for any now.
    Nothing,
    /// The connection is good for nothing.
    Lost,
}

/// A client's end of a connection, on which no call waits.
///
/// Source: std's `TcpStream`, non-blocking.
pub trait Parked {
    /// Whether connections of this kind tell their bytes. Clauses on these hold where they do.
    ghost tells: { Type 0 };

    /// All bytes in, and those that are left.
    ghost incoming: { Self → Incoming };

    /// The bytes out.
    ghost outgoing: { Self → List ℕ };

    /// Takes the next bytes to the front of `into`.
    fn take(&mut self, into: &mut [u8]) -> Took
        requires { 1 ≤ length into.old }
        ensures some { IsSomeTaken (length into.old) result }
        ensures told { tells → AreTaken into.old into.new result (incoming self.old) (incoming self.new) }
        ensures out { tells → outgoing self.new ≡ outgoing self.old };

    /// Puts the first of these bytes.
    fn put(&mut self, bytes: &[u8]) -> Put
        requires { 1 ≤ length bytes.now }
        ensures some { IsSomePut (length bytes.now) result }
        ensures told { tells → ArePut bytes.now result (outgoing self.old) (outgoing self.new) }
        ensures within { tells → incoming self.new ≡ incoming self.old };

    /// Says that no byte will follow, so that the client reads an end behind what was put.
    fn finish(&mut self)
        ensures out { tells → outgoing self.new ≡ outgoing self.old }
        ensures within { tells → incoming self.new ≡ incoming self.old };
}

impl Parked for TcpStream {
    ghost use Rattle.std.specs.Prelude.{[]};
    ghost use Rattle.host_calls.specs.Streams.{nothing};

    ghost tells = { ⊥ };

    ghost incoming = { λ _. nothing };

    ghost outgoing = { λ _. [] };

    fn take(&mut self, into: &mut [u8]) -> Took {
        let most = into.len();
        match Read::read(self, into) {
            Ok(0) => Took::End,
            Ok(count) => Took::Some(count.min(most)),
            Err(fault) => match fault.kind() {
                ErrorKind::WouldBlock | ErrorKind::Interrupted => Took::Nothing,
                _ => Took::Lost,
            },
        }
    }

    fn put(&mut self, bytes: &[u8]) -> Put {
        match Write::write(self, bytes) {
            Ok(0) => Put::Nothing,
            Ok(count) => Put::Some(count.min(bytes.len())),
            Err(fault) => match fault.kind() {
                ErrorKind::WouldBlock | ErrorKind::Interrupted => Put::Nothing,
                _ => Put::Lost,
            },
        }
    }

    fn finish(&mut self) {
        let _ = self.shutdown(Shutdown::Write);
    }
}

/// A connection in memory: where a read meets a silence, no byte is there yet.
impl Parked for MemConnection {
    ghost use Rattle.net_calls.specs.Connections.{read_to};

    ghost tells = { Unit {0} };

    ghost incoming = { λ c. read_to c.bytes.items c.at };

    ghost outgoing = { λ c. c.out.items };

    fn take(&mut self, into: &mut [u8]) -> Took {
        match Connection::read(self, into, 1) {
            Ok(0) => Took::End,
            Ok(count) => Took::Some(count),
            Err(fault) if fault.kind() == ErrorKind::WouldBlock => Took::Nothing,
            Err(_) => Took::Lost,
        }
    }

    fn put(&mut self, bytes: &[u8]) -> Put {
        match Connection::write(self, bytes, 1) {
            Ok(0) => Put::Nothing,
            Ok(count) => Put::Some(count),
            Err(fault) if fault.kind() == ErrorKind::WouldBlock => Put::Nothing,
            Err(_) => Put::Lost,
        }
    }

    fn finish(&mut self) {
        let _ = Connection::finish(self);
    }
}
