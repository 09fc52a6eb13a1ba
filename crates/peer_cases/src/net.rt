//! A network in memory: each connect takes the next connection of a list.
use net_calls::{HostNet, MemConnection, NoConnection, Step, Taken};
use std::alloc::{AllocError, Global};
use std::cell::Cell;
use std::io;
use std::io::ErrorKind;

/// Connections that are still to be had, the last one first, and how many were.
#[derive(Drop)]
pub struct CaseNet<'a> {
    pub left: Vec<MemConnection>,
    pub had: &'a Cell<u32>,
}

/// A connection on which these texts come, each in a piece of its own; an empty one is a silence.
pub fn connection(alloc: Global, texts: &[&str], room: usize) -> Result<MemConnection, AllocError> {
    let mut bytes = Vec::new(alloc);
    let mut steps = Vec::new(alloc);
    for text in texts {
        bytes.extend_from_slice(text.as_bytes())?;
        steps.push(if text.is_empty() {
            Step::Silence
        } else {
            Step::Piece(text.len())
        })?;
    }
    Ok(MemConnection::of(bytes, steps, room, Vec::new(alloc)))
}

/// A connection on which these bytes come, so many at a time.
pub fn in_pieces(alloc: Global, text: &str, piece: usize) -> Result<MemConnection, AllocError> {
    let mut steps = Vec::new(alloc);
    for _ in 0..text.len() {
        steps.push(Step::Piece(piece))?;
    }
    let bytes = Vec::from_slice(alloc, text.as_bytes())?;
    Ok(MemConnection::of(bytes, steps, piece, Vec::new(alloc)))
}

impl<'a> HostNet for CaseNet<'a> {
    ghost use Rattle.std.specs.Prelude.{[]};

    type Listener = ();

    type Connection = MemConnection;

    ghost tells = { ⊥ };

    ghost coming = { λ _. [] };

    ghost address_of = { λ _. [] };

    ghost offered = { λ _. [] };

    ghost peers = { λ _ _. [] };

    ghost waits = { λ _. record { count = 0; last = 0; failed = 0 } };

    fn listen(&mut self, _address: &str) -> io::Result<()> {
        Err(io::Error::from(ErrorKind::AddrNotAvailable))
    }

    fn accept(&mut self, _listener: &mut ()) -> Result<MemConnection, NoConnection> {
        Err(NoConnection::Nobody)
    }

    fn wait(
        &mut self,
        _first: Option<&()>,
        _second: Option<&()>,
        _connections: &[Taken<MemConnection>],
        _limit: u32,
    ) -> io::Result<()> {
        Ok(())
    }

    fn connect(&mut self, _address: &str, _limit: u32) -> io::Result<MemConnection> {
        match self.left.pop() {
            Some(connection) => {
                self.had.set(self.had.get().saturating_add(1));
                Ok(connection)
            }
            None => Err(io::Error::from(ErrorKind::ConnectionRefused)),
        }
    }
}
