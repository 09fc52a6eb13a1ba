//! A network in memory.
ghost use Rattle.std.specs.Prelude.{◌≡◌};
ghost use Rattle.net_calls.specs.Network.{Has};

use crate::network::{HostNet, NoConnection, Taken};
use crate::told_connections::{MemConnection, count_one};
use std::collections::VecDeque;
use std::io;
use std::io::ErrorKind;

/// A listener in memory at an address, where these come in order, and nobody behind the last.
#[derive(Drop)]
pub struct MemListener {
    address: Vec<u8>,
    coming: VecDeque<Result<MemConnection, NoConnection>>,
}

impl MemListener {
    /// One at this address, where these come in order.
    pub fn of(
        address: Vec<u8>,
        coming: VecDeque<Result<MemConnection, NoConnection>>,
    ) -> MemListener
        ensures address { result.address.items ≡ address.items }
        ensures coming { result.coming.items ≡ coming.items }
    {
        MemListener { address, coming }
    }
}

/// A network in memory, which gives what it offers in order, a listener where it is at the address that is asked for, a
/// peer whatever the address; where that is nothing, or no more, it fails. A wait on it ends at once; it fails where
/// the network is to break.
#[derive(Drop)]
pub struct MemNet {
    listeners: VecDeque<Option<MemListener>>,
    peers: VecDeque<Option<MemConnection>>,
    breaks: bool,
    waits: u64,
    last_wait: u32,
    failed: u64,
}

impl MemNet {
    /// One that offers these, and on which each wait fails where it is to break.
    pub fn of(
        listeners: VecDeque<Option<MemListener>>,
        peers: VecDeque<Option<MemConnection>>,
        breaks: bool,
    ) -> MemNet
        ensures listeners { result.listeners.items ≡ listeners.items }
        ensures peers { result.peers.items ≡ peers.items }
        ensures breaks { result.breaks ≡ breaks }
        ensures waits { (result.waits ≡ 0) × (result.last_wait ≡ 0) × (result.failed ≡ 0) }
    {
        MemNet {
            listeners,
            peers,
            breaks,
            waits: 0,
            last_wait: 0,
            failed: 0,
        }
    }

    /// How often it was waited.
    pub fn waits(&self) -> u64
        ensures { result ≡ self.now.waits }
    {
        self.waits
    }

    /// For how many milliseconds at most it was waited the last time.
    pub fn last_wait(&self) -> u32
        ensures { result ≡ self.now.last_wait }
    {
        self.last_wait
    }
}

/// What is offered next.
fn next_offer<T: Drop>(offers: &mut VecDeque<Option<T>>) -> io::Result<T>
    ensures { Has result offers.old.items offers.new.items }
{
    match offers.pop_front() {
        Some(Some(offer)) => Ok(offer),
        _ => Err(io::Error::from(ErrorKind::ConnectionRefused)),
    }
}

impl HostNet for MemNet {
    type Listener = MemListener;

    type Connection = MemConnection;

    ghost use Rattle.std.specs.Prelude.{◌≡◌, ◌↔◌, ℕ, List, IsErr, true, length};
    ghost use Rattle.net_calls.specs.Network.{WaitsFor, waits_of};

    ghost tells = { Unit {0} };

    ghost coming = { λ l. l.coming.items };

    ghost address_of = { λ l. l.address.items };

    ghost offered = { λ n. n.listeners.items };

    ghost peers = { λ n _. n.peers.items };

    ghost waits = { λ n. waits_of n.waits n.last_wait n.failed };

    fn listen(&mut self, address: &str) -> io::Result<MemListener> {
        let listener = next_offer(&mut self.listeners)?;
        if listener.address.as_slice() != address.as_bytes() {
            return Err(io::Error::from(ErrorKind::AddrNotAvailable));
        }
        Ok(listener)
    }

    fn accept(&mut self, listener: &mut MemListener) -> Result<MemConnection, NoConnection> {
        match listener.coming.pop_front() {
            Some(one) => one,
            None => Err(NoConnection::Nobody),
        }
    }

    fn wait(
        &mut self,
        _first: Option<&MemListener>,
        _second: Option<&MemListener>,
        _connections: &[Taken<MemConnection>],
        limit: u32,
    ) -> io::Result<()>
        ensures told { Unit {0} → WaitsFor limit result (waits_of self.old.waits self.old.last_wait self.old.failed)
            (waits_of self.new.waits self.new.last_wait self.new.failed) }
        ensures offered { Unit {0} → self.new.listeners.items ≡ self.old.listeners.items }
        ensures peers { Unit {0} → (a : List ℕ) → self.new.peers.items ≡ self.old.peers.items }
        ensures breaks { IsErr result ↔ (self.old.breaks ≡ true) }
        ensures same { self.new.breaks ≡ self.old.breaks }
    {
        count_one(&mut self.waits);
        self.last_wait = limit;
        if self.breaks {
            count_one(&mut self.failed);
            return Err(io::Error::from(ErrorKind::Other));
        }
        Ok(())
    }

    fn connect(&mut self, _address: &str, _limit: u32) -> io::Result<MemConnection> {
        next_offer(&mut self.peers)
    }
}
