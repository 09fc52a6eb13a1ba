//! Where connections come from.
ghost use Rattle.std.specs.Prelude.{◌≡◌, ◌≤◌, List, ℕ, Option, Result, length};
ghost use Rattle.net_calls.specs.Network.{Has, Listens, Waits, first_of, later_of, none_by, WaitsFor};

use crate::connections::{Connection, readable};
use edge_limits::WAITING;
use libc::net::poll;
use standard_streams::HeldStreams;
use std::io;
use std::io::ErrorKind;
use std::net::{Net, SocketAddr, TcpListener, TcpStream};
use std::os::fd::AsRawFd;
use std::time::Duration;

/// Why a listener gave no connection.
#[derive(Clone, Copy, PartialEq, Eq, Debug)]
pub enum NoConnection {
    /// None has come, or it was ended before it was taken.
    Nobody,
    /// The process or the machine has no descriptor or no memory left for it now. It is there still.
    Spent,
    /// The listener is good for nothing.
    Failed,
}

/// Which of two listeners.
#[derive(Clone, Copy, PartialEq, Eq, Debug)]
pub enum Side {
    /// The first of them.
    First,
    /// The second.
    Second,
}

/// A connection that was taken, and where it came.
#[derive(Drop)]
pub struct Taken<C: Drop> {
    /// Where it came.
    pub side: Side,
    /// The connection.
    pub connection: C,
}

/// Where it can be listened and connected. Every connection comes from one of these calls.
///
/// Source: std's `TcpListener` and `TcpStream`, and POSIX's `accept` and `poll`.
pub trait HostNet {
    ghost use Rattle.net_calls.specs.declared.network.NoConnection.{NoConnection};

    /// An address at which connections come.
    type Listener: Drop;

    /// One end of a connection.
    type Connection: Connection + Drop;

    /// Whether networks of this kind tell what they offer. Clauses on that hold where they do.
    ghost tells: { Type 0 };

    /// What is to come at a listener, the next first.
    ghost coming: { Self.Listener → List (Result Self.Connection NoConnection) };

    /// The address at which it listens.
    ghost address_of: { Self.Listener → List ℕ };

    /// The listeners that are offered, the next first; none where one can't be had.
    ghost offered: { Self → List (Option Self.Listener) };

    /// The peers that are offered at an address, the next first; none where one can't be had.
    ghost peers: { Self → List ℕ → List (Option Self.Connection) };

    /// How often it was waited, for how long at most the last time, and how often that failed.
    ghost waits: { Self → Waits };

    /// Listens at this address, `HOST:PORT`.
    fn listen(&mut self, address: &str) -> io::Result<Self::Listener>
        ensures told { tells → Listens address_of address.now result (offered self.old) (offered self.new) }
        ensures peers { tells → (a : List ℕ) → peers self.new a ≡ peers self.old a }
        ensures waits { tells → waits self.new ≡ waits self.old };

    /// The next connection that has come here, where one has. It doesn't wait.
    fn accept(&mut self, listener: &mut Self::Listener) -> Result<Self::Connection, NoConnection>
        ensures told { tells → result ≡ first_of (coming listener.old) }
        ensures later { tells → coming listener.new ≡ later_of (coming listener.old) }
        ensures same { tells → self.new ≡ self.old };

    /// Waits until a connection has come at one of the listeners that are given, or something can be read from one of
    /// these connections, or so many milliseconds are over. A signal or want of memory may end it before.
    fn wait(
        &mut self,
        first: Option<&Self::Listener>,
        second: Option<&Self::Listener>,
        connections: &[Taken<Self::Connection>],
        limit: u32,
    ) -> io::Result<()>
        requires { length connections.now ≤ 64 }
        ensures told { tells → WaitsFor limit result (waits self.old) (waits self.new) }
        ensures offered { tells → offered self.new ≡ offered self.old }
        ensures peers { tells → (a : List ℕ) → peers self.new a ≡ peers self.old a };

    /// Connects to what listens at this address, and waits so many milliseconds for it.
    ///
    /// Refusals: `InvalidInput` where it is no literal address and port; other faults of the call.
    fn connect(&mut self, address: &str, limit: u32) -> io::Result<Self::Connection>
        requires limit { 1 ≤ limit }
        ensures told { tells → Has result (peers self.old address.now) (peers self.new address.now) }
        ensures offered { tells → offered self.new ≡ offered self.old }
        ensures waits { tells → waits self.new ≡ waits self.old };
}

/// The machine's network. It borrows what holds the numbers of the standard streams, so that no socket gets one of
/// them.
#[derive(Drop)]
pub struct StdNet<'a, R: Net, T: Drop> {
    rt: &'a R,
    streams: &'a HeldStreams<T>,
}

impl<'a, R: Net, T: Drop> StdNet<'a, R, T> {
    /// The network of this runtime, as long as the numbers of the standard streams are held.
    pub fn of(rt: &'a R, streams: &'a HeldStreams<T>) -> StdNet<'a, R, T> {
        StdNet { rt, streams }
    }
}

impl<'a, R: Net<Listener = TcpListener, Stream = TcpStream>, T: Drop> HostNet for StdNet<'a, R, T> {
    ghost use Rattle.std.specs.Prelude.{[]};

    type Listener = TcpListener;

    type Connection = TcpStream;

    ghost tells = { ⊥ };

    ghost coming = { λ _. [] };

    ghost address_of = { λ _. [] };

    ghost offered = { λ _. [] };

    ghost peers = { λ _ _. [] };

    ghost waits = { λ _. record { count = 0; last = 0; failed = 0 } };

    fn listen(&mut self, address: &str) -> io::Result<TcpListener> {
        let listener = TcpListener::bind(self.rt, address)?;
        listener.set_nonblocking(true)?;
        Ok(listener)
    }

    fn accept(&mut self, listener: &mut TcpListener) -> Result<TcpStream, NoConnection> {
        match listener.accept() {
            Ok((stream, _)) => {
                // Without it an answer may only come later.
                let _ = stream.set_nodelay(true);
                Ok(stream)
            }
            Err(fault) => Err(why_none(number_of(&fault))),
        }
    }

    fn wait(
        &mut self,
        first: Option<&TcpListener>,
        second: Option<&TcpListener>,
        connections: &[Taken<TcpStream>],
        limit: u32,
    ) -> io::Result<()> {
        // A descriptor below 0 is passed over. No more are asked than there are, since a process may have few
        // descriptors.
        let mut asked = [readable(-1); WAITING + 2];
        if let Some(listener) = first {
            asked[0] = readable(listener.as_raw_fd());
        }
        if let Some(listener) = second {
            asked[1] = readable(listener.as_raw_fd());
        }
        for i in 0..connections.len() {
            asked[i + 2] = readable(connections[i].connection.as_raw_fd());
        }
        let limit = i32::try_from(limit).unwrap_or(i32::MAX);
        if poll(&mut asked[..connections.len() + 2], limit) >= 0 {
            return Ok(());
        }
        let fault = io::Error::from_raw_os_error(os::errno());
        match fault.kind() {
            ErrorKind::Interrupted | ErrorKind::OutOfMemory => Ok(()),
            _ => Err(fault),
        }
    }

    fn connect(&mut self, address: &str, limit: u32) -> io::Result<TcpStream> {
        let Ok(literal) = address.parse::<SocketAddr>() else {
            return Err(io::Error::from(ErrorKind::InvalidInput));
        };
        let stream = self
            .rt
            .connect_timeout(literal, Duration::from_millis(u64::from(limit)))?;
        stream.set_nodelay(true)?;
        Ok(stream)
    }
}

/// The system's number of this fault, where it is one of the system.
fn number_of(fault: &io::Error) -> Option<u32> {
    u32::try_from(fault.raw_os_error()?).ok()
}

/// The faults of the system behind which the next connection may be taken: EPERM, EINTR, EAGAIN, ENONET, EPROTO,
/// ENOPROTOOPT, EOPNOTSUPP, ENETDOWN, ENETUNREACH, ECONNABORTED, ETIMEDOUT, EHOSTDOWN, EHOSTUNREACH.
const PASSING: [u32; 13] = [1, 4, 11, 64, 71, 92, 95, 100, 101, 103, 110, 112, 113];

/// Those that say that nothing is left for a connection now: ENOMEM, ENFILE, EMFILE, ENOBUFS.
const SPENT: [u32; 4] = [12, 23, 24, 105];

/// Why an accept that failed with this fault of the system gave no connection.
///
/// Source: Linux, `accept`: none has come, a signal came first, or the fault is of the connection itself.
fn why_none(fault: Option<u32>) -> NoConnection
    ensures { result ≡ none_by fault }
{
    match fault {
        Some(number) if PASSING.contains(&number) => NoConnection::Nobody,
        Some(number) if SPENT.contains(&number) => NoConnection::Spent,
        _ => NoConnection::Failed,
    }
}
