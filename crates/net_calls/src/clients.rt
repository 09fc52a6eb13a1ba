//! Where clients come from, and how they are waited for, any number at once.
ghost use Rattle.std.specs.Prelude.{◌≡◌};
ghost use Rattle.net_calls.specs.Network.{Waits};

use crate::network::{HostNet, NoConnection, StdNet};
use crate::parked::Parked;
use crate::told_connections::MemConnection;
use crate::told_network::{MemListener, MemNet};
use libc::RLIMIT_NOFILE;
use libc::net::{POLLIN, POLLOUT, poll};
use libc::types::{pollfd, rlimit};
use std::alloc::{AllocError, Global};
use std::io;
use std::net::{Net, TcpListener, TcpStream};
use std::os::fd::AsRawFd;

/// A client's connection, and what is waited for on it.
#[derive(Drop)]
pub struct Line<C: Drop> {
    /// The connection.
    pub connection: C,
    /// Whether bytes of the client are waited for.
    pub reads: bool,
    /// Whether room for bytes to the client is waited for.
    pub writes: bool,
    /// Whether the last wait told that something may be done. It is advice: a call on the connection may still find
    /// nothing.
    pub heard: bool,
}

/// Where clients come from.
///
/// Source: std's `TcpListener` and `TcpStream`, and POSIX's `accept`, `poll` and `getrlimit`.
pub trait ClientNet {
    /// An address at which clients come.
    type Listener: Drop;

    /// A client's connection.
    type Client: Parked + Drop;

    /// Whether networks of this kind tell how they wait. Clauses on that hold where they do.
    ghost tells: { Type 0 };

    /// How often it was waited, for how long at most the last time, and how often that failed.
    ghost waits: { Self → Waits };

    /// How many clients there may be at once, as far as descriptors allow.
    fn most(&self) -> usize;

    /// Listens at this address, `HOST:PORT`.
    fn listen_for(&mut self, address: &str) -> io::Result<Self::Listener>;

    /// The next client that has come here, where one has. It doesn't wait.
    fn let_in(&mut self, listener: &mut Self::Listener) -> Result<Self::Client, NoConnection>;

    /// Waits until a client has come at one of the listeners that are given, or something may be done on one of these
    /// lines, or so many milliseconds are over, and marks the lines. A signal or want of memory may end it before.
    /// Whether it could wait.
    fn wait_for(
        &mut self,
        alloc: Global,
        first: Option<&Self::Listener>,
        second: Option<&Self::Listener>,
        lines: &mut [Option<Line<Self::Client>>],
        limit: u32,
    ) -> bool
        ensures limit { tells → (waits self.new).last ≡ limit };
}

/// Descriptors that are left for what isn't a client: the streams, the journal, the listeners and the peers.
const APART: u64 = 64;

/// Clients at most, whatever descriptors allow.
const CLIENTS: u64 = 4_096;

/// What is asked of `poll` on this descriptor; on one below 0 nothing is.
fn asked(descriptor: i32, reads: bool, writes: bool) -> pollfd {
    let mut events = 0i16;
    if reads {
        events |= POLLIN;
    }
    if writes {
        events |= POLLOUT;
    }
    pollfd {
        fd: if reads | writes { descriptor } else { -1 },
        events,
        revents: 0,
    }
}

/// What is asked of `poll` on these listeners and lines.
fn all_asked(
    alloc: Global,
    first: Option<&TcpListener>,
    second: Option<&TcpListener>,
    lines: &[Option<Line<TcpStream>>],
) -> Result<Vec<pollfd>, AllocError> {
    let mut all = Vec::with_capacity(alloc, lines.len().saturating_add(2))?;
    for listener in [first, second] {
        match listener {
            Some(listener) => all.push(asked(listener.as_raw_fd(), true, false))?,
            None => all.push(asked(-1, false, false))?,
        }
    }
    for line in lines {
        match line {
            Some(line) => all.push(asked(line.connection.as_raw_fd(), line.reads, line.writes))?,
            None => all.push(asked(-1, false, false))?,
        }
    }
    Ok(all)
}

/// Marks the lines of which `poll` told something.
fn mark(lines: &mut [Option<Line<TcpStream>>], told: &[pollfd]) {
    for i in 0..lines.len() {
        let heard = match told.get(i.saturating_add(2)) {
            Some(told) => told.revents != 0,
            None => false,
        };
        if let Some(line) = &mut lines[i] {
            line.heard = heard;
        }
    }
}

/// Marks all lines.
fn mark_all<C: Drop>(lines: &mut [Option<Line<C>>]) {
    for i in 0..lines.len() {
        if let Some(line) = &mut lines[i] {
            line.heard = true;
        }
    }
}

impl<'a, R: Net<Listener = TcpListener, Stream = TcpStream>, T: Drop> ClientNet
    for StdNet<'a, R, T> {
    type Listener = TcpListener;

    type Client = TcpStream;

    ghost tells = { ⊥ };

    ghost waits = { λ _. record { count = 0; last = 0; failed = 0 } };

    fn most(&self) -> usize {
        let mut limit = rlimit {
            rlim_cur: 0,
            rlim_max: 0,
        };
        if libc::getrlimit(RLIMIT_NOFILE, &mut limit) != 0 {
            return 64;
        }
        limit.rlim_cur.saturating_sub(APART).min(CLIENTS).max(1) as usize
    }

    fn listen_for(&mut self, address: &str) -> io::Result<TcpListener> {
        HostNet::listen(self, address)
    }

    fn let_in(&mut self, listener: &mut TcpListener) -> Result<TcpStream, NoConnection> {
        let stream = HostNet::accept(self, listener)?;
        match stream.set_nonblocking(true) {
            Ok(()) => Ok(stream),
            Err(_) => Err(NoConnection::Nobody),
        }
    }

    fn wait_for(
        &mut self,
        alloc: Global,
        first: Option<&TcpListener>,
        second: Option<&TcpListener>,
        lines: &mut [Option<Line<TcpStream>>],
        limit: u32,
    ) -> bool {
        let limit = i32::try_from(limit).unwrap_or(i32::MAX);
        match all_asked(alloc, first, second, lines) {
            Ok(mut all) => {
                let told = poll(&mut all, limit);
                if told > 0 {
                    mark(lines, &all);
                }
                told >= 0
                    || io::Error::from_raw_os_error(os::errno()).kind()
                        == io::ErrorKind::Interrupted
            }
            Err(AllocError) => {
                let _ = poll(&mut [], limit);
                mark_all(lines);
                true
            }
        }
    }
}

impl ClientNet for MemNet {
    type Listener = MemListener;

    type Client = MemConnection;

    ghost use Rattle.net_calls.specs.Network.{waits_of};

    ghost tells = { Unit {0} };

    ghost waits = { λ n. waits_of n.waits n.last_wait n.failed };

    fn most(&self) -> usize {
        64
    }

    fn listen_for(&mut self, address: &str) -> io::Result<MemListener> {
        HostNet::listen(self, address)
    }

    fn let_in(&mut self, listener: &mut MemListener) -> Result<MemConnection, NoConnection> {
        HostNet::accept(self, listener)
    }

    fn wait_for(
        &mut self,
        _alloc: Global,
        first: Option<&MemListener>,
        second: Option<&MemListener>,
        lines: &mut [Option<Line<MemConnection>>],
        limit: u32,
    ) -> bool {
        mark_all(lines);
        HostNet::wait(self, first, second, &[], limit).is_ok()
    }
}
