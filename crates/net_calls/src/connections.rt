//! Connections.
ghost use Rattle.std.specs.Prelude.{◌≡◌, ◌≤◌, Bool, List, ℕ, IfOk, false, length};
ghost use Rattle.host_calls.specs.Streams.{Incoming, Gives, Takes};
ghost use Rattle.net_calls.specs.Connections.{CountsCall, Finishes, Vain};

use libc::net::{POLLIN, poll};
use libc::types::pollfd;
use std::io;
use std::io::{ErrorKind, Read, Write};
use std::net::{Shutdown, TcpStream};
use std::os::fd::AsRawFd;
use std::time::Duration;

/// One end of a connection.
///
/// Source: std's `TcpStream`.
pub trait Connection {
    /// Whether connections of this kind tell their bytes. Clauses on these hold where they do.
    ghost tells: { Type 0 };

    /// All bytes in, and those that are left.
    ghost incoming: { Self → Incoming };

    /// The bytes out.
    ghost outgoing: { Self → List ℕ };

    /// Whether a read would wait.
    ghost quiet: { Self → Bool };

    /// Whether it was said that no byte will follow.
    ghost finished: { Self → Bool };

    /// How often a call waited in vain, and how often one failed.
    ghost vain: { Self → Vain };

    /// How many milliseconds the last read or write might wait.
    ghost allowed: { Self → ℕ };

    /// Reads the next bytes to the front of `into`, and gives how many, none at the end alone. It waits so many
    /// milliseconds for the first of them, anew where a signal interrupts it; where none came it fails with
    /// `WouldBlock`. A read that fails has read nothing.
    fn read(&mut self, into: &mut [u8], limit: u32) -> io::Result<usize>
        requires limit { 1 ≤ limit }
        ensures most { IfOk result (λ n. n ≤ length into.old) }
        ensures told { tells → Gives into.old into.new result (incoming self.old) (incoming self.new) }
        ensures kept_out { tells → outgoing self.new ≡ outgoing self.old }
        ensures open { tells → finished self.new ≡ finished self.old }
        ensures counted { tells → CountsCall result (vain self.old) (vain self.new) }
        ensures allowed { tells → allowed self.new ≡ limit };

    /// Writes the first of these bytes, and gives how many, one at least where there are any. It waits so many
    /// milliseconds for room, anew where a signal interrupts it; where there was none it fails with `WouldBlock`. A
    /// write that fails has written nothing.
    fn write(&mut self, bytes: &[u8], limit: u32) -> io::Result<usize>
        requires limit { 1 ≤ limit }
        ensures most { IfOk result (λ n. n ≤ length bytes.now) }
        ensures some { tells → 1 ≤ length bytes.now → IfOk result (λ n. 1 ≤ n) }
        ensures told { tells → Takes bytes.now result (outgoing self.old) (outgoing self.new) }
        ensures kept_in { tells → incoming self.new ≡ incoming self.old }
        ensures open { tells → finished self.new ≡ finished self.old }
        ensures counted { tells → CountsCall result (vain self.old) (vain self.new) }
        ensures allowed { tells → allowed self.new ≡ limit };

    /// Whether a read would wait: there is no byte, no end and no fault yet. It doesn't wait itself. Where there is
    /// something, it is there still.
    fn is_quiet(&mut self) -> bool
        ensures value { tells → result ≡ quiet self.old }
        ensures same { tells → result ≡ false → self.new ≡ self.old }
        ensures kept_in { tells → incoming self.new ≡ incoming self.old }
        ensures kept_out { tells → outgoing self.new ≡ outgoing self.old }
        ensures open { tells → finished self.new ≡ finished self.old }
        ensures counted { tells → vain self.new ≡ vain self.old }
        ensures allowed { tells → allowed self.new ≡ allowed self.old };

    /// Says that no byte will follow, so that the peer reads an end behind what was written.
    fn finish(&mut self) -> io::Result<()>
        ensures kept_in { tells → incoming self.new ≡ incoming self.old }
        ensures kept_out { tells → outgoing self.new ≡ outgoing self.old }
        ensures told { tells → Finishes result (finished self.new) (finished self.old) (vain self.old)
            (vain self.new) }
        ensures allowed { tells → allowed self.new ≡ allowed self.old };
}

/// So many milliseconds.
fn milliseconds(limit: u32) -> Option<Duration> {
    Some(Duration::from_millis(u64::from(limit)))
}

/// What is asked of `poll`: whether something can be read from this descriptor without a wait.
pub(crate) fn readable(descriptor: i32) -> pollfd {
    pollfd {
        fd: descriptor,
        events: POLLIN,
        revents: 0,
    }
}

impl Connection for TcpStream {
    ghost use Rattle.std.specs.Prelude.{[], false};
    ghost use Rattle.host_calls.specs.Streams.{nothing};

    ghost tells = { ⊥ };

    ghost incoming = { λ _. nothing };

    ghost outgoing = { λ _. [] };

    ghost quiet = { λ _. false };

    ghost finished = { λ _. false };

    ghost vain = { λ _. record { silences = 0; faults = 0 } };

    ghost allowed = { λ _. 0 };

    fn read(&mut self, into: &mut [u8], limit: u32) -> io::Result<usize> {
        self.set_read_timeout(milliseconds(limit))?;
        for _ in 0..u64::MAX {
            match Read::read(self, into) {
                Err(fault) if fault.kind() == ErrorKind::Interrupted => {}
                answer => return answer,
            }
        }
        Err(io::Error::from(ErrorKind::Interrupted))
    }

    fn write(&mut self, bytes: &[u8], limit: u32) -> io::Result<usize> {
        self.set_write_timeout(milliseconds(limit))?;
        for _ in 0..u64::MAX {
            match Write::write(self, bytes) {
                Err(fault) if fault.kind() == ErrorKind::Interrupted => {}
                answer => return answer,
            }
        }
        Err(io::Error::from(ErrorKind::Interrupted))
    }

    fn is_quiet(&mut self) -> bool {
        poll(&mut [readable(self.as_raw_fd())], 0) == 0
    }

    fn finish(&mut self) -> io::Result<()> {
        self.shutdown(Shutdown::Write)
    }
}
