//! Streams of bytes.
ghost use Rattle.std.specs.Prelude.{◌≡◌, ◌≤◌, List, ℕ, IfOk, length};
ghost use Rattle.host_calls.specs.Streams.{Incoming, Gives, StreamCalls, Takes, TakesAll, called, fault_of};

use std::io;
use std::io::{Read, Write};
use std::rt::{Stderr, Stdin, Stdout};

/// What bytes are read from.
///
/// Source: std's `Read`.
pub trait InStream {
    /// Whether streams of this kind tell their bytes. Clauses on these hold where they do.
    ghost tells: { Type 0 };

    /// All bytes in, and those that are left.
    ghost state: { Self → Incoming };

    /// The calls on it.
    ghost calls: { Self → StreamCalls };

    /// Reads the next bytes to the front of `into`. It gives how many, none at the end alone. It may give fewer than
    /// there are, be interrupted, or fail; then it has read nothing.
    fn read(&mut self, into: &mut [u8]) -> io::Result<usize>
        ensures most { IfOk result (λ n. n ≤ length into.old) }
        ensures told { tells → Gives into.old into.new result (state self.old) (state self.new) }
        ensures one { tells → calls self.new ≡ called (length into.old) (fault_of result) (calls self.old) };
}

/// What bytes are written to.
///
/// Source: std's `Write`.
pub trait OutStream {
    /// Whether streams of this kind tell their bytes. Clauses on these hold where they do.
    ghost tells: { Type 0 };

    /// The bytes out.
    ghost state: { Self → List ℕ };

    /// The calls on it.
    ghost calls: { Self → StreamCalls };

    /// Writes the first of these bytes, and gives how many. It may take fewer than there are, be interrupted, or fail;
    /// then it has written nothing.
    fn write(&mut self, bytes: &[u8]) -> io::Result<usize>
        ensures most { IfOk result (λ n. n ≤ length bytes.now) }
        ensures told { tells → Takes bytes.now result (state self.old) (state self.new) }
        ensures one { tells → calls self.new ≡ called (length bytes.now) (fault_of result) (calls self.old) };

    /// Writes all of these bytes, or fails with a front of them written.
    fn write_all(&mut self, bytes: &[u8]) -> io::Result<()>
        ensures told { tells → TakesAll bytes.now result (state self.old) (state self.new) }
        ensures one { tells → calls self.new ≡ called (length bytes.now) (fault_of result) (calls self.old) };
}

impl InStream for Stdin {
    ghost use Rattle.host_calls.specs.Streams.{nothing, uncalled};

    ghost tells = { ⊥ };

    ghost state = { λ _. nothing };

    ghost calls = { λ _. uncalled };

    fn read(&mut self, into: &mut [u8]) -> io::Result<usize> {
        Read::read(self, into)
    }
}

impl OutStream for Stdout {
    ghost use Rattle.std.specs.Prelude.{[]};
    ghost use Rattle.host_calls.specs.Streams.{uncalled};

    ghost tells = { ⊥ };

    ghost state = { λ _. [] };

    ghost calls = { λ _. uncalled };

    fn write(&mut self, bytes: &[u8]) -> io::Result<usize> {
        Write::write(self, bytes)
    }

    fn write_all(&mut self, bytes: &[u8]) -> io::Result<()> {
        Write::write_all(self, bytes)
    }
}

impl OutStream for Stderr {
    ghost use Rattle.std.specs.Prelude.{[]};
    ghost use Rattle.host_calls.specs.Streams.{uncalled};

    ghost tells = { ⊥ };

    ghost state = { λ _. [] };

    ghost calls = { λ _. uncalled };

    fn write(&mut self, bytes: &[u8]) -> io::Result<usize> {
        Write::write(self, bytes)
    }

    fn write_all(&mut self, bytes: &[u8]) -> io::Result<()> {
        Write::write_all(self, bytes)
    }
}
