//! Streams in memory.
ghost use Rattle.std.specs.Prelude.{◌≡◌, ◌≤◌, ◌++◌, IsTrue, OnErr, OnOk, length, take, drop};
ghost use Rattle.site_traits.specs.Counts.{one_more};
ghost use Rattle.host_calls.specs.Streams.{called, fault_of, uninterrupted};

use crate::streams::{InStream, OutStream};
use std::io;
use std::io::ErrorKind;

/// How many calls were made on a stream, and the last of them: for how many bytes it was, and how it failed. None is
/// ever interrupted.
#[derive(Clone, Copy)]
struct Calls {
    answered: u64,
    size: usize,
    fault: Option<ErrorKind>,
}

/// No call.
const UNCALLED: Calls = Calls {
    answered: 0,
    size: 0,
    fault: None,
};

/// One call more, for so many bytes, which ended so.
fn note(calls: &mut Calls, size: usize, fault: Option<ErrorKind>)
    ensures { (calls.new.answered ≡ one_more calls.old.answered) × (calls.new.size ≡ size) × (calls.new.fault ≡ fault) }
{
    *calls = Calls {
        answered: calls.answered.saturating_add(1),
        size,
        fault,
    };
}

/// A stream that these bytes come in.
#[derive(Drop)]
pub struct Source {
    bytes: Vec<u8>,
    at: usize,
    calls: Calls,
    ghost sound: { at ≤ length bytes.items },
}

impl Source {
    /// Of these bytes none was read yet.
    pub fn of(bytes: Vec<u8>) -> Source
        ensures { (result.at ≡ 0) × (result.bytes.items ≡ bytes.items) }
    {
        Source {
            bytes,
            at: 0,
            calls: UNCALLED,
        }
    }
}

/// Gives the first of these bytes, so many of them.
fn give(left: &[u8], into: &mut [u8], count: usize)
    requires left { count ≤ length left.now }
    requires into { count ≤ length into.old }
    ensures { into.new ≡ take count left.now ++ drop count into.old }
{
    into[..count].copy_from_slice(&left[..count]);
}

impl InStream for Source {
    ghost use Rattle.std.specs.Prelude.{drop};

    ghost tells = { Unit {0} };

    ghost state = { λ s. record { bytes = s.bytes.items; left = drop s.at s.bytes.items } };

    ghost calls = { λ s. uninterrupted s.calls.answered s.calls.size s.calls.fault };

    fn read(&mut self, into: &mut [u8]) -> io::Result<usize> {
        let left = &self.bytes[self.at..];
        let count = left.len().min(into.len());
        give(left, into, count);
        self.at += count;
        note(&mut self.calls, into.len(), None);
        Ok(count)
    }
}

/// A stream to which these bytes are to be written, in this order. A write of others fails.
#[derive(Drop)]
pub struct Drain {
    expected: Vec<u8>,
    at: usize,
    calls: Calls,
    ghost sound: { at ≤ length expected.items },
}

impl Drain {
    /// Of these bytes none was written yet.
    pub fn of(expected: Vec<u8>) -> Drain
        ensures { (result.at ≡ 0) × (result.expected.items ≡ expected.items) }
    {
        Drain {
            expected,
            at: 0,
            calls: UNCALLED,
        }
    }

    /// The bytes that are to come.
    fn due(&self) -> &[u8]
        ensures { result.now ≡ drop self.now.at self.now.expected.items }
    {
        &self.expected[self.at..]
    }

    /// Takes these bytes, where they are those that are to come, and else none.
    fn take(&mut self, bytes: &[u8]) -> bool
        ensures took { IsTrue result → take self.new.at self.new.expected.items
            ≡ take self.old.at self.old.expected.items ++ bytes.now }
        ensures calls { self.new.calls ≡ self.old.calls }
        ensures none { ¬ (IsTrue result) → self.new ≡ self.old }
    {
        if !are_due(self.due(), bytes) {
            return false;
        }
        self.at += bytes.len();
        true
    }

    /// Takes these bytes by a call that is noted, or fails with none taken.
    fn put(&mut self, bytes: &[u8]) -> io::Result<()>
        ensures took { OnOk result (take self.new.at self.new.expected.items
            ≡ take self.old.at self.old.expected.items ++ bytes.now) }
        ensures none { OnErr result (take self.new.at self.new.expected.items
            ≡ take self.old.at self.old.expected.items) }
        ensures one { uninterrupted self.new.calls.answered self.new.calls.size self.new.calls.fault
            ≡ called (length bytes.now) (fault_of result) (uninterrupted self.old.calls.answered self.old.calls.size
            self.old.calls.fault) }
    {
        if !self.take(bytes) {
            note(&mut self.calls, bytes.len(), Some(ErrorKind::InvalidData));
            return Err(io::Error::from(ErrorKind::InvalidData));
        }
        note(&mut self.calls, bytes.len(), None);
        Ok(())
    }
}

/// Whether these bytes are the first of those that are due.
fn are_due(due: &[u8], bytes: &[u8]) -> bool
    ensures there { IsTrue result → length bytes.now ≤ length due.now }
    ensures same { IsTrue result → take (length bytes.now) due.now ≡ bytes.now }
{
    bytes.len() <= due.len() && &due[..bytes.len()] == bytes
}

impl OutStream for Drain {
    ghost use Rattle.std.specs.Prelude.{take};

    ghost tells = { Unit {0} };

    ghost state = { λ d. take d.at d.expected.items };

    ghost calls = { λ d. uninterrupted d.calls.answered d.calls.size d.calls.fault };

    fn write(&mut self, bytes: &[u8]) -> io::Result<usize> {
        match self.put(bytes) {
            Ok(()) => Ok(bytes.len()),
            Err(fault) => Err(fault),
        }
    }

    fn write_all(&mut self, bytes: &[u8]) -> io::Result<()> {
        self.put(bytes)
    }
}
