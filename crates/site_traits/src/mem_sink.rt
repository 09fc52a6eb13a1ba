// A sink in memory, which tells all.
ghost use Rattle.std.specs.Prelude.{◌≡◌, ◌≤◌, ◌+◌, ◌↔◌, ◌++◌, ℕ, List, [], IfOk, IsTrue, false, length, vec_capacity};
ghost use Rattle.site_traits.specs.Sink.{Puts, SinkCause};

use crate::log::{BYTES, CALLS};
use crate::sink::{Sink, SinkFailed};
use std::alloc::{AllocError, Global};

/// A sink in memory, which tells all. It has room for 1,048,576 calls and 64 MiB; a put past them fails and puts
/// nothing.
pub struct MemSink {
    bytes: Vec<u8>,
    failing: Option<u64>,
    calls: u64,
    faults: u64,
    ghost roomy: { 67108864 ≤ vec_capacity bytes },
}

impl Drop for MemSink {
    // Written out, so that the proof of a caller calls it and doesn't take the value apart at each of its ends.
    fn drop(self) {
        let MemSink {
            bytes: _,
            failing: _,
            calls: _,
            faults: _,
        } = self;
    }
}

impl MemSink {
    ghost use Rattle.site_traits.specs.MemSink.{IsEmpty};

    /// An empty sink, of which the put of this number, from 1, fails, if one is given.
    pub fn new(alloc: Global, failing: Option<u64>) -> Result<MemSink, AllocError>
        ensures { IfOk result (IsEmpty failing) }
    {
        let bytes = Vec::with_capacity(alloc, BYTES)?;
        Ok(MemSink {
            bytes,
            failing,
            calls: 0,
            faults: 0,
        })
    }

    /// The bytes so far.
    pub fn bytes(&self) -> &[u8]
        ensures { result.now ≡ self.now.bytes.items }
    {
        &self.bytes
    }

    /// How many puts failed.
    pub fn faults(&self) -> u64
        ensures { result ≡ self.now.faults }
    {
        self.faults
    }
}

impl Sink for MemSink {
    ghost use Rattle.site_traits.specs.MemSink.{RunsPut, counts_of};

    ghost tells = { Unit {0} };

    ghost state = { λ s. s.bytes.items };

    ghost counts = { counts_of };

    fn put(&mut self, bytes: &[u8]) -> Result<(), SinkFailed>
        ensures told { Puts bytes.now result self.old.bytes.items self.new.bytes.items }
        ensures cause { SinkCause (counts_of self.old) (counts_of self.new) result }
        ensures runs { RunsPut bytes.now result self.old self.new }
    {
        self.calls = self.calls.saturating_add(1);
        let named = self.failing == Some(self.calls);
        if named || self.calls > CALLS as u64 || !put_within(&mut self.bytes, bytes) {
            self.faults = self.faults.saturating_add(1);
            return Err(SinkFailed);
        }
        Ok(())
    }
}

// Puts these bytes behind those that are there, where there is room for them within 64 MiB.
fn put_within(all: &mut Vec<u8>, bytes: &[u8]) -> bool
    requires { 67108864 ≤ vec_capacity all.old }
    ensures room { IsTrue result ↔ (length all.old.items + length bytes.now ≤ 67108864) }
    ensures put { IsTrue result → all.new.items ≡ all.old.items ++ bytes.now }
    ensures kept { result ≡ false → all.new.items ≡ all.old.items }
    ensures capacity { vec_capacity all.old ≤ vec_capacity all.new }
{
    let Some(room) = BYTES.checked_sub(all.len()) else {
        return false;
    };
    bytes.len() <= room && all.extend_from_slice(bytes).is_ok()
}
