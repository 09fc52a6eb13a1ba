//! Bytes that wait, those that came first in front.
ghost use Rattle.std.specs.Prelude.{◌≡◌, ◌≤◌, ◌++◌, [], ℕ, List, length, drop, vec_len, OnOk, OnErr};

use std::alloc::{AllocError, Global};
use std::marker::Model;

/// Bytes that wait, those that came first in front. A contract sees the list of them.
#[derive(Drop)]
pub struct Queue {
    bytes: Vec<u8>,
    // Bytes at the front of `bytes` that were passed.
    passed: usize,
}

impl Model for Queue {
    ghost use Rattle.std.specs.Prelude.{ℕ, List, ◌≤◌, length, drop};

    ghost Value = { List ℕ };

    ghost view = { λ q. drop q.passed q.bytes.items };

    ghost invariant = { λ q. q.passed ≤ length q.bytes.items };
}

impl Queue {
    /// None waits.
    pub fn new(alloc: Global) -> Queue
        ensures { result ≡ [] }
    {
        Queue {
            bytes: Vec::new(alloc),
            passed: 0,
        }
    }

    /// Those that wait.
    pub fn bytes(&self) -> &[u8]
        ensures { result.now ≡ self.now }
    {
        &self.bytes[self.passed..]
    }

    /// These wait too, behind the others. Without memory nothing changes.
    pub fn add(&mut self, bytes: &[u8]) -> Result<(), AllocError>
        ensures added { OnOk result (self.new ≡ self.old ++ bytes.now) }
        ensures none { OnErr result (self.new ≡ self.old) }
    {
        drop_front(&mut self.bytes, self.passed);
        self.passed = 0;
        self.bytes.extend_from_slice(bytes)
    }

    /// Passes the first `n`.
    pub fn pass(&mut self, n: usize)
        requires { n ≤ length self.old }
        ensures { self.new ≡ drop n self.old }
    {
        self.passed += n;
        if self.passed == self.bytes.len() {
            self.bytes.clear();
            self.passed = 0;
        }
    }

    /// Writes these over the first ones.
    pub fn write_over(&mut self, front: &[u8])
        requires { length front.now ≤ length self.old }
        ensures { self.new ≡ front.now ++ drop (length front.now) self.old }
    {
        let end = self.passed + front.len();
        self.bytes[self.passed..end].copy_from_slice(front);
    }
}

/// Drops the first `n` bytes.
fn drop_front(bytes: &mut Vec<u8>, n: usize)
    requires { n ≤ vec_len bytes.old }
    ensures { bytes.new.items ≡ drop n bytes.old.items }
{
    if n > 0 {
        bytes.rotate_left(n);
        bytes.truncate(bytes.len() - n);
    }
}
