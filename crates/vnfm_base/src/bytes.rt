//! Bytes of any length, on the heap.
ghost use Rattle.std.specs.Prelude.{◌≡◌, ◌↔◌, IsTrue, IfOk, [], length, vec_len};

use std::alloc::{AllocError, Global};
use std::marker::Model;

/// Bytes of any length.
///
/// A contract sees them as a list.
pub struct Bytes {
    content: Vec<u8>,
}

impl Drop for Bytes {
    // Written out, so that the proof of a caller calls it and doesn't take them apart at each of its ends.
    fn drop(self) {
        let Bytes { content: _ } = self;
    }
}

impl Model for Bytes {
    ghost use Rattle.std.specs.Prelude.{ℕ, List};

    ghost Value = { List ℕ };

    ghost view = { λ b. b.content.items };
}

impl Bytes {
    /// These bytes, copied. Whatever they are, they aren't refused; the one failure is want of memory.
    pub fn of(alloc: Global, bytes: &[u8]) -> Result<Bytes, AllocError>
        ensures { IfOk result (λ b. b ≡ bytes.now) }
    {
        let content = bytes.to_vec(alloc)?;
        Ok(Bytes { content })
    }

    /// No byte; takes no memory.
    pub fn empty(alloc: Global) -> Bytes
        ensures { result ≡ [] }
    {
        Bytes {
            content: Vec::new(alloc),
        }
    }

    /// The bytes of this vector, which is moved and not copied.
    pub fn of_vec(content: Vec<u8>) -> Bytes
        ensures { result ≡ content.items }
    {
        Bytes { content }
    }

    /// Its bytes.
    pub fn as_slice(&self) -> &[u8]
        ensures { result.now ≡ self.now }
    {
        self.content.as_slice()
    }

    /// Their vector, moved and not copied.
    pub fn into_vec(self) -> Vec<u8>
        ensures { result.items ≡ self }
    {
        let Bytes { content } = self;
        content
    }

    /// Their number.
    pub fn len(&self) -> usize
        ensures { result ≡ length self.now }
    {
        self.content.len()
    }

    /// Whether there is no byte.
    pub fn is_empty(&self) -> bool
        ensures { IsTrue result ↔ (self.now ≡ []) }
    {
        self.content.is_empty()
    }
}
