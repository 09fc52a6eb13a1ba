//! The buffer in which an event's bytes are put together: room for one record, taken once.
ghost use Rattle.std.specs.Prelude.{◌≡◌, IfOk};
ghost use Rattle.event_codec.specs.Spell.{u8, u16, u32, u64, name, line};
ghost use Rattle.event_codec.specs.Valid.{IsU8, IsU16, IsU32, IsU64};
ghost use Rattle.event_codec.specs.Written.{nothing, put};
ghost use Rattle.vnfm_base.specs.Text.{IsName, IsLine};

use std::alloc::{AllocError, Global};
use std::marker::Model;
use vnfm_base::{Line, MAX_RECORD, Name};

/// Room for the bytes of one record.
///
/// A contract sees how many bytes were put into it, and the bytes that are kept: all of them as long as they are at
/// most `MAX_RECORD`, and none behind that.
#[derive(Drop)]
pub struct RecordBuf {
    len: u64,
    bytes: Vec<u8>,
}

impl Model for RecordBuf {
    ghost use Rattle.std.specs.Prelude.{◌≤◌, length, vec_capacity};
    ghost use Rattle.event_codec.specs.Written.{Written};
    ghost use Rattle.vnfm_base.specs.declared.limits.TheConstants.{MAX_RECORD};

    ghost Value = { Written };

    ghost view = { λ b. record { len = b.len; kept = b.bytes.items } };

    ghost invariant = { λ b. (MAX_RECORD ≤ vec_capacity b.bytes) × (length b.bytes.items ≤ b.len) };
}

impl RecordBuf {
    /// An empty buffer. Takes all the memory that it will ever need.
    pub fn new(alloc: Global) -> Result<RecordBuf, AllocError>
        ensures { IfOk result (λ b. b ≡ nothing) }
    {
        let bytes = Vec::with_capacity(alloc, MAX_RECORD)?;
        Ok(RecordBuf { len: 0, bytes })
    }

    /// The bytes that are kept.
    pub fn as_slice(&self) -> &[u8]
        ensures { result.now ≡ self.now.kept }
    {
        self.bytes.as_slice()
    }

    /// How many bytes were put.
    pub(crate) fn put_len(&self) -> u64
        ensures { result ≡ self.now.len }
    {
        self.len
    }

    pub(crate) fn clear(&mut self)
        ensures { self.new ≡ nothing }
    {
        self.len = 0;
        self.bytes.clear();
    }

    /// Puts some bytes more.
    #[tactic(auto, unfolding(crate::specs::Written::put))]
    pub(crate) fn put(&mut self, bytes: &[u8])
        ensures { self.new ≡ put self.old bytes.now }
    {
        self.len = self.len.saturating_add(bytes.len() as u64);
        if self.len > MAX_RECORD as u64 {
            self.bytes.clear();
        } else {
            let _ = self.bytes.extend_from_slice(bytes);
        }
    }

    pub(crate) fn u8(&mut self, number: u8)
        ensures spelled { self.new ≡ put self.old (u8 number) }
        ensures typed { IsU8 number }
    {
        self.put(&[number]);
    }

    #[tactic(auto, unfolding(crate::specs::Spell::u16))]
    pub(crate) fn u16(&mut self, number: u16)
        ensures spelled { self.new ≡ put self.old (u16 number) }
        ensures typed { IsU16 number }
    {
        self.put(&number.to_be_bytes());
    }

    #[tactic(auto, unfolding(crate::specs::Spell::u32))]
    pub(crate) fn u32(&mut self, number: u32)
        ensures spelled { self.new ≡ put self.old (u32 number) }
        ensures typed { IsU32 number }
    {
        self.put(&number.to_be_bytes());
    }

    #[tactic(auto, unfolding(crate::specs::Spell::u64))]
    pub(crate) fn u64(&mut self, number: u64)
        ensures spelled { self.new ≡ put self.old (u64 number) }
        ensures typed { IsU64 number }
    {
        self.put(&number.to_be_bytes());
    }

    #[tactic(auto, using(crate::proofs::Puts::put_twice))]
    pub(crate) fn name(&mut self, text: &Name)
        ensures spelled { self.new ≡ put self.old (name text.now) }
        ensures typed { IsName text.now }
    {
        self.u8(text.len() as u8);
        self.put(text.as_bytes());
    }

    #[tactic(auto, using(crate::proofs::Puts::put_twice))]
    pub(crate) fn line(&mut self, text: &Line)
        ensures spelled { self.new ≡ put self.old (line text.now) }
        ensures typed { IsLine text.now }
    {
        self.u16(text.len() as u16);
        self.put(text.as_bytes());
    }
}
