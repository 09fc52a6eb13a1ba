//! Records that are packed into the batches of a journal's file.
ghost use Rattle.std.specs.Prelude.{◌≡◌, ◌≤◌, ◌+◌, ◌∷◌, ◌++◌, [], ℕ, List, IfOk, OnOk, length};
ghost use Rattle.journal_records.specs.File.{content, held, IsRecord};
ghost use Rattle.journal_migration.specs.Packing.{Appends, HasPacked, HoldsBatches, PacksAll};

use journal_core::made_bytes;
use journal_records::{MAX_BATCH, MAX_FILE};
use std::alloc::{AllocError, Global};
use std::marker::Model;

/// A batch for which a file has no room.
#[derive(Clone, Copy)]
pub struct Full {
    /// The place at which it would begin, in bytes.
    pub end: u64,
    /// The bytes of its content.
    pub more: u32,
}

/// Records that are packed, in order, into the batches of a file: each into the batch at hand, or into a new one where
/// that has no room.
///
/// A contract sees the bytes of the file, up to the first batch for which it has no room, the content of the batch at
/// hand, and that first batch.
#[derive(Drop)]
pub struct Packing {
    bytes: Vec<u8>,
    content: Vec<u8>,
    unfit: Option<Full>,
}

impl Model for Packing {
    ghost use Rattle.std.specs.Prelude.{◌≡◌, ◌≤◌, length};
    ghost use Rattle.journal_migration.specs.Packing.{Packing};

    ghost Value = { Packing };

    ghost view = { λ p. record { bytes = p.bytes.items; content = p.content.items; unfit = p.unfit } };

    ghost invariant = { λ p. length p.content.items ≤ 131072 };
}

impl Packing {
    /// No record, in a file of this manager.
    pub fn new(alloc: Global, manager: u32) -> Result<Packing, AllocError>
        ensures { IfOk result (λ p. HasPacked manager [] p) }
    {
        let mut bytes = Vec::new(alloc);
        bytes.extend_from_slice(&made_bytes(manager)[..32])?;
        Ok(Packing {
            bytes,
            content: Vec::new(alloc),
            unfit: None,
        })
    }

    /// One record more.
    pub fn add(&mut self, bytes: &[u8]) -> Result<(), AllocError>
        requires { IsRecord bytes.now }
        ensures { (m : ℕ) (rs : List (List ℕ)) → HasPacked m rs self.old
            → OnOk result (HasPacked m (rs ++ bytes.now ∷ []) self.new) }
    {
        if self.content.len() + 4 + bytes.len() > MAX_BATCH {
            self.close()?;
            return self.put(bytes);
        }
        self.put(bytes)
    }

    /// The records are all: their file is whole, or it is known for which batch it has no room.
    pub fn finish(&mut self) -> Result<(), AllocError>
        ensures { (m : ℕ) (rs : List (List ℕ)) → HasPacked m rs self.old
            → OnOk result (PacksAll m rs self.new.bytes self.new.unfit) }
    {
        if self.content.len() == 0 {
            return self.bytes.extend_from_slice(&[0]);
        }
        self.close()?;
        self.bytes.extend_from_slice(&[0])
    }

    /// The first batch for which the file has no room.
    pub fn unfit(&self) -> Option<Full>
        ensures { result ≡ self.now.unfit }
    {
        self.unfit
    }

    /// The file's bytes, once all records were packed and it has room for them.
    pub fn as_slice(&self) -> &[u8]
        ensures { result.now ≡ self.now.bytes }
    {
        &self.bytes
    }

    // Puts a record, for which it has room, into the batch at hand.
    fn put(&mut self, bytes: &[u8]) -> Result<(), AllocError>
        requires { length self.old.content + 4 + length bytes.now ≤ 131072 }
        ensures content { OnOk result (self.new.content ≡ self.old.content ++ held bytes.now) }
        ensures bytes { self.new.bytes ≡ self.old.bytes }
        ensures unfit { self.new.unfit ≡ self.old.unfit }
    {
        self.content
            .extend_from_slice(&(bytes.len() as u32).to_be_bytes())?;
        self.content.extend_from_slice(bytes)
    }

    // Puts the batch at hand behind those of the file, where that has room, and begins another.
    fn close(&mut self) -> Result<(), AllocError>
        requires { 1 ≤ length self.old.content }
        ensures content { OnOk result (self.new.content ≡ []) }
        ensures file { (m : ℕ) (bs : List (List (List ℕ))) (hand : List (List ℕ)) → self.old.content ≡ content hand
            → HoldsBatches m bs self.old.bytes self.old.unfit
            → OnOk result (HoldsBatches m (bs ++ hand ∷ []) self.new.bytes self.new.unfit) }
    {
        if self.unfit.is_some() {
            self.content.clear();
            return Ok(());
        }
        self.append()?;
        self.content.clear();
        Ok(())
    }

    // Puts the batch at hand behind those of the file, where that has room.
    fn append(&mut self) -> Result<(), AllocError>
        requires { 1 ≤ length self.old.content }
        ensures content { self.new.content ≡ self.old.content }
        ensures appended { OnOk result (Appends self.old self.new) }
    {
        let end = self.bytes.len() as u64;
        let more = self.content.len() as u32;
        if end + 6 + more as u64 > MAX_FILE {
            self.unfit = Some(Full { end, more });
            return Ok(());
        }
        self.bytes.extend_from_slice(&[1])?;
        self.bytes.extend_from_slice(&more.to_be_bytes())?;
        self.bytes.extend_from_slice(&self.content)
    }
}
