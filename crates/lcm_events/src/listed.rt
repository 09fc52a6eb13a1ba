//! A list that contracts see as a list: the one type of every field that has several entries.

ghost use Rattle.std.specs.Prelude.{◌≡◌, ◌↔◌, IsTrue, ◌∷◌, [], ◌++◌, length, OnOk, OnErr};

use std::alloc::{AllocError, Global};
use std::marker::Model;
use vnfm_base::Name;

/// A list on the heap.
pub struct Listed<T> {
    entries: Vec<T>,
}

impl<T: Drop> Drop for Listed<T> {
    // Written out, so that the proof of a caller calls it and doesn't take it apart at each of its ends.
    fn drop(self) {
        let Listed { entries: _ } = self;
    }
}

impl<T> Model for Listed<T> {
    ghost use Rattle.std.specs.Prelude.{List};

    ghost Value = { List T };

    ghost view = { λ l. l.entries.items };
}

/// A list of names.
pub type Names = Listed<Name>;

impl<T> Listed<T> {
    /// An empty list, which takes no memory until something is pushed.
    pub fn new(alloc: Global) -> Self
        ensures { result ≡ [] }
    {
        Listed {
            entries: Vec::new(alloc),
        }
    }

    /// The list of these entries, which isn't copied.
    pub fn of(entries: Vec<T>) -> Self
        ensures { result ≡ entries.items }
    {
        Listed { entries }
    }

    /// The entries in order.
    pub fn as_slice(&self) -> &[T]
        ensures { result.now ≡ self.now }
    {
        self.entries.as_slice()
    }

    /// How many entries there are.
    pub fn len(&self) -> usize
        ensures { result ≡ length self.now }
    {
        self.entries.len()
    }

    /// Whether there is no entry.
    pub fn is_empty(&self) -> bool
        ensures { IsTrue result ↔ (self.now ≡ []) }
    {
        self.entries.is_empty()
    }

    /// The entries as a vector, which is moved and not copied.
    pub fn into_vec(self) -> Vec<T>
        ensures { result.items ≡ self }
    {
        let Listed { entries } = self;
        entries
    }

    /// Puts an entry last. After an error the list is as it was.
    pub fn push(&mut self, entry: T) -> Result<(), AllocError>
    where
        T: Drop,
        ensures ok { OnOk result (self.new ≡ self.old ++ entry ∷ []) }
        ensures err { OnErr result (self.new ≡ self.old) }
    {
        self.entries.push(entry)?;
        Ok(())
    }
}
