//! A list with an entry for each change, whose entries are set in place.

ghost use Rattle.std.specs.Prelude.{◌≡◌, [], slice_set, vec_capacity, vec_len};

use std::marker::Model;

/// A list whose entries are set in place, and which gives its memory back once it is cleared.
#[derive(Drop)]
pub struct Cells<T> {
    entries: Vec<T>,
}

impl<T> Model for Cells<T> {
    ghost use Rattle.std.specs.Prelude.{List};

    ghost Value = { List T };

    ghost view = { λ c. c.entries.items };
}

/// Sets the entry at this place. Nothing happens beyond the end.
pub fn set_in<T: Copy>(entries: &mut Vec<T>, at: usize, value: T)
    ensures items { entries.new.items ≡ slice_set entries.old.items at value }
    ensures length { vec_len entries.new ≡ vec_len entries.old }
    ensures capacity { vec_capacity entries.new ≡ vec_capacity entries.old }
{
    if at < entries.len() {
        entries[at] = value;
    }
}

impl<T: Copy + Drop> Cells<T> {
    /// The list of these entries, which isn't copied.
    pub fn of(entries: Vec<T>) -> Self
        ensures { result ≡ entries.items }
    {
        Cells { entries }
    }

    /// The entries in order.
    pub fn as_slice(&self) -> &[T]
        ensures { result.now ≡ self.now }
    {
        self.entries.as_slice()
    }

    /// Lets all entries go, and gives their memory back.
    pub fn clear(&mut self)
        ensures { self.new ≡ [] }
    {
        self.entries.clear();
        self.entries.shrink_to_fit();
    }

    /// Sets the entry at this place. Nothing happens beyond the end.
    pub fn set(&mut self, at: usize, value: T)
        ensures { self.new ≡ slice_set self.old at value }
    {
        set_in(&mut self.entries, at, value);
    }
}
