//! A queue of marks, packed 64 to a word: a mark takes a bit.

ghost use Rattle.std.specs.Prelude.{Bool, IsOk, List, OnOk, [], drop, length, slice_get, ◌++◌, ◌<◌, ◌^◌, ◌+◌, ◌∷◌, ◌≡◌};
ghost use Rattle.std.specs.Prelude.{◌≤◌};
ghost use Rattle.notice_table.specs.Marks.{from_set, marks_in};

use std::alloc::{AllocError, Global};
use std::collections::VecDeque;
use std::marker::Model;

/// Marks in a word.
const WORD: u8 = 64;

/// Marks that are set or not, the oldest first.
///
/// A contract sees them as a list, and beside it for how many more words there is room.
#[derive(Drop)]
pub struct Marks {
    /// The oldest marks, the oldest in the lowest bit.
    front: u64,
    /// How many are in `front`: none only where there is no mark.
    left: u8,
    /// The words behind it, full of marks.
    words: VecDeque<u64>,
    /// The latest marks, too few for a word.
    back: u64,
    /// How many are in `back`.
    filled: u8,
    /// How many there are.
    count: usize,
}

impl Model for Marks {
    ghost use Rattle.std.specs.Prelude.{◌-◌};
    ghost use Rattle.std.specs.VecDeque.{deque_capacity, deque_len};
    ghost use Rattle.notice_table.specs.Marks.{ShownMarks};

    ghost Value = { ShownMarks };

    ghost use Rattle.notice_table.specs.Packing.{IsPacked, marks_of};

    ghost view = { λ t. record { marks = marks_of t; room = deque_capacity t.words - deque_len t.words } };

    ghost invariant = { IsPacked };
}

/// A word of which these are the lowest marks, with one more behind them.
fn word_with_mark(word: u64, place: u8, mark: bool) -> u64
    requires place { place < 64 }
    requires word { word < 2 ^ place }
    ensures marks { marks_in (place + 1) result ≡ marks_in place word ++ mark ∷ [] }
    ensures bound { result < 2 ^ (place + 1) }
{
    if mark { word + (1 << place) } else { word }
}

impl Marks {
    /// No mark; no memory is taken.
    pub fn new(alloc: Global) -> Self
        ensures { result.marks ≡ [] }
    {
        Marks {
            front: 0,
            left: 0,
            words: VecDeque::new(alloc),
            back: 0,
            filled: 0,
            count: 0,
        }
    }

    /// How many there are.
    pub fn len(&self) -> usize
        ensures { result ≡ length self.now.marks }
    {
        self.count
    }

    /// Reserves room for one more.
    pub fn reserve(&mut self) -> Result<(), AllocError>
        ensures kept { self.new.marks ≡ self.old.marks }
        ensures room { OnOk result (0 < self.new.room) }
    {
        self.words.reserve(1)
    }

    /// Puts a mark behind the others.
    pub fn put(&mut self, mark: bool)
        requires room { 0 < self.old.room }
        requires bound { length self.old.marks < 2 ^ 63 }
        ensures { self.new.marks ≡ self.old.marks ++ mark ∷ [] }
    {
        self.count += 1;
        if self.left == 0 {
            self.front = word_with_mark(0, 0, mark);
            self.left = 1;
        } else {
            let word = word_with_mark(self.back, self.filled, mark);
            if self.filled == WORD - 1 {
                self.words.push_back_reserved(word);
                self.back = 0;
                self.filled = 0;
            } else {
                self.back = word;
                self.filled += 1;
            }
        }
    }

    /// The oldest mark.
    fn first(&self) -> Option<bool>
        ensures { result ≡ slice_get self.now.marks 0 }
    {
        if self.left == 0 {
            None
        } else {
            Some(self.front % 2 == 1)
        }
    }

    /// Drops the oldest mark. Nothing happens where there is none.
    fn drop_first(&mut self)
        ensures marks { self.new.marks ≡ drop 1 self.old.marks }
        ensures room { self.old.room ≤ self.new.room }
    {
        if self.left > 1 {
            self.front /= 2;
            self.left -= 1;
            self.count -= 1;
        } else if self.left == 1 {
            self.count -= 1;
            match self.words.pop_front() {
                Some(word) => {
                    self.front = word;
                    self.left = WORD;
                }
                None => {
                    self.front = self.back;
                    self.left = self.filled;
                    self.back = 0;
                    self.filled = 0;
                }
            }
        }
    }

    /// Drops the oldest mark, and those behind it up to the next that is set.
    pub fn pass(&mut self)
        ensures marks { self.new.marks ≡ from_set (drop 1 self.old.marks) }
        ensures room { self.old.room ≤ self.new.room }
    {
        self.drop_first();
        while self.first() == Some(false) {
            self.drop_first();
        }
    }
}
