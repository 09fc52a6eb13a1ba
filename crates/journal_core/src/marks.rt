// The places that a journal keeps, so that a record is read back without a walk from the start of the file.
ghost use Rattle.std.specs.Prelude.{◌≡◌, ◌≤◌, ◌<◌, ◌+◌, ◌*◌, [], List, ℕ, IfOk, All, Contains, length, nat_lt};
ghost use Rattle.std.specs.Prelude.{true, false};
ghost use Rattle.std.specs.List.Sorted.{IsPartitionedBy, IsPartitionPoint};
ghost use Rattle.std.specs.Prelude.{vec_capacity};
ghost use Rattle.journal_core.specs.Marks.{IsMark, AreInOrder, AreUpTo, one_more};

use std::alloc::{AllocError, Global};
use std::marker::Model;

/// How many places a journal keeps at most.
pub const MARKS: usize = 65_536;

/// How many bytes a place that is kept stands behind the one before it, at least.
pub const APART: u64 = 4_096;

/// A place of the file at which a gate stands, and how many records stand before it.
#[derive(Clone, Copy)]
pub struct Mark {
    /// How many records stand before it.
    pub before: u64,
    /// The place.
    pub place: u64,
}

/// The place of the first gate.
pub const FIRST: Mark = Mark {
    before: 0,
    place: 32,
};

/// The places of gates that stand 4,096 bytes apart or more, the least that do.
///
/// A contract sees the places, and from which place on the next is kept.
#[derive(Drop)]
pub struct Marks {
    kept: Vec<Mark>,
    next: u64,
}

impl Model for Marks {
    ghost use Rattle.std.specs.Prelude.{◌≡◌, ◌≤◌, ◌+◌, ◌*◌, length, vec_capacity};
    ghost use Rattle.journal_core.specs.Marks.{Kept, AreInOrder, AreInFile};

    ghost Value = { Kept };

    ghost view = { λ m. record { places = m.kept.items; next = m.next } };

    ghost invariant = { λ m. (length m.kept.items * 4096 + 32 ≤ m.next) × (m.next ≤ 268439552)
        × AreInOrder m.kept.items × AreInFile m.kept.items × (vec_capacity m.kept ≡ 65536) };
}

impl Marks {
    /// No place, with room for 65,536.
    pub fn new(alloc: Global) -> Result<Marks, AllocError>
        ensures { IfOk result (λ m. m ≡ record { places = []; next = 32 }) }
    {
        let kept = Vec::with_capacity(alloc, MARKS)?;
        Ok(Marks { kept, next: 32 })
    }

    /// One batch more is seen, whose gate stands here; its place is kept where it stands 4,096 bytes or more behind the
    /// last that was. It takes no memory.
    pub fn keep(&mut self, mark: Mark)
        requires small { mark.place < 268435456 }
        requires order { AreUpTo mark.before self.old.places }
        ensures kept { self.new ≡ one_more self.old mark }
    {
        if mark.place < self.next {
            return;
        }
        self.kept.push_reserved(mark);
        self.next = mark.place + APART;
    }

    /// The last kept place before record n, from 1, or that of the first gate.
    pub fn near(&self, n: u64) -> Mark
        requires some { 1 ≤ n }
        ensures before { result.before < n }
        ensures last { (m : Mark) → Contains self.now.places m → m.before < n → m.before ≤ result.before }
        ensures mark { (bs : List (List (List ℕ))) → All (IsMark bs) self.now.places → IsMark bs result }
        ensures small { result.place < 268435456 }
    {
        let passed = count_before(&self.kept, n);
        if passed == 0 {
            return FIRST;
        }
        self.kept[passed - 1]
    }
}

// How many places, which are in order, stand before record n.
fn count_before(marks: &[Mark], n: u64) -> usize
    ensures bound { result ≤ length marks.now }
    ensures place { IsPartitionedBy (λ (m : Mark). nat_lt m.before n) marks.now
        → IsPartitionPoint (λ (m : Mark). nat_lt m.before n ≡ true)
        (λ (m : Mark). nat_lt m.before n ≡ false) marks.now result }
{
    marks.partition_point(
        |m: &Mark| -> bool
            ensures { result ≡ nat_lt m.now.before n }
        { m.before < n },
    )
}
