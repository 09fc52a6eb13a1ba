// The places that a journal of format 1 keeps, so that a record is read back without a walk from the start of the file.
ghost use Rattle.std.specs.Prelude.{◌≡◌, ◌≤◌, ◌<◌, ◌+◌, ◌-◌, ◌*◌, ◌/◌, ◌^◌, [], List, ℕ, IfOk, All, length, get_or};
ghost use Rattle.std.specs.Prelude.{vec_capacity};
ghost use Rattle.old_journal.specs.Marks.{IsMark, AreEvery, IsFitStep};

use std::alloc::{AllocError, Global};
use std::marker::Model;

/// How many places a journal keeps.
pub const MARKS: usize = 65_536;

/// A place of the file at which a gate stands, and how many records stand before it.
#[derive(Clone, Copy)]
pub struct Mark {
    /// How many records stand before it.
    pub before: u64,
    /// The place.
    pub place: u64,
}

/// The place of the first gate.
pub const FIRST: Mark = Mark {
    before: 0,
    place: 32,
};

/// The places of every k-th record, k being the step. Where the room for them is full, k doubles and every second place
/// goes.
///
/// A contract sees the places, and of how many records they are.
#[derive(Drop)]
pub struct Marks {
    kept: Vec<Mark>,
    step: u64,
    seen: u64,
}

impl Model for Marks {
    ghost use Rattle.std.specs.Prelude.{◌≡◌, vec_capacity};
    ghost use Rattle.old_journal.specs.Marks.{Kept, AreEvery, IsFitStep};

    ghost Value = { Kept };

    ghost view = { λ m. record { places = m.kept.items; seen = m.seen } };

    ghost invariant = { λ m. AreEvery m.step m.seen m.kept.items × IsFitStep m.step m.seen
        × (vec_capacity m.kept ≡ 65536) };
}

impl Marks {
    /// No place, with room for 65,536.
    pub fn new(alloc: Global) -> Result<Marks, AllocError>
        ensures { IfOk result (λ m. m ≡ record { places = []; seen = 0 }) }
    {
        let kept = Vec::with_capacity(alloc, MARKS)?;
        Ok(Marks {
            kept,
            step: 1,
            seen: 0,
        })
    }

    /// One record more is seen, whose gate stands here; its place is kept where it is one of every k-th. It takes no
    /// memory.
    pub fn keep(&mut self, mark: Mark)
        requires next { mark.before ≡ self.old.seen }
        requires small { self.old.seen < 268435456 }
        ensures seen { self.new.seen ≡ self.old.seen + 1 }
        ensures marks { (rs : List (List ℕ)) → All (IsMark rs) self.old.places → IsMark rs mark
            → All (IsMark rs) self.new.places }
    {
        if mark.before % self.step != 0 {
            self.seen += 1;
            return;
        }
        self.step = make_room(&mut self.kept, self.step, mark.before);
        self.kept.push_reserved(mark);
        self.seen += 1;
    }

    /// The nearest kept place before record n, from 1: fewer than k records stand between, and k is at most one more
    /// than a 32,768th of the records that were seen.
    pub fn near(&self, n: u64) -> Mark
        requires some { 1 ≤ n }
        requires seen { n ≤ self.now.seen }
        ensures before { result.before < n }
        ensures near { (n - 1 - result.before) * 32768 ≤ self.now.seen }
        ensures mark { (rs : List (List ℕ)) → All (IsMark rs) self.now.places → IsMark rs result }
    {
        self.kept[((n - 1) / self.step) as usize]
    }
}

// Makes room for the place behind so many records, a multiple of the step, and gives the step between the places that
// are kept.
fn make_room(kept: &mut Vec<Mark>, step: u64, seen: u64) -> u64
    requires every { AreEvery step seen kept.old.items }
    requires next { length kept.old.items * step ≡ seen }
    requires fit { IsFitStep step seen }
    requires capacity { vec_capacity kept.old ≡ 65536 }
    ensures every { AreEvery result seen kept.new.items }
    ensures next { length kept.new.items * result ≡ seen }
    ensures fit { IsFitStep result seen }
    ensures room { length kept.new.items < 65536 }
    ensures capacity { vec_capacity kept.new ≡ 65536 }
    ensures marks { (rs : List (List ℕ)) → All (IsMark rs) kept.old.items → All (IsMark rs) kept.new.items }
{
    if kept.len() < MARKS {
        return step;
    }
    halve(kept);
    step * 2
}

// Keeps every second place.
fn halve(kept: &mut Vec<Mark>)
    ensures len { length kept.new.items ≡ length kept.old.items / 2 }
    ensures each { (k : ℕ) (d : Mark) → k < length kept.new.items
        → get_or kept.new.items k d ≡ get_or kept.old.items (k * 2) d }
    ensures marks { (rs : List (List ℕ)) → All (IsMark rs) kept.old.items → All (IsMark rs) kept.new.items }
    ensures capacity { vec_capacity kept.new ≡ vec_capacity kept.old }
{
    let half = kept.len() / 2;
    for k in 0..half {
        kept[k] = kept[k * 2];
    }
    kept.truncate(half);
}
