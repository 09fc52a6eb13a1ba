// Where connections come in.
ghost use Rattle.std.specs.Prelude.{◌≡◌, ◌≤◌, true, length};
ghost use Rattle.site_traits.specs.Door.{DoorState, DoorCounts, WriteCounts, Nexts, ReadsIn, WritesOut, HangsUp};
ghost use Rattle.site_traits.specs.Door.{IsAmount, IsTaken, NextCause, ReadCause, WriteCause, asked_for, closed};

use lcm_events::Role;

/// What came of waiting for a connection.
#[derive(Clone, Copy)]
pub enum NextAnswer {
    /// A connection of this role is at hand.
    Came(Role),
    /// None came this time.
    Nobody,
    /// None will come any more.
    Ended,
    /// The door failed. Its count of faults rose by one, and that of `next` faults too.
    Failed,
}

/// What came of a read.
#[derive(Clone, Copy)]
pub enum ReadAnswer {
    /// So many bytes, at least one, stand at the front of the piece.
    Got(usize),
    /// No byte is left.
    End,
    /// The read failed. The door's count of faults rose by one.
    Failed,
}

/// What came of a write.
#[derive(Clone, Copy)]
pub enum WriteAnswer {
    /// So many bytes, at least one, went out.
    Took(usize),
    /// The write failed, and no byte of it went out. The door's count of faults rose by one.
    Failed,
}

/// Where connections come in, one at a time.
///
/// Source: own rule.
pub trait Door {
    /// Whether doors of this kind tell their content. Clauses on content hold where they do.
    ghost tells: { Type 0 };

    /// What the door tells.
    ghost state: { Self → DoorState };

    /// How often its calls failed, and whether the connection at hand is up, told or not.
    ghost counts: { Self → DoorCounts };

    /// How often a write was asked for, and how often one took less than it was offered, told or not.
    ghost writes: { Self → WriteCounts };

    /// Waits for the next connection, which is then at hand, and up. Where none comes, the last one stays at hand as it
    /// is.
    fn next(&mut self) -> NextAnswer
        ensures told { tells → Nexts result (state self.old) (state self.new) }
        ensures cause { NextCause result (counts self.old) (counts self.new) }
        ensures no_write { writes self.new ≡ writes self.old };

    /// Reads the next bytes of the connection, which is up, to the front of `into`.
    fn read(&mut self, into: &mut [u8]) -> ReadAnswer
        requires some { 1 ≤ length into.old }
        requires up { (counts self.old).up ≡ true }
        ensures amount { IsAmount result (length into.old) }
        ensures told { tells → ReadsIn into.old into.new result (state self.old) (state self.new) }
        ensures cause { ReadCause result (counts self.old) (counts self.new) }
        ensures no_write { writes self.new ≡ writes self.old };

    /// Writes the first of these bytes to the connection, which is up.
    fn write(&mut self, bytes: &[u8]) -> WriteAnswer
        requires some { 1 ≤ length bytes.now }
        requires up { (counts self.old).up ≡ true }
        ensures amount { IsTaken result (length bytes.now) }
        ensures told { tells → WritesOut bytes.now result (state self.old) (state self.new) }
        ensures cause { WriteCause result (counts self.old) (counts self.new) }
        ensures one { writes self.new ≡ asked_for (length bytes.now) result (writes self.old) };

    /// Ends the connection, which is up.
    fn hang_up(&mut self)
        requires up { (counts self.old).up ≡ true }
        ensures told { tells → HangsUp (state self.old) (state self.new) }
        ensures cause { counts self.new ≡ closed (counts self.old) }
        ensures no_write { writes self.new ≡ writes self.old };
}
