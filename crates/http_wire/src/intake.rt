//! Holds the bytes that were read from a door and not yet passed.
ghost use Rattle.std.specs.Prelude.{◌≡◌, ◌≤◌, ◌<◌, length, drop, [], IfOk, true, vec_len, ◌+◌};
ghost use Rattle.std.specs.Vec.{vec_capacity};
ghost use Rattle.std.specs.Borrow.{Lends, sem};
ghost use Rattle.http_wire.specs.contracts.intake.Intake.{the_row};
ghost use Rattle.http_wire.specs.Intake.{with_door, state_of, NeedsMore, TakesIn, CameIs};

use site_traits::{Door, ReadAnswer};
use std::alloc::{AllocError, Global};
use std::marker::Model;

/// Bytes of the largest read: that of a socket's buffer, and of a request of the usual size.
const PIECE_BYTES: usize = 65_536;

/// A door, and the bytes of its connection that were read and not yet passed.
///
/// A contract sees what the door tells, its counts, and these bytes.
pub struct Intake<D: Door> {
    door: D,
    bytes: Vec<u8>,
    // The first bytes of `bytes` that were passed.
    passed: usize,
    piece: Vec<u8>,
}

impl<D: Door + Drop> Drop for Intake<D> {
    // Written out, so that the proof of a caller calls it and doesn't take the value apart at each of its ends.
    fn drop(self) {
        let Intake {
            door: _,
            bytes: _,
            passed: _,
            piece: _,
        } = self;
    }
}

impl<D: Door> Model for Intake<D> {
    ghost use Rattle.std.specs.Prelude.{◌≤◌, length, drop};
    ghost use Rattle.http_wire.specs.Intake.{IntakeState};

    ghost Value = { IntakeState };

    ghost view = { λ i. record {
      door = D.state i.door;
      counts = D.counts i.door;
      writes = D.writes i.door;
      held =
          drop i.passed i.bytes.items;
    } };

    ghost invariant = { λ i. (i.passed ≤ length i.bytes.items) × (1 ≤ length i.piece.items) };
}

/// What came of one read.
#[derive(Clone, Copy, PartialEq, Eq)]
pub enum Came {
    /// Bytes.
    Bytes,
    /// No byte is left.
    End,
    /// The read failed.
    Failed,
}

impl<D: Door> Intake<D> {
    /// An intake that holds nothing yet.
    pub fn new(alloc: Global, door: D) -> Result<Intake<D>, AllocError>
    where
        D: Drop,
        ensures { IfOk result (λ i. (i.door ≡ D.state door) × (i.counts ≡ D.counts door) × (i.writes ≡ D.writes door)
            × (i.held ≡ [])) }
    {
        let mut piece = Vec::with_capacity(alloc, PIECE_BYTES)?;
        piece.resize(PIECE_BYTES, 0)?;
        Ok(Intake {
            door,
            bytes: Vec::new(alloc),
            passed: 0,
            piece,
        })
    }

    /// The door.
    pub fn door(&self) -> &D
        ensures state { D.state result.now ≡ self.now.door }
        ensures counts { D.counts result.now ≡ self.now.counts }
        ensures writes { D.writes result.now ≡ self.now.writes }
    {
        &self.door
    }

    /// The door, to do something else with it than read.
    pub fn door_mut(&mut self) -> &mut D
        ensures* writes_back { sem 𝓛 (Lends (the_row D.row D.Door) D.row self.entry result
            (with_door D.state D.counts D.writes self.old)) }
        ensures state { D.state result.now ≡ self.old.door }
        ensures counts { D.counts result.now ≡ self.old.counts }
        ensures writes { D.writes result.now ≡ self.old.writes }
    {
        &mut self.door
    }

    /// The bytes that were read and not yet passed.
    pub fn held(&self) -> &[u8]
        ensures { result.now ≡ self.now.held }
    {
        &self.bytes[self.passed..]
    }

    /// Passes the first `n` of the bytes that are held.
    pub fn pass(&mut self, n: usize)
        requires { n ≤ length self.old.held }
        ensures held { self.new.held ≡ drop n self.old.held }
        ensures door { self.new.door ≡ self.old.door }
        ensures counts { self.new.counts ≡ self.old.counts }
        ensures writes { self.new.writes ≡ self.old.writes }
    {
        self.passed += n;
    }

    /// Lets go of the bytes that are held.
    pub fn clear(&mut self)
        ensures held { self.new.held ≡ [] }
        ensures door { self.new.door ≡ self.old.door }
        ensures counts { self.new.counts ≡ self.old.counts }
        ensures writes { self.new.writes ≡ self.old.writes }
    {
        self.bytes.clear();
        self.passed = 0;
    }

    /// Reads once, where more bytes are needed to say what those that are held begin with. Nothing else reads from the
    /// door. After `AllocError` nothing was read.
    pub fn read_on(&mut self) -> Result<Came, AllocError>
        requires needs { NeedsMore self.old.held }
        requires up { self.old.counts.up ≡ true }
        ensures takes { TakesIn D.tells self.old self.new }
        ensures came { CameIs D.tells result self.old self.new }
    {
        drop_front(&mut self.bytes, self.passed);
        self.passed = 0;
        self.bytes.reserve(self.piece.len())?;
        Ok(read_into(&mut self.door, &mut self.piece, &mut self.bytes))
    }
}

/// Drops the first `n` bytes.
fn drop_front(bytes: &mut Vec<u8>, n: usize)
    requires { n ≤ vec_len bytes.old }
    ensures { bytes.new.items ≡ drop n bytes.old.items }
{
    bytes.rotate_left(n);
    bytes.truncate(bytes.len() - n);
}

/// Reads once, to the end of the bytes, which have room for the piece.
fn read_into<D: Door>(door: &mut D, piece: &mut [u8], bytes: &mut Vec<u8>) -> Came
    requires piece { 1 ≤ length piece.old }
    requires room { vec_len bytes.old + length piece.old ≤ vec_capacity bytes.old }
    requires up { (D.counts door.old).up ≡ true }
    ensures takes { TakesIn D.tells (state_of (D.state door.old) (D.counts door.old)
        (D.writes door.old) bytes.old.items)
        (state_of (D.state door.new) (D.counts door.new) (D.writes door.new) bytes.new.items) }
    ensures came { CameIs D.tells (Ok result) (state_of (D.state door.old) (D.counts door.old)
        (D.writes door.old) bytes.old.items)
        (state_of (D.state door.new) (D.counts door.new) (D.writes door.new) bytes.new.items) }
{
    match door.read(piece) {
        ReadAnswer::Got(n) => {
            let came = &piece[..n];
            bytes.extend_from_slice(came).unwrap();
            Came::Bytes
        }
        ReadAnswer::End => Came::End,
        ReadAnswer::Failed => Came::Failed,
    }
}
