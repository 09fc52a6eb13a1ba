//! The place of a row in the table, with the room for its open attempts.

ghost use Rattle.std.specs.Prelude.{◌≡◌, false, IfOk, None, Some};
ghost use Rattle.occ_table.specs.Steps.{after_granted, after_told, described, first_row, is_bringing, noted, row_after};

use crate::names::PackedName;
use crate::pending::AttemptRoom;
use crate::rows::{Grant, OccRow};
use crate::used::PackedUsed;
use lcm_events::{EventKind, Operation};
use std::alloc::{AllocError, Global};
use std::marker::Model;
use vnfm_base::{Line, Moment};

/// A row, with the room for its open attempts beside it until its occurrence is over.
///
/// A contract sees the row.
#[derive(Drop)]
pub struct Slot {
    row: OccRow,
    room: AttemptRoom,
}

impl Model for Slot {
    ghost use Rattle.lcm_model.specs.Moves.{is_final};
    ghost use Rattle.std.specs.Prelude.{◌≡◌, true};
    ghost use Rattle.occ_table.specs.Steps.{HasRoomBeside};
    ghost use Rattle.occ_table.specs.declared.rows.OccRow.{OccRow};

    ghost Value = { OccRow };

    ghost view = { λ s. s.row };

    ghost invariant = { λ s. HasRoomBeside s.row s.room × (is_final s.row.state ≡ true → s.room ≡ 0) };
}

impl Slot {
    /// The row of an operation that is asked for at this moment, which names no descriptor yet, with room for its open
    /// attempts.
    pub fn first(alloc: Global, moment: Moment, operation: &Operation) -> Result<Slot, AllocError>
        ensures { IfOk result (λ s. s ≡ first_row moment operation.now) }
    {
        let row = OccRow::first(alloc, moment, operation)?;
        let room = AttemptRoom::new(alloc)?;
        Ok(Slot { row, room })
    }

    /// The row.
    pub fn row(&self) -> &OccRow
        ensures { result.now ≡ self.now }
    {
        &self.row
    }

    /// The instance of the row has this descriptor.
    pub fn describe(&mut self, vnfd: PackedName)
        ensures { self.new ≡ described vnfd self.old }
    {
        self.row.describe(vnfd);
    }

    /// The occurrence of the row was granted.
    pub fn take_grant(&mut self, grant: Grant)
        ensures { self.new ≡ after_granted grant self.old }
    {
        self.row.take_grant(grant);
    }

    /// The occurrence of the row was told where its grant will be.
    pub fn take_location(&mut self, location: Line)
        ensures { self.new ≡ after_told location self.old }
    {
        self.row.take_location(location);
    }

    /// A change of the row has used this last.
    pub fn note(&mut self, change: u16, used: PackedUsed)
        ensures { self.new ≡ noted change (Some used) self.old }
    {
        self.row.note(change, used);
    }

    /// An event of this moment about the occurrence of the row came, for which nothing is laid aside.
    pub fn follow(&mut self, moment: Moment, kind: &EventKind)
        requires { is_bringing kind.now ≡ false }
        ensures { self.new ≡ row_after moment None kind.now self.old }
    {
        self.row.follow(moment, kind, &mut self.room);
    }
}
