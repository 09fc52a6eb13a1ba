//! The row of an occurrence: what it has, how it begins, and a copy of it.

ghost use Rattle.std.specs.Prelude.{◌≡◌, IfOk, None, OnOk, [], length, replicate, true};
ghost use Rattle.occ_table.specs.Ended.{stripped};
ghost use Rattle.occ_table.specs.Steps.{first_row};

use crate::asks::{PackedAsk, copied_line};
use crate::causes::Cause;
use crate::cells::Cells;
use crate::names::PackedName;
use crate::pending::Pendings;
use crate::phases::{PHASES, count_phases};
use crate::used::Uses;
use lcm_events::{CancelMode, Change, Changes, Listed, OpState, Operation, Place, Role};
use std::alloc::{AllocError, Global};
use vnfm_base::{Line, Moment, Name};

/// What a grant gave to an occurrence.
///
/// Source: SOL 003 9.5.2.3 (Grant).
#[derive(Drop)]
pub struct Grant {
    /// Its identifier.
    pub name: PackedName,
    /// The distinct places, in the order of the first change that has them; none once the occurrence is over.
    pub places: Cells<Place>,
    /// The number of the place of each change; none once the occurrence is over.
    pub spots: Cells<u8>,
}

impl Grant {
    /// The grant with this identifier, these places and these numbers of places, which are copied.
    pub fn copied(
        alloc: Global,
        name: Name,
        places: &[Place],
        spots: &[u8],
    ) -> Result<Grant, AllocError>
        ensures { IfOk result (λ g. g ≡ record { name = name; places = places.now; spots = spots.now }) }
    {
        let name = PackedName::of(alloc, &name)?;
        let places = places.to_vec(alloc)?;
        let spots = spots.to_vec(alloc)?;
        Ok(Grant {
            name,
            places: Cells::of(places),
            spots: Cells::of(spots),
        })
    }

    /// Keeps the identifier alone.
    pub(crate) fn strip(&mut self)
        ensures { self.new ≡ stripped true self.old }
    {
        self.places.clear();
        self.spots.clear();
    }
}

/// A copy of what a grant gave, where there is one.
fn copied_grant(alloc: Global, grant: &Option<Grant>) -> Result<Option<Grant>, AllocError>
    ensures { IfOk result (λ g. g ≡ grant.now) }
{
    match grant {
        Some(given) => {
            let copy = Grant::copied(
                alloc,
                given.name.name(),
                given.places.as_slice(),
                given.spots.as_slice(),
            )?;
            Ok(Some(copy))
        }
        None => Ok(None),
    }
}

/// What the history says of an occurrence.
///
/// Source: SOL 003 5.5.2.13 (VnfLcmOpOcc).
pub struct OccRow {
    /// The number of its instance.
    pub instance: u64,
    /// The identifier of the instance's descriptor.
    pub vnfd: PackedName,
    /// Who asked.
    pub role: Role,
    /// What was asked for.
    pub ask: PackedAsk,
    /// The changes in the order of the plan.
    pub changes: Changes,
    /// The net of each change: 1 where it is made, 0 where it isn't or was undone.
    pub nets: Cells<u8>,
    /// How many changes of each phase have net 0.
    pub waiting: [u16; PHASES],
    /// How many changes of each phase have net 1.
    pub made: [u16; PHASES],
    /// How many attempts there were at each change; none is listed once the occurrence is over.
    pub attempts: Cells<u32>,
    /// What each change used last: the resource that its last attempt that was done and no undo made, removed or
    /// powered, with its place.
    pub used: Uses,
    /// The state that it is in.
    pub state: OpState,
    /// When it was asked for.
    pub asked: Moment,
    /// When it came into its state.
    pub entered: Moment,
    /// Where its grant will be, where that was told; none once the occurrence is over.
    pub location: Option<Line>,
    /// How many tries of its grant exchange were in trouble.
    pub tries: u8,
    /// Whether its grant exchange has ended.
    pub ended: bool,
    /// The mode of the cancel in force.
    pub cancel: Option<CancelMode>,
    /// Whether there is trouble since the last move.
    pub trouble: bool,
    /// Why its work stopped: the last cause that an event gave.
    pub cause: Option<Cause>,
    /// The open attempts in the order in which they began.
    pub pending: Pendings,
    /// What was granted.
    pub grant: Option<Grant>,
}

impl Drop for OccRow {
    // Written out, so that the proof of a caller calls it and doesn't take the row apart at each of its ends.
    fn drop(self) {
        let OccRow {
            instance: _,
            vnfd: _,
            role: _,
            ask: _,
            changes: _,
            nets: _,
            waiting: _,
            made: _,
            attempts: _,
            used: _,
            state: _,
            asked: _,
            entered: _,
            location: _,
            tries: _,
            ended: _,
            cancel: _,
            trouble: _,
            cause: _,
            pending: _,
            grant: _,
        } = self;
    }
}

impl OccRow {
    /// The row of an operation that is asked for at this moment, which names no descriptor yet.
    pub fn first(alloc: Global, moment: Moment, operation: &Operation) -> Result<OccRow, AllocError>
        ensures { IfOk result (λ r. r ≡ first_row moment operation.now) }
    {
        let changes = operation.changes.as_slice();
        let ask = PackedAsk::of(alloc, &operation.ask)?;
        let used = Uses::none(alloc, changes.len())?;
        let mut row = OccRow::asked(alloc, moment, operation, ask, used);
        row.put_changes(alloc, changes)?;
        Ok(row)
    }

    /// That row with this ask and these uses, and without its changes.
    fn asked(
        alloc: Global,
        moment: Moment,
        operation: &Operation,
        ask: PackedAsk,
        used: Uses,
    ) -> OccRow
        ensures { result ≡ record (first_row moment operation.now) {
          ask = ask;
          used = used;
          changes = [];
          nets = [];
          attempts = [];
        } }
    {
        OccRow {
            instance: operation.instance,
            vnfd: PackedName::none(alloc),
            role: operation.role,
            ask,
            changes: Listed::new(alloc),
            nets: Cells::of(Vec::new(alloc)),
            waiting: count_phases(operation.changes.as_slice()),
            made: [0; PHASES],
            attempts: Cells::of(Vec::new(alloc)),
            used,
            state: OpState::Starting,
            asked: moment,
            entered: moment,
            location: None,
            tries: 0,
            ended: false,
            cancel: None,
            trouble: false,
            cause: None,
            pending: Pendings::none(alloc),
            grant: None,
        }
    }

    /// Puts the changes of the plan, none of which is made or was attempted.
    fn put_changes(&mut self, alloc: Global, changes: &[Change]) -> Result<(), AllocError>
        ensures { OnOk result (self.new ≡ record self.old {
          changes = changes.now;
          nets =
              replicate (length changes.now) 0;
          attempts = replicate (length changes.now) 0;
        }) }
    {
        self.changes = Listed::of(changes.to_vec(alloc)?);
        self.nets = Cells::of(vec![in alloc; 0u8; changes.len()]?);
        self.attempts = Cells::of(vec![in alloc; 0u32; changes.len()]?);
        Ok(())
    }

    /// An equal row, for a view that is made before its event is appended.
    ///
    /// Source: own rule.
    pub fn copy(&self, alloc: Global) -> Result<OccRow, AllocError>
        ensures { IfOk result (λ r. r ≡ self.now) }
    {
        let ask = self.ask.copy(alloc)?;
        let used = self.used.copy(alloc)?;
        let mut row = self.bare(alloc, ask, used);
        row.copy_plan(alloc, self)?;
        row.copy_work(alloc, self)?;
        Ok(row)
    }

    /// An equal row but for this ask and these uses, and without what takes memory besides.
    fn bare(&self, alloc: Global, ask: PackedAsk, used: Uses) -> OccRow
        ensures { result ≡ record self.now {
          vnfd = [];
          ask = ask;
          changes = [];
          nets = [];
          attempts = [];
          used = used;
          location = None;
          pending = [];
          grant = None;
        } }
    {
        OccRow {
            instance: self.instance,
            vnfd: PackedName::none(alloc),
            role: self.role,
            ask,
            changes: Listed::new(alloc),
            nets: Cells::of(Vec::new(alloc)),
            waiting: self.waiting,
            made: self.made,
            attempts: Cells::of(Vec::new(alloc)),
            used,
            state: self.state,
            asked: self.asked,
            entered: self.entered,
            location: None,
            tries: self.tries,
            ended: self.ended,
            cancel: self.cancel,
            trouble: self.trouble,
            cause: self.cause,
            pending: Pendings::none(alloc),
            grant: None,
        }
    }

    /// Puts the descriptor, the changes and what each has come to, as another row has them.
    fn copy_plan(&mut self, alloc: Global, from: &OccRow) -> Result<(), AllocError>
        ensures { OnOk result (self.new ≡ record self.old {
          vnfd = from.now.vnfd;
          changes = from.now.changes;
          nets =
              from.now.nets;
          attempts = from.now.attempts;
        }) }
    {
        self.vnfd = from.vnfd.copy(alloc)?;
        self.changes = Listed::of(from.changes.as_slice().to_vec(alloc)?);
        self.nets = Cells::of(from.nets.as_slice().to_vec(alloc)?);
        self.attempts = Cells::of(from.attempts.as_slice().to_vec(alloc)?);
        Ok(())
    }

    /// Puts the location, the open attempts and the grant, as another row has them.
    fn copy_work(&mut self, alloc: Global, from: &OccRow) -> Result<(), AllocError>
        ensures { OnOk result (self.new ≡ record self.old {
          location = from.now.location;
          pending = from.now.pending;
          grant = from.now.grant;
        }) }
    {
        self.location = copied_line(&from.location)?;
        self.pending = from.pending.copy(alloc)?;
        self.grant = copied_grant(alloc, &from.grant)?;
        Ok(())
    }
}
