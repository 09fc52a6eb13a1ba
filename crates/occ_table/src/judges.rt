//! Whether an event is allowed after the history that the table stands for, by the row of its occurrence alone.

ghost use Rattle.lcm_events.specs.declared.attempts.Outcome.{Outcome};
ghost use Rattle.std.specs.Prelude.{IfOk};
ghost use Rattle.lcm_events.specs.declared.events.EventKind.TheVariants.{CallFailed, CancelAsked, Denied, GrantTried};
ghost use Rattle.lcm_events.specs.declared.events.EventKind.TheVariants.{Granted, Intent, Moved, Settled};
ghost use Rattle.lcm_events.specs.declared.states.CancelMode.{CancelMode};
ghost use Rattle.occ_table.specs.Table.{Judges, JudgesWithin};

use crate::table::OccTable;
use lcm_events::{GrantTry, OpState, Place, Tag};
use lcm_model::works;
use std::alloc::{AllocError, Global};
use vnfm_base::Name;

impl OccTable {
    /// Whether it may be recorded of an occurrence that a grant request didn't lead to a grant: the exchange goes on,
    /// and a location is told only where none is known.
    ///
    /// Source: SOL 003 9.4.2 (Grants).
    pub fn may_try(&self, occ: u64, answer: &GrantTry) -> bool
        ensures judged { Judges (GrantTried occ answer.now) result self.now.rows }
    {
        match self.occurrence(occ) {
            Some(row) => row.may_try(answer),
            None => false,
        }
    }

    /// Whether an occurrence may be denied: its exchange goes on.
    ///
    /// Source: SOL 003 9.4.2 (Grants).
    pub fn may_deny(&self, occ: u64) -> bool
        ensures judged { Judges (Denied occ) result self.now.rows }
    {
        match self.occurrence(occ) {
            Some(row) => row.is_asking(),
            None => false,
        }
    }

    /// Whether a grant of an occurrence may be recorded: the exchange goes on, the grant has an identifier, and each
    /// change one of its places, which stand in the order of the first change that has them.
    ///
    /// Source: SOL 003 9.5.2.3 (Grant).
    pub fn may_grant(
        &self,
        alloc: Global,
        occ: u64,
        grant: &Name,
        places: &[Place],
        spots: &[u8],
    ) -> Result<bool, AllocError>
        ensures judged { IfOk result (λ yes. Judges (Granted occ grant.now places.now spots.now) yes self.now.rows) }
    {
        match self.occurrence(occ) {
            Some(row) => row.may_take(alloc, grant, places, spots),
            None => Ok(false),
        }
    }

    /// Whether an attempt may begin, where at most so many attempts of an occurrence may be open: the occurrence is at
    /// such work, with neither trouble nor a cancel since its last move; there is room for one more attempt, and none
    /// at this change is open; the attempt has the next number; and it is the turn of its change.
    ///
    /// Source: SOL 003 5.6.2 (States and state transitions of a VNF LCM operation occurrence); phases and windows are
    /// own rules.
    pub fn may_begin(&self, width: usize, tag: &Tag) -> bool
        ensures judged { JudgesWithin width (Intent tag.now) result self.now.rows }
    {
        match self.occurrence(tag.occ) {
            Some(row) => row.may_begin(width, tag),
            None => false,
        }
    }

    /// Whether an attempt may end: it is open.
    ///
    /// Source: own rule.
    pub fn may_settle(&self, tag: &Tag) -> bool
        ensures judged { (outcome : Outcome) → Judges (Settled tag.now outcome) result self.now.rows }
    {
        match self.occurrence(tag.occ) {
            Some(row) => row.pending.has_open(tag),
            None => false,
        }
    }

    /// Whether it may be recorded that the call that was to begin an attempt failed: it is open, and no such call
    /// failed.
    ///
    /// Source: own rule.
    pub fn may_fail_call(&self, tag: &Tag) -> bool
        ensures judged { Judges (CallFailed tag.now) result self.now.rows }
    {
        match self.occurrence(tag.occ) {
            Some(row) => row.pending.is_waiting(tag),
            None => false,
        }
    }

    /// Whether an occurrence may be cancelled: it is there, and the manager works on it.
    ///
    /// Source: SOL 003 5.4.17 (Cancel operation task).
    pub fn may_cancel(&self, occ: u64) -> bool
        ensures judged { (mode : CancelMode) → Judges (CancelAsked occ mode) result self.now.rows }
    {
        match self.occurrence(occ) {
            Some(row) => works(row.state),
            None => false,
        }
    }

    /// Whether an occurrence may move to this state.
    ///
    /// Source: SOL 003 5.6.2 (States and state transitions of a VNF LCM operation occurrence).
    pub fn may_move(&self, occ: u64, to: OpState) -> bool
        ensures judged { Judges (Moved occ to) result self.now.rows }
    {
        match self.occurrence(occ) {
            Some(row) => row.may_move(to),
            None => false,
        }
    }
}
