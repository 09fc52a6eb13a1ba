//! What may follow for an occurrence, by its row.

ghost use Rattle.std.specs.Option.{option_map_or};
ghost use Rattle.occ_table.specs.Phases.{is_clear};
ghost use Rattle.lcm_model.specs.Work.{net_before, works_in};
ghost use Rattle.std.specs.Prelude.{◌≡◌, ◌&&◌, ◌↔◌, IfOk, IsTrue, false, ◌==◌, slice_get};
ghost use Rattle.occ_table.specs.Steps.{gives_up_row, has_stopped_row, is_asking_row, is_new_try_row, MayTake};
ghost use Rattle.occ_table.specs.Steps.{MayBeginRow, counts_for, is_next, is_turn, is_quiet_row, may_move_from};

use crate::phases::{are_clear, are_none};
use crate::rows::OccRow;
use lcm_events::{CancelMode, GrantTry, OpState, Place, Tag, Way};
use lcm_model::is_placing;
use std::alloc::{AllocError, Global};
use vnfm_base::Name;

/// The net that a change has before it is made, or before it is undone.
fn net_to_begin(way: Way) -> u8
    ensures { result ≡ net_before way }
{
    match way {
        Way::Forward => 0,
        Way::Undo => 1,
    }
}

/// The state in which attempts in this way are made.
fn state_of_work(way: Way) -> OpState
    ensures { result ≡ works_in way }
{
    match way {
        Way::Forward => OpState::Processing,
        Way::Undo => OpState::RollingBack,
    }
}

impl OccRow {
    /// Whether its work is at rest: no open attempt, no trouble, no cancel.
    fn is_quiet(&self) -> bool
        ensures { result ≡ is_quiet_row self.now }
    {
        self.pending.is_empty() && !self.trouble && self.cancel.is_none()
    }

    /// Whether its work has stopped: no open attempt, and trouble or a cancel.
    fn has_stopped(&self) -> bool
        ensures { result ≡ has_stopped_row self.now }
    {
        self.pending.is_empty() && (self.trouble || self.cancel.is_some())
    }

    /// Whether its grant exchange gives it up.
    fn gives_up(&self) -> bool
        ensures { result ≡ gives_up_row self.now }
    {
        let granted = self.grant.is_some();
        let forced = matches!(self.cancel, Some(CancelMode::Forceful));
        forced || (self.ended && !granted) || (granted && self.cancel.is_some())
    }

    /// Whether the number of an attempt at a change is the next.
    fn is_next(&self, tag: &Tag) -> bool
        ensures { result ≡ is_next tag.now.attempt (slice_get self.now.attempts tag.now.change) }
    {
        match self.attempts.as_slice().get(tag.change as usize) {
            Some(attempts) => tag.attempt > 0 && tag.attempt - 1 == *attempts,
            None => false,
        }
    }

    /// Whether the change of this number has this net.
    fn has_net(&self, change: u16, net: u8) -> bool
        ensures { result ≡ option_map_or (λ n. n == net) (slice_get self.now.nets change) false }
    {
        match self.nets.as_slice().get(change as usize) {
            Some(other) => *other == net,
            None => false,
        }
    }

    /// Whether no change is left in a phase that goes before this one.
    fn is_clear(&self, way: Way, phase: u8) -> bool
        ensures { result ≡ is_clear way phase (counts_for way self.now) }
    {
        match way {
            Way::Forward => are_clear(self.waiting.as_slice(), way, phase),
            Way::Undo => are_clear(self.made.as_slice(), way, phase),
        }
    }

    /// Whether it is the turn of a change.
    fn is_turn(&self, tag: &Tag) -> bool
        ensures { result ≡ is_turn tag.now self.now (slice_get self.now.changes tag.now.change) }
    {
        match self.changes.as_slice().get(tag.change as usize) {
            Some(change) => {
                let clear = self.is_clear(tag.way, change.phase);
                self.has_net(tag.change, net_to_begin(tag.way)) && clear
            }
            None => false,
        }
    }

    /// Whether an attempt may begin, where at most so many may be open.
    pub fn may_begin(&self, width: usize, tag: &Tag) -> bool
        ensures { IsTrue result ↔ MayBeginRow width tag.now self.now }
    {
        let works = self.state == state_of_work(tag.way);
        let cancelled = self.cancel.is_some();
        let room = self.pending.len() < width;
        let open = self.pending.has_open_at(tag.change);
        let next = self.is_next(tag);
        let turn = self.is_turn(tag);
        works && !self.trouble && !cancelled && room && !open && next && turn
    }

    /// Whether its grant exchange goes on.
    pub fn is_asking(&self) -> bool
        ensures { result ≡ is_asking_row self.now }
    {
        let forced = matches!(self.cancel, Some(CancelMode::Forceful));
        self.state == OpState::Starting && !self.ended && !forced
    }

    /// Whether a try of the exchange may be recorded that led to no grant.
    pub fn may_try(&self, answer: &GrantTry) -> bool
        ensures { result ≡ (is_asking_row self.now && is_new_try_row answer.now self.now) }
    {
        let new = self.is_new_try(answer);
        self.is_asking() && new
    }

    /// Whether this grant may be recorded.
    pub fn may_take(
        &self,
        alloc: Global,
        grant: &Name,
        places: &[Place],
        spots: &[u8],
    ) -> Result<bool, AllocError>
        ensures { IfOk result (λ yes. IsTrue yes ↔ MayTake self.now grant.now places.now spots.now) }
    {
        let asking = self.is_asking();
        let named = grant.len() > 0;
        let placed = is_placing(alloc, places, spots, self.changes.len())?;
        Ok(asking && named && placed)
    }

    /// Whether a try of the exchange tells a location only where none is known.
    fn is_new_try(&self, answer: &GrantTry) -> bool
        ensures { result ≡ is_new_try_row answer.now self.now }
    {
        match answer {
            GrantTry::Later(_) => self.location.is_none(),
            GrantTry::Trouble | GrantTry::NotCovering => true,
        }
    }

    /// Whether it may move to this state.
    pub fn may_move(&self, to: OpState) -> bool
        ensures { result ≡ may_move_from self.now.state to self.now }
    {
        match (self.state, to) {
            (OpState::Starting, OpState::Processing) => {
                self.grant.is_some() && self.cancel.is_none()
            }
            (OpState::Starting, OpState::RolledBack) => self.gives_up(),
            (OpState::Processing, OpState::Completed) => {
                self.is_quiet() && are_none(self.waiting.as_slice())
            }
            (OpState::RollingBack, OpState::RolledBack) => {
                self.is_quiet() && are_none(self.made.as_slice())
            }
            (OpState::Processing, OpState::FailedTemp) => self.has_stopped(),
            (OpState::RollingBack, OpState::FailedTemp) => self.has_stopped(),
            (OpState::FailedTemp, OpState::RollingBack) => { !self.ask.is_terminate() }
            (OpState::FailedTemp, OpState::Processing) => true,
            (OpState::FailedTemp, OpState::Failed) => true,
            _ => false,
        }
    }
}
