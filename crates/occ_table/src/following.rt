//! What each event makes of the row of an occurrence.

ghost use Rattle.occ_table.specs.Phases.{phase_at, shifted, tally_after};
ghost use Rattle.lcm_model.specs.Moves.{is_final};
ghost use Rattle.lcm_model.specs.Work.{net_after};
ghost use Rattle.std.specs.Prelude.{◌≡◌, None, Some, false, map, true, ◌==◌, option_map, slice_set};
ghost use Rattle.lcm_model.specs.Words.{otherwise};
ghost use Rattle.occ_table.specs.declared.causes.Cause.TheVariants as causes;
ghost use Rattle.occ_table.specs.Ended.{stripped};
ghost use Rattle.occ_table.specs.Resources.{deed_by, place_by};
ghost use Rattle.occ_table.specs.Steps.{HasRoomBeside, after_answer, after_cancel, after_move, forgotten};
ghost use Rattle.occ_table.specs.Steps.{after_settled, after_told, after_trouble, cause_among, described, failed_by};
ghost use Rattle.occ_table.specs.Steps.{is_trouble_among, row_after, after_begun, nets_after, noted, after_granted};
ghost use Rattle.occ_table.specs.Steps.{is_bringing, is_later};

use crate::causes::Cause;
use crate::names::PackedName;
use crate::pending::AttemptRoom;
use crate::phases::shift;
use crate::resources::DoneAttempt;
use crate::rows::{Grant, OccRow};
use crate::used::PackedUsed;
use lcm_events::{CancelMode, EventKind, GrantTry, OpState, Outcome, Place, Tag, Way};
use lcm_model::{Effect, ends, place_in, verb_in_way};
use vnfm_base::{Line, Moment, Name};

/// Tries in trouble after which the grant exchange is given up.
const TRIES: u8 = 5;

/// Keeps the identifier of a grant alone, where there is one.
fn strip_grant(grant: &mut Option<Grant>)
    ensures { grant.new ≡ option_map (stripped true) grant.old }
{
    match grant {
        Some(given) => given.strip(),
        None => {}
    }
}

/// The net that a change has once it is made, or once it is undone.
fn net_when_through(way: Way) -> u8
    ensures { result ≡ net_after way }
{
    match way {
        Way::Forward => 1,
        Way::Undo => 0,
    }
}

impl OccRow {
    /// A try of the exchange was in trouble.
    fn record_trouble(&mut self)
        ensures { self.new ≡ after_trouble self.old }
    {
        if self.tries == TRIES - 1 {
            self.cause = Some(Cause::NoGrant);
        }
        let tries = self.tries.saturating_add(1);
        self.tries = tries;
        self.ended = self.ended || tries >= TRIES;
    }

    /// The exchange has had its last answer, which is this cause.
    fn end_exchange(&mut self, cause: Cause)
        ensures { self.new ≡ record self.old { ended = true; cause = Some cause } }
    {
        self.ended = true;
        self.cause = Some(cause);
    }

    /// A grant request didn't lead to a grant, and told no location.
    fn record_answer(&mut self, answer: &GrantTry)
        requires { is_later answer.now ≡ false }
        ensures { self.new ≡ after_answer answer.now self.old }
    {
        match answer {
            GrantTry::Later(_) => {}
            GrantTry::Trouble => self.record_trouble(),
            GrantTry::NotCovering => self.end_exchange(Cause::NotCovering),
        }
    }

    /// A cancel was asked for.
    fn record_cancel(&mut self, mode: CancelMode)
        ensures { self.new ≡ record self.old {
          cancel = after_cancel mode self.old.cancel;
          cause =
              Some causes.Cancelled;
        } }
    {
        self.cause = Some(Cause::Cancelled);
        self.cancel = match (mode, self.cancel) {
            (CancelMode::Graceful, Some(CancelMode::Forceful)) => Some(CancelMode::Forceful),
            _ => Some(mode),
        };
    }

    /// Forgets attempts, places and the location of the grant, where the occurrence is over.
    fn forget(&mut self, over: bool)
        ensures { self.new ≡ forgotten over self.old }
    {
        if over {
            self.attempts.clear();
            self.location = None;
            strip_grant(&mut self.grant);
        }
    }

    /// The occurrence moved to a state at this moment. In a final one its row forgets what no view shows, and nothing
    /// happens from then on.
    ///
    /// Source: SOL 003 5.6.2 (States and state transitions of a VNF LCM operation occurrence).
    pub fn move_to(&mut self, moment: Moment, to: OpState)
        ensures { self.new ≡ after_move moment to self.old }
    {
        if ends(self.state) {
            return;
        }
        self.state = to;
        self.entered = moment;
        self.cancel = None;
        self.trouble = false;
        self.forget(ends(to));
    }

    /// Whether it is trouble that an open attempt ends so.
    fn is_trouble(&self, tag: &Tag, outcome: &Outcome) -> bool
        ensures { result ≡ is_trouble_among tag.now outcome.now self.now.pending }
    {
        match outcome {
            Outcome::Done(_) => false,
            Outcome::Broken(_) => true,
            Outcome::Aborted => true,
            Outcome::NotBegun => self.pending.has_failed(tag),
        }
    }

    /// The cause that it is that an open attempt ends so.
    fn cause_of(&self, tag: &Tag, outcome: &Outcome) -> Option<Cause>
        ensures { result ≡ cause_among tag.now outcome.now self.now.pending }
    {
        let change = tag.change;
        match outcome {
            Outcome::Done(_) => None,
            Outcome::Broken(code) => Some(Cause::Broken {
                change,
                code: *code,
            }),
            Outcome::Aborted => Some(Cause::Aborted { change }),
            Outcome::NotBegun => {
                if self.pending.has_failed(tag) {
                    Some(Cause::CallFailed { change })
                } else {
                    None
                }
            }
        }
    }

    /// Work stopped for this cause, where there is one.
    fn give_cause(&mut self, cause: Option<Cause>)
        ensures { self.new ≡ record self.old { cause = otherwise cause self.old.cause } }
    {
        if cause.is_some() {
            self.cause = cause;
        }
    }

    /// The phase of the change of this number.
    fn phase_at(&self, change: u16) -> Option<u8>
        ensures { result ≡ phase_at change self.now.changes }
    {
        let change = self.changes.as_slice().get(change as usize)?;
        Some(change.phase)
    }

    /// A change has this net from now on, which is not the one that it had.
    fn set_net(&mut self, change: u16, net: u8)
        ensures { self.new ≡ record self.old {
          nets = slice_set self.old.nets change net;
          waiting =
              shifted (net == 0) (phase_at change self.old.changes) self.old.waiting;
          made =
              shifted (net == 1) (phase_at change self.old.changes) self.old.made;
        } }
    {
        let phase = self.phase_at(change);
        shift(&mut self.waiting, net == 0, phase);
        shift(&mut self.made, net == 1, phase);
        self.nets.set(change as usize, net);
    }

    /// A change was made or undone, where the attempt did its work.
    fn record_outcome(&mut self, tag: &Tag, outcome: &Outcome)
        ensures { self.new ≡ record self.old {
          nets = nets_after tag.now outcome.now self.old.nets;
          waiting =
              tally_after 0 tag.now outcome.now self.old.changes self.old.waiting;
          made =
              tally_after 1 tag.now outcome.now self.old.changes self.old.made;
        } }
    {
        if let Outcome::Done(_) = outcome {
            self.set_net(tag.change, net_when_through(tag.way));
        }
    }

    /// An attempt ended.
    fn settle(&mut self, tag: &Tag, outcome: &Outcome, room: &mut AttemptRoom)
        ensures row { self.new ≡ after_settled tag.now outcome.now self.old }
        ensures room { HasRoomBeside self.old room.old → HasRoomBeside self.new room.new }
    {
        let trouble = self.is_trouble(tag, outcome);
        let cause = self.cause_of(tag, outcome);
        self.trouble = trouble || self.trouble;
        self.give_cause(cause);
        self.pending.end(tag, room);
        self.record_outcome(tag, outcome);
    }

    /// An attempt begins. Nothing happens where the occurrence is over.
    fn begin(&mut self, tag: Tag, room: &mut AttemptRoom)
        requires { HasRoomBeside self.old room.old }
        ensures row { self.new ≡ after_begun tag self.old }
        ensures room { HasRoomBeside self.new room.new }
    {
        if ends(self.state) {
            return;
        }
        self.pending.begin(tag, room);
        self.attempts.set(tag.change as usize, tag.attempt);
    }

    /// The call that was to begin an attempt has failed.
    fn fail_call(&mut self, tag: &Tag)
        ensures { self.new ≡ record self.old { pending = map (failed_by tag.now) self.old.pending } }
    {
        self.pending.fail(tag);
    }

    /// Its instance has this descriptor.
    pub fn describe(&mut self, vnfd: PackedName)
        ensures { self.new ≡ described vnfd self.old }
    {
        self.vnfd = vnfd;
    }

    /// The occurrence was granted.
    pub fn take_grant(&mut self, grant: Grant)
        ensures { self.new ≡ after_granted grant self.old }
    {
        self.ended = true;
        self.grant = Some(grant);
    }

    /// The occurrence was told where its grant will be.
    pub fn take_location(&mut self, location: Line)
        ensures { self.new ≡ after_told location self.old }
    {
        self.location = Some(location);
    }

    /// An event of this moment about the occurrence came, for which nothing is laid aside but the room for its open
    /// attempts.
    pub(crate) fn follow(&mut self, moment: Moment, kind: &EventKind, room: &mut AttemptRoom)
        requires nothing_brought { is_bringing kind.now ≡ false }
        requires room { HasRoomBeside self.old room.old }
        ensures row { self.new ≡ row_after moment None kind.now self.old }
        ensures room { HasRoomBeside self.new room.new }
        ensures given_back { is_final self.new.state ≡ true → room.new ≡ 0 }
    {
        match kind {
            EventKind::GrantTried { answer, .. } => self.record_answer(answer),
            EventKind::Denied { .. } => self.end_exchange(Cause::Denied),
            EventKind::Intent(tag) => self.begin(*tag, room),
            EventKind::CallFailed(tag) => self.fail_call(tag),
            EventKind::Settled { tag, outcome } => self.settle(tag, outcome, room),
            EventKind::Moved { to, .. } => self.move_to(moment, *to),
            EventKind::CancelAsked { mode, .. } => self.record_cancel(*mode),
            _ => {}
        }
        if ends(self.state) {
            room.give_back();
        }
    }

    /// The place that the grant gave to the change of this number.
    fn place_of(&self, change: u16) -> Option<Place>
        ensures { result ≡ place_by change self.now }
    {
        match &self.grant {
            Some(grant) => place_in(grant.places.as_slice(), grant.spots.as_slice(), change),
            None => None,
        }
    }

    /// What an attempt did that was done with this name, and the place that was granted to its change.
    pub fn deed(&self, tag: &Tag, resource: Name) -> Option<DoneAttempt>
        ensures { result ≡ deed_by tag.now resource self.now }
    {
        let change = self.changes.as_slice().get(tag.change as usize)?;
        let effect = Effect {
            tag: *tag,
            instance: self.instance,
            def: change.def,
            verb: verb_in_way(tag.way, change.verb),
            resource,
        };
        Some(DoneAttempt {
            effect,
            place: self.place_of(tag.change),
        })
    }

    /// Its change of this number has used this last.
    pub fn note(&mut self, change: u16, used: PackedUsed)
        ensures { self.new ≡ noted change (Some used) self.old }
    {
        self.used.set(change as usize, used);
    }
}
