//! Rounds: in each the door is asked for a connection, which is served; then the clock is read, a turn is made, and
//! then the deliveries.
ghost use Rattle.std.specs.Prelude.{◌≡◌, ◌≢◌, ℕ, List, Some, length, option_map};
ghost use Rattle.executor.specs.Managed.{IsReady};
ghost use Rattle.lcm_mouth.specs.World as session;
ghost use Rattle.lcm_events.specs.declared.events.Event.{Event};
ghost use Rattle.notify_outbox.specs.Dispatches.{Dispatch};
ghost use Rattle.notify_outbox.specs.Lent as posting;
ghost use Rattle.notify_outbox.specs.Rounds.{DeliversAll, RoundEnd};
ghost use Rattle.occ_work.specs.Around as acting;
ghost use Rattle.occ_work.specs.Around.{DiskFails};
ghost use Rattle.occ_work.specs.Deeds.{Deed, point};
ghost use Rattle.occ_work.specs.Turns.{TurnEnd, Turns};
ghost use Rattle.site_traits.specs.Counts.{OnlyDiskFails};
ghost use Rattle.vnfm_commands.specs.Course.{IsCount, Service, close_ending, halt_of, halting, role_for};
ghost use Rattle.vnfm_commands.specs.Outside.{outside, telling};
ghost use Rattle.vnfm_commands.specs.Rounds.{IsMet, IsOne, IsPosted, IsTurned, Makes, MakesOne, Meets, Met, MetFor};
ghost use Rattle.vnfm_commands.specs.Rounds.{One, OneFor};

use crate::ending::{Ending, Failure, Report};
use executor::{Manager, WorkFault, what_was_told_of_stays, works_add_up, works_with_jobs_add_up};
use lcm_events::Role;
use lcm_mouth::Mouth;
use lcm_sessions::{Closed, answer_session};
use notify_outbox::deliver_all;
use occ_work::turn;
use site_traits::{Clock, Courier, Door, NextAnswer, Orchestrator, Site};
use std::alloc::Global;
use vnfm_base::Moment;

/// The role for which connections are served.
#[derive(Clone, Copy)]
pub enum ServedRole {
    /// This one, whatever the door says of a connection.
    Stated(Role),
    /// The one that the door says of each connection.
    ByDoor,
}

impl ServedRole {
    /// The role for which a connection is served, by the one that the door says of it.
    fn for_connection(self, came: Role) -> Role
        ensures { result ≡ role_for self came }
    {
        match self {
            ServedRole::Stated(role) => role,
            ServedRole::ByDoor => came,
        }
    }
}

/// Makes as many rounds as are wanted, whose connections are served for this role, and says how the run ends.
///
/// A round is: the door is asked for a connection once; one that came is served; then the clock is read, and a turn is
/// made: one act for each occurrence whose grant is asked for or whose changes are made; then, at the same moment, one
/// delivery is made for each live subscription: its first notice that waits is posted, once. The first round in which
/// waiting for a connection fails, or the disk, or in which a turn or a delivery finds the journal full or no memory,
/// or a delivery a record that isn't its event any more, is the last, and the acts and deliveries before that stand.
/// Source: SOL 003 clauses 5 and 9; rounds are an own rule, docs/FORMATS.md.
pub fn make_rounds<S: Site, D: Door, O: Orchestrator, C: Courier, K: Clock>(
    alloc: Global,
    wanted: u32,
    role: ServedRole,
    manager: &mut Manager<S>,
    site: &mut S,
    mouth: &mut Mouth<D>,
    orchestrator: &mut O,
    courier: &mut C,
    clock: &mut K,
) -> Ending
    requires ready { (H : List Event) × IsReady S.tells manager.old H (S.state site.old) }
    ensures makes { (H : List Event) → IsReady S.tells manager.old H (S.state site.old) → (service : Service)
        × Makes (telling S.tells D.tells O.tells C.tells K.tells) manager.old.ledger.manager
        manager.old.ledger.saved H service manager.new
        (outside (S.state site.old) (S.counts site.old) mouth.old (O.state orchestrator.old) (O.counts orchestrator.old)
        (C.state courier.old) (C.counts courier.old) (K.state clock.old))
        (outside (S.state site.new) (S.counts site.new) mouth.new (O.state orchestrator.new) (O.counts orchestrator.new)
        (C.state courier.new) (C.counts courier.new) (K.state clock.new))
        × (service.role ≡ role) × IsCount wanted (length service.rounds) service.close
        × (result ≡ close_ending (length service.rounds) service.close) }
    ensures disk { DiskFails (result ≡ Err Failure.SiteFault) (S.counts site.old) (S.counts site.new) }
{
    works_add_up::<S>();
    works_with_jobs_add_up::<S>();
    what_was_told_of_stays::<S>();
    let mut made = 0;
    'rounds: while made < wanted {
        match make_round(
            alloc,
            manager,
            site,
            mouth,
            orchestrator,
            courier,
            clock,
            role,
        ) {
            Ok(()) => made += 1,
            Err(why) => return Err(why),
        }
    }
    Ok(Report::Done(made))
}

/// Asks for one connection, serves it, and makes the turn of the round and its deliveries, both at the moment that the
/// clock gives behind the connection.
fn make_round<S: Site, D: Door, O: Orchestrator, C: Courier, K: Clock>(
    alloc: Global,
    manager: &mut Manager<S>,
    site: &mut S,
    mouth: &mut Mouth<D>,
    orchestrator: &mut O,
    courier: &mut C,
    clock: &mut K,
    role: ServedRole,
) -> Result<(), Failure>
    requires ready { (H : List Event) × IsReady S.tells manager.old H (S.state site.old) }
    ensures makes { (H : List Event) → IsReady S.tells manager.old H (S.state site.old) → (one : One)
        × MakesOne (telling S.tells D.tells O.tells C.tells K.tells) manager.old.ledger.manager
        manager.old.ledger.saved H one manager.new
        (outside (S.state site.old) (S.counts site.old) mouth.old (O.state orchestrator.old) (O.counts orchestrator.old)
        (C.state courier.old) (C.counts courier.old) (K.state clock.old))
        (outside (S.state site.new) (S.counts site.new) mouth.new (O.state orchestrator.new) (O.counts orchestrator.new)
        (C.state courier.new) (C.counts courier.new) (K.state clock.new))
        × OneFor role one × IsOne result one }
    ensures disk { DiskFails (result ≡ Err Failure.SiteFault) (S.counts site.old) (S.counts site.new) }
{
    works_add_up::<S>();
    works_with_jobs_add_up::<S>();
    what_was_told_of_stays::<S>();
    meet(alloc, manager, site, mouth, clock, role)?;
    let now = Moment::of(clock.now());
    take_turn(alloc, manager, site, orchestrator, now)?;
    post_notices(alloc, manager, site, courier, now)
}

/// Asks the door for one connection, and serves one that came.
fn meet<S: Site, D: Door, K: Clock>(
    alloc: Global,
    manager: &mut Manager<S>,
    site: &mut S,
    mouth: &mut Mouth<D>,
    clock: &mut K,
    role: ServedRole,
) -> Result<(), Failure>
    requires ready { (H : List Event) × IsReady S.tells manager.old H (S.state site.old) }
    ensures meets { (H : List Event) → IsReady S.tells manager.old H (S.state site.old) → (met : Met)
        × Meets (session.telling S.tells D.tells K.tells) manager.old.ledger.manager
        manager.old.ledger.saved H met manager.new
        (session.world (S.state site.old) mouth.old (K.state clock.old))
        (session.world (S.state site.new) mouth.new (K.state clock.new))
        × MetFor role met × IsMet result met }
    ensures disk { OnlyDiskFails (result ≡ Err Failure.SiteFault) (S.counts site.old) (S.counts site.new) }
    ensures untouched { result ≡ Err Failure.DoorFault → site.new ≡ site.old }
{
    works_add_up::<S>();
    match mouth.next() {
        NextAnswer::Came(came) => {
            let role = role.for_connection(came);
            match answer_session(alloc, manager, site, mouth, clock, role) {
                Ok(_) => Ok(()),
                Err(Closed) => Err(Failure::SiteFault),
            }
        }
        NextAnswer::Nobody => Ok(()),
        NextAnswer::Ended => Ok(()),
        NextAnswer::Failed => Err(Failure::DoorFault),
    }
}

/// Makes the turn of a round.
fn take_turn<S: Site, O: Orchestrator>(
    alloc: Global,
    manager: &mut Manager<S>,
    site: &mut S,
    orchestrator: &mut O,
    now: Moment,
) -> Result<(), Failure>
    requires ready { (H : List Event) × IsReady S.tells manager.old H (S.state site.old) }
    ensures turns { (H : List Event) → IsReady S.tells manager.old H (S.state site.old)
        → (acts : List Deed) × (end : TurnEnd)
        × Turns (acting.telling S.tells O.tells) (point manager.old.ledger.manager manager.old.ledger.saved now H)
        acts end manager.new
        (acting.reach (S.state site.old) (S.counts site.old) (O.state orchestrator.old) (O.counts orchestrator.old))
        (acting.reach (S.state site.new) (S.counts site.new) (O.state orchestrator.new) (O.counts orchestrator.new))
        × IsTurned result end }
    ensures disk { DiskFails (result ≡ Err Failure.SiteFault) (S.counts site.old) (S.counts site.new) }
{
    match turn(alloc, manager, site, orchestrator, now) {
        Ok(_) => Ok(()),
        Err(fault) => Err(failure_of(fault)),
    }
}

/// The failure of a run whose turn ended in this fault.
fn failure_of(fault: WorkFault) -> Failure
    requires short { (n : ℕ) → fault ≢ WorkFault.TooLong n }
    ensures { option_map halting (halt_of fault) ≡ Some result }
{
    match fault {
        WorkFault::Full { end, more } => Failure::JournalFull { end, more },
        WorkFault::Memory => Failure::NoMemory,
        WorkFault::Disk => Failure::SiteFault,
        WorkFault::TooLong(_) => unreachable!(),
    }
}

/// Makes the deliveries of a round.
fn post_notices<S: Site, C: Courier>(
    alloc: Global,
    manager: &mut Manager<S>,
    site: &mut S,
    courier: &mut C,
    now: Moment,
) -> Result<(), Failure>
    requires ready { (H : List Event) × IsReady S.tells manager.old H (S.state site.old) }
    ensures posts { (H : List Event) → IsReady S.tells manager.old H (S.state site.old)
        → (dispatches : List Dispatch) × (end : RoundEnd)
        × DeliversAll (posting.telling S.tells C.tells) (posting.point manager.old.ledger.manager
        manager.old.ledger.saved now H) dispatches end manager.new
        (posting.lent (S.state site.old) (S.counts site.old) (C.state courier.old) (C.counts courier.old))
        (posting.lent (S.state site.new) (S.counts site.new) (C.state courier.new) (C.counts courier.new))
        × IsPosted result end }
    ensures disk { OnlyDiskFails (result ≡ Err Failure.SiteFault) (S.counts site.old) (S.counts site.new) }
{
    match deliver_all(alloc, manager, site, courier, now) {
        Ok(_) => Ok(()),
        Err(fault) => Err(Failure::from(fault)),
    }
}
