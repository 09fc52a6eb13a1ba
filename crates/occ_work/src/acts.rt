//! The next action of an occurrence: an event, or a call of the orchestrator or the infrastructure and the events that
//! its answer appends. A grant is asked for before anything is moved on, and is on the disk before the move.
ghost use Rattle.std.specs.Prelude.{◌≡◌, ◌≢◌, ℕ, IfOk, List, Err, OnErr, Some, false};
ghost use Rattle.executor.specs.Managed.{IsReady, Keeps};
ghost use Rattle.lcm_events.specs.declared.events.Event.{Event};
ghost use Rattle.lcm_model.specs.Next.{next_action};
ghost use Rattle.occ_work.specs.Acting.{Acts};
ghost use Rattle.occ_work.specs.Around.{Calls, DiskFails, peer, reach, telling};
ghost use Rattle.occ_work.specs.Deeds.{Deed, IsExchangeOf, point};
ghost use Rattle.occ_work.specs.Exchanges.{exchange_of, exchanging};
ghost use Rattle.occ_steps.specs.Active.{IsActive};

use crate::attempts::{begin, look};
use crate::ends::Acted;
use crate::requests::request;
use crate::steps::{location_of, next_step};
use crate::taking::{move_to, take};
use executor::{Manager, WorkFault, works_add_up, works_with_jobs_add_up};
use occ_steps::Step;
use site_traits::{Call, Heard, Orchestrator, Site};
use std::alloc::{AllocError, Global};
use vnfm_base::Moment;

/// Does the next action of an occurrence, and no other call: the occurrence is moved on, its grant is asked for, the
/// location is polled that was told for it, an attempt at a change is begun, which makes or undoes it, or the job of
/// the open attempt that began first is looked at, after a FORCEFUL cancel once those of all open attempts were
/// aborted.
///
/// State: needs STARTING, PROCESSING or ROLLING_BACK, and a manager that isn't closed and whose file has its history.
/// Refusals: `Memory`; `Full {end, more}` (bytes), exactly where the spelling of the event that is recorded next and
/// the file's end say so;
/// `Disk`; never `TooLong`. After `Memory` nothing was recorded, and the infrastructure wasn't called, but the grant
/// may have been asked for or polled, and is again by the next act. After `Full` an intent that was recorded stands,
/// and so does the call behind it; an answer that was heard and not recorded is lost. After `Disk` the manager is
/// closed: load the journal again. At each moment a stop leaves a history that begins with that at the start, and where
/// the jobs were sound with it, sound ones. Source: SOL 003 5.6.2 (States and state transitions of a VNF LCM operation
/// occurrence), 5.4.17 (Cancel operation task), 9.4.2 (Grants), 9.4.3 (Individual grant); the order of actions is an
/// own rule.
pub fn act<S: Site, O: Orchestrator>(
    alloc: Global,
    manager: &mut Manager<S>,
    occ: u64,
    site: &mut S,
    orchestrator: &mut O,
    now: Moment,
) -> Result<Acted, WorkFault>
    requires ready { (H : List Event) × IsReady S.tells manager.old H (S.state site.old) × IsActive H occ }
    ensures acts { (H : List Event) → IsReady S.tells manager.old H (S.state site.old) → IsActive H occ
        → (d : Deed) × (d.occ ≡ occ) × Acts (telling S.tells O.tells)
        (point manager.old.ledger.manager manager.old.ledger.saved now H) d result manager.new
        (reach (S.state site.old) (S.counts site.old) (O.state orchestrator.old) (O.counts orchestrator.old))
        (reach (S.state site.new) (S.counts site.new) (O.state orchestrator.new) (O.counts orchestrator.new)) }
    ensures short { (n : ℕ) → result ≢ Err (WorkFault.TooLong n) }
    ensures disk { DiskFails (result ≡ Err WorkFault.Disk) (S.counts site.old) (S.counts site.new) }
{
    match next_step(manager, occ) {
        Step::Move(to) => move_to(alloc, manager, site, occ, to, now),
        Step::Poll => exchange(alloc, manager, occ, site, orchestrator, false, now),
        Step::Ask => exchange(alloc, manager, occ, site, orchestrator, true, now),
        Step::Begin(tag) => begin(alloc, manager, site, &tag, now),
        Step::Look(tag) => look(alloc, manager, site, occ, &tag, false, now),
        Step::AbortAndLook(tag) => look(alloc, manager, site, occ, &tag, true, now),
    }
}

/// Asks the orchestrator for the grant, or else polls the location that was told for it. The memory for the request and
/// for the answer is taken before.
fn exchange<S: Site, O: Orchestrator>(
    alloc: Global,
    manager: &mut Manager<S>,
    occ: u64,
    site: &mut S,
    orchestrator: &mut O,
    asking: bool,
    now: Moment,
) -> Result<Acted, WorkFault>
    requires ready { (H : List Event) × IsReady S.tells manager.old H (S.state site.old) × IsActive H occ
        × (next_action H occ ≡ Some (exchanging asking)) }
    ensures acts { (H : List Event) → IsReady S.tells manager.old H (S.state site.old) → IsActive H occ
        → next_action H occ ≡ Some (exchanging asking)
        → (d : Deed) × (d.occ ≡ occ) × Acts (telling S.tells O.tells)
        (point manager.old.ledger.manager manager.old.ledger.saved now H) d result manager.new
        (reach (S.state site.old) (S.counts site.old) (O.state orchestrator.old) (O.counts orchestrator.old))
        (reach (S.state site.new) (S.counts site.new) (O.state orchestrator.new) (O.counts orchestrator.new)) }
    ensures short { (n : ℕ) → result ≢ Err (WorkFault.TooLong n) }
    ensures disk { DiskFails (result ≡ Err WorkFault.Disk) (S.counts site.old) (S.counts site.new) }
{
    works_add_up::<S>();
    works_with_jobs_add_up::<S>();
    let mut heard = Heard::new(alloc)?;
    let ended = call(alloc, manager, occ, orchestrator, asking, &mut heard)?;
    take(alloc, manager, site, occ, asking, ended, &heard, now)
}

/// The call of the orchestrator, by which the grant is asked for, or else its location polled. Where there is no memory
/// for the request, no call is made.
fn call<S: Site, O: Orchestrator>(
    alloc: Global,
    manager: &Manager<S>,
    occ: u64,
    orchestrator: &mut O,
    asking: bool,
    heard: &mut Heard,
) -> Result<Call, AllocError>
    requires usable { manager.now.ledger.closed ≡ false }
    requires calls { (H : List Event) × Keeps manager.now H × IsActive H occ
        × (next_action H occ ≡ Some (exchanging asking)) }
    ensures called { (H : List Event) → Keeps manager.now H → IsActive H occ
        → next_action H occ ≡ Some (exchanging asking)
        → IfOk result (λ ended. (words : List ℕ)
        × IsExchangeOf manager.now.ledger.manager H occ (exchanging asking) (exchange_of asking words ended heard.new)
        × Calls O.tells (exchange_of asking words ended heard.new)
        (peer (O.state orchestrator.old) (O.counts orchestrator.old))
        (peer (O.state orchestrator.new) (O.counts orchestrator.new))) }
    ensures none { OnErr result (orchestrator.new ≡ orchestrator.old) }
{
    if asking {
        let body = request(alloc, manager, occ)?;
        Ok(orchestrator.ask(body.as_slice(), heard))
    } else {
        Ok(orchestrator.poll(location_of(manager, occ), heard))
    }
}
