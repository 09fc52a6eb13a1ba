//! A turn: one act for each occurrence that is active when it begins, in the order of their numbers.
ghost use Rattle.std.specs.Prelude.{◌≡◌, ◌≢◌, ◌<◌, ℕ, List, Err, IfSome, length, false};
ghost use Rattle.executor.specs.Managed.{IsReady, Keeps};
ghost use Rattle.journal_records.specs.declared.limits.TheConstants.{MAX_FILE};
ghost use Rattle.occ_table.specs.Going.{next_active};
ghost use Rattle.lcm_events.specs.declared.events.Event.{Event};
ghost use Rattle.occ_work.specs.Around.{DiskFails, reach, telling};
ghost use Rattle.occ_work.specs.Deeds.{Deed, point};
ghost use Rattle.occ_work.specs.Turns.{EndsTurn, TurnEnd, Turns, endings};

use crate::acts::act;
use crate::ends::Turn;
use executor::{Manager, WorkFault, works_add_up, works_with_jobs_add_up};
use site_traits::{Orchestrator, Site};
use std::alloc::Global;
use vnfm_base::Moment;

/// Acts once for each occurrence that is in STARTING, PROCESSING or ROLLING_BACK when the turn begins, in the order of
/// their numbers.
///
/// State: needs a manager that isn't closed and whose file has its history.
/// Refusals: those of `act`. The first ends the turn, and the acts before it stand. After `Disk` the manager is closed:
/// load the journal again. Source: own rule over SOL 003 5.6.2 (States and state transitions of a VNF LCM operation
/// occurrence).
pub fn turn<S: Site, O: Orchestrator>(
    alloc: Global,
    manager: &mut Manager<S>,
    site: &mut S,
    orchestrator: &mut O,
    now: Moment,
) -> Result<Turn, WorkFault>
    requires ready { (H : List Event) × IsReady S.tells manager.old H (S.state site.old) }
    ensures turns { (H : List Event) → IsReady S.tells manager.old H (S.state site.old)
        → (deeds : List Deed) × (end : TurnEnd)
        × Turns (telling S.tells O.tells) (point manager.old.ledger.manager manager.old.ledger.saved now H) deeds end
        manager.new
        (reach (S.state site.old) (S.counts site.old) (O.state orchestrator.old) (O.counts orchestrator.old))
        (reach (S.state site.new) (S.counts site.new) (O.state orchestrator.new) (O.counts orchestrator.new))
        × EndsTurn result (endings now H deeds) end }
    ensures short { (n : ℕ) → result ≢ Err (WorkFault.TooLong n) }
    ensures disk { DiskFails (result ≡ Err WorkFault.Disk) (S.counts site.old) (S.counts site.new) }
{
    works_add_up::<S>();
    works_with_jobs_add_up::<S>();
    let mut turn = Turn {
        acted: 0,
        waiting: 0,
        unreached: 0,
    };
    let mut last = 0;
    'acts: while let Some(occ) = next_active(manager, last) {
        match act(alloc, manager, occ, site, orchestrator, now) {
            Ok(done) => {
                turn.count(done);
                last = occ;
            }
            Err(fault) => return Err(fault),
        }
    }
    Ok(turn)
}

/// The least number above this one of an active occurrence.
fn next_active<S: Site>(manager: &Manager<S>, last: u64) -> Option<u64>
    requires usable { manager.now.ledger.closed ≡ false }
    requires kept { (H : List Event) × Keeps manager.now H }
    ensures next { (H : List Event) → Keeps manager.now H → result ≡ next_active H last }
    ensures above { IfSome result (λ n. last < n) }
    ensures few { (H : List Event) → Keeps manager.now H → length H < MAX_FILE }
{
    manager.occurrences().next_active(last)
}
