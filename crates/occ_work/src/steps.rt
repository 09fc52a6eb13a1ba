//! The next action of an active occurrence, and what its row says of it.
ghost use Rattle.std.specs.Prelude.{◌≡◌, ◌<◌, List, Some, false, length};
ghost use Rattle.executor.specs.Managed.{Keeps};
ghost use Rattle.journal_records.specs.declared.limits.TheConstants.{MAX_FILE};
ghost use Rattle.lcm_events.specs.declared.events.Event.{Event};
ghost use Rattle.lcm_model.specs.Grants.{location};
ghost use Rattle.lcm_model.specs.Next.{next_action};
ghost use Rattle.lcm_model.specs.declared.actions.Action.TheVariants as actions;
ghost use Rattle.occ_table.specs.Rows.{occurrence};
ghost use Rattle.occ_steps.specs.Active.{IsActive};
ghost use Rattle.occ_steps.specs.Steps.{action_of};

use executor::Manager;
use lcm_laws::plans_are_small;
use occ_steps::{Step, step_by};
use occ_table::OccRow;
use site_traits::Site;
use vnfm_base::Line;

/// The row of an active occurrence.
pub fn row_of<S: Site>(manager: &Manager<S>, occ: u64) -> &OccRow
    requires usable { manager.now.ledger.closed ≡ false }
    requires active { (H : List Event) × Keeps manager.now H × IsActive H occ }
    ensures row { (H : List Event) → Keeps manager.now H → IsActive H occ → occurrence H occ ≡ Some result.now }
    ensures few { (H : List Event) → Keeps manager.now H → length H < MAX_FILE }
{
    match manager.occurrences().occurrence(occ) {
        Some(row) => row,
        None => unreachable!(),
    }
}

/// The next action of an active occurrence.
pub fn next_step<S: Site>(manager: &Manager<S>, occ: u64) -> Step
    requires usable { manager.now.ledger.closed ≡ false }
    requires active { (H : List Event) × Keeps manager.now H × IsActive H occ }
    ensures { (H : List Event) → Keeps manager.now H → IsActive H occ → next_action H occ ≡ Some (action_of result) }
{
    plans_are_small();
    step_by(row_of(manager, occ), occ)
}

/// The location that was told for the grant of an occurrence which is to be polled.
pub fn location_of<S: Site>(manager: &Manager<S>, occ: u64) -> &Line
    requires usable { manager.now.ledger.closed ≡ false }
    requires polls { (H : List Event) × Keeps manager.now H × IsActive H occ × (next_action H occ ≡ Some actions.Poll) }
    ensures { (H : List Event) → Keeps manager.now H → IsActive H occ → location H occ ≡ Some result.now }
{
    match &row_of(manager, occ).location {
        Some(location) => location,
        None => unreachable!(),
    }
}
