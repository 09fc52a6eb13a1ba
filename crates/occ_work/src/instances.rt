//! The instance of an active occurrence, and its descriptor, by the tables.
ghost use Rattle.std.specs.Prelude.{◌≡◌, ℕ, List, Some, false};
ghost use Rattle.executor.specs.Managed.{Keeps};
ghost use Rattle.instance_table.specs.Rows.{instance};
ghost use Rattle.lcm_events.specs.declared.events.Event.{Event};
ghost use Rattle.lcm_model.specs.Lives.{descriptor_named};
ghost use Rattle.occ_table.specs.Rows.{occurrence};
ghost use Rattle.occ_steps.specs.Active.{IsActive};

use executor::Manager;
use instance_table::{InstanceRow, rows_have_holdings};
use lcm_events::Vnfd;
use occ_table::OccRow;
use site_traits::Site;

/// The row of the instance of an active occurrence, which is live.
pub fn instance_of<'a, S: Site>(manager: &'a Manager<S>, row: &OccRow) -> &'a InstanceRow
    requires usable { manager.now.ledger.closed ≡ false }
    requires active { (H : List Event) × (occ : ℕ) × Keeps manager.now H × IsActive H occ
        × (occurrence H occ ≡ Some row.now) }
    ensures { (H : List Event) → Keeps manager.now H → (occ : ℕ) → IsActive H occ → occurrence H occ ≡ Some row.now
        → instance H row.now.instance ≡ Some result.now }
{
    match manager.instances().instance(row.instance) {
        Some(instance) => instance,
        None => unreachable!(),
    }
}

/// The descriptor of a live instance.
pub fn vnfd_of<'a, S: Site>(manager: &'a Manager<S>, row: &InstanceRow) -> &'a Vnfd
    requires lives { (H : List Event) × (number : ℕ) × Keeps manager.now H × (instance H number ≡ Some row.now) }
    ensures { (H : List Event) → Keeps manager.now H → descriptor_named H row.now.vnfd ≡ Some result.now }
{
    rows_have_holdings();
    match manager.vnfd(&row.vnfd) {
        Some(vnfd) => vnfd,
        None => unreachable!(),
    }
}
