//! The grant request of an occurrence, over what the tables say.
ghost use Rattle.std.specs.Prelude.{◌≡◌, List, IfOk, Some, false};
ghost use Rattle.executor.specs.Managed.{Keeps};
ghost use Rattle.lcm_events.specs.declared.events.Event.{Event};
ghost use Rattle.occ_steps.specs.Active.{IsActive};
ghost use Rattle.occ_work.specs.Requests.{grant_request};

use crate::instances::{instance_of, vnfd_of};
use crate::steps::row_of;
use executor::Manager;
use grant_desk::{GrantAsker, grant_body};
use held_items::items_are_in_order;
use instance_table::rows_have_holdings;
use site_traits::Site;
use std::alloc::{AllocError, Global};
use vnfm_base::Bytes;

/// The body of the grant request of an active occurrence.
///
/// Source: SOL 003 9.4.2 (Grants).
pub fn request<S: Site>(alloc: Global, manager: &Manager<S>, occ: u64) -> Result<Bytes, AllocError>
    requires usable { manager.now.ledger.closed ≡ false }
    requires active { (H : List Event) × Keeps manager.now H × IsActive H occ }
    ensures { (H : List Event) → Keeps manager.now H → IsActive H occ
        → IfOk result (λ body. grant_request manager.now.ledger.manager H occ ≡ Some body) }
{
    items_are_in_order();
    rows_have_holdings();
    let row = row_of(manager, occ);
    let instance = instance_of(manager, row);
    let vnfd = vnfd_of(manager, instance);
    let ask = row.ask.unpack(alloc)?;
    let who = GrantAsker {
        manager: manager.number(),
        instance: row.instance,
        occ,
    };
    grant_body(
        alloc,
        vnfd,
        &instance.holding,
        &who,
        &ask,
        row.changes.as_slice(),
    )
}
