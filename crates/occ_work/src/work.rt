//! The work of the attempt that is to begin, over what the tables say.
ghost use Rattle.std.specs.Prelude.{◌≡◌, List, IfOk, Some, false, option_copied, option_map, slice_get};
ghost use Rattle.change_planner.specs.Tags.{act_of};
ghost use Rattle.executor.specs.Managed.{Keeps};
ghost use Rattle.lcm_events.specs.declared.events.Event.{Event};
ghost use Rattle.lcm_model.specs.Next.{next_action};
ghost use Rattle.lcm_model.specs.declared.actions.Action.TheVariants as actions;
ghost use Rattle.occ_table.specs.Needed.{needed};
ghost use Rattle.occ_table.specs.Resources.{place_by};
ghost use Rattle.occ_steps.specs.Active.{IsActive};

use crate::instances::{instance_of, vnfd_of};
use crate::steps::row_of;
use change_planner::forward_act;
use executor::Manager;
use held_items::{items_follow_what_is_done, other_events_leave_places};
use instance_table::rows_have_holdings;
use lcm_events::{Act, Change, Def, Place, Tag, Way};
use lcm_laws::{
    attempts_stand_behind_grants, granted_changes_have_places, next_actions_are_allowed,
    what_stands_has_a_place, work_fits_what_stands,
};
use lcm_model::place_in;
use occ_table::{OccRow, work_is_on_what_is_needed};
use rollback_plan::undo_act;
use site_traits::Site;
use std::alloc::{AllocError, Global};

/// The change of this number of a row.
fn change_at(row: &OccRow, number: u16) -> Option<&Change>
    ensures { option_copied result ≡ slice_get row.now.changes number }
{
    row.changes.as_slice().get(number as usize)
}

/// The place that the grant of a row gave to a change.
fn place_granted(row: &OccRow, change: u16) -> Option<Place>
    ensures { result ≡ place_by change row.now }
{
    match &row.grant {
        Some(grant) => place_in(grant.places.as_slice(), grant.spots.as_slice(), change),
        None => None,
    }
}

/// The place where a definition of an instance stands, or stood before the operation removed it that goes on.
fn place_known<S: Site>(manager: &Manager<S>, instance: u64, def: &Def) -> Option<Place>
    requires usable { manager.now.ledger.closed ≡ false }
    ensures { (H : List Event) → Keeps manager.now H → result ≡ option_map (λ u. u.place) (needed H instance def.now) }
{
    let used = manager.occurrences().resource(instance, def)?;
    Some(used.place)
}

/// The work of the attempt that an occurrence begins next: at the place that was granted to what it makes, and for an
/// undo where its definition stands or last stood. `AllocError` is want of memory.
///
/// Source: SOL 003 9.5.2.3 (Grant), 5.4.15 (Rollback operation task); own rule.
pub fn work_of<S: Site>(alloc: Global, manager: &Manager<S>, tag: &Tag) -> Result<Act, AllocError>
    requires usable { manager.now.ledger.closed ≡ false }
    requires begins { (H : List Event) × Keeps manager.now H × IsActive H tag.now.occ
        × (next_action H tag.now.occ ≡ Some (actions.Begin tag.now)) }
    ensures { (H : List Event) → Keeps manager.now H → IsActive H tag.now.occ
        → next_action H tag.now.occ ≡ Some (actions.Begin tag.now)
        → IfOk result (λ work. act_of H tag.now ≡ Some work) }
{
    rows_have_holdings();
    next_actions_are_allowed();
    attempts_stand_behind_grants();
    granted_changes_have_places();
    work_fits_what_stands();
    work_is_on_what_is_needed();
    what_stands_has_a_place();
    items_follow_what_is_done();
    other_events_leave_places();
    let row = row_of(manager, tag.occ);
    let instance = instance_of(manager, row);
    let vnfd = vnfd_of(manager, instance);
    let Some(change) = change_at(row, tag.change) else {
        unreachable!()
    };
    match tag.way {
        Way::Forward => {
            let Some(place) = place_granted(row, tag.change) else {
                unreachable!()
            };
            forward_act(alloc, vnfd, &instance.holding, change, &place)
        }
        Way::Undo => {
            let Some(place) = place_known(manager, row.instance, &change.def) else {
                unreachable!()
            };
            undo_act(alloc, vnfd, &instance.holding, change, &place)
        }
    }
}
