//! What the orchestrator's answer appends, and moves: one event, which is recorded.
ghost use Rattle.std.specs.Prelude.{◌≡◌, ◌≢◌, ◌∷◌, ℕ, [], Bool, List, IfOk, IfSome, Err, Some, false, true};
ghost use Rattle.executor.specs.Managed.{IsReady, MayRecord};
ghost use Rattle.grant_desk.specs.declared.answers.GrantAnswer.TheVariants as says;
ghost use Rattle.lcm_events.specs.declared.events.Event.{Event};
ghost use Rattle.lcm_events.specs.declared.events.EventKind.TheVariants as events;
ghost use Rattle.lcm_model.specs.Grants.{covers};
ghost use Rattle.lcm_model.specs.Next.{GrantLater, next_action};
ghost use Rattle.lcm_model.specs.Operations.{changes as changes_of};
ghost use Rattle.lcm_model.specs.declared.actions.Action.TheVariants as actions;
ghost use Rattle.site_traits.specs.Counts.{OnlyDiskFails};
ghost use Rattle.site_traits.specs.Site.{KeepsJobs};
ghost use Rattle.occ_work.specs.Acting.{Records};
ghost use Rattle.occ_work.specs.Deeds.{answer_heard, answer_with, ending, point};
ghost use Rattle.occ_steps.specs.Active.{IsActive};
ghost use Rattle.occ_work.specs.Exchanges.{exchanging, is_of_act, kinds_for, listed};

use crate::attempts::event_of;
use crate::ends::Acted;
use crate::steps::row_of;
use executor::{Manager, WorkFault, works_add_up, works_with_jobs_add_up};
use grant_desk::{GrantAnswer, GrantRows, covers, places_of, read_answer};
use journal_core::MAX_FILE;
use lcm_events::{Change, Event, EventKind, GrantTry, OpState};
use lcm_laws::{covering_rows_place_changes, next_actions_are_allowed, plans_are_small};
use site_traits::{Call, Heard, Site};
use std::alloc::{AllocError, Global};
use vnfm_base::{Line, Moment};

/// A try that led to no grant.
fn tried(occ: u64, answer: GrantTry) -> EventKind
    ensures { result ≡ events.GrantTried occ answer }
{
    EventKind::GrantTried { occ, answer }
}

/// What a grant appends for an occurrence with these changes: it is recorded with their places where it covers them.
fn granted(
    alloc: Global,
    occ: u64,
    changes: &[Change],
    rows: &GrantRows,
) -> Result<EventKind, AllocError>
    ensures kinds { (asking : Bool) → IfOk result (λ kind.
        kinds_for asking occ (answer_with changes.now (says.Granted rows.now)) ≡ kind ∷ []) }
    ensures acts { IfOk result (λ kind. is_of_act kind ≡ true) }
{
    if !covers(changes, rows) {
        return Ok(tried(occ, GrantTry::NotCovering));
    }
    let placing = places_of(alloc, changes, rows)?;
    Ok(EventKind::Granted {
        occ,
        grant: rows.grant,
        places: placing.places,
        spots: placing.spots,
    })
}

/// What an answer appends that the grant comes later: its location where it was asked for, and nothing where that was
/// polled.
fn later(asking: bool, occ: u64, at: Option<Line>) -> Option<EventKind>
    ensures kinds { kinds_for asking occ (GrantLater at) ≡ listed result }
    ensures acts { IfSome result (λ kind. is_of_act kind ≡ true) }
{
    if !asking {
        return None;
    }
    match at {
        Some(location) => Some(tried(occ, GrantTry::Later(location))),
        None => Some(tried(occ, GrantTry::Trouble)),
    }
}

/// What an answer to an ask, or else to a poll, appends for an occurrence with these changes.
fn kind_of(
    alloc: Global,
    occ: u64,
    changes: &[Change],
    asking: bool,
    call: Call,
    heard: &Heard,
) -> Result<Option<EventKind>, AllocError>
    ensures kinds { IfOk result (λ kind. kinds_for asking occ (answer_heard asking changes.now call heard.now)
        ≡ listed kind) }
    ensures acts { IfOk result (λ kind. IfSome kind (λ k. is_of_act k ≡ true)) }
{
    if call == Call::Failed {
        return Ok(Some(tried(occ, GrantTry::Trouble)));
    }
    match read_answer(alloc, asking, heard)? {
        GrantAnswer::Granted(rows) => Ok(Some(granted(alloc, occ, changes, &rows)?)),
        GrantAnswer::Later(at) => Ok(later(asking, occ, at)),
        GrantAnswer::Denied => Ok(Some(EventKind::Denied { occ })),
        GrantAnswer::Trouble => Ok(Some(tried(occ, GrantTry::Trouble))),
    }
}

/// Records the event of an act, in a journal that may fill its file.
fn record<S: Site>(
    alloc: Global,
    manager: &mut Manager<S>,
    site: &mut S,
    event: &Event,
) -> Result<Acted, WorkFault>
    requires may { (H : List Event) × IsReady S.tells manager.old H (S.state site.old)
        × MayRecord manager.old.ledger.manager H event.now }
    requires kind { is_of_act event.now.kind ≡ true }
    ensures records { (H : List Event) → IsReady S.tells manager.old H (S.state site.old)
        → MayRecord manager.old.ledger.manager H event.now
        → Records S.tells (point manager.old.ledger.manager manager.old.ledger.saved event.now.moment H)
        (event.now.kind ∷ []) result manager.new (S.state site.old) (S.state site.new) }
    ensures ended { IfOk result (λ done. done ≡ Acted.Recorded) }
    ensures jobs { S.tells → KeepsJobs (S.state site.old) (S.state site.new) }
    ensures short { (n : ℕ) → result ≢ Err (WorkFault.TooLong n) }
    ensures disk { OnlyDiskFails (result ≡ Err WorkFault.Disk) (S.counts site.old) (S.counts site.new) }
{
    works_with_jobs_add_up::<S>();
    plans_are_small();
    match manager.commit(alloc, site, event, MAX_FILE) {
        Ok(()) => Ok(Acted::Recorded),
        Err(fault) => Err(fault),
    }
}

/// Records what an answer appends: one that was heard to an ask, or else to a poll, or none where the call failed.
///
/// Refusals: `Memory`, after which nothing was recorded; `Full` and `Disk` as of recording an event.
pub fn take<S: Site>(
    alloc: Global,
    manager: &mut Manager<S>,
    site: &mut S,
    occ: u64,
    asking: bool,
    call: Call,
    heard: &Heard,
    now: Moment,
) -> Result<Acted, WorkFault>
    requires ready { (H : List Event) × IsReady S.tells manager.old H (S.state site.old) × IsActive H occ
        × (next_action H occ ≡ Some (exchanging asking)) }
    ensures records { (H : List Event) → IsReady S.tells manager.old H (S.state site.old) → IsActive H occ
        → next_action H occ ≡ Some (exchanging asking)
        → Records S.tells (point manager.old.ledger.manager manager.old.ledger.saved now H)
        (kinds_for asking occ (answer_heard asking (changes_of H occ) call heard.now)) result manager.new
        (S.state site.old) (S.state site.new) }
    ensures ended { (H : List Event) → IsReady S.tells manager.old H (S.state site.old) → IsActive H occ
        → IfOk result (λ done. done ≡ ending (exchanging asking)
        (answer_heard asking (changes_of H occ) call heard.now)) }
    ensures jobs { S.tells → KeepsJobs (S.state site.old) (S.state site.new) }
    ensures short { (n : ℕ) → result ≢ Err (WorkFault.TooLong n) }
    ensures disk { OnlyDiskFails (result ≡ Err WorkFault.Disk) (S.counts site.old) (S.counts site.new) }
{
    works_add_up::<S>();
    works_with_jobs_add_up::<S>();
    next_actions_are_allowed();
    covering_rows_place_changes();
    let changes = row_of(manager, occ).changes.as_slice();
    let appended = kind_of(alloc, occ, changes, asking, call, heard)?;
    match appended {
        Some(kind) => {
            let event = event_of(now, kind);
            record(alloc, manager, site, &event)
        }
        None => Ok(Acted::Waiting),
    }
}

/// Moves an occurrence on.
///
/// Refusals: `Memory`, after which nothing was recorded; `Full` and `Disk` as of recording an event.
pub fn move_to<S: Site>(
    alloc: Global,
    manager: &mut Manager<S>,
    site: &mut S,
    occ: u64,
    to: OpState,
    now: Moment,
) -> Result<Acted, WorkFault>
    requires ready { (H : List Event) × IsReady S.tells manager.old H (S.state site.old) × IsActive H occ
        × (next_action H occ ≡ Some (actions.MoveTo to)) }
    ensures records { (H : List Event) → IsReady S.tells manager.old H (S.state site.old) → IsActive H occ
        → next_action H occ ≡ Some (actions.MoveTo to)
        → Records S.tells (point manager.old.ledger.manager manager.old.ledger.saved now H)
        (events.Moved occ to ∷ []) result manager.new (S.state site.old) (S.state site.new) }
    ensures ended { IfOk result (λ done. done ≡ Acted.Recorded) }
    ensures jobs { S.tells → KeepsJobs (S.state site.old) (S.state site.new) }
    ensures short { (n : ℕ) → result ≢ Err (WorkFault.TooLong n) }
    ensures disk { OnlyDiskFails (result ≡ Err WorkFault.Disk) (S.counts site.old) (S.counts site.new) }
{
    next_actions_are_allowed();
    let event = event_of(now, EventKind::Moved { occ, to });
    record(alloc, manager, site, &event)
}
