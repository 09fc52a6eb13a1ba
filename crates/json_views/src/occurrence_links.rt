//! The links of an operation occurrence, by its state.
ghost use Rattle.std.specs.Prelude.{◌≡◌, IfOk, OnOk, option_map};
ghost use Rattle.serde_json.specs.View.{members_view, view};
ghost use Rattle.lcm_model.specs.Refusals.{is_terminate};
ghost use Rattle.json_views.specs.Occurrence.{active_links, ended_links, occurrence_links, rollback_where};
ghost use Rattle.json_views.specs.Occurrence.{stopped_links};

use crate::links::{put_link, put_task, task_link};
use crate::members::put_where;
use lcm_events::{Ask, OpState};
use serde_json::{Map, Value};
use std::alloc::{AllocError, Global};

/// The links of the occurrence at this path, whose instance is at that one.
///
/// Source: SOL 003 5.5.2.13 (VnfLcmOpOcc, _links).
pub fn links_by_state(
    alloc: Global,
    state: OpState,
    ask: &Ask,
    path: &str,
    instance: &str,
) -> Result<Map<String, Value>, AllocError>
    ensures { IfOk result (λ members. members_view members.entries
        ≡ occurrence_links state ask.now path.now instance.now) }
{
    match state {
        OpState::Starting | OpState::Processing | OpState::RollingBack => {
            active_links(alloc, path, instance)
        }
        OpState::FailedTemp => stopped_links(alloc, ask, path, instance),
        OpState::Completed | OpState::Failed | OpState::RolledBack => {
            ended_links(alloc, path, instance)
        }
    }
}

/// The links that every occurrence has.
fn ended_links(alloc: Global, path: &str, instance: &str) -> Result<Map<String, Value>, AllocError>
    ensures { IfOk result (λ members. members_view members.entries ≡ ended_links path.now instance.now) }
{
    let mut members = Map::new(alloc);
    put_link(&mut members, alloc, "self", path)?;
    put_link(&mut members, alloc, "vnfInstance", instance)?;
    Ok(members)
}

/// Those while the manager works on it.
fn active_links(alloc: Global, path: &str, instance: &str) -> Result<Map<String, Value>, AllocError>
    ensures { IfOk result (λ members. members_view members.entries ≡ active_links path.now instance.now) }
{
    let mut members = ended_links(alloc, path, instance)?;
    put_task(&mut members, alloc, "cancel", path, "cancel")?;
    Ok(members)
}

/// Those once its work has stopped.
fn stopped_links(
    alloc: Global,
    ask: &Ask,
    path: &str,
    instance: &str,
) -> Result<Map<String, Value>, AllocError>
    ensures { IfOk result (λ members. members_view members.entries ≡ stopped_links ask.now path.now instance.now) }
{
    let mut members = ended_links(alloc, path, instance)?;
    let rollback = rollback_where(alloc, ask, path)?;
    put_where(&mut members, alloc, "rollback", rollback)?;
    put_task(&mut members, alloc, "retry", path, "retry")?;
    put_task(&mut members, alloc, "fail", path, "fail")?;
    Ok(members)
}

/// The link to its rollback, which a TERMINATE doesn't have.
fn rollback_where(alloc: Global, ask: &Ask, path: &str) -> Result<Option<Value>, AllocError>
    ensures { IfOk result (λ value. option_map view value ≡ rollback_where ask.now path.now) }
{
    match ask {
        Ask::Terminate { .. } => Ok(None),
        _ => Ok(Some(task_link(alloc, path, "rollback")?)),
    }
}
