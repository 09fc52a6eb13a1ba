//! The view of an operation occurrence.
ghost use Rattle.std.specs.Prelude.{◌≡◌, List, codes, false, string_bytes, IfOk, IfSome, OnOk, is_some, option_map, ℕ};
ghost use Rattle.serde_json.specs.View.{view, members_view};
ghost use Rattle.serde_json.specs.Data.{boolean, object, put as with_member, string};
ghost use Rattle.vnfm_base.specs.Ident.{IsIdentNumber};
ghost use Rattle.vnfm_base.specs.Text.{IsLine};
ghost use Rattle.json_bodies.specs.Words.{cancel_word};
ghost use Rattle.json_views.specs.Instance.{instance_id, instance_path};
ghost use Rattle.json_views.specs.MadeOccurrence.{occurrence_members, with_moments, with_operation};
ghost use Rattle.json_views.specs.Moments.{moment_text};
ghost use Rattle.json_views.specs.Occurrence.{error_where, occurrence_id, occurrence_links, occurrence_path};
ghost use Rattle.json_views.specs.Occurrence.{occurrence_shown, occurrence_text, occurrence_value};
ghost use Rattle.json_views.specs.Affected.{resource_changes};
ghost use Rattle.json_views.specs.Params.{params};
ghost use Rattle.json_bodies.specs.Words.{kind_word};
ghost use Rattle.lcm_model.specs.Operations.{kind_of};

use crate::affected::resource_changes;
use crate::errors::error_where;
use crate::instance::{identifier, instance_id, instance_path};
use crate::members::{put_text, put_where, text_value};
use crate::occurrence_links::links_by_state;
use crate::params::params_value;
use crate::words::{cancel_word, operation_word, state_word};
use json_members::written;
use lcm_events::{Ask, CancelMode, Vnfd};
use occ_table::{Grant, OccRow};
use serde_json::{Map, Value, put};
use std::alloc::{AllocError, Global};
use vnfm_base::{Bytes, Kind, Moment, moment_text};

/// The text of the identifier of occurrence `n` at this manager.
///
/// Condition: `n` is from 1 to 2^62 - 1.
/// Source: RFC 9562 4.
#[tactic(auto, unfolding(crate::specs::Occurrence::occurrence_id))]
pub fn occurrence_id(alloc: Global, manager: u32, n: u64) -> Result<String, AllocError>
    requires { IsIdentNumber n }
    ensures { IfOk result (λ id. string_bytes id ≡ occurrence_id manager n) }
{
    identifier(alloc, manager, Kind::Occurrence, n)
}

/// The path of occurrence `n`: where it is found, and what `Location` says of it.
///
/// Condition: `n` is from 1 to 2^62 - 1.
/// Source: SOL 003 5.4.13 (Individual VNF LCM operation occurrence).
#[tactic(auto, unfolding(crate::specs::Occurrence::occurrence_path))]
pub fn occurrence_path(alloc: Global, manager: u32, n: u64) -> Result<String, AllocError>
    requires { IsIdentNumber n }
    ensures path { IfOk result (λ path. string_bytes path ≡ occurrence_path manager n) }
    ensures line { IfOk result (λ path. IsLine (string_bytes path)) }
{
    let id = occurrence_id(alloc, manager, n)?;
    let mut path = String::from_str(alloc, "/vnflcm/v1/vnf_lcm_op_occs/")?;
    path.push_str(id.as_str())?;
    Ok(path)
}

/// The whole view of occurrence `n`, whose row is this, as the descriptor of its instance has it. The time is linear in
/// its changes.
///
/// Condition: `n` and the number of the instance are from 1 to 2^62 - 1.
/// Source: SOL 003 5.5.2.13 (VnfLcmOpOcc).
#[tactic(auto, unfolding(crate::specs::Occurrence::occurrence_text))]
pub fn occurrence_view(
    alloc: Global,
    manager: u32,
    n: u64,
    row: &OccRow,
    vnfd: &Vnfd,
) -> Result<Bytes, AllocError>
    requires number { IsIdentNumber n }
    requires instance { IsIdentNumber row.now.instance }
    ensures { IfOk result (λ body. body ≡ occurrence_text manager n row.now vnfd.now) }
{
    let value = occurrence_shown(alloc, manager, n, row, vnfd)?;
    written(alloc, &value)
}

/// The value of the view, with the texts of the row's moments.
pub fn occurrence_shown(
    alloc: Global,
    manager: u32,
    n: u64,
    row: &OccRow,
    vnfd: &Vnfd,
) -> Result<Value, AllocError>
    requires number { IsIdentNumber n }
    requires instance { IsIdentNumber row.now.instance }
    ensures { IfOk result (λ value. view value ≡ occurrence_shown manager n row.now vnfd.now) }
{
    let start = moment_string(alloc, row.asked)?;
    let entered = moment_string(alloc, row.entered)?;
    let value = occurrence_value(
        alloc,
        manager,
        n,
        row,
        vnfd,
        start.as_str(),
        entered.as_str(),
    )?;
    Ok(value)
}

/// The text of a moment.
fn moment_string(alloc: Global, moment: Moment) -> Result<String, AllocError>
    ensures { IfOk result (λ text. string_bytes text ≡ moment_text moment) }
{
    let bytes = moment_text(moment);
    let text = text_of(alloc, bytes.as_slice())?;
    Ok(text)
}

/// The text of these bytes, which are digits, letters, `-`, `:` and `.` alone.
fn text_of(alloc: Global, bytes: &[u8]) -> Result<String, AllocError>
    ensures { IfOk result (λ text. string_bytes text ≡ bytes.now) }
{
    match str::from_utf8(bytes) {
        Ok(text) => String::from_str(alloc, text),
        Err(_) => Err(AllocError),
    }
}

/// The value of the view, with these texts of its moments.
fn occurrence_value(
    alloc: Global,
    manager: u32,
    n: u64,
    row: &OccRow,
    vnfd: &Vnfd,
    start: &str,
    entered: &str,
) -> Result<Value, AllocError>
    requires number { IsIdentNumber n }
    requires instance { IsIdentNumber row.now.instance }
    ensures { IfOk result (λ value. view value ≡ occurrence_value manager n row.now vnfd.now start.now entered.now) }
{
    let members = all_members(alloc, manager, n, row, vnfd, start, entered)?;
    Ok(Value::Object(members))
}

/// All members of the view.
fn all_members(
    alloc: Global,
    manager: u32,
    n: u64,
    row: &OccRow,
    vnfd: &Vnfd,
    start: &str,
    entered: &str,
) -> Result<Map<String, Value>, AllocError>
    requires number { IsIdentNumber n }
    requires instance { IsIdentNumber row.now.instance }
    ensures { IfOk result (λ members. object (members_view members.entries)
        ≡ occurrence_value manager n row.now vnfd.now start.now entered.now) }
{
    let mut members = occurrence_members(alloc, manager, n, row, vnfd, start, entered)?;
    let grant = grant_where(alloc, &row.grant)?;
    put_where(&mut members, alloc, "grantId", grant)?;
    let error = error_where(alloc, row)?;
    put_where(&mut members, alloc, "error", error)?;
    let cancel = cancel_where(alloc, row.cancel)?;
    put_where(&mut members, alloc, "cancelMode", cancel)?;
    Ok(members)
}

/// The identifier of the grant, where it was granted.
fn grant_where(alloc: Global, grant: &Option<Grant>) -> Result<Option<Value>, AllocError>
    ensures { IfOk result (λ value. option_map view value ≡ option_map (λ g. string g.name) grant.now) }
{
    match grant {
        Some(grant) => Ok(Some(text_value(alloc, grant.name.as_str())?)),
        None => Ok(None),
    }
}

/// The mode of the cancel in force, where one is.
fn cancel_where(alloc: Global, cancel: Option<CancelMode>) -> Result<Option<Value>, AllocError>
    ensures { IfOk result (λ value. option_map view value ≡ option_map (λ mode. string (cancel_word mode)) cancel) }
{
    match cancel {
        Some(mode) => Ok(Some(text_value(alloc, cancel_word(mode))?)),
        None => Ok(None),
    }
}

/// The members that every view of an occurrence has.
#[tactic(auto, unfolding(crate::specs::MadeOccurrence::occurrence_members, crate::specs::MadeOccurrence::with_operation, crate::specs::MadeOccurrence::with_moments))]
fn occurrence_members(
    alloc: Global,
    manager: u32,
    n: u64,
    row: &OccRow,
    vnfd: &Vnfd,
    start: &str,
    entered: &str,
) -> Result<Map<String, Value>, AllocError>
    requires number { IsIdentNumber n }
    requires instance { IsIdentNumber row.now.instance }
    ensures { IfOk result (λ members. members_view members.entries
        ≡ occurrence_members (occurrence_id manager n) (object
        (occurrence_links row.now.state row.now.ask (occurrence_path manager n)
        (instance_path manager row.now.instance))) (instance_id manager row.now.instance) row.now vnfd.now start.now
        entered.now) }
{
    let mut members = Map::new(alloc);
    put_identity(&mut members, alloc, manager, n, row)?;
    put_operation(&mut members, alloc, vnfd, row)?;
    put_changes(&mut members, alloc, vnfd, row)?;
    put_moments(&mut members, alloc, start, entered)?;
    put_instance(&mut members, alloc, manager, row.instance)?;
    Ok(members)
}

/// Puts the links and the identifier of occurrence `n`, that it was asked for, and whether a cancel is in force.
fn put_identity(
    members: &mut Map<String, Value>,
    alloc: Global,
    manager: u32,
    n: u64,
    row: &OccRow,
) -> Result<(), AllocError>
    requires number { IsIdentNumber n }
    requires instance { IsIdentNumber row.now.instance }
    ensures { OnOk result (members_view members.new.entries
        ≡ with_member (codes "isCancelPending") (boolean (is_some row.now.cancel))
        (with_member (codes "isAutomaticInvocation") (boolean false)
        (with_member (codes "id") (string (occurrence_id manager n))
        (with_member (codes "_links") (object (occurrence_links row.now.state row.now.ask (occurrence_path manager n)
        (instance_path manager row.now.instance))) (members_view members.old.entries))))) }
{
    put_links(members, alloc, manager, n, row)?;
    put_id(members, alloc, manager, n)?;
    let automatic = Value::Bool(false);
    put(members, alloc, "isAutomaticInvocation", automatic)?;
    let pending = Value::Bool(row.cancel.is_some());
    put(members, alloc, "isCancelPending", pending)
}

/// Puts the identifier of occurrence `n`.
fn put_id(
    members: &mut Map<String, Value>,
    alloc: Global,
    manager: u32,
    n: u64,
) -> Result<(), AllocError>
    requires { IsIdentNumber n }
    ensures { OnOk result (members_view members.new.entries
        ≡ with_member (codes "id") (string (occurrence_id manager n)) (members_view members.old.entries)) }
{
    let id = occurrence_id(alloc, manager, n)?;
    put_text(members, alloc, "id", id.as_str())
}

/// Puts the identifier of the instance.
fn put_instance(
    members: &mut Map<String, Value>,
    alloc: Global,
    manager: u32,
    instance: u64,
) -> Result<(), AllocError>
    requires { IsIdentNumber instance }
    ensures { OnOk result (members_view members.new.entries
        ≡ with_member (codes "vnfInstanceId") (string (instance_id manager instance))
        (members_view members.old.entries)) }
{
    let id = instance_id(alloc, manager, instance)?;
    put_text(members, alloc, "vnfInstanceId", id.as_str())
}

/// Puts what the changes did to resources.
fn put_changes(
    members: &mut Map<String, Value>,
    alloc: Global,
    vnfd: &Vnfd,
    row: &OccRow,
) -> Result<(), AllocError>
    ensures { OnOk result (members_view members.new.entries
        ≡ with_member (codes "resourceChanges") (resource_changes vnfd.now row.now)
        (members_view members.old.entries)) }
{
    let changes = resource_changes(alloc, vnfd, row)?;
    put(members, alloc, "resourceChanges", changes)
}

/// Puts the links of occurrence `n`.
fn put_links(
    members: &mut Map<String, Value>,
    alloc: Global,
    manager: u32,
    n: u64,
    row: &OccRow,
) -> Result<(), AllocError>
    requires number { IsIdentNumber n }
    requires instance { IsIdentNumber row.now.instance }
    ensures { OnOk result (members_view members.new.entries
        ≡ with_member (codes "_links") (object (occurrence_links row.now.state row.now.ask (occurrence_path manager n)
        (instance_path manager row.now.instance))) (members_view members.old.entries)) }
{
    let links = links_value(alloc, manager, n, row)?;
    put(members, alloc, "_links", links)
}

/// The links of occurrence `n`.
fn links_value(alloc: Global, manager: u32, n: u64, row: &OccRow) -> Result<Value, AllocError>
    requires number { IsIdentNumber n }
    requires instance { IsIdentNumber row.now.instance }
    ensures { IfOk result (λ value. view value ≡ object (occurrence_links row.now.state row.now.ask
        (occurrence_path manager n) (instance_path manager row.now.instance))) }
{
    let path = occurrence_path(alloc, manager, n)?;
    let instance = instance_path(alloc, manager, row.instance)?;
    links_of(alloc, row, path.as_str(), instance.as_str())
}

/// The links of an occurrence at this path, whose instance is at that one.
fn links_of(alloc: Global, row: &OccRow, path: &str, instance: &str) -> Result<Value, AllocError>
    ensures { IfOk result (λ value. view value ≡ object (occurrence_links row.now.state row.now.ask
        path.now instance.now)) }
{
    let ask = row.ask.unpack(alloc)?;
    let links = links_by_state(alloc, row.state, &ask, path, instance)?;
    Ok(Value::Object(links))
}

#[tactic(auto, unfolding(crate::specs::MadeOccurrence::with_operation))]
fn put_operation(
    members: &mut Map<String, Value>,
    alloc: Global,
    vnfd: &Vnfd,
    row: &OccRow,
) -> Result<(), AllocError>
    ensures { OnOk result (members_view members.new.entries
        ≡ with_operation vnfd.now row.now (members_view members.old.entries)) }
{
    let ask = row.ask.unpack(alloc)?;
    put_ask(members, alloc, vnfd, &ask)?;
    put_text(members, alloc, "operationState", state_word(row.state))
}

/// Puts what was asked for.
fn put_ask(
    members: &mut Map<String, Value>,
    alloc: Global,
    vnfd: &Vnfd,
    ask: &Ask,
) -> Result<(), AllocError>
    ensures { OnOk result (members_view members.new.entries
        ≡ with_member (codes "operationParams") (object (params vnfd.now ask.now))
        (with_member (codes "operation") (string (kind_word (kind_of ask.now))) (members_view members.old.entries))) }
{
    put_text(members, alloc, "operation", operation_word(ask))?;
    let params = params_value(alloc, vnfd, ask)?;
    put(members, alloc, "operationParams", params)
}

#[tactic(auto, unfolding(crate::specs::MadeOccurrence::with_moments))]
fn put_moments(
    members: &mut Map<String, Value>,
    alloc: Global,
    start: &str,
    entered: &str,
) -> Result<(), AllocError>
    ensures { OnOk result (members_view members.new.entries
        ≡ with_moments start.now entered.now (members_view members.old.entries)) }
{
    put_text(members, alloc, "startTime", start)?;
    put_text(members, alloc, "stateEnteredTime", entered)
}
