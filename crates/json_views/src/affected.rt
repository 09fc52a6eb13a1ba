//! What the changes of an occurrence did to resources, as its view shows it.
ghost use Rattle.std.specs.Prelude.{◌≡◌, ◌==◌, IfOk, None, OnOk, Some, codes, option_map, true};
ghost use Rattle.serde_json.specs.Data.{put as with_member, string};
ghost use Rattle.serde_json.specs.View.{members_view, view};
ghost use Rattle.lcm_events.specs.Same.{same_kind};
ghost use Rattle.lcm_events.specs.declared.changes.DefKind.TheVariants.{Compute, Link, Storage};
ghost use Rattle.json_views.specs.Affected.{affected, affected_link, affected_machine, affected_storage, changes_value};
ghost use Rattle.json_views.specs.Affected.{is_made, made_at, resource_changes, used_handle, used_once_made};
ghost use Rattle.json_views.specs.Words.{change_word};

use crate::members::{Shows, put_array, put_text};
use crate::rows::{handle_of, link_name, put_machine_id, put_storage_id, storage_name, vdu_name};
use crate::words::change_word;
use lcm_events::{Change, DefKind, Vnfd};
use occ_table::{OccRow, Used};
use serde_json::{Map, Value, put};
use std::alloc::{AllocError, Global};

/// A change that is made, and what it used last.
#[derive(Clone, Copy)]
pub struct Affected {
    /// The change.
    pub change: Change,
    /// The resource that it made, removed or powered, with its place.
    pub used: Used,
}

/// What the changes of an occurrence did to links, storages and machines. The time is linear in their number.
///
/// Source: SOL 003 5.5.2.13 (VnfLcmOpOcc, resourceChanges).
pub fn resource_changes(alloc: Global, vnfd: &Vnfd, row: &OccRow) -> Result<Value, AllocError>
    ensures { IfOk result (λ value. view value ≡ resource_changes vnfd.now row.now) }
{
    let affected = changes_made(alloc, row)?;
    let value = changes_value(alloc, vnfd, affected.as_slice())?;
    Ok(value)
}

fn changes_value(alloc: Global, vnfd: &Vnfd, affected: &[Affected]) -> Result<Value, AllocError>
    ensures { IfOk result (λ value. view value ≡ changes_value vnfd.now affected.now) }
{
    let mut members = Map::new(alloc);
    put_array(
        &mut members,
        alloc,
        "affectedVirtualLinks",
        affected,
        &AffectedLinks { vnfd },
    )?;
    put_array(
        &mut members,
        alloc,
        "affectedVirtualStorages",
        affected,
        &AffectedStorages { vnfd },
    )?;
    put_array(
        &mut members,
        alloc,
        "affectedVnfcs",
        affected,
        &AffectedMachines { vnfd },
    )?;
    Ok(Value::Object(members))
}

/// The changes that are made, in the order of the plan.
fn changes_made(alloc: Global, row: &OccRow) -> Result<Vec<Affected>, AllocError>
    ensures { IfOk result (λ list. list.items ≡ affected row.now) }
{
    let mut list = Vec::new(alloc);
    for number in 0..row.changes.len() {
        match made_at(row, number) {
            Some(made) => list.push(made)?,
            None => {}
        }
    }
    Ok(list)
}

/// The change of this number with what it used, where it is made.
fn made_at(row: &OccRow, number: usize) -> Option<Affected>
    ensures { result ≡ made_at row.now number }
{
    let change = *row.changes.as_slice().get(number)?;
    let used = used_once_made(row, number)?;
    Some(Affected { change, used })
}

/// What the change of this number used last, once it is made.
fn used_once_made(row: &OccRow, number: usize) -> Option<Used>
    ensures { result ≡ used_once_made row.now number }
{
    if is_made(row, number) {
        row.used.at(number)
    } else {
        None
    }
}

/// Whether the change of this number is made.
fn is_made(row: &OccRow, number: usize) -> bool
    ensures { result ≡ is_made row.now number }
{
    match row.nets.as_slice().get(number) {
        Some(net) => *net == 1,
        None => false,
    }
}

/// Puts the infrastructure's name of what a change used, and the connection to where it stands.
fn put_used(
    members: &mut Map<String, Value>,
    alloc: Global,
    name: &str,
    affected: &Affected,
) -> Result<(), AllocError>
    ensures { OnOk result (members_view members.new.entries
        ≡ with_member name.now (used_handle affected.now) (members_view members.old.entries)) }
{
    let used = &affected.used;
    let resource = handle_of(alloc, &used.resource, &used.place)?;
    put(members, alloc, name, resource)
}

/// Puts what was done.
fn put_change(
    members: &mut Map<String, Value>,
    alloc: Global,
    affected: &Affected,
) -> Result<(), AllocError>
    ensures { OnOk result (members_view members.new.entries
        ≡ with_member (codes "changeType") (string (change_word affected.now.change.verb))
        (members_view members.old.entries)) }
{
    put_text(
        members,
        alloc,
        "changeType",
        change_word(affected.change.verb),
    )
}

/// The links that changes are about.
#[derive(Clone, Copy)]
struct AffectedLinks<'a> {
    vnfd: &'a Vnfd,
}

impl Shows<Affected> for AffectedLinks<'_> {
    ghost IsReady = { λ s. Unit {0} };

    ghost has = { λ s x. same_kind x.change.def.kind Link };

    ghost shown = { λ s x. affected_link s.vnfd.now x };

    fn has(&self, affected: &Affected) -> bool {
        matches!(affected.change.def.kind, DefKind::Link)
    }

    fn show(&self, alloc: Global, affected: &Affected) -> Result<Value, AllocError> {
        let name = link_name(self.vnfd, affected.change.def.item);
        let mut members = Map::new(alloc);
        put_change(&mut members, alloc, affected)?;
        put_text(&mut members, alloc, "id", name)?;
        put_used(&mut members, alloc, "networkResource", affected)?;
        put_text(&mut members, alloc, "vnfVirtualLinkDescId", name)?;
        Ok(Value::Object(members))
    }
}

/// The storages that changes are about.
#[derive(Clone, Copy)]
struct AffectedStorages<'a> {
    vnfd: &'a Vnfd,
}

impl Shows<Affected> for AffectedStorages<'_> {
    ghost IsReady = { λ s. Unit {0} };

    ghost has = { λ s x. same_kind x.change.def.kind Storage };

    ghost shown = { λ s x. affected_storage s.vnfd.now x };

    fn has(&self, affected: &Affected) -> bool {
        matches!(affected.change.def.kind, DefKind::Storage)
    }

    fn show(&self, alloc: Global, affected: &Affected) -> Result<Value, AllocError> {
        let def = affected.change.def;
        let name = storage_name(self.vnfd, def.item);
        let mut members = Map::new(alloc);
        put_change(&mut members, alloc, affected)?;
        put_storage_id(&mut members, alloc, self.vnfd, &def)?;
        put_used(&mut members, alloc, "storageResource", affected)?;
        put_text(&mut members, alloc, "virtualStorageDescId", name)?;
        Ok(Value::Object(members))
    }
}

/// The machines that changes are about.
#[derive(Clone, Copy)]
struct AffectedMachines<'a> {
    vnfd: &'a Vnfd,
}

impl Shows<Affected> for AffectedMachines<'_> {
    ghost IsReady = { λ s. Unit {0} };

    ghost has = { λ s x. same_kind x.change.def.kind Compute };

    ghost shown = { λ s x. affected_machine s.vnfd.now x };

    fn has(&self, affected: &Affected) -> bool {
        matches!(affected.change.def.kind, DefKind::Compute)
    }

    fn show(&self, alloc: Global, affected: &Affected) -> Result<Value, AllocError> {
        let def = affected.change.def;
        let name = vdu_name(self.vnfd, def.vdu);
        let mut members = Map::new(alloc);
        put_change(&mut members, alloc, affected)?;
        put_used(&mut members, alloc, "computeResource", affected)?;
        put_machine_id(&mut members, alloc, self.vnfd, &def)?;
        put_text(&mut members, alloc, "vduId", name)?;
        Ok(Value::Object(members))
    }
}
