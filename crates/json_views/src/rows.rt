//! The entries of the lists of a view: levels of aspects, and resources that stand.
ghost use Rattle.std.specs.Prelude.{◌≡◌, ◌++◌, codes, decimal, string_bytes, IfOk, OnOk, is_some, true};
ghost use Rattle.serde_json.specs.View.{members_view, view};
ghost use Rattle.serde_json.specs.Data.{array, put as with_member, string};
ghost use Rattle.held_items.specs.Items.{AreInOrder, item_of};
ghost use Rattle.lcm_events.specs.Same.{same_kind};
ghost use Rattle.lcm_events.specs.declared.changes.DefKind.TheVariants.{Compute, Link, Storage};
ghost use Rattle.lcm_model.specs.Vnfcs.{def_of, storages_of};
ghost use Rattle.json_views.specs.Views.{array_of};
ghost use Rattle.json_views.specs.Resources.{compute_info, handle, handle_of, link_info, link_name, machine_id};
ghost use Rattle.json_views.specs.Resources.{scale_info, storage_id, storage_ids, storage_info, storage_name, vdu_name};

use crate::members::{Shows, put_array, put_text, text_value};
use held_items::find;
use itoa::Buffer;
use lcm_events::{AspectLevel, Def, DefKind, Held, Holding, Place, Vnfd};
use serde_json::{Map, Value, json, put};
use std::alloc::{AllocError, Global};
use vnfm_base::Name;

/// The name of a VDU, empty where the descriptor has none of this number.
pub fn vdu_name<'a>(vnfd: &'a Vnfd, vdu: u16) -> &'a str
    ensures { result.now ≡ vdu_name vnfd.now vdu }
{
    match vnfd.vdus.as_slice().get(usize::from(vdu)) {
        Some(vdu) => vdu.name.as_str(),
        None => "",
    }
}

/// The name of a storage, empty where the descriptor has none of this number.
pub fn storage_name<'a>(vnfd: &'a Vnfd, storage: u16) -> &'a str
    ensures { result.now ≡ storage_name vnfd.now storage }
{
    match vnfd.storages.as_slice().get(usize::from(storage)) {
        Some(storage) => storage.name.as_str(),
        None => "",
    }
}

/// The name of a link, empty where the descriptor has none of this number.
pub fn link_name<'a>(vnfd: &'a Vnfd, link: u16) -> &'a str
    ensures { result.now ≡ link_name vnfd.now link }
{
    match vnfd.links.as_slice().get(usize::from(link)) {
        Some(name) => name.as_str(),
        None => "",
    }
}

/// The identifier of a machine.
#[tactic(auto, unfolding(crate::specs::Resources::machine_id))]
pub fn machine_id(alloc: Global, vnfd: &Vnfd, vdu: u16, serial: u32) -> Result<String, AllocError>
    ensures { IfOk result (λ id. string_bytes id ≡ machine_id vnfd.now vdu serial) }
{
    let mut digits = Buffer::new();
    let mut id = String::from_str(alloc, vdu_name(vnfd, vdu))?;
    id.push_str("-")?;
    id.push_str(digits.format(serial))?;
    Ok(id)
}

/// The identifier of a storage of a machine.
#[tactic(auto, unfolding(crate::specs::Resources::storage_id))]
pub fn storage_id(
    alloc: Global,
    vnfd: &Vnfd,
    vdu: u16,
    serial: u32,
    storage: u16,
) -> Result<String, AllocError>
    ensures { IfOk result (λ id. string_bytes id ≡ storage_id vnfd.now vdu serial storage) }
{
    let mut id = machine_id(alloc, vnfd, vdu, serial)?;
    id.push_str("/")?;
    id.push_str(storage_name(vnfd, storage))?;
    Ok(id)
}

/// The infrastructure's name of a resource, and the connection to where it stands.
pub fn handle_of(alloc: Global, resource: &Name, place: &Place) -> Result<Value, AllocError>
    ensures { IfOk result (λ value. view value ≡ handle_of resource.now place.now.vim) }
{
    json!(in alloc; {"resourceId": resource.as_str(), "vimConnectionId": place.vim.as_str()})
}

/// Puts that of an item.
fn put_handle(
    members: &mut Map<String, Value>,
    alloc: Global,
    name: &str,
    item: &Held,
) -> Result<(), AllocError>
    ensures { OnOk result (members_view members.new.entries
        ≡ with_member name.now (handle item.now) (members_view members.old.entries)) }
{
    let handle = handle_of(alloc, &item.resource, &item.place)?;
    put(members, alloc, name, handle)
}

/// Puts the identifier of the machine that a definition is of.
pub fn put_machine_id(
    members: &mut Map<String, Value>,
    alloc: Global,
    vnfd: &Vnfd,
    def: &Def,
) -> Result<(), AllocError>
    ensures { OnOk result (members_view members.new.entries
        ≡ with_member (codes "id") (string (machine_id vnfd.now def.now.vdu def.now.serial))
        (members_view members.old.entries)) }
{
    let id = machine_id(alloc, vnfd, def.vdu, def.serial)?;
    put_text(members, alloc, "id", id.as_str())
}

/// Puts the identifier of the storage that a definition is of.
pub fn put_storage_id(
    members: &mut Map<String, Value>,
    alloc: Global,
    vnfd: &Vnfd,
    def: &Def,
) -> Result<(), AllocError>
    ensures { OnOk result (members_view members.new.entries
        ≡ with_member (codes "id") (string (storage_id vnfd.now def.now.vdu def.now.serial def.now.item))
        (members_view members.old.entries)) }
{
    let id = storage_id(alloc, vnfd, def.vdu, def.serial, def.item)?;
    put_text(members, alloc, "id", id.as_str())
}

/// The levels of all aspects.
#[derive(Clone, Copy)]
pub struct Levels {}

impl Shows<AspectLevel> for Levels {
    ghost IsReady = { λ s. Unit {0} };

    ghost has = { λ s x. true };

    ghost shown = { λ s x. scale_info x };

    fn has(&self, _entry: &AspectLevel) -> bool {
        true
    }

    fn show(&self, alloc: Global, entry: &AspectLevel) -> Result<Value, AllocError> {
        json!(in alloc; {"aspectId": entry.aspect.as_str(), "scaleLevel": entry.level})
    }
}

/// The storages that stand.
#[derive(Clone, Copy)]
pub struct Storages<'a> {
    pub vnfd: &'a Vnfd,
}

impl Shows<Held> for Storages<'_> {
    ghost IsReady = { λ s. Unit {0} };

    ghost has = { λ s y. same_kind y.def.kind Storage };

    ghost shown = { λ s y. storage_info s.vnfd.now y };

    fn has(&self, item: &Held) -> bool {
        matches!(item.def.kind, DefKind::Storage)
    }

    fn show(&self, alloc: Global, item: &Held) -> Result<Value, AllocError> {
        let name = storage_name(self.vnfd, item.def.item);
        let mut members = Map::new(alloc);
        put_storage_id(&mut members, alloc, self.vnfd, &item.def)?;
        put_handle(&mut members, alloc, "storageResource", item)?;
        put_text(&mut members, alloc, "virtualStorageDescId", name)?;
        Ok(Value::Object(members))
    }
}

/// The links that stand.
#[derive(Clone, Copy)]
pub struct Links<'a> {
    pub vnfd: &'a Vnfd,
}

impl Shows<Held> for Links<'_> {
    ghost IsReady = { λ s. Unit {0} };

    ghost has = { λ s y. same_kind y.def.kind Link };

    ghost shown = { λ s y. link_info s.vnfd.now y };

    fn has(&self, item: &Held) -> bool {
        matches!(item.def.kind, DefKind::Link)
    }

    fn show(&self, alloc: Global, item: &Held) -> Result<Value, AllocError> {
        let name = link_name(self.vnfd, item.def.item);
        let mut members = Map::new(alloc);
        put_text(&mut members, alloc, "id", name)?;
        put_handle(&mut members, alloc, "networkResource", item)?;
        put_text(&mut members, alloc, "vnfVirtualLinkDescId", name)?;
        Ok(Value::Object(members))
    }
}

/// The identifiers of the storages that stand for a machine.
#[derive(Clone, Copy)]
struct StorageIds<'a> {
    vnfd: &'a Vnfd,
    holding: &'a Holding,
    vdu: u16,
    serial: u32,
}

impl Shows<u16> for StorageIds<'_> {
    ghost IsReady = { λ s. AreInOrder s.holding.now.items };

    ghost has = { λ s k. is_some (item_of (def_of Storage s.vdu s.serial k) s.holding.now.items) };

    ghost shown = { λ s k. string (storage_id s.vnfd.now s.vdu s.serial k) };

    fn has(&self, storage: &u16) -> bool {
        let def = Def {
            kind: DefKind::Storage,
            item: *storage,
            vdu: self.vdu,
            serial: self.serial,
        };
        find(self.holding.items.as_slice(), def).is_some()
    }

    fn show(&self, alloc: Global, storage: &u16) -> Result<Value, AllocError> {
        let id = storage_id(alloc, self.vnfd, self.vdu, self.serial, *storage)?;
        text_value(alloc, id.as_str())
    }
}

/// The numbers of a VDU's storages.
fn storages_of<'a>(vnfd: &'a Vnfd, vdu: u16) -> &'a [u16]
    ensures { result.now ≡ storages_of vnfd.now vdu }
{
    match vnfd.vdus.as_slice().get(usize::from(vdu)) {
        Some(vdu) => vdu.storages.as_slice(),
        None => &[],
    }
}

/// Puts the identifiers of the storages that stand for a machine.
#[tactic(auto, unfolding(crate::specs::Resources::storage_ids))]
fn put_storage_ids(
    members: &mut Map<String, Value>,
    alloc: Global,
    vnfd: &Vnfd,
    holding: &Holding,
    machine: &Def,
) -> Result<(), AllocError>
    requires { AreInOrder holding.now.items }
    ensures { OnOk result (members_view members.new.entries
        ≡ with_member (codes "storageResourceIds") (storage_ids vnfd.now holding.now machine.now.vdu machine.now.serial)
        (members_view members.old.entries)) }
{
    let (vdu, serial) = (machine.vdu, machine.serial);
    let ids = StorageIds {
        vnfd,
        holding,
        vdu,
        serial,
    };
    put_array(
        members,
        alloc,
        "storageResourceIds",
        storages_of(vnfd, vdu),
        &ids,
    )
}

/// The computes that stand.
#[derive(Clone, Copy)]
pub struct Computes<'a> {
    pub vnfd: &'a Vnfd,
    pub holding: &'a Holding,
}

impl Shows<Held> for Computes<'_> {
    ghost IsReady = { λ s. AreInOrder s.holding.now.items };

    ghost has = { λ s y. same_kind y.def.kind Compute };

    ghost shown = { λ s y. compute_info s.vnfd.now s.holding.now y };

    fn has(&self, item: &Held) -> bool {
        matches!(item.def.kind, DefKind::Compute)
    }

    fn show(&self, alloc: Global, item: &Held) -> Result<Value, AllocError> {
        let name = vdu_name(self.vnfd, item.def.vdu);
        let mut members = Map::new(alloc);
        put_handle(&mut members, alloc, "computeResource", item)?;
        put_machine_id(&mut members, alloc, self.vnfd, &item.def)?;
        put_storage_ids(&mut members, alloc, self.vnfd, self.holding, &item.def)?;
        put_text(&mut members, alloc, "vduId", name)?;
        Ok(Value::Object(members))
    }
}
