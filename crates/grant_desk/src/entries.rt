//! The entries of a grant request: what is asked for, change by change.
ghost use Rattle.std.specs.Prelude.{◌≡◌, [], IfOk, OnOk, option_copied, option_map, slice_get, string_bytes};
ghost use Rattle.std.specs.Prelude.{unwrap_or};
ghost use Rattle.std.specs.Option.{option_map_or};
ghost use Rattle.serde_json.specs.View.{members_view, view};
ghost use Rattle.change_planner.specs.Acts.{template_name};
ghost use Rattle.held_items.specs.Items.{AreInOrder, item_of};
ghost use Rattle.lcm_model.specs.Grants.{change_id};
ghost use Rattle.grant_desk.specs.Made.{needed_members};
ghost use Rattle.json_members.specs.Text.{with_value};
ghost use Rattle.grant_desk.specs.Requests.{entries, entry, handle, resource_for, type_word, vdu_for};

use crate::parts::{Part, asks};
use held_items::find;
use itoa::Buffer;
use json_members::{JsonText, put_text, put_where, text_value};
use lcm_events::{Change, Def, DefKind, Held, Holding, Verb, Vnfd};
use serde_json::{Map, Value, json};
use std::alloc::{AllocError, Global};

/// Writes what is asked for in a part, change by change. The value of each is let go as soon as it is written.
#[tactic(auto, unfolding(crate::specs::Requests::entries))]
pub fn write_entries(
    text: &mut JsonText,
    alloc: Global,
    vnfd: &Vnfd,
    holding: &Holding,
    part: Part,
    changes: &[Change],
) -> Result<(), AllocError>
    requires { AreInOrder holding.now.items }
    ensures { OnOk result (text.new ≡ with_value (entries vnfd.now holding.now part changes.now) text.old) }
{
    text.begin_array()?;
    for (k, change) in changes.iter().enumerate() {
        if asks(part, change.verb) {
            write_entry(text, alloc, vnfd, holding, k, change)?;
        }
    }
    text.end_array()
}

/// Writes a change with its number.
fn write_entry(
    text: &mut JsonText,
    alloc: Global,
    vnfd: &Vnfd,
    holding: &Holding,
    k: usize,
    change: &Change,
) -> Result<(), AllocError>
    requires { AreInOrder holding.now.items }
    ensures { OnOk result (text.new ≡ with_value (entry vnfd.now holding.now (k, change.now)) text.old) }
{
    let value = entry_value(alloc, vnfd, holding, k, change)?;
    text.value(alloc, &value)
}

/// A change with its number, as a value.
fn entry_value(
    alloc: Global,
    vnfd: &Vnfd,
    holding: &Holding,
    k: usize,
    change: &Change,
) -> Result<Value, AllocError>
    requires { AreInOrder holding.now.items }
    ensures { IfOk result (λ value. view value ≡ entry vnfd.now holding.now (k, change.now)) }
{
    let mut members = needed_members(alloc, vnfd, k, &change.def)?;
    let resource = resource_for(alloc, holding, change)?;
    put_where(&mut members, alloc, "resource", resource)?;
    let vdu = vdu_for(alloc, vnfd, &change.def)?;
    put_where(&mut members, alloc, "vduId", vdu)?;
    Ok(Value::Object(members))
}

/// The members that every entry has.
fn needed_members(
    alloc: Global,
    vnfd: &Vnfd,
    k: usize,
    def: &Def,
) -> Result<Map<String, Value>, AllocError>
    ensures { IfOk result (λ members. members_view members.entries
        ≡ needed_members (change_id k) (template_name vnfd.now def.now.kind def.now) (type_word def.now.kind)) }
{
    let id = change_id(alloc, k)?;
    let mut members = Map::new(alloc);
    put_text(&mut members, alloc, "id", id.as_str())?;
    put_text(
        &mut members,
        alloc,
        "resourceTemplateId",
        template_name(vnfd, def),
    )?;
    put_text(&mut members, alloc, "type", type_word(def.kind))?;
    Ok(members)
}

/// The identifier of a change.
fn change_id(alloc: Global, k: usize) -> Result<String, AllocError>
    ensures { IfOk result (λ id. string_bytes id ≡ change_id k) }
{
    let mut digits = Buffer::new();
    let mut id = String::from_str(alloc, "d")?;
    id.push_str(digits.format(k))?;
    Ok(id)
}

/// The resource of a change: none where it is created, else what stands.
fn resource_for(
    alloc: Global,
    holding: &Holding,
    change: &Change,
) -> Result<Option<Value>, AllocError>
    requires { AreInOrder holding.now.items }
    ensures { IfOk result (λ value. option_map view value
        ≡ resource_for change.now.verb (item_of change.now.def holding.now.items)) }
{
    match change.verb {
        Verb::Create => Ok(None),
        Verb::Remove | Verb::Start | Verb::Stop => {
            handle_where(alloc, find(holding.items.as_slice(), change.def))
        }
    }
}

/// The infrastructure's name of what stands, and the connection to where it does.
fn handle_where(alloc: Global, item: Option<&Held>) -> Result<Option<Value>, AllocError>
    ensures { IfOk result (λ value. option_map view value ≡ option_map handle (option_copied item.entry)) }
{
    match item {
        Some(item) => Ok(Some(handle(alloc, item)?)),
        None => Ok(None),
    }
}

fn handle(alloc: Global, item: &Held) -> Result<Value, AllocError>
    ensures { IfOk result (λ value. view value ≡ handle item.now) }
{
    json!(in alloc; {"resourceId": item.resource.as_str(), "vimConnectionId": item.place.vim.as_str()})
}

fn type_word(kind: DefKind) -> &'static str
    ensures { result.now ≡ type_word kind }
{
    match kind {
        DefKind::Link => "VL",
        DefKind::Storage => "STORAGE",
        DefKind::Compute => "COMPUTE",
        DefKind::Port => "LINKPORT",
    }
}

/// The name of the VDU of a definition, which a link has none of.
fn vdu_for(alloc: Global, vnfd: &Vnfd, def: &Def) -> Result<Option<Value>, AllocError>
    ensures { IfOk result (λ value. option_map view value ≡ vdu_for vnfd.now def.now.kind def.now) }
{
    match def.kind {
        DefKind::Link => Ok(None),
        DefKind::Storage | DefKind::Compute | DefKind::Port => {
            Ok(Some(text_value(alloc, vdu_name(vnfd, def.vdu))?))
        }
    }
}

/// The name of a VDU, empty where there is none of this number.
fn vdu_name<'a>(vnfd: &'a Vnfd, vdu: u16) -> &'a str
    ensures { result.now ≡ option_map_or (λ u. u.name) (slice_get vnfd.now.vdus vdu) [] }
{
    match vnfd.vdus.as_slice().get(usize::from(vdu)) {
        Some(vdu) => vdu.name.as_str(),
        None => "",
    }
}

/// The name of a storage, empty where there is none of this number.
fn storage_name<'a>(vnfd: &'a Vnfd, storage: u16) -> &'a str
    ensures { result.now ≡ option_map_or (λ s. s.name) (slice_get vnfd.now.storages storage) [] }
{
    match vnfd.storages.as_slice().get(usize::from(storage)) {
        Some(storage) => storage.name.as_str(),
        None => "",
    }
}

/// The name of a port, empty where there is none of this number.
fn port_name<'a>(vnfd: &'a Vnfd, port: u16) -> &'a str
    ensures { result.now ≡ option_map_or (λ p. p.name) (slice_get vnfd.now.ports port) [] }
{
    match vnfd.ports.as_slice().get(usize::from(port)) {
        Some(port) => port.name.as_str(),
        None => "",
    }
}

/// The name of a link, empty where there is none of this number.
fn link_name<'a>(vnfd: &'a Vnfd, link: u16) -> &'a str
    ensures { result.now ≡ unwrap_or (slice_get vnfd.now.links link) [] }
{
    match vnfd.links.as_slice().get(usize::from(link)) {
        Some(name) => name.as_str(),
        None => "",
    }
}

/// The descriptor's name of the link, storage or port of a definition, and of the VDU for a compute.
fn template_name<'a>(vnfd: &'a Vnfd, def: &Def) -> &'a str
    ensures { result.now ≡ template_name vnfd.now def.now.kind def.now }
{
    match def.kind {
        DefKind::Link => link_name(vnfd, def.item),
        DefKind::Storage => storage_name(vnfd, def.item),
        DefKind::Compute => vdu_name(vnfd, def.vdu),
        DefKind::Port => port_name(vnfd, def.item),
    }
}
