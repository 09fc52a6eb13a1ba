//! The view of an instance.
ghost use Rattle.std.specs.Prelude.{◌≡◌, ◌++◌, codes, string_bytes, IfOk, OnOk, option_map};
ghost use Rattle.serde_json.specs.View.{view, members_view};
ghost use Rattle.serde_json.specs.Data.{object, string};
ghost use Rattle.vnfm_base.specs.Ident.{IsIdentNumber, ident, ident_text};
ghost use Rattle.vnfm_base.specs.Text.{IsLine};
ghost use Rattle.held_items.specs.Items.{AreInOrder};
ghost use Rattle.instance_table.specs.Rows.{row_with, unheld};
ghost use Rattle.json_views.specs.Instance.{created_text, instance_id, instance_path, instance_text, instance_value};
ghost use Rattle.json_views.specs.Instance.{instantiation_state};
ghost use Rattle.json_views.specs.Links.{links};
ghost use Rattle.json_views.specs.Made.{needed_members, with_product};

use crate::links::links_value;
use crate::members::{put_line_where, put_name_where, put_text, put_where};
use crate::resources::info_where;
use instance_table::InstanceRow;
use json_bodies::CreateBody;
use json_members::written;
use lcm_events::{Holding, Listed, Vnfd};
use serde_json::{Map, Value, put};
use std::alloc::{AllocError, Global};
use uuid::Uuid;
use vnfm_base::{Bytes, Kind, ident};

/// The text of the identifier of instance `n` at this manager.
///
/// Condition: `n` is from 1 to 2^62 - 1.
/// Source: RFC 9562 4.
#[tactic(auto, unfolding(crate::specs::Instance::instance_id))]
pub fn instance_id(alloc: Global, manager: u32, n: u64) -> Result<String, AllocError>
    requires { IsIdentNumber n }
    ensures { IfOk result (λ id. string_bytes id ≡ instance_id manager n) }
{
    identifier(alloc, manager, Kind::Instance, n)
}

/// The text of the identifier of this kind and number at this manager.
///
/// Condition: the number is from 1 to 2^62 - 1.
/// Source: RFC 9562 4.
#[tactic(auto, unfolding(vnfm_base::specs::Ident::ident_text))]
pub fn identifier(alloc: Global, manager: u32, kind: Kind, n: u64) -> Result<String, AllocError>
    requires { IsIdentNumber n }
    ensures { IfOk result (λ id. string_bytes id ≡ ident_text (ident manager kind n)) }
{
    let id = ident(manager, kind, n);
    let mut buffer = Uuid::encode_buffer();
    String::from_str(alloc, id.hyphenated().encode_lower(&mut buffer))
}

/// The path of instance `n`: where it is found, and what `Location` says of it.
///
/// Condition: `n` is from 1 to 2^62 - 1.
/// Source: SOL 003 5.4.3 (Individual VNF instance).
#[tactic(auto, unfolding(crate::specs::Instance::instance_path))]
pub fn instance_path(alloc: Global, manager: u32, n: u64) -> Result<String, AllocError>
    requires { IsIdentNumber n }
    ensures path { IfOk result (λ path. string_bytes path ≡ instance_path manager n) }
    ensures line { IfOk result (λ path. IsLine (string_bytes path)) }
{
    let id = instance_id(alloc, manager, n)?;
    let mut path = String::from_str(alloc, "/vnflcm/v1/vnf_instances/")?;
    path.push_str(id.as_str())?;
    Ok(path)
}

/// The whole view of instance `n`, whose row is this, as its descriptor has it. The time is linear in what stands,
/// times the logarithm of that for each storage.
///
/// Condition: `n` is from 1 to 2^62 - 1; what stands is in order of definition.
/// Source: SOL 003 5.5.2.2 (VnfInstance).
#[tactic(auto, unfolding(crate::specs::Instance::instance_text))]
pub fn instance_view(
    alloc: Global,
    manager: u32,
    n: u64,
    row: &InstanceRow,
    vnfd: &Vnfd,
) -> Result<Bytes, AllocError>
    requires number { IsIdentNumber n }
    requires order { AreInOrder row.now.holding.items }
    ensures { IfOk result (λ body. body ≡ instance_text manager n row.now vnfd.now) }
{
    let value = instance_value(alloc, manager, n, row, vnfd)?;
    written(alloc, &value)
}

/// The view of instance `n`, which was just created with this body: that of its row. What product it is its descriptor
/// says.
///
/// Condition: `n` is from 1 to 2^62 - 1.
/// Source: SOL 003 5.5.2.2 (VnfInstance).
#[tactic(auto, unfolding(crate::specs::Instance::created_text, crate::specs::Instance::instance_text))]
pub fn created_view(
    alloc: Global,
    manager: u32,
    n: u64,
    instance: &CreateBody,
    vnfd: &Vnfd,
) -> Result<Bytes, AllocError>
    requires { IsIdentNumber n }
    ensures { IfOk result (λ body. body ≡ created_text manager n instance.now vnfd.now) }
{
    let row = idle_row(alloc, n, instance)?;
    instance_view(alloc, manager, n, &row, vnfd)
}

/// The row of instance `n`, which was created with this body, and of which nothing stands.
fn idle_row(alloc: Global, n: u64, instance: &CreateBody) -> Result<InstanceRow, AllocError>
    ensures { IfOk result (λ row. row ≡ row_with (record {
      instance = n;
      vnfd = instance.now.vnfd;
      name = instance.now.name;
      text = instance.now.text;
    }) unheld) }
{
    let text = match &instance.text {
        Some(text) => Some(text.clone()?),
        None => None,
    };
    Ok(InstanceRow {
        number: n,
        vnfd: instance.vnfd,
        name: instance.name,
        text,
        holding: Holding {
            instantiated: false,
            started: false,
            levels: Listed::new(alloc),
            items: Listed::new(alloc),
            top: Listed::new(alloc),
        },
    })
}

/// The whole view of instance `n`, as a value.
pub fn instance_value(
    alloc: Global,
    manager: u32,
    n: u64,
    row: &InstanceRow,
    vnfd: &Vnfd,
) -> Result<Value, AllocError>
    requires number { IsIdentNumber n }
    requires order { AreInOrder row.now.holding.items }
    ensures { IfOk result (λ value. view value ≡ instance_value manager n row.now vnfd.now) }
{
    let members = instance_members(alloc, manager, n, row, vnfd)?;
    Ok(Value::Object(members))
}

fn instance_members(
    alloc: Global,
    manager: u32,
    n: u64,
    row: &InstanceRow,
    vnfd: &Vnfd,
) -> Result<Map<String, Value>, AllocError>
    requires number { IsIdentNumber n }
    requires order { AreInOrder row.now.holding.items }
    ensures { IfOk result (λ members. object (members_view members.entries)
        ≡ instance_value manager n row.now vnfd.now) }
{
    let mut members = needed_members(alloc, manager, n, row, vnfd)?;
    let info = info_where(alloc, vnfd, &row.holding)?;
    put_where(&mut members, alloc, "instantiatedVnfInfo", info)?;
    put_line_where(&mut members, alloc, "vnfInstanceDescription", &row.text)?;
    put_name_where(&mut members, alloc, "vnfInstanceName", &row.name)?;
    Ok(members)
}

#[tactic(auto, unfolding(crate::specs::Made::needed_members, crate::specs::Made::with_product))]
fn needed_members(
    alloc: Global,
    manager: u32,
    n: u64,
    row: &InstanceRow,
    vnfd: &Vnfd,
) -> Result<Map<String, Value>, AllocError>
    requires { IsIdentNumber n }
    ensures { IfOk result (λ members. members_view members.entries
        ≡ needed_members (instance_id manager n) (links row.now.holding.instantiated (instance_path manager n))
        row.now.holding.instantiated row.now.vnfd vnfd.now) }
{
    let instantiated = row.holding.instantiated;
    let id = instance_id(alloc, manager, n)?;
    let path = instance_path(alloc, manager, n)?;
    let links = links_value(alloc, instantiated, path.as_str())?;
    let mut members = Map::new(alloc);
    put(&mut members, alloc, "_links", links)?;
    put_text(&mut members, alloc, "id", id.as_str())?;
    put_text(
        &mut members,
        alloc,
        "instantiationState",
        instantiation_state(instantiated),
    )?;
    put_product(&mut members, alloc, vnfd)?;
    put_text(&mut members, alloc, "vnfdId", row.vnfd.as_str())?;
    put_text(
        &mut members,
        alloc,
        "vnfdVersion",
        vnfd.descriptor_version.as_str(),
    )?;
    Ok(members)
}

fn instantiation_state(instantiated: bool) -> &'static str
    ensures { result.now ≡ instantiation_state instantiated }
{
    if instantiated {
        "INSTANTIATED"
    } else {
        "NOT_INSTANTIATED"
    }
}

#[tactic(auto, unfolding(crate::specs::Made::with_product))]
fn put_product(
    members: &mut Map<String, Value>,
    alloc: Global,
    vnfd: &Vnfd,
) -> Result<(), AllocError>
    ensures { OnOk result (members_view members.new.entries
        ≡ with_product vnfd.now (members_view members.old.entries)) }
{
    put_text(members, alloc, "vnfProductName", vnfd.product_name.as_str())?;
    put_text(members, alloc, "vnfProvider", vnfd.provider.as_str())?;
    put_text(
        members,
        alloc,
        "vnfSoftwareVersion",
        vnfd.software_version.as_str(),
    )
}
