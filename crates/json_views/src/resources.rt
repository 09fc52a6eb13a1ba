//! What stands of an instance, as its view shows it.
ghost use Rattle.std.specs.Prelude.{◌≡◌, codes, string_bytes, IfOk, OnOk, option_map};
ghost use Rattle.serde_json.specs.View.{view, members_view};
ghost use Rattle.serde_json.specs.Data.{object, put as with_member, string};
ghost use Rattle.held_items.specs.Items.{AreInOrder};
ghost use Rattle.lcm_model.specs.Vnfcs.{storages_of};
ghost use Rattle.lcm_events.specs.declared.changes.DefKind.TheVariants.{Compute, Link, Storage};
ghost use Rattle.json_views.specs.Views.{array_of};
ghost use Rattle.json_views.specs.Resources.{aspect_levels, compute_info, handle, info_where, instantiated_info};
ghost use Rattle.json_views.specs.Resources.{link_info, link_name, machine_id, scale_info, standing, standing_storages};
ghost use Rattle.json_views.specs.Resources.{storage_id, storage_info, storage_name, vdu_name};

use crate::members::{put_array, put_text};
use crate::rows::{Computes, Levels, Links, Storages};
use crate::words::power_word;
use lcm_events::{AspectLevel, Holding, Vnfd};
use serde_json::{Map, Value, put};
use std::alloc::{AllocError, Global};

/// What stands of an instance, where it is INSTANTIATED.
///
/// Condition: what stands is in order of definition.
/// Source: SOL 003 5.5.2.2 (VnfInstance, instantiatedVnfInfo).
pub fn info_where(
    alloc: Global,
    vnfd: &Vnfd,
    holding: &Holding,
) -> Result<Option<Value>, AllocError>
    requires { AreInOrder holding.now.items }
    ensures { IfOk result (λ info. option_map view info ≡ info_where vnfd.now holding.now) }
{
    if holding.instantiated {
        Ok(Some(instantiated_info(alloc, vnfd, holding)?))
    } else {
        Ok(None)
    }
}

fn instantiated_info(alloc: Global, vnfd: &Vnfd, holding: &Holding) -> Result<Value, AllocError>
    requires { AreInOrder holding.now.items }
    ensures { IfOk result (λ value. view value ≡ instantiated_info vnfd.now holding.now) }
{
    let items = holding.items.as_slice();
    let mut members = Map::new(alloc);
    let points = Value::Array(Vec::new(alloc));
    put(&mut members, alloc, "extCpInfo", points)?;
    put_text(&mut members, alloc, "flavourId", vnfd.flavour_id.as_str())?;
    put_levels(&mut members, alloc, vnfd, holding)?;
    put_array(
        &mut members,
        alloc,
        "virtualStorageResourceInfo",
        items,
        &Storages { vnfd },
    )?;
    put_text(&mut members, alloc, "vnfState", power_word(holding.started))?;
    put_array(
        &mut members,
        alloc,
        "vnfVirtualLinkResourceInfo",
        items,
        &Links { vnfd },
    )?;
    put_array(
        &mut members,
        alloc,
        "vnfcResourceInfo",
        items,
        &Computes { vnfd, holding },
    )?;
    Ok(Value::Object(members))
}

/// Puts the levels of the aspects.
fn put_levels(
    members: &mut Map<String, Value>,
    alloc: Global,
    vnfd: &Vnfd,
    holding: &Holding,
) -> Result<(), AllocError>
    ensures { OnOk result (members_view members.new.entries
        ≡ with_member (codes "scaleStatus") (array_of scale_info (aspect_levels vnfd.now holding.now))
        (members_view members.old.entries)) }
{
    let levels = aspect_levels(alloc, vnfd, holding)?;
    put_array(members, alloc, "scaleStatus", levels.as_slice(), &Levels {})
}

/// The levels of the aspects, by name.
fn aspect_levels(
    alloc: Global,
    vnfd: &Vnfd,
    holding: &Holding,
) -> Result<Vec<AspectLevel>, AllocError>
    ensures { IfOk result (λ levels. levels.items ≡ aspect_levels vnfd.now holding.now) }
{
    let mut levels = Vec::new(alloc);
    for (aspect, level) in vnfd
        .aspects
        .as_slice()
        .iter()
        .zip(holding.levels.as_slice())
    {
        levels.push(AspectLevel {
            aspect: aspect.name,
            level: *level,
        })?;
    }
    Ok(levels)
}
