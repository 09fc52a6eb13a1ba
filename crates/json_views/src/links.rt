//! The links of an instance.
ghost use Rattle.std.specs.Prelude.{◌≡◌, ◌++◌, codes, IfOk, OnOk};
ghost use Rattle.serde_json.specs.Data.{put as with_member};
ghost use Rattle.serde_json.specs.View.{view, members_view};
ghost use Rattle.json_views.specs.Links.{active_links, idle_links, link, links, task_link};

use serde_json::{Map, Value, json, put};
use std::alloc::{AllocError, Global};

/// The links of the instance at this path, by its state.
///
/// Source: SOL 003 5.5.2.2 (VnfInstance).
pub fn links_value(alloc: Global, instantiated: bool, path: &str) -> Result<Value, AllocError>
    ensures { IfOk result (λ value. view value ≡ links instantiated path.now) }
{
    let members = if instantiated {
        active_links(alloc, path)?
    } else {
        idle_links(alloc, path)?
    };
    Ok(Value::Object(members))
}

fn idle_links(alloc: Global, path: &str) -> Result<Map<String, Value>, AllocError>
    ensures { IfOk result (λ members. members_view members.entries ≡ idle_links path.now) }
{
    let mut members = Map::new(alloc);
    put_task(&mut members, alloc, "instantiate", path, "instantiate")?;
    put_link(&mut members, alloc, "self", path)?;
    Ok(members)
}

fn active_links(alloc: Global, path: &str) -> Result<Map<String, Value>, AllocError>
    ensures { IfOk result (λ members. members_view members.entries ≡ active_links path.now) }
{
    let mut members = Map::new(alloc);
    put_task(&mut members, alloc, "heal", path, "heal")?;
    put_task(&mut members, alloc, "operate", path, "operate")?;
    put_task(&mut members, alloc, "scale", path, "scale")?;
    put_task(&mut members, alloc, "scaleToLevel", path, "scale_to_level")?;
    put_link(&mut members, alloc, "self", path)?;
    put_task(&mut members, alloc, "terminate", path, "terminate")?;
    Ok(members)
}

/// The link to a task of what is at this path.
pub fn task_link(alloc: Global, path: &str, task: &str) -> Result<Value, AllocError>
    ensures { IfOk result (λ value. view value ≡ task_link path.now task.now) }
{
    let mut target = String::from_str(alloc, path)?;
    target.push_str("/")?;
    target.push_str(task)?;
    link_value(alloc, target.as_str())
}

/// The link to a path.
pub fn link_value(alloc: Global, path: &str) -> Result<Value, AllocError>
    ensures { IfOk result (λ value. view value ≡ link path.now) }
{
    json!(in alloc; {"href": path})
}

/// Puts the link to a path.
pub fn put_link(
    members: &mut Map<String, Value>,
    alloc: Global,
    name: &str,
    path: &str,
) -> Result<(), AllocError>
    ensures { OnOk result (members_view members.new.entries
        ≡ with_member name.now (link path.now) (members_view members.old.entries)) }
{
    let link = link_value(alloc, path)?;
    put(members, alloc, name, link)
}

/// Puts the link to a task of what is at this path.
pub fn put_task(
    members: &mut Map<String, Value>,
    alloc: Global,
    name: &str,
    path: &str,
    task: &str,
) -> Result<(), AllocError>
    ensures { OnOk result (members_view members.new.entries
        ≡ with_member name.now (task_link path.now task.now) (members_view members.old.entries)) }
{
    let link = task_link(alloc, path, task)?;
    put(members, alloc, name, link)
}
