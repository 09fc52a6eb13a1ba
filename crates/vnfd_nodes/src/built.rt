//! The VDUs, storages, links and ports that node templates are.
ghost use Rattle.std.specs.Prelude.{◌≡◌, ◌≤◌, IfOk, false, length, map, option_and_then};
ghost use Rattle.std.specs.Option.{option_map_or};
ghost use Rattle.std.specs.Str.{bytes_eq};
ghost use Rattle.serde_json.specs.View.{view};
ghost use Rattle.vnfd_document.specs.Json.{whole};
ghost use Rattle.vnfd_document.specs.Names.{name_or_empty as the_name_or_empty};
ghost use Rattle.vnfd_document.specs.Places.{node_named as the_node_named};
ghost use Rattle.vnfd_document.specs.Seen.{seen};
ghost use Rattle.vnfd_nodes.specs.Built.{aimed_at as the_aimed_at, is_named as the_is_named, place_of as the_place_of};
ghost use Rattle.vnfd_nodes.specs.Built.{places_named as the_places_named, port_of, storage_of, vdu_of};
ghost use Rattle.vnfd_nodes.specs.Nodes.{cpus_at as the_cpus, maximum_at as the_maximum, memory_at as the_memory, size};
ghost use Rattle.vnfd_nodes.specs.Nodes.{size_at as the_size};

use crate::bounds::{CPUS, INSTANCES, NO_MAXIMUM};
use crate::members::{cpus_at, maximum_at, memory_at, size_at, size_of_value};
use lcm_events::{Listed, Names, Port, Storage, Vdu};
use serde_json::Value;
use std::alloc::{AllocError, Global};
use vnfd_document::{Entry, is_same_text, name_or_empty, node_named, required, whole_in};

#[tactic(auto, unfolding(crate::specs::Built::vdu_of))]
/// The VDU that a template is, with its number of instances at level 0 of every aspect.
///
/// Source: SOL 001, tosca.nodes.nfv.Vdu.Compute.
pub fn vdu(
    alloc: Global,
    storages: &[Entry],
    initial: u32,
    template: &Entry,
) -> Result<Vdu, AllocError>
    requires { length storages.now ≤ 128 }
    ensures { IfOk result (λ vdu. vdu ≡ vdu_of (map seen storages.now) initial (seen template.now)) }
{
    let aims = required(alloc, template.value, "virtual_storage")?;
    let numbers = places_named(alloc, storages, aims.as_slice())?;
    Ok(Vdu {
        name: name_or_empty(template.name),
        memory: memory_of(template.value).unwrap_or(0),
        cpus: cpus_of(template.value).unwrap_or(0),
        maximum: maximum_of(template.value).unwrap_or(NO_MAXIMUM),
        initial,
        storages: Listed::of(numbers),
    })
}

fn memory_of(vdu: &Value) -> Option<u64>
    ensures { result ≡ option_and_then size (the_memory (view vdu.now)) }
{
    size_of_value(memory_at(vdu)?)
}

fn cpus_of(vdu: &Value) -> Option<u32>
    ensures { result ≡ option_and_then (whole 1 65535) (the_cpus (view vdu.now)) }
{
    whole_in(1, CPUS, cpus_at(vdu)?)
}

fn maximum_of(vdu: &Value) -> Option<u32>
    ensures { result ≡ option_and_then (whole 0 65535) (the_maximum (view vdu.now)) }
{
    whole_in(0, INSTANCES, maximum_at(vdu)?)
}

fn size_of(storage: &Value) -> Option<u64>
    ensures { result ≡ option_and_then size (the_size (view storage.now)) }
{
    size_of_value(size_at(storage)?)
}

/// The places of those things that one of these values names, rising.
fn places_named(alloc: Global, things: &[Entry], aims: &[&Value]) -> Result<Vec<u16>, AllocError>
    requires { length things.now ≤ 128 }
    ensures { IfOk result (λ found. found.items ≡ the_places_named 0 (map seen things.now)
        (map (λ v. view v.now) aims.now)) }
{
    let mut found = Vec::new(alloc);
    for at in 0..things.len() {
        if is_named(things[at].name, aims) {
            found.push(at as u16)?;
        }
    }
    Ok(found)
}

/// Whether one of these values names the thing.
fn is_named(key: &str, aims: &[&Value]) -> bool
    ensures { result ≡ the_is_named key.now (map (λ v. view v.now) aims.now) }
{
    for aim in aims {
        if names(key, aim) {
            return true;
        }
    }
    false
}

fn names(key: &str, aim: &Value) -> bool
    ensures { result ≡ option_map_or (bytes_eq key.now) (the_node_named (view aim.now)) false }
{
    match node_named(aim) {
        Some(target) => is_same_text(key, target),
        None => false,
    }
}

/// The place of the thing with this name, of at most 64.
pub fn place_of(things: &[Entry], target: &str) -> Option<u16>
    requires { length things.now ≤ 64 }
    ensures { result ≡ the_place_of 0 (map seen things.now) target.now }
{
    for at in 0..things.len() {
        if is_same_text(target, things[at].name) {
            return Some(at as u16);
        }
    }
    None
}

/// The place of the thing that the first of these values names.
fn aimed_at(known: &[Entry], aims: &[&Value]) -> Option<u16>
    requires { length known.now ≤ 64 }
    ensures { result ≡ the_aimed_at (map seen known.now) (map (λ v. view v.now) aims.now) }
{
    if aims.is_empty() {
        return None;
    }
    place_of(known, node_named(aims[0])?)
}

#[tactic(auto, unfolding(crate::specs::Built::storage_of))]
/// The storages that templates are.
///
/// Source: SOL 001, tosca.nodes.nfv.Vdu.VirtualBlockStorage.
pub fn storages(alloc: Global, templates: &[Entry]) -> Result<Listed<Storage>, AllocError>
    ensures { IfOk result (λ found. found ≡ map storage_of (map seen templates.now)) }
{
    let mut found = Vec::new(alloc);
    for template in templates {
        found.push(Storage {
            name: name_or_empty(template.name),
            size: size_of(template.value).unwrap_or(0),
        })?;
    }
    Ok(Listed::of(found))
}

/// The links that templates are.
///
/// Source: SOL 001, tosca.nodes.nfv.VnfVirtualLink.
pub fn links(alloc: Global, templates: &[Entry]) -> Result<Names, AllocError>
    ensures { IfOk result (λ found. found ≡ map (λ x. the_name_or_empty x.0) (map seen templates.now)) }
{
    let mut found = Vec::new(alloc);
    for template in templates {
        found.push(name_or_empty(template.name))?;
    }
    Ok(Listed::of(found))
}

/// The ports that templates are.
///
/// Source: SOL 001, tosca.nodes.nfv.VduCp.
pub fn ports(
    alloc: Global,
    vdus: &[Entry],
    links: &[Entry],
    templates: &[Entry],
) -> Result<Listed<Port>, AllocError>
    requires vdus { length vdus.now ≤ 64 }
    requires links { length links.now ≤ 64 }
    ensures { IfOk result (λ found. found ≡ map (port_of (map seen vdus.now) (map seen links.now))
        (map seen templates.now)) }
{
    let mut found = Vec::new(alloc);
    for template in templates {
        let port = port(alloc, vdus, links, template)?;
        found.push(port)?;
    }
    Ok(Listed::of(found))
}

#[tactic(auto, unfolding(crate::specs::Built::port_of))]
fn port(
    alloc: Global,
    vdus: &[Entry],
    links: &[Entry],
    template: &Entry,
) -> Result<Port, AllocError>
    requires vdus { length vdus.now ≤ 64 }
    requires links { length links.now ≤ 64 }
    ensures { IfOk result (λ port. port ≡ port_of (map seen vdus.now) (map seen links.now) (seen template.now)) }
{
    let bound = required(alloc, template.value, "virtual_binding")?;
    let linked = required(alloc, template.value, "virtual_link")?;
    Ok(Port {
        name: name_or_empty(template.name),
        vdu: aimed_at(vdus, bound.as_slice()).unwrap_or(0),
        link: aimed_at(links, linked.as_slice()),
    })
}
