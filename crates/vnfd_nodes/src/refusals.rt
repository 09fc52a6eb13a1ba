//! The first thing that is wrong with the node templates, check after check.
ghost use Rattle.std.specs.Prelude.{◌≡◌, codes, map, true};
ghost use Rattle.serde_json.specs.View.{view};
ghost use Rattle.vnfd_document.specs.Checks.{Refuses, fault_of};
ghost use Rattle.vnfd_document.specs.Json.{whole};
ghost use Rattle.vnfd_document.specs.Members.{needed};
ghost use Rattle.vnfd_document.specs.Places.{node_named as the_node_named};
ghost use Rattle.vnfm_base.specs.Text.{is_label};
ghost use Rattle.vnfd_document.specs.Seen.{seen};
ghost use Rattle.vnfd_nodes.specs.Seen.{nodes_seen};
ghost use Rattle.vnfd_nodes.specs.Nodes.{aim_refusal, aims_refusal, binding_refusal, compute_refusal, computes_refusal};
ghost use Rattle.vnfd_nodes.specs.Nodes.{empties_refusal, maxima_refusal, missing_refusal, ports_refusal};
ghost use Rattle.vnfd_nodes.specs.Nodes.{sizes_refusal, storage_refusal, cpus_at as the_cpus, memory_at as the_memory};
ghost use Rattle.vnfd_nodes.specs.Nodes.{size, count_refusal, counts_refusal, empty_refusal};
ghost use Rattle.vnfd_nodes.specs.Nodes.{have_names as names_are_given, have_all_names as all_names_are_given};
ghost use Rattle.vnfd_nodes.specs.Nodes.{is_known as the_known, maximum_refusal, port_refusal, product_refusal};
ghost use Rattle.vnfd_nodes.specs.Nodes.{properties_refusal, property_refusal, size_refusal, storages_refusal};
ghost use Rattle.vnfd_nodes.specs.Nodes.{templates_refusal};

use crate::bounds::{CPUS, INSTANCES, LINKS, PORTS, STORAGES, VDUS};
use crate::members::{
    cpus_at, maximum_at, memory_at, name_of_value, property_at, property_of, size_at, size_of_value,
};
use crate::templates::Templates;
use serde_json::Value;
use std::alloc::Global;
use vnfd_document::{
    Check, Entry, VnfdFault, first_of, is_given, is_same_text, label, node_named, required,
    unknown, whole_in,
};

/// Exactly one template describes the product.
pub fn refuse_product(products: &[Entry]) -> Result<(), VnfdFault>
    ensures { fault_of result ≡ product_refusal (map seen products.now) }
{
    match products.len() {
        0 => Err(VnfdFault::Lacks(label("descriptor_id"))),
        1 => Ok(()),
        _ => Err(VnfdFault::Wrong(label("descriptor_id"))),
    }
}

/// The product's properties are there and names; the identifiers of the descriptor and its flavour aren't empty.
pub fn refuse_properties(product: &Value) -> Result<(), VnfdFault>
    ensures { fault_of result ≡ properties_refusal (view product.now) }
{
    refuse_missing(product)?;
    refuse_empties(product)
}

#[tactic(auto, unfolding(crate::specs::Nodes::missing_refusal))]
fn refuse_missing(product: &Value) -> Result<(), VnfdFault>
    ensures { fault_of result ≡ missing_refusal (view product.now) }
{
    refuse_property(product, "descriptor_id")?;
    refuse_property(product, "provider")?;
    refuse_property(product, "product_name")?;
    refuse_property(product, "software_version")?;
    refuse_property(product, "descriptor_version")?;
    refuse_property(product, "flavour_id")
}

#[tactic(auto, unfolding(crate::specs::Nodes::empties_refusal))]
fn refuse_empties(product: &Value) -> Result<(), VnfdFault>
    ensures { fault_of result ≡ empties_refusal (view product.now) }
{
    refuse_empty(product, "descriptor_id")?;
    refuse_empty(product, "flavour_id")
}

fn refuse_property(product: &Value, key: &str) -> Result<(), VnfdFault>
    requires { is_label key.now ≡ true }
    ensures { fault_of result ≡ property_refusal (view product.now) key.now }
{
    let Some(found) = property_at(product, key) else {
        return Err(VnfdFault::Lacks(label(key)));
    };
    if name_of_value(found).is_none() {
        return Err(VnfdFault::Wrong(label(key)));
    }
    Ok(())
}

fn refuse_empty(product: &Value, key: &str) -> Result<(), VnfdFault>
    requires { is_label key.now ≡ true }
    ensures { fault_of result ≡ empty_refusal (view product.now) key.now }
{
    if property_of(product, key).is_empty() {
        return Err(VnfdFault::Wrong(label(key)));
    }
    Ok(())
}

/// Whether the names of these templates are names that aren't empty.
fn have_names(templates: &[Entry]) -> bool
    ensures { result ≡ names_are_given (map seen templates.now) }
{
    for template in templates {
        if !is_given(template.name) {
            return false;
        }
    }
    true
}

/// There are at most so many.
fn refuse_count(what: &str, most: usize, templates: &[Entry]) -> Result<(), VnfdFault>
    requires { is_label what.now ≡ true }
    ensures { fault_of result ≡ count_refusal what.now most (map seen templates.now) }
{
    if templates.len() > most {
        return Err(VnfdFault::TooMany(label(what)));
    }
    Ok(())
}

/// A VDU's memory is a size, and its processors are from 1 to 65,535.
#[derive(Drop)]
struct ComputeCheck;

impl Check for ComputeCheck {
    ghost says = { λ check thing. compute_refusal thing };

    #[tactic(auto, unfolding(crate::specs::Nodes::compute_refusal))]
    fn check(&self, thing: &Entry) -> Result<(), VnfdFault> {
        refuse_memory(thing.value)?;
        refuse_cpus(thing.value)
    }
}

fn refuse_memory(vdu: &Value) -> Result<(), VnfdFault>
    ensures { fault_of result ≡ needed (codes "virtual_mem_size") size (the_memory (view vdu.now)) }
{
    let Some(found) = memory_at(vdu) else {
        return Err(VnfdFault::Lacks(label("virtual_mem_size")));
    };
    if size_of_value(found).is_none() {
        return Err(VnfdFault::Wrong(label("virtual_mem_size")));
    }
    Ok(())
}

fn refuse_cpus(vdu: &Value) -> Result<(), VnfdFault>
    ensures { fault_of result ≡ needed (codes "num_virtual_cpu") (whole 1 65535) (the_cpus (view vdu.now)) }
{
    let Some(found) = cpus_at(vdu) else {
        return Err(VnfdFault::Lacks(label("num_virtual_cpu")));
    };
    if whole_in(1, CPUS, found).is_none() {
        return Err(VnfdFault::Wrong(label("num_virtual_cpu")));
    }
    Ok(())
}

/// A VDU's maximum, where there is one, is a whole number to 65,535.
#[derive(Drop)]
struct MaximumCheck;

impl Check for MaximumCheck {
    ghost says = { λ check thing. maximum_refusal thing };

    fn check(&self, thing: &Entry) -> Result<(), VnfdFault> {
        let Some(found) = maximum_at(thing.value) else {
            return Ok(());
        };
        if whole_in(0, INSTANCES, found).is_none() {
            return Err(VnfdFault::Wrong(label("max_number_of_instances")));
        }
        Ok(())
    }
}

/// A storage's size, where there is one, is a size.
#[derive(Drop)]
struct SizeCheck;

impl Check for SizeCheck {
    ghost says = { λ check thing. size_refusal thing };

    fn check(&self, thing: &Entry) -> Result<(), VnfdFault> {
        let Some(found) = size_at(thing.value) else {
            return Ok(());
        };
        if size_of_value(found).is_none() {
            return Err(VnfdFault::Wrong(label("size_of_storage")));
        }
        Ok(())
    }
}

/// Whether one of these has this name.
fn is_known(things: &[Entry], target: &str) -> bool
    ensures { result ≡ the_known (map seen things.now) target.now }
{
    for thing in things {
        if is_same_text(target, thing.name) {
            return true;
        }
    }
    false
}

/// What a requirement aims at is one of these.
fn refuse_aim(known: &[Entry], requirement: &Value) -> Result<(), VnfdFault>
    ensures { fault_of result ≡ aim_refusal (map seen known.now) (the_node_named (view requirement.now)) }
{
    let Some(target) = node_named(requirement) else {
        return Err(VnfdFault::Wrong(label("name")));
    };
    if is_known(known, target) {
        Ok(())
    } else {
        Err(unknown(target))
    }
}

/// What these requirements aim at is among these.
#[tactic(auto, unfolding(crate::specs::Nodes::aims_refusal))]
fn refuse_aims(known: &[Entry], requirements: &[&Value]) -> Result<(), VnfdFault>
    ensures { fault_of result ≡ aims_refusal (map seen known.now) (map (λ v. view v.now) requirements.now) }
{
    for requirement in requirements {
        refuse_aim(known, requirement)?;
    }
    Ok(())
}

/// A VDU's storages are storages.
fn refuse_storage(alloc: Global, storages: &[Entry], vdu: &Entry) -> Result<(), VnfdFault>
    ensures { Refuses result (storage_refusal (map seen storages.now) (seen vdu.now)) }
{
    let requirements = required(alloc, vdu.value, "virtual_storage")?;
    refuse_aims(storages, requirements.as_slice())
}

/// A port's VDU is known, and its link, where it has one.
#[tactic(auto, unfolding(crate::specs::Nodes::port_refusal))]
fn refuse_port(
    alloc: Global,
    vdus: &[Entry],
    links: &[Entry],
    port: &Entry,
) -> Result<(), VnfdFault>
    ensures { Refuses result (port_refusal (map seen vdus.now) (map seen links.now) (seen port.now)) }
{
    let bindings = required(alloc, port.value, "virtual_binding")?;
    refuse_bindings(vdus, bindings.as_slice())?;
    let linked = required(alloc, port.value, "virtual_link")?;
    refuse_aims(links, linked.as_slice())
}

/// A port is bound to something, and what it is bound to is known.
#[tactic(auto, unfolding(crate::specs::Nodes::binding_refusal))]
fn refuse_bindings(vdus: &[Entry], bindings: &[&Value]) -> Result<(), VnfdFault>
    ensures { fault_of result ≡ binding_refusal (map seen vdus.now) (map (λ v. view v.now) bindings.now) }
{
    if bindings.is_empty() {
        return Err(VnfdFault::Lacks(label("virtual_binding")));
    }
    refuse_aims(vdus, bindings)
}

#[tactic(auto, unfolding(crate::specs::Nodes::have_all_names))]
/// Whether the names of the VDUs, storages, links and ports are names that aren't empty.
pub fn have_all_names(nodes: &Templates) -> bool
    ensures { result ≡ all_names_are_given (nodes_seen nodes.now) }
{
    have_names(nodes.vdus.as_slice())
        && have_names(nodes.storages.as_slice())
        && have_names(nodes.links.as_slice())
        && have_names(nodes.ports.as_slice())
}

#[tactic(auto, unfolding(crate::specs::Nodes::counts_refusal))]
/// There are at most 64 VDUs, 128 storages, 64 links and 256 ports.
pub fn refuse_counts(nodes: &Templates) -> Result<(), VnfdFault>
    ensures { fault_of result ≡ counts_refusal (nodes_seen nodes.now) }
{
    refuse_count("vdus", VDUS, nodes.vdus.as_slice())?;
    refuse_count("storages", STORAGES, nodes.storages.as_slice())?;
    refuse_count("links", LINKS, nodes.links.as_slice())?;
    refuse_count("ports", PORTS, nodes.ports.as_slice())
}

/// The VDUs, storages and ports are as they should be, check after check, and within a check template after template.
pub fn refuse_templates(alloc: Global, nodes: &Templates) -> Result<(), VnfdFault>
    ensures { Refuses result (templates_refusal (nodes_seen nodes.now)) }
{
    refuse_computes(nodes)?;
    refuse_maxima(nodes)?;
    refuse_storages(alloc, nodes)?;
    refuse_sizes(nodes)?;
    refuse_ports(alloc, nodes)
}

#[tactic(auto, unfolding(crate::specs::Nodes::computes_refusal))]
fn refuse_computes(nodes: &Templates) -> Result<(), VnfdFault>
    ensures { fault_of result ≡ computes_refusal (nodes_seen nodes.now) }
{
    first_of(nodes.vdus.as_slice(), &ComputeCheck)
}

#[tactic(auto, unfolding(crate::specs::Nodes::maxima_refusal))]
fn refuse_maxima(nodes: &Templates) -> Result<(), VnfdFault>
    ensures { fault_of result ≡ maxima_refusal (nodes_seen nodes.now) }
{
    first_of(nodes.vdus.as_slice(), &MaximumCheck)
}

#[tactic(auto, unfolding(crate::specs::Nodes::storages_refusal))]
fn refuse_storages(alloc: Global, nodes: &Templates) -> Result<(), VnfdFault>
    ensures { Refuses result (storages_refusal (nodes_seen nodes.now)) }
{
    let storages = nodes.storages.as_slice();
    for vdu in nodes.vdus.as_slice() {
        refuse_storage(alloc, storages, vdu)?;
    }
    Ok(())
}

#[tactic(auto, unfolding(crate::specs::Nodes::sizes_refusal))]
fn refuse_sizes(nodes: &Templates) -> Result<(), VnfdFault>
    ensures { fault_of result ≡ sizes_refusal (nodes_seen nodes.now) }
{
    first_of(nodes.storages.as_slice(), &SizeCheck)
}

#[tactic(auto, unfolding(crate::specs::Nodes::ports_refusal))]
fn refuse_ports(alloc: Global, nodes: &Templates) -> Result<(), VnfdFault>
    ensures { Refuses result (ports_refusal (nodes_seen nodes.now)) }
{
    let vdus = nodes.vdus.as_slice();
    let links = nodes.links.as_slice();
    for port in nodes.ports.as_slice() {
        refuse_port(alloc, vdus, links, port)?;
    }
    Ok(())
}
