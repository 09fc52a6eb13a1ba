//! What is wrong first with the parts of a document, and the descriptor that they are.
ghost use Rattle.std.specs.Prelude.{◌≡◌, ◌≤◌, IfOk, length, map};
ghost use Rattle.serde_json.specs.View.{view};
ghost use Rattle.vnfd_document.specs.Checks.{Gives, Refuses, fault_of};
ghost use Rattle.vnfd_document.specs.Order.{AllInOrder, InOrder};
ghost use Rattle.vnfd_document.specs.Seen.{seen};
ghost use Rattle.vnfd_nodes.specs.Nodes.{product_refusal};
ghost use Rattle.vnfd_nodes.specs.Seen.{nodes_seen};
ghost use Rattle.vnfd_reader.specs.Ordered.{ComeInOrder};
ghost use Rattle.vnfd_reader.specs.Answer.{document_answer, names_refusal, parts_answer, parts_refusal, product_of};
ghost use Rattle.vnfd_reader.specs.Answer.{vdus_of, vnfd_of};
ghost use Rattle.vnfd_policies.specs.ByType.{HaveAspects, HaveDeltas, HaveInitials, HaveLevels, HaveNumbers};

use crate::steps::refuse_steps;
use lcm_events::{Listed, Vdu, Vnfd};
use serde_json::Value;
use std::alloc::{AllocError, Global};
use vnfd_document::{Entry, VnfdFault, label, policies_in, templates_in};
use vnfd_nodes::{
    Templates, by_type, have_all_names, links, ports, property_of, refuse_counts, refuse_product,
    refuse_properties, refuse_templates, storages, vdu,
};
use vnfd_policies::{
    Policies, are_policy_names_given, aspects, default_level, initial, levels, policies_by_type,
    refuse_policies,
};

/// The descriptor that a document is.
#[tactic(auto, unfolding(crate::specs::Answer::document_answer))]
pub fn descriptor(alloc: Global, document: &Value) -> Result<Vnfd, VnfdFault>
    requires { InOrder (view document.now) }
    ensures { Gives result (document_answer (view document.now)) }
{
    let Some(templates) = templates_in(alloc, document)? else {
        return Err(VnfdFault::Lacks(label("node_templates")));
    };
    let nodes = by_type(alloc, templates.as_slice())?;
    let listed = policies_in(alloc, document)?;
    let policies = policies_by_type(alloc, listed)?;
    descriptor_of(alloc, &nodes, &policies)
}

/// The descriptor that node templates and policies are.
#[tactic(auto, unfolding(crate::specs::Answer::parts_answer, vnfd_policies::specs::Refusal::level_policies))]
fn descriptor_of(alloc: Global, nodes: &Templates, policies: &Policies) -> Result<Vnfd, VnfdFault>
    requires aspects { HaveAspects policies.now }
    requires deltas { HaveDeltas policies.now }
    requires initials { HaveInitials policies.now }
    requires levels { HaveLevels policies.now }
    requires numbers { HaveNumbers policies.now }
    requires nodes { ComeInOrder (nodes_seen nodes.now) }
    requires policies { AllInOrder (map seen policies.now.all.items) }
    ensures { Gives result (parts_answer (nodes_seen nodes.now) (map seen policies.now.all.items)) }
{
    let product = product_in(nodes.products.as_slice())?;
    refuse_parts(alloc, product, nodes, policies)?;
    let vnfd = built(alloc, product, nodes, policies)?;
    refuse_steps(
        alloc,
        &vnfd,
        nodes.vdus.as_slice(),
        policies.with_numbers.as_slice(),
    )?;
    Ok(vnfd)
}

/// The one template that describes the product.
fn product_in<'a>(products: &[Entry<'a>]) -> Result<&'a Value, VnfdFault>
    ensures only { fault_of result ≡ product_refusal (map seen products.now) }
    ensures found { IfOk result (λ product. view product.now ≡ product_of (map seen products.now)) }
{
    refuse_product(products)?;
    Ok(products[0].value)
}

/// The first thing that is wrong with node templates and policies, but for the numbers stated for levels.
fn refuse_parts(
    alloc: Global,
    product: &Value,
    nodes: &Templates,
    policies: &Policies,
) -> Result<(), VnfdFault>
    requires aspects { HaveAspects policies.now }
    requires deltas { HaveDeltas policies.now }
    requires initials { HaveInitials policies.now }
    requires levels { HaveLevels policies.now }
    requires product { view product.now ≡ product_of (map seen nodes.now.products.items) }
    ensures { Refuses result (parts_refusal (nodes_seen nodes.now) (map seen policies.now.all.items)) }
{
    refuse_properties(product)?;
    refuse_names(nodes, policies)?;
    refuse_counts(nodes)?;
    refuse_templates(alloc, nodes)?;
    refuse_policies(alloc, nodes.vdus.as_slice(), policies)
}

#[tactic(auto, unfolding(crate::specs::Answer::names_refusal))]
fn refuse_names(nodes: &Templates, policies: &Policies) -> Result<(), VnfdFault>
    requires aspects { HaveAspects policies.now }
    requires levels { HaveLevels policies.now }
    ensures { fault_of result ≡ names_refusal (nodes_seen nodes.now) (map seen policies.now.all.items) }
{
    if have_all_names(nodes) && are_policy_names_given(policies) {
        Ok(())
    } else {
        Err(VnfdFault::Wrong(label("name")))
    }
}

/// The descriptor that node templates and policies are, which were found to be as they should.
#[tactic(auto, unfolding(crate::specs::Answer::vnfd_of))]
fn built(
    alloc: Global,
    product: &Value,
    nodes: &Templates,
    policies: &Policies,
) -> Result<Vnfd, AllocError>
    requires aspects { HaveAspects policies.now }
    requires deltas { HaveDeltas policies.now }
    requires initials { HaveInitials policies.now }
    requires levels { HaveLevels policies.now }
    requires numbers { HaveNumbers policies.now }
    requires product { view product.now ≡ product_of (map seen nodes.now.products.items) }
    requires vdus { length nodes.now.vdus.items ≤ 64 }
    requires storages { length nodes.now.storages.items ≤ 128 }
    requires links { length nodes.now.links.items ≤ 64 }
    ensures { IfOk result (λ vnfd. vnfd ≡ vnfd_of (nodes_seen nodes.now) (map seen policies.now.all.items)) }
{
    let vdus = vdus(
        alloc,
        nodes.storages.as_slice(),
        policies,
        nodes.vdus.as_slice(),
    )?;
    let storages = storages(alloc, nodes.storages.as_slice())?;
    let links = links(alloc, nodes.links.as_slice())?;
    let ports = ports(
        alloc,
        nodes.vdus.as_slice(),
        nodes.links.as_slice(),
        nodes.ports.as_slice(),
    )?;
    let aspects = aspects(alloc, nodes.vdus.as_slice(), policies)?;
    let levels = levels(alloc, policies)?;
    let default_level = default_level(alloc, policies)?;
    Ok(Vnfd {
        descriptor_id: property_of(product, "descriptor_id"),
        provider: property_of(product, "provider"),
        product_name: property_of(product, "product_name"),
        software_version: property_of(product, "software_version"),
        descriptor_version: property_of(product, "descriptor_version"),
        flavour_id: property_of(product, "flavour_id"),
        vdus,
        storages,
        links,
        ports,
        aspects,
        levels,
        default_level,
    })
}

/// The VDUs that templates are, with the number of instances that the policies give each at first.
#[tactic(auto, unfolding(crate::specs::Answer::vdus_of))]
fn vdus(
    alloc: Global,
    storages: &[Entry],
    policies: &Policies,
    templates: &[Entry],
) -> Result<Listed<Vdu>, AllocError>
    requires initials { HaveInitials policies.now }
    requires levels { HaveLevels policies.now }
    requires numbers { HaveNumbers policies.now }
    requires storages { length storages.now ≤ 128 }
    ensures { IfOk result (λ found. found ≡ vdus_of (map seen storages.now) (map seen policies.now.all.items)
        (map seen templates.now)) }
{
    let mut found = Vec::new(alloc);
    for template in templates {
        let initial = initial(alloc, policies, template.name)?;
        found.push(vdu(alloc, storages, initial, template)?)?;
    }
    Ok(Listed::of(found))
}
