//! The node templates by type.
ghost use Rattle.std.specs.Prelude.{◌≡◌, IfOk, map};
ghost use Rattle.vnfd_document.specs.Seen.{seen};
ghost use Rattle.vnfd_nodes.specs.Nodes.{nodes_in, products_in};
ghost use Rattle.vnfd_nodes.specs.Seen.{nodes_seen};

use std::alloc::{AllocError, Global};
use vnfd_document::{Entry, at, of_type};

/// The node templates of a descriptor by type, in byte order of their names.
#[derive(Drop)]
pub struct Templates<'a> {
    /// Those with a property `descriptor_id`.
    pub products: Vec<Entry<'a>>,
    /// tosca.nodes.nfv.Vdu.Compute.
    pub vdus: Vec<Entry<'a>>,
    /// tosca.nodes.nfv.Vdu.VirtualBlockStorage.
    pub storages: Vec<Entry<'a>>,
    /// tosca.nodes.nfv.VnfVirtualLink.
    pub links: Vec<Entry<'a>>,
    /// tosca.nodes.nfv.VduCp.
    pub ports: Vec<Entry<'a>>,
}

/// These templates by type; others are passed over.
///
/// Source: SOL 001, node types.
pub fn by_type<'a>(alloc: Global, templates: &[Entry<'a>]) -> Result<Templates<'a>, AllocError>
    ensures { IfOk result (λ found. nodes_seen found ≡ nodes_in (map seen templates.now)) }
{
    let products = described(alloc, templates)?;
    let vdus = of_type(alloc, templates, "tosca.nodes.nfv.Vdu.Compute")?;
    let storages = of_type(alloc, templates, "tosca.nodes.nfv.Vdu.VirtualBlockStorage")?;
    let links = of_type(alloc, templates, "tosca.nodes.nfv.VnfVirtualLink")?;
    let ports = of_type(alloc, templates, "tosca.nodes.nfv.VduCp")?;
    Ok(Templates {
        products,
        vdus,
        storages,
        links,
        ports,
    })
}

/// The templates with a property `descriptor_id`.
fn described<'a>(alloc: Global, templates: &[Entry<'a>]) -> Result<Vec<Entry<'a>>, AllocError>
    ensures { IfOk result (λ found. map seen found.items ≡ products_in (map seen templates.now)) }
{
    let mut found = Vec::new(alloc);
    for template in templates {
        if at(template.value, &["properties", "descriptor_id"]).is_some() {
            found.push(*template)?;
        }
    }
    Ok(found)
}
