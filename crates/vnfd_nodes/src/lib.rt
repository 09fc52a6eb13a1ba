//! The node templates of a descriptor: what is wrong with them first, and the VDUs, storages, links and ports that they
//! are.
#![tactic(auto)]

mod bounds;
mod built;
mod members;
mod refusals;
mod sizes;
mod templates;

pub use bounds::limits;
pub use built::{links, place_of, ports, storages, vdu};
pub use members::property_of;
pub use refusals::{
    have_all_names, refuse_counts, refuse_product, refuse_properties, refuse_templates,
};
pub use sizes::size_in;
pub use templates::{Templates, by_type};
