//! What the target of a request names: the resource, the identifier in its path and the query.
#![tactic(auto)]

mod resources;
mod table;
mod targets;

pub use resources::Resource;
pub use table::Routes;
pub use targets::{asks_filter, identifier_in, path_of, query_of};
