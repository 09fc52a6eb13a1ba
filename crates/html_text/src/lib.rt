//! Texts within HTML: each byte that HTML gives a meaning is written as an entity, and elements nest.
#![tactic(auto)]

mod escaping;
mod html;
mod laws;
mod tags;

pub use escaping::escaped;
pub use html::{Html, Spot};
pub use laws::{escaped_texts_are_inert, pages_nest};
pub use tags::Tag;
