//! What every check of a descriptor needs: the reasons of refusal, the JSON object that the bytes are, look-ups in it,
//! and checks of which the first that fails is answered.
#![tactic(auto)]

mod checks;
mod document;
mod entries;
mod fault;
mod look_ups;
mod names;
mod policies;
mod requirements;

pub use checks::{Check, first_of};
pub use document::{limits, read_document};
pub use entries::{Entry, members, members_in, of_type, only_member, templates_in};
pub use fault::VnfdFault;
pub use look_ups::{at, has_type, is_same_text, node_named, whole_in};
pub use names::{is_given, label, name_in, name_or_empty, unknown};
pub use policies::{policies_in, targets};
pub use requirements::required;
