//! The table of occurrences: what the history says of each, kept event by event, so that a question costs one look-up.
#![tactic(auto)]

mod asks;
mod causes;
mod cells;
mod following;
mod going;
mod judges;
mod names;
mod needed;
mod ongoing;
mod pending;
mod phases;
mod resources;
mod rooms;
mod row_judges;
mod rows;
mod slots;
mod table;
mod used;
mod vnfds;

pub use asks::PackedAsk;
pub use causes::Cause;
pub use cells::Cells;
pub use names::PackedName;
pub use needed::work_is_on_what_is_needed;
pub use pending::{Pending, Pendings};
pub use phases::PHASES;
pub use rows::{Grant, OccRow};
pub use table::OccTable;
pub use used::{Used, Uses};
