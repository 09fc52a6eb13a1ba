//! The migration of a journal of format 1 to a file of the present format.
#![tactic(auto)]

mod laws;
mod migration;
mod packing;
mod reading;

pub use laws::old_files_have_one_history;
pub use migration::{MigrateFault, migrate};
pub use packing::{Full, Packing};
pub use reading::{Packed, read_packed};
