//! The door at two addresses: the whole requests of many clients come as the bytes of one connection, and each answer
//! goes to the client whose request it is of. It waits in the kernel for all of them at once, at most until a round is
//! due.
#![tactic(auto)]

mod gathering_door;
mod yard;

pub use gathering_door::GatheringDoor;
pub use yard::{Begun, Yard};
