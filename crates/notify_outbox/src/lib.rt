//! The outbox: the notices of each subscription, posted one after another until they are taken or given up.
#![tactic(auto)]

mod delivering;
mod faults;
mod laws;
mod posting;
mod reading;
mod rounds;

pub use delivering::deliver;
pub use faults::{Delivery, DeliveryFault};
pub use laws::{notices_go_in_order, notices_stay, notices_tell_of_what_stands};
pub use rounds::{Deliveries, deliver_all};
