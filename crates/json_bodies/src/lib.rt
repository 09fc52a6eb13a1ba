//! What the body of a request says, read from JSON.
#![tactic(auto)]

mod body;
mod forms;
mod healing;
mod laws;
mod lists;
mod machines;
mod scaling;
mod stopping;
mod subscribing;
mod tasks;
mod words;

pub use body::{BodyFault, CreateBody, read_create};
pub use healing::{HealBody, read_heal};
pub use laws::{machines_are_read_back, the_first_failing_member_is_told};
pub use machines::machines_named;
pub use scaling::{ScaleBody, read_scale, read_scale_to_level};
pub use stopping::{OperateBody, TerminateBody, read_operate, read_terminate};
pub use subscribing::{AskedFilter, SubscriptionBody, read_subscription};
pub use tasks::{InstantiateBody, read_cancel, read_instantiate};
