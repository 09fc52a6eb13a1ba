//! What becomes of a connection: its requests are answered one after the other, or its bytes are read as a descriptor,
//! which is judged by the history and recorded.
#![tactic(auto)]

mod answer;
mod hearing;
mod judge;
mod limits;
mod session;

pub use answer::{DescriptorRefusal, OnboardFault, Onboarded};
pub use hearing::onboard;
pub use judge::onboardings_may_be_recorded;
pub use limits::limits_are_fixed;
pub use session::{Closed, answer_session};
