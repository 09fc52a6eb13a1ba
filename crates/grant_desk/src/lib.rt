//! Grants: what is asked of the orchestrator, what it answers, and whether the answer covers what was asked.
#![tactic(auto)]

mod answers;
mod covering;
mod entries;
mod grant_all;
mod grants;
mod identifiers;
mod parts;
mod places;
mod placing;
mod requests;
mod rows;
mod tallies;

pub use answers::{GrantAnswer, read_answer};
pub use covering::covers;
pub use grant_all::{GrantAll, requests_are_granted};
pub use placing::{Placing, places_of};
pub use requests::{GrantAsker, grant_body};
pub use rows::{GrantRow, GrantRows};
