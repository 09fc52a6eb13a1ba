//! What a person sees of the program beside its own lines: the texts of `--help` and `--version`, and why a run ended
//! as it did.
#![tactic(auto)]

mod page;
mod reason;
mod wrong;

pub use page::{Page, page_of};
pub use reason::{Kind, Reason, kind_of, reason_of};
pub use wrong::{Wrong, wrong_of};
