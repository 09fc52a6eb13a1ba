//! The commands of the program: what each does, and how it ends.
#![tactic(auto)]

mod commands;
mod ending;
mod rounds;
mod totals;

pub use commands::obey;
pub use ending::{Ending, Failure, Report, finish};
pub use totals::Totals;
