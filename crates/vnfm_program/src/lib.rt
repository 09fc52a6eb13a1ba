//! The program: from the words of the command line to a run over the file that they name, and to the words that say how
//! it went.
#![tactic(auto)]

mod door;
mod machine;
mod opening;
mod output;
mod program;
mod words;

pub use door::AnswerDoor;
pub use machine::Machine;
pub use program::start;
pub use words::settings_in;
