//! The words of the command line: which are a command, and what they set.
#![tactic(auto)]

mod matches;
mod options;
mod shape;
mod words;

pub use options::{Command, Settings, SettingsFault};
pub use shape::{command_named, has_option, takes, value_of};
pub use words::settings;
