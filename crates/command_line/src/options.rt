//! What the words of the command line set.
use lcm_events::Role;
use thiserror::Error;
use vnfm_base::Text;

/// A command.
#[derive(Clone, Copy, Debug)]
pub enum Command {
    /// Makes a journal.
    Init,
    /// Onboards the descriptor on standard input.
    Onboard,
    /// Answers the requests on standard input.
    Once,
    /// Answers the requests that come at two addresses.
    Serve,
    /// Counts what a journal has.
    Check,
    /// Makes a journal of the present format of one of format 1.
    Migrate,
    /// Plays requests drawn from a number over objects in memory.
    Trial,
}

/// What the words set; empty or 0 where the command lacks it.
#[derive(Drop)]
pub struct Settings {
    /// The command.
    pub command: Command,
    /// The path of the journal's file.
    pub journal: Text,
    /// The manager's number.
    pub manager: u32,
    /// Who asks on the connections.
    pub role: Role,
    /// How many rounds are made.
    pub rounds: u32,
    /// The address for the orchestrator's requests; empty but for `serve`.
    pub listen: Text,
    /// The address for the element manager's requests; empty but for `serve`.
    pub em_listen: Text,
    /// Where grants are to be asked for; empty where nothing is. An address or http URL.
    pub orchestrator: Text,
    /// Where the infrastructure is; empty where nothing is. A literal address:port.
    pub vim: Text,
    /// Where the journal is migrated to; empty but for `migrate`.
    pub to: Text,
    /// The number that the requests of a trial are drawn from.
    pub start: u64,
    /// How many steps a trial has, at most 2,000.
    pub count: u32,
}

/// Why the words set nothing.
#[derive(Debug, Drop, Error)]
pub enum SettingsFault {
    /// They are no command.
    #[error("usage")]
    Usage,
    /// There is no memory for the settings.
    #[error("no memory")]
    Memory,
}
