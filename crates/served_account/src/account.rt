//! The account of a run's connections.
ghost use Rattle.std.specs.Prelude.{◌≡◌};
ghost use Rattle.served_account.specs.Beginning.{nothing_yet};

/// How the last hearing of a request ended.
#[derive(Clone, Copy)]
pub enum Hearing {
    /// No request was listened for yet.
    NotYet,
    /// A request was taken.
    Request,
    /// No byte was left, or the request before was the connection's last.
    End,
    /// The bytes that were left are no request.
    Malformed,
    /// The bytes that were left are a request beyond a limit.
    TooLarge,
    /// The bytes that were left end inside a request.
    Unfinished,
    /// A read failed.
    Unread,
    /// There was no memory for the request.
    NoMemory,
}

/// Where a document ends being JSON, as its parser has it: a line, from 1, and a column in it, in bytes.
#[derive(Clone, Copy)]
pub struct JsonBreak {
    /// The line.
    pub line: usize,
    /// The column.
    pub column: usize,
}

/// What was heard and answered, over all connections.
#[derive(Clone, Copy)]
pub struct Account {
    /// Requests whose replies were told whole; from 2^64 - 1 on it stays.
    pub answered: u64,
    /// How the last hearing ended.
    pub last: Hearing,
    /// Where a document that was read ends being JSON, if that was noted.
    pub broken: Option<JsonBreak>,
}

impl Account {
    /// Nothing was heard, and nothing was answered.
    ///
    /// Source: own rule.
    pub fn new() -> Account
        ensures { result ≡ nothing_yet }
    {
        Account {
            answered: 0,
            last: Hearing::NotYet,
            broken: None,
        }
    }
}
