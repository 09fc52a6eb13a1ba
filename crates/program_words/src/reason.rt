//! Why a run ended as it did, for a person.
ghost use Rattle.std.specs.Prelude.{◌≡◌, ◌++◌, IfOk, Some, codes, decimal, drop, option_map, slice_get};
ghost use Rattle.std.specs.String.{string_bytes};
ghost use Rattle.program_words.specs.Lines.{IsAboutJournal, IsAboutPath, IsAboutSpare, IsAboutValue, IsAboutWord};
ghost use Rattle.program_words.specs.Lines.{IsLineOf, IsLineOn, IsNoJournalLine, IsNoValueOf, IsRoomLine, IsTakenLine};
ghost use Rattle.program_words.specs.Lines.{IsWrongLine, are_to_migrate, descriptor_line, lost_text, no_folder_text};
ghost use Rattle.program_words.specs.Lines.{path_in, path_to, plain_line, unanswered_line, unanswered_text, wanted_by};
ghost use Rattle.program_words.specs.Reasons.{delivery_reason, done_reason, door_reason, hearing_reason, kind_of};
ghost use Rattle.program_words.specs.Reasons.{lost_reason, reason_of, site_reason};
ghost use Rattle.program_words.specs.Wrong.{wrong_of};

use crate::wrong::{Wrong, wrong_of};
use command_line::value_of;
use outside_edges::WhyLost;
use served_account::{Account, Hearing, JsonBreak};
use std::alloc::{AllocError, Global};
use vnfm_base::Text;

/// What a descriptor that is no JSON may be, and how JSON is made of it.
const ADVICE: &str =
    "no byte order mark may stand in front, and YAML isn't read, of which JSON is made by \
    python3 -c 'import json, sys, yaml; json.dump(yaml.safe_load(sys.stdin), sys.stdout, default=str)'";

/// What a file is where a command wants a journal, and how one of format 1 is carried over.
const NO_JOURNAL: &str =
    "it is not a journal that init has finished; one of format 1, whose header differs first at byte 8, is carried \
    over by vnfm migrate --journal PATH --to NEWPATH";

/// What kind of run words are for, as far as what is said of its end goes.
#[derive(Clone, Copy)]
pub enum Kind {
    /// One that serves the connections at two addresses.
    Serving,
    /// A trial.
    Trying,
    /// Another.
    Other,
}

/// What kind of run these words are for, by the command's name.
pub fn kind_of(words: &[Text]) -> Kind
    ensures { result ≡ kind_of words.now }
{
    let [name, ..] = words else {
        return Kind::Other;
    };
    match name.as_str() {
        "serve" => Kind::Serving,
        "trial" => Kind::Trying,
        _ => Kind::Other,
    }
}

/// Why a run ended as it did, where there is something to say.
#[derive(Clone, Copy)]
pub enum Reason {
    /// The words couldn't be read.
    Illegible,
    /// A word wasn't understood, or some are missing.
    Words,
    /// The journal's file couldn't be had, or a call on it failed, for this cause.
    Lost(WhyLost),
    /// The file to which the journal goes couldn't be had, or a call on it failed, for this cause.
    LostSpare(WhyLost),
    /// The null device couldn't be opened, and so no file was.
    NoDevice,
    /// Standard input couldn't be read.
    Input,
    /// No connection can be had at the addresses.
    Addresses,
    /// A trial's journal passes its room.
    TrialRoom,
    /// No journal of the format that the command reads stands at the path.
    NoJournal,
    /// There was no memory.
    NoMemory,
    /// The line couldn't be written.
    Output,
    /// The journal has a bad record.
    Record,
    /// The journal has no room, or that to which it goes has too little.
    Room,
    /// The descriptor was refused; where it ends being JSON, if it does.
    Descriptor(Option<JsonBreak>),
    /// The file isn't one in which a journal is made.
    Taken,
    /// The answer couldn't be delivered.
    Undelivered,
    /// Standard input had no request.
    NoRequest,
    /// So many requests were answered, and the bytes behind them weren't.
    Unanswered {
        /// How many.
        answered: u64,
        /// How the last hearing ended.
        last: Hearing,
    },
}

/// What is to be said of a run of this kind with this status, by why the file was lost, and the one to which the journal
/// goes, whether the answer was, and what was heard and answered.
///
/// Source: own rule, docs/FORMATS.md, "The program".
pub fn reason_of(
    kind: Kind,
    status: u8,
    lost: Option<WhyLost>,
    spare: Option<WhyLost>,
    undelivered: bool,
    account: Account,
) -> Option<Reason>
    ensures { result ≡ reason_of kind status lost spare undelivered account }
{
    match status {
        0 => done_reason(kind, undelivered, account),
        2 => Some(Reason::Words),
        3 => Some(site_reason(kind, lost, spare)),
        4 => Some(door_reason(kind)),
        5 => Some(Reason::NoJournal),
        6 => Some(Reason::NoMemory),
        7 => Some(Reason::Output),
        8 => Some(Reason::Record),
        9 => Some(Reason::Room),
        10 => Some(Reason::Descriptor(account.broken)),
        11 => Some(Reason::Taken),
        _ => None,
    }
}

/// What is to be said of a run of this kind that did its work.
fn done_reason(kind: Kind, undelivered: bool, account: Account) -> Option<Reason>
    ensures { result ≡ done_reason kind undelivered account }
{
    match kind {
        Kind::Serving => None,
        Kind::Trying | Kind::Other => delivery_reason(undelivered, account),
    }
}

/// What is to be said where the site failed a run of this kind.
fn site_reason(kind: Kind, lost: Option<WhyLost>, spare: Option<WhyLost>) -> Reason
    ensures { result ≡ site_reason kind lost spare }
{
    match kind {
        Kind::Trying => Reason::TrialRoom,
        Kind::Serving | Kind::Other => lost_reason(lost, spare),
    }
}

/// What is to be said where the door failed a run of this kind.
fn door_reason(kind: Kind) -> Reason
    ensures { result ≡ door_reason kind }
{
    match kind {
        Kind::Serving => Reason::Addresses,
        Kind::Trying | Kind::Other => Reason::Input,
    }
}

/// What is to be said of a run that answered one connection.
fn delivery_reason(undelivered: bool, account: Account) -> Option<Reason>
    ensures { result ≡ delivery_reason undelivered account }
{
    if undelivered {
        Some(Reason::Undelivered)
    } else {
        hearing_reason(account.answered, account.last)
    }
}

/// What is to be said where so many requests were answered, by how the last hearing ended.
fn hearing_reason(answered: u64, last: Hearing) -> Option<Reason>
    ensures { result ≡ hearing_reason answered last }
{
    match last {
        Hearing::NotYet | Hearing::Request => None,
        Hearing::End => {
            if answered == 0 {
                Some(Reason::NoRequest)
            } else {
                None
            }
        }
        Hearing::Malformed
        | Hearing::TooLarge
        | Hearing::Unfinished
        | Hearing::Unread
        | Hearing::NoMemory => Some(Reason::Unanswered { answered, last }),
    }
}

/// What is to be said where a disk call failed.
fn lost_reason(lost: Option<WhyLost>, spare: Option<WhyLost>) -> Reason
    ensures { result ≡ lost_reason lost spare }
{
    match (lost, spare) {
        (Some(why), _) => Reason::Lost(why),
        (None, Some(why)) => Reason::LostSpare(why),
        (None, None) => Reason::NoDevice,
    }
}

impl Reason {
    /// The line that says it, of a run with these words.
    ///
    /// Its one refusal is want of memory.
    /// Source: own rule, docs/FORMATS.md, "The program".
    pub fn line(self, alloc: Global, words: &[Text]) -> Result<String, AllocError>
        ensures { IfOk result (λ line. IsLineOf self words.now (string_bytes line)) }
    {
        match self {
            Reason::Illegible => plain(
                alloc,
                "a word isn't UTF-8, so none of them counts; vnfm --help says more",
            ),
            Reason::Words => wrong_line(alloc, words),
            Reason::Lost(why) => about_journal(alloc, words, lost_text(why, path_in(words))),
            Reason::LostSpare(why) => about_spare(alloc, words, lost_text(why, path_to(words))),
            Reason::NoDevice => plain(
                alloc,
                "/dev/null couldn't be opened, which holds the places of closed standard streams",
            ),
            Reason::Input => plain(alloc, "standard input couldn't be read"),
            Reason::Addresses => plain(
                alloc,
                "no connection can be had at the addresses of --listen and --em-listen",
            ),
            Reason::TrialRoom => plain(
                alloc,
                "the journal of this trial would be longer than its room of 67108864 bytes",
            ),
            Reason::NoJournal => no_journal_line(alloc, words),
            Reason::NoMemory => plain(alloc, "there was no memory"),
            Reason::Output => plain(alloc, "the last line couldn't be written"),
            Reason::Record => about_journal(
                alloc,
                words,
                "it has a record that is broken or isn't allowed there",
            ),
            Reason::Room => room_line(alloc, words),
            Reason::Descriptor(at) => descriptor_line(alloc, at),
            Reason::Taken => taken_line(alloc, words),
            Reason::Undelivered => plain(
                alloc,
                "the answer couldn't be delivered; what it says is recorded",
            ),
            Reason::NoRequest => plain(alloc, "standard input had no request"),
            Reason::Unanswered { answered, last } => {
                unanswered_line(alloc, answered, unanswered_text(last))
            }
        }
    }
}

/// The line of a file that is no journal.
fn no_journal_line(alloc: Global, words: &[Text]) -> Result<String, AllocError>
    ensures { IfOk result (λ line. IsNoJournalLine (are_to_migrate words.now) words.now (string_bytes line)) }
{
    if are_to_migrate(words) {
        about_journal(alloc, words, "no journal of format 1 stands there")
    } else {
        about_journal(alloc, words, NO_JOURNAL)
    }
}

/// The line of a journal that has no room.
fn room_line(alloc: Global, words: &[Text]) -> Result<String, AllocError>
    ensures { IfOk result (λ line. IsRoomLine (are_to_migrate words.now) words.now (string_bytes line)) }
{
    if are_to_migrate(words) {
        about_spare(
            alloc,
            words,
            "a journal of the present format would be longer than one may be",
        )
    } else {
        about_journal(alloc, words, "it has no room for what was to be recorded")
    }
}

/// The line of a file that is taken.
fn taken_line(alloc: Global, words: &[Text]) -> Result<String, AllocError>
    ensures { IfOk result (λ line. IsTakenLine (are_to_migrate words.now) words.now (string_bytes line)) }
{
    if are_to_migrate(words) {
        about_spare(
            alloc,
            words,
            "it is not an unfinished journal of the same manager; give another path, or move it away",
        )
    } else {
        about_journal(
            alloc,
            words,
            "it is a journal already, or no file of this program's; give another path, or move it away",
        )
    }
}

/// Whether the words are those of `migrate`.
fn are_to_migrate(words: &[Text]) -> bool
    ensures { result ≡ are_to_migrate words.now }
{
    match words {
        [] => false,
        [name, ..] => name.as_str() == "migrate",
    }
}

/// The line of a descriptor that is refused.
fn descriptor_line(alloc: Global, at: Option<JsonBreak>) -> Result<String, AllocError>
    ensures { IfOk result (λ line. string_bytes line ≡ descriptor_line at) }
{
    match at {
        Some(JsonBreak { line, column }) => broken_line(alloc, line, column, ADVICE),
        None => plain(alloc, "the descriptor is not taken"),
    }
}

/// The line of a descriptor that ends being JSON there.
fn broken_line(
    alloc: Global,
    line: usize,
    column: usize,
    advice: &str,
) -> Result<String, AllocError>
    ensures { IfOk result (λ text. string_bytes text
        ≡ codes "vnfm: the descriptor is not taken: it is no JSON from line " ++ (decimal line
        ++ (codes ", column " ++ (decimal column ++ (codes " on; " ++ (advice.now ++ codes "\n")))))) }
{
    format!(in alloc;
        "vnfm: the descriptor is not taken: it is no JSON from line {line}, column {column} on; {advice}\n"
    )
}

/// The line of bytes that weren't answered.
fn unanswered_line(alloc: Global, answered: u64, text: &str) -> Result<String, AllocError>
    ensures { IfOk result (λ line. string_bytes line ≡ unanswered_line answered text.now) }
{
    format!(in alloc; "vnfm: requests answered: {answered}; {text}\n")
}

/// Why the bytes that were left weren't answered, by how the last hearing ended.
fn unanswered_text(last: Hearing) -> &'static str
    ensures { result.now ≡ unanswered_text last }
{
    match last {
        Hearing::Malformed => "the bytes that are left are no request",
        Hearing::TooLarge => "the bytes that are left are a request beyond a limit",
        Hearing::Unfinished => "the bytes that are left end inside a request",
        Hearing::Unread => "standard input couldn't be read any further",
        Hearing::NoMemory => "there was no memory for the request that is left",
        Hearing::NotYet | Hearing::Request | Hearing::End => "no byte is left",
    }
}

/// What is said of a file that was lost for this cause, at this path, where there is one.
fn lost_text(why: WhyLost, path: Option<&Text>) -> &'static str
    ensures { result.now ≡ lost_text why (option_map (λ path. path.now) path.entry) }
{
    match why {
        WhyLost::Locked => "another manager holds its lock",
        WhyLost::NoFolder => no_folder_text(path),
        WhyLost::NotPermitted => "there is no permission to read and write it",
        WhyLost::ReadOnly => "its file system is read-only",
        WhyLost::NotAFile => "it is not a regular file",
        WhyLost::DanglingLink =>
            "it is a symbolic link to nothing, or was made just now by another",
        WhyLost::LinkLoop => "its symbolic links form a loop, or are too many",
        WhyLost::NameTooLong => "a name in the path, or all of it, is too long",
        WhyLost::NoSpace => "its file system has no space left, or no inode",
        WhyLost::Quota => "the quota on its file system is used up",
        WhyLost::TooLarge => "it would be larger than a file may be",
        WhyLost::Removed => "it was removed while the program had it open",
        WhyLost::Moved =>
            "nothing stands there any more; it was moved while the program had it open",
        WhyLost::Replaced =>
            "another file stands there; it was moved or removed while the program had it open",
        WhyLost::Shortened => "it is shorter than it was; another program cut it",
        WhyLost::Memory => "there was no memory",
        WhyLost::Other => "a call on it failed; if its disk did, the kernel's log says how",
    }
}

/// What is said where there is no such folder: of an empty path that it is empty.
fn no_folder_text(path: Option<&Text>) -> &'static str
    ensures { result.now ≡ no_folder_text (option_map (λ path. path.now) path.entry) }
{
    match path {
        Some(path) if path.as_str() == "" => "the path is empty",
        _ => "there is no such folder",
    }
}

/// A line that says this.
fn plain(alloc: Global, text: &str) -> Result<String, AllocError>
    ensures { IfOk result (λ line. string_bytes line ≡ plain_line text.now) }
{
    format!(in alloc; "vnfm: {text}\n")
}

/// A line that says this of a word, which stands in it quoted, its control characters escaped.
fn line_on(alloc: Global, word: &Text, joint: &str, text: &str) -> Result<String, AllocError>
    ensures { IfOk result (λ line. IsLineOn joint.now text.now (string_bytes line)) }
{
    let quoted = quoted(alloc, word)?;
    joined(alloc, quoted.as_str(), joint, text)
}

/// A line of these three.
fn joined(alloc: Global, quoted: &str, joint: &str, text: &str) -> Result<String, AllocError>
    ensures { IfOk result (λ line. string_bytes line ≡ codes "vnfm: "
        ++ (quoted.now ++ (joint.now ++ (text.now ++ codes "\n")))) }
{
    format!(in alloc; "vnfm: {quoted}{joint}{text}\n")
}

/// The word, quoted.
fn quoted(alloc: Global, word: &Text) -> Result<String, AllocError> {
    let word = word.as_str();
    format!(in alloc; "{word:?}")
}

/// A line that says this of the journal's path.
fn about_journal(alloc: Global, words: &[Text], text: &str) -> Result<String, AllocError>
    ensures { IfOk result (λ line. IsAboutJournal words.now text.now (string_bytes line)) }
{
    about_path(alloc, path_in(words), text)
}

/// A line that says this of the path that the journal goes to.
fn about_spare(alloc: Global, words: &[Text], text: &str) -> Result<String, AllocError>
    ensures { IfOk result (λ line. IsAboutSpare words.now text.now (string_bytes line)) }
{
    about_path(alloc, path_to(words), text)
}

/// A line that says this of a path, where there is one.
fn about_path(alloc: Global, path: Option<&Text>, text: &str) -> Result<String, AllocError>
    ensures { IfOk result (λ line. IsAboutPath (option_map (λ path. path.now) path.entry) text.now
        (string_bytes line)) }
{
    match path {
        Some(path) => line_on(alloc, path, ": ", text),
        None => plain(alloc, text),
    }
}

/// The journal's path, where the words name one.
fn path_in(words: &[Text]) -> Option<&Text>
    ensures { option_map (λ path. path.now) result ≡ path_in words.entry.now }
{
    match words {
        [] => None,
        [_, options @ ..] => value_of(options, "--journal"),
    }
}

/// The path that the journal goes to, where the words name one.
fn path_to(words: &[Text]) -> Option<&Text>
    ensures { option_map (λ path. path.now) result ≡ path_to words.entry.now }
{
    match words {
        [] => None,
        [_, options @ ..] => value_of(options, "--to"),
    }
}

/// The line of words that are no command.
fn wrong_line(alloc: Global, words: &[Text]) -> Result<String, AllocError>
    ensures { IfOk result (λ line. IsWrongLine words.now (wrong_of words.now) (string_bytes line)) }
{
    match wrong_of(words) {
        Wrong::Word(place) => word_line(
            alloc,
            words,
            place,
            "isn't understood; vnfm --help says more",
        ),
        Wrong::Twice(place) => word_line(
            alloc,
            words,
            place,
            "stands twice; vnfm --help says more",
        ),
        Wrong::NoCommand => plain(alloc, "a command is missing; vnfm --help says more"),
        Wrong::NoValue(place) => word_line(
            alloc,
            words,
            place,
            "has no value; vnfm --help says more",
        ),
        Wrong::Value(place) => value_line(alloc, words, place),
        Wrong::NoJournal => plain(alloc, "--journal PATH is missing; vnfm --help says more"),
        Wrong::NoManager => plain(alloc, "--manager N is missing; vnfm --help says more"),
        Wrong::NoTo => plain(alloc, "--to PATH is missing; vnfm --help says more"),
        Wrong::NoListen => plain(alloc, "--listen ADDR is missing; vnfm --help says more"),
        Wrong::NoEmListen => plain(alloc, "--em-listen ADDR is missing; vnfm --help says more"),
        Wrong::NoStart => plain(alloc, "--start N is missing; vnfm --help says more"),
        Wrong::NoCount => plain(alloc, "--count N is missing; vnfm --help says more"),
        Wrong::Nothing => plain(alloc, "the words are no command; vnfm --help says more"),
    }
}

/// The line that says this of the word at this place.
fn word_line(alloc: Global, words: &[Text], place: usize, text: &str) -> Result<String, AllocError>
    ensures { IfOk result (λ line. IsAboutWord text.now (slice_get words.now place) (string_bytes line)) }
{
    match words.get(place) {
        Some(word) => line_on(alloc, word, " ", text),
        None => plain(alloc, "the words are no command; vnfm --help says more"),
    }
}

/// The line of a value that its option at this place doesn't take.
fn value_line(alloc: Global, words: &[Text], place: usize) -> Result<String, AllocError>
    ensures { IfOk result (λ line. IsAboutValue (drop place words.now) (string_bytes line)) }
{
    match words.get(place..) {
        Some(behind) => first_value_line(alloc, behind),
        None => first_value_line(alloc, &[]),
    }
}

/// The line of a value that the option in front of it doesn't take, which are the first two of these words.
fn first_value_line(alloc: Global, words: &[Text]) -> Result<String, AllocError>
    ensures { IfOk result (λ line. IsAboutValue words.now (string_bytes line)) }
{
    match words {
        [option, value, ..] => refused_value(alloc, option, value),
        _ => plain(alloc, "the words are no command; vnfm --help says more"),
    }
}

/// The line of a value that this option doesn't take.
fn refused_value(alloc: Global, option: &Text, value: &Text) -> Result<String, AllocError>
    ensures { IfOk result (λ line. IsNoValueOf option.now (string_bytes line)) }
{
    let quoted = quoted(alloc, value)?;
    refusal(
        alloc,
        quoted.as_str(),
        option.as_str(),
        wanted_by(option.as_str()),
    )
}

/// The line of these three.
fn refusal(alloc: Global, quoted: &str, option: &str, wanted: &str) -> Result<String, AllocError>
    ensures { IfOk result (λ line. string_bytes line ≡ codes "vnfm: " ++ (quoted.now ++ (codes " is no value of "
        ++ (option.now ++ (codes ", which takes " ++ (wanted.now ++ codes "; vnfm --help says more\n")))))) }
{
    format!(in alloc;
        "vnfm: {quoted} is no value of {option}, which takes {wanted}; vnfm --help says more\n"
    )
}

/// What an option takes.
fn wanted_by(option: &str) -> &'static str
    ensures { result.now ≡ wanted_by option.now }
{
    match option {
        "--manager" | "--rounds" => "a number from 0 to 4294967295, in at most 20 digits",
        "--role" => "orchestrator or em",
        "--start" => "a number from 0 to 18446744073709551615, in at most 20 digits",
        "--count" => "a number from 0 to 2000, in at most 20 digits",
        "--listen" | "--em-listen" => "an address and port",
        _ => "a word that doesn't begin with -",
    }
}
