//! How a run ends: its status, and the line that it prints.
ghost use Rattle.std.specs.Prelude.{◌≡◌, ◌≤◌, ◌+◌, ◌++◌, ◌∷◌, [], codes, decimal, length};
ghost use Rattle.arrayvec.specs.ArrayString.{array_string_len};
ghost use Rattle.site_traits.specs.Sink.{Puts, SinkCause};
ghost use Rattle.vnfd_document.specs.Texts.{fault_text};
ghost use Rattle.vnfm_commands.specs.Ending.{Ends, failure_line, failure_status, full_line, numbered_line};
ghost use Rattle.vnfm_commands.specs.Ending.{onboarded_line, output_of, refusal_text, refused_line, report_line};
ghost use Rattle.vnfm_commands.specs.Ending.{ends_line, jobs_line, migrated_line, requests_line, totals_line};
ghost use Rattle.vnfm_commands.specs.Ending.{tried_lines, with_count};

use crate::totals::Totals;
use arrayvec::ArrayString;
use command_line::SettingsFault;
use executor::OpenFault;
use itoa::Buffer;
use journal_core::CreateFault;
use journal_migration::MigrateFault;
use lcm_sessions::{DescriptorRefusal, OnboardFault, Onboarded};
use lcm_trial::{TrialFault, Tried};
use notify_outbox::DeliveryFault;
use site_traits::{Sink, SinkFailed};
use vnfd_reader::VnfdFault;
use vnfm_base::Name;

/// What a command reports that did its work.
#[derive(Drop)]
pub enum Report {
    /// So many rounds were made.
    Done(u32),
    /// A journal was made for this manager.
    Made(u32),
    /// This is said of a descriptor that was onboarded.
    Onboarded(Onboarded),
    /// A journal has so much.
    Counted(Totals),
    /// A journal of so many records was migrated.
    Migrated(u64),
    /// A trial came to this.
    Tried(Tried),
}

/// Why a command didn't do its work, by its status.
#[derive(Drop)]
pub enum Failure {
    /// The words are no command.
    Usage,
    /// A disk call failed, or a trial passes its room.
    SiteFault,
    /// Waiting for a connection failed, or a read of a descriptor did.
    DoorFault,
    /// The journal's file is unfinished.
    NoJournal,
    /// The journal's header differs first at this place, in bytes from 0.
    NotAJournal(u64),
    /// There is no memory.
    NoMemory,
    /// This record of the journal, from 1, is broken, is no event, or isn't allowed after those before it; or it isn't
    /// the event any more that a notice tells of, which never comes where the site tells its content.
    BadRecord(u64),
    /// The journal has no room.
    JournalFull {
        /// The place of its end, in bytes.
        end: u64,
        /// The bytes that were to be added.
        more: u32,
    },
    /// A descriptor was refused.
    DescriptorRefused(DescriptorRefusal),
    /// The file isn't unfinished for the manager for which a journal was to be made, or migrated.
    Taken,
}

/// How a run ended: what is reported, or why it failed.
pub type Ending = Result<Report, Failure>;

/// Prints the line of an ending, and gives the program's status: 7 where it would be 0 and the line couldn't be put.
pub fn finish<W: Sink>(ending: Ending, out: &mut W) -> u8
    ensures { Ends W.tells ending result (output_of W.state W.counts out.old) (output_of W.state W.counts out.new) }
{
    match ending {
        Ok(report) => match report.put(out) {
            Ok(()) => 0,
            Err(SinkFailed) => 7,
        },
        Err(failure) => {
            let _ = failure.put(out);
            failure.status()
        }
    }
}

impl Failure {
    /// The program's status.
    fn status(&self) -> u8
        ensures { result ≡ failure_status self.now }
    {
        match self {
            Failure::Usage => 2,
            Failure::SiteFault => 3,
            Failure::DoorFault => 4,
            Failure::NoJournal => 5,
            Failure::NotAJournal(_) => 5,
            Failure::NoMemory => 6,
            Failure::BadRecord(_) => 8,
            Failure::JournalFull { .. } => 9,
            Failure::DescriptorRefused(_) => 10,
            Failure::Taken => 11,
        }
    }

    /// Puts the line, with its line feed.
    fn put<W: Sink>(&self, out: &mut W) -> Result<(), SinkFailed>
        ensures told { W.tells → Puts (failure_line self.now) result (W.state out.old) (W.state out.new) }
        ensures cause { SinkCause (W.counts out.old) (W.counts out.new) result }
    {
        match self {
            Failure::Usage => out.put(b"usage: vnfm init|onboard|once|serve|check|trial|migrate\n"),
            Failure::SiteFault => out.put(b"site fault\n"),
            Failure::DoorFault => out.put(b"door fault\n"),
            Failure::NoJournal => out.put(b"no journal\n"),
            Failure::NotAJournal(place) => {
                out.put(numbered("not a journal: byte ", *place).as_str().as_bytes())
            }
            Failure::NoMemory => out.put(b"no memory\n"),
            Failure::BadRecord(n) => out.put(numbered("bad record ", *n).as_str().as_bytes()),
            Failure::JournalFull { end, more } => {
                out.put(full_line(*end, *more).as_str().as_bytes())
            }
            Failure::DescriptorRefused(why) => out.put(refused_line(why).as_str().as_bytes()),
            Failure::Taken => out.put(b"taken\n"),
        }
    }
}

impl Report {
    /// Puts the line, with its line feed.
    fn put<W: Sink>(&self, out: &mut W) -> Result<(), SinkFailed>
        ensures told { W.tells → Puts (report_line self.now) result (W.state out.old) (W.state out.new) }
        ensures cause { SinkCause (W.counts out.old) (W.counts out.new) result }
    {
        match self {
            Report::Done(rounds) => out.put(done_line(*rounds).as_str().as_bytes()),
            Report::Made(manager) => out.put(made_line(*manager).as_str().as_bytes()),
            Report::Onboarded(said) => out.put(onboarded_line(said).as_str().as_bytes()),
            Report::Counted(totals) => out.put(totals_line(totals).as_str().as_bytes()),
            Report::Migrated(records) => out.put(migrated_line(*records).as_str().as_bytes()),
            Report::Tried(tried) => out.put(tried_lines(tried).as_str().as_bytes()),
        }
    }
}

/// The line behind so many rounds.
fn done_line(rounds: u32) -> ArrayString<64>
    ensures { result.bytes ≡ codes "done after " ++ decimal rounds ++ codes " rounds\n" }
{
    let mut digits = Buffer::new();
    let mut line = ArrayString::new();
    line.push_str("done after ");
    line.push_str(digits.format(rounds));
    line.push_str(" rounds\n");
    line
}

/// The line of a journal that was made.
fn made_line(manager: u32) -> ArrayString<64>
    ensures { result.bytes ≡ numbered_line (codes "journal made for manager ") manager }
{
    let mut digits = Buffer::new();
    let mut line = ArrayString::new();
    line.push_str("journal made for manager ");
    line.push_str(digits.format(manager));
    line.push_str("\n");
    line
}

/// The line of a journal that has no room.
fn full_line(end: u64, more: u32) -> ArrayString<64>
    ensures { result.bytes ≡ full_line end more }
{
    let mut digits = Buffer::new();
    let mut line = ArrayString::new();
    line.push_str("journal full: ");
    line.push_str(digits.format(end));
    line.push_str(" + ");
    line.push_str(digits.format(more));
    line.push_str(" bytes\n");
    line
}

/// A line that ends with a number.
fn numbered(text: &str, number: u64) -> ArrayString<64>
    requires { length text.now ≤ 23 }
    ensures { result.bytes ≡ text.now ++ decimal number ++ 10 ∷ [] }
{
    let mut digits = Buffer::new();
    let mut line = ArrayString::new();
    line.push_str(text);
    line.push_str(digits.format(number));
    line.push_str("\n");
    line
}

/// The line of a descriptor that was onboarded.
fn onboarded_line(said: &Onboarded) -> ArrayString<512>
    ensures { result.bytes ≡ onboarded_line said.now }
{
    let mut line = ArrayString::new();
    line.push_str("onboarded ");
    line.push_str(said.id.as_str());
    line.push_str(": ");
    put_count(&mut line, said.vdus, " vdus, ");
    put_count(&mut line, said.aspects, " aspects, ");
    put_count(&mut line, said.levels, " levels\n");
    line
}

/// Puts a number and its unit behind the text.
fn put_count(line: &mut ArrayString<512>, count: usize, unit: &str)
    requires room { array_string_len line.old ≤ 400 }
    requires short { length unit.now ≤ 10 }
    ensures bytes { line.new.bytes ≡ with_count line.old.bytes count unit.now }
    ensures short { array_string_len line.new ≤ array_string_len line.old + 30 }
{
    let mut digits = Buffer::new();
    line.push_str(digits.format(count));
    line.push_str(unit);
}

/// The line of what a journal has.
fn totals_line(totals: &Totals) -> ArrayString<160>
    ensures { result.bytes ≡ totals_line totals.now }
{
    let mut digits = Buffer::new();
    let mut line = ArrayString::new();
    line.push_str("records ");
    line.push_str(digits.format(totals.records));
    line.push_str(", instances ");
    line.push_str(digits.format(totals.instances));
    line.push_str(", ongoing ");
    line.push_str(digits.format(totals.ongoing));
    line.push_str(", subscriptions ");
    line.push_str(digits.format(totals.subscriptions));
    line.push_str("\n");
    line
}

/// The line of a journal that was migrated, of so many records.
fn migrated_line(records: u64) -> ArrayString<64>
    ensures { result.bytes ≡ migrated_line records }
{
    let mut digits = Buffer::new();
    let mut line = ArrayString::new();
    line.push_str("migrated ");
    line.push_str(digits.format(records));
    line.push_str(" records\n");
    line
}

/// The lines of a trial.
fn tried_lines(tried: &Tried) -> ArrayString<256>
    ensures { result.bytes ≡ tried_lines tried.now }
{
    let requests = requests_line(tried);
    let ends = ends_line(tried);
    let jobs = jobs_line(tried);
    let mut lines = ArrayString::new();
    lines.push_str(requests.as_str());
    lines.push_str(ends.as_str());
    lines.push_str(jobs.as_str());
    lines
}

/// The line of a trial's requests.
fn requests_line(tried: &Tried) -> ArrayString<64>
    ensures { result.bytes ≡ requests_line tried.now }
{
    let mut digits = Buffer::new();
    let mut line = ArrayString::new();
    line.push_str("requests ");
    line.push_str(digits.format(tried.requests));
    line.push_str(", accepted ");
    line.push_str(digits.format(tried.accepted));
    line.push_str(", refused ");
    line.push_str(digits.format(tried.refused));
    line.push_str("\n");
    line
}

/// The line of a trial's operations.
fn ends_line(tried: &Tried) -> ArrayString<128>
    ensures { result.bytes ≡ ends_line tried.now }
{
    let mut digits = Buffer::new();
    let mut line = ArrayString::new();
    line.push_str("completed ");
    line.push_str(digits.format(tried.completed));
    line.push_str(", failed ");
    line.push_str(digits.format(tried.failed));
    line.push_str(", rolled back ");
    line.push_str(digits.format(tried.rolled_back));
    line.push_str(", ongoing ");
    line.push_str(digits.format(tried.ongoing));
    line.push_str("\n");
    line
}

/// The line of a trial's jobs.
fn jobs_line(tried: &Tried) -> ArrayString<64>
    ensures { result.bytes ≡ jobs_line tried.now }
{
    let mut digits = Buffer::new();
    let mut line = ArrayString::new();
    line.push_str("jobs ");
    line.push_str(digits.format(tried.jobs));
    line.push_str(", standing ");
    line.push_str(digits.format(tried.standing));
    line.push_str("\n");
    line
}

/// The line of a descriptor that is refused.
fn refused_line(why: &DescriptorRefusal) -> ArrayString<640>
    ensures { result.bytes ≡ refused_line why.now }
{
    let mut line = ArrayString::new();
    line.push_str("descriptor refused: ");
    put_refusal(&mut line, why);
    line.push_str("\n");
    line
}

/// Puts why a descriptor is refused.
fn put_refusal(line: &mut ArrayString<640>, why: &DescriptorRefusal)
    requires room { array_string_len line.old ≤ 20 }
    ensures bytes { line.new.bytes ≡ line.old.bytes ++ refusal_text why.now }
    ensures short { array_string_len line.new ≤ array_string_len line.old + 600 }
{
    match why {
        DescriptorRefusal::Unread(fault) => put_fault(line, fault),
        DescriptorRefusal::IsOnboarded => line.push_str("vnfdId is onboarded"),
        DescriptorRefusal::TooMany => line.push_str("256 descriptors"),
        DescriptorRefusal::TooLong(n) => {
            let mut digits = Buffer::new();
            line.push_str("encodes to ");
            line.push_str(digits.format(*n));
            line.push_str(" bytes");
        }
    }
}

/// Puts what is wrong with a document.
fn put_fault(line: &mut ArrayString<640>, fault: &VnfdFault)
    requires room { array_string_len line.old ≤ 20 }
    ensures bytes { line.new.bytes ≡ line.old.bytes ++ fault_text fault.now }
    ensures short { array_string_len line.new ≤ array_string_len line.old + 600 }
{
    match fault {
        VnfdFault::NotJson => line.push_str("not JSON"),
        VnfdFault::Lacks(name) => put_named(line, "missing ", name),
        VnfdFault::Wrong(name) => put_named(line, "bad ", name),
        VnfdFault::Unknown(name) => put_named(line, "unknown ", name),
        VnfdFault::TooMany(name) => put_named(line, "too many ", name),
        VnfdFault::OutOfStep { level, vdu } => {
            put_named(line, "out of step ", level);
            put_named(line, " ", vdu);
        }
        VnfdFault::Memory => line.push_str("no memory"),
    }
}

/// Puts words, and a name behind them.
fn put_named(line: &mut ArrayString<640>, words: &str, name: &Name)
    requires room { array_string_len line.old ≤ 300 }
    requires short { length words.now ≤ 20 }
    ensures bytes { line.new.bytes ≡ line.old.bytes ++ (words.now ++ name.now) }
    ensures short { array_string_len line.new ≤ array_string_len line.old + 275 }
{
    line.push_str(words);
    line.push_str(name.as_str());
}

impl From<SettingsFault> for Failure {
    ghost use Rattle.vnfm_commands.specs.Course.{unset};

    ghost from_gives = { λ fault failure. failure ≡ unset fault };

    fn from(fault: SettingsFault) -> Failure {
        match fault {
            SettingsFault::Usage => Failure::Usage,
            SettingsFault::Memory => Failure::NoMemory,
        }
    }
}

impl From<CreateFault> for Failure {
    ghost use Rattle.vnfm_commands.specs.Course.{unmade};

    ghost from_gives = { λ fault failure. failure ≡ unmade fault };

    fn from(fault: CreateFault) -> Failure {
        match fault {
            CreateFault::Taken => Failure::Taken,
            CreateFault::Disk => Failure::SiteFault,
        }
    }
}

impl From<OpenFault> for Failure {
    ghost use Rattle.vnfm_commands.specs.Course.{unopened_failure};

    ghost from_gives = { λ fault failure. failure ≡ unopened_failure fault };

    fn from(fault: OpenFault) -> Failure {
        match fault {
            OpenFault::Unmade => Failure::NoJournal,
            OpenFault::Foreign(place) => Failure::NotAJournal(place),
            OpenFault::BadRecord(n) => Failure::BadRecord(n),
            OpenFault::Disk => Failure::SiteFault,
            OpenFault::Memory => Failure::NoMemory,
        }
    }
}

impl From<MigrateFault> for Failure {
    ghost use Rattle.vnfm_commands.specs.Course.{unmigrated};

    ghost from_gives = { λ fault failure. failure ≡ unmigrated fault };

    fn from(fault: MigrateFault) -> Failure {
        match fault {
            MigrateFault::Open(why) => Failure::from(why),
            MigrateFault::Taken => Failure::Taken,
            MigrateFault::Full { end, more } => Failure::JournalFull { end, more },
            MigrateFault::Disk => Failure::SiteFault,
        }
    }
}

impl From<TrialFault> for Failure {
    ghost use Rattle.vnfm_commands.specs.Course.{untried};

    ghost from_gives = { λ fault failure. failure ≡ untried fault };

    fn from(fault: TrialFault) -> Failure {
        match fault {
            TrialFault::Room => Failure::SiteFault,
            TrialFault::Memory => Failure::NoMemory,
        }
    }
}

impl From<OnboardFault> for Failure {
    ghost use Rattle.vnfm_commands.specs.Course.{unonboarded};

    ghost from_gives = { λ fault failure. failure ≡ unonboarded fault };

    fn from(fault: OnboardFault) -> Failure {
        match fault {
            OnboardFault::Door => Failure::DoorFault,
            OnboardFault::Refused(why) => Failure::DescriptorRefused(why),
            OnboardFault::Full { end, more } => Failure::JournalFull { end, more },
            OnboardFault::Memory => Failure::NoMemory,
            OnboardFault::Disk => Failure::SiteFault,
        }
    }
}

impl From<DeliveryFault> for Failure {
    ghost use Rattle.vnfm_commands.specs.Course.{halting, undelivered_by};

    ghost from_gives = { λ fault failure. failure ≡ halting (undelivered_by fault) };

    fn from(fault: DeliveryFault) -> Failure {
        match fault {
            DeliveryFault::BadRecord(n) => Failure::BadRecord(n),
            DeliveryFault::Disk => Failure::SiteFault,
            DeliveryFault::Memory => Failure::NoMemory,
            DeliveryFault::Full { end, more } => Failure::JournalFull { end, more },
        }
    }
}
