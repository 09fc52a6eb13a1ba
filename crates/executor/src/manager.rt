//! The manager: its journal, and the tables of the events in it. What is acknowledged is on the disk before the tables
//! follow it.
ghost use Rattle.std.specs.Prelude.{◌≡◌, ◌≢◌, ◌≤◌, ◌<◌, ◌+◌, ℕ, List, length, option_copied, IfOk, OnOk, OnErr, Some};
ghost use Rattle.std.specs.Prelude.{false, true};
ghost use Rattle.event_codec.specs.Spell.{spelling};
ghost use Rattle.event_codec.specs.Valid.{IsEvent};
ghost use Rattle.journal_core.specs.Load.{SyncsAndReads};
ghost use Rattle.executor.specs.Open.{Opens};
ghost use Rattle.executor.specs.Room.{TellsRoom};
ghost use Rattle.instance_table.specs.Rows.{StandsFor, instance, live};
ghost use Rattle.instance_table.specs.Table.{is_counted};
ghost use Rattle.journal_records.specs.declared.limits.TheConstants.{MAX_FILE};
ghost use Rattle.lcm_events.specs.declared.attempts.Tag.{Tag};
ghost use Rattle.lcm_events.specs.declared.events.Event.{Event};
ghost use Rattle.lcm_events.specs.declared.events.EventKind.TheVariants as events;
ghost use Rattle.vnfm_base.specs.Ident.{IsIdentNumber};
ghost use Rattle.lcm_model.specs.Lives.{descriptor_named, descriptors, instances_made, subscriptions_made};
ghost use Rattle.lcm_model.specs.Operations.{occurrences_made};
ghost use Rattle.lcm_model.specs.Refusals.{delete_refusal};
ghost use Rattle.occ_table.specs.Table.{IsTableOf};
ghost use Rattle.notice_table.specs.Queues.{first_waiting};
ghost use Rattle.lcm_tables.specs.Tables.{HasRoom};
ghost use Rattle.executor.specs.Operating.{IsRowOf, TellsAsk};
ghost use Rattle.executor.specs.Questions.{is_made, made};
ghost use Rattle.site_traits.specs.Counts.{Ask, asked, OnlyDiskFails};
ghost use Rattle.journal_core.specs.Asking.{FailsWhere};
ghost use Rattle.executor.specs.Asking.{CommitAsks};
ghost use Rattle.executor.specs.Managed.{HasNoNotice, IsReady, Keeps, KeepsOn, MayPut, MayRecord};
ghost use Rattle.executor.specs.Reading.{IsNoSpelling, ReadsEvent};
ghost use Rattle.executor.specs.Work.{Works, WorksAtFile, recorded};
ghost use Rattle.site_traits.specs.Site.{KeepsJobs};

use crate::asks::{AskFault, plan_of};
use crate::open::judge_all;
use crate::recording::{append_and_follow, spell_within};
use event_codec::{DecodeFault, RecordBuf, TooLong, decode};
use instance_table::{InstanceRow, InstanceTable};
use journal_core::{AppendFault, BackFault, Journal, LoadFault, records_add_up};
use lcm_events::{Changes, Event, Vnfd};
use lcm_laws::serials_are_counted;
use lcm_model::Refusal;
use lcm_tables::Tables;
use occ_table::OccTable;
use site_traits::Site;
use std::alloc::{AllocError, Global};
use std::marker::Model;
use thiserror::Error;
use vnfm_base::{Kind, Name};

/// The manager of one journal. It never owns the site of its file, which is lent to each call.
///
/// A contract sees its journal's ledger and its tables; which histories it keeps is told by both (`Keeps`).
pub struct Manager<S: Site> {
    journal: Journal<S>,
    tables: Tables,
    record: RecordBuf,
}

impl<S: Site> Drop for Manager<S> {
    // Written out, so that the proof of a caller calls it and doesn't take the value apart at each of its ends.
    fn drop(self) {
        let Manager {
            journal: _,
            tables: _,
            record: _,
        } = self;
    }
}

impl<S: Site> Model for Manager<S> {
    ghost use Rattle.executor.specs.Managed.{IsWithinFile, KeepsOne, Managed};

    ghost Value = { Managed };

    ghost view = { λ m. record { ledger = m.journal; tables = m.tables } };

    ghost invariant = { λ m. KeepsOne (record { ledger = m.journal; tables = m.tables }) × IsWithinFile m.journal };
}

/// Why a journal wasn't opened.
#[derive(Debug, Drop, Error)]
pub enum OpenFault {
    /// The file is unfinished.
    #[error("no journal")]
    Unmade,
    /// The file's header differs first at this place, in bytes from 0.
    #[error("not a journal: byte {0}")]
    Foreign(u64),
    /// Record n, from 1, is broken, is no event, or isn't allowed after those before it.
    #[error("bad record {0}")]
    BadRecord(u64),
    /// A disk call failed.
    #[error("site fault")]
    Disk,
    /// There is no memory.
    #[error("no memory")]
    Memory,
}

/// Why an event wasn't recorded. After all but `Disk` nothing has changed but what is reserved.
#[derive(Debug, Drop, Error)]
pub enum WorkFault {
    /// The event's spelling has so many bytes, more than a record.
    #[error("{0} bytes, more than a record holds")]
    TooLong(u64),
    /// Behind the closed gate at `end` there is no room for `more` bytes.
    #[error("journal full: {end} + {more} bytes")]
    Full {
        /// The place of the closed gate.
        end: u64,
        /// The bytes of the event's spelling.
        more: u32,
    },
    /// There is no memory.
    #[error("no memory")]
    Memory,
    /// A disk call failed. The manager is closed: whether the event was recorded is known once the journal is loaded
    /// again.
    #[error("site fault")]
    Disk,
}

/// Why an event wasn't read back.
#[derive(Debug, Drop, Error)]
pub enum ReadFault {
    /// The file has no record n any more, or it is no event. It never comes where the site tells its content.
    #[error("bad record {0}")]
    BadRecord(u64),
    /// A disk call failed. The manager is closed: load the journal again.
    #[error("site fault")]
    Disk,
    /// There is no memory.
    #[error("no memory")]
    Memory,
}

impl<S: Site> Manager<S> {
    /// Opens the journal of a site's file, and judges each record once, in order.
    ///
    /// Refusals: `Unmade` and `Foreign` by the header; `BadRecord(n)` where the file is broken at record n, or, where
    /// it is broken nowhere, that record is the first that is no event or isn't allowed after those before it; `Disk`;
    /// `Memory`. After Ok nothing is pending on the site. The file is as it was, whatever the answer.
    /// Source: own format, docs/JOURNAL.md and docs/EVENTS.md.
    pub fn load(alloc: Global, site: &mut S) -> Result<Manager<S>, OpenFault>
        ensures opens { Opens S.tells result (S.state site.new) }
        ensures number { IfOk result (λ m. m.ledger.manager < 4294967296) }
        ensures told { S.tells → SyncsAndReads (S.state site.old) (S.state site.new) }
        ensures counts { FailsWhere (result ≡ Err OpenFault.Disk) (asked Ask.sync (S.counts site.old))
            (S.counts site.new) }
    {
        let mut loading = Journal::open(alloc, site)?;
        let judged = judge_all(alloc, &mut loading, site)?;
        if let Some(n) = judged.bad {
            return Err(OpenFault::BadRecord(n));
        }
        let record = RecordBuf::new(alloc)?;
        Ok(Manager {
            journal: loading.finish(),
            tables: judged.tables,
            record,
        })
    }

    /// Records an event in a journal that is to end at byte `limit` of the file or before it, with its closed gate: the
    /// event is on the disk before the tables follow it. It is spelled once, and all memory is taken before it is
    /// appended.
    ///
    /// Conditions: the manager isn't closed, and its file has its history; the event keeps the format's rules, is
    /// allowed after that history, and isn't a Settled; the limit is at most the file's.
    /// Refusals, in this order: `TooLong(n)` (bytes), `Full {end, more}` (bytes), each exactly where the spelling and
    /// the limit say so;
    /// `Memory`. After these the journal and the site are as before, and so is the history. `Disk`, after which the
    /// manager is closed, with the history that it had: load it again.
    /// Source: own format, docs/JOURNAL.md and docs/EVENTS.md.
    pub fn commit(
        &mut self,
        alloc: Global,
        site: &mut S,
        e: &Event,
        limit: u64,
    ) -> Result<(), WorkFault>
        requires may { (H : List Event) × IsReady S.tells self.old H (S.state site.old)
            × MayRecord self.old.ledger.manager H e.now }
        requires within { limit ≤ MAX_FILE }
        ensures event { IsEvent e.now }
        ensures works { (H : List Event) → IsReady S.tells self.old H (S.state site.old)
            → MayRecord self.old.ledger.manager H e.now
            → Works S.tells self.old.ledger.manager H (recorded H e.now result) self.new (S.state site.old)
            (S.state site.new) }
        ensures refused { result ≢ Err WorkFault.Disk → OnErr result
            ((self.new.ledger ≡ self.old.ledger) × (site.new ≡ site.old)) }
        ensures keeps { OnErr result (KeepsOn self.old self.new) }
        ensures saved { self.new.ledger.saved ≡ self.old.ledger.saved }
        ensures room { (H : List Event) → Keeps self.old H
            → TellsRoom limit self.old.ledger.saved H e.now result }
        ensures asks { CommitAsks result (S.counts site.old) (S.counts site.new) }
        ensures counts { OnlyDiskFails (result ≡ Err WorkFault.Disk) (S.counts site.old) (S.counts site.new) }
    {
        spell_within(&self.journal, &mut self.record, e, limit)?;
        self.tables.reserve_for(alloc, e)?;
        append_and_follow(
            &mut self.journal,
            &mut self.tables,
            site,
            self.record.as_slice(),
            e,
        )
    }

    /// Reserves the memory that the tables need to follow an event, so that `put` takes none. The history and the
    /// journal stay, also after want of memory.
    ///
    /// Source: own rule.
    pub fn reserve_for(&mut self, alloc: Global, e: &Event) -> Result<(), AllocError>
        ensures ledger { self.new.ledger ≡ self.old.ledger }
        ensures keeps { KeepsOn self.old self.new }
        ensures room { OnOk result (HasRoom e.now self.new.tables) }
    {
        self.tables.reserve_for(alloc, e)
    }

    /// Records an event, for which the tables have room, in a journal that is to end at byte `limit` of the file or
    /// before it, with its closed gate: the event is on the disk before the tables follow it. It is spelled once, and
    /// no memory is taken.
    ///
    /// Conditions: the manager isn't closed, and its file has its history; the event keeps the format's rules and is
    /// allowed after that history; what the tables need for it is reserved; the limit is at most the file's. Whether
    /// jobs stay sound is the caller's to show, by what it knows of the attempt whose end it puts.
    /// Refusals, in this order: `TooLong(n)` (bytes), `Full {end, more}` (bytes), each exactly where the spelling and
    /// the limit say so. After these the manager and the site are as before. `Disk`, after which the manager is closed,
    /// with the history that it had: load it again. Never `Memory`.
    /// Source: own format, docs/JOURNAL.md and docs/EVENTS.md.
    pub fn put(&mut self, site: &mut S, e: &Event, limit: u64) -> Result<(), WorkFault>
        requires may { (H : List Event) × IsReady S.tells self.old H (S.state site.old)
            × MayPut self.old.ledger.manager H e.now }
        requires reserved { HasRoom e.now self.old.tables }
        requires within { limit ≤ MAX_FILE }
        ensures event { IsEvent e.now }
        ensures works { (H : List Event) → IsReady S.tells self.old H (S.state site.old)
            → MayPut self.old.ledger.manager H e.now
            → WorksAtFile S.tells self.old.ledger.manager H (recorded H e.now result) self.new (S.state site.old)
            (S.state site.new) }
        ensures jobs { S.tells → KeepsJobs (S.state site.old) (S.state site.new) }
        ensures refused { result ≢ Err WorkFault.Disk → OnErr result ((self.new ≡ self.old) × (site.new ≡ site.old)) }
        ensures keeps { OnErr result (KeepsOn self.old self.new) }
        ensures saved { self.new.ledger.saved ≡ self.old.ledger.saved }
        ensures room { (H : List Event) → Keeps self.old H
            → TellsRoom limit self.old.ledger.saved H e.now result }
        ensures memory { result ≢ Err WorkFault.Memory }
        ensures quiet { HasNoNotice self.old → HasNoNotice self.new }
        ensures asks { CommitAsks result (S.counts site.old) (S.counts site.new) }
        ensures counts { OnlyDiskFails (result ≡ Err WorkFault.Disk) (S.counts site.old) (S.counts site.new) }
    {
        spell_within(&self.journal, &mut self.record, e, limit)?;
        append_and_follow(
            &mut self.journal,
            &mut self.tables,
            site,
            self.record.as_slice(),
            e,
        )
    }

    /// Records an event that isn't a Settled, for which the tables have room, as `put` does. No memory is taken, so
    /// that it may stand behind a call of the outside: what was reserved before the call records what it was answered.
    ///
    /// Conditions: those of `put`, and the event isn't a Settled, so that sound jobs stay sound.
    /// Refusals: those of `put`.
    /// Source: own format, docs/JOURNAL.md and docs/EVENTS.md.
    pub fn put_unsettled(&mut self, site: &mut S, e: &Event, limit: u64) -> Result<(), WorkFault>
        requires may { (H : List Event) × IsReady S.tells self.old H (S.state site.old)
            × MayRecord self.old.ledger.manager H e.now }
        requires reserved { HasRoom e.now self.old.tables }
        requires within { limit ≤ MAX_FILE }
        ensures event { IsEvent e.now }
        ensures works { (H : List Event) → IsReady S.tells self.old H (S.state site.old)
            → MayRecord self.old.ledger.manager H e.now
            → Works S.tells self.old.ledger.manager H (recorded H e.now result) self.new (S.state site.old)
            (S.state site.new) }
        ensures refused { result ≢ Err WorkFault.Disk → OnErr result ((self.new ≡ self.old) × (site.new ≡ site.old)) }
        ensures keeps { OnErr result (KeepsOn self.old self.new) }
        ensures saved { self.new.ledger.saved ≡ self.old.ledger.saved }
        ensures room { (H : List Event) → Keeps self.old H
            → TellsRoom limit self.old.ledger.saved H e.now result }
        ensures memory { result ≢ Err WorkFault.Memory }
        ensures quiet { HasNoNotice self.old → HasNoNotice self.new }
        ensures intent { (t : Tag) → e.now.kind ≡ events.Intent t → HasNoNotice self.new }
        ensures asks { CommitAsks result (S.counts site.old) (S.counts site.new) }
        ensures counts { OnlyDiskFails (result ≡ Err WorkFault.Disk) (S.counts site.old) (S.counts site.new) }
    {
        // That a history has few events, by the contract of the call, is needed to see that no notice is laid aside.
        let _table = self.occurrences();
        self.put(site, e, limit)
    }

    /// Event n of the history, from 1, in the order in which the events happened: it is read back from the site's file.
    ///
    /// Conditions: the manager isn't closed, and its file has its history; n is from 1 to `records`.
    /// Refusals: `BadRecord(n)`, which never comes where the site tells its content; `Disk`, after which the manager is
    /// closed; `Memory`. The history and the file are as before, whatever the answer.
    /// Source: own format, docs/JOURNAL.md and docs/EVENTS.md.
    pub fn event_at(&mut self, alloc: Global, site: &mut S, n: u64) -> Result<Event, ReadFault>
        requires some { 1 ≤ n }
        requires within { n ≤ self.old.ledger.count }
        requires ready { (H : List Event) × IsReady S.tells self.old H (S.state site.old) }
        ensures reads { (H : List Event) → IsReady S.tells self.old H (S.state site.old) → S.tells
            → ReadsEvent H n result (S.state site.old) (S.state site.new) }
        ensures ready { (H : List Event) → IsReady S.tells self.old H (S.state site.old) → result ≢ Err ReadFault.Disk
            → IsReady S.tells self.new H (S.state site.new) }
        ensures keeps { KeepsOn self.old self.new }
        ensures number { self.new.ledger.manager ≡ self.old.ledger.manager }
        ensures saved { self.new.ledger.saved ≡ self.old.ledger.saved }
        ensures bad { (k : ℕ) → result ≡ Err (ReadFault.BadRecord k) → k ≡ n }
        ensures closed { result ≡ Err ReadFault.Disk → self.new.ledger.closed ≡ true }
        ensures counts { FailsWhere (result ≡ Err ReadFault.Disk) (S.counts site.old) (S.counts site.new) }
    {
        self.journal.read_back(site, n)?;
        event_of(alloc, self.journal.record_back(), n)
    }

    /// The number of the manager.
    pub fn number(&self) -> u32
        ensures { result ≡ self.now.ledger.manager }
    {
        self.journal.manager()
    }

    /// How many events the history has. Condition: the manager isn't closed.
    pub fn records(&self) -> u64
        requires { self.now.ledger.closed ≡ false }
        ensures { (H : List Event) → Keeps self.now H → result ≡ length H }
    {
        self.journal.count()
    }

    /// How many of the kind were made. Condition: the kind isn't `Notice`.
    ///
    /// Source: SOL 003 5.4.2 (VNF instances), 5.4.12 (VNF LCM operation occurrences), 5.4.18 (Subscriptions).
    pub fn made(&self, kind: Kind) -> u64
        requires { is_made kind ≡ true }
        ensures { (H : List Event) → Keeps self.now H → result ≡ made kind H }
    {
        match kind {
            Kind::Instance | Kind::Subscription => self.tables.instances.made(kind),
            Kind::Occurrence => self.tables.occurrences.made(),
            Kind::Notice => unreachable!(),
        }
    }

    /// How many of the kind are live. Condition: the kind is `Instance` or `Subscription`.
    ///
    /// Source: SOL 003 5.4.2 (VNF instances), 5.4.18 (Subscriptions).
    pub fn live(&self, kind: Kind) -> u64
        requires { is_counted kind ≡ true }
        ensures { (H : List Event) → Keeps self.now H → result ≡ live kind H }
    {
        self.tables.instances.live(kind)
    }

    /// How many descriptors were onboarded.
    ///
    /// Source: own rule, docs/MODEL.md.
    pub fn descriptors(&self) -> u64
        ensures { (H : List Event) → Keeps self.now H → result ≡ length (descriptors H) }
    {
        self.tables.instances.descriptors()
    }

    /// The descriptor of this identifier. None exactly where none was onboarded under it.
    ///
    /// Source: own rule, docs/MODEL.md.
    pub fn vnfd(&self, id: &Name) -> Option<&Vnfd>
        ensures { (H : List Event) → Keeps self.now H → option_copied result ≡ descriptor_named H id.now }
    {
        self.tables.instances.vnfd(id)
    }

    /// The table of descriptors, live instances and live subscriptions of the history. Condition: the manager isn't
    /// closed.
    ///
    /// Source: SOL 003 5.4.2 (VNF instances), 5.4.18 (Subscriptions).
    pub fn instances(&self) -> &InstanceTable
        requires { self.now.ledger.closed ≡ false }
        ensures rows { (H : List Event) → Keeps self.now H → StandsFor result.now.rows H }
        ensures few { (H : List Event) → Keeps self.now H → length H < MAX_FILE }
    {
        let _records = self.journal.count();
        &self.tables.instances
    }

    /// The table of occurrences of the history. Condition: the manager isn't closed.
    ///
    /// Source: SOL 003 5.4.12 (VNF LCM operation occurrences).
    pub fn occurrences(&self) -> &OccTable
        requires { self.now.ledger.closed ≡ false }
        ensures table { (H : List Event) → Keeps self.now H → IsTableOf result.now H }
        ensures few { (H : List Event) → Keeps self.now H → length H < MAX_FILE }
    {
        let _records = self.journal.count();
        &self.tables.occurrences
    }

    /// The place in the journal, from 1, of the event of the first notice that waits for the subscription of this
    /// number; none where it isn't live, and where none waits. Condition: the manager isn't closed.
    ///
    /// Source: SOL 003 5.4.20 (Notification endpoint).
    pub fn first_notice(&self, subscription: u64) -> Option<u64>
        requires { self.now.ledger.closed ≡ false }
        ensures { (H : List Event) → Keeps self.now H → result ≡ first_waiting self.now.ledger.manager H subscription }
    {
        let _records = self.journal.count();
        self.tables.notices.first(subscription)
    }

    /// Why the deletion of the live instance of this row is refused, where it is: it is INSTANTIATED, or one of its
    /// operations goes on, in this order.
    ///
    /// Source: SOL 003 5.4.3.3.5 (DELETE of an individual VNF instance).
    pub fn delete_refusal(&self, row: &InstanceRow) -> Option<Refusal>
        ensures { (H : List Event) → Keeps self.now H → instance H row.now.number ≡ Some row.now
            → result ≡ delete_refusal H row.now.number }
    {
        self.tables.delete_refusal(row)
    }

    /// The number of the next instance. Condition: the manager isn't closed.
    ///
    /// Source: SOL 003 5.4.2 (VNF instances).
    pub fn next_instance(&self) -> u64
        requires { self.now.ledger.closed ≡ false }
        ensures number { (H : List Event) → Keeps self.now H → result ≡ instances_made H + 1 }
        ensures identifier { IsIdentNumber result }
    {
        let records = self.journal.count();
        let made = self.tables.instances.made(Kind::Instance);
        after(made, records)
    }

    /// The number of the next occurrence. Condition: the manager isn't closed.
    ///
    /// Source: SOL 003 5.4.12 (VNF LCM operation occurrences).
    pub fn next_occurrence(&self) -> u64
        requires { self.now.ledger.closed ≡ false }
        ensures number { (H : List Event) → Keeps self.now H → result ≡ occurrences_made H + 1 }
        ensures identifier { IsIdentNumber result }
    {
        let records = self.journal.count();
        let made = self.tables.occurrences.made();
        after(made, records)
    }

    /// The number of the next subscription. Condition: the manager isn't closed.
    ///
    /// Source: SOL 003 5.4.18 (Subscriptions).
    pub fn next_subscription(&self) -> u64
        requires { self.now.ledger.closed ≡ false }
        ensures number { (H : List Event) → Keeps self.now H → result ≡ subscriptions_made H + 1 }
        ensures identifier { IsIdentNumber result }
    {
        let records = self.journal.count();
        let made = self.tables.instances.made(Kind::Subscription);
        after(made, records)
    }

    /// The changes of the plan of an operation that the live instance of this row is asked for, which are to be
    /// recorded with it.
    ///
    /// Conditions: the manager isn't closed, and the row is one of its live instances.
    /// Refusals, in this order: `Refused`, exactly where the ask is refused, with the first cause; `Memory`.
    /// Source: SOL 003 5.4.4 to 5.4.10 (the tasks of an individual VNF instance).
    pub fn plan_asked(
        &self,
        alloc: Global,
        row: &InstanceRow,
        ask: &lcm_events::Ask,
    ) -> Result<Changes, AskFault>
        requires usable { self.now.ledger.closed ≡ false }
        requires own { IsRowOf self.now row.now }
        ensures { (H : List Event) → Keeps self.now H → TellsAsk H row.now.number ask.now result }
    {
        records_add_up();
        serials_are_counted();
        plan_of(alloc, &self.tables, row, ask)
    }
}

/// The number after so many, of which there are no more than records.
fn after(made: u64, records: u64) -> u64
    requires within { made ≤ records }
    requires few { records < MAX_FILE }
    ensures number { result ≡ made + 1 }
    ensures identifier { IsIdentNumber result }
{
    made + 1
}

/// The event of which the bytes of record n are the spelling.
fn event_of(alloc: Global, bytes: &[u8], n: u64) -> Result<Event, ReadFault>
    ensures found { (e : Event) → IsEvent e → bytes.now ≡ spelling e → IfOk result (λ f. f ≡ e) }
    ensures none { (k : ℕ) → result ≡ Err (ReadFault.BadRecord k) → (k ≡ n) × IsNoSpelling bytes.now }
    ensures disk { result ≢ Err ReadFault.Disk }
{
    match decode(alloc, bytes) {
        Ok(event) => Ok(event),
        Err(DecodeFault::NotEvent) => Err(ReadFault::BadRecord(n)),
        Err(DecodeFault::Memory) => Err(ReadFault::Memory),
    }
}

impl From<LoadFault> for OpenFault {
    ghost use Rattle.executor.specs.Faults.{opened_fault};

    ghost from_gives = { λ fault e. e ≡ opened_fault fault };

    fn from(fault: LoadFault) -> OpenFault {
        match fault {
            LoadFault::Unmade => OpenFault::Unmade,
            LoadFault::Foreign(place) => OpenFault::Foreign(place),
            LoadFault::Broken(n) => OpenFault::BadRecord(n),
            LoadFault::Disk => OpenFault::Disk,
            LoadFault::Memory => OpenFault::Memory,
        }
    }
}

impl From<AllocError> for OpenFault {
    ghost use Rattle.executor.specs.declared.manager.OpenFault.TheVariants.{Memory};

    ghost from_gives = { λ _ e. e ≡ Memory };

    fn from(_: AllocError) -> OpenFault {
        OpenFault::Memory
    }
}

impl From<TooLong> for WorkFault {
    ghost use Rattle.executor.specs.declared.manager.WorkFault.TheVariants as work;

    ghost from_gives = { λ fault e. e ≡ work.TooLong fault.0 };

    fn from(fault: TooLong) -> WorkFault {
        WorkFault::TooLong(fault.0)
    }
}

impl From<AllocError> for WorkFault {
    ghost use Rattle.executor.specs.declared.manager.WorkFault.TheVariants as work;

    ghost from_gives = { λ _ e. e ≡ work.Memory };

    fn from(_: AllocError) -> WorkFault {
        WorkFault::Memory
    }
}

impl From<BackFault> for ReadFault {
    ghost use Rattle.executor.specs.Faults.{read_fault};

    ghost from_gives = { λ fault e. e ≡ read_fault fault };

    fn from(fault: BackFault) -> ReadFault {
        match fault {
            BackFault::Broken(n) => ReadFault::BadRecord(n),
            BackFault::Disk => ReadFault::Disk,
        }
    }
}

impl From<AppendFault> for WorkFault {
    ghost use Rattle.executor.specs.Faults.{work_fault};

    ghost from_gives = { λ fault e. e ≡ work_fault fault };

    fn from(fault: AppendFault) -> WorkFault {
        match fault {
            AppendFault::Full { end, more } => WorkFault::Full { end, more },
            AppendFault::Disk => WorkFault::Disk,
        }
    }
}
