//! Attempts: that one begins is on the disk before its job is begun, and a job is looked at until it has ended.
ghost use Rattle.std.specs.Prelude.{◌≡◌, ◌≢◌, ◌∷◌, [], ℕ, IfOk, IsOk, List, OnOk, Err, Some, false, map, reverse, true};
ghost use Rattle.executor.specs.Managed.{HasNoNotice, IsReady, Keeps};
ghost use Rattle.executor.specs.Room.{TellsRoom};
ghost use Rattle.executor.specs.Work.{Works, recorded};
ghost use Rattle.journal_records.specs.declared.limits.TheConstants.{MAX_FILE};
ghost use Rattle.lcm_events.specs.declared.attempts.Tag.{Tag};
ghost use Rattle.lcm_events.specs.declared.events.Event.{Event};
ghost use Rattle.lcm_events.specs.declared.events.EventKind.TheVariants as events;
ghost use Rattle.lcm_laws.specs.Acting.{with_events};
ghost use Rattle.lcm_model.specs.Allowed.{IsAllowed, IsLegal};
ghost use Rattle.lcm_model.specs.Attempts.{is_open, open_of};
ghost use Rattle.lcm_model.specs.Next.{looking, next_action};
ghost use Rattle.lcm_model.specs.declared.actions.Action.TheVariants as actions;
ghost use Rattle.lcm_tables.specs.Tables.{HasRoom};
ghost use Rattle.site_traits.specs.Counts.{OnlyDiskFails};
ghost use Rattle.site_traits.specs.Site.{KeepsJobs};
ghost use Rattle.site_traits.specs.declared.jobs.AbortAnswer.{AbortAnswer};
ghost use Rattle.occ_work.specs.Around.{DiskFails};
ghost use Rattle.occ_work.specs.Attempting.{AbortsEach, Attempts, Inquires, Puts, following, is_of_attempt, shows};
ghost use Rattle.occ_work.specs.Deeds.{Deed, answer_looked, ending, look_at, look_exchange, point};
ghost use Rattle.occ_steps.specs.Active.{IsActive};

use crate::ends::Acted;
use crate::steps::row_of;
use crate::work::work_of;
use executor::{Manager, WorkFault, works_add_up};
use journal_core::MAX_FILE;
use lcm_events::{Event, EventKind, Outcome, Tag};
use lcm_laws::next_actions_are_allowed;
use occ_table::Pending;
use site_traits::{BeginAnswer, LookAnswer, Site};
use std::alloc::Global;
use vnfm_base::{Moment, Name};

/// An event of this kind, at this moment.
pub fn event_of(moment: Moment, kind: EventKind) -> Event
    ensures { result ≡ record { moment = moment; kind = kind } }
{
    Event { moment, kind }
}

/// Begins an attempt, which is the next action of its occurrence: its intent is recorded, then its job is begun, and
/// then it is recorded where that was refused or failed. All memory is taken before.
///
/// Refusals: `Memory`, after which nothing was recorded or begun; `Full` and `Disk` as of recording an event. Where the
/// intent was recorded it stands, and so does the job.
pub fn begin<S: Site>(
    alloc: Global,
    manager: &mut Manager<S>,
    site: &mut S,
    tag: &Tag,
    now: Moment,
) -> Result<Acted, WorkFault>
    requires ready { (H : List Event) × IsReady S.tells manager.old H (S.state site.old) × IsActive H tag.now.occ
        × (next_action H tag.now.occ ≡ Some (actions.Begin tag.now)) }
    ensures attempts { (H : List Event) → IsReady S.tells manager.old H (S.state site.old) → IsActive H tag.now.occ
        → next_action H tag.now.occ ≡ Some (actions.Begin tag.now)
        → (d : Deed) × (d.occ ≡ tag.now.occ) × Attempts S.tells
        (point manager.old.ledger.manager manager.old.ledger.saved now H) d result manager.new
        (shows (S.state site.old) (S.counts site.old)) (shows (S.state site.new) (S.counts site.new)) }
    ensures short { (n : ℕ) → result ≢ Err (WorkFault.TooLong n) }
    ensures disk { DiskFails (result ≡ Err WorkFault.Disk) (S.counts site.old) (S.counts site.new) }
{
    works_add_up::<S>();
    next_actions_are_allowed();
    let work = work_of(alloc, manager, tag)?;
    match intend(alloc, manager, site, tag, now) {
        Ok(()) => {
            let answer = site.begin(tag, &work);
            follow(manager, site, tag, answer, now)
        }
        Err(fault) => Err(fault),
    }
}

/// Records that an attempt is to begin.
fn intend<S: Site>(
    alloc: Global,
    manager: &mut Manager<S>,
    site: &mut S,
    tag: &Tag,
    now: Moment,
) -> Result<(), WorkFault>
    requires may { (H : List Event) × IsReady S.tells manager.old H (S.state site.old)
        × IsAllowed manager.old.ledger.manager H (events.Intent tag.now) }
    ensures works { (H : List Event) → IsReady S.tells manager.old H (S.state site.old)
        → IsAllowed manager.old.ledger.manager H (events.Intent tag.now)
        → Works S.tells manager.old.ledger.manager H (recorded H
        (record { moment = now; kind = events.Intent tag.now }) result) manager.new (S.state site.old)
        (S.state site.new) }
    ensures room { (H : List Event) → Keeps manager.old H → result ≢ Err WorkFault.Memory
        → TellsRoom MAX_FILE manager.old.ledger.saved H (record { moment = now; kind = events.Intent tag.now })
        result }
    ensures saved { manager.new.ledger.saved ≡ manager.old.ledger.saved }
    ensures quiet { OnOk result (HasNoNotice manager.new) }
    ensures short { (n : ℕ) → result ≢ Err (WorkFault.TooLong n) }
    ensures disk { OnlyDiskFails (result ≡ Err WorkFault.Disk) (S.counts site.old) (S.counts site.new) }
{
    let intent = event_of(now, EventKind::Intent(*tag));
    manager.reserve_for(alloc, &intent)?;
    manager.put_unsettled(site, &intent, MAX_FILE)
}

/// Records what the begin of an attempt's job was answered, where there is something to record: a refusal ends the
/// attempt, and a call that failed is noted. No memory is taken.
fn follow<S: Site>(
    manager: &mut Manager<S>,
    site: &mut S,
    tag: &Tag,
    answer: BeginAnswer,
    now: Moment,
) -> Result<Acted, WorkFault>
    requires may { (H : List Event) × IsReady S.tells manager.old H (S.state site.old)
        × IsLegal manager.old.ledger.manager (with_events now (following tag.now answer) H) }
    requires quiet { HasNoNotice manager.old }
    ensures puts { (H : List Event) → IsReady S.tells manager.old H (S.state site.old)
        → IsLegal manager.old.ledger.manager (with_events now (following tag.now answer) H)
        → Puts S.tells (point manager.old.ledger.manager manager.old.ledger.saved now H)
        (following tag.now answer) result manager.new (S.state site.old) (S.state site.new) }
    ensures jobs { S.tells → KeepsJobs (S.state site.old) (S.state site.new) }
    ensures ended { IfOk result (λ done. done ≡ Acted.Recorded) }
    ensures taken { answer ≡ BeginAnswer.Begun → IsOk result }
    ensures memory { result ≢ Err WorkFault.Memory }
    ensures short { (n : ℕ) → result ≢ Err (WorkFault.TooLong n) }
    ensures disk { OnlyDiskFails (result ≡ Err WorkFault.Disk) (S.counts site.old) (S.counts site.new) }
{
    match answer {
        BeginAnswer::Begun => Ok(Acted::Recorded),
        BeginAnswer::Refused(code) => {
            let end = event_of(now, ended(*tag, Outcome::Broken(code)));
            put(manager, site, &end)
        }
        BeginAnswer::Failed => {
            let failure = event_of(now, EventKind::CallFailed(*tag));
            put(manager, site, &failure)
        }
    }
}

/// That an attempt ended so.
fn ended(tag: Tag, outcome: Outcome) -> EventKind
    ensures { result ≡ events.Settled tag outcome }
{
    EventKind::Settled { tag, outcome }
}

/// Puts an event about an attempt that has begun, in a journal that may fill its file. No memory is taken.
fn put<S: Site>(manager: &mut Manager<S>, site: &mut S, event: &Event) -> Result<Acted, WorkFault>
    requires may { (H : List Event) × IsReady S.tells manager.old H (S.state site.old)
        × IsAllowed manager.old.ledger.manager H event.now.kind }
    requires kind { is_of_attempt event.now.kind ≡ true }
    requires room { HasRoom event.now manager.old.tables }
    ensures puts { (H : List Event) → IsReady S.tells manager.old H (S.state site.old)
        → IsAllowed manager.old.ledger.manager H event.now.kind
        → Puts S.tells (point manager.old.ledger.manager manager.old.ledger.saved event.now.moment H)
        (event.now.kind ∷ []) result manager.new (S.state site.old) (S.state site.new) }
    ensures jobs { S.tells → KeepsJobs (S.state site.old) (S.state site.new) }
    ensures ended { IfOk result (λ done. done ≡ Acted.Recorded) }
    ensures memory { result ≢ Err WorkFault.Memory }
    ensures short { (n : ℕ) → result ≢ Err (WorkFault.TooLong n) }
    ensures disk { OnlyDiskFails (result ≡ Err WorkFault.Disk) (S.counts site.old) (S.counts site.new) }
{
    match manager.put(site, event, MAX_FILE) {
        Ok(()) => Ok(Acted::Recorded),
        Err(fault) => Err(fault),
    }
}

/// The empty name.
fn no_name() -> Name
    ensures { result ≡ [] }
{
    Name::of(b"").unwrap()
}

/// Looks at the job of the open attempt that began first, where `aborts` holds once the jobs of all the occurrence's
/// open attempts were aborted. It is the next action of its occurrence, and where the job has ended that is recorded.
/// All memory is taken before. An abort that failed or came too late is no end: the look says how the job stands.
///
/// Refusals: `Memory`, after which nothing was recorded or asked; `Full` and `Disk` as of recording an event: the
/// aborts and the look were made.
pub fn look<S: Site>(
    alloc: Global,
    manager: &mut Manager<S>,
    site: &mut S,
    occ: u64,
    tag: &Tag,
    aborts: bool,
    now: Moment,
) -> Result<Acted, WorkFault>
    requires ready { (H : List Event) × IsReady S.tells manager.old H (S.state site.old) × IsActive H occ
        × (next_action H occ ≡ Some (look_at aborts tag.now)) }
    ensures attempts { (H : List Event) → IsReady S.tells manager.old H (S.state site.old) → IsActive H occ
        → next_action H occ ≡ Some (look_at aborts tag.now)
        → (d : Deed) × (d.occ ≡ occ) × Attempts S.tells
        (point manager.old.ledger.manager manager.old.ledger.saved now H) d result manager.new
        (shows (S.state site.old) (S.counts site.old)) (shows (S.state site.new) (S.counts site.new)) }
    ensures short { (n : ℕ) → result ≢ Err (WorkFault.TooLong n) }
    ensures disk { DiskFails (result ≡ Err WorkFault.Disk) (S.counts site.old) (S.counts site.new) }
{
    works_add_up::<S>();
    next_actions_are_allowed();
    let done = event_of(now, ended(*tag, Outcome::Done(no_name())));
    manager.reserve_for(alloc, &done)?;
    let answer = inquire(manager, site, occ, tag, aborts);
    settle(manager, site, tag, answer, now)
}

/// Asks the infrastructure how the job of this attempt stands, where `aborts` holds once the jobs of all the
/// occurrence's open attempts were aborted.
fn inquire<S: Site>(
    manager: &Manager<S>,
    site: &mut S,
    occ: u64,
    tag: &Tag,
    aborts: bool,
) -> LookAnswer
    requires usable { manager.now.ledger.closed ≡ false }
    requires active { (H : List Event) × Keeps manager.now H × IsActive H occ }
    ensures asks { (H : List Event) → Keeps manager.now H → IsActive H occ
        → (each : List (Tag × AbortAnswer)) × (aborts ≡ true → map (λ a. a.0) each ≡ open_of H occ)
        × Inquires S.tells (look_exchange aborts each tag.now result)
        (shows (S.state site.old) (S.counts site.old)) (shows (S.state site.new) (S.counts site.new)) }
    ensures disk { (S.counts site.new).disk ≡ (S.counts site.old).disk }
{
    if aborts {
        abort_each(row_of(manager, occ).pending.as_slice(), site);
    }
    site.look(tag)
}

/// Aborts the jobs of these attempts, in order, whatever each is answered.
fn abort_each<S: Site>(pending: &[Pending], site: &mut S)
    ensures aborts { (each : List (Tag × AbortAnswer)) × (map (λ a. a.0) each ≡ map (λ p. p.tag) (reverse pending.now))
        × AbortsEach S.tells each
        (shows (S.state site.old) (S.counts site.old)) (shows (S.state site.new) (S.counts site.new)) }
{
    for attempt in pending {
        let _answer = site.abort(&attempt.tag);
    }
}

/// Records what a look at an attempt's job told, where the job has ended or there is none. No memory is taken.
fn settle<S: Site>(
    manager: &mut Manager<S>,
    site: &mut S,
    tag: &Tag,
    answer: LookAnswer,
    now: Moment,
) -> Result<Acted, WorkFault>
    requires may { (H : List Event) × IsReady S.tells manager.old H (S.state site.old) × (is_open H tag.now ≡ true) }
    requires room { HasRoom (record { moment = now; kind = events.Settled tag.now (Outcome.Done []) })
        manager.old.tables }
    ensures puts { (H : List Event) → IsReady S.tells manager.old H (S.state site.old) → is_open H tag.now ≡ true
        → Puts S.tells (point manager.old.ledger.manager manager.old.ledger.saved now H)
        (looking tag.now (answer_looked answer)) result manager.new (S.state site.old) (S.state site.new) }
    ensures jobs { S.tells → KeepsJobs (S.state site.old) (S.state site.new) }
    ensures ended { IfOk result (λ done. done ≡ ending (actions.Look tag.now) (answer_looked answer)) }
    ensures memory { result ≢ Err WorkFault.Memory }
    ensures short { (n : ℕ) → result ≢ Err (WorkFault.TooLong n) }
    ensures disk { OnlyDiskFails (result ≡ Err WorkFault.Disk) (S.counts site.old) (S.counts site.new) }
{
    match answer {
        LookAnswer::Running => Ok(Acted::Waiting),
        LookAnswer::Failed => Ok(Acted::Unreached),
        LookAnswer::Absent => end(manager, site, tag, Outcome::NotBegun, now),
        LookAnswer::Done(name) => end(manager, site, tag, Outcome::Done(name), now),
        LookAnswer::Broken(code) => end(manager, site, tag, Outcome::Broken(code), now),
        LookAnswer::Aborted => end(manager, site, tag, Outcome::Aborted, now),
    }
}

/// Records that an open attempt has ended so. No memory is taken.
fn end<S: Site>(
    manager: &mut Manager<S>,
    site: &mut S,
    tag: &Tag,
    outcome: Outcome,
    now: Moment,
) -> Result<Acted, WorkFault>
    requires may { (H : List Event) × IsReady S.tells manager.old H (S.state site.old) × (is_open H tag.now ≡ true) }
    requires room { HasRoom (record { moment = now; kind = events.Settled tag.now (Outcome.Done []) })
        manager.old.tables }
    ensures puts { (H : List Event) → IsReady S.tells manager.old H (S.state site.old) → is_open H tag.now ≡ true
        → Puts S.tells (point manager.old.ledger.manager manager.old.ledger.saved now H)
        (events.Settled tag.now outcome ∷ []) result manager.new (S.state site.old) (S.state site.new) }
    ensures jobs { S.tells → KeepsJobs (S.state site.old) (S.state site.new) }
    ensures ended { IfOk result (λ done. done ≡ Acted.Recorded) }
    ensures memory { result ≢ Err WorkFault.Memory }
    ensures short { (n : ℕ) → result ≢ Err (WorkFault.TooLong n) }
    ensures disk { OnlyDiskFails (result ≡ Err WorkFault.Disk) (S.counts site.old) (S.counts site.new) }
{
    let settled = event_of(now, ended(*tag, outcome));
    put(manager, site, &settled)
}
