//! What the words of a command line have done: a journal is made, a descriptor is onboarded, rounds are made, what a
//! journal has is counted, a journal of format 1 is migrated, or a trial is made.
ghost use Rattle.std.specs.Prelude.{◌≡◌, ◌≢◌, ◌↔◌, ℕ, List, None, Result, true};
ghost use Rattle.command_line.specs.Words.{settings_of};
ghost use Rattle.command_line.specs.declared.options.Command.TheVariants.{Migrate, Onboard, Trial};
ghost use Rattle.executor.specs.Managed.{IsReady};
ghost use Rattle.journal_core.specs.Create.{Creates};
ghost use Rattle.journal_core.specs.declared.create.CreateFault.{CreateFault};
ghost use Rattle.journal_migration.specs.declared.migration.MigrateFault.{MigrateFault};
ghost use Rattle.lcm_events.specs.declared.events.Event.{Event};
ghost use Rattle.lcm_trial.specs.declared.counts.Tried.{Tried as Numbers};
ghost use Rattle.lcm_trial.specs.declared.counts.TrialFault.{TrialFault};
ghost use Rattle.occ_work.specs.Around.{CountJobsAlike, DiskFails};
ghost use Rattle.site_traits.specs.Counts.{OnlyDiskFails};
ghost use Rattle.site_traits.specs.Site.{KeepsJobs};
ghost use Rattle.vnfm_commands.specs.Course.{Course, Activity, IsActivityOf, IsOf, activity_ending, ending_of};
ghost use Rattle.vnfm_commands.specs.Course.{making_ending, migrating_ending, served_role, trying_ending};
ghost use Rattle.vnfm_commands.specs.Moving.{Moves, MovesOrStarves, spare_of};
ghost use Rattle.vnfm_commands.specs.Outside.{outside, telling};
ghost use Rattle.vnfm_commands.specs.Runs.{Pursues, Does, Runs};
ghost use Rattle.vnfm_commands.specs.Trying.{Tries};
ghost use Rattle.vnfm_commands.specs.Words.{AreServing, AreWordsOf, loads, makes_rounds};

use crate::ending::{Ending, Failure, Report};
use crate::rounds::{ServedRole, make_rounds};
use crate::totals::count_all;
use command_line::{Command, Settings, settings};
use executor::{Manager, works_add_up, works_with_jobs_add_up};
use journal_core::{Journal, faults_are_counted};
use journal_migration::migrate;
use lcm_events::Role;
use lcm_mouth::Mouth;
use lcm_sessions::onboard;
use lcm_trial::make_trial;
use site_traits::{Clock, Courier, Door, Orchestrator, Site};
use std::alloc::Global;
use vnfm_base::Text;

/// Obeys the words, but for the line: how the run ends.
///
/// What each command does, and with which failure it ends, is told at `run` of the crate above.
/// Source: SOL 003 clause 5; words and commands are an own rule, docs/FORMATS.md.
pub fn obey<S: Site, T: Site, D: Door, O: Orchestrator, C: Courier, K: Clock>(
    alloc: Global,
    words: &[Text],
    site: &mut S,
    spare: &mut T,
    mouth: &mut Mouth<D>,
    orchestrator: &mut O,
    courier: &mut C,
    clock: &mut K,
) -> Ending
    ensures runs { (course : Course) × Runs (telling S.tells D.tells O.tells C.tells K.tells) words.now course
        (outside (S.state site.old) (S.counts site.old) mouth.old (O.state orchestrator.old) (O.counts orchestrator.old)
        (C.state courier.old) (C.counts courier.old) (K.state clock.old))
        (outside (S.state site.new) (S.counts site.new) mouth.new (O.state orchestrator.new) (O.counts orchestrator.new)
        (C.state courier.new) (C.counts courier.new) (K.state clock.new))
        × (result ≡ ending_of course) }
    ensures unasked { ¬ (AreServing words.now) → orchestrator.new ≡ orchestrator.old }
    ensures unposted { ¬ (AreServing words.now) → courier.new ≡ courier.old }
    ensures unheard { ¬ (AreWordsOf Onboard words.now) → ¬ (AreServing words.now) → mouth.new ≡ mouth.old }
    ensures untimed { ¬ (AreWordsOf Onboard words.now) → ¬ (AreServing words.now) → clock.new ≡ clock.old }
    ensures uncalled { AreWordsOf Trial words.now → site.new ≡ site.old }
    ensures spared { ¬ (AreWordsOf Migrate words.now) → spare.new ≡ spare.old }
    ensures moves { AreWordsOf Migrate words.now → MovesOrStarves S.tells T.tells result
        (spare_of (S.state site.old) (S.counts site.old)) (spare_of (S.state site.new) (S.counts site.new))
        (spare_of (T.state spare.old) (T.counts spare.old)) (spare_of (T.state spare.new) (T.counts spare.new)) }
    ensures usage { (result ≡ Err Failure.Usage) ↔ (settings_of words.now ≡ None) }
    ensures disk { ¬ (AreWordsOf Migrate words.now) → ¬ (AreWordsOf Trial words.now)
        → DiskFails (result ≡ Err Failure.SiteFault) (S.counts site.old) (S.counts site.new) }
    ensures untouched_jobs { ¬ (AreServing words.now) → CountJobsAlike (S.counts site.old) (S.counts site.new) }
{
    works_add_up::<S>();
    let settings = settings(alloc, words)?;
    perform(
        alloc,
        &settings,
        site,
        spare,
        mouth,
        orchestrator,
        courier,
        clock,
    )
}

/// Performs the command: makes the journal, migrates it, makes a trial, or opens the journal, and then onboards a
/// descriptor, makes the rounds that the words set, or counts what the journal has.
fn perform<S: Site, T: Site, D: Door, O: Orchestrator, C: Courier, K: Clock>(
    alloc: Global,
    settings: &Settings,
    site: &mut S,
    spare: &mut T,
    mouth: &mut Mouth<D>,
    orchestrator: &mut O,
    courier: &mut C,
    clock: &mut K,
) -> Ending
    ensures does { (course : Course) × IsOf settings.now course
        × Does (telling S.tells D.tells O.tells C.tells K.tells) course
        (outside (S.state site.old) (S.counts site.old) mouth.old (O.state orchestrator.old) (O.counts orchestrator.old)
        (C.state courier.old) (C.counts courier.old) (K.state clock.old))
        (outside (S.state site.new) (S.counts site.new) mouth.new (O.state orchestrator.new) (O.counts orchestrator.new)
        (C.state courier.new) (C.counts courier.new) (K.state clock.new))
        × (result ≡ ending_of course) }
    ensures unasked { makes_rounds settings.now.command ≢ true → orchestrator.new ≡ orchestrator.old }
    ensures unposted { makes_rounds settings.now.command ≢ true → courier.new ≡ courier.old }
    ensures unheard { settings.now.command ≢ Onboard → makes_rounds settings.now.command ≢ true
        → mouth.new ≡ mouth.old }
    ensures untimed { settings.now.command ≢ Onboard → makes_rounds settings.now.command ≢ true
        → clock.new ≡ clock.old }
    ensures uncalled { settings.now.command ≡ Trial → site.new ≡ site.old }
    ensures spared { settings.now.command ≢ Migrate → spare.new ≡ spare.old }
    ensures moves { settings.now.command ≡ Migrate → (moved : Result ℕ MigrateFault)
        × (result ≡ migrating_ending moved) × Moves S.tells T.tells moved
        (spare_of (S.state site.old) (S.counts site.old)) (spare_of (S.state site.new) (S.counts site.new))
        (spare_of (T.state spare.old) (T.counts spare.old)) (spare_of (T.state spare.new) (T.counts spare.new)) }
    ensures disk { settings.now.command ≢ Migrate → settings.now.command ≢ Trial
        → DiskFails (result ≡ Err Failure.SiteFault) (S.counts site.old) (S.counts site.new) }
    ensures untouched_jobs { makes_rounds settings.now.command ≢ true → CountJobsAlike (S.counts site.old) (S.counts site.new) }
{
    works_add_up::<S>();
    works_with_jobs_add_up::<S>();
    match settings.command {
        Command::Init => init(settings.manager, site),
        Command::Onboard => {
            let mut manager = Manager::load(alloc, site)?;
            Ok(Report::Onboarded(onboard(alloc, &mut manager, site, mouth, clock)?))
        }
        Command::Once | Command::Serve => {
            let mut manager = Manager::load(alloc, site)?;
            make_rounds(
                alloc,
                settings.rounds,
                served_role(settings.command, settings.role),
                &mut manager,
                site,
                mouth,
                orchestrator,
                courier,
                clock,
            )
        }
        Command::Check => {
            let manager = Manager::load(alloc, site)?;
            Ok(Report::Counted(count_all(&manager)))
        }
        Command::Migrate => move_journal(alloc, site, spare),
        Command::Trial => play_trial(alloc, settings.start, settings.count),
    }
}

/// For whom a command serves connections whose words state this role: `serve` for the one that the door tells.
fn served_role(command: Command, role: Role) -> ServedRole
    ensures { result ≡ served_role command role }
{
    match command {
        Command::Serve => ServedRole::ByDoor,
        Command::Init
        | Command::Onboard
        | Command::Once
        | Command::Check
        | Command::Migrate
        | Command::Trial => ServedRole::Stated(role),
    }
}

/// Makes the journal of this manager.
fn init<S: Site>(manager: u32, site: &mut S) -> Ending
    ensures makes { (making : Result (Unit {0}) CreateFault)
        × (S.tells → Creates manager making (S.state site.old) (S.state site.new))
        × (result ≡ making_ending manager making) }
    ensures jobs { S.tells → KeepsJobs (S.state site.old) (S.state site.new) }
    ensures disk { OnlyDiskFails (result ≡ Err Failure.SiteFault) (S.counts site.old) (S.counts site.new) }
{
    faults_are_counted();
    Journal::create(site, manager)?;
    Ok(Report::Made(manager))
}

/// Makes the spare file of the journal of format 1 in the site's file.
fn move_journal<S: Site, T: Site>(alloc: Global, site: &mut S, spare: &mut T) -> Ending
    ensures { (moved : Result ℕ MigrateFault) × (result ≡ migrating_ending moved) × Moves S.tells T.tells moved
        (spare_of (S.state site.old) (S.counts site.old)) (spare_of (S.state site.new) (S.counts site.new))
        (spare_of (T.state spare.old) (T.counts spare.old)) (spare_of (T.state spare.new) (T.counts spare.new)) }
{
    let records = migrate(alloc, site, spare)?;
    Ok(Report::Migrated(records))
}

/// Makes the trial of this start and so many steps.
fn play_trial(alloc: Global, start: u64, count: u32) -> Ending
    ensures { (tried : Result Numbers TrialFault) × (result ≡ trying_ending tried) × Tries start count tried }
{
    let tried = make_trial(alloc, start, count)?;
    Ok(Report::Tried(tried))
}
