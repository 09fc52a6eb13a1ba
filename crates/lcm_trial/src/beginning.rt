//! How a trial begins: its journal is made, and its descriptor is onboarded.
ghost use Rattle.std.specs.Prelude.{◌≡◌, ◌≢◌, IfOk, OnOk, Err, Ok, []};
ghost use Rattle.lcm_trial.specs.declared.descriptor.TheConstants.{DESCRIPTOR};
ghost use Rattle.executor.specs.Managed.{IsReady};
ghost use Rattle.executor.specs.Work.{Works, went};
ghost use Rattle.lcm_events.specs.declared.events.EventKind.TheVariants.{Onboarded};
ghost use Rattle.lcm_model.specs.Descriptors.{IsValid};
ghost use Rattle.lcm_trial.specs.Beginning.{Begins, IsMadeBy};
ghost use Rattle.lcm_trial.specs.Stages.{first_history};
ghost use Rattle.site_traits.specs.Site.{KeepsJobs};
ghost use Rattle.trial_outside.specs.TrialSite.{IsFreshSite, state_of};
ghost use Rattle.vnfd_reader.specs.Answer.{answer};

use crate::counts::TrialFault;
use crate::descriptor::descriptor_text;
use crate::requests::MANAGER;
use executor::{Manager, a_file_has_one_history, works_add_up};
use journal_core::{Journal, MAX_FILE};
use lcm_events::{Event, EventKind, Vnfd};
use lcm_sessions::onboardings_may_be_recorded;
use std::alloc::Global;
use trial_outside::TrialSite;
use vnfd_reader::read;
use vnfm_base::Moment;

/// The manager of a trial before its first step, over a fresh site: the one event of its history is that its descriptor
/// was onboarded.
pub fn first_manager(alloc: Global, site: &mut TrialSite) -> Result<Manager<TrialSite>, TrialFault>
    requires fresh { IsFreshSite site.old }
    ensures begins { IfOk result (λ m. Begins m (state_of site.new)) }
    ensures short { result ≢ Err TrialFault.Room }
{
    works_add_up::<TrialSite>();
    let mut manager = made_manager(alloc, site)?;
    onboard(alloc, &mut manager, site)?;
    Ok(manager)
}

/// The manager of a journal that is made in the site's file, with no event.
fn made_manager(alloc: Global, site: &mut TrialSite) -> Result<Manager<TrialSite>, TrialFault>
    ensures made { IfOk result (λ m. IsMadeBy m (state_of site.new)) }
    ensures jobs { OnOk result (KeepsJobs (state_of site.old) (state_of site.new)) }
    ensures short { result ≢ Err TrialFault.Room }
{
    works_add_up::<TrialSite>();
    a_file_has_one_history();
    let Ok(()) = Journal::create(site, MANAGER) else {
        return Err(TrialFault::Memory);
    };
    match Manager::load(alloc, site) {
        Ok(manager) => Ok(manager),
        Err(_) => Err(TrialFault::Memory),
    }
}

/// Onboards the descriptor of a trial.
fn onboard(
    alloc: Global,
    manager: &mut Manager<TrialSite>,
    site: &mut TrialSite,
) -> Result<(), TrialFault>
    requires made { IsMadeBy manager.old (state_of site.old) }
    ensures works { OnOk result (Works (Unit {0}) manager.old.ledger.manager [] (went first_history) manager.new
        (state_of site.old) (state_of site.new)) }
    ensures saved { manager.new.ledger.saved ≡ manager.old.ledger.saved }
    ensures short { result ≢ Err TrialFault.Room }
{
    onboardings_may_be_recorded();
    let event = onboarding(descriptor(alloc)?);
    match manager.commit(alloc, site, &event, MAX_FILE) {
        Ok(()) => Ok(()),
        Err(_) => Err(TrialFault::Memory),
    }
}

/// The descriptor of a trial.
fn descriptor(alloc: Global) -> Result<Vnfd, TrialFault>
    ensures read { IfOk result (λ vnfd. (answer DESCRIPTOR.now ≡ Ok vnfd) × IsValid vnfd) }
    ensures short { result ≢ Err TrialFault.Room }
{
    match read(alloc, descriptor_text()) {
        Ok(vnfd) => Ok(vnfd),
        Err(_) => Err(TrialFault::Memory),
    }
}

/// The event that a descriptor was onboarded, at moment 0.
fn onboarding(vnfd: Vnfd) -> Event
    ensures { result ≡ record { moment = 0; kind = Onboarded vnfd } }
{
    Event {
        moment: Moment::of(0),
        kind: EventKind::Onboarded(vnfd),
    }
}
