//! What becomes of a descriptor that was heard: it is read, judged by the history, and its event is recorded.
ghost use Rattle.std.specs.Prelude.{◌≡◌, ℕ, List, length};
ghost use Rattle.executor.specs.Managed.{IsReady, Keeps, MayRecord};
ghost use Rattle.executor.specs.Room.{TellsRoom};
ghost use Rattle.executor.specs.Work.{Works, recorded};
ghost use Rattle.lcm_events.specs.declared.events.Event.{Event};
ghost use Rattle.lcm_events.specs.declared.events.EventKind.TheVariants.{Onboarded as OnboardedKind};
ghost use Rattle.lcm_model.specs.Descriptors.{IsValid};
ghost use Rattle.lcm_sessions.specs.Judging.{Judges, JudgesNew, OnboardingsMayBeRecorded};
ghost use Rattle.lcm_sessions.specs.Onboarding.{ended_by, judged_answer, worked};
ghost use Rattle.lcm_sessions.specs.Verdict.{onboarded, verdict};
ghost use Rattle.journal_records.specs.declared.limits.TheConstants.{MAX_FILE};
ghost use Rattle.site_traits.specs.Counts.{OnlyDiskFails};

use crate::answer::{DescriptorRefusal, OnboardFault, Onboarded};
use crate::limits::MAX_DESCRIPTORS;
use executor::{Manager, WorkFault, works_add_up};
use journal_core::MAX_FILE;
use lcm_events::{Event, EventKind, Vnfd};
use site_traits::Site;
use std::alloc::Global;
use vnfd_reader::{VnfdFault, read};
use vnfm_base::Moment;

/// Judges the descriptor of these bytes, and records it. All memory is taken before its event is appended.
pub fn take_in<S: Site>(
    alloc: Global,
    manager: &mut Manager<S>,
    site: &mut S,
    bytes: &[u8],
    now: Moment,
) -> Result<Onboarded, OnboardFault>
    requires ready { (H : List Event) × IsReady S.tells manager.old H (S.state site.old) }
    ensures answer { (H : List Event) → Keeps manager.old H
        → result ≡ judged_answer (verdict manager.old.ledger.saved H now bytes.now) (ended_by result) }
    ensures works { (H : List Event) → IsReady S.tells manager.old H (S.state site.old)
        → Works S.tells manager.old.ledger.manager H
        (worked H (onboarded now (verdict manager.old.ledger.saved H now bytes.now)) (ended_by result)) manager.new
        (S.state site.old) (S.state site.new) }
    ensures saved { manager.new.ledger.saved ≡ manager.old.ledger.saved }
    ensures disk { OnlyDiskFails (result ≡ Err OnboardFault.Disk) (S.counts site.old) (S.counts site.new) }
{
    works_add_up::<S>();
    let vnfd = judge(alloc, manager, bytes)?;
    let said = said_of(&vnfd);
    let event = onboarding(now, vnfd);
    let recorded = record_event(alloc, manager, site, &event);
    drop(event);
    recorded?;
    Ok(said)
}

/// Records the event of a descriptor, which may take the journal to the end of its file.
fn record_event<S: Site>(
    alloc: Global,
    manager: &mut Manager<S>,
    site: &mut S,
    event: &Event,
) -> Result<(), WorkFault>
    requires { (H : List Event) × IsReady S.tells manager.old H (S.state site.old)
        × MayRecord manager.old.ledger.manager H event.now }
    ensures works { (H : List Event) → IsReady S.tells manager.old H (S.state site.old)
        → MayRecord manager.old.ledger.manager H event.now
        → Works S.tells manager.old.ledger.manager H (recorded H event.now result) manager.new (S.state site.old)
        (S.state site.new) }
    ensures saved { manager.new.ledger.saved ≡ manager.old.ledger.saved }
    ensures room { (H : List Event) → Keeps manager.old H
        → TellsRoom MAX_FILE manager.old.ledger.saved H event.now result }
    ensures disk { OnlyDiskFails (result ≡ Err WorkFault.Disk) (S.counts site.old) (S.counts site.new) }
{
    manager.commit(alloc, site, event, MAX_FILE)
}

/// The descriptor of these bytes, where it may be onboarded.
fn judge<S: Site>(alloc: Global, manager: &Manager<S>, bytes: &[u8]) -> Result<Vnfd, OnboardFault>
    ensures judged { (H : List Event) → Keeps manager.now H → Judges H bytes.now result }
{
    match read(alloc, bytes) {
        Ok(vnfd) => judge_new(manager, vnfd),
        Err(VnfdFault::Memory) => Err(OnboardFault::Memory),
        Err(fault) => Err(OnboardFault::Refused(DescriptorRefusal::Unread(fault))),
    }
}

/// A descriptor that was read, where the history lets it be onboarded.
fn judge_new<S: Site>(manager: &Manager<S>, vnfd: Vnfd) -> Result<Vnfd, OnboardFault>
    requires valid { IsValid vnfd }
    ensures judged { (H : List Event) → Keeps manager.now H → JudgesNew H vnfd result }
{
    if manager.vnfd(&vnfd.descriptor_id).is_some() {
        return Err(OnboardFault::Refused(DescriptorRefusal::IsOnboarded));
    }
    if manager.descriptors() >= MAX_DESCRIPTORS {
        return Err(OnboardFault::Refused(DescriptorRefusal::TooMany));
    }
    Ok(vnfd)
}

/// What is said of a descriptor.
fn said_of(vnfd: &Vnfd) -> Onboarded
    ensures { result ≡ record {
      id = vnfd.now.descriptor_id;
      vdus = length vnfd.now.vdus;
      aspects =
          length vnfd.now.aspects;
      levels = length vnfd.now.levels;
    } }
{
    Onboarded {
        id: vnfd.descriptor_id,
        vdus: vnfd.vdus.len(),
        aspects: vnfd.aspects.len(),
        levels: vnfd.levels.len(),
    }
}

/// The event that a descriptor was onboarded.
fn onboarding(moment: Moment, vnfd: Vnfd) -> Event
    ensures { result ≡ record { moment = moment; kind = OnboardedKind vnfd } }
{
    Event {
        moment,
        kind: EventKind::Onboarded(vnfd),
    }
}

/// That the event of a descriptor that may be onboarded may be recorded: it keeps the format's rules. It does nothing,
/// and its contract is the law.
///
/// Source: own rule, docs/EVENTS.md.
pub fn onboardings_may_be_recorded()
    ensures { OnboardingsMayBeRecorded }
{}
