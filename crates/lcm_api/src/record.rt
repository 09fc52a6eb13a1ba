//! Recording the event of a request, and then giving its reply.
ghost use Rattle.std.specs.Prelude.{◌≡◌, ◌∷◌, List, IfOk, false};
ghost use Rattle.lcm_events.specs.declared.events.Event.{Event};
ghost use Rattle.site_traits.specs.Counts.{OnlyDiskFails};
ghost use Rattle.executor.specs.Managed.{IsReady, Keeps};
ghost use Rattle.executor.specs.Room.{is_full};
ghost use Rattle.executor.specs.Work.{Works};
ghost use Rattle.lcm_api.specs.Answering.{answered};
ghost use Rattle.lcm_api.specs.Recording.{FitsBehind, MayCarryOut};
ghost use Rattle.lcm_api.specs.Planning.{in_room, recorded};

use crate::answering::ApiFault;
use executor::{Manager, WorkFault, works_add_up};
use lcm_events::Event;
use lcm_replies::{Reply, refusal};
use site_traits::Site;
use std::alloc::Global;

/// Bytes of the journal up to which requests are taken. What works on behind them has the rest.
pub const MAX_REQUESTED: u64 = 201_326_592;

/// What a request comes to: a reply and no event, or the event and the reply that acknowledges it.
#[derive(Drop)]
pub enum Planned {
    /// Nothing is recorded.
    Told(Reply),
    /// The event is recorded, and then this reply is given.
    Records(Event, Reply),
}

/// Records what is planned, and gives the reply.
///
/// Refusals: `Memory`, after which nothing has changed; `Disk`, after which the manager is closed.
pub fn carry_out<S: Site>(
    alloc: Global,
    manager: &mut Manager<S>,
    site: &mut S,
    planned: Planned,
    last: bool,
) -> Result<Reply, ApiFault>
    requires ready { (H : List Event) × IsReady S.tells manager.old H (S.state site.old)
        × MayCarryOut manager.old H planned }
    ensures reply { (H : List Event) → Keeps manager.old H
        → IfOk result (λ given. given
        ≡ (in_room (is_full MAX_REQUESTED manager.old.ledger.saved) H last planned).reply) }
    ensures works { (H : List Event) → IsReady S.tells manager.old H (S.state site.old)
        → MayCarryOut manager.old H planned
        → Works S.tells manager.old.ledger.manager H
        (answered (in_room (is_full MAX_REQUESTED manager.old.ledger.saved) H last planned) H result) manager.new
        (S.state site.old) (S.state site.new) }
    ensures saved { manager.new.ledger.saved ≡ manager.old.ledger.saved }
    ensures counts { OnlyDiskFails (result ≡ Err ApiFault.Disk) (S.counts site.old) (S.counts site.new) }
{
    works_add_up::<S>();
    match planned {
        Planned::Told(reply) => Ok(reply),
        Planned::Records(event, reply) => {
            let answer = record(alloc, manager, site, &event, reply, last);
            drop(event);
            answer
        }
    }
}

/// Records the event, and then gives the reply. Where there is no room for it, it is refused.
fn record<S: Site>(
    alloc: Global,
    manager: &mut Manager<S>,
    site: &mut S,
    event: &Event,
    reply: Reply,
    last: bool,
) -> Result<Reply, ApiFault>
    requires fits { (H : List Event) × IsReady S.tells manager.old H (S.state site.old)
        × FitsBehind manager.old H event.now }
    ensures reply { (H : List Event) → Keeps manager.old H
        → IfOk result (λ given. given ≡ (recorded (is_full MAX_REQUESTED manager.old.ledger.saved (event.now ∷ H))
        event.now reply last).reply) }
    ensures works { (H : List Event) → IsReady S.tells manager.old H (S.state site.old)
        → FitsBehind manager.old H event.now → Works S.tells manager.old.ledger.manager H
        (answered (recorded (is_full MAX_REQUESTED manager.old.ledger.saved (event.now ∷ H)) event.now reply last) H
        result) manager.new (S.state site.old) (S.state site.new) }
    ensures saved { manager.new.ledger.saved ≡ manager.old.ledger.saved }
    ensures counts { OnlyDiskFails (result ≡ Err ApiFault.Disk) (S.counts site.old) (S.counts site.new) }
{
    match manager.commit(alloc, site, event, MAX_REQUESTED) {
        Ok(()) => Ok(reply),
        Err(WorkFault::Full { .. }) => Ok(refusal(alloc, 507, "journal full", last)?),
        // A request's event is no longer than a record.
        Err(WorkFault::TooLong(_)) => unreachable!(),
        Err(WorkFault::Memory) => Err(ApiFault::Memory),
        Err(WorkFault::Disk) => Err(ApiFault::Disk),
    }
}
