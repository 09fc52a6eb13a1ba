//! Onboarding: a connection's bytes are heard, and their descriptor is taken in.
ghost use Rattle.std.specs.Prelude.{◌≡◌, ◌≤◌, IfOk, IfSome, IsUtf8, List, None, false, length};
ghost use Rattle.serde_json.specs.Read.{read};
ghost use Rattle.executor.specs.Managed.{IsReady};
ghost use Rattle.lcm_mouth.specs.World.{telling, world};
ghost use Rattle.lcm_events.specs.declared.events.Event.{Event};
ghost use Rattle.lcm_sessions.specs.Doing.{HearsDescriptor, Onboards, OnlyDoorFails};
ghost use Rattle.lcm_sessions.specs.Onboarding.{Onboarding, answer_of, is_no_object};
ghost use Rattle.site_traits.specs.Counts.{OnlyDiskFails};

use crate::answer::{DescriptorRefusal, OnboardFault, Onboarded};
use crate::judge::take_in;
use crate::limits::MAX_READ;
use executor::{Manager, works_add_up};
use lcm_mouth::Mouth;
use serde_json::Value;
use served_account::JsonBreak;
use site_traits::{Clock, Door, NextAnswer, Site};
use std::alloc::Global;
use vnfd_reader::VnfdFault;
use vnfm_base::Moment;

/// Onboards the descriptor that the door's first connection brings.
///
/// The connection is read to its end or to its 1,048,577th byte, and then ended; where nobody comes the descriptor is
/// empty. Then the clock is read, the descriptor is judged, and its event is recorded. Of bytes that are no JSON the
/// mouth notes, for a person, where they end being that. The first of these that fails gives the answer: `Door` exactly
/// where a call of the door failed, `Disk` exactly where one of the disk did.
/// Conditions: the manager isn't closed, and its file has its history.
/// Source: SOL 001, in the form of docs/DESCRIPTORS.md; the limits are an own rule.
pub fn onboard<S: Site, D: Door, K: Clock>(
    alloc: Global,
    manager: &mut Manager<S>,
    site: &mut S,
    mouth: &mut Mouth<D>,
    clock: &mut K,
) -> Result<Onboarded, OnboardFault>
    requires ready { (H : List Event) × IsReady S.tells manager.old H (S.state site.old) }
    ensures onboards { (H : List Event) → IsReady S.tells manager.old H (S.state site.old) → (o : Onboarding)
        × Onboards (telling S.tells D.tells K.tells) manager.old.ledger.manager manager.old.ledger.saved H o manager.new
        (world (S.state site.old) mouth.old (K.state clock.old))
        (world (S.state site.new) mouth.new (K.state clock.new))
        × (result ≡ answer_of manager.old.ledger.saved H o) }
    ensures disk { OnlyDiskFails (result ≡ Err OnboardFault.Disk) (S.counts site.old) (S.counts site.new) }
    ensures door { OnlyDoorFails (result ≡ Err OnboardFault.Door) mouth.old.wire.intake.counts
        mouth.new.wire.intake.counts }
{
    works_add_up::<S>();
    let mut room = vec![in alloc; 0; MAX_READ]?;
    onboard_into(alloc, manager, site, mouth, clock, room.as_mut_slice())
}

/// The same, with room for the descriptor.
fn onboard_into<S: Site, D: Door, K: Clock>(
    alloc: Global,
    manager: &mut Manager<S>,
    site: &mut S,
    mouth: &mut Mouth<D>,
    clock: &mut K,
    room: &mut [u8],
) -> Result<Onboarded, OnboardFault>
    requires room { length room.old ≡ MAX_READ }
    requires ready { (H : List Event) × IsReady S.tells manager.old H (S.state site.old) }
    ensures onboards { (H : List Event) → IsReady S.tells manager.old H (S.state site.old) → (o : Onboarding)
        × Onboards (telling S.tells D.tells K.tells) manager.old.ledger.manager manager.old.ledger.saved H o manager.new
        (world (S.state site.old) mouth.old (K.state clock.old))
        (world (S.state site.new) mouth.new (K.state clock.new))
        × (result ≡ answer_of manager.old.ledger.saved H o) }
    ensures disk { OnlyDiskFails (result ≡ Err OnboardFault.Disk) (S.counts site.old) (S.counts site.new) }
{
    works_add_up::<S>();
    let count = hear(mouth, room)?;
    let now = Moment::of(clock.now());
    let answer = take_in(alloc, manager, site, &room[..count], now);
    blame(alloc, mouth, &room[..count], &answer);
    answer
}

/// Whether the bytes were refused as no JSON object.
fn is_no_object(answer: &Result<Onboarded, OnboardFault>) -> bool
    ensures { result ≡ is_no_object answer.now }
{
    let Err(fault) = answer else {
        return false;
    };
    let OnboardFault::Refused(refusal) = fault else {
        return false;
    };
    let DescriptorRefusal::Unread(fault) = refusal else {
        return false;
    };
    matches!(fault, VnfdFault::NotJson)
}

/// Where the bytes end being JSON, if they do.
fn json_break(alloc: Global, bytes: &[u8]) -> Option<JsonBreak>
    ensures { IfSome result (λ at. IsUtf8 bytes.now → read bytes.now ≡ None) }
{
    let Err(error) = Value::from_slice(alloc, bytes) else {
        return None;
    };
    if error.is_memory() {
        return None;
    }
    Some(JsonBreak {
        line: error.line(),
        column: error.column(),
    })
}

/// Notes for a person where the bytes end being JSON, where they were refused as no JSON object. Nothing else changes.
fn blame<D: Door>(
    alloc: Global,
    mouth: &mut Mouth<D>,
    bytes: &[u8],
    answer: &Result<Onboarded, OnboardFault>,
)
    ensures noted { mouth.new ≡ record mouth.old { account = mouth.new.account } }
    ensures only { is_no_object answer.now ≡ false → mouth.new ≡ mouth.old }
{
    if is_no_object(answer) {
        mouth.note_break(json_break(alloc, bytes));
    }
}

/// Why no descriptor was heard.
#[derive(Clone, Copy)]
enum Unheard {
    /// Waiting for a connection failed.
    Waiting,
    /// A read failed.
    Reading,
}

impl From<Unheard> for OnboardFault {
    ghost use Rattle.lcm_sessions.specs.declared.answer.OnboardFault.TheVariants.{Door};

    ghost from_gives = { λ _ fault. fault ≡ Door };

    fn from(_: Unheard) -> OnboardFault {
        OnboardFault::Door
    }
}

/// Reads the first connection's bytes into the room, and says how many there are; none where nobody comes.
fn hear<D: Door>(mouth: &mut Mouth<D>, room: &mut [u8]) -> Result<usize, Unheard>
    requires room { length room.old ≡ MAX_READ }
    ensures within { IfOk result (λ count. count ≤ length room.new) }
    ensures heard { HearsDescriptor D.tells result room.new mouth.old mouth.new }
    ensures unnoted { mouth.new.told ≡ mouth.old.told }
{
    match mouth.next() {
        NextAnswer::Came(_) => {
            let reading = mouth.read_to_end(room);
            mouth.hang_up();
            if reading.failed {
                Err(Unheard::Reading)
            } else {
                Ok(reading.count)
            }
        }
        NextAnswer::Nobody => Ok(0),
        NextAnswer::Ended => Ok(0),
        NextAnswer::Failed => Err(Unheard::Waiting),
    }
}
