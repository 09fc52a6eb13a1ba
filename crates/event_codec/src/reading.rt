//! Bytes to an event: the event of which they are the spelling, and nothing else.
ghost use Rattle.std.specs.Prelude.{◌≡◌, IfOk};
ghost use Rattle.lcm_events.specs.declared.events.Event.{Event as Seen};
ghost use Rattle.event_codec.specs.Gives.{GivesWhole};
ghost use Rattle.event_codec.specs.Readers.{whole_event};
ghost use Rattle.event_codec.specs.Spell.{spelling};
ghost use Rattle.event_codec.specs.Valid.{IsEvent};

use crate::fault::DecodeFault;
use crate::input::Input;
use crate::kinds;
use lcm_events::Event;
use std::alloc::Global;

/// The event of which the bytes are the spelling.
///
/// Takes the memory of the event, which is linear in the bytes.
/// Refusals: `NotEvent` exactly where the bytes are no event's spelling; `Memory`.
/// Source: own format, docs/EVENTS.md.
pub fn decode(alloc: Global, bytes: &[u8]) -> Result<Event, DecodeFault>
    ensures found { IfOk result (λ e. IsEvent e × (bytes.now ≡ spelling e)) }
    ensures again { (e : Seen) → IsEvent e → bytes.now ≡ spelling e → IfOk result (λ f. f ≡ e) }
    ensures none { result ≡ Err DecodeFault.NotEvent → (e : Seen) → IsEvent e → bytes.now ≡ spelling e → ⊥ }
{
    whole(alloc, bytes)
}

/// The event that all of the bytes are read as.
#[tactic(auto, unfolding(crate::specs::Readers::whole_event))]
fn whole(alloc: Global, bytes: &[u8]) -> Result<Event, DecodeFault>
    ensures { GivesWhole result (whole_event bytes.now) }
{
    let mut input = Input::new(bytes);
    let event = kinds::event(alloc, &mut input)?;
    if !input.is_empty() {
        return Err(DecodeFault::NotEvent);
    }
    Ok(event)
}
