//! The kinds of events, one reading function each.
ghost use Rattle.std.specs.Prelude.{◌≡◌};
ghost use Rattle.event_codec.specs.Gives.{Gives};
ghost use Rattle.event_codec.specs.Readers.{onboarded_at, created_at, deleted_at, asked_at, grant_tried_at, granted_at};
ghost use Rattle.event_codec.specs.Readers.{denied_at, intent_at, call_failed_at, settled_at, moved_kind_at};
ghost use Rattle.event_codec.specs.Readers.{cancel_asked_at, subscribed_at, unsubscribed_at, posted_at, kind_at};
ghost use Rattle.event_codec.specs.Readers.{moment_at, event_at};

use crate::descriptor::vnfd;
use crate::fault::DecodeFault;
use crate::input::Input;
use crate::lists::optional;
use crate::parts::{filter, grant_try, operation, outcome, placed, tag};
use crate::words;
use lcm_events::{Event, EventKind};
use std::alloc::Global;
use vnfm_base::{MAX_MOMENT, Moment};

/// An event.
#[tactic(auto, unfolding(crate::specs::Readers::event_at))]
pub(crate) fn event(alloc: Global, input: &mut Input) -> Result<Event, DecodeFault>
    ensures { Gives input.new result (event_at input.old) }
{
    let number = input.u8()?;
    let moment = moment(input)?;
    let kind = kind(alloc, input, number)?;
    Ok(Event { moment, kind })
}

/// A moment, which is at most the last one.
#[tactic(auto, unfolding(crate::specs::Readers::moment_at))]
fn moment(input: &mut Input) -> Result<Moment, DecodeFault>
    ensures { Gives input.new result (moment_at input.old) }
{
    let milliseconds = input.u64()?;
    if milliseconds > MAX_MOMENT {
        return Err(DecodeFault::NotEvent);
    }
    Ok(Moment::of(milliseconds))
}

/// The fields of the kind with this number.
#[tactic(auto, unfolding(crate::specs::Readers::kind_at))]
fn kind(alloc: Global, input: &mut Input, number: u8) -> Result<EventKind, DecodeFault>
    ensures { Gives input.new result (kind_at number input.old) }
{
    match number {
        1 => onboarded(alloc, input),
        2 => created(alloc, input),
        3 => deleted(input),
        4 => asked(alloc, input),
        5 => grant_tried(alloc, input),
        6 => granted(alloc, input),
        7 => denied(input),
        8 => intent(input),
        9 => call_failed(input),
        10 => settled(input),
        11 => moved_kind(input),
        12 => cancel_asked(input),
        13 => subscribed(alloc, input),
        14 => unsubscribed(input),
        15 => posted(input),
        _ => Err(DecodeFault::NotEvent),
    }
}

#[tactic(auto, unfolding(crate::specs::Readers::onboarded_at))]
fn onboarded(alloc: Global, input: &mut Input) -> Result<EventKind, DecodeFault>
    ensures { Gives input.new result (onboarded_at input.old) }
{
    Ok(EventKind::Onboarded(vnfd(alloc, input)?))
}

#[tactic(auto, unfolding(crate::specs::Readers::created_at))]
fn created(alloc: Global, input: &mut Input) -> Result<EventKind, DecodeFault>
    ensures { Gives input.new result (created_at input.old) }
{
    let instance = input.u64()?;
    let vnfd = input.name()?;
    let name = optional(alloc, input)?;
    let text = optional(alloc, input)?;
    Ok(EventKind::Created {
        instance,
        vnfd,
        name,
        text,
    })
}

#[tactic(auto, unfolding(crate::specs::Readers::deleted_at))]
fn deleted(input: &mut Input) -> Result<EventKind, DecodeFault>
    ensures { Gives input.new result (deleted_at input.old) }
{
    let instance = input.u64()?;
    Ok(EventKind::Deleted { instance })
}

#[tactic(auto, unfolding(crate::specs::Readers::asked_at))]
fn asked(alloc: Global, input: &mut Input) -> Result<EventKind, DecodeFault>
    ensures { Gives input.new result (asked_at input.old) }
{
    Ok(EventKind::Asked(operation(alloc, input)?))
}

#[tactic(auto, unfolding(crate::specs::Readers::grant_tried_at))]
fn grant_tried(alloc: Global, input: &mut Input) -> Result<EventKind, DecodeFault>
    ensures { Gives input.new result (grant_tried_at input.old) }
{
    let occ = input.u64()?;
    let answer = grant_try(alloc, input)?;
    Ok(EventKind::GrantTried { occ, answer })
}

#[tactic(auto, unfolding(crate::specs::Readers::granted_at))]
fn granted(alloc: Global, input: &mut Input) -> Result<EventKind, DecodeFault>
    ensures { Gives input.new result (granted_at input.old) }
{
    let occ = input.u64()?;
    let grant = input.name()?;
    let (places, spots) = placed(alloc, input)?;
    Ok(EventKind::Granted {
        occ,
        grant,
        places,
        spots,
    })
}

#[tactic(auto, unfolding(crate::specs::Readers::denied_at))]
fn denied(input: &mut Input) -> Result<EventKind, DecodeFault>
    ensures { Gives input.new result (denied_at input.old) }
{
    let occ = input.u64()?;
    Ok(EventKind::Denied { occ })
}

#[tactic(auto, unfolding(crate::specs::Readers::intent_at))]
fn intent(input: &mut Input) -> Result<EventKind, DecodeFault>
    ensures { Gives input.new result (intent_at input.old) }
{
    Ok(EventKind::Intent(tag(input)?))
}

#[tactic(auto, unfolding(crate::specs::Readers::call_failed_at))]
fn call_failed(input: &mut Input) -> Result<EventKind, DecodeFault>
    ensures { Gives input.new result (call_failed_at input.old) }
{
    Ok(EventKind::CallFailed(tag(input)?))
}

#[tactic(auto, unfolding(crate::specs::Readers::settled_at))]
fn settled(input: &mut Input) -> Result<EventKind, DecodeFault>
    ensures { Gives input.new result (settled_at input.old) }
{
    let tag = tag(input)?;
    let outcome = outcome(input)?;
    Ok(EventKind::Settled { tag, outcome })
}

#[tactic(auto, unfolding(crate::specs::Readers::moved_kind_at))]
fn moved_kind(input: &mut Input) -> Result<EventKind, DecodeFault>
    ensures { Gives input.new result (moved_kind_at input.old) }
{
    let occ = input.u64()?;
    let to = words::moved(input)?;
    Ok(EventKind::Moved { occ, to })
}

#[tactic(auto, unfolding(crate::specs::Readers::cancel_asked_at))]
fn cancel_asked(input: &mut Input) -> Result<EventKind, DecodeFault>
    ensures { Gives input.new result (cancel_asked_at input.old) }
{
    let occ = input.u64()?;
    let mode = words::cancel_mode(input)?;
    Ok(EventKind::CancelAsked { occ, mode })
}

#[tactic(auto, unfolding(crate::specs::Readers::subscribed_at))]
fn subscribed(alloc: Global, input: &mut Input) -> Result<EventKind, DecodeFault>
    ensures { Gives input.new result (subscribed_at input.old) }
{
    let subscription = input.u64()?;
    let role = words::role(input)?;
    let callback = input.line(alloc)?;
    let filter = filter(alloc, input)?;
    Ok(EventKind::Subscribed {
        subscription,
        role,
        callback,
        filter,
    })
}

#[tactic(auto, unfolding(crate::specs::Readers::unsubscribed_at))]
fn unsubscribed(input: &mut Input) -> Result<EventKind, DecodeFault>
    ensures { Gives input.new result (unsubscribed_at input.old) }
{
    let subscription = input.u64()?;
    Ok(EventKind::Unsubscribed { subscription })
}

#[tactic(auto, unfolding(crate::specs::Readers::posted_at))]
fn posted(input: &mut Input) -> Result<EventKind, DecodeFault>
    ensures { Gives input.new result (posted_at input.old) }
{
    let subscription = input.u64()?;
    let place = input.u64()?;
    let outcome = words::post_outcome(input)?;
    Ok(EventKind::Posted {
        subscription,
        place,
        outcome,
    })
}
