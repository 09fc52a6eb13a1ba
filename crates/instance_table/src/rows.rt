//! The rows of instances and subscriptions, and what an ask, the end of an operation or a post makes of a row.

ghost use Rattle.std.specs.Prelude.{◌≡◌, ◌<◌, ◌==◌, IfOk, OnOk, length, option_copied, replicate, true};
ghost use Rattle.lcm_model.specs.Notices.{is_delivered};
ghost use Rattle.instance_table.specs.Steps.{HasItemRoom, after_end, after_post, after_work, asked, begun_at, ended};
ghost use Rattle.instance_table.specs.Steps.{first_holding, fresh_levels, fresh_tops, posted};

use crate::going::EndEffect;
use crate::tops::raise_tops;
use crate::work::{Work, do_in};
use held_items::Editor;
use lcm_events::{Change, Filter, Holding, Levels, Listed, PostOutcome, Role, Vnfd};
use std::alloc::{AllocError, Global};
use vnfm_base::{Line, Name};

/// Posts of a notice after which it is given up.
const TRIES: u8 = 5;

/// What the history says of a live instance.
///
/// Source: SOL 003 5.5.2.2 (VnfInstance).
#[derive(Drop)]
pub struct InstanceRow {
    /// Its number, from 1.
    pub number: u64,
    /// The identifier of its descriptor.
    pub vnfd: Name,
    /// The name that the request gave.
    pub name: Option<Name>,
    /// The description that the request gave.
    pub text: Option<Line>,
    /// What stands of it, and how it is meant to stand.
    pub holding: Holding,
}

/// So many zeros.
fn zeros(alloc: Global, count: usize) -> Result<Listed<u32>, AllocError>
    ensures { IfOk result (λ l. l ≡ replicate count 0) }
{
    let numbers = vec![in alloc; 0u32; count]?;
    Ok(Listed::of(numbers))
}

/// No serial number of any VDU of a descriptor was given yet.
fn fresh_tops(alloc: Global, vnfd: Option<&Vnfd>) -> Result<Listed<u32>, AllocError>
    ensures { IfOk result (λ l. l ≡ fresh_tops (option_copied vnfd.entry)) }
{
    match vnfd {
        Some(vnfd) => zeros(alloc, vnfd.vdus.len()),
        None => zeros(alloc, 0),
    }
}

/// Level 0 of every aspect of a descriptor.
fn fresh_levels(alloc: Global, vnfd: Option<&Vnfd>) -> Result<Levels, AllocError>
    ensures { IfOk result (λ l. l ≡ fresh_levels (option_copied vnfd.entry)) }
{
    match vnfd {
        Some(vnfd) => zeros(alloc, vnfd.aspects.len()),
        None => zeros(alloc, 0),
    }
}

/// What stands of an instance that is created of this descriptor: nothing.
pub fn first_holding(alloc: Global, vnfd: Option<&Vnfd>) -> Result<Holding, AllocError>
    ensures { IfOk result (λ h. h ≡ first_holding (option_copied vnfd.entry)) }
{
    let levels = fresh_levels(alloc, vnfd)?;
    let top = fresh_tops(alloc, vnfd)?;
    Ok(Holding {
        instantiated: false,
        started: false,
        levels,
        items: Listed::new(alloc),
        top,
    })
}

impl InstanceRow {
    /// An operation of the instance ended, which aimed at these levels.
    fn record_end(&mut self, end_effect: EndEffect, aim: Levels)
        ensures { self.new ≡ after_end end_effect aim self.old }
    {
        let holding = &mut self.holding;
        holding.instantiated = end_effect.instantiated.unwrap_or(holding.instantiated);
        holding.started = end_effect.started.unwrap_or(holding.started);
        if end_effect.levels {
            holding.levels = aim;
        }
    }

    /// An operation with these changes was asked of the instance of this number, which may be another.
    pub fn follow_ask(&mut self, alloc: Global, number: u64, changes: &[Change])
        ensures { self.new ≡ asked number changes.now self.old }
    {
        if self.number == number {
            raise_tops(alloc, &mut self.holding.top, changes);
        }
    }

    /// An operation of the instance of this number, which may be another, ended, and aimed at these levels.
    pub fn follow_end(&mut self, number: u64, end_effect: EndEffect, aim: Levels)
        ensures { self.new ≡ ended number end_effect aim self.old }
    {
        if self.number == number {
            self.record_end(end_effect, aim);
        }
    }

    /// Reserves room for one more item, if this is the instance of this number.
    pub fn reserve_item(&mut self, editor: &mut Editor, number: u64) -> Result<(), AllocError>
        ensures kept { self.new ≡ self.old }
        ensures room { OnOk result ((self.old.number == number) ≡ true → length self.old.holding.items < editor.new) }
    {
        if self.number == number {
            editor.reserve_for(&mut self.holding.items)
        } else {
            Ok(())
        }
    }

    /// Something was done to what stands of an instance, which may be another.
    pub fn follow_work(&mut self, editor: &mut Editor, work: &Work)
        ensures { ((self.old.number == work.now.instance) ≡ true → HasItemRoom editor.old self.old)
            → self.new ≡ after_work work.now self.old }
    {
        if self.number == work.instance {
            do_in(&mut self.holding.items, editor, work);
        }
    }
}

/// What the history says of a live subscription.
///
/// Source: SOL 003 5.5.2.16 (LccnSubscription).
#[derive(Drop)]
pub struct SubscriptionRow {
    /// Its number, from 1.
    pub number: u64,
    /// Whose it is.
    pub role: Role,
    /// Where its notices go.
    pub callback: Line,
    /// What it asks to be told.
    pub filter: Filter,
    /// The place in the journal, from 1, of the event that made it.
    pub from: u64,
    /// The place of the last notice that was delivered or given up, or else that of the event that made it.
    pub cursor: u64,
    /// How often the notice past the cursor was posted and not taken.
    pub tries: u8,
}

/// Whether a notice was taken.
fn is_delivered(outcome: PostOutcome) -> bool
    ensures { result ≡ is_delivered outcome }
{
    match outcome {
        PostOutcome::Delivered => true,
        PostOutcome::NotTaken => false,
    }
}

impl SubscriptionRow {
    /// The event that made it stands at this place.
    pub fn begin_at(&mut self, place: u64)
        ensures { self.new ≡ begun_at place self.old }
    {
        self.from = place;
        self.cursor = place;
    }

    /// The notice at this place was posted.
    fn record_post(&mut self, place: u64, outcome: PostOutcome)
        ensures { self.new ≡ after_post place outcome self.old }
    {
        if is_delivered(outcome) || self.tries >= TRIES - 1 {
            self.cursor = place;
            self.tries = 0;
        } else {
            self.tries += 1;
        }
    }

    /// The notice at this place was posted to the subscription of this number, which may be another.
    pub fn follow_post(&mut self, number: u64, place: u64, outcome: PostOutcome)
        ensures { self.new ≡ posted number place outcome self.old }
    {
        if self.number == number {
            self.record_post(place, outcome);
        }
    }
}
