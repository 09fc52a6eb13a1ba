//! The operations that go on, and what their ends say of their instances.

ghost use Rattle.std.specs.Prelude.{◌≡◌, ◌≤◌, IfOk, false, find, if◌then◌else◌, is_some, length, map, nat_lt};
ghost use Rattle.std.specs.Prelude.{option_copied, remove, true, ◌==◌, slice_get, vec_capacity, vec_len};
ghost use Rattle.std.specs.List.Sorted.{IsPartitionPoint, IsPartitionedBy};
ghost use Rattle.lcm_model.specs.Instances.{instantiates, sets_levels, starts_or_stops};
ghost use Rattle.instance_table.specs.Rows.{end_effect};
ghost use Rattle.instance_table.specs.Steps.{Rises, begun, end_of, placed, update, with_key, without_operation};

use lcm_events::{Ask, Changes, Levels, Listed, OpState, Operation, Place};
use std::alloc::{AllocError, Global};

/// What the end of an operation says of its instance, where it says something.
///
/// Source: SOL 003 5.5.2.2 (VnfInstance).
#[derive(Clone, Copy)]
pub struct EndEffect {
    /// Whether it is INSTANTIATED.
    pub instantiated: Option<bool>,
    /// Whether it is STARTED.
    pub started: Option<bool>,
    /// Whether its levels are those that the operation aims at.
    pub levels: bool,
}

/// The places that a grant gave to the changes of an operation.
///
/// Source: SOL 003 9.5.2.3 (Grant).
#[derive(Drop)]
pub struct Placing {
    /// The distinct places.
    pub places: Listed<Place>,
    /// The number of the place of each change.
    pub spots: Listed<u8>,
}

impl Placing {
    /// A copy of what a grant gave.
    pub fn copied(alloc: Global, places: &[Place], spots: &[u8]) -> Result<Placing, AllocError>
        ensures { IfOk result (λ p. p ≡ record { places = places.now; spots = spots.now }) }
    {
        let places = places.to_vec(alloc)?;
        let spots = spots.to_vec(alloc)?;
        Ok(Placing {
            places: Listed::of(places),
            spots: Listed::of(spots),
        })
    }
}

/// An operation that goes on.
///
/// Source: SOL 003 5.5.2.13 (VnfLcmOpOcc).
#[derive(Drop)]
pub struct Going {
    /// The number of its occurrence.
    pub occ: u64,
    /// The number of its instance.
    pub instance: u64,
    /// What it says of its instance once it is COMPLETED.
    pub completed: EndEffect,
    /// What it says of its instance once it is FAILED.
    pub failed: EndEffect,
    /// The levels that it aims at.
    pub aim: Levels,
    /// Its changes, in the order of its plan.
    pub changes: Changes,
    /// The places of its changes, once it is granted.
    pub placing: Option<Placing>,
    /// For each change that removes something, where that stands when the operation is asked for; none for the others.
    pub stood: Listed<Option<Place>>,
}

/// Whether a move to this state makes the instance INSTANTIATED, or NOT_INSTANTIATED.
fn instantiates(ask: &Ask, to: OpState) -> Option<bool>
    ensures { result ≡ instantiates ask.now to }
{
    match (ask, to) {
        (Ask::Instantiate { .. }, OpState::Completed | OpState::Failed) => Some(true),
        (Ask::Terminate { .. }, OpState::Completed) => Some(false),
        _ => None,
    }
}

/// Whether a move to this state starts the instance, or stops it.
fn starts_or_stops(ask: &Ask, to: OpState) -> Option<bool>
    ensures { result ≡ starts_or_stops ask.now to }
{
    match (ask, to) {
        (Ask::Instantiate { .. }, OpState::Completed | OpState::Failed) => Some(true),
        (Ask::Heal { .. }, OpState::Completed) => Some(true),
        (Ask::Operate { started, .. }, OpState::Completed) => Some(*started),
        _ => None,
    }
}

/// Whether a move to this state sets the levels of the instance.
fn sets_levels(ask: &Ask, to: OpState) -> bool
    ensures { result ≡ is_some (sets_levels ask.now to) }
{
    match (ask, to) {
        (Ask::Instantiate { .. }, OpState::Completed | OpState::Failed) => true,
        (Ask::Scale { .. } | Ask::ScaleToLevel(_), OpState::Completed) => true,
        _ => false,
    }
}

/// What a move of an operation to this state says of its instance.
fn end_effect_by(ask: &Ask, to: OpState) -> EndEffect
    ensures { result ≡ end_effect ask.now to }
{
    EndEffect {
        instantiated: instantiates(ask, to),
        started: starts_or_stops(ask, to),
        levels: sets_levels(ask, to),
    }
}

impl Going {
    /// What is kept of an operation that is asked for, which aims at these levels and removes what stands at these
    /// places.
    pub fn of(
        alloc: Global,
        operation: &Operation,
        aim: Levels,
        stood: Listed<Option<Place>>,
    ) -> Result<Going, AllocError>
        ensures { IfOk result (λ g. g ≡ begun operation.now aim stood) }
    {
        let changes = operation.changes.as_slice().to_vec(alloc)?;
        Ok(Going {
            occ: operation.occ,
            instance: operation.instance,
            completed: end_effect_by(&operation.ask, OpState::Completed),
            failed: end_effect_by(&operation.ask, OpState::Failed),
            aim,
            changes: Listed::of(changes),
            placing: None,
            stood,
        })
    }

    /// The occurrence of this number, which may be another, was granted these places.
    fn follow_grant(&mut self, occ: u64, placing: Placing)
        ensures { self.new ≡ placed occ placing self.old }
    {
        if self.occ == occ {
            self.placing = Some(placing);
        }
    }

    /// What a move to this state says of its instance.
    pub fn end(&self, to: OpState) -> EndEffect
        ensures { result ≡ end_of to self.now }
    {
        match to {
            OpState::Completed => self.completed,
            OpState::Failed => self.failed,
            _ => EndEffect {
                instantiated: None,
                started: None,
                levels: false,
            },
        }
    }
}

/// How many operations come before this occurrence, where the numbers rise.
fn place_of(going: &[Going], occ: u64) -> usize
    ensures bound { result ≤ length going.now }
    ensures place { IsPartitionedBy (λ g. nat_lt g.occ occ) going.now
        → IsPartitionPoint (λ g. nat_lt g.occ occ ≡ true) (λ g. nat_lt g.occ occ ≡ false) going.now result }
{
    going.partition_point(
        |other: &Going| -> bool
            ensures { result ≡ nat_lt other.now.occ occ }
        { other.occ < occ },
    )
}

/// The operation at this place, if it is of this occurrence.
fn going_at(going: &[Going], at: usize, occ: u64) -> Option<&Going>
    ensures { option_copied result ≡ with_key (λ g. g.occ) occ (slice_get going.now at) }
{
    match going.get(at) {
        Some(found) => { if found.occ == occ { Some(found) } else { None } }
        None => None,
    }
}

/// The operation of this occurrence, where the numbers rise.
pub fn going_in(going: &[Going], occ: u64) -> Option<&Going>
    ensures { Rises (λ g. g.occ) going.now → option_copied result ≡ find (λ g. g.occ == occ) going.now }
{
    let at = place_of(going, occ);
    going_at(going, at, occ)
}

/// Whether the operation at this place is of this occurrence.
fn is_at(going: &[Going], at: usize, occ: u64) -> bool
    ensures { result ≡ is_some (with_key (λ g. g.occ) occ (slice_get going.now at)) }
{
    match going.get(at) {
        Some(found) => found.occ == occ,
        None => false,
    }
}

/// Takes the operation at this place out, if it is of this occurrence.
fn take_at(going: &mut Vec<Going>, at: usize, occ: u64) -> Option<Going>
    ensures found { result ≡ with_key (λ g. g.occ) occ (slice_get going.old.items at) }
    ensures items { going.new.items ≡ (if is_some result then remove going.old.items at else going.old.items) }
    ensures length { vec_len going.new ≤ vec_len going.old }
    ensures capacity { vec_capacity going.new ≡ vec_capacity going.old }
{
    if is_at(going.as_slice(), at, occ) {
        Some(going.remove(at))
    } else {
        None
    }
}

/// Takes the operation of this occurrence out, where the numbers rise.
pub fn take_going(going: &mut Vec<Going>, occ: u64) -> Option<Going>
    ensures found { Rises (λ g. g.occ) going.old.items → result ≡ find (λ g. g.occ == occ) going.old.items }
    ensures items { Rises (λ g. g.occ) going.old.items → going.new.items ≡ without_operation occ going.old.items }
    ensures length { vec_len going.new ≤ vec_len going.old }
    ensures capacity { vec_capacity going.new ≡ vec_capacity going.old }
{
    let at = place_of(going.as_slice(), occ);
    take_at(going, at, occ)
}

/// Lets the operation at this place follow a grant. Nothing happens beyond the end.
fn place_at(going: &mut Vec<Going>, at: usize, occ: u64, placing: Placing)
    ensures items { going.new.items ≡ update (placed occ placing) at going.old.items }
    ensures length { vec_len going.new ≡ vec_len going.old }
    ensures capacity { vec_capacity going.new ≡ vec_capacity going.old }
{
    match going.get_mut(at) {
        Some(found) => found.follow_grant(occ, placing),
        None => {}
    }
}

/// Lets the operation of this occurrence follow a grant, where the numbers rise.
pub fn place_in(going: &mut Vec<Going>, occ: u64, placing: Placing)
    ensures items { Rises (λ g. g.occ) going.old.items → going.new.items ≡ map (placed occ placing) going.old.items }
    ensures length { vec_len going.new ≡ vec_len going.old }
    ensures capacity { vec_capacity going.new ≡ vec_capacity going.old }
{
    let at = place_of(going.as_slice(), occ);
    place_at(going, at, occ, placing);
}
