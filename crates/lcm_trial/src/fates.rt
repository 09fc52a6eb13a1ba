//! How the operations of a trial came out, and what stands, counted.
ghost use Rattle.std.specs.Option.{option_map_or};
ghost use Rattle.std.specs.Prelude.{◌≡◌, ◌<◌, IfOk, List, false, filter, length, slice_get, sum_by};
ghost use Rattle.executor.specs.Managed.{Keeps};
ghost use Rattle.lcm_events.specs.declared.events.Event.{Event};
ghost use Rattle.lcm_trial.specs.Playing.{AreOfLegal};
ghost use Rattle.lcm_trial.specs.Trial.{count_of, fate_of, row_came_out, same_fate, standing};

use executor::Manager;
use instance_table::InstanceRow;
use lcm_events::OpState;
use occ_table::OccTable;
use site_traits::Site;
use std::alloc::AllocError;

/// How an operation came out.
///
/// Source: SOL 003 5.6.2 (States and state transitions of a VNF LCM operation occurrence).
#[derive(Clone, Copy)]
pub enum Fate {
    /// It is COMPLETED.
    Completed,
    /// It is FAILED.
    Failed,
    /// It is ROLLED_BACK.
    RolledBack,
    /// It goes on.
    Ongoing,
}

/// How an operation in this state came out.
fn fate_of(state: OpState) -> Fate
    ensures { result ≡ fate_of state }
{
    match state {
        OpState::Completed => Fate::Completed,
        OpState::Failed => Fate::Failed,
        OpState::RolledBack => Fate::RolledBack,
        OpState::Starting | OpState::Processing | OpState::FailedTemp | OpState::RollingBack => {
            Fate::Ongoing
        }
    }
}

/// Whether two operations came out alike.
fn same_fate(one: Fate, other: Fate) -> bool
    ensures { result ≡ same_fate one other }
{
    match one {
        Fate::Completed => matches!(other, Fate::Completed),
        Fate::Failed => matches!(other, Fate::Failed),
        Fate::RolledBack => matches!(other, Fate::RolledBack),
        Fate::Ongoing => matches!(other, Fate::Ongoing),
    }
}

/// How many operations of all instances came out so. Each row of an operation is looked at once.
///
/// Condition: the manager isn't closed.
/// Source: own rule, docs/FORMATS.md, "The trial".
pub fn count_of<S: Site>(manager: &Manager<S>, fate: Fate) -> u64
    requires usable { manager.now.ledger.closed ≡ false }
    requires kept { (H : List Event) × Keeps manager.now H }
    ensures { (H : List Event) → Keeps manager.now H → result ≡ count_of fate H }
{
    count_in(manager.occurrences(), fate)
}

/// How many of the operations in the table came out so.
fn count_in(occurrences: &OccTable, fate: Fate) -> u64
    requires { AreOfLegal occurrences.now.rows }
    ensures { result ≡ length (filter (row_came_out fate) occurrences.now.rows) }
{
    let mut count = 0;
    for place in 0..made_in(occurrences) {
        if came_out_at(occurrences, fate, place) {
            count += 1;
        }
    }
    count
}

/// How many rows there are.
fn made_in(occurrences: &OccTable) -> u64
    requires { AreOfLegal occurrences.now.rows }
    ensures { result ≡ length occurrences.now.rows }
{
    occurrences.made()
}

/// Whether the operation of the row at this place, from 0, came out so.
fn came_out_at(occurrences: &OccTable, fate: Fate, place: u64) -> bool
    requires legal { AreOfLegal occurrences.now.rows }
    requires small { place < 18446744073709551615 }
    ensures { result ≡ option_map_or (row_came_out fate) (slice_get occurrences.now.rows place) false }
{
    match occurrences.occurrence(place + 1) {
        Some(row) => same_fate(fate_of(row.state), fate),
        None => false,
    }
}

/// How many definitions stand over all live instances.
///
/// Condition: the manager isn't closed. `AllocError` comes only where a count of 64 bits can't hold them.
/// Source: own rule, docs/FORMATS.md, "The trial".
pub fn standing<S: Site>(manager: &Manager<S>) -> Result<u64, AllocError>
    requires usable { manager.now.ledger.closed ≡ false }
    ensures { (H : List Event) → Keeps manager.now H → IfOk result (λ n. n ≡ standing H) }
{
    standing_in(manager.instances().instances())
}

/// How many definitions these rows have.
fn standing_in(rows: &[InstanceRow]) -> Result<u64, AllocError>
    ensures { IfOk result (λ n. n ≡ sum_by (λ r. length r.holding.items) rows.now) }
{
    let mut standing = 0u64;
    for row in rows {
        let Some(sum) = standing.checked_add(row.holding.items.as_slice().len() as u64) else {
            return Err(AllocError);
        };
        standing = sum;
    }
    Ok(standing)
}
