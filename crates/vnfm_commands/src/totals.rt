//! What a journal has, counted.
ghost use Rattle.std.specs.Prelude.{◌≡◌, ◌<◌, false, filter, length, List, slice_get};
ghost use Rattle.std.specs.Option.{option_map_or};
ghost use Rattle.executor.specs.Managed.{Keeps};
ghost use Rattle.lcm_events.specs.declared.events.Event.{Event};
ghost use Rattle.vnfm_commands.specs.Totals.{AreOfLegal, going, is_going, totals_of};

use executor::Manager;
use lcm_model::ends;
use occ_table::OccTable;
use site_traits::Site;
use vnfm_base::Kind;

/// What a journal has.
#[derive(Clone, Copy)]
pub struct Totals {
    /// Its events.
    pub records: u64,
    /// Its VNF instances that aren't deleted.
    pub instances: u64,
    /// Its operations that go on: those in STARTING, PROCESSING, FAILED_TEMP or ROLLING_BACK.
    pub ongoing: u64,
    /// Its subscriptions that aren't deleted, of both roles.
    pub subscriptions: u64,
}

/// What the manager's journal has, by its tables. Each row of an operation is looked at once.
///
/// Condition: the manager isn't closed.
/// Source: own rule, docs/FORMATS.md.
pub fn count_all<S: Site>(manager: &Manager<S>) -> Totals
    requires usable { manager.now.ledger.closed ≡ false }
    requires kept { (H : List Event) × Keeps manager.now H }
    ensures { (H : List Event) → Keeps manager.now H → result ≡ totals_of H }
{
    Totals {
        records: manager.records(),
        instances: manager.live(Kind::Instance),
        ongoing: ongoing(manager),
        subscriptions: manager.live(Kind::Subscription),
    }
}

/// How many operations go on.
fn ongoing<S: Site>(manager: &Manager<S>) -> u64
    requires usable { manager.now.ledger.closed ≡ false }
    requires kept { (H : List Event) × Keeps manager.now H }
    ensures { (H : List Event) → Keeps manager.now H → result ≡ length (going H) }
{
    ongoing_in(manager.occurrences())
}

/// How many of the operations in the table go on.
fn ongoing_in(occurrences: &OccTable) -> u64
    requires { AreOfLegal occurrences.now.rows }
    ensures { result ≡ length (filter is_going occurrences.now.rows) }
{
    let mut ongoing = 0;
    for place in 0..made_in(occurrences) {
        if goes_on_at(occurrences, place) {
            ongoing += 1;
        }
    }
    ongoing
}

/// How many rows there are.
fn made_in(occurrences: &OccTable) -> u64
    requires { AreOfLegal occurrences.now.rows }
    ensures { result ≡ length occurrences.now.rows }
{
    occurrences.made()
}

/// Whether the operation of the row at this place, from 0, goes on.
fn goes_on_at(occurrences: &OccTable, place: u64) -> bool
    requires legal { AreOfLegal occurrences.now.rows }
    requires small { place < 18446744073709551615 }
    ensures { result ≡ option_map_or is_going (slice_get occurrences.now.rows place) false }
{
    match occurrences.occurrence(place + 1) {
        Some(row) => !ends(row.state),
        None => false,
    }
}
