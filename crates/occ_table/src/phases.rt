//! How many changes of each phase have a net, so that no question goes through a plan.

ghost use Rattle.std.specs.Prelude.{◌≡◌, ◌==◌, ◌||◌, not};
ghost use Rattle.occ_table.specs.Phases.{goes_first, in_phases, is_clear, lowered, none_counted, raised, shifted};

use lcm_events::{Change, Way};

/// How many phases there are.
pub const PHASES: usize = 9;

/// One more is of this phase. Nothing happens beyond the last phase.
fn raise(counts: &mut [u16; PHASES], phase: u8)
    ensures { counts.new ≡ raised phase counts.old }
{
    let at = phase as usize;
    if at < PHASES {
        counts[at] = counts[at].saturating_add(1);
    }
}

/// One less is of this phase. Nothing happens beyond the last phase.
fn lower(counts: &mut [u16; PHASES], phase: u8)
    ensures { counts.new ≡ lowered phase counts.old }
{
    let at = phase as usize;
    if at < PHASES {
        counts[at] = counts[at].saturating_sub(1);
    }
}

/// One more or one less is of this phase, where there is one.
pub fn shift(counts: &mut [u16; PHASES], up: bool, phase: Option<u8>)
    ensures { counts.new ≡ shifted up phase counts.old }
{
    match (up, phase) {
        (true, Some(phase)) => raise(counts, phase),
        (false, Some(phase)) => lower(counts, phase),
        (_, None) => {}
    }
}

/// How many of the changes are of each phase.
pub fn count_phases(changes: &[Change]) -> [u16; PHASES]
    ensures { result ≡ in_phases changes.now }
{
    let mut counts = [0; PHASES];
    for change in changes {
        raise(&mut counts, change.phase);
    }
    counts
}

/// Whether a phase goes before another.
fn is_first(way: Way, phase: u8, other: usize) -> bool
    ensures { result ≡ goes_first way phase other }
{
    match way {
        Way::Forward => other < phase as usize,
        Way::Undo => (phase as usize) < other,
    }
}

/// Whether a phase doesn't go before this one, or no change is counted in it.
fn is_clear_at(way: Way, phase: u8, other: usize, count: u16) -> bool
    ensures { result ≡ (not (goes_first way phase other) || (count == 0)) }
{
    let first = is_first(way, phase, other);
    !first || count == 0
}

/// Whether no change is counted in a phase that goes before this one.
pub fn are_clear(counts: &[u16], way: Way, phase: u8) -> bool
    ensures { result ≡ is_clear way phase counts.now }
{
    for (at, count) in counts.iter().enumerate() {
        if !is_clear_at(way, phase, at, *count) {
            return false;
        }
    }
    true
}

/// Whether no change is counted.
pub fn are_none(counts: &[u16]) -> bool
    ensures { result ≡ none_counted counts.now }
{
    for count in counts {
        if *count != 0 {
            return false;
        }
    }
    true
}
