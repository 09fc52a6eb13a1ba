//! How long calls may wait, and when a round is due.

use anyhow::Result;
use edge_limits::{INFRASTRUCTURE, ORCHESTRATOR, POST, Pace, exchange_limit, limits_are_these};
use std::io::Print;

/// What came of rounds, one after another: something went on, a try was in vain, something is waited for, a call on the
/// infrastructure failed.
const ROUNDS: [(bool, bool, bool, bool); 17] = [
    (false, false, false, false),
    (false, true, false, false),
    (false, true, false, false),
    (false, true, false, false),
    (false, true, false, false),
    (false, true, false, false),
    (false, true, false, false),
    (true, true, false, false),
    (false, true, false, false),
    (false, true, true, false),
    (true, false, false, false),
    (false, true, false, true),
    (false, false, false, true),
    (false, false, true, false),
    (false, false, true, false),
    (false, false, true, true),
    (true, false, true, false),
];

/// Prints how long each may wait.
pub fn print_limits(rt: &impl Print) -> Result<()> {
    limits_are_these();
    for limits in [INFRASTRUCTURE, ORCHESTRATOR, POST] {
        println!(rt;
            "exchange: {:?}, {:?}, {:?}",
            exchange_limit(limits, 0, 0),
            exchange_limit(limits, 0, 4_999),
            exchange_limit(limits, 0, 5_000)
        )?;
    }
    print_paces(rt)
}

/// Prints when the next round is due behind each of some rounds.
fn print_paces(rt: &impl Print) -> Result<()> {
    let mut pace = Pace::at_start();
    println!(rt; "at the start: {}", pace.due())?;
    for (went_on, in_vain, awaited, failed) in ROUNDS {
        pace = pace.renewed();
        pace.went_on = went_on;
        pace.in_vain = in_vain;
        pace.awaited = awaited;
        pace.failed = failed;
        println!(rt;
            "on {went_on}, vain {in_vain}, awaited {awaited}, failed {failed}: {}, pause {}",
            pace.due(),
            pace.is_paused()
        )?;
    }
    let mut pace = pace.renewed();
    println!(rt; "written: {}", pace.wrote().due())?;
    pace.posted = true;
    println!(rt; "written behind a post: {}", pace.wrote().due())?;
    Ok(())
}
