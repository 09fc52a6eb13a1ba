//! The limits, as the contract of a call that does nothing.
ghost use Rattle.std.specs.Prelude.{◌≡◌};

use crate::limits::{
    APART, CONNECT, ENDING, GATHERED, HELD, INFRASTRUCTURE, KEPT, LATE, LATE_REQUESTS, LINGER,
    LONG_REQUESTS, LONGEST, ORCHESTRATOR, PIECE, POST, SPENT, STUCK, WAITING, WITHIN,
};
use crate::pace::RESTING;

/// The limits are these, in milliseconds, connections and bytes.
///
/// Source: own choice.
pub fn limits_are_these()
    ensures clients { (KEPT ≡ 75000) × (WITHIN ≡ 30000) × (STUCK ≡ 10000) × (LINGER ≡ 500) }
    ensures sizes { (HELD ≡ 65536) × (LONG_REQUESTS ≡ 8) × (PIECE ≡ 65536) × (WAITING ≡ 64) }
    ensures gathered { (GATHERED ≡ 60000) × (LATE_REQUESTS ≡ 32) × (LATE ≡ 5) × (APART ≡ 1000) }
    ensures waits { (SPENT ≡ 100) × (LONGEST ≡ 1000) × (RESTING ≡ 1000) }
    ensures connect { CONNECT ≡ 1000 }
    ensures infrastructure { (INFRASTRUCTURE.silence ≡ 2000) × (INFRASTRUCTURE.whole ≡ 5000) }
    ensures ending { (ENDING.silence ≡ 1000) × (ENDING.whole ≡ 1000) }
    ensures orchestrator { (ORCHESTRATOR.silence ≡ 5000) × (ORCHESTRATOR.whole ≡ 5000) }
    ensures post { (POST.silence ≡ 5000) × (POST.whole ≡ 5000) }
{}
