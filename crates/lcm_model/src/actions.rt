//! What an active occurrence does next.

use lcm_events::{OpState, Tag};

/// The next action of an active occurrence.
///
/// Source: own rule.
#[derive(Clone, Copy)]
pub enum Action {
    /// Move to this state.
    MoveTo(OpState),
    /// Ask for the grant.
    AskForGrant,
    /// Poll the location that was told.
    Poll,
    /// Abort this attempt, then look at it.
    AbortAndLook(Tag),
    /// Look at this attempt.
    Look(Tag),
    /// Begin this attempt.
    Begin(Tag),
}
