//! Which states of an occurrence may follow which.

ghost use Rattle.std.specs.Prelude.{◌≡◌};
ghost use Rattle.lcm_model.specs.Moves.{edge, is_active, is_final};

use lcm_events::OpState;

/// Whether an occurrence may go from the one state to the other.
///
/// Source: SOL 003 5.6.2 (States and state transitions of a VNF LCM operation occurrence).
pub fn may_follow(from: OpState, to: OpState) -> bool
    ensures { result ≡ edge from to }
{
    match from {
        OpState::Starting => matches!(to, OpState::Processing | OpState::RolledBack),
        OpState::Processing => matches!(to, OpState::Completed | OpState::FailedTemp),
        OpState::FailedTemp => {
            matches!(
                to,
                OpState::Processing | OpState::RollingBack | OpState::Failed
            )
        }
        OpState::RollingBack => matches!(to, OpState::RolledBack | OpState::FailedTemp),
        OpState::Completed | OpState::Failed | OpState::RolledBack => false,
    }
}

/// Whether no state follows.
///
/// Source: SOL 003 5.6.2 (States and state transitions of a VNF LCM operation occurrence).
pub fn ends(state: OpState) -> bool
    ensures { result ≡ is_final state }
{
    matches!(
        state,
        OpState::Completed | OpState::Failed | OpState::RolledBack
    )
}

/// Whether the manager works on an occurrence in this state.
///
/// Source: own rule.
pub fn works(state: OpState) -> bool
    ensures { result ≡ is_active state }
{
    matches!(
        state,
        OpState::Starting | OpState::Processing | OpState::RollingBack
    )
}
