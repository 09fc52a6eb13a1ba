//! The words of the standard for what became of an operation.
ghost use Rattle.std.specs.Prelude.{◌≡◌};
ghost use Rattle.notice_views.specs.Words.{status_word};

use lcm_events::OpState;

/// Whether an operation in this state was begun, or has a result.
pub fn status_word(state: OpState) -> &'static str
    ensures { result.now ≡ status_word state }
{
    match state {
        OpState::Starting | OpState::Processing | OpState::RollingBack => "START",
        OpState::Completed | OpState::FailedTemp | OpState::Failed | OpState::RolledBack =>
            "RESULT",
    }
}
