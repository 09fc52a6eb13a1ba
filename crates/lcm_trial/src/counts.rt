//! What a trial came to.
ghost use Rattle.std.specs.Prelude.{◌≡◌};

use std::alloc::AllocError;

/// What a trial came to, counted.
///
/// Source: own rule, docs/FORMATS.md, "The trial".
#[derive(Clone, Copy, Debug, PartialEq, Eq)]
pub struct Tried {
    /// Requests that were made.
    pub requests: u32,
    /// Those of them whose status is below 400.
    pub accepted: u32,
    /// The others of them.
    pub refused: u32,
    /// Operations that are COMPLETED.
    pub completed: u64,
    /// Operations that are FAILED.
    pub failed: u64,
    /// Operations that are ROLLED_BACK.
    pub rolled_back: u64,
    /// Operations that go on.
    pub ongoing: u64,
    /// Jobs of the site.
    pub jobs: u64,
    /// Definitions that stand, over all instances.
    pub standing: u64,
}

/// Why a trial wasn't made.
#[derive(Clone, Copy, Debug, PartialEq, Eq)]
pub enum TrialFault {
    /// It passes its room: at some step its journal and the closed gate behind it have more than 67,108,864 bytes.
    Room,
    /// There is no memory.
    Memory,
}

impl From<AllocError> for TrialFault {
    ghost use Rattle.lcm_trial.specs.declared.counts.TrialFault.TheVariants.{Memory};

    ghost from_gives = { λ _ fault. fault ≡ Memory };

    fn from(_: AllocError) -> TrialFault {
        TrialFault::Memory
    }
}
