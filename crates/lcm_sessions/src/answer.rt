//! What onboarding answers: what is said of a descriptor that was onboarded, or why none was.
use executor::WorkFault;
use std::alloc::AllocError;
use vnfd_reader::VnfdFault;
use vnfm_base::Name;

/// What is said of a descriptor that was onboarded.
#[derive(Drop)]
pub struct Onboarded {
    /// Its identifier.
    pub id: Name,
    /// How many VDUs it has.
    pub vdus: usize,
    /// How many aspects it has.
    pub aspects: usize,
    /// How many levels it has.
    pub levels: usize,
}

/// Why a descriptor isn't onboarded, in the order in which the causes are looked for.
#[derive(Drop)]
pub enum DescriptorRefusal {
    /// Its bytes are no valid descriptor.
    Unread(VnfdFault),
    /// A descriptor with its identifier was onboarded.
    IsOnboarded,
    /// As many descriptors were onboarded as may be.
    TooMany,
    /// Its event has so many bytes, more than a record.
    TooLong(u64),
}

/// Why nothing was onboarded. After all but `Disk` the journal is as it was.
#[derive(Drop)]
pub enum OnboardFault {
    /// Waiting for a connection failed, or a read of it did.
    Door,
    /// The descriptor is refused.
    Refused(DescriptorRefusal),
    /// The journal has no room for its event.
    Full {
        /// The place of its closed gate, in bytes.
        end: u64,
        /// The bytes that were to be added.
        more: u32,
    },
    /// There is no memory.
    Memory,
    /// A disk call failed. The manager is closed: whether the descriptor is onboarded is known once the journal is
    /// loaded again.
    Disk,
}

impl From<AllocError> for OnboardFault {
    ghost use Rattle.std.specs.Prelude.{◌≡◌};
    ghost use Rattle.lcm_sessions.specs.declared.answer.OnboardFault.TheVariants.{Memory};

    ghost from_gives = { λ _ fault. fault ≡ Memory };

    fn from(_: AllocError) -> OnboardFault {
        OnboardFault::Memory
    }
}

impl From<WorkFault> for OnboardFault {
    ghost use Rattle.std.specs.Prelude.{◌≡◌};
    ghost use Rattle.lcm_sessions.specs.Onboarding.{work_fault};

    ghost from_gives = { λ work fault. fault ≡ work_fault work };

    fn from(fault: WorkFault) -> OnboardFault {
        match fault {
            WorkFault::TooLong(n) => OnboardFault::Refused(DescriptorRefusal::TooLong(n)),
            WorkFault::Full { end, more } => OnboardFault::Full { end, more },
            WorkFault::Memory => OnboardFault::Memory,
            WorkFault::Disk => OnboardFault::Disk,
        }
    }
}
