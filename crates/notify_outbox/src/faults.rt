//! How a delivery ends, and why it fails.
ghost use Rattle.std.specs.Prelude.{◌≡◌};

use executor::ReadFault;
use std::alloc::AllocError;
use thiserror::Error;

/// How a delivery ended.
///
/// Source: SOL 003 5.4.20 (Notification endpoint).
#[derive(Clone, Copy)]
pub enum Delivery {
    /// No notice waits for the subscription.
    Idle,
    /// Its receiver took the notice.
    Delivered,
    /// It didn't: it answered another status than 204, or no answer came.
    NotTaken,
}

/// Why a notice wasn't delivered.
#[derive(Debug, Drop, Error)]
pub enum DeliveryFault {
    /// The file's record n, whose event the notice tells of, isn't that event any more. It never comes where the site
    /// tells its content.
    #[error("bad record {0}")]
    BadRecord(u64),
    /// A disk call failed. The manager is closed: load the journal again.
    #[error("site fault")]
    Disk,
    /// There is no memory.
    #[error("no memory")]
    Memory,
    /// Behind the closed gate at `end` there is no room for `more` bytes.
    #[error("journal full: {end} + {more} bytes")]
    Full {
        /// The place of the closed gate.
        end: u64,
        /// The bytes of the spelling of the event that the notice was posted.
        more: u32,
    },
}

impl From<ReadFault> for DeliveryFault {
    ghost use Rattle.notify_outbox.specs.Faults.{delivery_fault};

    ghost from_gives = { λ fault e. e ≡ delivery_fault fault };

    fn from(fault: ReadFault) -> DeliveryFault {
        match fault {
            ReadFault::BadRecord(n) => DeliveryFault::BadRecord(n),
            ReadFault::Disk => DeliveryFault::Disk,
            ReadFault::Memory => DeliveryFault::Memory,
        }
    }
}

impl From<AllocError> for DeliveryFault {
    ghost use Rattle.notify_outbox.specs.declared.faults.DeliveryFault.TheVariants as fault;

    ghost from_gives = { λ _ e. e ≡ fault.Memory };

    fn from(_: AllocError) -> DeliveryFault {
        DeliveryFault::Memory
    }
}
