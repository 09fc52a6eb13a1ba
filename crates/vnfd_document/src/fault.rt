//! Why a descriptor is refused.

use std::alloc::{AllocError, AllocFailed};
use std::error::Error;
use std::fmt;
use vnfm_base::Name;

/// Why a descriptor wasn't read. It names the first thing that is wrong, in the order of docs/DESCRIPTORS.md.
#[derive(Debug, Drop)]
pub enum VnfdFault {
    /// The bytes are no JSON object.
    NotJson,
    /// What has this name is needed and absent.
    Lacks(Name),
    /// What has this name has another form.
    Wrong(Name),
    /// Nothing has this name, which stands where a VDU, a storage, a link, an aspect or a level is named.
    Unknown(Name),
    /// There is more of this than the limit: bytes, vdus, storages, links, ports, aspects or levels.
    TooMany(Name),
    /// At this level, the number given for this VDU isn't the one that its deltas lead to.
    OutOfStep { level: Name, vdu: Name },
    /// There is no memory for it.
    Memory,
}

impl fmt::Display for VnfdFault {
    ghost use Rattle.std.specs.Prelude.{Some};
    ghost use Rattle.vnfd_document.specs.Texts.{fault_text};

    ghost output = { λ fault. Some (fault_text fault) };

    fn fmt<W: fmt::Write>(&self, f: &mut fmt::Formatter<W>) -> fmt::Result {
        match self {
            VnfdFault::NotJson => write!(f, "not JSON"),
            VnfdFault::Lacks(name) => write!(f, "missing {}", name.as_str()),
            VnfdFault::Wrong(name) => write!(f, "bad {}", name.as_str()),
            VnfdFault::Unknown(name) => write!(f, "unknown {}", name.as_str()),
            VnfdFault::TooMany(name) => write!(f, "too many {}", name.as_str()),
            VnfdFault::OutOfStep { level, vdu } => {
                write!(f, "out of step {} {}", level.as_str(), vdu.as_str())
            }
            VnfdFault::Memory => write!(f, "no memory"),
        }
    }
}

impl Error for VnfdFault {}

impl From<AllocError> for VnfdFault {
    ghost use Rattle.std.specs.Prelude.{◌≡◌};
    ghost use Rattle.vnfd_document.specs.declared.fault.VnfdFault.TheVariants.{Memory};

    ghost from_gives = { λ _ fault. fault ≡ Memory };

    fn from(_error: AllocError) -> VnfdFault {
        VnfdFault::Memory
    }
}

impl<T: Drop> From<AllocFailed<T>> for VnfdFault {
    ghost use Rattle.std.specs.Prelude.{◌≡◌};
    ghost use Rattle.vnfd_document.specs.declared.fault.VnfdFault.TheVariants.{Memory};

    ghost from_gives = { λ _ fault. fault ≡ Memory };

    fn from(_error: AllocFailed<T>) -> VnfdFault {
        VnfdFault::Memory
    }
}
