//! The policies by type.
ghost use Rattle.std.specs.Prelude.{◌≡◌, IfOk};
ghost use Rattle.vnfd_policies.specs.ByType.{HaveAspects, HaveDeltas, HaveInitials, HaveLevels, HaveNumbers};

use std::alloc::{AllocError, Global};
use vnfd_document::{Entry, of_type};

/// The policies of a descriptor, and those of each type that is read, in order.
#[derive(Drop)]
pub struct Policies<'a> {
    /// All of them.
    pub all: Vec<Entry<'a>>,
    /// tosca.policies.nfv.ScalingAspects.
    pub with_aspects: Vec<Entry<'a>>,
    /// tosca.policies.nfv.VduScalingAspectDeltas.
    pub with_deltas: Vec<Entry<'a>>,
    /// tosca.policies.nfv.VduInitialDelta.
    pub with_initials: Vec<Entry<'a>>,
    /// tosca.policies.nfv.InstantiationLevels.
    pub with_levels: Vec<Entry<'a>>,
    /// tosca.policies.nfv.VduInstantiationLevels.
    pub with_numbers: Vec<Entry<'a>>,
}

/// These policies by type: each is looked at once a type here, and not again at each question.
///
/// Source: SOL 001, policy types.
pub fn policies_by_type<'a>(alloc: Global, all: Vec<Entry<'a>>) -> Result<Policies<'a>, AllocError>
    ensures all { IfOk result (λ found. found.all.items ≡ all.entry.items) }
    ensures aspects { IfOk result HaveAspects }
    ensures deltas { IfOk result HaveDeltas }
    ensures initials { IfOk result HaveInitials }
    ensures levels { IfOk result HaveLevels }
    ensures numbers { IfOk result HaveNumbers }
{
    let with_aspects = of_type(alloc, all.as_slice(), "tosca.policies.nfv.ScalingAspects")?;
    let with_deltas = of_type(
        alloc,
        all.as_slice(),
        "tosca.policies.nfv.VduScalingAspectDeltas",
    )?;
    let with_initials = of_type(alloc, all.as_slice(), "tosca.policies.nfv.VduInitialDelta")?;
    let with_levels = of_type(
        alloc,
        all.as_slice(),
        "tosca.policies.nfv.InstantiationLevels",
    )?;
    let with_numbers = of_type(
        alloc,
        all.as_slice(),
        "tosca.policies.nfv.VduInstantiationLevels",
    )?;
    Ok(Policies {
        all,
        with_aspects,
        with_deltas,
        with_initials,
        with_levels,
        with_numbers,
    })
}
