//! Checks, of which the first that fails is answered.
ghost use Rattle.std.specs.Prelude.{◌≡◌, map, Option};
ghost use Rattle.vnfd_document.specs.Checks.{fault_of, first_failing};
ghost use Rattle.vnfd_document.specs.Json.{Named};
ghost use Rattle.vnfd_document.specs.Seen.{seen};

use crate::VnfdFault;
use crate::entries::Entry;

/// A check of one named thing: of a template, a policy, a requirement or a member. It takes no memory.
pub trait Check {
    ghost use Rattle.vnfd_document.specs.declared.fault.VnfdFault.{VnfdFault};

    ghost says: { Self → Named → Option VnfdFault };

    /// Refuses the thing exactly where `says` has a fault of it, with that fault.
    fn check(&self, thing: &Entry) -> Result<(), VnfdFault>
        ensures { fault_of result ≡ says self.now (seen thing.now) };
}

/// Makes a check of these things in order, and refuses with the fault of the first that fails it.
pub fn first_of<C: Check>(things: &[Entry], check: &C) -> Result<(), VnfdFault>
    ensures { fault_of result ≡ first_failing (C.says check.now) (map seen things.now) }
{
    for thing in things {
        check.check(thing)?;
    }
    Ok(())
}
