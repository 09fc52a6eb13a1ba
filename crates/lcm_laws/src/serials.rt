//! The serials of machines.

ghost use Rattle.lcm_laws.specs.Serials.{SerialsAreCounted};

/// No machine has a serial greater than the number of changes that were ever asked for.
///
/// Source: own rule.
pub fn serials_are_counted()
    ensures { SerialsAreCounted }
{}
