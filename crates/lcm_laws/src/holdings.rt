//! The holding of an instance has what stands of it.

ghost use Rattle.lcm_laws.specs.Holdings.{FewDefinitionsStand, HoldingsAreExact, HoldingsAreOfTheDescriptor};

/// The holding of an instance has exactly what stands, in order.
///
/// Source: SOL 003 5.5.2.2 (VnfInstance, instantiatedVnfInfo).
pub fn holdings_are_exact()
    ensures { HoldingsAreExact }
{}

/// The holding of an instance is of its descriptor, while its serials are below 2^31.
///
/// Source: own rule.
pub fn holdings_are_of_the_descriptor()
    ensures { HoldingsAreOfTheDescriptor }
{}

/// At most 2,500 definitions of an instance stand.
///
/// Source: own limit.
pub fn few_definitions_stand()
    ensures { FewDefinitionsStand }
{}
